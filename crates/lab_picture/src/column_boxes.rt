//! The boxes of a column.

ghost use Rattle.std.specs.Prelude.{◌≡◌, ◌++◌, ◌≤◌, length, OnOk};
ghost use Rattle.lab_picture.specs.Boxes.{stroke_of, place_of, op_text, drawn_text, boxes_text};

use crate::boxes::{put_box, telling};
use crate::classes::box_class;
use crate::few::{is_kept, slot_of};
use crate::layout::{Column, Frame, Stroke, box_height, left, upper};
use crate::named::rows_at;
use lab_drawing::Arrow;
use lab_history::Op;
use lab_table::NoMemory;
use std::alloc::Global;

/// The edge of a column's box: thick where it is marked, thin in a thin column.
fn stroke_of(column: &Column, op: u32) -> Stroke
    ensures { result ≡ stroke_of column.now op }
{
    if op == column.marked {
        Stroke::Thick
    } else if column.thin {
        Stroke::Thin
    } else {
        Stroke::Plain
    }
}

/// At which place of its column an operation is drawn.
fn place_of(frame: Frame, arrows: &[Arrow], column: &Column, number: u32) -> u32
    ensures { result ≡ place_of frame arrows.now column.now number }
{
    slot_of(frame.few, arrows, column.txn, column.marked, number)
}

/// Appends the box of an operation.
fn put_op(
    alloc: Global,
    out: &mut Vec<u8>,
    frame: Frame,
    arrows: &[Arrow],
    steps: &[Arrow],
    column: &Column,
    number: u32,
    op: &Op,
) -> Result<(), NoMemory>
    requires { column.now.place ≤ 40 }
    ensures { OnOk result (out.new.items ≡ out.old.items ++ op_text frame arrows.now steps.now column.now number op.now) }
{
    let named = rows_at(alloc, arrows, column.txn, number)?;
    let told = telling(alloc, &named, op)?;
    let class = box_class(alloc, steps, column, number)?;
    let x = left(column.place);
    let y = upper(frame, column.place, place_of(frame, arrows, column, number));
    let height = box_height(frame);
    let stroke = stroke_of(column, number);
    put_box(alloc, out, x, y, height, stroke, &class, &told)
}

/// Appends the box of an operation, if it is drawn.
fn put_drawn(
    alloc: Global,
    out: &mut Vec<u8>,
    frame: Frame,
    arrows: &[Arrow],
    steps: &[Arrow],
    column: &Column,
    number: u32,
    op: &Op,
) -> Result<(), NoMemory>
    requires { column.now.place ≤ 40 }
    ensures { OnOk result (out.new.items ≡ out.old.items ++ drawn_text frame arrows.now steps.now column.now number op.now) }
{
    if is_kept(frame.few, arrows, column.txn, column.marked, number) {
        put_op(alloc, out, frame, arrows, steps, column, number, op)
    } else {
        Ok(())
    }
}

/// Appends the boxes of a column. The arrows say which are drawn where few are, and which rows stay in them, the steps which
/// classes they have.
pub fn put_boxes(
    alloc: Global,
    out: &mut Vec<u8>,
    frame: Frame,
    arrows: &[Arrow],
    steps: &[Arrow],
    column: &Column,
    ops: &[Op],
) -> Result<(), NoMemory>
    requires column { column.now.place ≤ 40 }
    requires few { length ops.now ≤ 10000 }
    ensures { OnOk result (out.new.items ≡ out.old.items ++ boxes_text frame arrows.now steps.now column.now 0 ops.now) }
{
    for (index, op) in ops.iter().enumerate() {
        let number = index as u32 + 1;
        put_drawn(alloc, out, frame, arrows, steps, column, number, op)?;
    }
    Ok(())
}
