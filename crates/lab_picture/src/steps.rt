//! The arrows that are steps.

ghost use Rattle.std.specs.Prelude.{◌≡◌, ◌++◌, ◌≤◌, false, length, OnOk};
ghost use Rattle.lab_picture.specs.Arrows.{arrow_text};
ghost use Rattle.lab_picture.specs.Classes.{arrow_class};
ghost use Rattle.lab_picture.specs.Steps.{steps_text};

use crate::arrows::put_arrow;
use crate::classes::arrow_class;
use crate::layout::Frame;
use lab_drawing::Arrow;
use lab_table::{NoMemory, TxnNo};
use std::alloc::Global;

/// Appends the arrow of a step that so many come before, with its class, if both its transactions have a column.
fn put_step(
    alloc: Global,
    out: &mut Vec<u8>,
    frame: Frame,
    columns: &[TxnNo],
    before: usize,
    arrow: &Arrow,
) -> Result<(), NoMemory>
    requires { length columns.now ≤ 40 }
    ensures { OnOk result (out.new.items ≡ out.old.items ++ arrow_text frame false (arrow_class before arrow.now.tie) columns.now arrow.now) }
{
    let class = arrow_class(alloc, before, arrow.tie)?;
    put_arrow(alloc, out, frame, false, &class, columns, arrow)
}

/// Appends the arrows of steps whose transactions have columns, each with its class.
pub fn put_steps(
    alloc: Global,
    out: &mut Vec<u8>,
    frame: Frame,
    columns: &[TxnNo],
    arrows: &[Arrow],
) -> Result<(), NoMemory>
    requires { length columns.now ≤ 40 }
    ensures { OnOk result (out.new.items ≡ out.old.items ++ steps_text frame columns.now 0 arrows.now) }
{
    for (index, arrow) in arrows.iter().enumerate() {
        put_step(alloc, out, frame, columns, index, arrow)?;
    }
    Ok(())
}
