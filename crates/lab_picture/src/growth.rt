//! How many lines the fullest box of a picture has beyond four.

ghost use Rattle.std.specs.Prelude.{◌≡◌, ◌≤◌, length, IfOk};
ghost use Rattle.lab_history.specs.Limits.{max_operations};
ghost use Rattle.lab_picture.specs.Boxes.{box_lines};
ghost use Rattle.lab_picture.specs.Named.{rows_at};
ghost use Rattle.lab_picture.specs.Growth.{fullest_box, fullest, extra_lines};

use crate::boxes::lines_in_box;
use crate::named::rows_at;
use lab_drawing::{Arrow, ops_of};
use lab_history::{History, Op};
use lab_table::{NoMemory, TxnNo};
use std::alloc::Global;

/// How many lines the box of an operation needs.
fn needed(
    alloc: Global,
    arrows: &[Arrow],
    txn: TxnNo,
    number: u32,
    op: &Op,
) -> Result<u64, NoMemory>
    ensures { IfOk result (λ lines. lines ≡ box_lines (rows_at arrows.now txn number) op.now) }
{
    let named = rows_at(alloc, arrows, txn, number)?;
    lines_in_box(alloc, &named, op)
}

/// How many lines the fullest box of a transaction has, and no fewer than given.
fn fullest_box(
    alloc: Global,
    arrows: &[Arrow],
    txn: TxnNo,
    least: u64,
    ops: &[Op],
) -> Result<u64, NoMemory>
    requires { length ops.now ≤ max_operations }
    ensures { IfOk result (λ most. most ≡ fullest_box arrows.now txn 0 least ops.now) }
{
    let mut most = least;
    for (index, op) in ops.iter().enumerate() {
        let number = index as u32 + 1;
        most = most.max(needed(alloc, arrows, txn, number, op)?);
    }
    Ok(most)
}

/// How many lines the fullest box of some transactions has, and no fewer than four.
fn fullest(
    alloc: Global,
    history: &History,
    arrows: &[Arrow],
    columns: &[TxnNo],
) -> Result<u64, NoMemory>
    ensures { IfOk result (λ most. most ≡ fullest history.now arrows.now 4 columns.now) }
{
    let mut most = 4;
    for txn in columns {
        most = fullest_box(alloc, arrows, *txn, most, ops_of(history, *txn))?;
    }
    Ok(most)
}

/// How many lines the fullest box of some transactions has beyond four.
pub fn extra_lines(
    alloc: Global,
    history: &History,
    arrows: &[Arrow],
    columns: &[TxnNo],
) -> Result<u64, NoMemory>
    ensures { IfOk result (λ extra. extra ≡ extra_lines history.now arrows.now columns.now) }
{
    let most = fullest(alloc, history, arrows, columns)?;
    Ok(most.saturating_sub(4))
}
