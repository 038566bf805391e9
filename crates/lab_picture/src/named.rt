//! Which rows the arrows name that are drawn from and to an operation.

ghost use Rattle.std.specs.Prelude.{◌≡◌, ◌++◌, IfOk, OnOk};
ghost use Rattle.lab_picture.specs.Named.{has_ends, drawn, is_at, touches, rows_at};

use crate::arrows::column_of;
use lab_drawing::{Arrow, Spot};
use lab_table::{NoMemory, RowName, TxnNo};
use std::alloc::Global;

/// Whether both transactions of an arrow have columns.
fn has_ends(columns: &[TxnNo], arrow: &Arrow) -> bool
    ensures { result ≡ has_ends columns.now arrow.now }
{
    column_of(columns, arrow.from.txn).is_some() && column_of(columns, arrow.to.txn).is_some()
}

/// Appends the arrows that are drawn between columns of these transactions.
fn add_drawn(found: &mut Vec<Arrow>, columns: &[TxnNo], arrows: &[Arrow]) -> Result<(), NoMemory>
    ensures { OnOk result (found.new.items ≡ found.old.items ++ drawn columns.now arrows.now) }
{
    for arrow in arrows {
        if has_ends(columns, arrow) {
            found.push(*arrow)?;
        }
    }
    Ok(())
}

/// The arrows that are drawn between columns of these transactions: of these and of those.
pub fn drawn(
    alloc: Global,
    columns: &[TxnNo],
    arrows: &[Arrow],
    forward: &[Arrow],
) -> Result<Vec<Arrow>, NoMemory>
    ensures { IfOk result (λ found. found.items ≡ drawn columns.now (arrows.now ++ forward.now)) }
{
    let mut found = Vec::new(alloc);
    add_drawn(&mut found, columns, arrows)?;
    add_drawn(&mut found, columns, forward)?;
    Ok(found)
}

/// Whether this is an operation of a transaction.
fn is_at(txn: TxnNo, op: u32, spot: Spot) -> bool
    ensures { result ≡ is_at txn op spot }
{
    spot.txn == txn && spot.op == op
}

/// Whether an arrow leads from an operation, or to it.
pub fn touches(txn: TxnNo, op: u32, arrow: &Arrow) -> bool
    ensures { result ≡ touches txn op arrow.now }
{
    is_at(txn, op, arrow.from) || is_at(txn, op, arrow.to)
}

/// The rows that arrows name which lead from an operation, or to it.
pub fn rows_at(
    alloc: Global,
    arrows: &[Arrow],
    txn: TxnNo,
    op: u32,
) -> Result<Vec<RowName>, NoMemory>
    ensures { IfOk result (λ rows. rows.items ≡ rows_at arrows.now txn op) }
{
    let mut rows = Vec::new(alloc);
    for arrow in arrows {
        if touches(txn, op, arrow) {
            rows.push(arrow.row)?;
        }
    }
    Ok(rows)
}
