//! The rows that a transaction wrote.

ghost use Rattle.std.specs.Prelude.{◌≡◌, ◌≤◌, ◌++◌, length, map, filter, IfOk, OnOk};
ghost use Rattle.lab_table.specs.Row.{row_test};
ghost use Rattle.lab_history.specs.Limits.{max_operations};
ghost use Rattle.lab_history.specs.VersionName.{new_states};
ghost use Rattle.lab_drawing.specs.Written.{is_last, last_rows, rows_along, rows_by, is_beside, has_two};

use crate::states::ops_of;
use lab_history::{History, Op, State};
use lab_table::{NoMemory, RowName, TxnNo};
use std::alloc::Global;

/// Whether an operation is the last of its transaction that writes a row.
fn is_last(history: &History, txn: TxnNo, number: u32, row: RowName) -> bool
    ensures { result ≡ is_last history.now txn number row }
{
    match history.last_write(txn, row) {
        None => false,
        Some(last) => last == number,
    }
}

/// Appends those of some written rows whose last write is in the operation with this number.
fn put_last(
    rows: &mut Vec<RowName>,
    history: &History,
    txn: TxnNo,
    number: u32,
    written: &[(RowName, State)],
) -> Result<(), NoMemory>
    ensures { OnOk result (rows.new.items ≡ rows.old.items ++ filter (is_last history.now txn number) (map (λ e. e.0) (new_states written.now))) }
{
    for (row, _) in written {
        if is_last(history, txn, number, *row) {
            rows.push(*row)?;
        }
    }
    Ok(())
}

/// Appends the rows that an operation is the last to write.
fn put_last_of(
    rows: &mut Vec<RowName>,
    history: &History,
    txn: TxnNo,
    number: u32,
    op: &Op,
) -> Result<(), NoMemory>
    ensures { OnOk result (rows.new.items ≡ rows.old.items ++ last_rows history.now txn number op.now) }
{
    put_last(rows, history, txn, number, op.writes.entries())
}

/// The rows that these operations of a transaction are the last to write.
fn rows_among(
    alloc: Global,
    history: &History,
    txn: TxnNo,
    ops: &[Op],
) -> Result<Vec<RowName>, NoMemory>
    requires { length ops.now ≤ max_operations }
    ensures { IfOk result (λ rows. rows.items ≡ rows_along history.now txn 0 ops.now) }
{
    let mut rows = Vec::new(alloc);
    for (index, op) in ops.iter().enumerate() {
        put_last_of(&mut rows, history, txn, index as u32 + 1, op)?;
    }
    Ok(rows)
}

/// The rows that a transaction wrote, each once.
pub fn rows_by(alloc: Global, history: &History, txn: TxnNo) -> Result<Vec<RowName>, NoMemory>
    ensures { IfOk result (λ rows. rows.items ≡ rows_by history.now txn) }
{
    rows_among(alloc, history, txn, ops_of(history, txn))
}

fn is_same_row(one: RowName, other: RowName) -> bool
    ensures { result ≡ row_test one other }
{
    one == other
}

/// Whether one of these rows isn't this one.
fn is_beside(others: &[RowName], row: RowName) -> bool
    ensures { result ≡ is_beside others.now row }
{
    others.iter().any(|other| !is_same_row(row, *other))
}

/// Whether there is one of the first rows, and another one of the second.
pub fn has_two(ones: &[RowName], others: &[RowName]) -> bool
    ensures { result ≡ has_two ones.now others.now }
{
    ones.iter().any(|row| is_beside(others, *row))
}
