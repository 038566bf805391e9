//! The rows that a transaction wrote.

ghost use Rattle.std.specs.Prelude.{◌≡◌, ◌++◌, IfOk, OnOk};
ghost use Rattle.std.specs.FinMap as map;
ghost use Rattle.std.specs.List.Sorted.{IsStrictlySortedBy};
ghost use Rattle.lab_table.specs.Row.{row_cmp};
ghost use Rattle.lab_deps.specs.Meetings.{named_in, written_in, HasWritten};

use crate::collect::committed_ops;
use lab_history::{History, Op, Writes};
use lab_table::{NoMemory, RowName, TxnNo};
use std::alloc::Global;

/// The rows that the operations of a committed transaction wrote, each once, by rising row; none of any other. NoMemory
/// where an allocation was refused.
pub fn rows_written(alloc: Global, history: &History, txn: TxnNo) -> Result<Vec<RowName>, NoMemory>
    ensures has { IfOk result (λ rows. HasWritten history.now txn rows.items) }
    ensures rises { IfOk result (λ rows. IsStrictlySortedBy row_cmp rows.items) }
{
    let mut rows = rows_of_ops(alloc, committed_ops(history, txn))?;
    rows.sort()?;
    rows.dedup();
    Ok(rows)
}

/// The rows that operations wrote, one operation after another.
fn rows_of_ops(alloc: Global, ops: &[Op]) -> Result<Vec<RowName>, NoMemory>
    ensures { IfOk result (λ rows. rows.items ≡ written_in ops.now) }
{
    let mut rows = Vec::new(alloc);
    for op in ops {
        add_rows(&mut rows, &op.writes)?;
    }
    Ok(rows)
}

/// Adds the rows that an operation wrote.
fn add_rows(rows: &mut Vec<RowName>, written: &Writes) -> Result<(), NoMemory>
    ensures { OnOk result (rows.new.items ≡ rows.old.items ++ named_in (map.entries written.now)) }
{
    let entries = written.entries();
    for (row, _) in entries {
        rows.push(*row)?;
    }
    Ok(())
}
