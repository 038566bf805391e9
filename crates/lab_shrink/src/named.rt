//! The rows that a history names.

use lab_history::{History, Op};
use lab_table::{NoMemory, RowName};
use std::alloc::Global;

/// The rows that the lists of a history name, each once, by rising row.
pub fn named_rows(alloc: Global, history: &History) -> Result<Vec<RowName>, NoMemory> {
    let mut rows = Vec::new(alloc);
    push_rows(&mut rows, history.initial().rows())?;
    push_rows(&mut rows, history.installed().entries())?;
    push_rows(&mut rows, history.end_table().rows())?;
    put_in_order(&mut rows)?;
    let tables = rows.len();
    for txn in history.txns().as_slice() {
        for op in txn.ops.as_slice() {
            push_new(&mut rows, tables, op)?;
        }
    }
    put_in_order(&mut rows)?;
    Ok(rows)
}

/// Puts rows in order, each once.
pub fn put_in_order(rows: &mut Vec<RowName>) -> Result<(), NoMemory> {
    rows.sort()?;
    rows.dedup();
    Ok(())
}

/// Whether a row is one of some that rise.
pub fn is_among(row: &RowName, rows: &[RowName]) -> bool {
    rows.binary_search(row).is_ok()
}

/// Adds the rows of some entries.
fn push_rows<X>(rows: &mut Vec<RowName>, entries: &[(RowName, X)]) -> Result<(), NoMemory> {
    for (row, _) in entries {
        rows.push(*row)?;
    }
    Ok(())
}

/// Adds the rows of an operation's lists that aren't among the first so many.
fn push_new(rows: &mut Vec<RowName>, known: usize, op: &Op) -> Result<(), NoMemory> {
    push_unknown(rows, known, op.view.entries())?;
    push_unknown(rows, known, op.rows.entries())?;
    push_unknown(rows, known, op.writes.entries())
}

/// Adds the rows of some entries that aren't among the first so many.
fn push_unknown<X>(
    rows: &mut Vec<RowName>,
    known: usize,
    entries: &[(RowName, X)],
) -> Result<(), NoMemory> {
    for (row, _) in entries {
        let known = known.min(rows.len());
        if !is_among(row, &rows[..known]) {
            rows.push(*row)?;
        }
    }
    Ok(())
}
