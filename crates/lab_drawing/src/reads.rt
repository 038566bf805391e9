//! What transactions read of rows that others wrote: an older version, or theirs or a later one.
//!
//! An operation reads a row if it lists the row and its result depends on the row's value. What it reads of its own
//! transaction's writes isn't compared with others' writes.

ghost use Rattle.std.specs.Prelude.{◌≡◌, IfOk};
ghost use Rattle.lab_drawing.specs.Reads.{reads, place_seen, is_below, is_above, saw_older, is_older_read, is_newer_read, has_older, has_newer, read_older, read_newer, older_rows, newer_rows};

use crate::states::ops_of;
use crate::values::uses_values;
use lab_deps::{place_of, viewed};
use lab_history::{History, Op};
use lab_table::{NoMemory, RowName, TxnNo};
use std::alloc::Global;

/// Whether an operation reads a row.
pub fn reads(op: &Op, row: RowName) -> bool
    ensures { result ≡ reads op.now row }
{
    op.rows.get(row).is_some() && uses_values(&op.statement)
}

/// The position of the version of a row that an operation saw; none of its own transaction's, or of one that isn't
/// installed.
fn place_seen(history: &History, reader: TxnNo, row: RowName, op: &Op) -> Option<usize>
    ensures { result ≡ place_seen history.now reader row op.now }
{
    place_of(history, reader, row, viewed(op, row))
}

/// Whether there is a position, and it is below this one.
fn is_below(place: Option<usize>, written: usize) -> bool
    ensures { result ≡ is_below place written }
{
    match place {
        None => false,
        Some(seen) => seen < written,
    }
}

/// Whether there is a position, and it is this one or above it.
fn is_above(place: Option<usize>, written: usize) -> bool
    ensures { result ≡ is_above place written }
{
    match place {
        None => false,
        Some(seen) => written <= seen,
    }
}

/// Whether an operation saw a version of a row before the one at a position.
pub fn saw_older(history: &History, reader: TxnNo, row: RowName, written: usize, op: &Op) -> bool
    ensures { result ≡ saw_older history.now reader row written op.now }
{
    is_below(place_seen(history, reader, row, op), written)
}

/// Whether an operation read a row in a version before the one at a position.
fn is_older_read(history: &History, reader: TxnNo, row: RowName, written: usize, op: &Op) -> bool
    ensures { result ≡ is_older_read history.now reader row written op.now }
{
    reads(op, row) && saw_older(history, reader, row, written, op)
}

/// Whether an operation read a row in the version at a position or a later one.
fn is_newer_read(history: &History, reader: TxnNo, row: RowName, written: usize, op: &Op) -> bool
    ensures { result ≡ is_newer_read history.now reader row written op.now }
{
    reads(op, row) && is_above(place_seen(history, reader, row, op), written)
}

/// Whether a transaction read a row in a version before the one at a position.
fn has_older(history: &History, reader: TxnNo, row: RowName, written: usize) -> bool
    ensures { result ≡ has_older history.now reader row written }
{
    ops_of(history, reader)
        .iter()
        .any(|op| is_older_read(history, reader, row, written, op))
}

/// Whether a transaction read a row in the version at a position or a later one.
fn has_newer(history: &History, reader: TxnNo, row: RowName, written: usize) -> bool
    ensures { result ≡ has_newer history.now reader row written }
{
    ops_of(history, reader)
        .iter()
        .any(|op| is_newer_read(history, reader, row, written, op))
}

/// Whether a transaction read a row in a version before another one's.
pub fn read_older(history: &History, reader: TxnNo, row: RowName, writer: TxnNo) -> bool
    ensures { result ≡ read_older history.now reader row writer }
{
    match history.installer_place(row, writer) {
        None => false,
        Some(written) => has_older(history, reader, row, written),
    }
}

/// Whether a transaction read a row in another one's version or a later one.
pub fn read_newer(history: &History, reader: TxnNo, row: RowName, writer: TxnNo) -> bool
    ensures { result ≡ read_newer history.now reader row writer }
{
    match history.installer_place(row, writer) {
        None => false,
        Some(written) => has_newer(history, reader, row, written),
    }
}

/// Those of these rows that a transaction read in a version before another one's.
pub fn older_rows(
    alloc: Global,
    history: &History,
    reader: TxnNo,
    writer: TxnNo,
    rows: &[RowName],
) -> Result<Vec<RowName>, NoMemory>
    ensures { IfOk result (λ found. found.items ≡ older_rows history.now reader writer rows.now) }
{
    let mut found = Vec::new(alloc);
    for row in rows {
        if read_older(history, reader, *row, writer) {
            found.push(*row)?;
        }
    }
    Ok(found)
}

/// Those that it read in the other one's version or a later one.
pub fn newer_rows(
    alloc: Global,
    history: &History,
    reader: TxnNo,
    writer: TxnNo,
    rows: &[RowName],
) -> Result<Vec<RowName>, NoMemory>
    ensures { IfOk result (λ found. found.items ≡ newer_rows history.now reader writer rows.now) }
{
    let mut found = Vec::new(alloc);
    for row in rows {
        if read_newer(history, reader, *row, writer) {
            found.push(*row)?;
        }
    }
    Ok(found)
}
