//! Anomalies of two transactions: lost update, read skew, non-repeatable read and write skew.

ghost use Rattle.std.specs.Prelude.{◌≡◌, false, filter, IfOk};
ghost use Rattle.lab_drawing.specs.Pairs.{is_blind, is_lost_by, overwrites, loses, loses_some, has_read_skew, rereads, rereads_some, misses, has_write_skew, is_pair, is_neighbour, has_pair};

use crate::making::is_made;
use crate::reads::{newer_rows, older_rows, read_newer, read_older, reads, saw_older};
use crate::states::ops_of;
use crate::values::uses_values;
use crate::written::{has_two, rows_by};
use lab_deps::{Edge, Kind};
use lab_history::{History, Op};
use lab_table::{NoMemory, RowName, TxnNo};
use std::alloc::Global;

/// An anomaly of two transactions.
#[derive(Clone, Copy, Debug, PartialEq, Eq)]
pub enum Pair {
    /// The second transaction overwrote an update of the first one without having seen it.
    LostUpdate,
    /// The first transaction saw one of the second one's writes, and missed another one.
    ReadSkew,
    /// The first transaction read a row before and after the second one wrote it.
    FuzzyRead,
    /// Each of the two missed a write of the other one.
    WriteSkew,
}

/// Whether an operation overwrites a row whatever its value, after the last read of the row saw a version before the
/// overwritten one.
fn is_blind(op: &Op, read_older: bool) -> bool
    ensures { result ≡ is_blind op.now read_older }
{
    read_older && !uses_values(&op.statement)
}

/// Whether an operation that writes a row loses the version at a position.
fn is_lost_by(
    history: &History,
    txn: TxnNo,
    row: RowName,
    lost: usize,
    op: &Op,
    read_older: bool,
) -> bool
    ensures { result ≡ is_lost_by history.now txn row lost op.now read_older }
{
    op.statement.inserted().is_none()
        && (saw_older(history, txn, row, lost, op) || is_blind(op, read_older))
}

/// Whether the first of some operations that writes a row loses the version at a position.
fn overwrites(history: &History, txn: TxnNo, row: RowName, lost: usize, ops: &[Op]) -> bool
    ensures { result ≡ overwrites history.now txn row lost false ops.now }
{
    let mut read_older = false;
    for op in ops {
        if op.writes.get(row).is_some() {
            return is_lost_by(history, txn, row, lost, op, read_older);
        }
        if reads(op, row) {
            read_older = saw_older(history, txn, row, lost, op);
        }
    }
    false
}

/// Whether one transaction's write of a row is lost by another one's.
fn loses(history: &History, lost: TxnNo, by: TxnNo, row: RowName) -> bool
    ensures { result ≡ loses history.now lost by row }
{
    let Some(place) = history.installer_place(row, lost) else {
        return false;
    };
    let Some(later) = history.installer_place(row, by) else {
        return false;
    };
    place < later && overwrites(history, by, row, place, ops_of(history, by))
}

/// The same of one of these rows.
fn loses_some(history: &History, lost: TxnNo, by: TxnNo, rows: &[RowName]) -> bool
    ensures { result ≡ loses_some history.now lost by rows.now }
{
    rows.iter().any(|row| loses(history, lost, by, *row))
}

/// Whether a transaction read a row both in a version before another one's, and in that one's or a later one.
fn rereads(history: &History, reader: TxnNo, writer: TxnNo, row: RowName) -> bool
    ensures { result ≡ rereads history.now reader writer row }
{
    read_older(history, reader, row, writer) && read_newer(history, reader, row, writer)
}

/// The same of one of these rows.
fn rereads_some(history: &History, reader: TxnNo, writer: TxnNo, rows: &[RowName]) -> bool
    ensures { result ≡ rereads_some history.now reader writer rows.now }
{
    rows.iter()
        .any(|row| rereads(history, reader, writer, *row))
}

/// Whether a transaction's reads of two of these rows are skewed by another one's writes.
fn has_read_skew(
    alloc: Global,
    history: &History,
    reader: TxnNo,
    writer: TxnNo,
    rows: &[RowName],
) -> Result<bool, NoMemory>
    ensures { IfOk result (λ has. has ≡ has_read_skew history.now reader writer rows.now) }
{
    let missed = older_rows(alloc, history, reader, writer, rows)?;
    let seen = newer_rows(alloc, history, reader, writer, rows)?;
    Ok(has_two(&missed, &seen))
}

/// Whether there is an item anti-dependency at a row from one transaction to another.
fn misses(history: &History, from: TxnNo, to: TxnNo, row: RowName) -> bool
    ensures { result ≡ misses history.now from to row }
{
    let edge = Edge {
        from,
        to,
        kind: Kind::ItemAnti,
        row,
    };
    is_made(history, &edge)
}

/// Those of these rows at which there is one.
fn missed_rows(
    alloc: Global,
    history: &History,
    from: TxnNo,
    to: TxnNo,
    rows: &[RowName],
) -> Result<Vec<RowName>, NoMemory>
    ensures { IfOk result (λ found. found.items ≡ filter (misses history.now from to) rows.now) }
{
    let mut found = Vec::new(alloc);
    for row in rows {
        if misses(history, from, to, *row) {
            found.push(*row)?;
        }
    }
    Ok(found)
}

/// Whether there are item anti-dependencies both ways between two transactions: at one of the first rows there, and at
/// one of the second back.
fn has_write_skew(
    alloc: Global,
    history: &History,
    one: TxnNo,
    two: TxnNo,
    there: &[RowName],
    back: &[RowName],
) -> Result<bool, NoMemory>
    ensures { IfOk result (λ has. has ≡ has_write_skew history.now one two there.now back.now) }
{
    let there = missed_rows(alloc, history, one, two, there)?;
    let back = missed_rows(alloc, history, two, one, back)?;
    Ok(has_two(&there, &back))
}

/// Whether two transactions have an anomaly.
fn is_pair(
    alloc: Global,
    history: &History,
    pair: Pair,
    one: TxnNo,
    two: TxnNo,
) -> Result<bool, NoMemory>
    ensures { IfOk result (λ is_one. is_one ≡ is_pair history.now pair one two) }
{
    let rows = rows_by(alloc, history, two)?;
    let back = rows_by(alloc, history, one)?;
    match pair {
        Pair::LostUpdate => Ok(loses_some(history, one, two, &back)),
        Pair::ReadSkew => has_read_skew(alloc, history, one, two, &rows),
        Pair::FuzzyRead => Ok(rereads_some(history, one, two, &rows)),
        Pair::WriteSkew => has_write_skew(alloc, history, one, two, &rows, &back),
    }
}

/// Whether the transactions of a dependency have an anomaly, one way or the other.
fn is_neighbour(alloc: Global, history: &History, pair: Pair, edge: &Edge) -> Result<bool, NoMemory>
    ensures { IfOk result (λ is_one. is_one ≡ is_neighbour history.now pair edge.now) }
{
    if is_pair(alloc, history, pair, edge.from, edge.to)? {
        return Ok(true);
    }
    is_pair(alloc, history, pair, edge.to, edge.from)
}

/// Whether two neighbours in a cycle have an anomaly.
pub fn has_pair(
    alloc: Global,
    history: &History,
    pair: Pair,
    walk: &[Edge],
) -> Result<bool, NoMemory>
    ensures { IfOk result (λ has. has ≡ has_pair history.now pair walk.now) }
{
    for edge in walk {
        if is_neighbour(alloc, history, pair, edge)? {
            return Ok(true);
        }
    }
    Ok(false)
}
