//! Long forks and phantoms.

ghost use Rattle.std.specs.Prelude.{◌≡◌, ◌||◌, false, filter, IfOk};
ghost use Rattle.lab_drawing.specs.Forks.{splits, split_rows, is_fork, fork_of, is_long_fork, follows, depends, ties_otherwise, ties_at_some, is_tied_otherwise, is_predicate_anti, is_phantom_at, is_phantom};

use crate::installs::installers_of;
use crate::making::is_made;
use crate::reads::{read_newer, read_older};
use crate::written::{has_two, rows_by};
use lab_deps::{Edge, Kind};
use lab_history::History;
use lab_table::{NoMemory, RowName, TxnNo};
use std::alloc::Global;

/// Two writers, and for each the reader that saw its write.
#[derive(Clone, Copy, Debug)]
pub struct Fork {
    pub first: TxnNo,
    pub saw_first: TxnNo,
    pub second: TxnNo,
    pub saw_second: TxnNo,
}

/// Whether one transaction read a row in a writer's version or a later one, and another one in an older version.
fn splits(history: &History, writer: TxnNo, saw: TxnNo, missed: TxnNo, row: RowName) -> bool
    ensures { result ≡ splits history.now writer saw missed row }
{
    read_newer(history, saw, row, writer) && read_older(history, missed, row, writer)
}

/// Those of these rows at which this is so.
fn split_among(
    alloc: Global,
    history: &History,
    writer: TxnNo,
    saw: TxnNo,
    missed: TxnNo,
    rows: &[RowName],
) -> Result<Vec<RowName>, NoMemory>
    ensures { IfOk result (λ found. found.items ≡ filter (splits history.now writer saw missed) rows.now) }
{
    let mut found = Vec::new(alloc);
    for row in rows {
        if splits(history, writer, saw, missed, *row) {
            found.push(*row)?;
        }
    }
    Ok(found)
}

/// The rows that a writer wrote, at which this is so.
fn split_rows(
    alloc: Global,
    history: &History,
    writer: TxnNo,
    saw: TxnNo,
    missed: TxnNo,
) -> Result<Vec<RowName>, NoMemory>
    ensures { IfOk result (λ found. found.items ≡ split_rows history.now writer saw missed) }
{
    let rows = rows_by(alloc, history, writer)?;
    split_among(alloc, history, writer, saw, missed, &rows)
}

/// Whether each of two writes of two rows is seen by its reader alone.
fn is_fork(alloc: Global, history: &History, fork: &Fork) -> Result<bool, NoMemory>
    ensures { IfOk result (λ is_one. is_one ≡ is_fork history.now fork.now) }
{
    let first = split_rows(alloc, history, fork.first, fork.saw_first, fork.saw_second)?;
    let second = split_rows(alloc, history, fork.second, fork.saw_second, fork.saw_first)?;
    Ok(has_two(&first, &second))
}

/// The transactions from which these dependencies lead.
fn fork_of(one: &Edge, two: &Edge, three: &Edge, four: &Edge) -> Fork
    ensures { result ≡ fork_of one.now two.now three.now four.now }
{
    Fork {
        first: one.from,
        saw_first: two.from,
        second: three.from,
        saw_second: four.from,
    }
}

/// Whether the transactions of four dependencies are a fork, if the first or the second writer is the first of them.
fn are_fork(alloc: Global, history: &History, fork: &Fork, turned: &Fork) -> Result<bool, NoMemory>
    ensures { IfOk result (λ are. are ≡ (is_fork history.now fork.now || is_fork history.now turned.now)) }
{
    if is_fork(alloc, history, fork)? {
        return Ok(true);
    }
    is_fork(alloc, history, turned)
}

/// Whether a cycle is a long fork.
pub fn is_long_fork(alloc: Global, history: &History, walk: &[Edge]) -> Result<bool, NoMemory>
    ensures { IfOk result (λ is_one. is_one ≡ is_long_fork history.now walk.now) }
{
    match walk {
        [one, two, three, four] => {
            let fork = fork_of(one, two, three, four);
            let turned = fork_of(two, three, four, one);
            are_fork(alloc, history, &fork, &turned)
        }
        _ => Ok(false),
    }
}

/// Whether one number comes right after another in a list.
pub fn follows(numbers: &[TxnNo], first: TxnNo, next: TxnNo) -> bool
    ensures { result ≡ follows first next false numbers.now }
{
    let mut is_behind = false;
    for number in numbers {
        if is_behind && *number == next {
            return true;
        }
        is_behind = *number == first;
    }
    false
}

/// Whether one transaction depends on another at a row, in another way than by a predicate anti-dependency.
fn ties_otherwise(history: &History, from: TxnNo, to: TxnNo, row: RowName) -> bool
    ensures { result ≡ ties_otherwise history.now from to row }
{
    follows(installers_of(history, row), from, to)
        || (depends(history, from, to, Kind::ItemRead, row)
            || (depends(history, from, to, Kind::PredicateRead, row)
                || depends(history, from, to, Kind::ItemAnti, row)))
}

pub fn depends(history: &History, from: TxnNo, to: TxnNo, kind: Kind, row: RowName) -> bool
    ensures { result ≡ depends history.now from to kind row }
{
    let edge = Edge {
        from,
        to,
        kind,
        row,
    };
    is_made(history, &edge)
}

/// The same at one of these rows.
fn ties_at_some(history: &History, from: TxnNo, to: TxnNo, rows: &[RowName]) -> bool
    ensures { result ≡ ties_at_some history.now from to rows.now }
{
    rows.iter()
        .any(|row| ties_otherwise(history, from, to, *row))
}

/// The same at some row that one of the two wrote.
fn is_tied_otherwise(
    alloc: Global,
    history: &History,
    from: TxnNo,
    to: TxnNo,
) -> Result<bool, NoMemory>
    ensures { IfOk result (λ is_tied. is_tied ≡ is_tied_otherwise history.now from to) }
{
    let rows = rows_by(alloc, history, from)?;
    let others = rows_by(alloc, history, to)?;
    Ok(ties_at_some(history, from, to, &rows) || ties_at_some(history, from, to, &others))
}

fn is_predicate_anti(kind: Kind) -> bool
    ensures { result ≡ is_predicate_anti kind }
{
    matches!(kind, Kind::PredicateAnti)
}

/// Whether a dependency is a predicate anti-dependency, and there is none of another kind between its transactions.
fn is_phantom_at(alloc: Global, history: &History, edge: &Edge) -> Result<bool, NoMemory>
    ensures { IfOk result (λ is_one. is_one ≡ is_phantom_at history.now edge.now) }
{
    if !is_predicate_anti(edge.kind) {
        return Ok(false);
    }
    let is_tied = is_tied_otherwise(alloc, history, edge.from, edge.to)?;
    Ok(!is_tied)
}

/// Whether a cycle is a phantom.
pub fn is_phantom(alloc: Global, history: &History, walk: &[Edge]) -> Result<bool, NoMemory>
    ensures { IfOk result (λ is_one. is_one ≡ is_phantom history.now walk.now) }
{
    for edge in walk {
        if is_phantom_at(alloc, history, edge)? {
            return Ok(true);
        }
    }
    Ok(false)
}
