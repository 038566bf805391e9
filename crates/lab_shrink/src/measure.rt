//! How much there is of a history.

use crate::block::Sort;
use crate::named::named_rows;
use lab_history::{History, Op};
use lab_table::NoMemory;
use std::alloc::Global;

/// How many operations a history has.
pub fn count_operations(history: &History) -> usize {
    let mut count = 0usize;
    for txn in history.txns().as_slice() {
        count = count.saturating_add(txn.ops.as_slice().len());
    }
    count
}

/// How many entries an operation's lists have.
fn count_listed(op: &Op) -> usize {
    op.view
        .entries()
        .len()
        .saturating_add(op.rows.entries().len())
        .saturating_add(op.writes.entries().len())
}

/// How many entries the views of a history have.
pub fn count_viewed(history: &History) -> usize {
    let mut count = 0usize;
    for txn in history.txns().as_slice() {
        for op in txn.ops.as_slice() {
            count = count.saturating_add(op.view.entries().len());
        }
    }
    count
}

/// How many installers all rows of a history have.
fn count_installers(history: &History) -> usize {
    let mut count = 0usize;
    for (_, installers) in history.installed().entries() {
        count = count.saturating_add(installers.as_slice().len());
    }
    count
}

/// How much a history has of all that can be taken away: its transactions, its operations and the members of all lists.
pub fn size_of(history: &History) -> usize {
    let mut size = history
        .txns()
        .as_slice()
        .len()
        .saturating_add(history.initial().rows().len())
        .saturating_add(history.end_table().rows().len())
        .saturating_add(count_installers(history));
    for txn in history.txns().as_slice() {
        for op in txn.ops.as_slice() {
            size = size.saturating_add(1).saturating_add(count_listed(op));
        }
    }
    size
}

/// How many things of a sort a history has.
pub fn count(alloc: Global, history: &History, sort: Sort) -> Result<usize, NoMemory> {
    match sort {
        Sort::Transactions => Ok(history.txns().as_slice().len()),
        Sort::Operations => Ok(count_operations(history)),
        Sort::Rows => Ok(named_rows(alloc, history)?.len()),
        Sort::Entries => Ok(count_viewed(history)),
    }
}
