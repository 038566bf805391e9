//! What is taken away at once: things of one sort that stand beside each other.

ghost use Rattle.std.specs.Prelude.{IfOk, IfSome};
ghost use Rattle.lab_cut.specs.PartOf.{IsPartOf};

use crate::named::named_rows;
use lab_cut::{with_rows, without_entries, without_operations};
use lab_history::History;
use lab_table::{NoMemory, RowName};
use std::alloc::Global;

/// A sort of things that can be taken away.
#[derive(Clone, Copy, Debug, PartialEq, Eq)]
pub enum Sort {
    Transactions,
    Operations,
    Rows,
    /// What views list.
    Entries,
}

/// Things of one sort, by their places in the history, counted from 0.
#[derive(Clone, Copy, Debug)]
pub struct Block {
    pub sort: Sort,
    /// The first place.
    pub from: usize,
    /// The place behind the last.
    pub to: usize,
}

impl Block {
    /// Whether the thing at a place is one of them.
    pub fn has(self, place: usize) -> bool {
        self.from <= place && place < self.to
    }

    /// A history without them, where that is one.
    pub fn taken_from(self, alloc: Global, history: &History) -> Result<Option<History>, NoMemory>
        ensures { IfOk result (λ left. IfSome left (λ part. IsPartOf part history.now)) }
    {
        match self.sort {
            Sort::Transactions => {
                let kept = outside_transactions(alloc, history, self)?;
                without_operations(alloc, history, &kept)
            }
            Sort::Operations => {
                let kept = outside(alloc, self)?;
                without_operations(alloc, history, &kept)
            }
            Sort::Rows => {
                let rows = rows_outside(alloc, history, self)?;
                with_rows(alloc, history, &rows)
            }
            Sort::Entries => {
                let kept = outside(alloc, self)?;
                without_entries(alloc, history, &kept)
            }
        }
    }
}

/// Of each place up to the end of a block, whether it is outside.
fn outside(alloc: Global, block: Block) -> Result<Vec<bool>, NoMemory> {
    let mut kept = Vec::new(alloc);
    for place in 0..block.to {
        kept.push(!block.has(place))?;
    }
    Ok(kept)
}

/// Of each operation, whether its transaction is outside a block.
fn outside_transactions(
    alloc: Global,
    history: &History,
    block: Block,
) -> Result<Vec<bool>, NoMemory> {
    let mut kept = Vec::new(alloc);
    for (place, txn) in history.txns().as_slice().iter().enumerate() {
        push_times(&mut kept, txn.ops.as_slice().len(), !block.has(place))?;
    }
    Ok(kept)
}

fn push_times(kept: &mut Vec<bool>, times: usize, item: bool) -> Result<(), NoMemory> {
    for _ in 0..times {
        kept.push(item)?;
    }
    Ok(())
}

/// The rows that a history names, but those of a block.
fn rows_outside(alloc: Global, history: &History, block: Block) -> Result<Vec<RowName>, NoMemory> {
    let named = named_rows(alloc, history)?;
    let mut rows = Vec::new(alloc);
    for (place, row) in named.iter().enumerate() {
        if !block.has(place) {
            rows.push(*row)?;
        }
    }
    Ok(rows)
}
