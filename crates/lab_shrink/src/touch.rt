//! What operations did with rows.
//!
//! A touch is one operation of a committed transaction at one row: it wrote a version of the row, or saw one in a way that
//! dependencies may come of.

use crate::block::{Block, Sort};
use lab_deps::value_of;
use lab_history::Op;
use lab_table::{RowName, Value};

/// No number.
pub const NONE: usize = usize::MAX;

/// Which version of which row was touched. They are ordered by row, then by version, whose writers come before those that saw
/// it.
#[derive(Clone, Copy, PartialEq, Eq, PartialOrd, Ord)]
pub struct Touched {
    /// The row's place among the rows of the history.
    pub row: usize,
    /// The place of the version among the row's versions, the initial one's being 0.
    pub version: usize,
    /// Whether it was seen, and not written.
    pub is_seen: bool,
}

/// What an operation did with a row.
#[derive(Clone, Copy)]
pub struct Touch {
    pub touched: Touched,
    /// The place of the transaction in the history.
    pub txn: usize,
    /// The number of the operation, counted from 0 over the whole history.
    pub op: usize,
    /// The number of the view's entry, counted from 0 over the whole history; NONE where the view lists none.
    pub entry: usize,
    /// The number of the operation that wrote what was seen, and the place of its transaction; NONE where that is the initial
    /// version.
    pub seen_op: usize,
    pub seen_txn: usize,
    /// Whether what was seen is of the same transaction.
    pub is_own: bool,
    /// Whether the operation would have listed and written the same, had it seen the initial version.
    pub fits_initial: bool,
}

impl Touch {
    /// Whether it is gone where a block is.
    pub fn is_gone(&self, block: Block) -> bool {
        match block.sort {
            Sort::Transactions => block.has(self.txn),
            Sort::Operations => block.has(self.op),
            Sort::Rows => block.has(self.touched.row),
            Sort::Entries => false,
        }
    }

    /// Whether what it saw is gone where a block is, so that it sees the row as it was at first.
    pub fn is_moved(&self, block: Block) -> bool {
        match block.sort {
            Sort::Transactions => self.seen_op != NONE && block.has(self.seen_txn),
            Sort::Operations => self.seen_op != NONE && block.has(self.seen_op),
            Sort::Rows => false,
            Sort::Entries => self.entry != NONE && block.has(self.entry),
        }
    }
}

/// Whether an operation would have listed and written the same of a row in this state.
pub fn fits(op: &Op, row: RowName, state: &Option<Value>) -> bool {
    let statement = &op.statement;
    if statement.fails_at(row, *state) || statement.listed(row, *state) != op.rows.get(row) {
        return false;
    }
    match op.writes.get(row) {
        None => !statement.would_write(row, *state),
        Some(written) => {
            statement.would_write(row, *state)
                && statement.new_state(row, *state) == value_of(written)
        }
    }
}
