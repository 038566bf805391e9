//! Where transactions stand in a history.

use lab_history::History;
use lab_table::{NoMemory, TxnNo};
use std::alloc::Global;

/// Where a transaction stands.
#[derive(Clone, Copy)]
pub struct Standing {
    pub txn: TxnNo,
    /// Its place in the history.
    pub place: usize,
    /// The number of its first operation, counted from 0 over the whole history.
    pub first: usize,
}

impl Standing {
    /// The number, over the whole history, of an operation that has this number in its transaction, counted from 1 there.
    pub fn number_of(&self, op: u32) -> usize {
        self.first.saturating_add(op.saturating_sub(1) as usize)
    }
}

/// Where the transactions of a history stand, by rising number.
#[derive(Drop)]
pub struct Standings {
    items: Vec<Standing>,
}

impl Standings {
    /// Where the transactions of a history stand.
    pub fn of(alloc: Global, history: &History) -> Result<Standings, NoMemory> {
        let mut items = Vec::new(alloc);
        let mut first = 0usize;
        for (place, txn) in history.txns().as_slice().iter().enumerate() {
            items.push(Standing {
                txn: txn.no,
                place,
                first,
            })?;
            first = first.saturating_add(txn.ops.as_slice().len());
        }
        items.sort_by_key(|standing| standing.txn)?;
        Ok(Standings { items })
    }

    /// Where a transaction stands, if there is such a one.
    pub fn find(&self, txn: TxnNo) -> Option<&Standing> {
        let place = self.items.partition_point(|other| other.txn < txn);
        let standing = self.items.get(place)?;
        if standing.txn == txn {
            Some(standing)
        } else {
            None
        }
    }
}
