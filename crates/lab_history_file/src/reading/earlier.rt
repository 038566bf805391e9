//! The transactions of a history file that have been read.

ghost use Rattle.std.specs.Prelude.{◌≡◌, ◌≤◌, ◌+◌, ◌==◌, ◌++◌, ◌∷◌, [], length, IfOk};
ghost use Rattle.std.specs.List.{list_any};
ghost use Rattle.lab_history.specs.HistoryRules.{operations};
ghost use Rattle.lab_history.specs.Limits.{max_operations};

use lab_history::{Txn, Txns};
use lab_table::{NoMemory, TxnNo};
use std::alloc::Global;
use std::collections::BTreeSet;
use std::marker::Model;

/// Transactions in the order of the file, with their numbers sorted and their operations counted: at most [`MAX_OPERATIONS`](lab_history::MAX_OPERATIONS).
#[derive(Drop)]
pub struct Earlier {
    txns: Vec<Txn>,
    numbers: BTreeSet<u32>,
    count: usize,
}

impl Model for Earlier {
    ghost use Rattle.std.specs.Prelude.{◌≡◌, ◌≤◌, ◌==◌, ℕ, List, length};
    ghost use Rattle.std.specs.Ordering.{nat_cmp};
    ghost use Rattle.std.specs.List.{list_any};
    ghost use Rattle.std.specs.BTreeSet.{contains_by};
    ghost use Rattle.std.specs.Coded.{coded_list};
    ghost use Rattle.lab_history.specs.declared.transaction.Txn.{Txn};
    ghost use Rattle.lab_history.specs.contracts.transaction.Txn as txn;
    ghost use Rattle.lab_history.specs.HistoryRules.{operations};
    ghost use Rattle.lab_history.specs.Limits.{max_operations};

    ghost Value = { List Txn };

    ghost coded = { coded_list txn.the_row.coded };

    ghost view = { λ e. e.txns.items };

    ghost invariant = { λ e. ((n : ℕ) → contains_by (nat_cmp n) e.numbers ≡ list_any (λ t. t.no == n) e.txns.items)
        × (e.count ≡ length (operations e.txns.items)) × (e.count ≤ max_operations) };
}

impl Earlier {
    /// No transactions, with room for this many.
    pub fn with_capacity(alloc: Global, count: usize) -> Result<Earlier, NoMemory>
        ensures { IfOk result (λ earlier. earlier ≡ []) }
    {
        Ok(Earlier {
            txns: Vec::with_capacity(alloc, count)?,
            numbers: BTreeSet::new(alloc),
            count: 0,
        })
    }

    /// Whether one of the transactions has this number.
    pub fn has(&self, no: TxnNo) -> bool
        ensures { result ≡ list_any (λ t. t.no == no) self.now }
    {
        self.numbers.contains(&no.number())
    }

    /// How many operations the transactions have together.
    pub fn operations(&self) -> usize
        ensures value { result ≡ length (operations self.now) }
        ensures few { result ≤ max_operations }
    {
        self.count
    }

    /// Adds a transaction.
    pub fn push(&mut self, txn: Txn) -> Result<(), NoMemory>
        requires { length (operations self.old) + length txn.ops ≤ max_operations }
        ensures { IfOk result (λ _. self.new ≡ self.old ++ txn ∷ []) }
    {
        self.txns.try_reserve(1)?;
        self.numbers.insert(txn.no.number())?;
        self.count += txn.ops.as_slice().len();
        let Ok(()) = self.txns.push(txn) else {
            unreachable!()
        };
        Ok(())
    }

    /// The transactions, in the order of the file.
    pub fn into_txns(self) -> Txns
        ensures { result ≡ self }
    {
        Txns::new(self.txns)
    }
}
