//! The operations of transactions that are kept.

ghost use Rattle.std.specs.Prelude.{◌≡◌, ◌≤◌, ◌+◌, ℕ, cond, ◌∷◌, [], ◌++◌, None, IfOk, OnOk, length, drop};
ghost use Rattle.std.specs.FinMap.{entries};
ghost use Rattle.lab_history.specs.HistoryRules.{operations};
ghost use Rattle.lab_history.specs.Limits.{max_operations};
ghost use Rattle.lab_history.specs.VersionName.{new_states};
ghost use Rattle.lab_cut.specs.Kept.{kept_of, kept_in, all_kept, last_given, last_left, number_at, number_of, with_writes};

use crate::mask::Mask;
use lab_history::{Op, State, Txn};
use lab_table::{ByRow, NoMemory, RowName, Sequence, TxnNo};
use std::alloc::Global;
use std::collections::BTreeMap;

/// What is kept of a transaction's operations.
#[derive(Drop)]
pub struct Kept {
    /// The new number of each operation, counted from 1 among those that are kept; 0 for one that goes.
    numbers: Sequence<u32>,
    /// The last of those that are kept and write a row, by its old number.
    writes: ByRow<u32>,
}

/// What is kept of each transaction.
#[derive(Drop)]
pub struct Moves {
    by_txn: BTreeMap<TxnNo, Kept>,
}

/// Notes that an operation writes these rows.
fn note_writes(
    writes: &mut ByRow<u32>,
    operation: u32,
    written: &[(RowName, State)],
) -> Result<(), NoMemory>
    ensures { OnOk result (writes.new ≡ with_writes writes.old operation (new_states written.now)) }
{
    for (row, _) in written {
        writes.put(*row, operation)?;
    }
    Ok(())
}

/// Notes whether an operation of this number is kept, behind `last` others that are. The answer is how many are then
/// kept.
fn note(
    numbers: &mut Vec<u32>,
    writes: &mut ByRow<u32>,
    last: u32,
    kept: bool,
    operation: u32,
    op: &Op,
) -> Result<u32, NoMemory>
    requires { last ≤ max_operations }
    ensures count { IfOk result (λ count. count ≡ cond kept (last + 1) last) }
    ensures numbers { OnOk result (numbers.new.items ≡ numbers.old.items ++ cond kept (last + 1) 0 ∷ []) }
    ensures writes { OnOk result (writes.new ≡ cond kept (with_writes writes.old operation (entries op.now.writes)) writes.old) }
{
    if !kept {
        numbers.push(0)?;
        return Ok(last);
    }
    numbers.push(last + 1)?;
    note_writes(writes, operation, op.writes.entries())?;
    Ok(last + 1)
}

impl Kept {
    /// What a mask keeps of a transaction's operations.
    fn of(alloc: Global, mask: &mut Mask, ops: &[Op]) -> Result<Kept, NoMemory>
        requires { length ops.now ≤ max_operations }
        ensures kept { IfOk result (λ kept. kept ≡ kept_of mask.old ops.now) }
        ensures rest { OnOk result (mask.new ≡ drop (length ops.now) mask.old) }
    {
        let mut numbers = Vec::with_capacity(alloc, ops.len())?;
        let mut writes = ByRow::new(alloc);
        let mut last = 0;
        for (index, op) in ops.iter().enumerate() {
            let operation = index as u32 + 1;
            last = note(&mut numbers, &mut writes, last, mask.next(), operation, op)?;
        }
        Ok(Kept {
            numbers: Sequence::new(numbers),
            writes,
        })
    }

    /// The new number of an operation, 0 where it goes, or None where there is no such operation.
    fn number_of(&self, operation: u32) -> Option<u32>
        ensures { result ≡ number_at self.now.numbers operation }
    {
        let place = operation.checked_sub(1)?;
        self.numbers.as_slice().get(place as usize).copied()
    }
}

impl Moves {
    /// What a mask of all operations keeps of each transaction.
    pub fn of(alloc: Global, kept: &[bool], txns: &[Txn]) -> Result<Moves, NoMemory>
        requires { length (operations txns.now) ≤ max_operations }
        ensures { IfOk result (λ moves. (n : ℕ) → kept_in moves n ≡ last_given None (all_kept kept.now txns.now) n) }
    {
        let mut moves = Moves {
            by_txn: BTreeMap::new(alloc),
        };
        let mut mask = Mask::new(kept);
        for txn in txns {
            let own = Kept::of(alloc, &mut mask, txn.ops.as_slice())?;
            moves.by_txn.insert(txn.no, own)?;
        }
        Ok(moves)
    }

    /// The new number of a transaction's operation, 0 where it goes, or None where there is no such operation.
    pub fn number_of(&self, txn: TxnNo, operation: u32) -> Option<u32>
        ensures { result ≡ number_of (kept_in self.now) txn operation }
    {
        self.by_txn.get(&txn)?.number_of(operation)
    }

    /// The last operation of a transaction that is kept and writes a row, by its old number.
    pub fn last_left(&self, txn: TxnNo, row: RowName) -> Option<u32>
        ensures { result ≡ last_left (kept_in self.now) txn row }
    {
        self.by_txn.get(&txn)?.writes.get(row)
    }
}
