//! What the look-ups of a history find by halving.

ghost use Rattle.std.specs.Prelude.{◌≡◌, ◌≤◌, ◌++◌, length, reverse, IfOk, OnOk};
ghost use Rattle.std.specs.FinMap as map;
ghost use Rattle.lab_history.specs.HistoryRules.{Keeps, operations};
ghost use Rattle.lab_history.specs.Limits.{max_operations};
ghost use Rattle.lab_history.specs.Index.{IsIndexOf, numbers_from, written_by, written_from, written, placed_from, placed};

use crate::keyed::Keyed;
use crate::operation::{Op, Writes};
use crate::parts::Parts;
use crate::transaction::{Installers, Txn};
use crate::txn_row::TxnRow;
use lab_table::{NoMemory, RowName, TxnNo};
use std::alloc::Global;

/// Where a history's transactions, writes and installers are.
#[derive(Drop)]
pub struct Index {
    /// The places of the transactions by their numbers, counted from 0.
    pub numbers: Keyed<TxnNo, usize>,
    /// The last operation of a transaction that writes a row, counted from 1.
    pub last_writes: Keyed<TxnRow, u32>,
    /// The place of a transaction among the installers of a row, counted from 1.
    pub places: Keyed<TxnRow, usize>,
}

impl Index {
    /// The index of these parts.
    pub fn of(alloc: Global, parts: &Parts) -> Result<Index, NoMemory>
        requires { Keeps parts.now }
        ensures { IfOk result (λ index. IsIndexOf index parts.now) }
    {
        let txns = parts.txns.as_slice();
        let numbers = Keyed::new(numbers_of(alloc, txns)?)?;
        let last_writes = Keyed::new(last_writes_of(alloc, txns)?)?;
        let places = Keyed::new(places_of(alloc, parts.installed.entries())?)?;
        Ok(Index {
            numbers,
            last_writes,
            places,
        })
    }
}

/// The transactions' numbers with their places.
fn numbers_of(alloc: Global, txns: &[Txn]) -> Result<Vec<(TxnNo, usize)>, NoMemory>
    ensures { IfOk result (λ numbers. numbers.items ≡ numbers_from 0 txns.now) }
{
    let mut numbers = Vec::with_capacity(alloc, txns.len())?;
    for (place, txn) in txns.iter().enumerate() {
        numbers.push((txn.no, place))?;
    }
    Ok(numbers)
}

/// The rows that the transactions write with the numbers of the operations, later ones first.
fn last_writes_of(alloc: Global, txns: &[Txn]) -> Result<Vec<(TxnRow, u32)>, NoMemory>
    requires { length (operations txns.now) ≤ max_operations }
    ensures { IfOk result (λ writes. writes.items ≡ reverse (written txns.now)) }
{
    let mut writes = Vec::new(alloc);
    for txn in txns {
        add_ops(&mut writes, txn.no, txn.ops.as_slice())?;
    }
    writes.reverse();
    Ok(writes)
}

/// Adds the rows that a transaction's operations write.
fn add_ops(writes: &mut Vec<(TxnRow, u32)>, txn: TxnNo, ops: &[Op]) -> Result<(), NoMemory>
    requires { length ops.now ≤ max_operations }
    ensures { OnOk result (writes.new.items ≡ writes.old.items ++ written_from txn 0 ops.now) }
{
    for (index, op) in ops.iter().enumerate() {
        add_writes(writes, txn, index as u32 + 1, &op.writes)?;
    }
    Ok(())
}

/// Adds the rows that an operation writes.
fn add_writes(
    writes: &mut Vec<(TxnRow, u32)>,
    txn: TxnNo,
    op: u32,
    written: &Writes,
) -> Result<(), NoMemory>
    ensures { OnOk result (writes.new.items ≡ writes.old.items ++ written_by txn op (map.entries written.now)) }
{
    let entries = written.entries();
    for (row, _) in entries {
        writes.push((TxnRow { txn, row: *row }, op))?;
    }
    Ok(())
}

/// The installers of the rows with their places.
fn places_of(
    alloc: Global,
    installed: &[(RowName, Installers)],
) -> Result<Vec<(TxnRow, usize)>, NoMemory>
    ensures { IfOk result (λ places. places.items ≡ placed installed.now) }
{
    let mut places = Vec::new(alloc);
    for (row, installers) in installed {
        add_places(&mut places, *row, installers.as_slice())?;
    }
    Ok(places)
}

/// Adds the installers of a row.
fn add_places(
    places: &mut Vec<(TxnRow, usize)>,
    row: RowName,
    installers: &[TxnNo],
) -> Result<(), NoMemory>
    ensures { OnOk result (places.new.items ≡ places.old.items ++ placed_from row 0 installers.now) }
{
    for (index, txn) in installers.iter().enumerate() {
        places.push((TxnRow { txn: *txn, row }, index + 1))?;
    }
    Ok(())
}
