//! The committed transactions of a history, numbered by rising number.

ghost use Rattle.std.specs.Prelude.{◌≡◌, ◌≤◌, ◌<◌, ℕ, cond, ◌==◌, length, map, filter, OnOk, IfOk};
ghost use Rattle.std.specs.List.Sorted.{IsStrictlyIncreasing};
ghost use Rattle.lab_history.specs.History.{History as Recorded};
ghost use Rattle.lab_history.specs.Limits.{max_transactions};
ghost use Rattle.lab_history.specs.Version.{outcome_of};
ghost use Rattle.lab_deps.specs.KindBits.{place};
ghost use Rattle.lab_deps.specs.Numbering.{AreNodes, HasPlaces, IsNumbering};
ghost use Rattle.lab_deps.specs.Soundness.{has_committed};

use crate::broken::is_committed;
use lab_history::{History, Txn};
use lab_table::{NoMemory, TxnNo};
use std::alloc::Global;

/// The numbers of a history's committed transactions, each once, by rising number: the place of a number, counted from 0,
/// is its node. NoMemory where an allocation was refused.
pub fn committed_numbers(alloc: Global, history: &History) -> Result<Vec<TxnNo>, NoMemory>
    ensures { IfOk result (λ numbers. AreNodes history.now numbers.items) }
{
    let txns = history.txns().as_slice();
    let mut numbers = committed(alloc, history, txns)?;
    numbers.sort_unstable();
    numbers.dedup();
    Ok(numbers)
}

/// The numbers of those of these transactions that have committed, in their order. NoMemory where an allocation was
/// refused.
fn committed(alloc: Global, history: &History, txns: &[Txn]) -> Result<Vec<TxnNo>, NoMemory>
    ensures { IfOk result (λ numbers. numbers.items ≡ map (λ t. t.no) (filter (λ t. has_committed (outcome_of history.now t.no)) txns.now)) }
{
    txns.iter()
        .filter(|txn| is_committed(history, txn.no))
        .map(|txn| txn.no)
        .collect(alloc)
}

/// The place of each of these by its number, counted from 1; 0 of what isn't among them. NoMemory where an allocation
/// was refused.
pub fn places_of(alloc: Global, numbers: &[TxnNo]) -> Result<Vec<u16>, NoMemory>
    requires few { length numbers.now ≤ max_transactions }
    requires rising { IsStrictlyIncreasing numbers.now }
    ensures numbered { IfOk result (λ places. IsNumbering numbers.now places.items) }
    ensures places { IfOk result (λ places. (h : Recorded) → AreNodes h numbers.now → HasPlaces h places.items) }
{
    let mut places = Vec::new(alloc);
    for (index, number) in numbers.iter().enumerate() {
        put(&mut places, *number, index as u16 + 1)?;
    }
    Ok(places)
}

/// Gives a number a place.
fn put(places: &mut Vec<u16>, number: TxnNo, at: u16) -> Result<(), NoMemory>
    ensures { OnOk result ((m : ℕ) → place places.new.items m ≡ cond (m == number) at (place places.old.items m)) }
{
    let number = number.number() as usize;
    reach(places, number)?;
    places[number] = at;
    Ok(())
}

/// Makes room for a number.
fn reach(places: &mut Vec<u16>, number: usize) -> Result<(), NoMemory>
    requires { number ≤ 1000000 }
    ensures room { OnOk result (number < length places.new.items) }
    ensures same { OnOk result ((m : ℕ) → place places.new.items m ≡ place places.old.items m) }
{
    if places.len() <= number {
        places.resize(number + 1, 0)?;
    }
    Ok(())
}

/// The place that a table of places has for a number; 0 where it has none.
pub fn place_in(places: &[u16], number: TxnNo) -> u16
    ensures { result ≡ place places.now number }
{
    places.get(number.number() as usize).copied().unwrap_or(0)
}
