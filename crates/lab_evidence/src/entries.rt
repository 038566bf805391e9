//! The entries of a cell: rows that an operation saw, listed or wrote.

ghost use Rattle.std.specs.Prelude.{◌≡◌, map, IfOk};
ghost use Rattle.std.specs.FinMap as finite;
ghost use Rattle.lab_evidence.specs.Cells.{seen_entry, listed_entry, left_entry, written_entry};

use lab_deps::value_of;
use lab_history::{Rows, State, VersionName, View, Writes};
use lab_table::{NoMemory, RowName, Value};
use std::alloc::Global;

/// What is told of a row.
#[derive(Clone, Copy, Debug, PartialEq, Eq)]
pub enum Told {
    /// The version that was seen.
    Seen(VersionName),
    /// The state in which it was found, or left; None is absent.
    Held(Option<Value>),
}

/// An entry of a cell.
#[derive(Clone, Copy, Debug, PartialEq, Eq)]
pub struct Entry {
    pub row: RowName,
    pub told: Told,
}

/// The versions that an operation saw.
pub fn seen_entries(alloc: Global, view: &View) -> Result<Vec<Entry>, NoMemory>
    ensures { IfOk result (λ entries. entries.items ≡ map seen_entry (finite.entries view.now)) }
{
    view.entries()
        .iter()
        .map(|seen| Entry {
            row: seen.0,
            told: Told::Seen(seen.1),
        })
        .collect(alloc)
}

/// The rows that it listed.
pub fn listed_entries(alloc: Global, rows: &Rows) -> Result<Vec<Entry>, NoMemory>
    ensures { IfOk result (λ entries. entries.items ≡ map listed_entry (finite.entries rows.now)) }
{
    rows.entries()
        .iter()
        .map(|listed| Entry {
            row: listed.0,
            told: Told::Held(Some(listed.1)),
        })
        .collect(alloc)
}

/// Rows in the states in which an operation left them.
fn left_entries(alloc: Global, states: &[(RowName, State)]) -> Result<Vec<Entry>, NoMemory>
    ensures { IfOk result (λ entries. entries.items ≡ map left_entry states.now) }
{
    states
        .iter()
        .map(|left| Entry {
            row: left.0,
            told: Told::Held(value_of(left.1)),
        })
        .collect(alloc)
}

/// The rows that it wrote.
#[tactic(auto, using(crate::proofs::LeftEntries::left_are_written))]
pub fn written_entries(alloc: Global, writes: &Writes) -> Result<Vec<Entry>, NoMemory>
    ensures { IfOk result (λ entries. entries.items ≡ map written_entry (finite.entries writes.now)) }
{
    left_entries(alloc, writes.entries())
}
