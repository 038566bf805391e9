//! The versions of rows.

ghost use Rattle.std.specs.Prelude.{◌≡◌, ◌≤◌, length, IfOk};
ghost use Rattle.std.specs.Prelude as list;
ghost use Rattle.std.specs.List.{prefix_len};
ghost use Rattle.lab_engine.specs.Sight.{comes_after};
ghost use Rattle.lab_history.specs.VersionName.{state_value};
ghost use Rattle.lab_engine.specs.Merging.{initial_entry, merged, without_row};

use lab_history::{State, VersionName};
use lab_table::{NoMemory, RowName, Value};
use std::alloc::Global;

/// A version of a row: its name, and the row's value, or `None` if the row is absent.
#[derive(Clone, Copy, Debug, PartialEq, Eq)]
pub struct Version {
    pub name: VersionName,
    pub state: Option<Value>,
}

/// The rows of a table with their initial versions.
pub(crate) fn initial_entries(
    alloc: Global,
    rows: &[(RowName, Value)],
) -> Result<Vec<(RowName, Version)>, NoMemory>
    ensures { IfOk result (λ v. v.items ≡ list.map initial_entry rows.now) }
{
    rows.iter()
        .map(|row| {
            (
                row.0,
                Version {
                    name: VersionName::Initial,
                    state: Some(row.1),
                },
            )
        })
        .collect(alloc)
}

/// Returns the value of a written state, or `None` if it is absent.
pub fn value_of(state: State) -> Option<Value>
    ensures { result ≡ state_value state }
{
    match state {
        State::Absent => None,
        State::Present(value) => Some(value),
    }
}

/// The entries behind the row's, of a list that has none before it.
pub(crate) fn behind<V>(entries: &[(RowName, V)], row: RowName) -> &[(RowName, V)]
    ensures { result.now ≡ without_row row entries.now }
{
    match entries.split_first() {
        Some((first, rest)) => { if row == first.0 { rest } else { entries } }
        None => entries,
    }
}

/// Walks through both lists at once: what stands before each entry that lies over, then that entry.
pub(crate) fn merged_entries(
    alloc: Global,
    under: &[(RowName, Version)],
    over: &[(RowName, Version)],
) -> Result<Vec<(RowName, Version)>, NoMemory>
    ensures { IfOk result (λ v. v.items ≡ merged under.now over.now) }
{
    let mut entries = Vec::with_capacity(alloc, under.len())?;
    let mut left = under;
    for entry in over {
        let (before, rest) = left.split_at(place_near(left, entry.0));
        entries.extend_from_slice(before)?;
        entries.push(*entry)?;
        left = behind(rest, entry.0);
    }
    entries.extend_from_slice(left)?;
    Ok(entries)
}

/// How many entries stand before a row. They are mostly few, so they are counted.
pub(crate) fn place_near<V>(entries: &[(RowName, V)], row: RowName) -> usize
    ensures value { result ≡ prefix_len (comes_after row) entries.now }
    ensures bound { result ≤ length entries.now }
{
    entries.iter().take_while(|entry| row > entry.0).count()
}
