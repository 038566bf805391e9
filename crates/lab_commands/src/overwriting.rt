//! Rows that are overwritten in place.

ghost use Rattle.std.specs.Prelude.{◌≡◌, filter, not, OnOk, OnErr};
ghost use Rattle.std.specs.FinMap as map;
ghost use Rattle.lab_table.specs.Row.{row_test};
ghost use Rattle.lab_table.specs.Table.{overwritten, put};
ghost use Rattle.lab_history.specs.VersionName.{new_states};
ghost use Rattle.lab_commands.specs.Overwriting.{put_each};

use lab_engine::value_of;
use lab_history::{State, Writes};
use lab_table::{ByRow, NoMemory, RowName, Value};
use std::alloc::Global;

/// Removes the entry of a row, if there is one.
fn remove_entry(entries: &mut Vec<(RowName, Value)>, row: RowName)
    ensures { entries.new.items ≡ filter (λ entry. not (row_test entry.0 row)) entries.old.items }
{
    entries.retain(|entry| entry.0 != row);
}

/// Removes a row, if it is present.
fn remove_row(alloc: Global, rows: &mut ByRow<Value>, row: RowName)
    ensures { rows.new ≡ map.remove rows.old row }
{
    let mut entries = rows.take(alloc);
    remove_entry(&mut entries, row);
    *rows = ByRow::from_rising(entries);
}

/// Sets the state of a row; `None` removes it. On failure, nothing has changed.
pub fn put_state(
    alloc: Global,
    rows: &mut ByRow<Value>,
    row: RowName,
    state: Option<Value>,
) -> Result<(), NoMemory>
    ensures ok { OnOk result (rows.new ≡ put row state rows.old) }
    ensures err { OnErr result (rows.new ≡ rows.old) }
{
    match state {
        Some(value) => rows.put(row, value),
        None => {
            remove_row(alloc, rows, row);
            Ok(())
        }
    }
}

/// Puts rows into these states, one after another.
fn put_each(
    alloc: Global,
    rows: &mut ByRow<Value>,
    states: &[(RowName, State)],
) -> Result<(), NoMemory>
    ensures { OnOk result (rows.new ≡ put_each (new_states states.now) rows.old) }
{
    for (row, state) in states {
        put_state(alloc, rows, *row, value_of(*state))?;
    }
    Ok(())
}

/// Puts writes over rows. On failure, some of them may have been applied.
pub fn overwrite(alloc: Global, rows: &mut ByRow<Value>, writes: &Writes) -> Result<(), NoMemory>
    ensures { OnOk result (rows.new ≡ overwritten writes.now rows.old) }
{
    put_each(alloc, rows, writes.entries())
}
