//! Rows to which an operation doesn't write what is due.

ghost use Rattle.std.specs.Prelude.{◌≡◌, true, is_none};
ghost use Rattle.std.specs.Bool.{then_some};
ghost use Rattle.std.specs.FinMap as map;
ghost use Rattle.lab_table.specs.Statement as plain;
ghost use Rattle.lab_history.specs.Version as version;
ghost use Rattle.lab_deps.specs.Broken as test;
ghost use Rattle.lab_deps.specs.FirstOf.{IsLeastRow, first_entry, first_value};

use crate::broken::viewed;
use crate::effect::{leaves, result_differs, state_of};
use crate::lookup::{Near, listed_near, written_near};
use crate::row::{first_entry, first_written, least};
use lab_history::{History, Op};
use lab_table::{RowName, Value};

/// The least row to which an operation that lists what is due doesn't write what is due, or at which its statement can't
/// run.
pub fn miswritten_row(history: &History, op: &Op) -> Option<RowName>
    ensures { IsLeastRow (λ row. test.writes_other history.now op.now row (version.viewed op.now row) ≡ true) result }
{
    if op.statement.is_read_only() {
        return first_written(&op.writes, |_| true);
    }
    match op.statement.inserted() {
        None => least(changed_otherwise(op), changed_unlisted(op)),
        Some(added) => {
            let row = added.0;
            let other = first_written(&op.writes, |written| written != row);
            least(other, added_otherwise(history, op, added))
        }
    }
}

/// The row that an operation adds with a value, where that isn't what it writes, or the row was there.
fn added_otherwise(history: &History, op: &Op, added: (RowName, Value)) -> Option<RowName>
    ensures { result ≡ then_some (test.is_added_otherwise history.now op.now added.1 added.0) added.0 }
{
    let (row, value) = added;
    let was_there = state_of(history, row, viewed(op, row)).is_some();
    (was_there || !leaves(op.writes.get(row), Some(value))).then_some(row)
}

/// The first row that an operation lists and to which it doesn't write what its statement makes of the value.
fn changed_otherwise(op: &Op) -> Option<RowName>
    ensures { result ≡ first_value (λ row value. test.result_differs (plain.rewritten op.now.statement value) (version.new_state op.now row)) (map.entries op.now.rows) }
{
    let near = Near::new();
    first_entry(
        op.rows.entries(),
        |row, value| is_changed_otherwise(op, row, value, &near),
    )
}

/// Whether what an operation writes to a row that it lists so isn't what its statement makes of the value.
fn is_changed_otherwise(op: &Op, row: RowName, value: Value, near: &Near) -> bool
    ensures { result ≡ test.result_differs (plain.rewritten op.now.statement value) (version.new_state op.now row) }
{
    let mut written = near.written.get();
    let new = written_near(op, row, &mut written);
    near.written.set(written);
    result_differs(op.statement.rewritten(value), new)
}

/// The first row that an operation writes and doesn't list.
fn changed_unlisted(op: &Op) -> Option<RowName>
    ensures { result ≡ first_entry (λ row. is_none (map.get op.now.rows row)) (map.entries op.now.writes) }
{
    let near = Near::new();
    first_written(
        &op.writes,
        |row| listed_near(op, row, &near.listed).is_none(),
    )
}
