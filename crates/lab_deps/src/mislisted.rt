//! Rows that an operation doesn't list as is due.

ghost use Rattle.std.specs.Prelude.{◌≡◌, true};
ghost use Rattle.std.specs.FinMap as map;
ghost use Rattle.lab_history.specs.Version as version;
ghost use Rattle.lab_deps.specs.Broken as test;
ghost use Rattle.lab_deps.specs.FirstOf.{IsLeastRow, first_value};

use crate::broken::{lists_other, viewed};
use crate::effect::{is_same, state_near};
use crate::lookup::{Near, initial_near, listed_near, seen_near};
use crate::relevant_rows::only_row;
use crate::row::{first_entry, least};
use crate::unlisted::unlisted_row;
use lab_history::{History, Op, VersionName};
use lab_table::{RowName, Value};

/// The least row that an operation doesn't list as is due.
pub fn mislisted_row(history: &History, op: &Op) -> Option<RowName>
    ensures { IsLeastRow (λ row. test.lists_other history.now op.now row (version.viewed op.now row) ≡ true) result }
{
    match only_row(op) {
        None => {
            let seen = seen_otherwise(history, op);
            let extra = extra_row(history, op);
            least(seen, least(extra, unlisted_row(history, op)))
        }
        Some(row) => lists_other(history, op, row, viewed(op, row)).then_some(row),
    }
}

/// The first row of its view that an operation doesn't list as is due.
fn seen_otherwise(history: &History, op: &Op) -> Option<RowName>
    ensures { result ≡ first_value (test.lists_other history.now op.now) (map.entries op.now.view) }
{
    let near = Near::new();
    first_entry(
        op.view.entries(),
        |row, seen| lists_otherwise(history, op, row, seen, &near),
    )
}

/// Whether an operation doesn't list a row as is due, where it sees this version.
fn lists_otherwise(history: &History, op: &Op, row: RowName, seen: VersionName, near: &Near) -> bool
    ensures { result ≡ test.lists_other history.now op.now row seen }
{
    let mut written = near.written.get();
    let state = state_near(history, row, seen, &mut written);
    near.written.set(written);
    !is_same(
        listed_near(op, row, &near.listed),
        op.statement.listed(row, state),
    )
}

/// The first row that an operation lists, doesn't see, and that isn't due by the initial table.
fn extra_row(history: &History, op: &Op) -> Option<RowName>
    ensures { result ≡ first_value (test.is_extra history.now op.now) (map.entries op.now.rows) }
{
    let near = Near::new();
    first_entry(
        op.rows.entries(),
        |row, value| is_extra(history, op, row, value, &near),
    )
}

/// Whether a row that an operation lists so isn't seen, and isn't due so by the initial table.
fn is_extra(history: &History, op: &Op, row: RowName, value: Value, near: &Near) -> bool
    ensures { result ≡ test.is_extra history.now op.now row value }
{
    let due = op
        .statement
        .listed(row, initial_near(history, row, &near.initial));
    !is_same(Some(value), due) && seen_near(op, row, &near.seen).is_none()
}
