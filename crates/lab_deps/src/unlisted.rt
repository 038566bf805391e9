//! Rows of the initial table that an operation matches without listing them.
//!
//! Where the statement names the rows that it may match by their numbers, these rows of its table alone are looked at.

ghost use Rattle.std.specs.Prelude.{◌≡◌, ◌≢◌, ℕ, pos, true, None, IfSome};
ghost use Rattle.std.specs.Ordering.{int_eq};
ghost use Rattle.std.specs.FinMap as map;
ghost use Rattle.lab_table.specs.Row.{id_of};
ghost use Rattle.lab_table.specs.NamedRow.{has_number};
ghost use Rattle.lab_deps.specs.Broken as test;
ghost use Rattle.lab_deps.specs.FirstOf.{IsLeastRow, first_value};

use crate::effect::is_same;
use crate::lookup::{Near, listed_near, seen_near};
use crate::near::entry_within;
use crate::row::least;
use crate::span::within;
use lab_columns::first_matching;
use lab_history::{History, Op};
use lab_table::{RowName, Value};

/// The least row of the initial table that an operation's view lacks, and that matches without being listed so.
pub fn unlisted_row(history: &History, op: &Op) -> Option<RowName>
    ensures { IsLeastRow (test.IsUnlisted history.now op.now) result }
{
    match op.statement.named_ids() {
        None => first_unlisted(history, op),
        Some(numbers) => unlisted_among(history, op, numbers),
    }
}

/// The same, where all rows between the statement's bounds are looked at.
fn first_unlisted(history: &History, op: &Op) -> Option<RowName>
    ensures { result ≡ first_value (test.is_unlisted op.now) (map.entries history.now.initial) }
{
    let near = Near::new();
    let entries = within(&op.statement, history.initial().rows());
    first_matching(
        &op.statement,
        entries,
        |row, value| is_unlisted(op, row, value, &near),
    )
}

/// The least of the rows with these numbers that is so.
fn unlisted_among(history: &History, op: &Op, numbers: &[Value]) -> Option<RowName>
    ensures { IsLeastRow (λ row. test.IsUnlisted history.now op.now row × (has_number numbers.now row ≡ true)) result }
{
    let near = Near::new();
    let mut found = None;
    for number in numbers {
        found = least(found, unlisted_numbered(history, op, *number, &near));
    }
    found
}

/// The row with this number that is so. It is one of the statement's table, as no other matches.
fn unlisted_numbered(history: &History, op: &Op, number: Value, near: &Near) -> Option<RowName>
    ensures { IsLeastRow (λ row. test.IsUnlisted history.now op.now row × (int_eq (id_of row) number ≡ true)) result }
{
    let id = row_number(number)?;
    let entry = entry_within(history.initial().rows(), op.statement.table, id)?;
    is_unlisted(op, entry.0, entry.1, near).then_some(entry.0)
}

/// The number as a row's, where it is none below 0.
fn row_number(number: Value) -> Option<u32>
    ensures some { IfSome result (λ id. pos id ≡ number) }
    ensures none { result ≡ None → (id : ℕ) → pos id ≢ number }
{
    u32::try_from(number.number()).ok()
}

/// Whether a row of the initial table that the view lacks matches, and the operation doesn't list it so.
fn is_unlisted(op: &Op, row: RowName, value: Value, near: &Near) -> bool
    ensures { result ≡ test.is_unlisted op.now row value }
{
    let due = op.statement.listed(row, Some(value));
    due.is_some()
        && !is_same(listed_near(op, row, &near.listed), due)
        && seen_near(op, row, &near.seen).is_none()
}
