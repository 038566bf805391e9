//! The first and the last value of each row of a cycle.

ghost use Rattle.std.specs.Prelude.{◌≡◌, ◌++◌, ◌≤◌, [], length, IfOk, OnOk};
ghost use Rattle.lab_picture.specs.Text.{text_at};
ghost use Rattle.lab_picture.specs.Values.{value_lead, first_and_last, value_text, values_at, first_rows, rest_text, values_text, value_lines};

use crate::text::{put_line, put_text};
use lab_drawing::{put_number, put_state};
use lab_history::History;
use lab_printing::put_row_name;
use lab_table::{NoMemory, RowName, Value};
use std::alloc::Global;

/// The most rows whose values are told.
const MAX_VALUES: usize = 40;

/// Appends a row's name before its values.
#[tactic(auto, unfolding(crate::specs::Values::value_lead))]
fn put_lead(out: &mut Vec<u8>, row: RowName) -> Result<(), NoMemory>
    ensures { OnOk result (out.new.items ≡ out.old.items ++ value_lead row) }
{
    out.extend_from_slice(b"row ")?;
    put_row_name(out, row)?;
    out.extend_from_slice(b": ")
}

/// Appends a first and a last value.
#[tactic(auto, unfolding(crate::specs::Values::first_and_last))]
fn put_first_and_last(
    out: &mut Vec<u8>,
    first: Option<Value>,
    last: Option<Value>,
) -> Result<(), NoMemory>
    ensures { OnOk result (out.new.items ≡ out.old.items ++ first_and_last first last) }
{
    put_state(out, first)?;
    out.extend_from_slice(b" at first, ")?;
    put_state(out, last)?;
    out.extend_from_slice(b" at the end")
}

/// A row's first and last value.
fn value_text(alloc: Global, history: &History, row: RowName) -> Result<Vec<u8>, NoMemory>
    ensures { IfOk result (λ text. text.items ≡ value_text history.now row) }
{
    let mut text = Vec::new(alloc);
    put_lead(&mut text, row)?;
    let first = history.initial().get(row);
    put_first_and_last(&mut text, first, history.end_table().get(row))?;
    Ok(text)
}

/// Appends a row's line of values.
fn put_value(
    alloc: Global,
    out: &mut Vec<u8>,
    history: &History,
    y: u128,
    row: RowName,
) -> Result<(), NoMemory>
    ensures { OnOk result (out.new.items ≡ out.old.items ++ text_at [] 26 y (value_text history.now row)) }
{
    let text = value_text(alloc, history, row)?;
    put_text(out, b"", 26, y, &text)
}

/// Appends a line of values for each of these rows.
fn put_values_at(
    alloc: Global,
    out: &mut Vec<u8>,
    history: &History,
    y: u128,
    rows: &[RowName],
) -> Result<(), NoMemory>
    requires { (y ≤ 1000000000000000000000000000000000) × (length rows.now ≤ 40) }
    ensures { OnOk result (out.new.items ≡ out.old.items ++ values_at history.now y rows.now) }
{
    let mut line_y = y;
    for row in rows {
        put_value(alloc, out, history, line_y, *row)?;
        line_y += 14;
    }
    Ok(())
}

/// The rows that have a line: no more than forty.
fn first_rows(rows: &[RowName]) -> &[RowName]
    ensures value { result.now ≡ first_rows rows.now }
    ensures few { length result.now ≤ 40 }
{
    &rows[..rows.len().min(MAX_VALUES)]
}

/// How many rows have no line, where there are any.
fn rest_text(alloc: Global, rows: usize) -> Result<Vec<u8>, NoMemory>
    ensures { IfOk result (λ text. text.items ≡ rest_text rows) }
{
    let mut text = Vec::new(alloc);
    if rows > MAX_VALUES {
        text.extend_from_slice(b".. and ")?;
        put_number(&mut text, (rows - MAX_VALUES) as u64)?;
        text.extend_from_slice(b" rows more")?;
    }
    Ok(text)
}

/// Appends a line of values for each of the first forty rows, and one that says how many more there are.
#[tactic(auto, unfolding(crate::specs::Values::values_text))]
pub fn put_values(
    alloc: Global,
    out: &mut Vec<u8>,
    history: &History,
    y: u128,
    rows: &[RowName],
) -> Result<(), NoMemory>
    requires { y ≤ 1000000000000000000000000000000000 }
    ensures { OnOk result (out.new.items ≡ out.old.items ++ values_text history.now y rows.now) }
{
    put_values_at(alloc, out, history, y, first_rows(rows))?;
    let rest = rest_text(alloc, rows.len())?;
    put_line(out, b"", 26, y + 560, &rest)
}

/// How many lines of values there are.
pub fn value_lines(rows: &[RowName]) -> u128
    ensures value { result ≡ value_lines rows.now }
    ensures small { result ≤ 41 }
{
    rows.len().min(MAX_VALUES + 1) as u128
}
