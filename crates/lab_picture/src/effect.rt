//! What an operation did, as its box shows it. Functions that take bytes append; on failure, a part of the text may
//! have been appended.

ghost use Rattle.std.specs.Prelude.{◌≡◌, ◌++◌, IfOk, OnOk, option_map};
ghost use Rattle.lab_history.specs.VersionName.{state_value};
ghost use Rattle.lab_picture.specs.Effect.{left_text, listed_row, written_row, listed_text, written_lead, written_text, effect_text};

use lab_deps::value_of;
use lab_drawing::{put_number, put_state};
use lab_history::{Op, Rows, State, Writes};
use lab_printing::put_list;
use lab_table::{NoMemory, RowName, Value};
use std::alloc::Global;

/// Appends how a listed row was left, behind an arrow, if it was written.
fn put_left(out: &mut Vec<u8>, written: Option<State>) -> Result<(), NoMemory>
    ensures { OnOk result (out.new.items ≡ out.old.items ++ left_text (option_map state_value written)) }
{
    match written {
        None => Ok(()),
        Some(state) => {
            out.extend_from_slice(b" => ")?;
            put_state(out, value_of(state))
        }
    }
}

/// Appends a row that was listed, and how it was left.
pub fn put_listed_row(
    out: &mut Vec<u8>,
    writes: &Writes,
    row: RowName,
    value: Value,
) -> Result<(), NoMemory>
    ensures { OnOk result (out.new.items ≡ out.old.items ++ listed_row writes.now (row, value)) }
{
    put_list(out, &[(row, value)])?;
    put_left(out, writes.get(row))
}

/// Appends a row that was written and not listed.
pub fn put_written_row(out: &mut Vec<u8>, row: RowName, state: State) -> Result<(), NoMemory>
    ensures { OnOk result (out.new.items ≡ out.old.items ++ written_row (row, state_value state)) }
{
    out.extend_from_slice(b"=> (")?;
    put_number(out, u64::from(row.id.number()))?;
    out.extend_from_slice(b", ")?;
    put_state(out, value_of(state))?;
    out.extend_from_slice(b")")
}

/// Appends the rows that an operation listed, each with how it was left.
fn put_listed(out: &mut Vec<u8>, op: &Op) -> Result<(), NoMemory>
    ensures { OnOk result (out.new.items ≡ out.old.items ++ listed_text op.now) }
{
    let mut lead: &[u8] = b"-> ";
    for (row, value) in op.rows.entries() {
        out.extend_from_slice(lead)?;
        put_listed_row(out, &op.writes, *row, *value)?;
        lead = b", ";
    }
    Ok(())
}

/// What stands before the first row that was written and not listed.
fn written_lead(rows: &Rows) -> &[u8]
    ensures { result.now ≡ written_lead rows.now }
{
    if rows.entries().len() == 0 {
        b""
    } else {
        b", "
    }
}

/// Appends the rows that an operation wrote and didn't list.
fn put_written(out: &mut Vec<u8>, op: &Op) -> Result<(), NoMemory>
    ensures { OnOk result (out.new.items ≡ out.old.items ++ written_text op.now) }
{
    let mut lead = written_lead(&op.rows);
    for (row, state) in op.writes.entries() {
        if op.rows.get(*row).is_none() {
            out.extend_from_slice(lead)?;
            put_written_row(out, *row, *state)?;
            lead = b", ";
        }
    }
    Ok(())
}

/// Returns what an operation did.
pub fn effect_text(alloc: Global, op: &Op) -> Result<Vec<u8>, NoMemory>
    ensures { IfOk result (λ text. text.items ≡ effect_text op.now) }
{
    let mut text = Vec::new(alloc);
    put_listed(&mut text, op)?;
    put_written(&mut text, op)?;
    if text.len() == 0 {
        text.extend_from_slice(b"-> none")?;
    }
    Ok(text)
}
