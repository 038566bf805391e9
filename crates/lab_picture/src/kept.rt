//! What a box tells of an operation's rows where it tells only of those that arrows name. Functions that take bytes
//! append; on failure, a part of the text may have been appended.

ghost use Rattle.std.specs.Prelude.{◌≡◌, ◌++◌, IfOk, OnOk};
ghost use Rattle.lab_history.specs.VersionName.{state_value};
ghost use Rattle.lab_picture.specs.Kept.{told_listed, told_written, listed_rows, written_rows, lists_named, writes_named, tells_named, before_row, before_dots, next_behind, kept_row, kept_from, behind_all, kept_lead, kept_text};

use crate::effect::{put_listed_row, put_written_row};
use lab_drawing::is_named;
use lab_history::{Op, Rows, State, Writes};
use lab_table::{NoMemory, RowName, Value};
use std::alloc::Global;

/// What stands before a row in a box.
#[derive(Clone, Copy)]
pub enum Behind {
    Nothing,
    /// A row.
    Shown,
    /// Dots, for a row or more.
    LeftOut,
}

/// Whether an operation lists a row that is named.
fn lists_named(named: &[RowName], rows: &Rows) -> bool
    ensures { result ≡ lists_named named.now rows.now }
{
    for (row, _) in rows.entries() {
        if is_named(named, *row) {
            return true;
        }
    }
    false
}

/// Whether it writes one.
fn writes_named(named: &[RowName], writes: &Writes) -> bool
    ensures { result ≡ writes_named named.now writes.now }
{
    for (row, _) in writes.entries() {
        if is_named(named, *row) {
            return true;
        }
    }
    false
}

/// Whether it tells of one.
pub fn tells_named(named: &[RowName], op: &Op) -> bool
    ensures { result ≡ tells_named named.now op.now }
{
    lists_named(named, &op.rows) || writes_named(named, &op.writes)
}

/// What stands between a row and what is before it.
fn before_row(behind: Behind) -> &'static [u8]
    ensures { result.now ≡ before_row behind }
{
    match behind {
        Behind::Nothing => b"",
        Behind::Shown => b", ",
        Behind::LeftOut => b" ",
    }
}

/// What stands for a row that is left out.
fn before_dots(behind: Behind) -> &'static [u8]
    ensures { result.now ≡ before_dots behind }
{
    match behind {
        Behind::Nothing => b"..",
        Behind::Shown => b" ..",
        Behind::LeftOut => b"",
    }
}

/// What a row leaves before the next one.
fn next_behind(named: &[RowName], row: RowName) -> Behind
    ensures { result ≡ next_behind named.now row }
{
    if is_named(named, row) {
        Behind::Shown
    } else {
        Behind::LeftOut
    }
}

/// Appends a listed row that is named; of one that isn't, what stands for it.
fn put_kept_listed(
    out: &mut Vec<u8>,
    named: &[RowName],
    behind: Behind,
    writes: &Writes,
    row: RowName,
    value: Value,
) -> Result<(), NoMemory>
    ensures { OnOk result (out.new.items ≡ out.old.items ++ kept_row named.now behind (told_listed writes.now (row, value))) }
{
    if is_named(named, row) {
        out.extend_from_slice(before_row(behind))?;
        put_listed_row(out, writes, row, value)
    } else {
        out.extend_from_slice(before_dots(behind))
    }
}

/// Appends a row that was written and not listed, if it is named; of one that isn't, what stands for it.
fn put_kept_written(
    out: &mut Vec<u8>,
    named: &[RowName],
    behind: Behind,
    row: RowName,
    state: State,
) -> Result<(), NoMemory>
    ensures { OnOk result (out.new.items ≡ out.old.items ++ kept_row named.now behind (told_written (row, state_value state))) }
{
    if is_named(named, row) {
        out.extend_from_slice(before_row(behind))?;
        put_written_row(out, row, state)
    } else {
        out.extend_from_slice(before_dots(behind))
    }
}

/// What an operation's listed rows leave before the others.
fn behind_listed(named: &[RowName], op: &Op) -> Behind
    ensures { result ≡ behind_all named.now Behind.Nothing (listed_rows op.now) }
{
    let mut behind = Behind::Nothing;
    for (row, _) in op.rows.entries() {
        behind = next_behind(named, *row);
    }
    behind
}

/// Appends an operation's listed rows.
fn put_listed_rows(out: &mut Vec<u8>, named: &[RowName], op: &Op) -> Result<(), NoMemory>
    ensures { OnOk result (out.new.items ≡ out.old.items ++ kept_from named.now Behind.Nothing (listed_rows op.now)) }
{
    let mut behind = Behind::Nothing;
    for (row, value) in op.rows.entries() {
        put_kept_listed(out, named, behind, &op.writes, *row, *value)?;
        behind = next_behind(named, *row);
    }
    Ok(())
}

/// Appends the rows that it wrote and didn't list, behind the others.
fn put_written_rows(
    out: &mut Vec<u8>,
    named: &[RowName],
    first: Behind,
    op: &Op,
) -> Result<(), NoMemory>
    ensures { OnOk result (out.new.items ≡ out.old.items ++ kept_from named.now first (written_rows op.now)) }
{
    let mut behind = first;
    for (row, state) in op.writes.entries() {
        if op.rows.get(*row).is_none() {
            put_kept_written(out, named, behind, *row, *state)?;
            behind = next_behind(named, *row);
        }
    }
    Ok(())
}

/// What stands before the first row.
fn kept_lead(rows: &Rows) -> &'static [u8]
    ensures { result.now ≡ kept_lead rows.now }
{
    if rows.entries().len() == 0 {
        b""
    } else {
        b"-> "
    }
}

/// What an operation did with the rows that are named.
pub fn kept_text(alloc: Global, named: &[RowName], op: &Op) -> Result<Vec<u8>, NoMemory>
    ensures { IfOk result (λ text. text.items ≡ kept_text named.now op.now) }
{
    let mut text = Vec::from_slice(alloc, kept_lead(&op.rows))?;
    put_listed_rows(&mut text, named, op)?;
    let behind = behind_listed(named, op);
    put_written_rows(&mut text, named, behind, op)?;
    Ok(text)
}
