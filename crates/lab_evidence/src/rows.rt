//! The rows of a page. Functions that take bytes append; on failure, a part of the text may have been appended.

ghost use Rattle.std.specs.Prelude.{◌≡◌, ◌++◌, ◌≤◌, is_some, flat_map, IfOk, OnOk};
ghost use Rattle.std.specs.FinMap as finite;
ghost use Rattle.lab_evidence.specs.Rows.{row_unless, initial_row, later_row, other_rows, room, shown_rows, row_open, row_name_cell, versions_cell, end_text, end_cell, row_line, rows_lines, rows_open, rows_head, rows_told, rows_with, rows_part};

use crate::chains::put_chain;
use crate::markup::put_row;
use crate::phrases::rows_caption;
use crate::scope::Scope;
use crate::tags::{cell_open, end_open, name_open, rows_close};
use crate::transactions::put_shown;
use lab_drawing::{is_named, put_state};
use lab_history::{History, Installers};
use lab_table::{NoMemory, RowName, Value};
use std::alloc::Global;

/// The most rows that are shown.
const MAX_ROWS: usize = 40;

/// Appends a row, but where it is to be left out.
fn put_row_unless(out: &mut Vec<RowName>, row: RowName, left_out: bool) -> Result<(), NoMemory>
    ensures { OnOk result (out.new.items ≡ out.old.items ++ row_unless row left_out) }
{
    if left_out {
        Ok(())
    } else {
        out.push(row)?;
        Ok(())
    }
}

/// Whether a row was there at first.
fn is_initial(history: &History, row: RowName) -> bool
    ensures { result ≡ is_some (finite.get history.now.initial row) }
{
    history.initial().get(row).is_some()
}

/// Appends those of rows that were there at first that aren't among others.
fn put_initial_rows(
    out: &mut Vec<RowName>,
    rows: &[RowName],
    entries: &[(RowName, Value)],
) -> Result<(), NoMemory>
    ensures { OnOk result (out.new.items ≡ out.old.items ++ flat_map (initial_row rows.now) entries.now) }
{
    for (row, _) in entries {
        put_row_unless(out, *row, is_named(rows, *row))?;
    }
    Ok(())
}

/// Appends those of installed rows that came later and aren't among others.
fn put_later_rows(
    out: &mut Vec<RowName>,
    history: &History,
    rows: &[RowName],
    entries: &[(RowName, Installers)],
) -> Result<(), NoMemory>
    ensures { OnOk result (out.new.items ≡ out.old.items ++ flat_map (later_row history.now rows.now) entries.now) }
{
    for (row, _) in entries {
        let named = is_named(rows, *row) || is_initial(history, *row);
        put_row_unless(out, *row, named)?;
    }
    Ok(())
}

/// The rows that aren't in question.
fn other_rows(alloc: Global, history: &History, rows: &[RowName]) -> Result<Vec<RowName>, NoMemory>
    ensures { IfOk result (λ others. others.items ≡ other_rows history.now rows.now) }
{
    let mut others = Vec::new(alloc);
    put_initial_rows(&mut others, rows, history.initial().rows())?;
    put_later_rows(&mut others, history, rows, history.installed().entries())?;
    Ok(others)
}

/// How many others are shown beside so many in question.
fn room(asked: usize, others: usize) -> usize
    requires { (asked ≤ 9223372036854775807) × (others ≤ 9223372036854775807) }
    ensures { result ≡ room asked others }
{
    if asked + others <= MAX_ROWS {
        others
    } else if asked == 0 {
        MAX_ROWS
    } else {
        0
    }
}

/// The others that are shown.
fn shown_rows(asked: usize, rows: &[RowName]) -> &[RowName]
    requires { asked ≤ 9223372036854775807 }
    ensures { result.now ≡ shown_rows asked rows.now }
{
    &rows[..rows.len().min(room(asked, rows.len()))]
}

/// The beginning of a row's line.
fn row_open(bold: bool) -> &'static [u8]
    ensures { result.now ≡ row_open bold }
{
    if bold { b"<tr class=\"b\">" } else { b"<tr>" }
}

/// Appends a row's name.
#[tactic(auto, unfolding(crate::specs::Rows::row_name_cell))]
fn put_name_cell(alloc: Global, out: &mut Vec<u8>, bold: bool, row: RowName) -> Result<(), NoMemory>
    ensures { OnOk result (out.new.items ≡ out.old.items ++ row_name_cell bold row) }
{
    out.extend_from_slice(row_open(bold))?;
    out.extend_from_slice(name_open())?;
    put_row(alloc, out, row)?;
    out.extend_from_slice(b"</th>")
}

/// Appends its versions.
#[tactic(auto, unfolding(crate::specs::Rows::versions_cell))]
fn put_versions_cell(
    out: &mut Vec<u8>,
    history: &History,
    scope: &Scope,
    row: RowName,
) -> Result<(), NoMemory>
    ensures { OnOk result (out.new.items ≡ out.old.items ++ versions_cell history.now scope.now row) }
{
    out.extend_from_slice(cell_open())?;
    put_chain(out, history, scope, row, None, None)?;
    out.extend_from_slice(b"</td>")
}

/// Appends how it is in the end.
#[tactic(auto, unfolding(crate::specs::Rows::end_text))]
fn put_end(out: &mut Vec<u8>, history: &History, row: RowName) -> Result<(), NoMemory>
    ensures { OnOk result (out.new.items ≡ out.old.items ++ end_text history.now row) }
{
    out.extend_from_slice(end_open())?;
    put_state(out, history.end_table().get(row))
}

/// Appends the same as a cell.
#[tactic(auto, unfolding(crate::specs::Rows::end_cell))]
fn put_end_cell(out: &mut Vec<u8>, history: &History, row: RowName) -> Result<(), NoMemory>
    ensures { OnOk result (out.new.items ≡ out.old.items ++ end_cell history.now row) }
{
    put_end(out, history, row)?;
    out.extend_from_slice(b"</td></tr>\n")
}

/// Appends a row's line.
#[tactic(auto, unfolding(crate::specs::Rows::row_line))]
fn put_row_line(
    alloc: Global,
    out: &mut Vec<u8>,
    history: &History,
    scope: &Scope,
    bold: bool,
    row: RowName,
) -> Result<(), NoMemory>
    ensures { OnOk result (out.new.items ≡ out.old.items ++ row_line history.now scope.now bold row) }
{
    put_name_cell(alloc, out, bold, row)?;
    put_versions_cell(out, history, scope, row)?;
    put_end_cell(out, history, row)
}

/// Appends the lines of rows.
fn put_row_lines(
    alloc: Global,
    out: &mut Vec<u8>,
    history: &History,
    scope: &Scope,
    bold: bool,
    rows: &[RowName],
) -> Result<(), NoMemory>
    ensures { OnOk result (out.new.items ≡ out.old.items ++ rows_lines history.now scope.now bold rows.now) }
{
    for row in rows {
        put_row_line(alloc, out, history, scope, bold, *row)?;
    }
    Ok(())
}

/// The beginning.
#[tactic(auto, unfolding(crate::specs::Rows::rows_open))]
fn rows_open() -> &'static [u8]
    ensures { result.now ≡ rows_open }
{
    b"<section aria-labelledby=\"rows\">\n<h2 id=\"rows\">The rows</h2>\n<table class=\"s\">\n<caption>"
}

/// Appends the head of the part, where so many rows are shown of so many.
#[tactic(auto, unfolding(crate::specs::Rows::rows_head))]
fn put_rows_head(out: &mut Vec<u8>, shown: usize, all: usize) -> Result<(), NoMemory>
    ensures { OnOk result (out.new.items ≡ out.old.items ++ rows_head shown all) }
{
    out.extend_from_slice(rows_open())?;
    put_shown(out, shown as u64, all as u64)?;
    out.extend_from_slice(rows_caption())
}

/// Appends the part, where these are the rows that aren't in question.
#[tactic(auto, unfolding(crate::specs::Rows::rows_told))]
fn put_rows_told(
    alloc: Global,
    out: &mut Vec<u8>,
    history: &History,
    scope: &Scope,
    others: &[RowName],
) -> Result<(), NoMemory>
    ensures { OnOk result (out.new.items ≡ out.old.items ++ rows_told history.now scope.now others.now) }
{
    let asked = scope.rows.len();
    let shown = shown_rows(asked, others);
    put_rows_head(out, asked + shown.len(), asked + others.len())?;
    put_row_lines(alloc, out, history, scope, true, &scope.rows)?;
    put_row_lines(alloc, out, history, scope, false, shown)
}

/// Appends the whole part, where these are the rows that aren't in question.
#[tactic(auto, unfolding(crate::specs::Rows::rows_with))]
fn put_rows_with(
    alloc: Global,
    out: &mut Vec<u8>,
    history: &History,
    scope: &Scope,
    others: &[RowName],
) -> Result<(), NoMemory>
    ensures { OnOk result (out.new.items ≡ out.old.items ++ rows_with history.now scope.now others.now) }
{
    put_rows_told(alloc, out, history, scope, others)?;
    out.extend_from_slice(rows_close())
}

/// Appends the section on rows.
pub fn put_rows(
    alloc: Global,
    out: &mut Vec<u8>,
    history: &History,
    scope: &Scope,
) -> Result<(), NoMemory>
    ensures { OnOk result (out.new.items ≡ out.old.items ++ rows_part history.now scope.now) }
{
    let others = other_rows(alloc, history, &scope.rows)?;
    put_rows_with(alloc, out, history, scope, &others)
}
