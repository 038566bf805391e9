//! The cells of an operation: what it saw, listed and wrote. Functions that take bytes append; on failure, a part of
//! the text may have been appended.

ghost use Rattle.std.specs.Prelude.{◌≡◌, ◌++◌, flat_map, OnOk};
ghost use Rattle.lab_evidence.specs.Cells.{entry_open, entry_text, asked_entry, first_entries, later_entries, count_text, more_text, in_all, entries_text, cell_text, seen_cell, listed_cell, written_cell};

use crate::entries::{Entry, listed_entries, seen_entries, written_entries};
use crate::entry_words::put_told;
use crate::scope::Scope;
use crate::tags::count_open;
use lab_drawing::{is_named, put_number};
use lab_history::{History, Op};
use lab_table::{NoMemory, RowName};
use std::alloc::Global;

/// The first entries of a cell that are shown.
const MAX_ENTRIES: usize = 8;

/// The beginning of an entry.
fn entry_open(bold: bool) -> &'static [u8]
    ensures { result.now ≡ entry_open bold }
{
    if bold {
        b"<span class=\"e b\">"
    } else {
        b"<span class=\"e\">"
    }
}

/// Appends an entry.
#[tactic(auto, unfolding(crate::specs::Cells::entry_text))]
fn put_entry(
    alloc: Global,
    out: &mut Vec<u8>,
    history: &History,
    scope: &Scope,
    rows: &[RowName],
    entry: &Entry,
) -> Result<(), NoMemory>
    ensures { OnOk result (out.new.items ≡ out.old.items ++ entry_text history.now scope.now rows.now entry.now) }
{
    out.extend_from_slice(entry_open(is_named(rows, entry.row)))?;
    put_told(alloc, out, history, scope, entry.row, &entry.told)?;
    out.extend_from_slice(b"</span>")
}

/// Appends an entry, if it is in question.
fn put_asked_entry(
    alloc: Global,
    out: &mut Vec<u8>,
    history: &History,
    scope: &Scope,
    rows: &[RowName],
    entry: &Entry,
) -> Result<(), NoMemory>
    ensures { OnOk result (out.new.items ≡ out.old.items ++ asked_entry history.now scope.now rows.now entry.now) }
{
    if is_named(rows, entry.row) {
        put_entry(alloc, out, history, scope, rows, entry)
    } else {
        Ok(())
    }
}

/// Appends entries.
fn put_each(
    alloc: Global,
    out: &mut Vec<u8>,
    history: &History,
    scope: &Scope,
    rows: &[RowName],
    entries: &[Entry],
) -> Result<(), NoMemory>
    ensures { OnOk result (out.new.items ≡ out.old.items ++ flat_map (entry_text history.now scope.now rows.now) entries.now) }
{
    for entry in entries {
        put_entry(alloc, out, history, scope, rows, entry)?;
    }
    Ok(())
}

/// Appends those of entries that are in question.
fn put_each_asked(
    alloc: Global,
    out: &mut Vec<u8>,
    history: &History,
    scope: &Scope,
    rows: &[RowName],
    entries: &[Entry],
) -> Result<(), NoMemory>
    ensures { OnOk result (out.new.items ≡ out.old.items ++ flat_map (asked_entry history.now scope.now rows.now) entries.now) }
{
    for entry in entries {
        put_asked_entry(alloc, out, history, scope, rows, entry)?;
    }
    Ok(())
}

/// The first entries, and those behind them.
fn divided(entries: &[Entry]) -> (&[Entry], &[Entry])
    ensures first { result.0.now ≡ first_entries entries.now }
    ensures later { result.1.now ≡ later_entries entries.now }
{
    entries.split_at(entries.len().min(MAX_ENTRIES))
}

/// Appends how many entries there are.
#[tactic(auto, unfolding(crate::specs::Cells::count_text))]
fn put_count(out: &mut Vec<u8>, count: u64) -> Result<(), NoMemory>
    ensures { OnOk result (out.new.items ≡ out.old.items ++ count_text count) }
{
    out.extend_from_slice(count_open())?;
    put_number(out, count)
}

/// Appends the same, where there are more.
#[tactic(auto, unfolding(crate::specs::Cells::more_text))]
fn put_more(out: &mut Vec<u8>, count: u64) -> Result<(), NoMemory>
    ensures { OnOk result (out.new.items ≡ out.old.items ++ more_text count) }
{
    put_count(out, count)?;
    out.extend_from_slice(b" in all</span>")
}

fn put_in_all(out: &mut Vec<u8>, count: usize) -> Result<(), NoMemory>
    ensures { OnOk result (out.new.items ≡ out.old.items ++ in_all count) }
{
    if count <= MAX_ENTRIES {
        Ok(())
    } else {
        put_more(out, count as u64)
    }
}

/// Appends the entries of a cell: the first, those in question, and how many there are.
#[tactic(auto, unfolding(crate::specs::Cells::entries_text))]
fn put_entries(
    alloc: Global,
    out: &mut Vec<u8>,
    history: &History,
    scope: &Scope,
    rows: &[RowName],
    entries: &[Entry],
) -> Result<(), NoMemory>
    ensures { OnOk result (out.new.items ≡ out.old.items ++ entries_text history.now scope.now rows.now entries.now) }
{
    let (first, later) = divided(entries);
    put_each(alloc, out, history, scope, rows, first)?;
    put_each_asked(alloc, out, history, scope, rows, later)?;
    put_in_all(out, entries.len())
}

/// Appends a cell, with what stands in one without entries.
fn put_cell(
    alloc: Global,
    out: &mut Vec<u8>,
    history: &History,
    scope: &Scope,
    rows: &[RowName],
    empty: &[u8],
    entries: &[Entry],
) -> Result<(), NoMemory>
    ensures { OnOk result (out.new.items ≡ out.old.items ++ cell_text history.now scope.now rows.now empty.now entries.now) }
{
    if entries.len() == 0 {
        out.extend_from_slice(empty)
    } else {
        put_entries(alloc, out, history, scope, rows, entries)
    }
}

/// Appends what an operation saw.
pub fn put_seen_cell(
    alloc: Global,
    out: &mut Vec<u8>,
    history: &History,
    scope: &Scope,
    rows: &[RowName],
    op: &Op,
) -> Result<(), NoMemory>
    ensures { OnOk result (out.new.items ≡ out.old.items ++ seen_cell history.now scope.now rows.now op.now) }
{
    let entries = seen_entries(alloc, &op.view)?;
    put_cell(alloc, out, history, scope, rows, b"all at first", &entries)
}

/// Appends what it listed.
pub fn put_listed_cell(
    alloc: Global,
    out: &mut Vec<u8>,
    history: &History,
    scope: &Scope,
    rows: &[RowName],
    op: &Op,
) -> Result<(), NoMemory>
    ensures { OnOk result (out.new.items ≡ out.old.items ++ listed_cell history.now scope.now rows.now op.now) }
{
    let entries = listed_entries(alloc, &op.rows)?;
    put_cell(alloc, out, history, scope, rows, b"none", &entries)
}

/// Appends what it wrote.
pub fn put_written_cell(
    alloc: Global,
    out: &mut Vec<u8>,
    history: &History,
    scope: &Scope,
    rows: &[RowName],
    op: &Op,
) -> Result<(), NoMemory>
    ensures { OnOk result (out.new.items ≡ out.old.items ++ written_cell history.now scope.now rows.now op.now) }
{
    let entries = written_entries(alloc, &op.writes)?;
    put_cell(alloc, out, history, scope, rows, b"", &entries)
}
