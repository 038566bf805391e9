//! Reads the summary of a run in parts.

ghost use Rattle.std.specs.Prelude.{◌≡◌, true, IsTrue, IfOk, IfSome};
ghost use Rattle.lab_chain.specs.Coherence as spec;
ghost use Rattle.lab_chain.specs.ChainTree.{IsLines, IsLastLine, IsAnswerOf};

use crate::coherence::{are_one_line, is_coherent};
use crate::level::Level;
use crate::line::{Line, Text, text_of};
use crate::summary::{Ends, Lines, Summary};
use crate::summary_json::print_summary_json;
use lab_table::{NoMemory, RowId, RowName, Table, TableName, Value};
use serde_json::Value as Json;
use std::alloc::{AllocError, Global};

// What is read is written again and compared, so what follows may take anything for a value that isn't an answer's.

fn is_text(json: Option<&Json>, text: &str) -> bool {
    json.and_then(Json::as_str)
        .is_some_and(|found| found.as_bytes() == text.as_bytes())
}

fn text_in(alloc: Global, json: Option<&Json>) -> Result<Text, NoMemory> {
    match json.and_then(Json::as_str) {
        Some(text) => text_of(alloc, text.as_bytes()),
        None => Ok(Text::new(Vec::new(alloc))),
    }
}

fn line_in(alloc: Global, json: Option<&Json>, clear: &str) -> Result<Line, NoMemory> {
    let Some(json) = json else {
        return Ok(Line::Clear);
    };
    let verdict = json.get("verdict");
    if is_text(verdict, clear) {
        return Ok(Line::Clear);
    }
    let part = text_in(alloc, json.get("file"))?;
    if is_text(verdict, "not judged") {
        return Ok(Line::Unjudged { part });
    }
    let reason = text_in(alloc, json.get("reason"))?;
    Ok(Line::Found { part, reason })
}

fn lines_in(alloc: Global, json: &Json) -> Result<Lines, NoMemory> {
    let found = json.get("phenomena");
    Ok(Lines {
        serial: line_in(alloc, json.get("serializable"), "yes")?,
        snapshot: line_in(alloc, json.get("snapshot"), "yes")?,
        g0: line_in(alloc, found.and_then(|all| all.get("G0")), "absent")?,
        g1a: line_in(alloc, found.and_then(|all| all.get("G1a")), "absent")?,
        g1b: line_in(alloc, found.and_then(|all| all.get("G1b")), "absent")?,
        g1c: line_in(alloc, found.and_then(|all| all.get("G1c")), "absent")?,
        g_single: line_in(alloc, found.and_then(|all| all.get("G-single")), "absent")?,
        g2_item: line_in(alloc, found.and_then(|all| all.get("G2-item")), "absent")?,
        g2: line_in(alloc, found.and_then(|all| all.get("G2")), "absent")?,
    })
}

fn level_in(json: Option<&Json>) -> Level {
    for level in &Level::ALL {
        if is_text(json, level.name()) {
            return *level;
        }
    }
    Level::Pl3
}

/// The id and the value of `[table, id, value]`.
fn numbers_in(json: &Json) -> Option<(RowId, Value)> {
    let id = u32::try_from(json.get(1usize)?.as_u64()?).ok()?;
    let value = json.get(2usize)?.as_i64()?;
    Some((RowId::new(id)?, Value::new(value)?))
}

/// A row and its value, if this is `[table, id, value]`.
fn entry_in(alloc: Global, json: &Json) -> Result<Option<(RowName, Value)>, NoMemory> {
    let Some(name) = json.get(0usize).and_then(Json::as_str) else {
        return Ok(None);
    };
    let Some(table) = TableName::new(alloc, name.as_bytes())? else {
        return Ok(None);
    };
    Ok(numbers_in(json).map(|(id, value)| (RowName { table, id }, value)))
}

fn rows_in(alloc: Global, json: Option<&Json>) -> Result<Option<Table>, NoMemory> {
    let Some(entries) = json.and_then(Json::as_array) else {
        return Ok(None);
    };
    let mut table = Table::new(alloc);
    for entry in entries {
        if let Some((row, value)) = entry_in(alloc, entry)? {
            table.add(alloc, row, value)?;
        }
    }
    Ok(Some(table))
}

fn ends_in(alloc: Global, json: &Json) -> Result<Option<Ends>, NoMemory> {
    let first = json.get("first");
    if first.and_then(Json::as_str).is_none() {
        return Ok(None);
    }
    Ok(Some(Ends {
        first: text_in(alloc, first)?,
        initial: rows_in(alloc, json.get("initial"))?,
        last: rows_in(alloc, json.get("end"))?,
    }))
}

fn summary_in(alloc: Global, json: &Json) -> Result<Summary, NoMemory> {
    let lines = lines_in(alloc, json)?;
    let ends = ends_in(alloc, json)?;
    Ok(Summary {
        parts: json.get("parts").and_then(Json::as_u64).unwrap_or(0),
        lines,
        level: level_in(json.get("level")),
        committed: json
            .get("committed")
            .and_then(Json::as_bool)
            .unwrap_or(false),
        ends,
    })
}

/// The last line of a text, without its newline.
fn last_line(bytes: &[u8]) -> &[u8] {
    let lines = bytes.strip_suffix(b"\n").unwrap_or(bytes);
    match lines.iter().rposition(|byte| *byte == b'\n') {
        Some(place) => &lines[place + 1..],
        None => lines,
    }
}

fn is_same(text: &[u8], other: &[u8]) -> bool
    ensures { IsTrue result → text.now ≡ other.now }
{
    text == other
}

/// Whether a text is empty, or ends with a newline.
fn is_lines(text: &[u8]) -> bool
    ensures { IsTrue result → IsLines text.now }
{
    match text.split_last() {
        None => true,
        Some((last, _)) => *last == b'\n',
    }
}

/// Whether a text ends with this line.
fn ends_in_line(bytes: &[u8], line: &[u8]) -> bool
    ensures { IsTrue result → IsLastLine bytes.now line.now }
{
    if bytes.len() < line.len() {
        return false;
    }
    let (front, end) = bytes.split_at(bytes.len() - line.len());
    is_same(end, line) && is_lines(front)
}

/// Whether what is read is that of a run, as far as can be seen: it has a part, its level, lines and ends agree, and its
/// reasons are texts of one line.
fn is_possible(summary: &Summary) -> bool
    ensures coherent { IsTrue result → spec.is_coherent summary.now ≡ true }
    ensures one_line { IsTrue result → spec.are_one_line summary.now.lines ≡ true }
{
    is_coherent(summary) && are_one_line(&summary.lines)
}

/// Whether a line begins as those of `print_summary_json` do.
fn begins_summary(line: &[u8]) -> bool {
    line.starts_with(b"{\"committed\":")
}

/// Returns whether more than one line of a text begins as those of `print_summary_json` do.
pub fn has_more_summaries(bytes: &[u8]) -> bool {
    let mut is_met = false;
    for line in bytes.split(|byte| *byte == b'\n') {
        if begins_summary(line) {
            if is_met {
                return true;
            }
            is_met = true;
        }
    }
    false
}

/// Returns the summary in the last line of a text, as `print_summary_json` writes it, or `None` if the text ends with
/// no such line, its level, lines and ends don't agree as those of a run do ([`is_coherent`]), or another line of the text
/// begins as a summary does.
pub fn read_summary(alloc: Global, bytes: &[u8]) -> Result<Option<Summary>, NoMemory>
    ensures { IfOk result (λ read. IfSome read (IsAnswerOf bytes.now)) }
{
    if has_more_summaries(bytes) {
        return Ok(None);
    }
    let json = match Json::from_slice(alloc, last_line(bytes)) {
        Ok(json) => json,
        Err(error) if error.is_memory() => return Err(AllocError),
        Err(_) => return Ok(None),
    };
    let summary = summary_in(alloc, &json)?;
    drop(json);
    let line = print_summary_json(alloc, &summary)?;
    if is_possible(&summary) && ends_in_line(bytes, &line) {
        Ok(Some(summary))
    } else {
        Ok(None)
    }
}
