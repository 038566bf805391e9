//! Prints the summary of a run in parts as a line of JSON.

ghost use Rattle.std.specs.Prelude.{◌≡◌, Some, IfOk, OnOk, IsUtf8};
ghost use Rattle.serde_json.specs.Data.{null, string};
ghost use Rattle.serde_json.specs.Read.{read as read_text};
ghost use Rattle.serde_json.specs.View.{view};
ghost use Rattle.serde_json.specs.Written.{compact_text};
ghost use Rattle.lab_reports.specs.Tree.{line_of};
ghost use Rattle.lab_chain.specs.ChainTree.{text_tree, said_tree, verdict_tree, presence_tree, phenomena_tree, rows_tree, first_tree, initial_of, last_of, chain_tree};

use crate::line::Line;
use crate::summary::{Ends, Lines, Summary};
use lab_reports::{print_line, rows_json};
use lab_table::{NoMemory, Table};
use serde_json::{Value as Json, json};
use std::alloc::Global;

fn string_json(alloc: Global, text: &str) -> Result<Json, NoMemory>
    ensures { IfOk result (λ v. view v ≡ string text.now) }
{
    Ok(Json::String(text.to_owned(alloc)?))
}

fn null_json() -> Json
    ensures { view result ≡ null }
{
    Json::Null
}

/// A text; null where it isn't UTF-8.
fn text_json(alloc: Global, text: &[u8]) -> Result<Json, NoMemory>
    ensures { IfOk result (λ v. view v ≡ text_tree text.now) }
{
    match std::str::from_utf8(text) {
        Ok(text) => string_json(alloc, text),
        Err(_) => Ok(null_json()),
    }
}

fn said_json(alloc: Global, clear: &str, found: &str, line: &Line) -> Result<Json, NoMemory>
    ensures { IfOk result (λ v. view v ≡ said_tree clear.now found.now line.now) }
{
    match line {
        Line::Clear => json!(in alloc; {"verdict": clear}),
        Line::Unjudged { part } => json!(in alloc; {
            "file": text_json(alloc, part.as_slice())?,
            "verdict": "not judged"
        }),
        Line::Found { part, reason } => json!(in alloc; {
            "file": text_json(alloc, part.as_slice())?,
            "reason": text_json(alloc, reason.as_slice())?,
            "verdict": found
        }),
    }
}

fn verdict_json(alloc: Global, line: &Line) -> Result<Json, NoMemory>
    ensures { IfOk result (λ v. view v ≡ verdict_tree line.now) }
{
    said_json(alloc, "yes", "no", line)
}

fn presence_json(alloc: Global, line: &Line) -> Result<Json, NoMemory>
    ensures { IfOk result (λ v. view v ≡ presence_tree line.now) }
{
    said_json(alloc, "absent", "present", line)
}

fn phenomena_json(alloc: Global, lines: &Lines) -> Result<Json, NoMemory>
    ensures { IfOk result (λ v. view v ≡ phenomena_tree lines.now) }
{
    json!(in alloc; {
        "G-single": presence_json(alloc, &lines.g_single)?,
        "G0": presence_json(alloc, &lines.g0)?,
        "G1a": presence_json(alloc, &lines.g1a)?,
        "G1b": presence_json(alloc, &lines.g1b)?,
        "G1c": presence_json(alloc, &lines.g1c)?,
        "G2": presence_json(alloc, &lines.g2)?,
        "G2-item": presence_json(alloc, &lines.g2_item)?
    })
}

fn known_rows_json(alloc: Global, rows: &Option<Table>) -> Result<Json, NoMemory>
    ensures { IfOk result (λ v. view v ≡ rows_tree rows.now) }
{
    match rows {
        None => Ok(null_json()),
        Some(table) => rows_json(alloc, table),
    }
}

fn first_json(alloc: Global, ends: &Option<Ends>) -> Result<Json, NoMemory>
    ensures { IfOk result (λ v. view v ≡ first_tree ends.now) }
{
    match ends {
        None => Ok(null_json()),
        Some(ends) => text_json(alloc, ends.first.as_slice()),
    }
}

fn initial_json(alloc: Global, ends: &Option<Ends>) -> Result<Json, NoMemory>
    ensures { IfOk result (λ v. view v ≡ rows_tree (initial_of ends.now)) }
{
    match ends {
        None => Ok(null_json()),
        Some(ends) => known_rows_json(alloc, &ends.initial),
    }
}

fn last_json(alloc: Global, ends: &Option<Ends>) -> Result<Json, NoMemory>
    ensures { IfOk result (λ v. view v ≡ rows_tree (last_of ends.now)) }
{
    match ends {
        None => Ok(null_json()),
        Some(ends) => known_rows_json(alloc, &ends.last),
    }
}

fn summary_json(alloc: Global, summary: &Summary) -> Result<Json, NoMemory>
    ensures { IfOk result (λ v. view v ≡ chain_tree summary.now) }
{
    json!(in alloc; {
        "committed": summary.committed,
        "end": last_json(alloc, &summary.ends)?,
        "first": first_json(alloc, &summary.ends)?,
        "initial": initial_json(alloc, &summary.ends)?,
        "level": summary.level.name(),
        "parts": summary.parts,
        "phenomena": phenomena_json(alloc, &summary.lines)?,
        "serializable": verdict_json(alloc, &summary.lines.serial)?,
        "snapshot": verdict_json(alloc, &summary.lines.snapshot)?
    })
}

/// Returns the summary of a run in parts as one line of compact JSON with its newline. The keys of each object are in
/// the order of their bytes.
#[tactic(auto, using(crate::proofs::WritableChain::chain_whole, crate::proofs::WritableChain::chain_flat))]
pub fn print_summary_json(alloc: Global, summary: &Summary) -> Result<Vec<u8>, NoMemory>
    ensures line { IfOk result (λ line. line.items ≡ line_of (chain_tree summary.now)) }
    ensures utf8 { IfOk result (λ line. IsUtf8 line.items) }
    // What stands before the newline, read as JSON, is the value.
    ensures value { OnOk result (let tree = chain_tree summary.now in read_text (compact_text tree) ≡ Some tree) }
{
    print_line(alloc, &summary_json(alloc, summary)?)
}
