//! Prints the summary of a run in parts as lines.

ghost use Rattle.std.specs.Prelude.{◌≡◌, ◌++◌, codes, IfOk, OnOk};
ghost use Rattle.lab_judge.specs.ReportText.{line_text};
ghost use Rattle.lab_chain.specs.Levels.{level_name};
ghost use Rattle.lab_chain.specs.ChainText.{count_text, said_text, verdict_text, presence_text, chain_text};

use crate::level::Level;
use crate::line::Line;
use crate::summary::{Lines, Summary};
use itoa::Buffer;
use lab_table::NoMemory;
use std::alloc::Global;

fn put_said(out: &mut Vec<u8>, clear: &str, found: &str, line: &Line) -> Result<(), NoMemory>
    ensures { OnOk result (out.new.items ≡ out.old.items ++ said_text clear.now found.now line.now) }
{
    match line {
        Line::Clear => out.extend_from_slice(clear.as_bytes()),
        Line::Unjudged { part } => {
            out.extend_from_slice(b"not judged ")?;
            out.extend_from_slice(part.as_slice())
        }
        Line::Found { part, reason } => {
            out.extend_from_slice(found.as_bytes())?;
            out.extend_from_slice(b" ")?;
            out.extend_from_slice(part.as_slice())?;
            out.extend_from_slice(b": ")?;
            out.extend_from_slice(reason.as_slice())
        }
    }
}

fn put_verdict(out: &mut Vec<u8>, about: &str, line: &Line) -> Result<(), NoMemory>
    ensures { OnOk result (out.new.items ≡ out.old.items ++ line_text about.now (verdict_text line.now)) }
{
    out.extend_from_slice(about.as_bytes())?;
    out.extend_from_slice(b": ")?;
    put_said(out, "yes", "no", line)?;
    out.extend_from_slice(b"\n")
}

fn put_presence(out: &mut Vec<u8>, about: &str, line: &Line) -> Result<(), NoMemory>
    ensures { OnOk result (out.new.items ≡ out.old.items ++ line_text about.now (presence_text line.now)) }
{
    out.extend_from_slice(about.as_bytes())?;
    out.extend_from_slice(b": ")?;
    put_said(out, "absent", "present", line)?;
    out.extend_from_slice(b"\n")
}

fn put_count(out: &mut Vec<u8>, parts: u64) -> Result<(), NoMemory>
    ensures { OnOk result (out.new.items ≡ out.old.items ++ count_text parts) }
{
    out.extend_from_slice(b"=== parts ")?;
    out.extend_from_slice(Buffer::new().format(parts).as_bytes())?;
    out.extend_from_slice(b"\n")
}

fn put_level(out: &mut Vec<u8>, level: Level) -> Result<(), NoMemory>
    ensures { OnOk result (out.new.items ≡ out.old.items ++ line_text (codes "level") (level_name level)) }
{
    out.extend_from_slice(b"level: ")?;
    out.extend_from_slice(level.name().as_bytes())?;
    out.extend_from_slice(b"\n")
}

/// Returns the printed summary of a run in parts: a line with the number of parts, and ten lines like those of a
/// report.
pub fn print_summary(alloc: Global, summary: &Summary) -> Result<Vec<u8>, NoMemory>
    ensures { IfOk result (λ text. text.items ≡ chain_text summary.now) }
{
    let mut out = Vec::new(alloc);
    put_count(&mut out, summary.parts)?;
    let Lines {
        serial,
        snapshot,
        g0,
        g1a,
        g1b,
        g1c,
        g_single,
        g2_item,
        g2,
    } = &summary.lines;
    put_verdict(&mut out, "serializable", serial)?;
    put_verdict(&mut out, "snapshot", snapshot)?;
    put_presence(&mut out, "G0", g0)?;
    put_presence(&mut out, "G1a", g1a)?;
    put_presence(&mut out, "G1b", g1b)?;
    put_presence(&mut out, "G1c", g1c)?;
    put_presence(&mut out, "G-single", g_single)?;
    put_presence(&mut out, "G2-item", g2_item)?;
    put_presence(&mut out, "G2", g2)?;
    put_level(&mut out, summary.level)?;
    Ok(out)
}
