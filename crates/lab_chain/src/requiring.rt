//! Requirements on a run in parts.

ghost use Rattle.std.specs.Prelude.{◌≡◌, ◌++◌, codes, OnOk};
ghost use Rattle.lab_chain.specs.Chain as spec;

use crate::level::Level;
use crate::line::Line;
use crate::shown::{put_name, put_reason};
use crate::summary::{Lines, Summary};
use lab_reports::Requirement;
use lab_table::NoMemory;

pub fn is_clear(line: &Line) -> bool
    ensures { result ≡ spec.is_clear line.now }
{
    matches!(line, Line::Clear)
}

pub fn is_found(line: &Line) -> bool
    ensures { result ≡ spec.is_found line.now }
{
    matches!(line, Line::Found { .. })
}

/// Whether the level or the snapshot verdict of a run is the required one, or better.
fn meets(requirement: Requirement, summary: &Summary) -> bool
    ensures { result ≡ spec.chain_meets requirement summary.now }
{
    match requirement {
        Requirement::Pl1 => 1 <= summary.level.levels_met(),
        Requirement::Pl2 => 2 <= summary.level.levels_met(),
        Requirement::Pl299 => 3 <= summary.level.levels_met(),
        Requirement::Pl3 => 4 <= summary.level.levels_met(),
        Requirement::Snapshot => is_clear(&summary.lines.snapshot),
    }
}

/// Returns whether a run meets a requirement: its level is the required one or higher, or it is a snapshot run, and a
/// transaction committed in one of its parts. So a run without parts meets none.
pub fn is_met(requirement: Requirement, summary: &Summary) -> bool
    ensures { result ≡ spec.chain_keeps requirement summary.now }
{
    meets(requirement, summary) && summary.committed
}

/// Appends the first part that shows a phenomenon, or that wasn't judged.
fn put_bar(out: &mut Vec<u8>, name: &[u8], line: &Line) -> Result<(), NoMemory>
    ensures { OnOk result (out.new.items ≡ out.old.items ++ spec.bar_text name.now line.now) }
{
    match line {
        Line::Clear => Ok(()),
        Line::Unjudged { part } => {
            out.extend_from_slice(b": ")?;
            out.extend_from_slice(name)?;
            out.extend_from_slice(b" not judged in ")?;
            put_name(out, part.as_slice())
        }
        Line::Found { part, .. } => {
            out.extend_from_slice(b": ")?;
            out.extend_from_slice(name)?;
            out.extend_from_slice(b" present in ")?;
            put_name(out, part.as_slice())
        }
    }
}

/// Appends the first of the phenomena that PL-2 excludes.
fn put_read_bar(out: &mut Vec<u8>, lines: &Lines) -> Result<(), NoMemory>
    ensures { OnOk result (out.new.items ≡ out.old.items ++ spec.read_bar lines.now) }
{
    if is_found(&lines.g1a) {
        put_bar(out, b"G1a", &lines.g1a)
    } else if is_found(&lines.g1b) {
        put_bar(out, b"G1b", &lines.g1b)
    } else {
        put_bar(out, b"G1c", &lines.g1c)
    }
}

/// Appends a word and the name of a part.
fn put_led(out: &mut Vec<u8>, word: &[u8], part: &[u8]) -> Result<(), NoMemory>
    ensures { OnOk result (out.new.items ≡ out.old.items ++ (word.now ++ spec.shown_name part.now)) }
{
    out.extend_from_slice(word)?;
    put_name(out, part)
}

/// Appends the name of the part that wasn't judged.
fn put_unjudged(out: &mut Vec<u8>, line: &Line) -> Result<(), NoMemory>
    ensures { OnOk result (out.new.items ≡ out.old.items ++ spec.unjudged_text line.now) }
{
    match line {
        Line::Unjudged { part } => put_led(out, b": ", part.as_slice()),
        Line::Clear | Line::Found { .. } => Ok(()),
    }
}

/// Appends the name of a part, and a reason.
fn put_because(out: &mut Vec<u8>, part: &[u8], reason: &[u8]) -> Result<(), NoMemory>
    ensures { OnOk result (out.new.items ≡ out.old.items ++ (spec.shown_name part.now ++ codes ": " ++ spec.cut_reason reason.now)) }
{
    put_name(out, part)?;
    out.extend_from_slice(b": ")?;
    put_reason(out, reason)
}

/// Appends the part that isn't sound or doesn't fit, and why.
fn put_unsound(out: &mut Vec<u8>, line: &Line) -> Result<(), NoMemory>
    ensures { OnOk result (out.new.items ≡ out.old.items ++ spec.unsound_text line.now) }
{
    match line {
        Line::Found { part, reason } => {
            out.extend_from_slice(b": ")?;
            put_because(out, part.as_slice(), reason.as_slice())
        }
        Line::Clear | Line::Unjudged { .. } => Ok(()),
    }
}

/// Appends, behind a level, that it was found, and the phenomenon that keeps the run from the next one.
fn put_found(out: &mut Vec<u8>, name: &[u8], line: &Line) -> Result<(), NoMemory>
    ensures { OnOk result (out.new.items ≡ out.old.items ++ (codes " found" ++ spec.bar_text name.now line.now)) }
{
    out.extend_from_slice(b" found")?;
    put_bar(out, name, line)
}

/// Appends, behind a level, what keeps the run from the next one.
fn put_behind_level(out: &mut Vec<u8>, level: Level, lines: &Lines) -> Result<(), NoMemory>
    ensures { OnOk result (out.new.items ≡ out.old.items ++ spec.behind_level level lines.now) }
{
    match level {
        Level::Pl3 => out.extend_from_slice(b" found"),
        Level::Pl299 => put_found(out, b"G2", &lines.g2),
        Level::Pl2 => put_found(out, b"G2-item", &lines.g2_item),
        Level::Pl1 => {
            out.extend_from_slice(b" found")?;
            put_read_bar(out, lines)
        }
        Level::NotJudged => put_unjudged(out, &lines.g0),
        Level::BelowPl1 => put_found(out, b"G0", &lines.g0),
        Level::Unsound => put_unsound(out, &lines.serial),
    }
}

/// Appends what a line about a verdict says.
fn put_verdict(out: &mut Vec<u8>, line: &Line) -> Result<(), NoMemory>
    ensures { OnOk result (out.new.items ≡ out.old.items ++ spec.told_verdict line.now) }
{
    match line {
        Line::Clear => out.extend_from_slice(b"yes"),
        Line::Unjudged { part } => put_led(out, b"not judged ", part.as_slice()),
        Line::Found { part, reason } => {
            out.extend_from_slice(b"no ")?;
            put_because(out, part.as_slice(), reason.as_slice())
        }
    }
}

/// Appends what the line about snapshots says.
fn put_snapshot(out: &mut Vec<u8>, line: &Line) -> Result<(), NoMemory>
    ensures { OnOk result (out.new.items ≡ out.old.items ++ spec.snapshot_text line.now) }
{
    out.extend_from_slice(b"snapshot: ")?;
    put_verdict(out, line)
}

/// Appends what was found in place of what is required.
fn put_found_instead(
    out: &mut Vec<u8>,
    requirement: Requirement,
    summary: &Summary,
) -> Result<(), NoMemory>
    ensures { OnOk result (out.new.items ≡ out.old.items ++ spec.found_text requirement summary.now) }
{
    match requirement {
        Requirement::Snapshot => put_snapshot(out, &summary.lines.snapshot),
        _ => {
            out.extend_from_slice(summary.level.name().as_bytes())?;
            put_behind_level(out, summary.level, &summary.lines)
        }
    }
}

/// Appends what there is in place of what is required: no part, no transaction that committed, or what was found.
fn put_instead(
    out: &mut Vec<u8>,
    requirement: Requirement,
    summary: &Summary,
) -> Result<(), NoMemory>
    ensures { OnOk result (out.new.items ≡ out.old.items ++ spec.instead_text requirement summary.now) }
{
    match &summary.ends {
        None => out.extend_from_slice(b"no part given"),
        Some(_) if summary.committed => put_found_instead(out, requirement, summary),
        Some(_) => out.extend_from_slice(b"no transaction committed"),
    }
}

/// Appends why a run doesn't meet a requirement, without a newline. The text has the requirement, and one of these, in
/// which a name has at most 200 bytes, and `?` for each one that isn't printable ASCII:
/// - the level that was found, with the first phenomenon and part that exclude the next one:
///   `PL-3 asked, PL-2 found: G2-item present in b.json`
/// - the first part that isn't sound or doesn't fit, with at most 200 bytes of the reason:
///   `PL-3 asked, unsound: b.json: seam row 1`
/// - the first part that wasn't judged: `PL-3 asked, not judged: b.json`
/// - the snapshot verdict, with at most 200 bytes of the reason: `SI asked, snapshot: no b.json: c1 s2 c1`
/// - `PL-3 asked, no part given`, or `PL-3 asked, no transaction committed`
///
/// On failure, a part of it may have been appended.
pub fn put_chain_shortfall(
    out: &mut Vec<u8>,
    requirement: Requirement,
    summary: &Summary,
) -> Result<(), NoMemory>
    ensures { OnOk result (out.new.items ≡ out.old.items ++ spec.chain_shortfall requirement summary.now) }
{
    out.extend_from_slice(requirement.name().as_bytes())?;
    out.extend_from_slice(b" asked, ")?;
    put_instead(out, requirement, summary)
}
