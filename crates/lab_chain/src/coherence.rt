//! Whether the level, the lines and the ends of a summary agree.

ghost use Rattle.std.specs.Prelude.{◌≡◌, ◌||◌};
ghost use Rattle.std.specs.List.{list_all};
ghost use Rattle.lab_chain.specs.Chain as chain;
ghost use Rattle.lab_chain.specs.Coherence as spec;

use crate::level::Level;
use crate::line::Line;
use crate::requiring::{is_clear, is_found};
use crate::summary::{Ends, Lines, Summary};
use lab_table::Table;

/// Whether a level isn't better than `best`.
fn at_best(best: Level, level: Level) -> bool
    ensures { result ≡ spec.at_best best level }
{
    best.rank() <= level.rank()
}

/// Whether a run of this level can have this line, by the best levels with an unjudged and with a found one.
fn allows(unjudged: Level, found: Level, level: Level, line: &Line) -> bool
    ensures { result ≡ spec.allows unjudged found level line.now }
{
    match line {
        Line::Clear => true,
        Line::Unjudged { .. } => at_best(unjudged, level),
        Line::Found { .. } => at_best(found, level),
    }
}

/// Whether a run of this level can have each of these lines.
fn all_allow(level: Level, lines: &Lines) -> bool
    ensures { result ≡ spec.all_allow level lines.now }
{
    allows(Level::NotJudged, Level::Pl299, level, &lines.serial)
        && allows(Level::NotJudged, Level::Pl3, level, &lines.snapshot)
        && allows(Level::NotJudged, Level::BelowPl1, level, &lines.g0)
        && allows(Level::NotJudged, Level::Pl1, level, &lines.g1a)
        && allows(Level::NotJudged, Level::Pl1, level, &lines.g1b)
        && allows(Level::Pl1, Level::Pl1, level, &lines.g1c)
        && allows(Level::Pl1, Level::Pl299, level, &lines.g_single)
        && allows(Level::Pl1, Level::Pl2, level, &lines.g2_item)
        && allows(Level::Pl1, Level::Pl299, level, &lines.g2)
}

fn none_clear(lines: &Lines) -> bool
    ensures { result ≡ spec.none_clear lines.now }
{
    !is_clear(&lines.serial)
        && !is_clear(&lines.snapshot)
        && !is_clear(&lines.g0)
        && !is_clear(&lines.g1a)
        && !is_clear(&lines.g1b)
        && !is_clear(&lines.g1c)
        && !is_clear(&lines.g_single)
        && !is_clear(&lines.g2_item)
        && !is_clear(&lines.g2)
}

/// Whether a run of which lines say this has a phenomenon that PL-2 excludes.
fn has_read(lines: &Lines) -> bool
    ensures { result ≡ (chain.is_found lines.now.g1a || chain.is_found lines.now.g1b || chain.is_found lines.now.g1c) }
{
    is_found(&lines.g1a) || is_found(&lines.g1b) || is_found(&lines.g1c)
}

/// Whether these lines show why the level isn't a better one.
fn shows(level: Level, lines: &Lines) -> bool
    ensures { result ≡ spec.shows level lines.now }
{
    match level {
        Level::Pl3 => true,
        Level::Pl299 => is_found(&lines.serial) && is_found(&lines.g2),
        Level::Pl2 => { is_found(&lines.serial) && is_found(&lines.g2_item) && is_found(&lines.g2) }
        Level::Pl1 => is_found(&lines.serial) && has_read(lines),
        Level::NotJudged => none_clear(lines),
        Level::BelowPl1 => is_found(&lines.serial) && is_found(&lines.g0),
        Level::Unsound => {
            is_found(&lines.serial) && is_found(&lines.snapshot) && none_clear(lines)
        }
    }
}

/// Whether the rows at an end are known, or else no line is clear.
fn is_known(rows: &Option<Table>, lines: &Lines) -> bool
    ensures { result ≡ spec.is_known rows.now lines.now }
{
    match rows {
        Some(_) => true,
        None => none_clear(lines),
    }
}

fn has_ends(ends: &Option<Ends>, lines: &Lines) -> bool
    ensures { result ≡ spec.has_ends ends.now lines.now }
{
    match ends {
        None => false,
        Some(ends) => is_known(&ends.initial, lines) && is_known(&ends.last, lines),
    }
}

/// Returns whether the level, the lines and the ends of a run with a part agree, as those of every run do. It may return
/// true for a summary that no run has.
pub fn is_coherent(summary: &Summary) -> bool
    ensures { result ≡ spec.is_coherent summary.now }
{
    1 <= summary.parts
        && all_allow(summary.level, &summary.lines)
        && shows(summary.level, &summary.lines)
        && has_ends(&summary.ends, &summary.lines)
}

fn is_printable(byte: u8) -> bool
    ensures { result ≡ spec.is_printable byte }
{
    32 <= byte && byte <= 126
}

/// Whether each byte is printable ASCII.
fn are_printable(text: &[u8]) -> bool
    ensures { result ≡ list_all spec.is_printable text.now }
{
    text.iter().all(|byte| is_printable(*byte))
}

/// Whether the reason of a line is a text of one line.
fn is_one_line(line: &Line) -> bool
    ensures { result ≡ spec.is_one_line line.now }
{
    match line {
        Line::Clear | Line::Unjudged { .. } => true,
        Line::Found { reason, .. } => are_printable(reason.as_slice()),
    }
}

/// Whether the reason of each line is a text of one line, as those of reports are.
pub fn are_one_line(lines: &Lines) -> bool
    ensures { result ≡ spec.are_one_line lines.now }
{
    is_one_line(&lines.serial)
        && is_one_line(&lines.snapshot)
        && is_one_line(&lines.g0)
        && is_one_line(&lines.g1a)
        && is_one_line(&lines.g1b)
        && is_one_line(&lines.g1c)
        && is_one_line(&lines.g_single)
        && is_one_line(&lines.g2_item)
        && is_one_line(&lines.g2)
}
