//! The summary of a run in parts.

ghost use Rattle.std.specs.Prelude.{◌≡◌, IfOk};
ghost use Rattle.lab_chain.specs.Summary as spec;

use crate::level::Level;
use crate::line::{Line, Text};
use crate::seam::{Seam, seam_between};
use lab_table::{NoMemory, Table};
use std::alloc::Global;

/// The lines of the summary of a run in parts, without its level.
#[derive(Drop)]
pub struct Lines {
    pub serial: Line,
    pub snapshot: Line,
    pub g0: Line,
    pub g1a: Line,
    pub g1b: Line,
    pub g1c: Line,
    pub g_single: Line,
    pub g2_item: Line,
    pub g2: Line,
}

/// The ends of a piece of a run.
#[derive(Drop)]
pub struct Ends {
    /// The name of its first part.
    pub first: Text,
    /// The rows with which the first part begins, or `None` if it has no report.
    pub initial: Option<Table>,
    /// The rows with which the last part ends, or `None` if it has no report.
    pub last: Option<Table>,
}

/// The summary of a run in parts, or of consecutive parts of one.
#[derive(Drop)]
pub struct Summary {
    /// The number of parts.
    pub parts: u64,
    pub lines: Lines,
    pub level: Level,
    /// Whether a transaction committed: false only if each part's report says that none did.
    pub committed: bool,
    /// Its ends, or `None` if it has no parts.
    pub ends: Option<Ends>,
}

impl Lines {
    /// Returns the lines of a piece without parts.
    pub fn clear() -> Lines
        ensures { result ≡ spec.clear_lines }
    {
        Lines {
            serial: Line::Clear,
            snapshot: Line::Clear,
            g0: Line::Clear,
            g1a: Line::Clear,
            g1b: Line::Clear,
            g1c: Line::Clear,
            g_single: Line::Clear,
            g2_item: Line::Clear,
            g2: Line::Clear,
        }
    }

    /// Lines that say the same of both verdicts, and the same of each phenomenon.
    pub(crate) fn of(alloc: Global, verdict: &Line, found: &Line) -> Result<Lines, NoMemory>
        ensures { IfOk result (λ lines. lines ≡ spec.lines_of verdict.now found.now) }
    {
        Ok(Lines {
            serial: verdict.copy(alloc)?,
            snapshot: verdict.copy(alloc)?,
            g0: found.copy(alloc)?,
            g1a: found.copy(alloc)?,
            g1b: found.copy(alloc)?,
            g1c: found.copy(alloc)?,
            g_single: found.copy(alloc)?,
            g2_item: found.copy(alloc)?,
            g2: found.copy(alloc)?,
        })
    }

    /// Returns the lines of two pieces of a run, `self` before `next`.
    pub fn joined(self, next: Lines) -> Lines
        ensures { result ≡ spec.lines_joined self next }
    {
        Lines {
            serial: self.serial.joined(next.serial),
            snapshot: self.snapshot.joined(next.snapshot),
            g0: self.g0.joined(next.g0),
            g1a: self.g1a.joined(next.g1a),
            g1b: self.g1b.joined(next.g1b),
            g1c: self.g1c.joined(next.g1c),
            g_single: self.g_single.joined(next.g_single),
            g2_item: self.g2_item.joined(next.g2_item),
            g2: self.g2.joined(next.g2),
        }
    }
}

/// The ends of two pieces, one behind the other.
fn ends_joined(first: Option<Ends>, next: Option<Ends>) -> Option<Ends>
    ensures { result ≡ spec.ends_joined first next }
{
    match (first, next) {
        (None, next) => next,
        (Some(first), None) => Some(first),
        (Some(first), Some(next)) => Some(Ends {
            first: first.first,
            initial: first.initial,
            last: next.last,
        }),
    }
}

impl Summary {
    /// Returns the summary of a run without parts.
    pub fn nothing() -> Summary
        ensures { result ≡ spec.nothing }
    {
        Summary {
            parts: 0,
            lines: Lines::clear(),
            level: Level::Pl3,
            committed: false,
            ends: None,
        }
    }

    /// Returns the summary of two pieces of a run, `self` before `next`.
    pub fn joined(self, alloc: Global, next: Summary) -> Result<Summary, NoMemory>
        ensures { IfOk result (λ both. both ≡ spec.joined self next) }
    {
        let Seam { lines, level } = seam_between(alloc, &self.ends, &next.ends)?;
        Ok(Summary {
            parts: self.parts.saturating_add(next.parts),
            lines: self.lines.joined(lines.joined(next.lines)),
            level: self.level.worse(level).worse(next.level),
            committed: self.committed || next.committed,
            ends: ends_joined(self.ends, next.ends),
        })
    }
}
