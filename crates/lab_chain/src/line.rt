//! A line of the summary of a run in parts.

ghost use Rattle.std.specs.Prelude.{◌≡◌, IfOk};
ghost use Rattle.lab_chain.specs.Lines.{line_weight, line_joined};

use lab_table::{NoMemory, Sequence};
use std::alloc::Global;

/// The bytes of a text.
pub type Text = Sequence<u8>;

/// These bytes as a text.
pub fn text_of(alloc: Global, bytes: &[u8]) -> Result<Text, NoMemory>
    ensures { IfOk result (λ made. made ≡ bytes.now) }
{
    Ok(Text::new(Vec::from_slice(alloc, bytes)?))
}

/// A line of the summary, about a verdict or a phenomenon.
#[derive(Drop)]
pub enum Line {
    /// For each part, the verdict is yes or the phenomenon is absent.
    Clear,
    /// No part has a no or the phenomenon, and this is the first part that wasn't judged.
    Unjudged { part: Text },
    /// The first part with a no or the phenomenon, and the reason.
    Found { part: Text, reason: Text },
}

impl Line {
    /// That something wasn't judged, from this part on.
    pub(crate) fn unjudged_from(alloc: Global, part: &[u8]) -> Result<Line, NoMemory>
        ensures { IfOk result (λ line. line ≡ Line.Unjudged part.now) }
    {
        Ok(Line::Unjudged {
            part: text_of(alloc, part)?,
        })
    }

    /// That something was found in this part, and why.
    pub(crate) fn found_in(alloc: Global, part: &[u8], reason: Text) -> Result<Line, NoMemory>
        ensures { IfOk result (λ line. line ≡ Line.Found part.now reason) }
    {
        Ok(Line::Found {
            part: text_of(alloc, part)?,
            reason,
        })
    }

    /// The same again.
    pub(crate) fn copy(&self, alloc: Global) -> Result<Line, NoMemory>
        ensures { IfOk result (λ copy. copy ≡ self.now) }
    {
        match self {
            Line::Clear => Ok(Line::Clear),
            Line::Unjudged { part } => Line::unjudged_from(alloc, part.as_slice()),
            Line::Found { part, reason } => {
                Line::found_in(alloc, part.as_slice(), reason.copy(alloc)?)
            }
        }
    }

    /// How much it says: that something is found weighs more than that it wasn't judged.
    fn weight(&self) -> u8
        ensures { result ≡ line_weight self.now }
    {
        match self {
            Line::Clear => 0,
            Line::Unjudged { .. } => 1,
            Line::Found { .. } => 2,
        }
    }

    /// Returns the line of two pieces of a run, `self` before `next`.
    pub fn joined(self, next: Line) -> Line
        ensures { result ≡ line_joined self next }
    {
        if self.weight() < next.weight() {
            drop(self);
            next
        } else {
            drop(next);
            self
        }
    }
}
