//! Nicknames of cycles.

ghost use Rattle.std.specs.Prelude.{◌≡◌, ◌++◌, filter, IfOk, OnOk};
ghost use Rattle.lab_drawing.specs.Nicknames.{nickname_name, has_form, nicknames_of, in_parentheses};

use crate::forks::{is_long_fork, is_phantom};
use crate::pairs::{Pair, has_pair};
use crate::readers::is_read_only_anomaly;
use lab_deps::Edge;
use lab_history::History;
use lab_table::NoMemory;
use std::alloc::Global;

/// A name for cycles with an anomaly. Two neighbours in the cycle have it, or all of its transactions. A cycle may have several
/// names, and they don't depend on how transactions are numbered.
#[derive(Clone, Copy, Debug, PartialEq, Eq)]
pub enum Nickname {
    /// An operation overwrote a version that it didn't see, in a row that it read before (P4 of Berenson et al., A
    /// Critique of ANSI SQL Isolation Levels, 1995).
    LostUpdate,
    /// A transaction saw another one's write of a row, and missed its write of another row (A5A of Berenson et al. 1995).
    ReadSkew,
    /// A transaction read a row before and after another one wrote it (P2 of Berenson et al. 1995, fuzzy read).
    FuzzyRead,
    /// Two transactions each read a row before the other one wrote it (A5B of Berenson et al. 1995).
    WriteSkew,
    /// One reader saw the first of two writes and not the second, another one the second and not the first (Sovran et
    /// al., Transactional Storage for Geo-Replicated Systems, 2011).
    LongFork,
    /// A snapshot run that is serializable without a transaction that wrote nothing (Fekete, O'Neil and O'Neil, A
    /// Read-Only Transaction Anomaly Under Snapshot Isolation, 2004).
    ReadOnlyAnomaly,
    /// One transaction comes before another only because a predicate missed a write (P3 of Berenson et al. 1995).
    Phantom,
}

impl Nickname {
    /// All of them, in the order in which they are said.
    const ALL: [Nickname; 7] = [
        Nickname::LostUpdate,
        Nickname::ReadSkew,
        Nickname::FuzzyRead,
        Nickname::WriteSkew,
        Nickname::LongFork,
        Nickname::ReadOnlyAnomaly,
        Nickname::Phantom,
    ];

    /// Returns the nickname, in words.
    pub fn name(self) -> &'static str
        ensures { result.now ≡ nickname_name self }
    {
        match self {
            Nickname::LostUpdate => "lost update",
            Nickname::ReadSkew => "read skew",
            Nickname::FuzzyRead => "non-repeatable read",
            Nickname::WriteSkew => "write skew",
            Nickname::LongFork => "long fork",
            Nickname::ReadOnlyAnomaly => "read-only anomaly",
            Nickname::Phantom => "phantom",
        }
    }
}

/// Whether a cycle has the form that a nickname is for.
fn has_form(
    alloc: Global,
    history: &History,
    walk: &[Edge],
    nickname: Nickname,
) -> Result<bool, NoMemory>
    ensures { IfOk result (λ has. has ≡ has_form history.now walk.now nickname) }
{
    match nickname {
        Nickname::LostUpdate => has_pair(alloc, history, Pair::LostUpdate, walk),
        Nickname::ReadSkew => has_pair(alloc, history, Pair::ReadSkew, walk),
        Nickname::FuzzyRead => has_pair(alloc, history, Pair::FuzzyRead, walk),
        Nickname::WriteSkew => has_pair(alloc, history, Pair::WriteSkew, walk),
        Nickname::LongFork => is_long_fork(alloc, history, walk),
        Nickname::ReadOnlyAnomaly => is_read_only_anomaly(alloc, history, walk),
        Nickname::Phantom => is_phantom(alloc, history, walk),
    }
}

/// Appends those of some nicknames whose form a cycle has, in parentheses.
fn put_those_of(
    out: &mut Vec<u8>,
    history: &History,
    walk: &[Edge],
    among: &[Nickname],
) -> Result<(), NoMemory>
    ensures { OnOk result (out.new.items ≡ out.old.items ++ in_parentheses (filter (has_form history.now walk.now) among.now)) }
{
    let alloc = *out.allocator();
    let mut lead: &[u8] = b" (";
    let mut end: &[u8] = b"";
    for nickname in among {
        if has_form(alloc, history, walk, *nickname)? {
            out.extend_from_slice(lead)?;
            out.extend_from_slice(nickname.name().as_bytes())?;
            lead = b", ";
            end = b")";
        }
    }
    out.extend_from_slice(end)
}

/// Appends the nicknames of a cycle in parentheses, each whose form it has; nothing where it has none. On failure, a
/// part of the text may have been appended.
pub fn put_nicknames(out: &mut Vec<u8>, history: &History, walk: &[Edge]) -> Result<(), NoMemory>
    ensures { OnOk result (out.new.items ≡ out.old.items ++ in_parentheses (nicknames_of history.now walk.now)) }
{
    put_those_of(out, history, walk, &Nickname::ALL)
}
