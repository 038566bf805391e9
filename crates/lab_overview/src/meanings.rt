//! What a page says of phenomena and levels.

ghost use Rattle.std.specs.Prelude.{◌≡◌};
ghost use Rattle.lab_overview.specs.Meanings.{meaning_of, forbidden_from, op_fault_meaning, fault_meaning, level_words, rung_of};

use crate::phrases::fault_lede;
use lab_deps::{FaultParts, OpFault};
use lab_judge::Grade;
use lab_reports::Phenomenon;

/// What a phenomenon is.
pub fn meaning_of(phenomenon: Phenomenon) -> &'static [u8]
    ensures { result.now ≡ meaning_of phenomenon }
{
    match phenomenon {
        Phenomenon::G0 =>
            b"In a cycle of dependencies each transaction overwrote what the one before it had left.",
        Phenomenon::G1a => b"A committed transaction saw what an aborted one wrote.",
        Phenomenon::G1b =>
            b"A committed transaction saw a version that its writer, another one, then overwrote itself.",
        Phenomenon::G1c =>
            b"In a cycle of dependencies each transaction saw or overwrote what the one before it wrote.",
        Phenomenon::GSingle =>
            b"In a cycle of dependencies exactly one is a missed change; the others say what was seen or overwritten.",
        Phenomenon::G2Item =>
            b"In a cycle of dependencies somebody missed a later change of a row that it had listed.",
        Phenomenon::G2 =>
            b"In a cycle of dependencies somebody missed a later change: of a row that it had listed, or of one that began or stopped to match its where, a phantom.",
    }
}

/// The lowest level that forbids it.
pub fn forbidden_from(phenomenon: Phenomenon) -> &'static [u8]
    ensures { result.now ≡ forbidden_from phenomenon }
{
    match phenomenon {
        Phenomenon::G0 => b"PL-1",
        Phenomenon::G1a => b"PL-2",
        Phenomenon::G1b => b"PL-2",
        Phenomenon::G1c => b"PL-2",
        Phenomenon::GSingle => b"PL-2.99 if it has an rw, else PL-3",
        Phenomenon::G2Item => b"PL-2.99",
        Phenomenon::G2 => b"PL-3",
    }
}

/// What an operation's fault is.
fn op_fault_meaning(kind: OpFault) -> &'static [u8]
    ensures { result.now ≡ op_fault_meaning kind }
{
    match kind {
        OpFault::Dangling => fault_lede(),
        OpFault::AbortedRead => meaning_of(Phenomenon::G1a),
        OpFault::IntermediateRead => meaning_of(Phenomenon::G1b),
        OpFault::OwnWriteMissed => fault_lede(),
        OpFault::LaterThanOwn => fault_lede(),
        OpFault::RowsDiffer => fault_lede(),
        OpFault::WritesDiffer => fault_lede(),
    }
}

/// What a fault is.
pub fn fault_meaning(fault: FaultParts) -> &'static [u8]
    ensures { result.now ≡ fault_meaning fault }
{
    match fault {
        FaultParts::Operation { kind, .. } => op_fault_meaning(kind),
        FaultParts::Row { .. } => fault_lede(),
    }
}

/// A level, and what it stands for.
pub fn level_words(level: Grade) -> &'static [u8]
    ensures { result.now ≡ level_words level }
{
    match level {
        Grade::BelowPl1 => b"below PL-1",
        Grade::Pl1 => b"PL-1 (read uncommitted)",
        Grade::Pl2 => b"PL-2 (read committed)",
        Grade::Pl299 => b"PL-2.99 (repeatable read)",
        Grade::Pl3 => b"PL-3 (serializable)",
        Grade::Unsound => b"not looked for",
    }
}

/// How many rungs of the ladder are below a level, and with it.
pub fn rung_of(level: Grade) -> u32
    ensures { result ≡ rung_of level }
{
    match level {
        Grade::BelowPl1 => 0,
        Grade::Pl1 => 1,
        Grade::Pl2 => 2,
        Grade::Pl299 => 3,
        Grade::Pl3 => 4,
        Grade::Unsound => 0,
    }
}
