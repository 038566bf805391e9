//! The titles of drawings, in words. The functions append; on failure, a part of the text may have been appended.

ghost use Rattle.std.specs.Prelude.{◌≡◌, ◌++◌, flat_map, OnOk};
ghost use Rattle.lab_drawing.specs.Cycles.{walk_phenomenon};
ghost use Rattle.lab_drawing.specs.Titles.{words_behind, full_name, next_text, txns_text, op_fault_words, at_fault, row_fault_words, with_code, fault_words, serial_title, finding_word, finding_title};

use crate::cycles::{cycle_of, walk_phenomenon};
use crate::nicknames::put_nicknames;
use crate::text::put_number;
use lab_deps::{Edge, FaultParts, LocalFault, OpFault, RowFault};
use lab_history::History;
use lab_judge::{Finding, Serial};
use lab_reports::Phenomenon;
use lab_table::{NoMemory, TxnNo};

/// Appends what stands behind a phenomenon's code: the name that it has in textbooks, or the nicknames of the cycle by
/// which it is present.
fn put_words_behind(
    out: &mut Vec<u8>,
    history: &History,
    phenomenon: Phenomenon,
    walk: &[Edge],
) -> Result<(), NoMemory>
    ensures { OnOk result (out.new.items ≡ out.old.items ++ words_behind history.now phenomenon walk.now) }
{
    match phenomenon {
        Phenomenon::G0 => out.extend_from_slice(b" (dirty write)"),
        Phenomenon::G1a => out.extend_from_slice(b" (aborted read)"),
        Phenomenon::G1b => out.extend_from_slice(b" (intermediate read)"),
        Phenomenon::G1c => out.extend_from_slice(b" (circular information flow)"),
        Phenomenon::GSingle | Phenomenon::G2Item | Phenomenon::G2 => {
            put_nicknames(out, history, walk)
        }
    }
}

/// Appends the full name of a phenomenon that is present by this cycle (or by no cycle, if it is empty): its code, and
/// in parentheses its textbook name or the nicknames of the cycle.
pub fn put_full_name(
    out: &mut Vec<u8>,
    history: &History,
    phenomenon: Phenomenon,
    walk: &[Edge],
) -> Result<(), NoMemory>
    ensures { OnOk result (out.new.items ≡ out.old.items ++ full_name history.now phenomenon walk.now) }
{
    out.extend_from_slice(phenomenon.name().as_bytes())?;
    put_words_behind(out, history, phenomenon, walk)
}

/// Appends transactions, each behind a comma.
fn put_next(out: &mut Vec<u8>, txns: &[TxnNo]) -> Result<(), NoMemory>
    ensures { OnOk result (out.new.items ≡ out.old.items ++ flat_map next_text txns.now) }
{
    for txn in txns {
        out.extend_from_slice(b", T")?;
        put_number(out, u64::from(txn.number()))?;
    }
    Ok(())
}

/// Appends transactions with a comma between two of them.
fn put_txns(out: &mut Vec<u8>, txns: &[TxnNo]) -> Result<(), NoMemory>
    ensures { OnOk result (out.new.items ≡ out.old.items ++ txns_text txns.now) }
{
    match txns.split_first() {
        None => out.extend_from_slice(b"no committed transaction"),
        Some((first, rest)) => {
            out.extend_from_slice(b"T")?;
            put_number(out, u64::from(first.number()))?;
            put_next(out, rest)
        }
    }
}

/// What is wrong at an operation and a row where a fault of this kind is.
fn op_fault_words(kind: OpFault) -> &'static str
    ensures { result.now ≡ op_fault_words kind }
{
    match kind {
        OpFault::Dangling => "Not sound: a version is seen that isn't there",
        OpFault::AbortedRead => "Aborted read, G1a",
        OpFault::IntermediateRead => "Intermediate read, G1b",
        OpFault::OwnWriteMissed => "Not sound: an own write isn't seen",
        OpFault::LaterThanOwn => "Not sound: a version behind the own one is seen",
        OpFault::RowsDiffer => "Not sound: rows differ from what the statement lists",
        OpFault::WritesDiffer => "Not sound: writes differ from what the statement makes",
    }
}

/// Who is at fault, where that isn't the record alone: a database makes aborted and intermediate reads too.
fn at_fault(kind: OpFault) -> &'static str
    ensures { result.now ≡ at_fault kind }
{
    match kind {
        OpFault::AbortedRead | OpFault::IntermediateRead => { ": record or database is at fault" }
        OpFault::Dangling
        | OpFault::OwnWriteMissed
        | OpFault::LaterThanOwn
        | OpFault::RowsDiffer
        | OpFault::WritesDiffer => "",
    }
}

/// What is wrong at a row where a fault of this kind is.
fn row_fault_words(kind: RowFault) -> &'static str
    ensures { result.now ≡ row_fault_words kind }
{
    match kind {
        RowFault::InstallOrder => "Not sound: installers differ from the committed writers",
        RowFault::EndDiffers => "Not sound: the end differs from what was installed",
    }
}

/// Appends what is wrong, and a fault's code behind it.
fn put_words(out: &mut Vec<u8>, words: &str, code: &str) -> Result<(), NoMemory>
    ensures { OnOk result (out.new.items ≡ out.old.items ++ with_code words.now code.now) }
{
    out.extend_from_slice(words.as_bytes())?;
    out.extend_from_slice(b" (")?;
    out.extend_from_slice(code.as_bytes())?;
    out.extend_from_slice(b")")
}

/// Appends what is wrong with a history, the fault's code, and who may be at fault.
fn put_fault_words(out: &mut Vec<u8>, fault: LocalFault) -> Result<(), NoMemory>
    ensures { OnOk result (out.new.items ≡ out.old.items ++ fault_words fault) }
{
    match fault.parts() {
        FaultParts::Operation { kind, .. } => {
            put_words(out, op_fault_words(kind), kind.code())?;
            out.extend_from_slice(at_fault(kind).as_bytes())
        }
        FaultParts::Row { kind, .. } => put_words(out, row_fault_words(kind), kind.code()),
    }
}

/// Appends the most particular phenomenon that a cycle is.
fn put_cycle_name(out: &mut Vec<u8>, history: &History, walk: &[Edge]) -> Result<(), NoMemory>
    ensures { OnOk result (out.new.items ≡ out.old.items ++ full_name history.now (walk_phenomenon walk.now) walk.now) }
{
    put_full_name(out, history, walk_phenomenon(walk), walk)
}

/// Appends the title of a serial verdict.
pub fn put_serial_title(
    out: &mut Vec<u8>,
    history: &History,
    serial: &Serial,
) -> Result<(), NoMemory>
    ensures { OnOk result (out.new.items ≡ out.old.items ++ serial_title history.now serial.now) }
{
    match serial {
        Serial::Yes(order) => {
            out.extend_from_slice(b"Serializable: ")?;
            put_txns(out, order.as_slice())
        }
        Serial::NoFault(fault) => put_fault_words(out, *fault),
        Serial::NoCycle(walk) => {
            out.extend_from_slice(b"Not serializable: ")?;
            put_cycle_name(out, history, walk.as_slice())
        }
    }
}

/// What is found, in a word.
fn finding_word(finding: &Finding) -> &'static str
    ensures { result.now ≡ finding_word finding.now }
{
    match finding {
        Finding::Absent => ": absent",
        Finding::Walk(_) => ": present",
        Finding::At { .. } => ": present",
        Finding::NotJudged => ": not judged",
    }
}

/// Appends the title of a finding about a phenomenon.
pub fn put_finding_title(
    out: &mut Vec<u8>,
    history: &History,
    phenomenon: Phenomenon,
    finding: &Finding,
) -> Result<(), NoMemory>
    ensures { OnOk result (out.new.items ≡ out.old.items ++ finding_title history.now phenomenon finding.now) }
{
    put_full_name(out, history, phenomenon, cycle_of(finding))?;
    out.extend_from_slice(finding_word(finding).as_bytes())
}
