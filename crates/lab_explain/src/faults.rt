//! The sentences of a fault. Functions that take bytes append; on failure, a part of the text may have been appended.

ghost use Rattle.std.specs.Prelude.{◌≡◌, ◌++◌, OnOk};
ghost use Rattle.lab_deps.specs.declared.fault.FaultParts.TheVariants as parts;
ghost use Rattle.lab_drawing.specs.Installs.{misplaced_of};
ghost use Rattle.lab_explain.specs.Faults.{article, misplaced_note, installers_text, end_text, last_text, named_text, recorded, due, mistake, recorded_text, due_text, most_often};

use crate::clauses::{put_op, put_row, put_saw, put_saw_with, put_state};
use crate::fault_parts::{
    put_last_due, put_rows, put_rows_due, put_txns, put_viewed, put_writes, put_writes_due,
};
use crate::phrases::{as_last_words, installers_words, often_words};
use lab_deps::{FaultParts, LocalFault, OpFault, RowFault};
use lab_drawing::{Why, installers_of, misplaced_of, put_misplaced, state_at};
use lab_history::History;
use lab_judge::put_fault;
use lab_table::{NoMemory, RowName, TxnNo};

/// The article of who is out of place.
fn article(why: Why) -> &'static str
    ensures { result.now ≡ article why }
{
    match why {
        Why::Missing => "a ",
        Why::Unwritten | Why::Repeated => "an ",
    }
}

/// Appends who is out of place among a row's installers.
fn put_misplaced_note(out: &mut Vec<u8>, history: &History, row: RowName) -> Result<(), NoMemory>
    ensures { OnOk result (out.new.items ≡ out.old.items ++ misplaced_note (misplaced_of history.now row)) }
{
    match misplaced_of(history, row) {
        None => Ok(()),
        Some(found) => {
            out.extend_from_slice(b"; ")?;
            out.extend_from_slice(article(found.why).as_bytes())?;
            put_misplaced(out, found)
        }
    }
}

/// Appends the installers of a row.
#[tactic(auto, unfolding(crate::specs::Faults::installers_text))]
fn put_installers(out: &mut Vec<u8>, history: &History, row: RowName) -> Result<(), NoMemory>
    ensures { OnOk result (out.new.items ≡ out.old.items ++ installers_text history.now row) }
{
    out.extend_from_slice(installers_words())?;
    put_row(out, row)?;
    out.extend_from_slice(b" are")?;
    put_txns(out, installers_of(history, row))
}

/// Appends the state of a row in the end.
#[tactic(auto, unfolding(crate::specs::Faults::end_text))]
fn put_end(out: &mut Vec<u8>, history: &History, row: RowName) -> Result<(), NoMemory>
    ensures { OnOk result (out.new.items ≡ out.old.items ++ end_text history.now row) }
{
    out.extend_from_slice(b"in the end ")?;
    put_row(out, row)?;
    out.extend_from_slice(b" is")?;
    put_state(out, history.end_table().get(row))
}

/// Appends the state in which its last installer left a row.
#[tactic(auto, unfolding(crate::specs::Faults::last_text))]
fn put_last(out: &mut Vec<u8>, history: &History, row: RowName) -> Result<(), NoMemory>
    ensures { OnOk result (out.new.items ≡ out.old.items ++ last_text history.now row) }
{
    out.extend_from_slice(b"the row")?;
    let place = installers_of(history, row).len();
    put_state(out, state_at(history, row, place))?;
    out.extend_from_slice(as_last_words())
}

/// Appends the version that an operation saw of a row.
#[tactic(auto, unfolding(crate::specs::Faults::named_text))]
fn put_named(
    out: &mut Vec<u8>,
    history: &History,
    txn: TxnNo,
    op: u32,
    row: RowName,
) -> Result<(), NoMemory>
    ensures { OnOk result (out.new.items ≡ out.old.items ++ named_text history.now txn op row) }
{
    put_op(out, history, txn, op)?;
    out.extend_from_slice(b" saw ")?;
    put_row(out, row)?;
    out.extend_from_slice(b" in ")?;
    put_viewed(out, history, txn, op, row)
}

/// Appends what is recorded at an operation and a row where a fault of this kind is.
fn put_recorded_op(
    out: &mut Vec<u8>,
    history: &History,
    kind: OpFault,
    txn: TxnNo,
    op: u32,
    row: RowName,
) -> Result<(), NoMemory>
    ensures { OnOk result (out.new.items ≡ out.old.items ++ recorded history.now (parts.Operation kind txn op row)) }
{
    match kind {
        OpFault::Dangling => put_named(out, history, txn, op, row),
        OpFault::AbortedRead => {
            let flaw = b", of a transaction that aborted";
            put_saw_with(out, history, txn, op, row, flaw)
        }
        OpFault::IntermediateRead => {
            let flaw = b", not the last one of its transaction";
            put_saw_with(out, history, txn, op, row, flaw)
        }
        OpFault::OwnWriteMissed => {
            let flaw = b", though its own transaction had written the row";
            put_saw_with(out, history, txn, op, row, flaw)
        }
        OpFault::LaterThanOwn => {
            put_saw(out, history, txn, op, row)?;
            out.extend_from_slice(b"; ")?;
            put_installers(out, history, row)
        }
        OpFault::RowsDiffer => {
            put_saw(out, history, txn, op, row)?;
            put_rows(out, history, txn, op, row)
        }
        OpFault::WritesDiffer => {
            put_saw(out, history, txn, op, row)?;
            put_writes(out, history, txn, op, row)
        }
    }
}

/// Appends what is recorded where a fault is.
fn put_recorded(out: &mut Vec<u8>, history: &History, fault: FaultParts) -> Result<(), NoMemory>
    ensures { OnOk result (out.new.items ≡ out.old.items ++ recorded history.now fault) }
{
    match fault {
        FaultParts::Operation { kind, txn, op, row } => {
            put_recorded_op(out, history, kind, txn, op, row)
        }
        FaultParts::Row { kind, row } => match kind {
            RowFault::InstallOrder => {
                put_installers(out, history, row)?;
                put_misplaced_note(out, history, row)
            }
            RowFault::EndDiffers => put_end(out, history, row),
        },
    }
}

/// Appends what is due where a fault is.
fn put_due(out: &mut Vec<u8>, history: &History, fault: FaultParts) -> Result<(), NoMemory>
    ensures { OnOk result (out.new.items ≡ out.old.items ++ due history.now fault) }
{
    match fault {
        FaultParts::Operation { kind, txn, op, row } => match kind {
            OpFault::Dangling => out.extend_from_slice(
                b"a version by a statement in the file: another transaction's, or an earlier one of its own",
            ),
            OpFault::AbortedRead => {
                out.extend_from_slice(b"a version of a transaction that committed")
            }
            OpFault::IntermediateRead => put_last_due(out, history, txn, op, row),
            OpFault::OwnWriteMissed => out.extend_from_slice(
                b"the version that its own transaction wrote last before it",
            ),
            OpFault::LaterThanOwn => out.extend_from_slice(
                b"who wrote what is seen stands before who sees it and installs the row too",
            ),
            OpFault::RowsDiffer => put_rows_due(out, history, txn, op, row),
            OpFault::WritesDiffer => put_writes_due(out, history, txn, op, row),
        },
        FaultParts::Row { kind, row } => match kind {
            RowFault::InstallOrder => out.extend_from_slice(
                b"each transaction that committed a write of the row, once, and nobody else",
            ),
            RowFault::EndDiffers => put_last(out, history, row),
        },
    }
}

/// How a recorder most often comes to a fault.
pub fn mistake(fault: FaultParts) -> &'static str
    ensures { result.now ≡ mistake fault }
{
    match fault {
        FaultParts::Operation { kind, .. } => match kind {
            OpFault::Dangling => {
                "a statement that failed was counted, or an aborted transaction was left out"
            }
            OpFault::AbortedRead => {
                "the answer to a commit was lost, and the transaction noted as aborted; else the database let it be seen (G1a)"
            }
            OpFault::IntermediateRead => {
                "the version's name is kept from the transaction's first write of the row; else the database let it be seen (G1b)"
            }
            OpFault::OwnWriteMissed => {
                "views are read over another connection, which doesn't see the transaction's own writes"
            }
            OpFault::LaterThanOwn => {
                "installers are listed by number, or by begin, and not by commit"
            }
            OpFault::RowsDiffer => {
                "the view has the listed rows alone, or somebody committed between view and rows, or a deleted row isn't in the view"
            }
            OpFault::WritesDiffer => {
                "an update that leaves the value as it is wasn't noted as a write"
            }
        },
        FaultParts::Row { kind, .. } => match kind {
            RowFault::InstallOrder => {
                "an aborted transaction stands among the installers, or one that wrote the row twice stands there twice"
            }
            RowFault::EndDiffers => {
                "the end was read before the last transaction had ended, or a commit was noted as an abort"
            }
        },
    }
}

/// Appends what is recorded, with the fault as the report prints it.
#[tactic(auto, unfolding(crate::specs::Faults::recorded_text))]
pub fn put_recorded_text(
    out: &mut Vec<u8>,
    history: &History,
    fault: &LocalFault,
) -> Result<(), NoMemory>
    ensures { OnOk result (out.new.items ≡ out.old.items ++ recorded_text history.now fault.now) }
{
    out.extend_from_slice(b"Recorded: ")?;
    put_recorded(out, history, fault.parts())?;
    out.extend_from_slice(b". [")?;
    put_fault(out, *fault)?;
    out.extend_from_slice(b"]")
}

/// Appends what is due.
#[tactic(auto, unfolding(crate::specs::Faults::due_text))]
pub fn put_due_text(out: &mut Vec<u8>, history: &History, fault: LocalFault) -> Result<(), NoMemory>
    ensures { OnOk result (out.new.items ≡ out.old.items ++ due_text history.now fault) }
{
    out.extend_from_slice(b"Due: ")?;
    put_due(out, history, fault.parts())?;
    out.extend_from_slice(b".")
}

/// Appends the recorder's mistake.
#[tactic(auto, unfolding(crate::specs::Faults::most_often))]
pub fn put_most_often(out: &mut Vec<u8>, mistake: &str) -> Result<(), NoMemory>
    ensures { OnOk result (out.new.items ≡ out.old.items ++ most_often mistake.now) }
{
    out.extend_from_slice(often_words())?;
    out.extend_from_slice(mistake.as_bytes())?;
    out.extend_from_slice(b".")
}
