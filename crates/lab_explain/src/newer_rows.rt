//! Whether a fault may come of a statement that read newer rows than its transaction's snapshot, of which its view is.

ghost use Rattle.std.specs.Prelude.{◌≡◌};
ghost use Rattle.lab_explain.specs.NewerRows.{may_change, is_change, sees_change, has_committed, may_have_changed, is_changed_by, is_changed, may_be_of_newer_rows, may_have_read_newer_rows};
ghost use Rattle.lab_history.specs.Version.{ops_of, op_at};

use crate::clauses::op_of;
use lab_deps::{FaultParts, OpFault, RowFault, viewed};
use lab_history::{History, Op, Outcome, Txn, VersionName};
use lab_judge::{Report, Serial};
use lab_table::{RowName, TxnNo};

/// Whether an operation may have found a row and changed it, as an update or a delete does.
fn may_change(op: &Op, row: RowName) -> bool
    ensures { result ≡ may_change op.now row }
{
    let statement = &op.statement;
    !statement.is_read_only() && statement.inserted().is_none() && statement.may_match(row)
}

/// Whether a version of a row is named for an operation which may have changed it, and isn't recorded to have written it.
fn is_change(history: &History, row: RowName, version: VersionName) -> bool
    ensures { result ≡ is_change history.now row version }
{
    match version {
        VersionName::Initial => false,
        VersionName::Of { txn, op } => match op_of(history, txn, op) {
            Some(writer) => writer.writes.get(row).is_none() && may_change(writer, row),
            None => false,
        },
    }
}

/// Whether the version of a row that an operation sees is such a one.
fn sees_change(history: &History, txn: TxnNo, op: u32, row: RowName) -> bool
    ensures { result ≡ sees_change history.now (op_at (ops_of history.now txn) op) row }
{
    match op_of(history, txn, op) {
        Some(op) => is_change(history, row, viewed(op, row)),
        None => false,
    }
}

/// Whether a transaction committed.
fn has_committed(outcome: Outcome) -> bool
    ensures { result ≡ has_committed outcome }
{
    match outcome {
        Outcome::Committed => true,
        Outcome::Aborted => false,
    }
}

/// Whether one of some operations may have found a row and changed it.
fn may_have_changed(ops: &[Op], row: RowName) -> bool
    ensures { result ≡ may_have_changed row ops.now }
{
    ops.iter().any(|op| may_change(op, row))
}

/// Whether a transaction that committed may have changed a row that it found.
fn is_changed_by(txn: &Txn, row: RowName) -> bool
    ensures { result ≡ is_changed_by row txn.now }
{
    has_committed(txn.outcome) && may_have_changed(txn.ops.as_slice(), row)
}

/// Whether some transaction that committed may have changed a row that it found.
fn is_changed(history: &History, row: RowName) -> bool
    ensures { result ≡ is_changed history.now row }
{
    history
        .txns()
        .as_slice()
        .iter()
        .any(|txn| is_changed_by(txn, row))
}

/// Whether a fault is one that comes where an update or a delete read newer rows than its view has.
fn may_be_of_newer_rows(history: &History, fault: FaultParts) -> bool
    ensures { result ≡ may_be_of_newer_rows history.now fault }
{
    match fault {
        FaultParts::Operation { kind, txn, op, row } => match kind {
            OpFault::Dangling => sees_change(history, txn, op, row),
            OpFault::AbortedRead
            | OpFault::IntermediateRead
            | OpFault::OwnWriteMissed
            | OpFault::LaterThanOwn
            | OpFault::RowsDiffer
            | OpFault::WritesDiffer => false,
        },
        FaultParts::Row { kind, row } => match kind {
            RowFault::InstallOrder => false,
            RowFault::EndDiffers => is_changed(history, row),
        },
    }
}

/// Whether the fault of a record is one that comes where an update or a delete read newer rows than its view has: a
/// version that it would have written and that isn't there, or an end that isn't what is recorded of it.
pub fn may_have_read_newer_rows(history: &History, report: &Report) -> bool
    ensures { result ≡ may_have_read_newer_rows history.now report.now.serial }
{
    match &report.serial {
        Serial::NoFault(fault) => may_be_of_newer_rows(history, fault.parts()),
        Serial::Yes(_) | Serial::NoCycle(_) => false,
    }
}
