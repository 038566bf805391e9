//! The least row at which the test of a kind of fault is true of an operation.

ghost use Rattle.std.specs.Prelude.{◌≡◌, true};
ghost use Rattle.lab_history.specs.Version as version;
ghost use Rattle.lab_deps.specs.Broken as test;
ghost use Rattle.lab_deps.specs.FirstOf.{IsLeastRow};
ghost use Rattle.lab_deps.specs.Search.{IsStep};

use crate::broken::{is_aborted, is_dangling, is_intermediate, is_later};
use crate::kind::OpFault;
use crate::mislisted::mislisted_row;
use crate::miswritten::miswritten_row;
use crate::own::missed_row;
use crate::row::first_entry;
use lab_history::{History, Op, VersionName};
use lab_table::{RowName, TxnNo};

/// An operation of a transaction, and what is known of it.
#[derive(Clone, Copy)]
pub struct Step<'a> {
    pub txn: TxnNo,
    /// Its number, counted from 1.
    pub number: u32,
    pub op: &'a Op,
    /// The operation before it, where there is one.
    pub before: Option<&'a Op>,
    /// Whether it is known to see the same as that one.
    pub again: bool,
    /// Whether it is known to see nothing but what it may see.
    pub fine: bool,
}

/// The least row at which the test of a kind is true of an operation.
pub fn broken_row(history: &History, kind: OpFault, step: &Step) -> Option<RowName>
    requires { IsStep history.now step.now }
    ensures { IsLeastRow (λ row. test.is_broken kind history.now step.now.txn step.now.number step.now.op.now row ≡ true) result }
{
    match kind {
        OpFault::OwnWriteMissed => missed_row(step),
        OpFault::RowsDiffer => mislisted_row(history, step.op),
        OpFault::WritesDiffer => miswritten_row(history, step.op),
        _ => seen_row(history, kind, step),
    }
}

/// The same of a kind whose test is of one version that is seen.
fn seen_row(history: &History, kind: OpFault, step: &Step) -> Option<RowName>
    requires { IsStep history.now step.now }
    ensures { IsLeastRow (λ row. test.breaks_at kind history.now step.now.txn step.now.number row (version.viewed step.now.op.now row) ≡ true) result }
{
    if step.fine {
        return None;
    }
    first_entry(
        step.op.view.entries(),
        |row, seen| breaks_at(history, kind, step.txn, step.number, row, seen),
    )
}

/// Whether the test of such a kind is true of a version that an operation of a transaction sees.
fn breaks_at(
    history: &History,
    kind: OpFault,
    txn: TxnNo,
    number: u32,
    row: RowName,
    seen: VersionName,
) -> bool
    ensures { result ≡ test.breaks_at kind history.now txn number row seen }
{
    match kind {
        OpFault::Dangling => is_dangling(history, txn, number, row, seen),
        OpFault::LaterThanOwn => is_later(history, txn, row, seen),
        OpFault::AbortedRead => is_aborted(history, seen),
        OpFault::IntermediateRead => is_intermediate(history, txn, row, seen),
        OpFault::OwnWriteMissed | OpFault::RowsDiffer | OpFault::WritesDiffer => false,
    }
}
