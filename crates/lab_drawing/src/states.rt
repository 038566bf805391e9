//! Operations and states of a history.

ghost use Rattle.std.specs.Prelude.{◌≡◌, ◌≤◌, length, suc};
ghost use Rattle.lab_history.specs.Limits.{max_operations};
ghost use Rattle.lab_history.specs.Version.{ops_of, state_at};
ghost use Rattle.lab_deps.specs.Edges.{changes};

use lab_deps::state_of;
use lab_history::{History, Op, VersionName};
use lab_table::{RowName, Statement, TxnNo, Value};

/// The operations of a transaction; none where there is no such transaction.
fn ops_in(history: &History, txn: TxnNo) -> &[Op]
    ensures { result.now ≡ ops_of history.now txn }
{
    match history.txn(txn) {
        None => &[],
        Some(found) => found.ops.as_slice(),
    }
}

/// Returns the operations of a transaction; none if there is no such transaction.
pub fn ops_of(history: &History, txn: TxnNo) -> &[Op]
    ensures ops { result.now ≡ ops_of history.now txn }
    ensures few { length result.now ≤ max_operations }
{
    history.txns();
    ops_in(history, txn)
}

/// The state that the installer at a place, counted from 0, leaves of a row.
fn installed_state(history: &History, row: RowName, place: usize) -> Option<Value>
    ensures { result ≡ state_at history.now row (suc place) }
{
    let installers = history.installed().get(row)?;
    let txn = *installers.as_slice().get(place)?;
    let op = history.last_write(txn, row)?;
    state_of(history, row, VersionName::Of { txn, op })
}

/// Returns the state of the version of a row at position `place`, counted from 0.
pub fn state_at(history: &History, row: RowName, place: usize) -> Option<Value>
    ensures { result ≡ state_at history.now row place }
{
    match place.checked_sub(1) {
        None => state_of(history, row, VersionName::Initial),
        Some(before) => installed_state(history, row, before),
    }
}

/// Whether the installer at a place, counted from 0, changes whether a row matches a statement.
pub fn changes(history: &History, statement: &Statement, row: RowName, place: usize) -> bool
    ensures { result ≡ changes history.now statement.now row place }
{
    let before = statement.matches(row, state_at(history, row, place));
    let after = statement.matches(row, installed_state(history, row, place));
    before != after
}
