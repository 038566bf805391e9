//! The committed rows, event by event.

ghost use Rattle.std.specs.Prelude.{◌≡◌, IfOk, OnOk};
ghost use Rattle.lab_engine.specs.EventQuery.{is_over};
ghost use Rattle.lab_judge.specs.Runs.{table_after, table_after_txn};
ghost use Rattle.lab_commands.specs.CommittedRows.{standing_first, standing_after, number_after, rows_after};

use crate::overwriting::overwrite;
use lab_engine::{EngineFault, LogEvent, Outcome};
use lab_history::{History, Op};
use lab_table::{ByRow, NoMemory, PerSession, Table, TxnNo, Value};
use std::alloc::Global;

/// The state after a prefix of a log: the active transactions of the sessions, and the committed rows.
#[derive(Drop)]
pub struct Standing {
    /// For each session, the number of its active transaction, if it has one.
    pub active: PerSession<Option<TxnNo>>,
    pub rows: ByRow<Value>,
}

/// The rows of a table.
fn by_row(alloc: Global, table: &Table) -> Result<ByRow<Value>, NoMemory>
    ensures { IfOk result (λ rows. rows ≡ table.now) }
{
    let entries = Vec::from_slice(alloc, table.rows())?;
    Ok(ByRow::from_rising(entries))
}

impl Standing {
    /// Returns the state before the first event: the rows are the initial ones.
    pub fn first(alloc: Global, setup: &Table) -> Result<Standing, NoMemory>
        ensures { IfOk result (λ standing. standing ≡ standing_first setup.now) }
    {
        Ok(Standing {
            active: PerSession::all(None),
            rows: by_row(alloc, setup)?,
        })
    }

    /// Applies one event of a log to the state; `history` is the log's recorded history. After a failure, the state
    /// must not be used.
    pub fn take_in(
        &mut self,
        alloc: Global,
        history: &History,
        event: &LogEvent,
    ) -> Result<(), NoMemory>
        ensures { OnOk result (self.new ≡ standing_after history.now event.now self.old) }
    {
        let by = self.active.get(event.session);
        install(alloc, &mut self.rows, history, &event.outcome, &by)?;
        self.active
            .set(event.session, number_after(&event.outcome, by));
        Ok(())
    }
}

/// Puts over the committed rows what an outcome installs, where the transaction with this number is active.
fn install(
    alloc: Global,
    rows: &mut ByRow<Value>,
    history: &History,
    outcome: &Outcome,
    by: &Option<TxnNo>,
) -> Result<(), NoMemory>
    ensures { OnOk result (rows.new ≡ rows_after history.now outcome.now by.now rows.old) }
{
    match outcome {
        Outcome::Committed => put_txn(alloc, rows, history, by),
        Outcome::Begun(_)
        | Outcome::Rows { .. }
        | Outcome::Aborted
        | Outcome::Waits { .. }
        | Outcome::Refused(_) => Ok(()),
    }
}

/// Puts the writes of the transaction with this number over rows.
fn put_txn(
    alloc: Global,
    rows: &mut ByRow<Value>,
    history: &History,
    by: &Option<TxnNo>,
) -> Result<(), NoMemory>
    ensures { OnOk result (rows.new ≡ table_after_txn history.now by.now rows.old) }
{
    let Some(number) = by else {
        return Ok(());
    };
    match history.txn(*number) {
        Some(txn) => put_ops(alloc, rows, txn.ops.as_slice()),
        None => Ok(()),
    }
}

/// Puts the writes of operations over rows, one after another.
fn put_ops(alloc: Global, rows: &mut ByRow<Value>, ops: &[Op]) -> Result<(), NoMemory>
    ensures { OnOk result (rows.new ≡ table_after ops.now rows.old) }
{
    for op in ops {
        overwrite(alloc, rows, &op.writes)?;
    }
    Ok(())
}

/// Returns the number of the active transaction of a session after one of its events.
pub fn number_after(outcome: &Outcome, by: Option<TxnNo>) -> Option<TxnNo>
    ensures { result ≡ number_after outcome.now by }
{
    match outcome {
        Outcome::Begun(number) => Some(*number),
        other => { if is_over(other) { None } else { by } }
    }
}

/// Returns whether an outcome ends the active transaction of its session: a commit, an abort, or a fault that aborts.
pub fn is_over(outcome: &Outcome) -> bool
    ensures { result ≡ is_over outcome.now }
{
    match outcome {
        Outcome::Begun(_) => false,
        Outcome::Rows { .. } => false,
        Outcome::Committed => true,
        Outcome::Aborted => true,
        Outcome::Waits { .. } => false,
        Outcome::Refused(fault) => match fault {
            EngineFault::DuplicateKey { .. } => true,
            EngineFault::OutOfRange { .. } => true,
            EngineFault::Deadlock { .. } => true,
            EngineFault::WriteConflict { .. } => true,
            EngineFault::NoTransaction => false,
            EngineFault::AlreadyBegun => false,
            EngineFault::Busy => false,
            EngineFault::ReadConflict { .. } => true,
        },
    }
}
