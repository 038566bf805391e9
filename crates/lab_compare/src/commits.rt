//! What the commits of a play install.

ghost use Rattle.std.specs.Prelude.{◌≡◌, ◌++◌, length, None, replicate, IfOk, OnOk};
ghost use Rattle.lab_history.specs.VersionName.{new_states};
ghost use Rattle.lab_compare.specs.Commits.{active_after, commits_of, counts_each, event_installs, installs_by, installs_each, installs_of, written_by};

use lab_commands::{Standing, number_after};
use lab_engine::{LogEvent, Outcome, Recording, value_of};
use lab_history::{History, Op, State};
use lab_table::{ByRow, NoMemory, PerSession, RowName, Sequence, TxnNo, Value};
use std::alloc::Global;

/// What the commits of a play install.
#[derive(Drop)]
pub struct Commits {
    /// The rows before the first event.
    pub first: ByRow<Value>,
    /// The rows that are written, with their states, in the order in which they are installed.
    pub installs: Sequence<(RowName, Option<Value>)>,
    /// For each event how many of those are installed behind it.
    pub counts: Sequence<usize>,
}

/// Appends rows with the states that they are put into.
fn put_states(
    installs: &mut Vec<(RowName, Option<Value>)>,
    states: &[(RowName, State)],
) -> Result<(), NoMemory>
    ensures { OnOk result (installs.new.items ≡ installs.old.items ++ new_states states.now) }
{
    for (row, state) in states {
        installs.push((*row, value_of(*state)))?;
    }
    Ok(())
}

/// Appends what operations write.
fn put_ops(installs: &mut Vec<(RowName, Option<Value>)>, ops: &[Op]) -> Result<(), NoMemory>
    ensures { OnOk result (installs.new.items ≡ installs.old.items ++ written_by ops.now) }
{
    for op in ops {
        put_states(installs, op.writes.entries())?;
    }
    Ok(())
}

/// Appends what the transaction with this number writes.
fn put_txn(
    installs: &mut Vec<(RowName, Option<Value>)>,
    history: &History,
    by: &Option<TxnNo>,
) -> Result<(), NoMemory>
    ensures { OnOk result (installs.new.items ≡ installs.old.items ++ installs_by history.now by.now) }
{
    let Some(number) = by else {
        return Ok(());
    };
    match history.txn(*number) {
        Some(txn) => put_ops(installs, txn.ops.as_slice()),
        None => Ok(()),
    }
}

/// Appends what an outcome installs, where the transaction with this number is active.
fn put_installs(
    installs: &mut Vec<(RowName, Option<Value>)>,
    history: &History,
    outcome: &Outcome,
    by: &Option<TxnNo>,
) -> Result<(), NoMemory>
    ensures { OnOk result (installs.new.items ≡ installs.old.items ++ installs_of history.now outcome.now by.now) }
{
    match outcome {
        Outcome::Committed => put_txn(installs, history, by),
        Outcome::Begun(_)
        | Outcome::Rows { .. }
        | Outcome::Aborted
        | Outcome::Waits { .. }
        | Outcome::Refused(_) => Ok(()),
    }
}

/// Appends what an event installs, and goes on to the transactions that are active after it. On failure, a part of the
/// text may have been appended.
fn put_event(
    installs: &mut Vec<(RowName, Option<Value>)>,
    history: &History,
    active: &mut PerSession<Option<TxnNo>>,
    event: &LogEvent,
) -> Result<(), NoMemory>
    ensures installs { OnOk result (installs.new.items ≡ installs.old.items ++ event_installs history.now active.old event.now) }
    ensures active { OnOk result (active.new ≡ active_after event.now active.old) }
{
    let by = active.get(event.session);
    put_installs(installs, history, &event.outcome, &by)?;
    active.set(event.session, number_after(&event.outcome, by));
    Ok(())
}

/// Appends what a log installs of which this history is recorded, and says how much that is behind each event; before
/// the first no transaction is active.
fn put_each(
    alloc: Global,
    installs: &mut Vec<(RowName, Option<Value>)>,
    history: &History,
    none: PerSession<Option<TxnNo>>,
    log: &[LogEvent],
) -> Result<Vec<usize>, NoMemory>
    requires { none ≡ replicate 9 None }
    ensures installs { OnOk result (installs.new.items ≡ installs.old.items ++ installs_each history.now (replicate 9 None) log.now) }
    ensures counts { IfOk result (λ counts. counts.items ≡ counts_each history.now (replicate 9 None) (length installs.old.items) log.now) }
{
    let mut active = none;
    let mut counts = Vec::with_capacity(alloc, log.len())?;
    for event in log {
        put_event(installs, history, &mut active, event)?;
        counts.push(installs.len())?;
    }
    Ok(counts)
}

/// What the commits of a play install.
pub fn commits_of(alloc: Global, recording: &Recording) -> Result<Commits, NoMemory>
    ensures { IfOk result (λ commits. commits ≡ commits_of recording.now) }
{
    let standing = Standing::first(alloc, recording.setup())?;
    let mut installs = Vec::new(alloc);
    let counts = put_each(
        alloc,
        &mut installs,
        recording.history(),
        PerSession::all(None),
        recording.log(),
    )?;
    Ok(Commits {
        first: standing.rows,
        installs: Sequence::new(installs),
        counts: Sequence::new(counts),
    })
}
