//! The events of a log.

ghost use Rattle.std.specs.Prelude.{◌≡◌, false, IfOk, OnErr};
ghost use Rattle.lab_engine.specs.EventQuery.{is_conflict, is_ending};

use lab_history::{Rows, View, Writes};
use lab_table::{Command, NoMemory, RowName, Session, TxnNo};
use std::alloc::Global;
use std::marker::Model;

/// An isolation level, and so the rules of an engine.
#[derive(Clone, Copy, Debug, PartialEq, Eq)]
pub enum Level {
    /// Serializable. Statements wait for readers and writers.
    Locking,
    /// A statement sees what has committed before it, and waits for writers.
    Committed,
    /// A transaction sees what had committed at its begin. Nobody waits.
    Snapshot,
    /// As `Snapshot`, but a commit fails if the transaction's reads were changed since its begin.
    Optimistic,
}

/// A list of sessions.
#[derive(Drop)]
pub struct Sessions {
    items: Vec<Session>,
}

impl Model for Sessions {
    ghost use Rattle.std.specs.Prelude.{ℕ, List};

    ghost Value = { List ℕ };

    ghost view = { λ s. s.items.items };
}

/// Why an engine refused a command. `DuplicateKey`, `OutOfRange`, `Deadlock` and the two conflicts abort the
/// transaction. The others change nothing but the log.
#[derive(Drop)]
pub enum EngineFault {
    /// The row that the insert adds is already present.
    DuplicateKey { id: RowName },
    /// The update would set a value out of range. `id` is the least such row.
    OutOfRange { id: RowName },
    /// The sessions wait for each other in a cycle that starts at the requesting session: each is blocked by the next,
    /// and the last by the first.
    Deadlock { circle: Sessions },
    /// A commit failed, since another transaction has installed a row that this one wrote, since its begin. `row` is
    /// the least such row, and `by` the first transaction that installed it since then.
    WriteConflict { row: RowName, by: TxnNo },
    /// The session has no active transaction.
    NoTransaction,
    /// A begin failed, since the session has an active transaction.
    AlreadyBegun,
    /// A command of the session waits.
    Busy,
    /// A commit failed, since another transaction has installed a row since this one's begin, and a statement of this
    /// one matches the row as it was before or after that. `row` is the least such row, with no write conflict at it or
    /// at a lesser row, and `by` the first transaction that did so.
    ReadConflict { row: RowName, by: TxnNo },
}

/// The result of a command.
#[derive(Drop)]
pub enum Outcome {
    /// A transaction began, with this number.
    Begun(TxnNo),
    /// A statement ran: the versions that it saw, the rows that it listed, and the rows that it wrote.
    Rows {
        view: View,
        rows: Rows,
        writes: Writes,
    },
    /// The transaction committed.
    Committed,
    /// The transaction aborted by its own command.
    Aborted,
    /// The statement waits for these sessions, in ascending order.
    Waits {
        on: Sessions,
    },
    /// The command was refused.
    Refused(EngineFault),
}

/// An event of a log: a command of a session, and its outcome. The event of a retry has the command that waited.
#[derive(Drop)]
pub struct LogEvent {
    pub session: Session,
    pub command: Command,
    pub outcome: Outcome,
}

impl Sessions {
    /// Returns the list of these sessions. Allocates nothing.
    pub fn new(items: Vec<Session>) -> Sessions
        ensures { result ≡ items.items }
    {
        Sessions { items }
    }

    /// Returns the sessions, in order.
    pub fn as_slice(&self) -> &[Session]
        ensures { result.now ≡ self.now }
    {
        &self.items
    }

    /// Returns a copy.
    pub fn copy(&self, alloc: Global) -> Result<Sessions, NoMemory>
        ensures { IfOk result (λ copy. copy ≡ self.now) }
    {
        Ok(Sessions {
            items: Vec::from_slice(alloc, &self.items)?,
        })
    }
}

impl EngineFault {
    /// Returns a copy. Copying a conflict never fails.
    pub fn copy(&self, alloc: Global) -> Result<EngineFault, NoMemory>
        ensures copy { IfOk result (λ copy. copy ≡ self.now) }
        ensures err { OnErr result (is_conflict self.now ≡ false) }
    {
        Ok(match self {
            EngineFault::DuplicateKey { id } => EngineFault::DuplicateKey { id: *id },
            EngineFault::OutOfRange { id } => EngineFault::OutOfRange { id: *id },
            EngineFault::Deadlock { circle } => EngineFault::Deadlock {
                circle: circle.copy(alloc)?,
            },
            EngineFault::WriteConflict { row, by } => {
                EngineFault::WriteConflict { row: *row, by: *by }
            }
            EngineFault::NoTransaction => EngineFault::NoTransaction,
            EngineFault::AlreadyBegun => EngineFault::AlreadyBegun,
            EngineFault::Busy => EngineFault::Busy,
            EngineFault::ReadConflict { row, by } => {
                EngineFault::ReadConflict { row: *row, by: *by }
            }
        })
    }
}

impl Outcome {
    /// Returns a copy. Copying the end of a transaction never fails.
    pub fn copy(&self, alloc: Global) -> Result<Outcome, NoMemory>
        ensures copy { IfOk result (λ copy. copy ≡ self.now) }
        ensures err { OnErr result (is_ending self.now ≡ false) }
    {
        match self {
            Outcome::Begun(number) => Ok(Outcome::Begun(*number)),
            Outcome::Rows { view, rows, writes } => {
                let view = view.copy(alloc)?;
                let rows = rows.copy(alloc)?;
                let writes = writes.copy(alloc)?;
                Ok(Outcome::Rows { view, rows, writes })
            }
            Outcome::Committed => Ok(Outcome::Committed),
            Outcome::Aborted => Ok(Outcome::Aborted),
            Outcome::Waits { on } => Ok(Outcome::Waits {
                on: on.copy(alloc)?,
            }),
            Outcome::Refused(fault) => Ok(Outcome::Refused(fault.copy(alloc)?)),
        }
    }
}

/// A copy of a log; NoMemory where an allocation was refused.
pub(crate) fn copy_of_log(alloc: Global, log: &[LogEvent]) -> Result<Vec<LogEvent>, NoMemory>
    ensures { IfOk result (λ copy. copy.items ≡ log.now) }
{
    let mut events = Vec::with_capacity(alloc, log.len())?;
    for event in log {
        events.push(LogEvent {
            session: event.session,
            command: event.command.copy(alloc)?,
            outcome: event.outcome.copy(alloc)?,
        })?;
    }
    Ok(events)
}
