//! Questions to one event.

ghost use Rattle.std.specs.Prelude.{◌≡◌, option_map};
ghost use Rattle.lab_engine.specs.Log.{asked, is_fatal};
ghost use Rattle.lab_engine.specs.EventQuery.{busy, is_conflict, is_ending, is_over};

use crate::event::{EngineFault, Outcome};
use lab_table::{Command, Statement};

/// Whether a refusal ends the transaction.
pub fn is_fatal_fault(fault: &EngineFault) -> bool
    ensures { result ≡ is_fatal fault.now }
{
    match fault {
        EngineFault::DuplicateKey { .. } => true,
        EngineFault::OutOfRange { .. } => true,
        EngineFault::Deadlock { .. } => true,
        EngineFault::WriteConflict { .. } => true,
        EngineFault::NoTransaction => false,
        EngineFault::AlreadyBegun => false,
        EngineFault::Busy => false,
        EngineFault::ReadConflict { .. } => true,
    }
}

/// Whether an outcome is Busy.
pub fn is_busy(outcome: &Outcome) -> bool
    ensures { result ≡ busy outcome.now }
{
    match outcome {
        Outcome::Begun(_) => false,
        Outcome::Rows { .. } => false,
        Outcome::Committed => false,
        Outcome::Aborted => false,
        Outcome::Waits { .. } => false,
        Outcome::Refused(fault) => match fault {
            EngineFault::DuplicateKey { .. } => false,
            EngineFault::OutOfRange { .. } => false,
            EngineFault::Deadlock { .. } => false,
            EngineFault::WriteConflict { .. } => false,
            EngineFault::NoTransaction => false,
            EngineFault::AlreadyBegun => false,
            EngineFault::Busy => true,
            EngineFault::ReadConflict { .. } => false,
        },
    }
}

/// Whether a refusal is that of a commit that conflicts.
fn is_conflict_fault(fault: &EngineFault) -> bool
    ensures { result ≡ is_conflict fault.now }
{
    match fault {
        EngineFault::DuplicateKey { .. } => false,
        EngineFault::OutOfRange { .. } => false,
        EngineFault::Deadlock { .. } => false,
        EngineFault::WriteConflict { .. } => true,
        EngineFault::NoTransaction => false,
        EngineFault::AlreadyBegun => false,
        EngineFault::Busy => false,
        EngineFault::ReadConflict { .. } => true,
    }
}

/// Whether an outcome is that of a commit or an abort of an active transaction, which it ends.
pub fn ends_transaction(outcome: &Outcome) -> bool
    ensures { result ≡ is_ending outcome.now }
{
    match outcome {
        Outcome::Begun(_) => false,
        Outcome::Rows { .. } => false,
        Outcome::Committed => true,
        Outcome::Aborted => true,
        Outcome::Waits { .. } => false,
        Outcome::Refused(fault) => is_conflict_fault(fault),
    }
}

/// Whether an outcome ends the active transaction of its session, as a commit, an abort or a fatal refusal.
pub fn is_over(outcome: &Outcome) -> bool
    ensures { result ≡ is_over outcome.now }
{
    match outcome {
        Outcome::Begun(_) => false,
        Outcome::Rows { .. } => false,
        Outcome::Committed => true,
        Outcome::Aborted => true,
        Outcome::Waits { .. } => false,
        Outcome::Refused(fault) => is_fatal_fault(fault),
    }
}

/// The statement that a command runs, if it runs one.
pub fn asked_statement(command: &Command) -> Option<&Statement>
    ensures { option_map (λ s. s.now) result ≡ asked command.now }
{
    match command {
        Command::Begin => None,
        Command::Commit => None,
        Command::Abort => None,
        Command::Run(statement) => Some(statement),
    }
}
