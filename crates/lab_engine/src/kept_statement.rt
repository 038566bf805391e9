//! Copies of the statements that are kept behind events.

ghost use Rattle.std.specs.Prelude.{◌≡◌, false, IfOk, OnErr};
ghost use Rattle.lab_engine.specs.Log.{asked};
ghost use Rattle.lab_engine.specs.EventQuery.{is_ending};
ghost use Rattle.lab_engine.specs.Situation.{kept_of};

use crate::event::{LogEvent, Outcome};
use crate::event_query::asked_statement;
use lab_table::{Command, NoMemory, Statement};
use std::alloc::Global;

/// A copy of the statement of an event, where it is kept behind it: one that ran, where those are kept, or one that
/// waits. NoMemory where an allocation was refused; a transaction's end takes no memory.
pub(crate) fn kept_copy(
    alloc: Global,
    event: &LogEvent,
    keeps: bool,
) -> Result<Option<Statement>, NoMemory>
    ensures copy { IfOk result (λ kept. kept ≡ kept_of keeps event.now.command event.now.outcome) }
    ensures err { OnErr result (is_ending event.now.outcome ≡ false) }
{
    match &event.outcome {
        Outcome::Rows { .. } => {
            if keeps {
                copy_asked(alloc, &event.command)
            } else {
                Ok(None)
            }
        }
        Outcome::Waits { .. } => copy_asked(alloc, &event.command),
        _ => Ok(None),
    }
}

/// A copy of what a command asks for, if it is a statement. NoMemory where an allocation was refused.
fn copy_asked(alloc: Global, command: &Command) -> Result<Option<Statement>, NoMemory>
    ensures { IfOk result (λ copy. copy ≡ asked command.now) }
{
    match asked_statement(command) {
        Some(statement) => Ok(Some(statement.copy(alloc)?)),
        None => Ok(None),
    }
}
