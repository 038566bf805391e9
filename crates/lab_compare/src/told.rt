//! Texts of events of a log. Each function that takes bytes appends to them.

ghost use Rattle.std.specs.Prelude.{◌≡◌, ◌++◌, OnOk};
ghost use Rattle.lab_engine.specs.Recording.{is_answer};
ghost use Rattle.lab_compare.specs.Told.{asked_text, behind_text};

use lab_engine::{LogEvent, Outcome};
use lab_printing::{append_result, spell_command};
use lab_session::put_session;
use lab_table::{Command, NoMemory, Session};

/// Appends a session's command, as `T1 commit`.
pub fn put_asked(out: &mut Vec<u8>, session: Session, command: &Command) -> Result<(), NoMemory>
    ensures { OnOk result (out.new.items ≡ out.old.items ++ asked_text session command.now) }
{
    put_session(out, session)?;
    out.push(b' ')?;
    append_result(spell_command(out, command))
}

/// Appends what stands before the answer to a command that is tried again behind an event.
pub fn put_behind(out: &mut Vec<u8>, event: &LogEvent) -> Result<(), NoMemory>
    ensures { OnOk result (out.new.items ≡ out.old.items ++ behind_text event.now) }
{
    out.extend_from_slice(b"; behind ")?;
    put_asked(out, event.session, &event.command)?;
    out.extend_from_slice(b": ")
}

/// Whether an outcome answers its command: it is no wait.
pub fn is_answer(outcome: &Outcome) -> bool
    ensures { result ≡ is_answer outcome.now }
{
    match outcome {
        Outcome::Begun(_) => true,
        Outcome::Rows { .. } => true,
        Outcome::Committed => true,
        Outcome::Aborted => true,
        Outcome::Waits { .. } => false,
        Outcome::Refused(_) => true,
    }
}
