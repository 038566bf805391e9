//! Prints a log. The functions append; on failure, a part of the text may have been appended.

ghost use Rattle.std.specs.Prelude.{◌≢◌, ◌≡◌, ◌++◌, codes, flat_map, map, Err, IfOk, OnOk};
ghost use Rattle.std.specs.Fmt.{decimal};
ghost use Rattle.lab_printing.specs.Limits.{CommandPrints, IsDeep, IsLong};
ghost use Rattle.lab_printing.specs.Printed.{joined, printed_row_name};
ghost use Rattle.lab_session.specs.LogText.{AllPrint, SomeEvent, event_text, log_text, next_text, outcome_text, refusal_text, session_text};

use itoa::Buffer;
use lab_engine::{EngineFault, LogEvent, Outcome, Recording};
use lab_printing::{PrintFault, put_list, put_printable, put_row_name};
use lab_table::{NoMemory, RowName, Session, TxnNo};
use std::alloc::Global;

/// Returns the printed log of a recording, one line for each event, such as `T1 commit: committed`, if each of its
/// statements keeps the limits of a text. Fails with `TooDeep` or `TooLong` only if a statement exceeds that limit.
pub fn print_log(alloc: Global, recording: &Recording) -> Result<Vec<u8>, PrintFault>
    ensures text { IfOk result (λ text. text.items ≡ log_text recording.now.log) }
    ensures prints { OnOk result (AllPrint recording.now.log) }
    ensures too_deep { result ≡ Err PrintFault.TooDeep → SomeEvent IsDeep recording.now.log }
    ensures too_long { result ≡ Err PrintFault.TooLong → SomeEvent IsLong recording.now.log }
    ensures few_tables { result ≢ Err PrintFault.TooManyTables }
{
    let log = recording.log();
    let mut text = Vec::new(alloc);
    for event in log {
        put_event(&mut text, event)?;
    }
    Ok(text)
}

/// Appends the line of an event, such as `T1 commit: committed`, if its statement keeps the limits of a text. Fails
/// with `TooDeep` or `TooLong` only if it exceeds that limit.
pub fn put_event(out: &mut Vec<u8>, event: &LogEvent) -> Result<(), PrintFault>
    ensures text { OnOk result (out.new.items ≡ out.old.items ++ event_text event.now) }
    ensures prints { OnOk result (CommandPrints event.now.command) }
    ensures too_deep { result ≡ Err PrintFault.TooDeep → IsDeep event.now.command }
    ensures too_long { result ≡ Err PrintFault.TooLong → IsLong event.now.command }
    ensures few_tables { result ≢ Err PrintFault.TooManyTables }
{
    put_session(out, event.session)?;
    out.extend_from_slice(b" ")?;
    put_printable(out, &event.command)?;
    out.extend_from_slice(b": ")?;
    put_outcome(out, &event.outcome)?;
    out.extend_from_slice(b"\n")?;
    Ok(())
}

/// Appends a session, such as `T1`.
pub fn put_session(out: &mut Vec<u8>, session: Session) -> Result<(), NoMemory>
    ensures { OnOk result (out.new.items ≡ out.old.items ++ session_text session) }
{
    out.extend_from_slice(b"T")?;
    out.extend_from_slice(Buffer::new().format(session.number()).as_bytes())
}

/// Appends sessions with commas between them.
fn put_sessions(out: &mut Vec<u8>, sessions: &[Session]) -> Result<(), NoMemory>
    ensures { OnOk result (out.new.items ≡ out.old.items ++ joined (map session_text sessions.now)) }
{
    let Some((first, rest)) = sessions.split_first() else {
        return Ok(());
    };
    put_session(out, *first)?;
    for session in rest {
        out.extend_from_slice(b", ")?;
        put_session(out, *session)?;
    }
    Ok(())
}

/// Appends a cycle of sessions, each behind a space.
fn put_circle(out: &mut Vec<u8>, circle: &[Session]) -> Result<(), NoMemory>
    ensures { OnOk result (out.new.items ≡ out.old.items ++ flat_map next_text circle.now) }
{
    for session in circle {
        out.extend_from_slice(b" ")?;
        put_session(out, *session)?;
    }
    Ok(())
}

/// Appends an outcome, such as `waits T2`.
pub fn put_outcome(out: &mut Vec<u8>, outcome: &Outcome) -> Result<(), NoMemory>
    ensures { OnOk result (out.new.items ≡ out.old.items ++ outcome_text outcome.now) }
{
    match outcome {
        Outcome::Begun(number) => {
            out.extend_from_slice(b"begun ")?;
            out.extend_from_slice(Buffer::new().format(number.number()).as_bytes())
        }
        Outcome::Rows { rows, .. } => {
            out.extend_from_slice(b"rows ")?;
            put_list(out, rows.entries())
        }
        Outcome::Committed => out.extend_from_slice(b"committed"),
        Outcome::Aborted => out.extend_from_slice(b"aborted"),
        Outcome::Waits { on } => {
            out.extend_from_slice(b"waits ")?;
            put_sessions(out, on.as_slice())
        }
        Outcome::Refused(fault) => {
            out.extend_from_slice(b"refused ")?;
            put_refusal(out, fault)
        }
    }
}

/// Appends why a command was refused, and for which row.
fn put_reason(out: &mut Vec<u8>, reason: &[u8], id: RowName) -> Result<(), NoMemory>
    ensures { OnOk result (out.new.items ≡ out.old.items ++ (reason.now ++ printed_row_name id)) }
{
    out.extend_from_slice(reason)?;
    put_row_name(out, id)
}

/// Appends why a commit was refused, for which row, and whose install of it conflicts.
fn put_conflict(out: &mut Vec<u8>, reason: &[u8], row: RowName, by: TxnNo) -> Result<(), NoMemory>
    ensures { OnOk result (out.new.items ≡ out.old.items ++ (reason.now ++ printed_row_name row ++ codes " by " ++ decimal by)) }
{
    put_reason(out, reason, row)?;
    out.extend_from_slice(b" by ")?;
    out.extend_from_slice(Buffer::new().format(by.number()).as_bytes())
}

fn put_refusal(out: &mut Vec<u8>, fault: &EngineFault) -> Result<(), NoMemory>
    ensures { OnOk result (out.new.items ≡ out.old.items ++ refusal_text fault.now) }
{
    match fault {
        EngineFault::DuplicateKey { id } => put_reason(out, b"DuplicateKey ", *id)?,
        EngineFault::OutOfRange { id } => put_reason(out, b"OutOfRange ", *id)?,
        EngineFault::Deadlock { circle } => {
            out.extend_from_slice(b"Deadlock")?;
            put_circle(out, circle.as_slice())?;
        }
        EngineFault::WriteConflict { row, by } => {
            put_conflict(out, b"WriteConflict row ", *row, *by)?;
        }
        EngineFault::NoTransaction => out.extend_from_slice(b"NoTransaction")?,
        EngineFault::AlreadyBegun => out.extend_from_slice(b"AlreadyBegun")?,
        EngineFault::Busy => out.extend_from_slice(b"Busy")?,
        EngineFault::ReadConflict { row, by } => {
            put_conflict(out, b"ReadConflict row ", *row, *by)?;
        }
    }
    Ok(())
}
