//! A log with the committed rows behind each event that ends a transaction.

ghost use Rattle.std.specs.Prelude.{◌≢◌, ◌≡◌, ◌++◌, Err, IfOk, OnOk};
ghost use Rattle.lab_printing.specs.Limits.{IsDeep, IsLong};
ghost use Rattle.lab_session.specs.LogText.{SomeEvent};
ghost use Rattle.lab_commands.specs.CommittedRows.{remarked_log, remarked_recording, remarked_text, rows_remark};

use crate::rows_text::put_rows;
use crate::standing::{Standing, is_over};
use lab_engine::{LogEvent, Outcome, Recording};
use lab_history::History;
use lab_printing::PrintFault;
use lab_session::put_event;
use lab_table::{ByRow, NoMemory, Value};
use std::alloc::Global;

/// Appends the committed rows as a remark, where an outcome ends a transaction.
fn put_remark(out: &mut Vec<u8>, outcome: &Outcome, rows: &ByRow<Value>) -> Result<(), NoMemory>
    ensures { OnOk result (out.new.items ≡ out.old.items ++ rows_remark outcome.now rows.now) }
{
    if !is_over(outcome) {
        return Ok(());
    }
    out.extend_from_slice(b"-- rows ")?;
    put_rows(out, rows.entries())?;
    out.extend_from_slice(b"\n")
}

/// Appends the line of an event, and the remark behind it. TooDeep and TooLong only where its statement breaks that limit.
fn put_remarked(out: &mut Vec<u8>, event: &LogEvent, rows: &ByRow<Value>) -> Result<(), PrintFault>
    ensures text { OnOk result (out.new.items ≡ out.old.items ++ remarked_text event.now rows.now) }
    ensures too_deep { result ≡ Err PrintFault.TooDeep → IsDeep event.now.command }
    ensures too_long { result ≡ Err PrintFault.TooLong → IsLong event.now.command }
    ensures few_tables { result ≢ Err PrintFault.TooManyTables }
{
    put_event(out, event)?;
    put_remark(out, &event.outcome, rows)?;
    Ok(())
}

/// Appends the lines of a log of which this history is recorded, each with the remark behind it. TooDeep and TooLong only
/// where a statement of the log breaks that limit.
fn put_remarked_log(
    alloc: Global,
    out: &mut Vec<u8>,
    history: &History,
    first: Standing,
    log: &[LogEvent],
) -> Result<(), PrintFault>
    ensures text { OnOk result (out.new.items ≡ out.old.items ++ remarked_log history.now first log.now) }
    ensures too_deep { result ≡ Err PrintFault.TooDeep → SomeEvent IsDeep log.now }
    ensures too_long { result ≡ Err PrintFault.TooLong → SomeEvent IsLong log.now }
    ensures few_tables { result ≢ Err PrintFault.TooManyTables }
{
    let mut standing = first;
    for event in log {
        standing.take_in(alloc, history, event)?;
        put_remarked(out, event, &standing.rows)?;
    }
    Ok(())
}

/// The log of a recording, with the committed rows behind each event that ends a transaction, as a remark. TooDeep and
/// TooLong only where a statement of the log breaks that limit.
pub fn print_remarked_log(alloc: Global, recording: &Recording) -> Result<Vec<u8>, PrintFault>
    ensures text { IfOk result (λ text. text.items ≡ remarked_recording recording.now) }
    ensures too_deep { result ≡ Err PrintFault.TooDeep → SomeEvent IsDeep recording.now.log }
    ensures too_long { result ≡ Err PrintFault.TooLong → SomeEvent IsLong recording.now.log }
    ensures few_tables { result ≢ Err PrintFault.TooManyTables }
{
    let standing = Standing::first(alloc, recording.setup())?;
    let mut text = Vec::new(alloc);
    put_remarked_log(
        alloc,
        &mut text,
        recording.history(),
        standing,
        recording.log(),
    )?;
    Ok(text)
}
