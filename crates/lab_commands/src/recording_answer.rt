//! What a recording tells.

ghost use Rattle.std.specs.Prelude.{◌≢◌, ◌≡◌, Err, IfOk, IfErr};
ghost use Rattle.lab_printing.specs.Limits.{IsDeep, IsLong};
ghost use Rattle.lab_session.specs.LogText.{SomeEvent};
ghost use Rattle.lab_commands.specs.Playing.{log_said, Ends, IsLogAnswer, IsHistoryAnswer, IsRecordingAnswer, IsUntold};

use crate::remarked_log::print_remarked_log;
use crate::shown::Shown;
use lab_engine::Recording;
use lab_history::{FileFault, Limit};
use lab_history_file::{WriteFault, write_history};
use lab_judge::{judge_recording, print_file_fault};
use lab_printing::PrintFault;
use lab_reports::Requirement;
use lab_session::{PlayFault, print_log};
use lab_streams::{Answer, Ending, Format, Wanted, ending_of, print_said, shortfall_line};
use lab_table::NoMemory;
use std::alloc::{AllocError, Global};

/// What is written of a recording's log in front of the report, with `rows` the committed rows behind ends of transactions.
/// TooDeep and TooLong only where a statement of the log breaks that limit.
fn print_log_said(
    alloc: Global,
    rows: bool,
    format: Format,
    recording: &Recording,
) -> Result<Vec<u8>, PrintFault>
    ensures text { IfOk result (λ text. text.items ≡ log_said rows format recording.now) }
    ensures too_deep { result ≡ Err PrintFault.TooDeep → SomeEvent IsDeep recording.now.log }
    ensures too_long { result ≡ Err PrintFault.TooLong → SomeEvent IsLong recording.now.log }
    ensures few_tables { result ≢ Err PrintFault.TooManyTables }
{
    match format {
        Format::Lines if rows => print_remarked_log(alloc, recording),
        Format::Lines => print_log(alloc, recording),
        Format::Json => Ok(Vec::new(alloc)),
    }
}

/// The log of a recording, with `rows` the committed rows behind ends of transactions, and the report of a judgement of its
/// history; or in JSON that report alone. TooDeep and TooLong only where a statement of the log breaks that limit.
fn log_answer(
    alloc: Global,
    rows: bool,
    recording: &Recording,
    wanted: Wanted,
    shortfall: &mut Vec<u8>,
) -> Result<Answer, PrintFault>
    ensures answer { IfOk result (λ answer. IsLogAnswer rows wanted recording.now answer.text.items answer.ending) }
    ensures too_deep { result ≡ Err PrintFault.TooDeep → SomeEvent IsDeep recording.now.log }
    ensures too_long { result ≡ Err PrintFault.TooLong → SomeEvent IsLong recording.now.log }
    ensures few_tables { result ≢ Err PrintFault.TooManyTables }
{
    let mut text = print_log_said(alloc, rows, wanted.format, recording)?;
    let report = judge_recording(alloc, recording)?;
    text.extend_from_slice(&print_said(alloc, wanted.format, None, &report)?)?;
    *shortfall = shortfall_line(alloc, "standard input", wanted.requirement, &report)?;
    Ok(Answer {
        text,
        ending: ending_of(wanted.requirement, &report),
    })
}

/// How a run ends that writes its history, by what is required of the report.
fn end_of_history(
    alloc: Global,
    recording: &Recording,
    requirement: Option<Requirement>,
    shortfall: &mut Vec<u8>,
) -> Result<Ending, NoMemory>
    ensures { IfOk result (Ends requirement recording.now.history) }
{
    match requirement {
        None => Ok(Ending::Done),
        Some(_) => {
            let report = judge_recording(alloc, recording)?;
            *shortfall = shortfall_line(alloc, "standard input", requirement, &report)?;
            Ok(ending_of(requirement, &report))
        }
    }
}

/// The history file of a recording and a newline, or the line that says that the file would be too long.
fn history_answer(
    alloc: Global,
    recording: &Recording,
    wanted: Wanted,
    shortfall: &mut Vec<u8>,
) -> Result<Answer, NoMemory>
    ensures { IfOk result (λ answer. IsHistoryAnswer wanted recording.now answer.text.items answer.ending) }
{
    match write_history(alloc, recording.history()) {
        Ok(file) => {
            let mut text = file;
            text.push(b'\n')?;
            Ok(Answer {
                text,
                ending: end_of_history(alloc, recording, wanted.requirement, shortfall)?,
            })
        }
        Err(WriteFault::NoMemory) => Err(AllocError),
        Err(WriteFault::TooLong) => Ok(Answer {
            text: print_file_fault(
                alloc,
                &FileFault::OverLimit {
                    which: Limit::Bytes,
                },
            )?,
            ending: Ending::Refused,
        }),
    }
}

/// A recording's log, and the report; a log of which a statement doesn't print is a play that is over that limit.
fn told_log(
    alloc: Global,
    rows: bool,
    recording: &Recording,
    wanted: Wanted,
    shortfall: &mut Vec<u8>,
) -> Result<Answer, PlayFault>
    ensures tells { IfOk result (λ answer. IsLogAnswer rows wanted recording.now answer.text.items answer.ending) }
    ensures fault { IfErr result (IsUntold recording.now) }
{
    match log_answer(alloc, rows, recording, wanted, shortfall) {
        Ok(answer) => Ok(answer),
        Err(PrintFault::NoMemory) => Err(PlayFault::NoMemory),
        Err(PrintFault::TooDeep | PrintFault::TooLong) => Err(PlayFault::OverLimit {
            which: Limit::Statement,
        }),
        Err(PrintFault::TooManyTables) => unreachable!(),
    }
}

/// What there is to tell of a recording: its log, with the committed rows or without, and the report, which in JSON stands
/// alone; or its history. Why the report doesn't meet what is required is noted. A log of which a statement doesn't print is
/// a play that is over that limit.
pub fn recording_answer(
    alloc: Global,
    recording: &Recording,
    shown: Shown,
    wanted: Wanted,
    shortfall: &mut Vec<u8>,
) -> Result<Answer, PlayFault>
    ensures tells { IfOk result (λ answer. IsRecordingAnswer shown wanted recording.now answer.text.items answer.ending) }
    ensures fault { IfErr result (IsUntold recording.now) }
{
    match shown {
        Shown::Log => told_log(alloc, false, recording, wanted, shortfall),
        Shown::Rows => told_log(alloc, true, recording, wanted, shortfall),
        Shown::History => Ok(history_answer(alloc, recording, wanted, shortfall)?),
    }
}
