//! The formats of a report, and requirements on it.

ghost use Rattle.std.specs.Prelude.{◌≡◌, ◌++◌, IfOk, OnOk};
ghost use Rattle.std.specs.Option.{option_copied};
ghost use Rattle.lab_streams.specs.Reports.{said_of, refused_text, is_idle, keeps, ending_due, idle_text, unkept_text, shortfall_line};

use crate::ending::Ending;
use lab_history::FileFault;
use lab_judge::{Report, Serial, print_file_fault, print_report};
use lab_reports::{Requirement, print_refusal_json, print_report_json, put_shortfall};
use lab_table::NoMemory;
use std::alloc::Global;

/// The format of a report, or of the reason why there is none.
#[derive(Clone, Copy, Debug, PartialEq, Eq)]
pub enum Format {
    /// Lines of text.
    Lines,
    /// One line of JSON.
    Json,
}

/// The format of a report, and the requirement on it.
#[derive(Clone, Copy, Debug, PartialEq, Eq)]
pub struct Wanted {
    pub format: Format,
    pub requirement: Option<Requirement>,
}

/// Returns a report in a format; in JSON with the name of its file, if it is given.
pub fn print_said(
    alloc: Global,
    format: Format,
    file: Option<&str>,
    report: &Report,
) -> Result<Vec<u8>, NoMemory>
    ensures { IfOk result (λ text. text.items ≡ said_of format (option_copied file.entry) report.now) }
{
    match format {
        Format::Lines => print_report(alloc, report),
        Format::Json => print_report_json(alloc, file, report),
    }
}

/// Returns why there is no report on a file, in a format; in JSON with the name of the file, if it is given. Fails if
/// the fault is itself `NoMemory`.
pub fn print_refused(
    alloc: Global,
    format: Format,
    file: Option<&str>,
    fault: &FileFault,
) -> Result<Vec<u8>, NoMemory>
    ensures { IfOk result (λ text. text.items ≡ refused_text format (option_copied file.entry) fault.now) }
{
    match format {
        Format::Lines => print_file_fault(alloc, fault),
        Format::Json => print_refusal_json(alloc, file, fault),
    }
}

/// Returns whether a report says that no transaction of its history committed: its serial order is empty.
pub fn is_idle(report: &Report) -> bool
    ensures { result ≡ is_idle report.now }
{
    match &report.serial {
        Serial::Yes(order) => order.as_slice().is_empty(),
        Serial::NoFault(_) | Serial::NoCycle(_) => false,
    }
}

/// Whether a report meets a requirement, and a transaction of its history committed.
fn keeps(requirement: Requirement, report: &Report) -> bool
    ensures { result ≡ keeps requirement report.now }
{
    requirement.is_met(report) && !is_idle(report)
}

/// Returns how a subcommand that wrote a report ends: `Unmet` if the report doesn't meet the requirement, or no
/// transaction of its history committed.
pub fn ending_of(requirement: Option<Requirement>, report: &Report) -> Ending
    ensures { result ≡ ending_due requirement report.now }
{
    match requirement {
        Some(requirement) if !keeps(requirement, report) => Ending::Unmet,
        _ => Ending::Done,
    }
}

/// Appends what is required of a history in which no transaction committed.
fn put_idle(out: &mut Vec<u8>, requirement: Requirement) -> Result<(), NoMemory>
    ensures { OnOk result (out.new.items ≡ out.old.items ++ idle_text requirement) }
{
    out.extend_from_slice(requirement.name().as_bytes())?;
    out.extend_from_slice(b" asked, no transaction committed")
}

/// Appends why a report doesn't meet a requirement, or that no transaction of its history committed.
fn put_unkept(out: &mut Vec<u8>, requirement: Requirement, report: &Report) -> Result<(), NoMemory>
    ensures { OnOk result (out.new.items ≡ out.old.items ++ unkept_text requirement report.now) }
{
    if is_idle(report) {
        put_idle(out, requirement)
    } else {
        put_shortfall(out, requirement, report)
    }
}

/// Returns a line with the name of a file that says why `ending_of` is `Unmet`, or an empty text if it isn't: the report
/// doesn't meet the requirement, or no transaction of its history committed.
pub fn shortfall_line(
    alloc: Global,
    file: &str,
    requirement: Option<Requirement>,
    report: &Report,
) -> Result<Vec<u8>, NoMemory>
    ensures { IfOk result (λ line. line.items ≡ shortfall_line file.now requirement report.now) }
{
    let mut line = Vec::new(alloc);
    match requirement {
        Some(requirement) if !keeps(requirement, report) => {
            line.extend_from_slice(file.as_bytes())?;
            line.extend_from_slice(b": ")?;
            put_unkept(&mut line, requirement, report)?;
            line.push(b'\n')?;
        }
        _ => {}
    }
    Ok(line)
}
