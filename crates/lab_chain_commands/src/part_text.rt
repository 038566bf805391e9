//! What there is to say of one part, and of the whole run. Each function that appends may leave part of what was to be
//! appended where an allocation was refused.

ghost use Rattle.std.specs.Prelude.{◌≡◌, ◌++◌, Some, IfOk, OnOk};
ghost use Rattle.lab_commands.specs.Batching.{name_line, unreadable_text};
ghost use Rattle.lab_chain_commands.specs.ChainAnswers.{outcome_text, whole_text, outcome_status, level_status, count_status, whole_status};
ghost use Rattle.lab_streams.specs.Reports.{said_of, refused_text};

use crate::asked::Asked;
use lab_chain::{Outcome, Summary, is_met, print_summary, print_summary_json};
use lab_history::FileFault;
use lab_judge::Report;
use lab_reports::{Requirement, print_unreadable_json};
use lab_streams::{Format, print_refused, print_said};
use lab_table::NoMemory;
use std::alloc::Global;

/// Appends a line with a part's name; in JSON the name stands in the object.
pub fn put_name(out: &mut Vec<u8>, format: Format, name: &str) -> Result<(), NoMemory>
    ensures { OnOk result (out.new.items ≡ out.old.items ++ name_line format name.now) }
{
    match format {
        Format::Lines => {
            out.extend_from_slice(b"== ")?;
            out.extend_from_slice(name.as_bytes())?;
            out.extend_from_slice(b"\n")
        }
        Format::Json => Ok(()),
    }
}

fn put_report(
    alloc: Global,
    out: &mut Vec<u8>,
    format: Format,
    name: &str,
    report: &Report,
) -> Result<(), NoMemory>
    ensures { OnOk result (out.new.items ≡ out.old.items ++ (name_line format name.now ++ said_of format (Some name.now) report.now)) }
{
    put_name(out, format, name)?;
    out.extend_from_slice(&print_said(alloc, format, Some(name), report)?)
}

fn put_refused(
    alloc: Global,
    out: &mut Vec<u8>,
    format: Format,
    name: &str,
    fault: &FileFault,
) -> Result<(), NoMemory>
    ensures { OnOk result (out.new.items ≡ out.old.items ++ (name_line format name.now ++ refused_text format (Some name.now) fault.now)) }
{
    put_name(out, format, name)?;
    out.extend_from_slice(&print_refused(alloc, format, Some(name), fault)?)
}

/// Appends that a file can't be opened or read, behind its name.
pub fn put_unreadable(
    alloc: Global,
    out: &mut Vec<u8>,
    format: Format,
    name: &str,
) -> Result<(), NoMemory>
    ensures { OnOk result (out.new.items ≡ out.old.items ++ (name_line format name.now ++ unreadable_text format name.now)) }
{
    put_name(out, format, name)?;
    match format {
        Format::Lines => out.extend_from_slice(b"file: unreadable\n"),
        Format::Json => out.extend_from_slice(&print_unreadable_json(alloc, name)?),
    }
}

/// Appends what there is to say of a part.
pub fn put_outcome(
    alloc: Global,
    out: &mut Vec<u8>,
    asked: Asked,
    name: &str,
    outcome: &Outcome,
) -> Result<(), NoMemory>
    ensures { OnOk result (out.new.items ≡ out.old.items ++ outcome_text asked name.now outcome.now) }
{
    match outcome {
        Outcome::Judged { report, .. } => {
            if asked.reports {
                put_report(alloc, out, asked.format, name, report)
            } else {
                Ok(())
            }
        }
        Outcome::Refused(fault) => put_refused(alloc, out, asked.format, name, fault),
        Outcome::Unreadable => put_unreadable(alloc, out, asked.format, name),
    }
}

/// The exit status that a part calls for.
pub fn outcome_status(outcome: &Outcome) -> u8
    ensures { result ≡ outcome_status outcome.now }
{
    match outcome {
        Outcome::Judged { .. } => 0,
        Outcome::Refused(_) => 2,
        Outcome::Unreadable => 3,
    }
}

/// What is said of a run, in a format.
pub fn print_whole(alloc: Global, format: Format, summary: &Summary) -> Result<Vec<u8>, NoMemory>
    ensures { IfOk result (λ text. text.items ≡ whole_text format summary.now) }
{
    match format {
        Format::Lines => print_summary(alloc, summary),
        Format::Json => print_summary_json(alloc, summary),
    }
}

/// The exit status that a run calls for, by the level that is required.
pub fn level_status(requirement: Option<Requirement>, summary: &Summary) -> u8
    ensures { result ≡ level_status requirement summary.now }
{
    match requirement {
        Some(requirement) if !is_met(requirement, summary) => 1,
        _ => 0,
    }
}

/// The exit status that a run calls for, by the number of parts that it must have.
pub fn count_status(parts: Option<u64>, summary: &Summary) -> u8
    ensures { result ≡ count_status parts summary.now }
{
    match parts {
        Some(parts) if parts != summary.parts => 1,
        _ => 0,
    }
}

/// The exit status that a run calls for.
pub fn whole_status(asked: Asked, summary: &Summary) -> u8
    ensures { result ≡ whole_status asked summary.now }
{
    level_status(asked.requirement, summary).max(count_status(asked.parts, summary))
}
