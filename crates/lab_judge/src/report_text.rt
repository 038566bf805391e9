//! Prints a report. The functions append; on failure, a part of the text may have been appended.

ghost use Rattle.std.specs.Prelude.{◌≡◌, ◌++◌, codes, IfOk, OnOk};
ghost use Rattle.lab_judge.specs.ReportText.{finding_text, grade_name, line_text, places_text, report_text, serial_text};

use crate::part_text::{put_circle, put_fault, put_order, put_place, put_spans, put_walk};
use crate::places::Places;
use crate::report::{Finding, Grade, Report};
use crate::serial::Serial;
use lab_table::NoMemory;
use std::alloc::Global;

/// Returns the ten lines of a report, from `serializable: ` to `level: `, each with its newline.
pub fn print_report(alloc: Global, report: &Report) -> Result<Vec<u8>, NoMemory>
    ensures { IfOk result (λ text. text.items ≡ report_text report.now) }
{
    let mut text = Vec::new(alloc);
    put_serial(&mut text, &report.serial)?;
    put_places(&mut text, &report.snapshot)?;
    put_finding(&mut text, b"G0", report.g0())?;
    put_finding(&mut text, b"G1a", report.g1a())?;
    put_finding(&mut text, b"G1b", report.g1b())?;
    put_finding(&mut text, b"G1c", report.g1c())?;
    put_finding(&mut text, b"G-single", report.g_single())?;
    put_finding(&mut text, b"G2-item", report.g2_item())?;
    put_finding(&mut text, b"G2", report.g2())?;
    put_level(&mut text, report.level)?;
    Ok(text)
}

/// Appends the line of the serial verdict, with its newline.
pub fn put_serial(out: &mut Vec<u8>, serial: &Serial) -> Result<(), NoMemory>
    ensures { OnOk result (out.new.items ≡ out.old.items ++ line_text (codes "serializable") (serial_text serial.now)) }
{
    out.extend_from_slice(b"serializable: ")?;
    match serial {
        Serial::Yes(order) => {
            out.extend_from_slice(b"yes")?;
            put_order(out, order.as_slice())?;
        }
        Serial::NoFault(fault) => {
            out.extend_from_slice(b"no ")?;
            put_fault(out, *fault)?;
        }
        Serial::NoCycle(walk) => {
            out.extend_from_slice(b"no")?;
            put_walk(out, walk.as_slice())?;
        }
    }
    out.extend_from_slice(b"\n")
}

fn put_places(out: &mut Vec<u8>, places: &Places) -> Result<(), NoMemory>
    ensures { OnOk result (out.new.items ≡ out.old.items ++ line_text (codes "snapshot") (places_text places.now)) }
{
    out.extend_from_slice(b"snapshot: ")?;
    match places {
        Places::Yes(spans) => {
            out.extend_from_slice(b"yes")?;
            put_spans(out, spans.as_slice())?;
        }
        Places::NoFault(fault) => {
            out.extend_from_slice(b"no ")?;
            put_fault(out, *fault)?;
        }
        Places::NoCycle(circle) => {
            out.extend_from_slice(b"no")?;
            put_circle(out, circle.as_slice())?;
        }
    }
    out.extend_from_slice(b"\n")
}

/// Appends the line of a phenomenon: its name `about`, the finding, and a newline.
pub fn put_finding(out: &mut Vec<u8>, about: &[u8], finding: &Finding) -> Result<(), NoMemory>
    ensures { OnOk result (out.new.items ≡ out.old.items ++ line_text about.now (finding_text finding.now)) }
{
    out.extend_from_slice(about)?;
    out.extend_from_slice(b": ")?;
    match finding {
        Finding::Absent => out.extend_from_slice(b"absent")?,
        Finding::Walk(walk) => {
            out.extend_from_slice(b"present")?;
            put_walk(out, walk.as_slice())?;
        }
        Finding::At { txn, op, row } => {
            out.extend_from_slice(b"present")?;
            put_place(out, *txn, *op, *row)?;
        }
        Finding::NotJudged => out.extend_from_slice(b"not judged")?,
    }
    out.extend_from_slice(b"\n")
}

fn put_level(out: &mut Vec<u8>, level: Grade) -> Result<(), NoMemory>
    ensures { OnOk result (out.new.items ≡ out.old.items ++ line_text (codes "level") (grade_name level)) }
{
    out.extend_from_slice(b"level: ")?;
    out.extend_from_slice(level.name().as_bytes())?;
    out.extend_from_slice(b"\n")
}
