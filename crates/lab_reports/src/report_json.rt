//! Prints a report as a line of JSON.

ghost use Rattle.std.specs.Prelude.{◌≡◌, fold, Some, IfOk, OnOk, IsUtf8};
ghost use Rattle.std.specs.Option.{option_copied};
ghost use Rattle.serde_json.specs.Data.{no_members, object};
ghost use Rattle.serde_json.specs.Read.{read as read_text};
ghost use Rattle.serde_json.specs.View.{view};
ghost use Rattle.serde_json.specs.Written.{compact_text};
ghost use Rattle.lab_reports.specs.Tree.{serial_tree, places_tree, finding_tree, with_finding, tree_of, line_of};

use crate::line::print_line;
use crate::parts_json::{fault_json, read_json, spans_json};
use crate::phenomenon::Phenomenon;
use crate::to_json::list_json;
use lab_judge::{Finding, Places, Report, Serial};
use lab_table::NoMemory;
use serde_json::{Map, Value as Json, json, put};
use std::alloc::Global;

fn serial_json(alloc: Global, serial: &Serial) -> Result<Json, NoMemory>
    ensures { IfOk result (λ v. view v ≡ serial_tree serial.now) }
{
    match serial {
        Serial::Yes(order) => json!(in alloc; {
            "order": list_json(alloc, order.as_slice())?,
            "verdict": "yes"
        }),
        Serial::NoFault(fault) => json!(in alloc; {
            "fault": fault_json(alloc, *fault)?,
            "verdict": "no"
        }),
        Serial::NoCycle(walk) => json!(in alloc; {
            "cycle": list_json(alloc, walk.as_slice())?,
            "verdict": "no"
        }),
    }
}

fn places_json(alloc: Global, places: &Places) -> Result<Json, NoMemory>
    ensures { IfOk result (λ v. view v ≡ places_tree places.now) }
{
    match places {
        Places::Yes(spans) => json!(in alloc; {
            "places": spans_json(alloc, spans.as_slice())?,
            "verdict": "yes"
        }),
        Places::NoFault(fault) => json!(in alloc; {
            "fault": fault_json(alloc, *fault)?,
            "verdict": "no"
        }),
        Places::NoCycle(circle) => json!(in alloc; {
            "cycle": list_json(alloc, circle.as_slice())?,
            "verdict": "no"
        }),
    }
}

fn finding_json(alloc: Global, finding: &Finding) -> Result<Json, NoMemory>
    ensures { IfOk result (λ v. view v ≡ finding_tree finding.now) }
{
    match finding {
        Finding::Absent => json!(in alloc; {"verdict": "absent"}),
        Finding::Walk(walk) => json!(in alloc; {
            "cycle": list_json(alloc, walk.as_slice())?,
            "verdict": "present"
        }),
        Finding::At { txn, op, row } => json!(in alloc; {
            "read": read_json(alloc, *txn, *op, *row)?,
            "verdict": "present"
        }),
        Finding::NotJudged => json!(in alloc; {"verdict": "not judged"}),
    }
}

/// What is found of some phenomena, at their names.
fn findings_json(alloc: Global, among: &[Phenomenon], report: &Report) -> Result<Json, NoMemory>
    ensures { IfOk result (λ v. view v ≡ object (fold (with_finding report.now) no_members among.now)) }
{
    let mut members = Map::new(alloc);
    for phenomenon in among {
        let finding = finding_json(alloc, phenomenon.found_in(report))?;
        put(&mut members, alloc, phenomenon.name(), finding)?;
    }
    Ok(Json::Object(members))
}

fn report_json(alloc: Global, file: Option<&str>, report: &Report) -> Result<Json, NoMemory>
    ensures { IfOk result (λ v. view v ≡ tree_of (option_copied file.entry) report.now) }
{
    let findings = findings_json(alloc, &Phenomenon::ALL, report)?;
    let serial = serial_json(alloc, &report.serial)?;
    let snapshot = places_json(alloc, &report.snapshot)?;
    match file {
        None => json!(in alloc; {
            "level": report.level.name(),
            "phenomena": findings,
            "serializable": serial,
            "snapshot": snapshot
        }),
        Some(file) => json!(in alloc; {
            "file": file,
            "level": report.level.name(),
            "phenomena": findings,
            "serializable": serial,
            "snapshot": snapshot
        }),
    }
}

/// Returns a report as one line of compact JSON with its newline; with the name of its file if it is given. The keys of
/// each object are in the order of their bytes.
#[tactic(auto, using(crate::proofs::WritableTree::tree_whole, crate::proofs::WritableTree::tree_flat))]
pub fn print_report_json(
    alloc: Global,
    file: Option<&str>,
    report: &Report,
) -> Result<Vec<u8>, NoMemory>
    ensures line { IfOk result (λ line. line.items ≡ line_of (tree_of (option_copied file.entry) report.now)) }
    ensures utf8 { IfOk result (λ line. IsUtf8 line.items) }
    // What stands before the newline, read as JSON, is the value.
    ensures value { OnOk result (let tree = tree_of (option_copied file.entry) report.now in read_text (compact_text tree) ≡ Some tree) }
{
    print_line(alloc, &report_json(alloc, file, report)?)
}
