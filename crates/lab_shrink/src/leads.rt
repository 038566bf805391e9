//! What a judgement names where it shows a goal.

use crate::cycle::{shorter_cycle, walk_of};
use crate::goal::Goal;
use crate::lead::{Lead, lead_of_fault, lead_of_finding, lead_of_walk};
use lab_deps::Edge;
use lab_history::History;
use lab_judge::{Circle, Places, Report, Serial, judge};
use lab_table::NoMemory;
use std::alloc::Global;

/// What the cycle of a serial verdict names, or the shortest cycle of a phenomenon if that is shorter.
fn lead_of_serial(
    alloc: Global,
    history: &History,
    report: &Report,
    walk: &[Edge],
    is_each: bool,
) -> Result<Lead, NoMemory> {
    match shorter_cycle(report, walk.len(), false) {
        Some(shorter) => lead_of_walk(alloc, history, shorter, is_each),
        None => lead_of_walk(alloc, history, walk, is_each),
    }
}

/// What the cycle of a snapshot verdict names, or the shortest cycle of a phenomenon that no snapshot run has, if that
/// is shorter.
fn lead_of_circle(
    alloc: Global,
    history: &History,
    report: &Report,
    circle: &Circle,
    is_each: bool,
) -> Result<Lead, NoMemory> {
    let walk = walk_of(alloc, history, circle.as_slice())?;
    match shorter_cycle(report, walk.len(), true) {
        Some(shorter) => lead_of_walk(alloc, history, shorter, is_each),
        None => lead_of_walk(alloc, history, &walk, is_each),
    }
}

/// What the no of a serial verdict names.
fn lead_of_verdict(
    alloc: Global,
    history: &History,
    report: &Report,
    is_each: bool,
) -> Result<Option<Lead>, NoMemory> {
    match &report.serial {
        Serial::Yes(_) => Ok(None),
        Serial::NoFault(fault) => Ok(Some(lead_of_fault(alloc, history, *fault)?)),
        Serial::NoCycle(walk) => {
            let walk = walk.as_slice();
            Ok(Some(lead_of_serial(alloc, history, report, walk, is_each)?))
        }
    }
}

/// What the cycle of a snapshot verdict names, if it has one.
fn lead_of_snapshot(
    alloc: Global,
    history: &History,
    report: &Report,
    is_each: bool,
) -> Result<Option<Lead>, NoMemory> {
    match &report.snapshot {
        Places::NoCycle(circle) => {
            Ok(Some(lead_of_circle(alloc, history, report, circle, is_each)?))
        }
        Places::Yes(_) | Places::NoFault(_) => Ok(None),
    }
}

/// What a report names where it shows a goal.
fn lead_of(
    alloc: Global,
    history: &History,
    report: &Report,
    goal: Goal,
    is_each: bool,
) -> Result<Option<Lead>, NoMemory> {
    match goal {
        Goal::NoOrder | Goal::Fault(_) => lead_of_verdict(alloc, history, report, is_each),
        Goal::NoTimestamps => lead_of_snapshot(alloc, history, report, is_each),
        Goal::Present { phenomenon, .. } => {
            lead_of_finding(alloc, history, phenomenon.found_in(report), is_each)
        }
    }
}

/// Adds a lead, if there is one and it names other operations than the last one.
fn push_lead(leads: &mut Vec<Lead>, lead: Option<Lead>) -> Result<(), NoMemory> {
    let Some(lead) = lead else {
        return Ok(());
    };
    let is_known = match leads.last() {
        Some(last) => last.named.as_slice() == lead.named.as_slice(),
        None => false,
    };
    if is_known {
        drop(lead);
        return Ok(());
    }
    leads.push(lead)?;
    Ok(())
}

/// What a judgement of a history names where it shows a goal: what is named of what transactions did first, and then,
/// where that is more, what is named of all that they did.
pub fn leads_of(alloc: Global, history: &History, goal: Goal) -> Result<Vec<Lead>, NoMemory> {
    let report = judge(alloc, history)?;
    let mut leads = Vec::new(alloc);
    push_lead(&mut leads, lead_of(alloc, history, &report, goal, false)?)?;
    push_lead(&mut leads, lead_of(alloc, history, &report, goal, true)?)?;
    drop(report);
    Ok(leads)
}
