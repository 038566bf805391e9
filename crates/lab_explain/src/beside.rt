//! What is said of a finding beside a serial verdict. Functions that take bytes append; on failure, a part of the text
//! may have been appended.

ghost use Rattle.std.specs.Prelude.{◌≡◌, ◌++◌, [], ◌∷◌, OnOk};
ghost use Rattle.lab_explain.specs.Findings.{beside, by_walk, pointer, cut_walk, cut_beside, few_beside, finding_lines};
ghost use Rattle.lab_explain.specs.Lines.{paragraph, cut};
ghost use Rattle.lab_explain.specs.Told.{serial_walk};

use crate::findings::{put_alone, put_found_beside, put_head};
use crate::lines::{lines, put_cut, put_paragraph};
use crate::phrases::{other_words, pointer_end, pointer_words};
use crate::told::{is_same, is_told, walk_text};
use lab_history::History;
use lab_judge::{Finding, Report};
use lab_reports::Phenomenon;
use lab_table::NoMemory;
use std::alloc::Global;

/// Appends a finding beside a serial verdict whose walk is printed so.
#[tactic(auto, unfolding(crate::specs::Findings::beside))]
fn put_beside(
    alloc: Global,
    out: &mut Vec<u8>,
    history: &History,
    phenomenon: Phenomenon,
    of_serial: &[u8],
    finding: &Finding,
) -> Result<(), NoMemory>
    ensures { OnOk result (out.new.items ≡ out.old.items ++ beside history.now phenomenon of_serial.now finding.now) }
{
    let mut text = Vec::new(alloc);
    put_head(&mut text, history, phenomenon, finding)?;
    put_found_beside(alloc, &mut text, history, phenomenon, of_serial, finding)?;
    put_paragraph(out, &text)
}

/// Appends a walk that isn't the serial verdict's, as the report prints it.
#[tactic(auto, unfolding(crate::specs::Findings::by_walk))]
fn put_by_walk(
    out: &mut Vec<u8>,
    history: &History,
    phenomenon: Phenomenon,
    finding: &Finding,
    walk: &[u8],
) -> Result<(), NoMemory>
    ensures { OnOk result (out.new.items ≡ out.old.items ++ by_walk history.now phenomenon finding.now walk.now) }
{
    put_head(out, history, phenomenon, finding)?;
    out.extend_from_slice(other_words())?;
    out.extend_from_slice(walk)?;
    out.extend_from_slice(b".")
}

/// Appends the line that says how to have a phenomenon explained.
#[tactic(auto, unfolding(crate::specs::Findings::pointer))]
fn put_pointer(out: &mut Vec<u8>, phenomenon: Phenomenon) -> Result<(), NoMemory>
    ensures { OnOk result (out.new.items ≡ out.old.items ++ pointer phenomenon) }
{
    out.extend_from_slice(pointer_words())?;
    out.extend_from_slice(phenomenon.name().as_bytes())?;
    out.extend_from_slice(pointer_end())
}

/// Appends the first line of a walk that isn't the serial verdict's, how many are left out, and how to have it explained.
fn put_cut_other(
    alloc: Global,
    out: &mut Vec<u8>,
    history: &History,
    phenomenon: Phenomenon,
    finding: &Finding,
    walk: &[u8],
) -> Result<(), NoMemory>
    ensures { OnOk result (out.new.items ≡ out.old.items ++ cut 2 (paragraph (by_walk history.now phenomenon finding.now walk.now) ∷ []) ++ pointer phenomenon) }
{
    let mut text = Vec::new(alloc);
    put_by_walk(&mut text, history, phenomenon, finding, walk)?;
    let mut lines = Vec::new(alloc);
    put_paragraph(&mut lines, &text)?;
    put_cut(alloc, out, 2, &lines)?;
    put_pointer(out, phenomenon)
}

/// Appends what is said beside a serial verdict of a walk for which there are too few lines: these.
fn put_cut_walk(
    alloc: Global,
    out: &mut Vec<u8>,
    history: &History,
    phenomenon: Phenomenon,
    of_serial: &[u8],
    finding: &Finding,
    lines: &[u8],
    walk: &[u8],
) -> Result<(), NoMemory>
    requires { lines.now ≡ beside history.now phenomenon of_serial.now finding.now }
    ensures { OnOk result (out.new.items ≡ out.old.items ++ cut_walk history.now phenomenon of_serial.now finding.now walk.now) }
{
    if is_same(walk, of_serial) {
        put_cut(alloc, out, 3, lines)
    } else {
        put_cut_other(alloc, out, history, phenomenon, finding, walk)
    }
}

/// Appends a finding beside a serial verdict for which there are too few lines: these.
fn put_cut_beside(
    alloc: Global,
    out: &mut Vec<u8>,
    history: &History,
    phenomenon: Phenomenon,
    of_serial: &[u8],
    finding: &Finding,
    lines: &[u8],
) -> Result<(), NoMemory>
    requires { lines.now ≡ beside history.now phenomenon of_serial.now finding.now }
    ensures { OnOk result (out.new.items ≡ out.old.items ++ cut_beside history.now phenomenon of_serial.now finding.now) }
{
    match finding {
        Finding::Absent | Finding::NotJudged | Finding::At { .. } => put_cut(alloc, out, 3, lines),
        Finding::Walk(walk) => {
            let walk = walk_text(alloc, walk.as_slice())?;
            put_cut_walk(
                alloc, out, history, phenomenon, of_serial, finding, lines, &walk,
            )
        }
    }
}

/// Appends a finding beside a serial verdict whose walk is printed so, in three lines at most.
#[tactic(auto, unfolding(crate::specs::Findings::few_beside))]
fn put_few_beside(
    alloc: Global,
    out: &mut Vec<u8>,
    history: &History,
    phenomenon: Phenomenon,
    of_serial: &[u8],
    finding: &Finding,
) -> Result<(), NoMemory>
    ensures { OnOk result (out.new.items ≡ out.old.items ++ few_beside history.now phenomenon of_serial.now finding.now) }
{
    let mut text = Vec::new(alloc);
    put_beside(alloc, &mut text, history, phenomenon, of_serial, finding)?;
    if lines(&text) <= 3 {
        return out.extend_from_slice(&text);
    }
    put_cut_beside(alloc, out, history, phenomenon, of_serial, finding, &text)
}

/// Appends the lines of a finding beside a serial verdict, whose walk is printed so: of the one whose cycle is told what it
/// would have by itself, in 23 at most, of each other three at most.
#[tactic(auto, unfolding(crate::specs::Findings::finding_lines))]
pub fn put_finding_lines(
    alloc: Global,
    out: &mut Vec<u8>,
    history: &History,
    report: &Report,
    of_serial: &[u8],
    told: Option<Phenomenon>,
    phenomenon: Phenomenon,
) -> Result<(), NoMemory>
    requires { of_serial.now ≡ serial_walk report.now.serial }
    ensures { OnOk result (out.new.items ≡ out.old.items ++ finding_lines history.now report.now told phenomenon) }
{
    let finding = phenomenon.found_in(report);
    if is_told(told, phenomenon) {
        put_alone(alloc, out, 23, history, phenomenon, finding)
    } else {
        put_few_beside(alloc, out, history, phenomenon, of_serial, finding)
    }
}
