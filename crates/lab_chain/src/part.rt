//! The summary of one part of a run.

ghost use Rattle.std.specs.Prelude.{◌≡◌, drop, IfOk};
ghost use Rattle.lab_judge.specs.ReportText.{fault_text, walk_text, circle_text, place_text};
ghost use Rattle.lab_chain.specs.Parts as spec;

use crate::level::Level;
use crate::line::{Line, Text, text_of};
use crate::summary::{Ends, Lines, Summary};
use lab_deps::{Edge, LocalFault};
use lab_history::FileFault;
use lab_judge::{Finding, Places, Point, Report, Serial, put_circle, put_fault, put_walk};
use lab_streams::is_idle;
use lab_table::{NoMemory, RowName, Table, TxnNo};
use std::alloc::Global;

/// The result of judging a part.
#[derive(Drop)]
pub enum Outcome {
    /// The part was judged; it begins and ends with these rows.
    Judged {
        report: Report,
        initial: Table,
        last: Table,
    },
    /// The part was refused.
    Refused(FileFault),
    /// The part can't be opened or read.
    Unreadable,
}

/// A text without its first bytes.
#[tactic(auto, using(crate::proofs::Behind::behind_front))]
fn behind(alloc: Global, text: &[u8], count: usize) -> Result<Text, NoMemory>
    ensures { IfOk result (λ made. made ≡ drop count text.now) }
{
    let start = text.len().min(count);
    text_of(alloc, &text[start..])
}

fn fault_reason(alloc: Global, fault: LocalFault) -> Result<Text, NoMemory>
    ensures { IfOk result (λ text. text ≡ fault_text fault) }
{
    let mut text = Vec::new(alloc);
    put_fault(&mut text, fault)?;
    Ok(Text::new(text))
}

fn walk_reason(alloc: Global, walk: &[Edge]) -> Result<Text, NoMemory>
    ensures { IfOk result (λ text. text ≡ drop 1 (walk_text walk.now)) }
{
    let mut text = Vec::new(alloc);
    put_walk(&mut text, walk)?;
    behind(alloc, &text, 1)
}

fn circle_reason(alloc: Global, circle: &[Point]) -> Result<Text, NoMemory>
    ensures { IfOk result (λ text. text ≡ drop 1 (circle_text circle.now)) }
{
    let mut text = Vec::new(alloc);
    put_circle(&mut text, circle)?;
    behind(alloc, &text, 1)
}

/// The place of a read, which stands behind the name of a fault there.
fn place_reason(alloc: Global, txn: TxnNo, op: u32, row: RowName) -> Result<Text, NoMemory>
    ensures { IfOk result (λ text. text ≡ drop 1 (place_text txn op row)) }
{
    let mut text = Vec::new(alloc);
    put_fault(&mut text, LocalFault::AbortedRead { txn, op, row })?;
    behind(alloc, &text, "F2 AbortedRead ".len())
}

fn serial_line(alloc: Global, part: &[u8], serial: &Serial) -> Result<Line, NoMemory>
    ensures { IfOk result (λ line. line ≡ spec.serial_line part.now serial.now) }
{
    match serial {
        Serial::Yes(_) => Ok(Line::Clear),
        Serial::NoFault(fault) => Line::found_in(alloc, part, fault_reason(alloc, *fault)?),
        Serial::NoCycle(walk) => Line::found_in(alloc, part, walk_reason(alloc, walk.as_slice())?),
    }
}

fn snapshot_line(alloc: Global, part: &[u8], snapshot: &Places) -> Result<Line, NoMemory>
    ensures { IfOk result (λ line. line ≡ spec.snapshot_line part.now snapshot.now) }
{
    match snapshot {
        Places::Yes(_) => Ok(Line::Clear),
        Places::NoFault(fault) => Line::found_in(alloc, part, fault_reason(alloc, *fault)?),
        Places::NoCycle(circle) => Line::found_in(
            alloc,
            part,
            circle_reason(alloc, circle.as_slice())?,
        ),
    }
}

fn finding_line(alloc: Global, part: &[u8], finding: &Finding) -> Result<Line, NoMemory>
    ensures { IfOk result (λ line. line ≡ spec.finding_line part.now finding.now) }
{
    match finding {
        Finding::Absent => Ok(Line::Clear),
        Finding::NotJudged => Line::unjudged_from(alloc, part),
        Finding::Walk(walk) => Line::found_in(alloc, part, walk_reason(alloc, walk.as_slice())?),
        Finding::At { txn, op, row } => {
            Line::found_in(alloc, part, place_reason(alloc, *txn, *op, *row)?)
        }
    }
}

fn report_lines(alloc: Global, part: &[u8], report: &Report) -> Result<Lines, NoMemory>
    ensures { IfOk result (λ lines. lines ≡ spec.report_lines part.now report.now) }
{
    Ok(Lines {
        serial: serial_line(alloc, part, &report.serial)?,
        snapshot: snapshot_line(alloc, part, &report.snapshot)?,
        g0: finding_line(alloc, part, report.g0())?,
        g1a: finding_line(alloc, part, report.g1a())?,
        g1b: finding_line(alloc, part, report.g1b())?,
        g1c: finding_line(alloc, part, report.g1c())?,
        g_single: finding_line(alloc, part, report.g_single())?,
        g2_item: finding_line(alloc, part, report.g2_item())?,
        g2: finding_line(alloc, part, report.g2())?,
    })
}

fn unjudged_lines(alloc: Global, part: &[u8]) -> Result<Lines, NoMemory>
    ensures { IfOk result (λ lines. lines ≡ spec.unjudged_lines part.now) }
{
    let line = Line::unjudged_from(alloc, part)?;
    Lines::of(alloc, &line, &line)
}

/// What is said of a run that has one part alone, of which there is no report.
fn unjudged_summary(alloc: Global, part: &[u8]) -> Result<Summary, NoMemory>
    ensures { IfOk result (λ summary. summary ≡ spec.unjudged_summary part.now) }
{
    Ok(Summary {
        parts: 1,
        lines: unjudged_lines(alloc, part)?,
        level: Level::NotJudged,
        committed: true,
        ends: Some(Ends {
            first: text_of(alloc, part)?,
            initial: None,
            last: None,
        }),
    })
}

/// What is said of a run that was judged and has one part alone.
fn judged_summary(
    alloc: Global,
    part: &[u8],
    report: &Report,
    initial: Table,
    last: Table,
) -> Result<Summary, NoMemory>
    ensures { IfOk result (λ summary. summary ≡ spec.judged_summary part.now report.now initial last) }
{
    let lines = report_lines(alloc, part, report)?;
    let first = text_of(alloc, part)?;
    Ok(Summary {
        parts: 1,
        lines,
        level: Level::of(report.level),
        committed: !is_idle(report),
        ends: Some(Ends {
            first,
            initial: Some(initial),
            last: Some(last),
        }),
    })
}

/// Returns the summary of a run that has only the part of this name.
pub fn part_summary(alloc: Global, part: &str, outcome: Outcome) -> Result<Summary, NoMemory>
    ensures { IfOk result (λ summary. summary ≡ spec.part_summary part.now outcome) }
{
    let part = part.as_bytes();
    match outcome {
        Outcome::Judged {
            report,
            initial,
            last,
        } => judged_summary(alloc, part, &report, initial, last),
        Outcome::Refused(_) | Outcome::Unreadable => unjudged_summary(alloc, part),
    }
}
