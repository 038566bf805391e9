//! What there is to say of one engine's play.

ghost use Rattle.std.specs.Prelude.{◌≡◌, map, IfOk};
ghost use Rattle.std.specs.Option.{option_copied};
ghost use Rattle.lab_matrix.specs.MatrixText.{cell_text, snapshot_mark};
ghost use Rattle.lab_reports.specs.Shortfall.{is_present, first_found};
ghost use Rattle.lab_compare.specs.Alike.{column_text};
ghost use Rattle.lab_compare.specs.Comparison.{end_text, explained, lowest, side_of, summary_of};
ghost use Rattle.lab_compare.specs.Topics.{said_in, topic_text, topic_told};

use crate::cells::{Cell, cells_of};
use crate::commits::{Commits, commits_of};
use crate::telling::{Bytes, Content, Telling};
use lab_commands::put_rows;
use lab_engine::{Level, Recording};
use lab_explain::explanation;
use lab_history::History;
use lab_judge::{Finding, Places, Report};
use lab_levels::level_name;
use lab_reports::Phenomenon;
use lab_script::Line;
use lab_table::{NoMemory, Sequence};
use std::alloc::Global;

/// The play of a script on the engine of a level: what its commits install, and what there is to say of it.
#[derive(Drop)]
pub struct Side {
    pub level: Level,
    pub commits: Commits,
    pub summary: Summary,
}

/// What there is to say of a play and of its judgement.
#[derive(Drop)]
pub struct Summary {
    /// What each line came to.
    pub cells: Sequence<Cell>,
    /// The committed rows in the end.
    pub end: Sequence<u8>,
    /// The level that the history meets.
    pub grade: Sequence<u8>,
    /// What `explain` says of its lowest phenomenon; empty where it has none.
    pub explained: Sequence<u8>,
}

/// What a side may be asked to tell.
#[derive(Clone, Copy, Debug, PartialEq, Eq)]
pub enum Topic {
    /// What the line at a place was answered.
    Answer { place: usize },
    /// The committed rows in the end.
    End,
    /// What `explain` says of its lowest phenomenon.
    Explained,
}

/// What stands in a column of sides.
#[derive(Clone, Copy, Debug, PartialEq, Eq)]
pub enum Column {
    /// The name of the engine.
    Engine,
    /// The level that the history meets.
    Grade,
}

/// What a line was answered.
fn said_in(cell: Option<&Cell>) -> &[u8]
    ensures { result.now ≡ said_in (option_copied cell.entry) }
{
    match cell {
        Some(cell) => cell.said.as_slice(),
        None => b"",
    }
}

impl Side {
    /// The text of a topic.
    fn topic(&self, of: Topic) -> &[u8]
        ensures { result.now ≡ topic_text of self.now }
    {
        match of {
            Topic::Answer { place } => said_in(self.summary.cells.as_slice().get(place)),
            Topic::End => self.summary.end.as_slice(),
            Topic::Explained => self.summary.explained.as_slice(),
        }
    }

    /// What its engine tells of a topic.
    fn tell(&self, of: Topic) -> Telling<'_>
        ensures { result ≡ topic_told of self.now }
    {
        Telling {
            level: self.level,
            content: Content::Text(Bytes::new(self.topic(of))),
        }
    }

    /// What stands in its column.
    pub fn in_column(&self, of: Column) -> &[u8]
        ensures { result.now ≡ column_text of self.now }
    {
        match of {
            Column::Engine => level_name(self.level).as_bytes(),
            Column::Grade => self.summary.grade.as_slice(),
        }
    }
}

/// What each engine tells of a topic.
pub fn topic_told(alloc: Global, of: Topic, sides: &[Side]) -> Result<Vec<Telling<'_>>, NoMemory>
    ensures { IfOk result (λ told. told.items ≡ map (topic_told of) sides.now) }
{
    let mut told = Vec::with_capacity(alloc, sides.len())?;
    for side in sides {
        told.push(side.tell(of))?;
    }
    Ok(told)
}

/// The committed rows in the end of a history.
fn end_of(alloc: Global, history: &History) -> Result<Sequence<u8>, NoMemory>
    ensures { IfOk result (λ text. text ≡ end_text history.now) }
{
    let mut text = Vec::new(alloc);
    text.extend_from_slice(b"rows ")?;
    put_rows(&mut text, history.end_table().rows())?;
    Ok(Sequence::new(text))
}

/// ` SI` where a history is a snapshot run, else nothing.
fn mark(places: &Places) -> &'static str
    ensures { result.now ≡ snapshot_mark places.now }
{
    match places {
        Places::Yes(_) => " SI",
        Places::NoFault(_) | Places::NoCycle(_) => "",
    }
}

/// The level that a history meets, as the matrix has it.
fn grade_of(alloc: Global, report: &Report) -> Result<Sequence<u8>, NoMemory>
    ensures { IfOk result (λ text. text ≡ cell_text report.now) }
{
    let mut text = Vec::new(alloc);
    text.extend_from_slice(report.level.name().as_bytes())?;
    text.extend_from_slice(mark(&report.snapshot).as_bytes())?;
    Ok(Sequence::new(text))
}

fn is_present(finding: &Finding) -> bool
    ensures { result ≡ is_present finding.now }
{
    matches!(finding, Finding::Walk(_) | Finding::At { .. })
}

/// The first of some phenomena that is present.
fn first_present(report: &Report, among: &[Phenomenon]) -> Option<Phenomenon>
    ensures { result ≡ first_found is_present report.now among.now }
{
    for phenomenon in among {
        if is_present(phenomenon.found_in(report)) {
            return Some(*phenomenon);
        }
    }
    None
}

/// The lowest phenomenon that is present, if there is one.
fn lowest(report: &Report) -> Option<Phenomenon>
    ensures { result ≡ lowest report.now }
{
    first_present(report, &Phenomenon::ALL)
}

/// What `explain` says of a phenomenon; empty where there is none.
fn explained(
    alloc: Global,
    history: &History,
    report: &Report,
    phenomenon: Option<Phenomenon>,
) -> Result<Sequence<u8>, NoMemory>
    ensures { IfOk result (λ text. text ≡ explained history.now report.now phenomenon) }
{
    match phenomenon {
        None => Ok(Sequence::new(Vec::new(alloc))),
        Some(lowest) => Ok(Sequence::new(explanation(alloc, history, report, Some(lowest))?)),
    }
}

/// What there is to say of the recording of a play and of its report.
fn summary_of(
    alloc: Global,
    lines: &[Line],
    recording: &Recording,
    report: &Report,
) -> Result<Summary, NoMemory>
    ensures { IfOk result (λ summary. summary ≡ summary_of lines.now recording.now report.now) }
{
    let history = recording.history();
    Ok(Summary {
        cells: cells_of(alloc, recording.log(), lines)?,
        end: end_of(alloc, history)?,
        grade: grade_of(alloc, report)?,
        explained: explained(alloc, history, report, lowest(report))?,
    })
}

/// What the commits of a recording install, and what there is to say of it and of its report.
pub fn side_of(
    alloc: Global,
    level: Level,
    lines: &[Line],
    recording: &Recording,
    report: &Report,
) -> Result<Side, NoMemory>
    ensures { IfOk result (λ side. side ≡ side_of level lines.now recording.now report.now) }
{
    Ok(Side {
        level,
        commits: commits_of(alloc, recording)?,
        summary: summary_of(alloc, lines, recording, report)?,
    })
}
