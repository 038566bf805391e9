//! Why: the sentences of the verdict, beside its picture. Functions that take bytes append; on failure, a part of the
//! text may have been appended.

ghost use Rattle.std.specs.Prelude.{◌≡◌, ◌++◌, OnOk};
ghost use Rattle.lab_page.specs.Why.{opening_of, opening_text, serial_heading, heading_of, why_open, sentences_text, why_told, why_drawn, why_text};
ghost use Rattle.lab_drawing.specs.Sketch.{drawing_of};
ghost use Rattle.lab_overview.specs.Figure.{figure_text};

use crate::tags::{opening_open, sentences_close, sentences_open, why_close, why_head};
use crate::why_steps::{put_behind_steps, put_steps};
use lab_drawing::{Drawing, draw, put_escaped};
use lab_evidence::{Scope, told_cycle};
use lab_explain::{put_found_sentence, put_serial_sentence};
use lab_history::History;
use lab_judge::{Report, Serial};
use lab_overview::put_figure;
use lab_reports::Phenomenon;
use lab_table::NoMemory;
use std::alloc::Global;

/// Appends the first sentence.
fn put_opening_sentence(
    out: &mut Vec<u8>,
    history: &History,
    report: &Report,
    asked: Option<Phenomenon>,
) -> Result<(), NoMemory>
    ensures { OnOk result (out.new.items ≡ out.old.items ++ opening_of history.now report.now asked) }
{
    match asked {
        None => put_serial_sentence(out, &report.serial),
        Some(phenomenon) => {
            put_found_sentence(out, history, phenomenon, phenomenon.found_in(report))
        }
    }
}

/// Appends the first sentence as it stands in the page.
#[tactic(auto, unfolding(crate::specs::Why::opening_text))]
fn put_opening(out: &mut Vec<u8>, sentence: &[u8]) -> Result<(), NoMemory>
    ensures { OnOk result (out.new.items ≡ out.old.items ++ opening_text sentence.now) }
{
    out.extend_from_slice(opening_open())?;
    put_escaped(out, sentence)?;
    out.extend_from_slice(b"</p>\n")
}

fn serial_heading(serial: &Serial) -> &'static [u8]
    ensures { result.now ≡ serial_heading serial.now }
{
    match serial {
        Serial::Yes(_) => b"An order that gives every row",
        Serial::NoFault(_) => b"What is wrong",
        Serial::NoCycle(_) => b"Why no order fits",
    }
}

/// The heading.
fn heading_of(report: &Report, asked: Option<Phenomenon>) -> &'static [u8]
    ensures { result.now ≡ heading_of report.now asked }
{
    match asked {
        None => serial_heading(&report.serial),
        Some(_) => b"What is found",
    }
}

/// Appends the beginning.
#[tactic(auto, unfolding(crate::specs::Why::why_open))]
fn put_why_open(out: &mut Vec<u8>, heading: &[u8]) -> Result<(), NoMemory>
    ensures { OnOk result (out.new.items ≡ out.old.items ++ why_open heading.now) }
{
    out.extend_from_slice(why_head())?;
    out.extend_from_slice(heading)?;
    out.extend_from_slice(sentences_open())
}

/// Appends the sentences.
#[tactic(auto, unfolding(crate::specs::Why::sentences_text))]
fn put_sentences(
    alloc: Global,
    out: &mut Vec<u8>,
    history: &History,
    scope: &Scope,
    report: &Report,
    asked: Option<Phenomenon>,
) -> Result<(), NoMemory>
    ensures { OnOk result (out.new.items ≡ out.old.items ++ sentences_text history.now scope.now report.now asked) }
{
    let mut opening = Vec::new(alloc);
    put_opening_sentence(&mut opening, history, report, asked)?;
    put_opening(out, &opening)?;
    put_steps(alloc, out, history, scope, report, asked)?;
    put_behind_steps(out, told_cycle(report, asked))
}

/// Appends the picture of a drawing.
fn put_drawing_figure(out: &mut Vec<u8>, drawing: &Drawing, picture: &[u8]) -> Result<(), NoMemory>
    ensures { OnOk result (out.new.items ≡ out.old.items ++ figure_text drawing.now.columns picture.now) }
{
    put_figure(out, &drawing.columns, picture)
}

/// Appends the picture.
fn put_report_figure(
    alloc: Global,
    out: &mut Vec<u8>,
    history: &History,
    report: &Report,
    asked: Option<Phenomenon>,
    picture: &[u8],
) -> Result<(), NoMemory>
    ensures { OnOk result (out.new.items ≡ out.old.items ++ figure_text (drawing_of history.now report.now asked).columns picture.now) }
{
    let drawing = draw(alloc, history, report, asked)?;
    put_drawing_figure(out, &drawing, picture)
}

/// Appends the heading and the sentences.
#[tactic(auto, unfolding(crate::specs::Why::why_told))]
fn put_why_told(
    alloc: Global,
    out: &mut Vec<u8>,
    history: &History,
    scope: &Scope,
    report: &Report,
    asked: Option<Phenomenon>,
) -> Result<(), NoMemory>
    ensures { OnOk result (out.new.items ≡ out.old.items ++ why_told history.now scope.now report.now asked) }
{
    put_why_open(out, heading_of(report, asked))?;
    put_sentences(alloc, out, history, scope, report, asked)?;
    out.extend_from_slice(sentences_close())
}

/// Appends the picture, and the end of the part.
#[tactic(auto, unfolding(crate::specs::Why::why_drawn))]
fn put_why_drawn(
    alloc: Global,
    out: &mut Vec<u8>,
    history: &History,
    report: &Report,
    asked: Option<Phenomenon>,
    picture: &[u8],
) -> Result<(), NoMemory>
    ensures { OnOk result (out.new.items ≡ out.old.items ++ why_drawn (drawing_of history.now report.now asked).columns picture.now) }
{
    put_report_figure(alloc, out, history, report, asked, picture)?;
    out.extend_from_slice(why_close())
}

/// Appends the whole part.
#[tactic(auto, unfolding(crate::specs::Why::why_text))]
pub fn put_why(
    alloc: Global,
    out: &mut Vec<u8>,
    history: &History,
    scope: &Scope,
    report: &Report,
    asked: Option<Phenomenon>,
    picture: &[u8],
) -> Result<(), NoMemory>
    ensures { OnOk result (out.new.items ≡ out.old.items ++ why_text history.now scope.now report.now asked picture.now) }
{
    put_why_told(alloc, out, history, scope, report, asked)?;
    put_why_drawn(alloc, out, history, report, asked, picture)
}
