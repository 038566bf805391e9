//! The sentences of a snapshot verdict. Functions that take bytes append; on failure, a part of the text may have been
//! appended.

ghost use Rattle.std.specs.Prelude.{◌≡◌, ◌++◌, None, option_map, flat_map, OnOk};
ghost use Rattle.lab_judge.specs.Runs.{span_of, spans_of};
ghost use Rattle.lab_explain.specs.Places.{later, last_before, behind_text, start_text, span_text, untold_text, told_spans, each_text, point_text, before_text, circle_text, spans_text, circle_sentence, places_sentence, places_lines};

use crate::lines::{put_natural, put_paragraph};
use crate::phrases::{
    behind_words, circle_head, commit_words, commits_words, first_words, place_words, places_words,
    spans_head, start_words,
};
use lab_judge::{Places, Point};
use lab_table::{NoMemory, TxnNo};
use std::alloc::Global;

/// A transaction with the places of its start and its commit.
type Placed = (TxnNo, u32, u32);

/// Of so many transactions the places are told.
const TOLD: usize = 10;

/// A transaction, if it committed before a place, and behind the one that is found so far; else that one.
fn later(place: u32, span: Placed, found: Option<Placed>) -> Option<Placed>
    ensures { option_map span_of result ≡ later place (span_of span) (option_map span_of found) }
{
    match found {
        None => { if span.2 < place { Some(span) } else { None } }
        Some(other) => {
            if span.2 < place && other.2 < span.2 {
                Some(span)
            } else {
                Some(other)
            }
        }
    }
}

/// Who committed last before a place, if one did.
fn last_before(place: u32, spans: &[Placed]) -> Option<Placed>
    ensures { option_map span_of result ≡ last_before place None (spans_of spans.now) }
{
    let mut found = None;
    for span in spans {
        found = later(place, *span, found);
    }
    found
}

/// Appends behind whose commit a transaction reads.
fn put_behind(out: &mut Vec<u8>, found: Option<Placed>) -> Result<(), NoMemory>
    ensures { OnOk result (out.new.items ≡ out.old.items ++ behind_text (option_map span_of found)) }
{
    match found {
        None => out.extend_from_slice(first_words()),
        Some((txn, _, _)) => {
            out.extend_from_slice(behind_words())?;
            put_natural(out, u64::from(txn.number()))?;
            out.extend_from_slice(b",")
        }
    }
}

/// Appends behind whose commit among these a place is.
fn put_last_before(out: &mut Vec<u8>, place: u32, spans: &[Placed]) -> Result<(), NoMemory>
    ensures { OnOk result (out.new.items ≡ out.old.items ++ behind_text (last_before place None (spans_of spans.now))) }
{
    put_behind(out, last_before(place, spans))
}

/// Appends a transaction, the place of its start, and behind whose commit among these that is.
#[tactic(auto, unfolding(crate::specs::Places::start_text))]
fn put_start(out: &mut Vec<u8>, spans: &[Placed], txn: TxnNo, start: u32) -> Result<(), NoMemory>
    ensures { OnOk result (out.new.items ≡ out.old.items ++ start_text (spans_of spans.now) txn start) }
{
    out.extend_from_slice(b" T")?;
    put_natural(out, u64::from(txn.number()))?;
    out.extend_from_slice(place_words())?;
    put_natural(out, u64::from(start))?;
    put_last_before(out, start, spans)
}

/// Appends the same, and the place of its commit.
#[tactic(auto, unfolding(crate::specs::Places::span_text))]
fn put_span(
    out: &mut Vec<u8>,
    spans: &[Placed],
    txn: TxnNo,
    start: u32,
    commit: u32,
) -> Result<(), NoMemory>
    ensures { OnOk result (out.new.items ≡ out.old.items ++ span_text (spans_of spans.now) (span_of (txn, start, commit))) }
{
    put_start(out, spans, txn, start)?;
    out.extend_from_slice(commits_words())?;
    put_natural(out, u64::from(commit))?;
    out.extend_from_slice(b".")
}

/// Appends transactions with the places of their starts and commits among these.
fn put_told_spans(out: &mut Vec<u8>, spans: &[Placed], told: &[Placed]) -> Result<(), NoMemory>
    ensures { OnOk result (out.new.items ≡ out.old.items ++ flat_map (span_text (spans_of spans.now)) (spans_of told.now)) }
{
    for (txn, start, commit) in told {
        put_span(out, spans, *txn, *start, *commit)?;
    }
    Ok(())
}

/// The transactions whose places are told.
fn told_spans(spans: &[Placed]) -> &[Placed]
    ensures { spans_of result.now ≡ told_spans (spans_of spans.now) }
{
    &spans[..spans.len().min(TOLD)]
}

/// Appends how many places aren't told.
#[tactic(auto, unfolding(crate::specs::Places::untold_text))]
fn put_untold(out: &mut Vec<u8>, count: u64) -> Result<(), NoMemory>
    ensures { OnOk result (out.new.items ≡ out.old.items ++ untold_text count) }
{
    out.extend_from_slice(places_words())?;
    put_natural(out, count)?;
    out.extend_from_slice(b" more.")
}

/// Appends transactions with the places of their starts and commits: the first ten, and how many there are besides.
#[tactic(auto, unfolding(crate::specs::Places::each_text))]
fn put_each_span(out: &mut Vec<u8>, spans: &[Placed]) -> Result<(), NoMemory>
    ensures { OnOk result (out.new.items ≡ out.old.items ++ each_text (spans_of spans.now)) }
{
    put_told_spans(out, spans, told_spans(spans))?;
    let count = spans.len();
    if TOLD < count {
        put_untold(out, (count - TOLD) as u64)?;
    }
    Ok(())
}

/// Appends a start or a commit.
fn put_point(out: &mut Vec<u8>, point: Point) -> Result<(), NoMemory>
    ensures { OnOk result (out.new.items ≡ out.old.items ++ point_text point) }
{
    match point {
        Point::Start(txn) => {
            out.extend_from_slice(start_words())?;
            put_natural(out, u64::from(txn.number()))
        }
        Point::Commit(txn) => {
            out.extend_from_slice(commit_words())?;
            put_natural(out, u64::from(txn.number()))
        }
    }
}

/// Appends a start or a commit that has to come before the next.
#[tactic(auto, unfolding(crate::specs::Places::before_text))]
fn put_before(out: &mut Vec<u8>, point: Point) -> Result<(), NoMemory>
    ensures { OnOk result (out.new.items ≡ out.old.items ++ before_text point) }
{
    put_point(out, point)?;
    out.extend_from_slice(b" before ")
}

/// Appends starts and commits, each before the next.
fn put_each_before(out: &mut Vec<u8>, points: &[Point]) -> Result<(), NoMemory>
    ensures { OnOk result (out.new.items ≡ out.old.items ++ flat_map before_text points.now) }
{
    for point in points {
        put_before(out, *point)?;
    }
    Ok(())
}

/// Appends starts and commits, of which each has to come before the next, and the last before the first.
fn put_circle(out: &mut Vec<u8>, points: &[Point]) -> Result<(), NoMemory>
    ensures { OnOk result (out.new.items ≡ out.old.items ++ circle_text points.now) }
{
    if let Some(first) = points.first() {
        put_each_before(out, points)?;
        put_point(out, *first)?;
    }
    Ok(())
}

/// Appends the sentences of a snapshot run.
#[tactic(auto, unfolding(crate::specs::Places::spans_text))]
fn put_spans(out: &mut Vec<u8>, spans: &[Placed]) -> Result<(), NoMemory>
    ensures { OnOk result (out.new.items ≡ out.old.items ++ spans_text (spans_of spans.now)) }
{
    out.extend_from_slice(spans_head())?;
    put_each_span(out, spans)
}

/// Appends the sentence of what is no snapshot run.
#[tactic(auto, unfolding(crate::specs::Places::circle_sentence))]
fn put_circle_sentence(out: &mut Vec<u8>, points: &[Point]) -> Result<(), NoMemory>
    ensures { OnOk result (out.new.items ≡ out.old.items ++ circle_sentence points.now) }
{
    out.extend_from_slice(circle_head())?;
    put_circle(out, points)?;
    out.extend_from_slice(b".")
}

/// Appends the sentence of a snapshot verdict.
pub fn put_sentence(out: &mut Vec<u8>, snapshot: &Places) -> Result<(), NoMemory>
    ensures { OnOk result (out.new.items ≡ out.old.items ++ places_sentence snapshot.now) }
{
    match snapshot {
        Places::Yes(spans) => put_spans(out, spans.as_slice()),
        Places::NoFault(_) => out.extend_from_slice(b"Not a snapshot run, by the same fault."),
        Places::NoCycle(circle) => put_circle_sentence(out, circle.as_slice()),
    }
}

/// Appends the lines of a snapshot verdict.
pub fn put_places_lines(alloc: Global, out: &mut Vec<u8>, snapshot: &Places) -> Result<(), NoMemory>
    ensures { OnOk result (out.new.items ≡ out.old.items ++ places_lines snapshot.now) }
{
    let mut text = Vec::new(alloc);
    put_sentence(&mut text, snapshot)?;
    put_paragraph(out, &text)
}
