//! What each line of a script came to in a play.

ghost use Rattle.std.specs.Prelude.{◌≡◌, ◌++◌, ◌≤◌, [], None, cond, false, length, IfOk, OnOk};
ghost use Rattle.std.specs.Option.{option_copied};
ghost use Rattle.lab_compare.specs.Cells.{answer_text, last_after, last_text, answers_text, answers, answer_place, cell_of, left_after, left_behind, cells_from, cells_of};

use crate::told::{is_answer, put_behind};
use lab_commands::is_over;
use lab_engine::LogEvent;
use lab_script::Line;
use lab_session::put_outcome;
use lab_table::{NoMemory, PerSession, Sequence, Session};
use std::alloc::Global;

/// Most answers have at most so many bytes, and room for them is made at once.
const MOST_ANSWERS: usize = 32;

/// What a line of a script came to.
#[derive(Drop)]
pub struct Cell {
    /// What it was answered.
    pub said: Sequence<u8>,
    /// How many events there are from the one that answers it on to the end; 0 where none does.
    pub from_end: usize,
}

/// Appends what stands before the answer to a command that is tried again, behind the event that ended a transaction last.
fn put_last(out: &mut Vec<u8>, last: Option<&LogEvent>) -> Result<(), NoMemory>
    ensures { OnOk result (out.new.items ≡ out.old.items ++ last_text (option_copied last.entry)) }
{
    match last {
        None => out.extend_from_slice(b"; "),
        Some(event) => put_behind(out, event),
    }
}

/// The same, where the command waited.
fn put_lead(out: &mut Vec<u8>, waited: bool, last: Option<&LogEvent>) -> Result<(), NoMemory>
    ensures { OnOk result (out.new.items ≡ out.old.items ++ cond waited (last_text (option_copied last.entry)) []) }
{
    if waited { put_last(out, last) } else { Ok(()) }
}

/// Appends an event's own answer, behind the event that ended a transaction last where its command waited.
fn put_answer(
    out: &mut Vec<u8>,
    waited: bool,
    last: Option<&LogEvent>,
    event: &LogEvent,
) -> Result<(), NoMemory>
    ensures { OnOk result (out.new.items ≡ out.old.items ++ answer_text waited (option_copied last.entry) event.now) }
{
    put_lead(out, waited, last)?;
    put_outcome(out, &event.outcome)
}

/// The event that ended a transaction last, after an event.
fn last_after<'t>(event: &'t LogEvent, last: Option<&'t LogEvent>) -> Option<&'t LogEvent>
    ensures { option_copied result ≡ last_after event.now (option_copied last.entry) }
{
    if is_over(&event.outcome) {
        Some(event)
    } else {
        last
    }
}

/// Appends the answers to a session's next command.
fn put_answers(out: &mut Vec<u8>, session: Session, log: &[LogEvent]) -> Result<(), NoMemory>
    ensures { OnOk result (out.new.items ≡ out.old.items ++ answers_text session false None log.now) }
{
    let mut waited = false;
    let mut last = None;
    for event in log {
        if event.session != session {
            last = last_after(event, last);
            continue;
        }
        put_answer(out, waited, last, event)?;
        if is_answer(&event.outcome) {
            return Ok(());
        }
        waited = true;
        last = last_after(event, last);
    }
    Ok(())
}

/// Whether an event answers a command of a session.
fn answers(session: Session, event: &LogEvent) -> bool
    ensures { result ≡ answers session event.now }
{
    event.session == session && is_answer(&event.outcome)
}

/// How many events stand before the one that answers a session's next command.
fn answer_place(session: Session, log: &[LogEvent]) -> usize
    ensures value { result ≡ answer_place session log.now }
    ensures bound { result ≤ length log.now }
{
    log.iter()
        .take_while(|event| !answers(session, event))
        .count()
}

/// What a session's next command comes to, which is answered at this place.
fn cell_at(
    alloc: Global,
    session: Session,
    log: &[LogEvent],
    place: usize,
) -> Result<Cell, NoMemory>
    requires { place ≡ answer_place session log.now }
    ensures { IfOk result (λ cell. cell ≡ cell_of session log.now) }
{
    let mut said = Vec::with_capacity(alloc, MOST_ANSWERS)?;
    put_answers(&mut said, session, log)?;
    Ok(Cell {
        said: Sequence::new(said),
        from_end: log.len().saturating_sub(place),
    })
}

/// The events that a session has left behind its place.
fn left_of<'t>(log: &'t [LogEvent], places: &PerSession<usize>, session: Session) -> &'t [LogEvent]
    ensures { result.now ≡ left_behind log.now places.now session }
{
    let (_read, left) = log.split_at(places.get(session).min(log.len()));
    left
}

/// Notes that a session's next command is answered at this place of those that it has left.
fn note(log: &[LogEvent], places: &mut PerSession<usize>, session: Session, place: usize)
    requires { place ≡ answer_place session (left_behind log.now places.old session) }
    ensures { left_behind log.now places.new ≡ left_after (left_behind log.now places.old) session }
{
    let left = left_of(log, places, session).len();
    let behind = left.saturating_sub(place).saturating_sub(1);
    places.set(session, log.len().saturating_sub(behind));
}

/// What each of some lines comes to, where sessions have the events behind their places left.
fn cells_from(
    alloc: Global,
    log: &[LogEvent],
    begun: PerSession<usize>,
    lines: &[Line],
) -> Result<Vec<Cell>, NoMemory>
    ensures { IfOk result (λ cells. cells.items ≡ cells_from (left_behind log.now begun) lines.now) }
{
    let mut places = begun;
    let mut cells = Vec::with_capacity(alloc, lines.len())?;
    for line in lines {
        let left = left_of(log, &places, line.session);
        let place = answer_place(line.session, left);
        cells.push(cell_at(alloc, line.session, left, place)?)?;
        note(log, &mut places, line.session, place);
    }
    Ok(cells)
}

/// What each line of a script comes to, by the log of its play.
pub fn cells_of(alloc: Global, log: &[LogEvent], lines: &[Line]) -> Result<Sequence<Cell>, NoMemory>
    ensures { IfOk result (λ cells. cells ≡ cells_of log.now lines.now) }
{
    let cells = cells_from(alloc, log, PerSession::all(0), lines)?;
    Ok(Sequence::new(cells))
}
