//! Steps and retries of engines with each of their allocations failing in turn. Log and sessions are unchanged, and the
//! same call, when repeated with memory, returns the usual result.

ghost use Rattle.std.specs.Prelude.{◌<◌, length};
ghost use Rattle.lab_engine.specs.Limits.{max_events};

use lab_engine::{Engine, EngineFault, Level, LogEvent, MAX_EVENTS, Outcome};
use lab_levels::on_engine;
use lab_refusal_tests::{refuse, was_refused};
use lab_script::{Line, Script, parse_script};
use lab_table::{NoMemory, Session};
use std::alloc::{AllocError, Global};
use std::process::Abort;
use std::test::Fail;

/// Two transactions update one row.
pub const TWO_UPDATES: &[u8] =
    b"setup (1, 10);\nbegin; -- T1\nbegin; -- T2\nupdate test set value = 11 where id = 1; -- T1\nupdate test set value = 12 where id = 1; -- T2\ncommit; -- T1\ncommit; -- T2\n";

/// The place of the retry among the events where the second update waits.
const RETRY: usize = 5;

/// What an engine answered, by a word and up to two numbers: those of a transaction or a session, or a row's listed and
/// written values.
pub type Told = (&'static str, i64, i64);

/// The events where the second update waits for the first one's transaction.
pub const WAITING: &[Told] = &[
    ("begun", 1, 0),
    ("begun", 2, 0),
    ("rows", 10, 11),
    ("waits", 1, 0),
    ("committed", 0, 0),
    ("rows", 11, 12),
    ("committed", 0, 0),
];

/// The events where nobody waits, and the second commit conflicts with the first.
const CONFLICTING: &[Told] = &[
    ("begun", 1, 0),
    ("begun", 2, 0),
    ("rows", 10, 11),
    ("rows", 10, 12),
    ("committed", 0, 0),
    ("conflict", 1, 1),
];

/// An outcome's word and numbers.
pub fn told(outcome: &Outcome) -> Told {
    match outcome {
        Outcome::Begun(number) => ("begun", i64::from(number.number()), 0),
        Outcome::Rows { rows, writes, .. } => {
            let ([listed], [written]) = (rows.entries(), writes.entries()) else {
                return ("other rows", 0, 0);
            };
            let lab_history::State::Present(value) = written.1 else {
                return ("no row", 0, 0);
            };
            ("rows", listed.1.number(), value.number())
        }
        Outcome::Committed => ("committed", 0, 0),
        Outcome::Aborted => ("aborted", 0, 0),
        Outcome::Waits { on } => match on.as_slice() {
            [session] => ("waits", i64::from(session.number()), 0),
            _ => ("waits for others", 0, 0),
        },
        Outcome::Refused(EngineFault::WriteConflict { row, by }) => (
            "conflict",
            i64::from(row.id.number()),
            i64::from(by.number()),
        ),
        Outcome::Refused(_) => ("refused", 0, 0),
    }
}

/// Whether a log has so many of these events.
pub fn has_told(log: &[LogEvent], count: usize, events: &[Told]) -> bool {
    for (event, due) in log.iter().zip(events) {
        if told(&event.outcome) != *due {
            return false;
        }
    }
    log.len() == count
}

/// How the turns of a play are taken.
#[derive(Clone, Copy)]
pub struct Play {
    /// Whether the second update waits for the first one's transaction.
    pub waits: bool,
    /// Whether a call answers a copy of what it logs.
    pub copies: bool,
}

/// What an engine says of a session: whether it is active, whether it waits, and whether it is the retryable one.
fn said<E: Engine>(engine: &E, session: Session) -> (bool, bool, bool) {
    (
        engine.is_active(session),
        engine.is_waiting(session),
        engine.retryable() == Some(session),
    )
}

/// What an engine says of the two sessions.
fn said_of_both<E: Engine>(engine: &E) -> Option<[(bool, bool, bool); 2]> {
    let first = said(engine, Session::new(1)?);
    let second = said(engine, Session::new(2)?);
    Some([first, second])
}

/// Whether there was an answer, which the log tells.
fn logged(answer: Result<Outcome, NoMemory>) -> Result<(), NoMemory> {
    drop(answer?);
    Ok(())
}

/// Retries the retryable session.
fn retry_turn<E: Engine>(alloc: Global, engine: &mut E, copies: bool) -> Result<(), NoMemory>
    requires { length (E.events engine.old) < max_events }
{
    match engine.retryable() {
        Some(session) => {
            if !engine.is_waiting(session) {
                Err(AllocError)
            } else if copies {
                logged(engine.retry(alloc, session))
            } else {
                engine.log_retry(alloc, session)
            }
        }
        None => Err(AllocError),
    }
}

/// Steps a line.
fn step_turn<E: Engine>(
    alloc: Global,
    engine: &mut E,
    line: &Line,
    copies: bool,
) -> Result<(), NoMemory>
    requires { length (E.events engine.old) < max_events }
{
    if copies {
        logged(engine.step(alloc, line.session, &line.command))
    } else {
        engine.log_step(alloc, line.session, &line.command)
    }
}

/// Takes the turn of the event at a place: the retry, or a line's step.
fn turn<E: Engine>(
    alloc: Global,
    engine: &mut E,
    lines: &[Line],
    play: Play,
    place: usize,
) -> Result<(), NoMemory> {
    if engine.log().len() >= MAX_EVENTS {
        return Err(AllocError);
    }
    if play.waits && place == RETRY {
        return retry_turn(alloc, engine, play.copies);
    }
    let line = if play.waits && place > RETRY {
        place - 1
    } else {
        place
    };
    match lines.get(line) {
        Some(line) => step_turn(alloc, engine, line, play.copies),
        None => Err(AllocError),
    }
}

/// Takes the turns of the events before a place.
pub fn turns_before<E: Engine>(
    alloc: Global,
    engine: &mut E,
    lines: &[Line],
    play: Play,
    place: usize,
) -> Result<(), NoMemory> {
    for before in 0..place {
        turn(alloc, engine, lines, play, before)?;
    }
    Ok(())
}

/// Takes an engine's turn at a place with an allocation refused, and says whether one was; or else what isn't as it has
/// to be.
fn is_turn_refused<E: Engine>(
    alloc: Global,
    engine: &mut E,
    lines: &[Line],
    play: Play,
    place: usize,
    growth: u16,
) -> Result<bool, &'static str> {
    let events = if play.waits { WAITING } else { CONFLICTING };
    let before = said_of_both(engine);
    refuse(alloc, growth);
    let answer = turn(alloc, engine, lines, play, place);
    let refused = was_refused(alloc);
    if answer.is_err() {
        if !refused {
            return Err("an answer");
        }
        if !has_told(engine.log(), place, events) || said_of_both(engine) != before {
            return Err("all as before");
        }
        turn(alloc, engine, lines, play, place)
            .ok()
            .ok_or("memory")?;
    }
    if !has_told(engine.log(), place.wrapping_add(1), events) {
        return Err("the answer of a fresh engine");
    }
    Ok(refused)
}

/// The same of a fresh engine, which takes the turns before that.
pub fn is_refused<E: Engine + Drop>(
    alloc: Global,
    engine: E,
    lines: &[Line],
    play: Play,
    place: usize,
    growth: u16,
) -> Result<bool, &'static str> {
    let mut engine = engine;
    let refused = match turns_before(alloc, &mut engine, lines, play, place) {
        Ok(()) => is_turn_refused(alloc, &mut engine, lines, play, place, growth),
        Err(_) => Err("memory"),
    };
    drop(engine);
    refused
}

/// The same at a level.
fn is_refused_at(
    alloc: Global,
    level: Level,
    copies: bool,
    script: &Script,
    place: usize,
    growth: u16,
) -> Result<bool, &'static str> {
    let play = Play {
        waits: matches!(level, Level::Locking | Level::Committed),
        copies,
    };
    let setup = script.setup.copy(alloc).ok().ok_or("memory")?;
    let lines = script.lines.as_slice();
    on_engine!(
        level,
        alloc,
        setup,
        |engine| is_refused(alloc, engine, lines, play, place, growth)
    )
}

/// Fails where a turn isn't right with one of its allocations refused, or has no last allocation.
fn shows_turn(
    rt: &impl Abort,
    alloc: Global,
    level: Level,
    copies: bool,
    script: &Script,
    place: usize,
) -> Result<(), &'static str> {
    let mut answered = false;
    for growth in 1..1_000u16 {
        if !is_refused_at(alloc, level, copies, script, place, growth)? {
            answered = true;
            break;
        }
    }
    assert!(rt; answered, "{level:?}, event {place}");
    Ok(())
}

/// The same of the turns of so many events.
fn shows_turns(
    rt: &impl Abort,
    alloc: Global,
    level: Level,
    copies: bool,
    script: &Script,
    events: usize,
) -> Result<(), &'static str> {
    for place in 0..events {
        shows_turn(rt, alloc, level, copies, script, place)?;
    }
    Ok(())
}

/// The same at each level.
fn shows_levels(
    rt: &impl Abort,
    alloc: Global,
    copies: bool,
    script: &Script,
) -> Result<(), &'static str> {
    shows_turns(rt, alloc, Level::Locking, copies, script, 7)?;
    shows_turns(rt, alloc, Level::Committed, copies, script, 7)?;
    shows_turns(rt, alloc, Level::Snapshot, copies, script, 6)?;
    shows_turns(rt, alloc, Level::Optimistic, copies, script, 6)
}

/// The same of the script.
fn shows_calls(rt: &impl Abort, alloc: Global, copies: bool) -> Result<(), &'static str> {
    let script = parse_script(alloc, TWO_UPDATES);
    let script = script.ok().ok_or("a script")?;
    let shown = shows_levels(rt, alloc, copies, &script);
    drop(script);
    shown
}

#[test]
fn a_step_that_is_refused_memory_leaves_the_engine(rt: HostRuntime) -> Result<(), Fail> {
    shows_calls(&rt, rt.alloc(), true)?;
    Ok(())
}

#[test]
fn a_step_without_an_answer_that_is_refused_memory_leaves_the_engine(
    rt: HostRuntime,
) -> Result<(), Fail> {
    shows_calls(&rt, rt.alloc(), false)?;
    Ok(())
}
