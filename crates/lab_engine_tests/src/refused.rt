//! Benches on each engine that play whole scripts, with each allocation of each call failing in turn. A call returns
//! `NoMemory` and nothing else, log and sessions are unchanged, and the script then plays as without the failure. A
//! commit, even a conflicting one, and an abort allocate nothing.

ghost use Rattle.std.specs.Prelude.{◌≡◌, []};

use crate::scripts::SCRIPTS;
use lab_engine::{Engine, EngineFault, Level, Outcome};
use lab_levels::{LEVELS, on_engine};
use lab_refusal_tests::{refuse, was_refused};
use lab_script::{Line, Script, parse_script};
use lab_session::{Bench, BenchFault, CloseFault, Receipt, print_log};
use lab_table::Session;
use std::alloc::Global;
use std::test::Fail;

/// What the next turn of a bench came to.
#[derive(Clone, Copy)]
enum Turn {
    Retried,
    Stepped,
    /// A step that ends a transaction.
    Ended,
    Closed,
    NoMemory,
    /// Another refusal.
    Wrong,
}

fn of_fault(fault: Option<BenchFault>, done: Turn) -> Turn {
    match fault {
        None => done,
        Some(BenchFault::NoMemory) => Turn::NoMemory,
        Some(BenchFault::Full) => Turn::Wrong,
    }
}

/// Whether an answer ends a transaction that was to commit or abort.
fn is_end(outcome: &Outcome) -> bool {
    match outcome {
        Outcome::Committed | Outcome::Aborted => true,
        Outcome::Refused(fault) => matches!(
            fault,
            EngineFault::WriteConflict { .. } | EngineFault::ReadConflict { .. }
        ),
        _ => false,
    }
}

fn of_step(answer: Result<Receipt, BenchFault>) -> Turn {
    match answer {
        Ok(receipt) => {
            let ends = is_end(&receipt.outcome);
            drop(receipt);
            if ends { Turn::Ended } else { Turn::Stepped }
        }
        Err(fault) => of_fault(Some(fault), Turn::Stepped),
    }
}

/// Takes the next turn: the retry that is due, else the line that is, else the close.
fn take_turn<E: Engine>(alloc: Global, bench: &mut Bench<E>, line: Option<&Line>) -> Turn {
    if let Some(session) = bench.retryable() {
        if !bench.is_waiting(session) {
            return Turn::Wrong;
        }
        return of_fault(bench.retry(alloc, session).err(), Turn::Retried);
    }
    match line {
        Some(line) => of_step(bench.step(alloc, line.session, &line.command)),
        None => match bench.close(alloc, 0, &[]).err() {
            None => Turn::Closed,
            Some(CloseFault::NoMemory) => Turn::NoMemory,
            Some(_) => Turn::Wrong,
        },
    }
}

/// What a bench's log reads.
fn logged<E: Engine>(alloc: Global, bench: &Bench<E>) -> Option<Vec<u8>> {
    let Ok(recording) = bench.close(alloc, 0, &[]) else {
        return None;
    };
    let text = print_log(alloc, &recording).ok();
    drop(recording);
    text
}

/// Which sessions of a bench wait, and which it would retry.
fn said<E: Engine>(bench: &Bench<E>) -> ([bool; 9], Option<Session>) {
    let mut waiting = [false; 9];
    for (place, session) in Session::ALL.iter().enumerate() {
        waiting[place] = bench.is_waiting(*session);
    }
    (waiting, bench.retryable())
}

/// Takes a turn with this allocation refused, and where that left no memory once more. What it came to, and whether an
/// allocation was refused; None where an answer isn't what is due, or the bench isn't as before after the refusal.
fn take_refused<E: Engine>(
    alloc: Global,
    growth: u16,
    bench: &mut Bench<E>,
    line: Option<&Line>,
) -> Option<(Turn, bool)> {
    let log = logged(alloc, bench)?;
    let before = said(bench);
    refuse(alloc, growth);
    let turn = take_turn(alloc, bench, line);
    let refused = was_refused(alloc);
    match turn {
        Turn::NoMemory => {}
        // An end asks for no memory.
        Turn::Ended if refused => return None,
        _ => return Some((turn, refused)),
    }
    if !refused || said(bench) != before || logged(alloc, bench)? != log {
        return None;
    }
    Some((take_turn(alloc, bench, line), refused))
}

/// Plays lines to the close, with this allocation refused of the turn at a place, counted from 0. Whether one was
/// refused there, and how many turns were taken; None where one isn't as is due.
fn play_lines<E: Engine>(
    alloc: Global,
    bench: &mut Bench<E>,
    lines: &[Line],
    place: usize,
    growth: u16,
) -> Option<(bool, usize)> {
    let mut given = 0;
    let mut refused = false;
    for turns in 0..2 * lines.len() + 1 {
        let line = lines.get(given);
        let turn = if turns == place {
            let (turn, was) = take_refused(alloc, growth, bench, line)?;
            refused = was;
            turn
        } else {
            take_turn(alloc, bench, line)
        };
        match turn {
            Turn::Retried => {}
            Turn::Stepped | Turn::Ended => given = given.saturating_add(1),
            Turn::Closed => return Some((refused, turns + 1)),
            Turn::NoMemory | Turn::Wrong => return None,
        }
    }
    None
}

/// A play of a script: whether an allocation was refused, how many turns it took, and its log.
#[derive(Drop)]
struct Play {
    refused: bool,
    turns: usize,
    log: Vec<u8>,
}

/// Plays lines on a fresh engine.
fn played<E: Engine + Drop>(
    alloc: Global,
    engine: E,
    lines: &[Line],
    place: usize,
    growth: u16,
) -> Option<Play>
    requires { E.events engine ≡ [] }
{
    let mut bench = Bench::new(engine);
    let took = play_lines(alloc, &mut bench, lines, place, growth);
    let log = logged(alloc, &bench);
    drop(bench);
    let (refused, turns) = took?;
    Some(Play {
        refused,
        turns,
        log: log?,
    })
}

/// Plays a script at a level.
fn played_at(
    alloc: Global,
    level: Level,
    script: &Script,
    place: usize,
    growth: u16,
) -> Option<Play> {
    let Ok(setup) = script.setup.copy(alloc) else {
        return None;
    };
    let lines = script.lines.as_slice();
    on_engine!(
        level,
        alloc,
        setup,
        |engine| played(alloc, engine, lines, place, growth)
    )
}

/// Plays a script with each allocation of the turn at a place refused in turn, until none is. How many there were; None
/// where a play isn't as that to which nothing was refused.
fn refusals_at(
    alloc: Global,
    level: Level,
    script: &Script,
    place: usize,
    due: &[u8],
) -> Option<u16> {
    for growth in 1..2_000u16 {
        let played = played_at(alloc, level, script, place, growth)?;
        let (refused, alike) = (played.refused, played.log.as_slice() == due);
        drop(played);
        if !alike {
            return None;
        }
        if !refused {
            return Some(growth - 1);
        }
    }
    None
}

/// The first of so many turns that isn't as is due, if there is one.
fn first_wrong(
    alloc: Global,
    level: Level,
    script: &Script,
    turns: usize,
    due: &[u8],
) -> Option<usize> {
    for place in 0..turns {
        if refusals_at(alloc, level, script, place, due).is_none() {
            return Some(place);
        }
    }
    None
}

/// The same of each turn of a play.
fn wrong_place(alloc: Global, level: Level, script: &Script) -> Option<usize> {
    match played_at(alloc, level, script, 0, 0) {
        Some(due) => {
            let wrong = first_wrong(alloc, level, script, due.turns, &due.log);
            drop(due);
            wrong
        }
        None => Some(0),
    }
}

/// The same of the script of this text; None where there is no script.
fn wrong_of(alloc: Global, level: Level, text: &[u8]) -> Option<Option<usize>> {
    match parse_script(alloc, text) {
        Ok(script) => {
            let wrong = wrong_place(alloc, level, &script);
            drop(script);
            Some(wrong)
        }
        Err(_) => None,
    }
}

#[test]
fn benches_that_are_refused_memory_are_as_before(rt: HostRuntime) -> Result<(), Fail> {
    for text in &SCRIPTS {
        for level in LEVELS {
            let wrong = wrong_of(rt.alloc(), level, text);
            assert!(rt;
                wrong == Some(None),
                "{text:?} at {level:?}: turn {wrong:?}"
            );
        }
    }
    Ok(())
}
