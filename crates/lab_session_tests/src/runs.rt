//! Whole runs of labs with one thread, on scripts in which no statement waits, with each allocation of each call
//! failing in turn. The call returns `NoMemory`, and when repeated it returns the usual result.

ghost use Rattle.std.specs.Prelude.{◌≡◌, []};

use crate::calls::{asked, closed, log_of, submitted};
use crate::listings::{LATE, LATE_LOG, RUNS};
use lab_engine::{Engine, Level, Recording};
use lab_levels::on_engine;
use lab_refusal_tests::{refuse, was_refused};
use lab_script::{Line, Script, parse_script};
use lab_session::{CloseFault, Lab, LabFault, Seat};
use lab_table::Command;
use std::alloc::Global;
use std::sync::Wait;
use std::test::Fail;

/// An allocation of a call: the call's place in the run, where 0 is the lab's start, and which of its allocations, or none
/// at 0. And whether the seats are handed in by falling sessions.
#[derive(Clone, Copy)]
pub struct Refused {
    call: usize,
    growth: u16,
    falling: bool,
}

/// Nothing is refused.
pub const NOTHING: Refused = Refused {
    call: 0,
    growth: 0,
    falling: false,
};

impl Refused {
    /// What is refused at a call.
    fn at(self, call: usize) -> u16 {
        if call == self.call { self.growth } else { 0 }
    }

    /// The same run with nothing refused.
    fn without(self) -> Refused {
        Refused {
            call: self.call,
            growth: 0,
            falling: self.falling,
        }
    }
}

/// Submits the copy of a command to a seat that was handed back as it was, for want of memory.
fn submitted_again<E: Engine + Drop, R: Wait>(
    rt: &R,
    alloc: Global,
    lab: &Lab<E>,
    seat: Seat,
    command: &Command,
) -> Option<Seat> {
    match command.copy(alloc) {
        Ok(command) => asked(rt, alloc, lab, seat, command),
        Err(_) => {
            drop(seat);
            None
        }
    }
}

/// Submits a command with this allocation refused, and where it had no memory once more. And whether one was refused.
fn submitted_at_last<E: Engine + Drop, R: Wait>(
    rt: &R,
    alloc: Global,
    lab: &Lab<E>,
    seat: Seat,
    command: &Command,
    growth: u16,
    was: &mut bool,
) -> Option<Seat> {
    let Ok(copy) = command.copy(alloc) else {
        drop(seat);
        return None;
    };
    let calls = seat.calls().len();
    refuse(alloc, growth);
    let (seat, fault) = submitted(rt, alloc, lab, seat, copy);
    let refused = was_refused(alloc);
    *was = *was || refused;
    if fault.is_none() {
        return Some(seat);
    }
    let is_as_it_was = seat.calls().len() == calls;
    if !refused || fault != Some(LabFault::NoMemory { waiting: false }) || !is_as_it_was {
        drop(seat);
        return None;
    }
    submitted_again(rt, alloc, lab, seat, command)
}

/// The same of a line, by its session's seat.
fn line_submitted<E: Engine + Drop, R: Wait>(
    rt: &R,
    alloc: Global,
    lab: &Lab<E>,
    seats: &mut Vec<Seat>,
    line: &Line,
    growth: u16,
    was: &mut bool,
) -> Option<()> {
    let place = usize::from(line.session.number()) - 1;
    if place >= seats.len() {
        return None;
    }
    let seat = seats.remove(place);
    let seat = submitted_at_last(rt, alloc, lab, seat, &line.command, growth, was)?;
    seats.insert(place, seat).ok()
}

/// The same of all lines, the first of which is call 1.
pub fn all_submitted<E: Engine + Drop, R: Wait>(
    rt: &R,
    alloc: Global,
    lab: &Lab<E>,
    seats: &mut Vec<Seat>,
    lines: &[Line],
    refused: Refused,
    was: &mut bool,
) -> Option<()> {
    for (index, line) in lines.iter().enumerate() {
        let growth = refused.at(index.saturating_add(1));
        line_submitted(rt, alloc, lab, seats, line, growth, was)?;
    }
    Some(())
}

/// Closes a lab with this allocation refused, and where it had no memory once more. And whether one was refused.
fn closed_at_last<E: Engine + Drop>(
    alloc: Global,
    lab: Lab<E>,
    seats: Vec<Seat>,
    growth: u16,
    was: &mut bool,
) -> Option<Recording> {
    refuse(alloc, growth);
    let made = closed(alloc, lab, seats);
    let refused = was_refused(alloc);
    *was = *was || refused;
    match made {
        Ok(recording) => Some(recording),
        Err((lab, seats, fault)) => {
            if !refused || fault != CloseFault::NoMemory {
                drop(lab);
                drop(seats);
                return None;
            }
            closed(alloc, lab, seats).ok()
        }
    }
}

/// What a run has met: whether an allocation was refused, and whether its lab was started.
#[derive(Clone, Copy)]
struct Met {
    refused: bool,
    started: bool,
}

const NOT_STARTED: Met = Met {
    refused: false,
    started: false,
};

/// The recording of a run in a lab of two sessions. Its start is call 0, and its close the call behind the last line.
fn recorded<E: Engine + Drop, R: Wait>(
    rt: &R,
    alloc: Global,
    engine: E,
    lines: &[Line],
    refused: Refused,
    met: &mut Met,
) -> Option<Recording>
    requires { E.events engine ≡ [] }
{
    refuse(alloc, refused.at(0));
    let made = Lab::start(alloc, engine, 2);
    met.refused = was_refused(alloc);
    let Ok((lab, mut seats)) = made else {
        return None;
    };
    met.started = true;
    let was = &mut met.refused;
    let submitted = all_submitted(rt, alloc, &lab, &mut seats, lines, refused, was);
    if submitted.is_none() {
        drop(lab);
        drop(seats);
        return None;
    }
    if refused.falling {
        seats.reverse();
    }
    let growth = refused.at(lines.len().saturating_add(1));
    closed_at_last(alloc, lab, seats, growth, was)
}

/// The same on the engine of a level.
fn recorded_at<R: Wait>(
    rt: &R,
    alloc: Global,
    level: Level,
    script: &Script,
    refused: Refused,
    met: &mut Met,
) -> Option<Recording> {
    let Ok(setup) = script.setup.copy(alloc) else {
        return None;
    };
    let lines = script.lines.as_slice();
    on_engine!(
        level,
        alloc,
        setup,
        |engine| recorded(rt, alloc, engine, lines, refused, met)
    )
}

/// The same, and where the lab had no memory to start once more.
fn recorded_again<R: Wait>(
    rt: &R,
    alloc: Global,
    level: Level,
    script: &Script,
    refused: Refused,
    met: &mut Met,
) -> Option<Recording> {
    let recording = recorded_at(rt, alloc, level, script, refused, met);
    if met.started || !met.refused {
        return recording;
    }
    drop(recording);
    let mut again = NOT_STARTED;
    recorded_at(rt, alloc, level, script, refused.without(), &mut again)
}

/// Whether an allocation was refused in a run of a script; None where its log isn't what is due.
fn refused_once<R: Wait>(
    rt: &R,
    alloc: Global,
    level: Level,
    script: &Script,
    due: &[u8],
    refused: Refused,
) -> Option<bool> {
    let mut met = NOT_STARTED;
    let recording = recorded_again(rt, alloc, level, script, refused, &mut met)?;
    if log_of(alloc, recording)?.as_slice() == due {
        Some(met.refused)
    } else {
        None
    }
}

const MOST_GROWTHS: u16 = 2_000;

/// Whether each allocation of a call of a run may be refused.
fn is_right_at<R: Wait>(
    rt: &R,
    alloc: Global,
    level: Level,
    script: &Script,
    due: &[u8],
    call: usize,
    falling: bool,
) -> bool {
    for growth in 1..MOST_GROWTHS {
        let refused = Refused {
            call,
            growth,
            falling,
        };
        match refused_once(rt, alloc, level, script, due, refused) {
            Some(true) => {}
            Some(false) => return true,
            None => return false,
        }
    }
    false
}

/// The first call of a run of which an allocation may not be refused.
fn first_wrong<R: Wait>(
    rt: &R,
    alloc: Global,
    level: Level,
    text: &[u8],
    due: &[u8],
    falling: bool,
) -> Option<Option<usize>> {
    let Ok(script) = parse_script(alloc, text) else {
        return None;
    };
    let mut wrong = None;
    for call in 0..script.lines.as_slice().len().saturating_add(2) {
        if !is_right_at(rt, alloc, level, &script, due, call, falling) {
            wrong = Some(call);
            break;
        }
    }
    drop(script);
    Some(wrong)
}

#[test]
fn a_run_that_is_refused_memory_goes_on(rt: HostRuntime) -> Result<(), Fail> {
    for (level, text, due) in &RUNS {
        let wrong = first_wrong(&rt, rt.alloc(), *level, text, due, false);
        assert_eq!(rt; wrong, Some(None), "{level:?}");
    }
    Ok(())
}

#[test]
fn a_lab_that_is_refused_memory_is_as_before(rt: HostRuntime) -> Result<(), Fail> {
    let wrong = first_wrong(&rt, rt.alloc(), Level::Locking, LATE, LATE_LOG, true);
    assert_eq!(rt; wrong, Some(None));
    Ok(())
}
