//! The seats that are returned at the end of a run, correct and spoiled.

ghost use Rattle.std.specs.Prelude.{◌<◌, length};

use crate::plain_close::is_answered;
use lab_engine::LogEvent;
use lab_locking::LockEngine;
use lab_session::{Bench, Lab, Seat};
use lab_table::{Command, NoMemory, Session, Table};
use std::alloc::Global;
use std::sync::Wait;

/// How the seats come to differ from the log.
#[derive(Clone, Copy)]
pub enum Spoil {
    Nothing,
    /// A command isn't given.
    LeftOut,
    /// A command is given twice.
    GivenTwice,
    /// A command is given behind the next one.
    Exchanged,
    /// Another session has a command before it, so that what follows has other places.
    Moved,
    /// Row 1 has another value at the begin.
    OtherValue,
    /// A seat isn't handed in.
    SeatMissing,
    /// A second seat of a session is handed in.
    SeatRepeated,
    /// Seats of more sessions are handed in.
    MoreSeats,
}

/// The events of a log that a lab is to run, by their index; past its end for a command of another session.
fn plan(alloc: Global, count: usize, spoil: Spoil, at: usize) -> Result<Vec<usize>, NoMemory> {
    let mut plan = Vec::new(alloc);
    for index in 0..count {
        add_index(
            &mut plan,
            count,
            if index == at { spoil } else { Spoil::Nothing },
            index,
        )?;
    }
    if matches!(spoil, Spoil::Exchanged) && at < plan.len().saturating_sub(1) {
        plan.swap(at, at + 1);
    }
    Ok(plan)
}

/// Adds an event to a plan, as it is spoiled.
fn add_index(
    plan: &mut Vec<usize>,
    count: usize,
    spoil: Spoil,
    index: usize,
) -> Result<(), NoMemory> {
    match spoil {
        Spoil::LeftOut => Ok(()),
        Spoil::GivenTwice => plan.extend_from_slice(&[index, index]),
        Spoil::Moved => plan.extend_from_slice(&[count, index]),
        _ => plan.extend_from_slice(&[index]),
    }
}

/// The session and the command of an answered event, or else a command that session 9 has in its place.
fn asked(alloc: Global, event: Option<&LogEvent>) -> Option<(Session, Command)> {
    match event {
        Some(event) if is_answered(&event.outcome) => {
            Some((event.session, event.command.copy(alloc).ok()?))
        }
        _ => Some((Session::new(9)?, Command::Commit)),
    }
}

/// The seats of nine sessions, after a lab over a table has run what is planned. It ends where a command would wait, as the shadow
/// says, which runs the same.
fn seated<R: Wait>(
    rt: &R,
    alloc: Global,
    lab: Table,
    shadow: Table,
    log: &[LogEvent],
    plan: &[usize],
) -> Option<Vec<Seat>> {
    let mut shadow = Bench::new(LockEngine::new(alloc, shadow));
    let Ok((lab, mut seats)) = Lab::start(alloc, LockEngine::new(alloc, lab), 9) else {
        drop(shadow);
        return None;
    };
    let ran = run_plan(rt, alloc, &lab, &mut shadow, &mut seats, log, plan);
    drop(lab);
    drop(shadow);
    ran.and(Some(seats))
}

/// Has a lab run what is planned, up to a command that the shadow doesn't answer.
fn run_plan<R: Wait>(
    rt: &R,
    alloc: Global,
    lab: &Lab<LockEngine>,
    shadow: &mut Bench<LockEngine>,
    seats: &mut Vec<Seat>,
    log: &[LogEvent],
    plan: &[usize],
) -> Option<()> {
    for index in plan {
        if !has_run(rt, alloc, lab, shadow, seats, log.get(*index))? {
            break;
        }
    }
    Some(())
}

/// Has a lab run the command of an event, if the shadow answers it; false where it doesn't.
fn has_run<R: Wait>(
    rt: &R,
    alloc: Global,
    lab: &Lab<LockEngine>,
    shadow: &mut Bench<LockEngine>,
    seats: &mut Vec<Seat>,
    event: Option<&LogEvent>,
) -> Option<bool> {
    let (session, command) = asked(alloc, event)?;
    let place = usize::from(session.number()) - 1;
    let answered = answers(alloc, shadow, session, &command);
    if answered != Some(true) || place >= seats.len() {
        drop(command);
        return answered.and(Some(false));
    }
    submit(rt, alloc, lab, seats, place, command).and(Some(true))
}

/// Whether a bench answers a command, which it runs.
fn answers(
    alloc: Global,
    bench: &mut Bench<LockEngine>,
    session: Session,
    command: &Command,
) -> Option<bool> {
    let Ok(receipt) = bench.step(alloc, session, command) else {
        return None;
    };
    let is_answered = is_answered(&receipt.outcome);
    drop(receipt);
    Some(is_answered)
}

/// Has a lab run a command of the seat at a place.
fn submit<R: Wait>(
    rt: &R,
    alloc: Global,
    lab: &Lab<LockEngine>,
    seats: &mut Vec<Seat>,
    place: usize,
    command: Command,
) -> Option<()>
    requires { place < length seats.old.items }
{
    match lab.submit(rt, alloc, seats.remove(place), command) {
        Ok(seat) => seats.insert(place, seat).ok(),
        Err((seat, _)) => {
            drop(seat);
            None
        }
    }
}

/// A new seat of the session at a place.
fn spare(alloc: Global, place: usize) -> Option<Seat> {
    let engine = LockEngine::new(alloc, Table::new(alloc));
    let Ok((lab, seats)) = Lab::start(alloc, engine, 9) else {
        return None;
    };
    drop(lab);
    let mut seats = seats;
    let seat = taken(&mut seats, place);
    drop(seats);
    seat
}

/// Takes out the seat at a place.
fn taken(seats: &mut Vec<Seat>, place: usize) -> Option<Seat> {
    if place < seats.len() {
        Some(seats.remove(place))
    } else {
        None
    }
}

/// Seats, and their sessions.
#[derive(Drop)]
pub struct Handed {
    pub owners: Vec<Session>,
    pub seats: Vec<Seat>,
}

/// So many sessions, from 1 on.
fn sessions(alloc: Global, count: usize) -> Option<Vec<Session>> {
    Vec::from_slice(alloc, Session::ALL.get(..count)?).ok()
}

/// Leaves out the seat at a place.
fn leave_out(seats: &mut Vec<Seat>, owners: &mut Vec<Session>, place: usize) -> Option<()> {
    if place >= owners.len() || place >= seats.len() {
        return None;
    }
    owners.remove(place);
    drop(seats.remove(place));
    Some(())
}

/// Adds a second seat of the session at a place.
fn repeat(
    alloc: Global,
    seats: &mut Vec<Seat>,
    owners: &mut Vec<Session>,
    place: usize,
) -> Option<()> {
    let owner = *owners.get(place)?;
    owners.push(owner).ok()?;
    match spare(alloc, place) {
        Some(seat) => seats.push(seat).ok(),
        None => None,
    }
}

/// Leaves of the seats of nine sessions what is handed in where three are there, and says whose they are.
fn spoil_seats(
    alloc: Global,
    seats: &mut Vec<Seat>,
    spoil: Spoil,
    place: usize,
) -> Option<Vec<Session>> {
    let mut owners = sessions(alloc, 3)?;
    seats.truncate(3);
    let spoiled = match spoil {
        Spoil::SeatMissing => leave_out(seats, &mut owners, place),
        Spoil::SeatRepeated => repeat(alloc, seats, &mut owners, place),
        _ => Some(()),
    };
    spoiled.and(Some(owners))
}

/// What is handed in of the seats of nine sessions.
fn hand_in(alloc: Global, seats: Vec<Seat>, spoil: Spoil, at: usize) -> Option<Handed> {
    let mut seats = seats;
    let owners = match spoil {
        Spoil::MoreSeats => sessions(alloc, 9),
        _ => spoil_seats(alloc, &mut seats, spoil, at % 3),
    };
    let Some(owners) = owners else {
        drop(seats);
        return None;
    };
    Some(Handed { owners, seats })
}

/// What is handed in of a lab over a table that runs a log as it is spoiled.
pub fn handed_over<R: Wait>(
    rt: &R,
    alloc: Global,
    lab: Table,
    shadow: Table,
    log: &[LogEvent],
    spoil: Spoil,
    at: usize,
) -> Option<Handed> {
    let Ok(plan) = plan(alloc, log.len(), spoil, at) else {
        drop(lab);
        drop(shadow);
        return None;
    };
    let seats = seated(rt, alloc, lab, shadow, log, &plan);
    drop(plan);
    hand_in(alloc, seats?, spoil, at)
}
