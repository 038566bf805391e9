//! Calls of labs, for tests that need nothing of their contracts.

use lab_engine::{Engine, Recording};
use lab_script::{Script, parse_script};
use lab_session::{CloseFault, Lab, LabFault, Seat, print_log};
use lab_table::{Command, Table};
use std::alloc::Global;
use std::sync::Wait;

/// The table that a script begins with.
pub fn setup_of(alloc: Global, text: &[u8]) -> Option<Table> {
    match parse_script(alloc, text) {
        Ok(script) => {
            let Script { setup, lines } = script;
            drop(lines);
            Some(setup)
        }
        Err(_) => None,
    }
}

/// Submits a command. The seat, and why it was refused, if it was.
pub fn submitted<E: Engine + Drop, R: Wait>(
    rt: &R,
    alloc: Global,
    lab: &Lab<E>,
    seat: Seat,
    command: Command,
) -> (Seat, Option<LabFault>) {
    match lab.submit(rt, alloc, seat, command) {
        Ok(seat) => (seat, None),
        Err((seat, fault)) => (seat, Some(fault)),
    }
}

/// Goes on with what the seat holds. The seat, and why it was refused, if it was.
pub fn resumed<E: Engine + Drop, R: Wait>(
    rt: &R,
    alloc: Global,
    lab: &Lab<E>,
    seat: Seat,
) -> (Seat, Option<LabFault>) {
    match lab.resume(rt, alloc, seat) {
        Ok(seat) => (seat, None),
        Err((seat, fault)) => (seat, Some(fault)),
    }
}

/// Submits a command that is answered.
pub fn asked<E: Engine + Drop, R: Wait>(
    rt: &R,
    alloc: Global,
    lab: &Lab<E>,
    seat: Seat,
    command: Command,
) -> Option<Seat> {
    let (seat, fault) = submitted(rt, alloc, lab, seat, command);
    if fault.is_some() {
        drop(seat);
        return None;
    }
    Some(seat)
}

/// The seats, and a further one.
pub fn with_seat(seats: Vec<Seat>, seat: Seat) -> Option<Vec<Seat>> {
    let mut seats = seats;
    if seats.push(seat).ok().is_none() {
        drop(seats);
        return None;
    }
    Some(seats)
}

/// Closes a lab.
pub fn closed<E: Engine + Drop>(
    alloc: Global,
    lab: Lab<E>,
    seats: Vec<Seat>,
) -> Result<Recording, (Lab<E>, Vec<Seat>, CloseFault)> {
    lab.close(alloc, seats)
}

/// The text of the log of a recording.
pub fn log_of(alloc: Global, recording: Recording) -> Option<Vec<u8>> {
    let text = print_log(alloc, &recording).ok();
    drop(recording);
    text
}
