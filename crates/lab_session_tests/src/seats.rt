//! Seats with which a lab can't be closed.

use crate::calls::{asked, closed, resumed, setup_of, with_seat};
use crate::engines::QuietEngine;
use lab_session::{CloseFault, Lab, LabFault, Seat};
use lab_table::{Command, Session, Statement, StatementKind, Table, TableName};
use std::alloc::Global;
use std::sync::Wait;
use std::test::Fail;

/// A lab and its seats, where a close with them is refused with this fault.
fn refused(
    alloc: Global,
    lab: Lab<QuietEngine>,
    seats: Vec<Seat>,
    due: CloseFault,
) -> Option<(Lab<QuietEngine>, Vec<Seat>)> {
    let (lab, seats, fault) = closed(alloc, lab, seats).err()?;
    if fault == due {
        Some((lab, seats))
    } else {
        drop(lab);
        drop(seats);
        None
    }
}

/// Whether a close of a lab with its seats is refused with this fault.
fn is_refused(alloc: Global, lab: Lab<QuietEngine>, seats: Vec<Seat>, due: CloseFault) -> bool {
    let handed_back = refused(alloc, lab, seats, due);
    let is_refused = handed_back.is_some();
    drop(handed_back);
    is_refused
}

/// A lab of two sessions that asked nothing, and their seats.
fn resting(alloc: Global) -> Option<(Lab<QuietEngine>, Vec<Seat>)> {
    let engine = QuietEngine::new(alloc, Table::new(alloc));
    Lab::start(alloc, engine, 2).ok()
}

/// The last seat, after a resume that is refused since nothing waits.
fn taken_out<R: Wait>(
    rt: &R,
    alloc: Global,
    lab: &Lab<QuietEngine>,
    seats: &mut Vec<Seat>,
) -> Option<Seat> {
    let seat = seats.pop()?;
    let (seat, fault) = resumed(rt, alloc, lab, seat);
    if fault == Some(LabFault::NothingWaiting) {
        Some(seat)
    } else {
        drop(seat);
        None
    }
}

/// Whether a lab is closed with these seats and a further one.
fn closes_with(alloc: Global, lab: Lab<QuietEngine>, seats: Vec<Seat>, seat: Seat) -> bool {
    let Some(seats) = with_seat(seats, seat) else {
        drop(lab);
        return false;
    };
    let made = closed(alloc, lab, seats);
    let is_closed = made.is_ok();
    drop(made);
    is_closed
}

/// Whether a lab isn't closed without this seat, which is this fault, and is with it.
fn closes_with_both(
    alloc: Global,
    lab: Lab<QuietEngine>,
    seats: Vec<Seat>,
    seat: Seat,
    missing: CloseFault,
) -> bool {
    match refused(alloc, lab, seats, missing) {
        Some((lab, seats)) => closes_with(alloc, lab, seats, seat),
        None => {
            drop(seat);
            false
        }
    }
}

/// The same of this session's seat in a lab of two that asked nothing, of which it is the second.
fn closes_later<R: Wait>(rt: &R, alloc: Global, session: Session) -> bool {
    let Some((lab, mut seats)) = resting(alloc) else {
        return false;
    };
    let Some(second) = taken_out(rt, alloc, &lab, &mut seats) else {
        drop(lab);
        drop(seats);
        return false;
    };
    let missing = CloseFault::SeatMissing { session };
    closes_with_both(alloc, lab, seats, second, missing)
}

#[test]
fn a_missing_seat_is_handed_in_later(rt: HostRuntime) -> Result<(), Fail> {
    let session = Session::new(2).ok_or("a session")?;
    assert!(rt; closes_later(&rt, rt.alloc(), session));
    Ok(())
}

/// A lab of one session over a table, and its seat.
fn lab_of(alloc: Global, setup: &[u8]) -> Option<(Lab<QuietEngine>, Vec<Seat>)> {
    let engine = QuietEngine::new(alloc, setup_of(alloc, setup)?);
    Lab::start(alloc, engine, 1).ok()
}

const TEN: &[u8] = b"setup (1, 10)";

const TWENTY: &[u8] = b"setup (1, 20)";

/// A begin and a select of all rows by the last seat.
fn looked<R: Wait>(
    rt: &R,
    alloc: Global,
    lab: &Lab<QuietEngine>,
    seats: &mut Vec<Seat>,
) -> Option<()> {
    let seat = asked(rt, alloc, lab, seats.pop()?, Command::Begin)?;
    let select = Command::Run(Statement {
        table: TableName::test(),
        kind: StatementKind::Select { pred: None },
    });
    seats.push(asked(rt, alloc, lab, seat, select)?).ok()
}

/// A lab of one session over such a table, and its seat, after a begin and a select.
fn looked_at<R: Wait>(
    rt: &R,
    alloc: Global,
    setup: &[u8],
) -> Option<(Lab<QuietEngine>, Vec<Seat>)> {
    let (lab, mut seats) = lab_of(alloc, setup)?;
    if looked(rt, alloc, &lab, &mut seats).is_none() {
        drop(lab);
        drop(seats);
        return None;
    }
    Some((lab, seats))
}

/// The seat of a lab of its own over such a table, after a begin and a select.
fn foreign<R: Wait>(rt: &R, alloc: Global, setup: &[u8]) -> Option<Vec<Seat>> {
    let (lab, seats) = looked_at(rt, alloc, setup)?;
    drop(lab);
    Some(seats)
}

/// The seats, and the last one of others.
fn with_last(seats: Vec<Seat>, others: Vec<Seat>) -> Option<Vec<Seat>> {
    let mut others = others;
    let last = others.pop();
    drop(others);
    let Some(seat) = last else {
        drop(seats);
        return None;
    };
    with_seat(seats, seat)
}

/// Whether a close of a lab of this one session is refused with a foreign seat alone since its second receipt differs, and
/// with the lab's own too since the session has two.
fn is_refused_twice(
    alloc: Global,
    session: Session,
    lab: Lab<QuietEngine>,
    own: Vec<Seat>,
    foreign: Vec<Seat>,
) -> bool {
    let differs = CloseFault::ReceiptDiffers { session, place: 2 };
    let Some((lab, seats)) = refused(alloc, lab, foreign, differs) else {
        drop(own);
        return false;
    };
    match with_last(seats, own) {
        Some(seats) => is_refused(alloc, lab, seats, CloseFault::SeatRepeated { session }),
        None => {
            drop(lab);
            false
        }
    }
}

/// The same of labs of session 1 after a begin and a select over tables with other values.
fn both_end<R: Wait>(rt: &R, alloc: Global, session: Session) -> bool {
    let Some(foreign) = foreign(rt, alloc, TWENTY) else {
        return false;
    };
    match looked_at(rt, alloc, TEN) {
        Some((lab, own)) => is_refused_twice(alloc, session, lab, own, foreign),
        None => {
            drop(foreign);
            false
        }
    }
}

/// The seat of the other lab has the same commands at the same places, answered by an engine of its own, as a `submit`
/// would leave it that steps another engine than the one that is closed. No contract of `submit` names the log.
#[test]
fn answers_of_another_engine_end_in_close(rt: HostRuntime) -> Result<(), Fail> {
    let session = Session::new(1).ok_or("a session")?;
    assert!(rt; both_end(&rt, rt.alloc(), session));
    Ok(())
}

/// Whether a close of a lab of session 1 that was asked nothing is refused with the seat of one that was, since its first
/// receipt differs.
fn ends_at_once<R: Wait>(rt: &R, alloc: Global, session: Session) -> bool {
    let Some(foreign) = foreign(rt, alloc, TEN) else {
        return false;
    };
    let Some((lab, own)) = lab_of(alloc, TEN) else {
        drop(foreign);
        return false;
    };
    drop(own);
    let differs = CloseFault::ReceiptDiffers { session, place: 1 };
    is_refused(alloc, lab, foreign, differs)
}

/// The seat of the other lab has two calls, and nothing was asked of this one.
#[test]
fn a_call_that_an_empty_log_lacks_ends_in_close(rt: HostRuntime) -> Result<(), Fail> {
    let session = Session::new(1).ok_or("a session")?;
    assert!(rt; ends_at_once(&rt, rt.alloc(), session));
    Ok(())
}
