//! A plain implementation of the end of a run, which reads the log again for each seat.

use lab_engine::{LogEvent, Outcome};
use lab_session::{Call, CloseFault, Seat};
use lab_table::Session;

pub fn is_answered(outcome: &Outcome) -> bool {
    !matches!(outcome, Outcome::Waits { .. })
}

fn is_call_at(call: &Call, place: usize, event: &LogEvent) -> bool {
    call.receipt.place == place
        && call.command.equals(&event.command)
        && call.receipt.outcome.equals(&event.outcome)
}

/// The first place, counted from 1, at which a list isn't the calls of a session in a log.
fn first_difference(calls: &[Call], session: Session, log: &[LogEvent]) -> Option<usize> {
    let mut index = 0usize;
    for (before, event) in log.iter().enumerate() {
        if event.session == session && is_answered(&event.outcome) {
            if index >= calls.len() || !is_call_at(&calls[index], before + 1, event) {
                return Some(index.saturating_add(1));
            }
            index = index.saturating_add(1);
        }
    }
    if index < calls.len() {
        return Some(index + 1);
    }
    None
}

/// The first place at which the list of a session's seat isn't its calls in a log. The seats' sessions are `owners`.
fn difference_of(
    owners: &[Session],
    seats: &[Seat],
    session: Session,
    log: &[LogEvent],
) -> Option<usize> {
    for (index, seat) in seats.iter().enumerate() {
        if owners.get(index) == Some(&session) {
            if let Some(place) = first_difference(seat.calls(), session, log) {
                return Some(place);
            }
        }
    }
    None
}

fn count_of(owners: &[Session], session: Session) -> usize {
    let mut count = 0usize;
    for owner in owners {
        if *owner == session {
            count = count.saturating_add(1);
        }
    }
    count
}

/// Why a bench of this log isn't closed with these seats, whose sessions are `owners`; None where it is.
pub fn plain_fault(
    log: &[LogEvent],
    sessions: u8,
    owners: &[Session],
    seats: &[Seat],
) -> Option<CloseFault> {
    for number in 1..10u8 {
        let session = Session::new(number)?;
        if count_of(owners, session) > 1 {
            return Some(CloseFault::SeatRepeated { session });
        }
    }
    for number in 1..10u8 {
        let session = Session::new(number)?;
        if number <= sessions && count_of(owners, session) == 0 {
            return Some(CloseFault::SeatMissing { session });
        }
    }
    for number in 1..10u8 {
        let session = Session::new(number)?;
        if let Some(place) = difference_of(owners, seats, session, log) {
            return Some(CloseFault::ReceiptDiffers { session, place });
        }
    }
    None
}
