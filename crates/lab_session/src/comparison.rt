//! The lists of all seats beside a log, compared in one walk of it.

ghost use Rattle.std.specs.Prelude.{◌≡◌, ◌≤◌, ℕ, List, [], ◌∷◌, ◌++◌, cond, IsTrue, ◌↔◌, MatchOption};
ghost use Rattle.std.specs.Option.{IsSomeAnd};
ghost use Rattle.lab_table.specs.Sessions.{of_session};
ghost use Rattle.lab_engine.specs.Recording.{is_answer};
ghost use Rattle.lab_script.specs.Ranges.{SessionInRange};
ghost use Rattle.lab_session.specs.declared.seat.Call.{Call as Called};
ghost use Rattle.lab_session.specs.Seats.{Seated, call_at, placed_calls};
ghost use Rattle.lab_session.specs.Closing.{seats_of, AgreeOf, DifferAt};
ghost use Rattle.lab_session.specs.Compared.{Fits, Says};

use crate::seat::{Call, Seat, is_answered};
use lab_engine::LogEvent;
use lab_table::{PerSession, Session};

/// How far the list of a session's seat is its session's calls in the events of a log that were walked.
#[derive(Clone, Copy)]
pub(crate) enum Comparison<'a> {
    /// The session has no seat.
    Unseated,
    /// The calls so far are the first of the seat's, so many.
    Agrees { calls: &'a [Call], met: usize },
    /// They differ first at this place, counted from 1.
    Differs { place: usize },
}

/// Whether a call is that of an event at a place.
fn is_call_at(call: &Call, place: usize, event: &LogEvent) -> bool
    ensures { IsTrue result ↔ (call.now ≡ call_at place event.now) }
{
    call.receipt.place == place
        && call.command.equals(&event.command)
        && call.receipt.outcome.equals(&event.outcome)
}

impl<'a> Comparison<'a> {
    /// The comparison of a session before the first event.
    fn new(seats: &'a [Seat], session: Session) -> Comparison<'a>
        ensures { (all : List Called) → Says seats.now session all all result }
    {
        for seat in seats {
            if seat.session() == session {
                let calls = seat.calls();
                return Comparison::Agrees { calls, met: 0 };
            }
        }
        Comparison::Unseated
    }

    /// The comparison behind one more event of the session, at a place.
    fn after(self, place: usize, event: &LogEvent) -> Comparison<'a>
        requires { Fits self }
        ensures { (seats : List Seated) (session : ℕ) (all rest : List Called) → Says seats session all (cond (is_answer event.now.outcome) (call_at place event.now ∷ []) [] ++ rest) self.entry
            → Says seats session all rest result }
    {
        if !is_answered(&event.outcome) {
            return self;
        }
        let Comparison::Agrees { calls, met } = self else {
            return self;
        };
        if met >= calls.len() || !is_call_at(&calls[met], place, event) {
            return Comparison::Differs { place: met + 1 };
        }
        Comparison::Agrees {
            calls,
            met: met + 1,
        }
    }

    /// The first place at which the seat's list isn't the session's calls, behind the last event.
    pub(crate) fn difference(self) -> Option<usize>
        requires { Fits self }
        ensures { (log : _) (seats : List Seated) (session : ℕ) → seats_of session seats ≤ 1 → Says seats session (placed_calls session log) [] self.entry
            → MatchOption result (AgreeOf log seats session) (DifferAt log seats session) }
    {
        match self {
            Comparison::Unseated => None,
            Comparison::Agrees { calls, met } => {
                if met < calls.len() {
                    Some(met + 1)
                } else {
                    None
                }
            }
            Comparison::Differs { place } => Some(place),
        }
    }
}

/// The comparisons of all sessions before the first event.
fn unwalked<'a>(seats: &'a [Seat]) -> PerSession<Comparison<'a>>
    ensures { (session : ℕ) (all : List Called) → SessionInRange session → IsSomeAnd (of_session result session) (Says seats.now session all all) }
{
    let mut comparisons = PerSession::all(Comparison::Unseated);
    for session in Session::ALL {
        comparisons.set(session, Comparison::new(seats, session));
    }
    comparisons
}

/// The comparisons of all sessions behind the last event of a log.
pub(crate) fn compared<'a>(seats: &'a [Seat], log: &[LogEvent]) -> PerSession<Comparison<'a>>
    ensures { (session : ℕ) → SessionInRange session → IsSomeAnd (of_session result session) (Says seats.now session (placed_calls session log.now) []) }
{
    let mut comparisons = unwalked(seats);
    for (before, event) in log.iter().enumerate() {
        let comparison = comparisons.get(event.session).after(before + 1, event);
        comparisons.set(event.session, comparison);
    }
    comparisons
}
