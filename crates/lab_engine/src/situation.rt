//! The current state of an engine, computed from its log: sessions, row versions, wait-for graph.

ghost use Rattle.std.specs.Prelude.{◌≡◌, ◌<◌, ◌≤◌, ℕ, [], ◌∷◌, false, length, option_map, is_some, Contains, IfOk, IsTrue, OnOk, OnErr};
ghost use Rattle.std.specs.Prelude as list;
ghost use Rattle.std.specs.List.{list_all};
ghost use Rattle.std.specs.Option.{is_none};
ghost use Rattle.lab_engine.specs.declared.event.Level.{Level as Kind};
ghost use Rattle.lab_engine.specs.declared.event.Level.TheVariants.{Committed as ReadCommitted};
ghost use Rattle.lab_engine.specs.Limits.{max_events};
ghost use Rattle.lab_engine.specs.Log.{Past, past_of, active, waiting, begun_after};
ghost use Rattle.lab_engine.specs.EventQuery.{is_ending};
ghost use Rattle.lab_engine.specs.WaitsFor.{waits_for};
ghost use Rattle.lab_engine.specs.Situation.{Describes, DescribesAll, DescribesRows, HoldsOutcome, HasPlaces, all_sessions, keeps_statements, kept_of, running_of, waiting_of};

use crate::event::{LogEvent, Outcome};
use crate::kept_statement::kept_copy;
use crate::row_states::RowStates;
use crate::session_state::{RunningTxn, SessionState};
use crate::wait_graph::WaitGraph;
use lab_history::Writes;
use lab_table::{NoMemory, Session, Statement};
use std::alloc::Global;

/// The state of sessions and rows after a log.
#[derive(Drop)]
pub struct Situation {
    /// The sessions 1 to 9, in ascending order.
    pub sessions: [SessionState; 9],
    /// The versions of the rows, committed and uncommitted.
    pub rows: RowStates,
    /// For each session, the sessions that block its waiting statement.
    pub(crate) waits: WaitGraph,
    /// How many transactions have begun.
    pub begun: u32,
    /// How many events there were.
    pub events: usize,
}

impl Situation {
    /// The situation before any event; it takes no memory.
    pub(crate) fn new(alloc: Global) -> Situation
        ensures is { (level : Kind) → Describes level [] result }
        ensures waits { (session other : ℕ) → waits_for result.waits session other ≡ false }
    {
        Situation {
            sessions: idle_sessions(),
            rows: RowStates::new(alloc),
            waits: WaitGraph::none(),
            begun: 0,
            events: 0,
        }
    }

    /// Where these events leave sessions and rows, the oldest first; of who waits for whom it keeps nothing.
    /// NoMemory where an allocation was refused.
    pub(crate) fn after(alloc: Global, log: &[LogEvent]) -> Result<Situation, NoMemory>
        requires { length log.now ≤ max_events }
        ensures { IfOk result (Describes ReadCommitted (past_of log.now)) }
    {
        let mut situation = Situation::new(alloc);
        for event in log {
            let mut kept = situation.reserve(alloc, event, false)?;
            situation.take_in(alloc, event, &mut kept);
        }
        Ok(situation)
    }

    /// Returns the active transaction of `session`, or `None` if it has none.
    pub fn running(&self, session: Session) -> Option<&RunningTxn>
        ensures { option_map (λ r. r.now) result ≡ running_of self.now.sessions session }
    {
        running_in(&self.sessions, session)
    }

    /// Returns the waiting statement of `session`, or `None` if it doesn't wait.
    pub fn waiting(&self, session: Session) -> Option<&Statement>
        ensures { (level : Kind) (past : Past) → Describes level past self.now → option_map (λ s. s.now) result ≡ waiting past session }
    {
        waiting_in(&self.sessions, session)
    }

    /// Returns whether `session` has an active transaction.
    #[tactic(auto, using(crate::proofs::Describing::some_made, crate::proofs::Describing::some_agree))]
    pub fn is_active(&self, session: Session) -> bool
        ensures { (level : Kind) (past : Past) → Describes level past self.now → result ≡ is_some (active past session) }
    {
        self.running(session).is_some()
    }

    /// Returns whether a statement of `session` waits.
    pub fn is_waiting(&self, session: Session) -> bool
        ensures { (level : Kind) (past : Past) → Describes level past self.now → result ≡ is_some (waiting past session) }
    {
        self.waiting(session).is_some()
    }

    /// Whether no session waits.
    pub(crate) fn nobody_waits(&self) -> bool
        ensures { result ≡ list_all (λ state. is_none state.waits) self.now.sessions }
    {
        self.sessions.iter().all(|state| state.waits.is_none())
    }

    /// Makes room for an event, and copies its statement where that is kept: of one that ran if `keeps`. So `take_in`
    /// takes no memory. NoMemory where an allocation was refused; a transaction's end takes no memory.
    pub(crate) fn reserve(
        &mut self,
        alloc: Global,
        event: &LogEvent,
        keeps: bool,
    ) -> Result<Option<Statement>, NoMemory>
        requires { (level : Kind) × (past : Past) × Describes level past self.old }
        ensures same { (level : Kind) (past : Past) → Describes level past self.old → Describes level past self.new }
        ensures waits { self.new.waits ≡ self.old.waits }
        ensures copy { IfOk result (λ kept. kept ≡ kept_of keeps event.now.command event.now.outcome) }
        ensures room { IfOk result (λ kept. HoldsOutcome (is_some kept) event.now.outcome (running_of self.new.sessions event.now.session) self.new.rows) }
        ensures err { OnErr result (is_ending event.now.outcome ≡ false) }
    {
        let kept = kept_copy(alloc, event, keeps)?;
        self.reserve_room(alloc, event, kept.is_some())?;
        Ok(kept)
    }

    /// Makes room for what an event writes, and for its statement if `keeps`. NoMemory where an allocation was refused.
    fn reserve_room(&mut self, alloc: Global, event: &LogEvent, keeps: bool) -> Result<(), NoMemory>
        requires { (level : Kind) × (past : Past) × Describes level past self.old }
        ensures same { (level : Kind) (past : Past) → Describes level past self.old → Describes level past self.new }
        ensures waits { self.new.waits ≡ self.old.waits }
        ensures room { OnOk result (HoldsOutcome keeps event.now.outcome (running_of self.new.sessions event.now.session) self.new.rows) }
        ensures err { OnErr result (is_ending event.now.outcome ≡ false) }
    {
        match &event.outcome {
            Outcome::Rows { writes, .. } => {
                reserve_places(&mut self.sessions, event.session, keeps, writes)?;
                self.rows.reserve_each(alloc, writes)
            }
            _ => Ok(()),
        }
    }

    /// Goes on by one event, for which there is room, and of whose statement this is kept, but for who waits for whom.
    /// It can't fail: only the index of the statements may take memory.
    pub(crate) fn take_in(&mut self, alloc: Global, event: &LogEvent, kept: &mut Option<Statement>)
        requires few { (level : Kind) × (past : Past) × Describes level past self.old × (length past < max_events) }
        requires room { HoldsOutcome (is_some kept.old) event.now.outcome (running_of self.old.sessions event.now.session) self.old.rows }
        ensures waits { self.new.waits ≡ self.old.waits }
        ensures is { (level : Kind) (past : Past) → kept.old ≡ kept_of (keeps_statements level) event.now.command event.now.outcome
            → Describes level past self.old → Describes level (event.now ∷ past) self.new }
    {
        advance_session(
            alloc,
            &mut self.sessions,
            &mut self.rows,
            event,
            kept,
            self.events,
        );
        self.begun = begun_next(&event.outcome, self.begun);
        self.events += 1;
    }
}

/// The session with this number.
fn session_of(number: u8) -> Session
    requires low { 1 ≤ number }
    requires high { number ≤ 9 }
    ensures { result ≡ number }
{
    Session::new(number).unwrap()
}

/// Every session, with no transaction.
fn idle_sessions() -> [SessionState; 9]
    ensures sessions { list.map (λ state. state.session) result ≡ all_sessions }
    ensures waits { IsTrue (list_all (λ state. is_none state.waits) result) }
    ensures running { IsTrue (list_all (λ state. is_none state.running) result) }
{
    [
        SessionState::idle(session_of(1)),
        SessionState::idle(session_of(2)),
        SessionState::idle(session_of(3)),
        SessionState::idle(session_of(4)),
        SessionState::idle(session_of(5)),
        SessionState::idle(session_of(6)),
        SessionState::idle(session_of(7)),
        SessionState::idle(session_of(8)),
        SessionState::idle(session_of(9)),
    ]
}

fn running_in(states: &[SessionState], session: Session) -> Option<&RunningTxn>
    ensures { option_map (λ r. r.now) result ≡ running_of states.now session }
{
    for state in states {
        if state.session == session {
            return state.running.as_ref();
        }
    }
    None
}

fn waiting_in(states: &[SessionState], session: Session) -> Option<&Statement>
    ensures { option_map (λ s. s.now) result ≡ waiting_of states.now session }
{
    for state in states {
        if state.session == session {
            return state.waits.as_ref();
        }
    }
    None
}

/// Makes room in a session's transaction, if it has one, for the rows that it writes, and for one more statement if
/// `keeps`. NoMemory where an allocation was refused.
fn reserve_places(
    states: &mut [SessionState; 9],
    session: Session,
    keeps: bool,
    writes: &Writes,
) -> Result<(), NoMemory>
    requires { list.map (λ state. state.session) states.old ≡ all_sessions }
    ensures sessions { list.map (λ state. state.session) states.new ≡ all_sessions }
    ensures same { (level : Kind) (past : Past) → DescribesAll level past states.old → DescribesAll level past states.new }
    ensures places { OnOk result (HasPlaces keeps (running_of states.new session) writes.now) }
{
    states[session.place()].reserve(keeps, writes)
}

/// Goes on by one event in its session and in the rows, with so many events before it.
fn advance_session(
    alloc: Global,
    states: &mut [SessionState; 9],
    rows: &mut RowStates,
    event: &LogEvent,
    kept: &mut Option<Statement>,
    before: usize,
)
    requires sessions { list.map (λ state. state.session) states.old ≡ all_sessions }
    requires few { (level : Kind) × (past : Past) × DescribesAll level past states.old × (length past < max_events) }
    requires room { HoldsOutcome (is_some kept.old) event.now.outcome (running_of states.old event.now.session) rows.old }
    ensures session { Contains all_sessions event.now.session }
    ensures sessions { list.map (λ state. state.session) states.new ≡ all_sessions }
    ensures goes_on { (level : Kind) (past : Past) → kept.old ≡ kept_of (keeps_statements level) event.now.command event.now.outcome → before ≡ length past
        → DescribesAll level past states.old → DescribesRows past rows.old → DescribesAll level (event.now ∷ past) states.new × DescribesRows (event.now ∷ past) rows.new }
{
    states[event.session.place()].take_in(alloc, rows, event, kept, before);
}

fn begun_next(outcome: &Outcome, begun: u32) -> u32
    requires { begun < max_events }
    ensures { result ≡ begun_after outcome.now begun }
{
    match outcome {
        Outcome::Begun(_) => begun + 1,
        _ => begun,
    }
}
