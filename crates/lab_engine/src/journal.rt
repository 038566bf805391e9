//! The implementation that all engines share.

ghost use Rattle.std.specs.Prelude.{◌≡◌, ◌<◌, ◌∷◌, ◌++◌, [], true, false, length, Contains, IsSome, IfOk, OnOk, OnErr};
ghost use Rattle.std.specs.Vec.{vec_capacity};
ghost use Rattle.lab_engine.specs.declared.event.EngineFault.TheVariants.{Busy};
ghost use Rattle.lab_engine.specs.declared.event.Outcome.TheVariants.{Refused};
ghost use Rattle.lab_engine.specs.Answer.{HasPlacesOfEnds};
ghost use Rattle.lab_engine.specs.Engine.{Ends};
ghost use Rattle.lab_engine.specs.EventQuery.{is_ending};
ghost use Rattle.lab_engine.specs.Journal.{IsRetried};
ghost use Rattle.lab_engine.specs.LeastCircle.{NamesLeastOf};
ghost use Rattle.lab_engine.specs.Limits.{max_events};
ghost use Rattle.lab_engine.specs.Log.{past_of, active, asked, waiting};
ghost use Rattle.lab_engine.specs.Rules.{Permitted};
ghost use Rattle.lab_engine.specs.Sessions.{all_sessions};

use crate::answer::answer_to;
use crate::decision::{copy_of, step_outcome, waiting_command};
use crate::engine::Engine;
use crate::event::{Level, LogEvent, Outcome};
use crate::event_query::ends_transaction;
use crate::recording::{RecordFault, Recording};
use crate::rules::Rules;
use crate::situation::Situation;
use crate::waits::{retryable, waits_after};
use lab_table::{Command, NoMemory, Session, Table};
use std::alloc::Global;
use std::marker::Model;

/// An engine with given rules. Besides its initial table and its log, it keeps the current state of sessions and rows
/// and the wait-for graph, so no call searches the log. A call decides on its event, reserves space for it, and then
/// appends it, which allocates nothing. The log keeps space for the end of each active transaction. The sessions that
/// block a session are determined again only after an event that can have changed them.
#[derive(Drop)]
pub struct Journal<R: Rules> {
    rules: R,
    setup: Table,
    log: Vec<LogEvent>,
    retryable: Option<Session>,
    situation: Situation,
}

impl<R: Rules> Model for Journal<R> {
    ghost use Rattle.std.specs.Vec.{vec_capacity};
    ghost use Rattle.lab_engine.specs.Journal.{EngineRun, coded_run};
    ghost use Rattle.lab_engine.specs.Log.{past_of};
    ghost use Rattle.lab_engine.specs.Answer.{Keeps};
    ghost use Rattle.lab_engine.specs.contracts.event.Level as level;
    ghost use Rattle.lab_engine.specs.contracts.event.LogEvent as event;

    ghost Value = { EngineRun };

    ghost coded = { coded_run level.the_row.coded event.the_row.coded };

    ghost view = { λ j. record { level = R.kind; setup = j.setup; log = j.log.items } };

    ghost invariant = { λ j. Keeps R.kind j.setup (past_of j.log.items) j.retryable j.situation (vec_capacity j.log) };
}

impl<R: Rules> Journal<R> {
    /// Returns an engine with an empty log, on this table. Allocates nothing.
    pub fn new(alloc: Global, setup: Table) -> Journal<R>
        ensures level { result.level ≡ R.kind }
        ensures setup { result.setup ≡ setup }
        ensures log { result.log ≡ [] }
    {
        Journal {
            rules: R::default(),
            setup,
            log: Vec::new(alloc),
            retryable: None,
            situation: Situation::new(alloc),
        }
    }

    /// The event of a command of a session. NoMemory where an allocation was refused; a command without a statement takes
    /// no memory.
    fn stepped(
        &self,
        alloc: Global,
        session: Session,
        command: &Command,
    ) -> Result<LogEvent, NoMemory>
        requires { length self.now.log < max_events }
        ensures of { IfOk result (λ event. event ≡ record { session = session; command = command.now; outcome = event.outcome }) }
        ensures permitted { IfOk result (λ event. Permitted R.kind self.now.setup (past_of self.now.log) event.session event.command event.outcome) }
        ensures end { IfOk result (λ event. Ends (past_of self.now.log) session command.now → is_ending event.outcome ≡ true) }
        ensures busy { IfOk result (λ event. IsSome (waiting (past_of self.now.log) session) → event.outcome ≡ Refused Busy) }
        ensures least { IfOk result (λ event. NamesLeastOf R.kind self.now.setup (past_of self.now.log) session command.now event.outcome) }
        ensures err { OnErr result (IsSome (asked command.now)) }
    {
        let outcome = step_outcome(
            alloc,
            &self.rules,
            &self.setup,
            &self.situation,
            session,
            command,
        )?;
        let command = copy_of(alloc, command)?;
        Ok(LogEvent {
            session,
            command,
            outcome,
        })
    }

    /// The event of the command that a session waits with, tried anew. NoMemory where an allocation was refused.
    fn retried(&self, alloc: Global, session: Session) -> Result<LogEvent, NoMemory>
        requires room { length self.now.log < max_events }
        requires waits { IsSome (waiting (past_of self.now.log) session) }
        ensures { IfOk result (IsRetried R.kind self.now session) }
    {
        let command = waiting_command(alloc, &self.situation, session)?;
        let outcome = answer_to(
            alloc,
            &self.rules,
            &self.setup,
            &self.situation,
            session,
            &command,
        )?;
        Ok(LogEvent {
            session,
            command,
            outcome,
        })
    }

    /// Goes on by an event. NoMemory where an allocation was refused, and then nothing has changed; a transaction's end
    /// takes no memory.
    fn go_on(&mut self, alloc: Global, event: LogEvent) -> Result<(), NoMemory>
        requires few { length self.old.log < max_events }
        requires permitted { Permitted R.kind self.old.setup (past_of self.old.log) event.session event.command event.outcome }
        ensures ok { OnOk result (self.new.log ≡ self.old.log ++ event ∷ []) }
        ensures err { OnErr result (self.new.log ≡ self.old.log) }
        ensures end { OnErr result (is_ending event.outcome ≡ false) }
        ensures setup { self.new.setup ≡ self.old.setup }
        ensures level { self.new.level ≡ self.old.level }
    {
        reserve_place(&mut self.log, &event)?;
        let mut kept = self
            .situation
            .reserve(alloc, &event, self.rules.keeps_statements())?;
        self.situation.take_in(alloc, &event, &mut kept);
        self.situation.waits = waits_after(&self.rules, &self.setup, &self.situation, &event);
        self.retryable = retryable(&self.situation);
        self.log.push_reserved(event);
        Ok(())
    }
}

/// Makes room for an event: that of a transaction's end has its place, and any other leaves one for the end of each
/// session's transaction. NoMemory where an allocation was refused.
fn reserve_place(log: &mut Vec<LogEvent>, event: &LogEvent) -> Result<(), NoMemory>
    requires active { is_ending event.now.outcome ≡ true → IsSome (active (past_of log.old.items) event.now.session) }
    requires session { is_ending event.now.outcome ≡ true → Contains all_sessions event.now.session }
    requires places { HasPlacesOfEnds (past_of log.old.items) (vec_capacity log.old) }
    ensures log { log.new.items ≡ log.old.items }
    ensures places { HasPlacesOfEnds (past_of log.old.items) (vec_capacity log.new) }
    ensures next { OnOk result (HasPlacesOfEnds (event.now ∷ past_of log.old.items) (vec_capacity log.new)) }
    ensures end { OnErr result (is_ending event.now.outcome ≡ false) }
{
    if ends_transaction(&event.outcome) {
        return Ok(());
    }
    log.try_reserve(10)
}

impl<R: Rules + Drop> Engine for Journal<R> {
    ghost events = { λ j. j.log };

    ghost opening = { λ j. j.setup };

    ghost kind = { λ _. R.kind };

    fn level(&self) -> Level {
        self.rules.level()
    }

    fn setup(&self) -> &Table {
        &self.setup
    }

    fn log(&self) -> &[LogEvent] {
        &self.log
    }

    fn is_active(&self, session: Session) -> bool {
        self.situation.is_active(session)
    }

    fn is_waiting(&self, session: Session) -> bool {
        self.situation.is_waiting(session)
    }

    fn step(
        &mut self,
        alloc: Global,
        session: Session,
        command: &Command,
    ) -> Result<Outcome, NoMemory> {
        let event = self.stepped(alloc, session, command)?;
        let answer = event.outcome.copy(alloc)?;
        self.go_on(alloc, event)?;
        Ok(answer)
    }

    fn retry(&mut self, alloc: Global, session: Session) -> Result<Outcome, NoMemory> {
        let event = self.retried(alloc, session)?;
        let answer = event.outcome.copy(alloc)?;
        self.go_on(alloc, event)?;
        Ok(answer)
    }

    fn log_step(
        &mut self,
        alloc: Global,
        session: Session,
        command: &Command,
    ) -> Result<(), NoMemory> {
        let event = self.stepped(alloc, session, command)?;
        self.go_on(alloc, event)
    }

    fn log_retry(&mut self, alloc: Global, session: Session) -> Result<(), NoMemory> {
        let event = self.retried(alloc, session)?;
        self.go_on(alloc, event)
    }

    fn into_log(self, _: Global) -> Result<Vec<LogEvent>, NoMemory> {
        Ok(self.log)
    }

    fn into_recording(self, alloc: Global) -> Result<Recording, RecordFault> {
        let level = self.rules.level();
        Recording::from_rows(alloc, level, self.setup, self.log, &self.situation.rows)
    }

    fn retryable(&self) -> Option<Session> {
        self.retryable
    }
}
