//! An engine that wraps another one: it counts the calls, and fails with `NoMemory` where a test asks for it.

ghost use Rattle.std.specs.Prelude.{◌≡◌, ◌⊎◌, [], true, false};
ghost use Rattle.lab_table.specs.declared.statement.Statement.{Statement as Spelled};
ghost use Rattle.lab_table.specs.declared.statement.Command.TheVariants.{Run};

use lab_engine::{Engine, Level, LogEvent, Outcome, Recording};
use lab_script::Script;
use lab_session::{Gate, PlayFault, play_free};
use lab_table::{Command, NoMemory, Session, Table};
use std::alloc::{AllocError, Global};
use std::sync::atomic::{AtomicU32, Ordering};
use std::sync::{Arc, Wait};
use std::thread::{Threads, yield_now};

const MAX_TURNS: u32 = 20_000_000;

/// Lets others run until a count has come to a number; false where it doesn't within so many turns.
pub fn comes_to(count: &AtomicU32, number: u32) -> bool {
    for _ in 0..MAX_TURNS {
        if count.load(Ordering::SeqCst) >= number {
            return true;
        }
        yield_now();
    }
    false
}

/// What an engine did so far.
pub struct Counts {
    /// The events of its log.
    pub events: AtomicU32,
    /// How often a command was told to wait.
    pub waits: AtomicU32,
    /// How often it was asked which session may be retried, as one that waits does when it is woken.
    pub looks: AtomicU32,
    /// The events of its log when that was asked last.
    pub looked_behind: AtomicU32,
    /// The commands of session 1 that were answered, or refused, and those of the others.
    ended: [AtomicU32; 2],
}

impl Drop for Counts {
    fn drop(self) {
        let Counts {
            events: _,
            waits: _,
            looks: _,
            looked_behind: _,
            ended: _,
        } = self;
    }
}

impl Counts {
    /// Those of an engine that did nothing.
    pub fn new(alloc: Global) -> Result<Arc<Counts, Global>, NoMemory> {
        let counts = Counts {
            events: AtomicU32::new(0),
            waits: AtomicU32::new(0),
            looks: AtomicU32::new(0),
            looked_behind: AtomicU32::new(0),
            ended: [AtomicU32::new(0), AtomicU32::new(0)],
        };
        Ok(Arc::new(alloc, counts)?)
    }

    /// The count of session 1, or of the others.
    pub fn ended_of(&self, session: Session) -> &AtomicU32 {
        if session.number() == 1 {
            &self.ended[0]
        } else {
            &self.ended[1]
        }
    }

    fn count_end(&self, session: Session) {
        self.ended_of(session).fetch_add(1, Ordering::SeqCst);
    }

    fn count(&self, session: Session, outcome: &Outcome) {
        if matches!(outcome, Outcome::Waits { .. }) {
            self.waits.fetch_add(1, Ordering::SeqCst);
        } else {
            self.count_end(session);
        }
        self.events.fetch_add(1, Ordering::SeqCst);
    }

    fn count_look(&self) {
        let events = self.events.load(Ordering::SeqCst);
        self.looked_behind.store(events, Ordering::SeqCst);
        self.looks.fetch_add(1, Ordering::SeqCst);
    }
}

/// Which calls are refused memory. None that ends an active transaction is: that takes none.
#[derive(Clone, Copy)]
pub struct Refusals {
    /// Each command of this session, as long as it has no active transaction.
    pub idle: Option<Session>,
    /// The first statement of this session.
    pub statement: Option<Session>,
    /// So many of the first retries.
    pub retries: u32,
}

impl Refusals {
    /// Of so many of the first retries.
    pub fn of_retries(retries: u32) -> Refusals {
        Refusals {
            idle: None,
            statement: None,
            retries,
        }
    }

    /// Whether a step is refused.
    fn refuse_step(&mut self, session: Session, command: &Command, is_active: bool) -> bool
        ensures { result ≡ true → (is_active ≡ false) ⊎ ((s : Spelled) × (command.now ≡ Run s)) }
    {
        if !is_active {
            return self.idle == Some(session);
        }
        match command {
            Command::Run(_) if self.statement == Some(session) => {
                self.statement = None;
                true
            }
            _ => false,
        }
    }

    /// Whether a retry is refused.
    fn refuse_retry(&mut self) -> bool {
        let refused = self.retries > 0;
        self.retries = self.retries.saturating_sub(1);
        refused
    }
}

/// An engine that counts what it does, and has no memory where these refusals say so.
#[derive(Drop)]
pub struct Instrumented<E: Engine> {
    engine: E,
    refusals: Refusals,
    counts: Arc<Counts, Global>,
}

impl<E: Engine> Instrumented<E> {
    /// Of an engine that did nothing yet.
    pub fn new(engine: E, refusals: Refusals, counts: Arc<Counts, Global>) -> Instrumented<E>
        ensures { result.engine ≡ engine }
    {
        Instrumented {
            engine,
            refusals,
            counts,
        }
    }
}

impl<E: Engine> Engine for Instrumented<E> {
    ghost events = { λ i. E.events i.engine };

    ghost opening = { λ i. E.opening i.engine };

    ghost kind = { λ i. E.kind i.engine };

    fn level(&self) -> Level {
        self.engine.level()
    }

    fn setup(&self) -> &Table {
        self.engine.setup()
    }

    fn log(&self) -> &[LogEvent] {
        self.engine.log()
    }

    fn is_active(&self, session: Session) -> bool {
        self.engine.is_active(session)
    }

    fn is_waiting(&self, session: Session) -> bool {
        self.engine.is_waiting(session)
    }

    fn step(
        &mut self,
        alloc: Global,
        session: Session,
        command: &Command,
    ) -> Result<Outcome, NoMemory> {
        let is_active = self.engine.is_active(session);
        if self.refusals.refuse_step(session, command, is_active) {
            self.counts.count_end(session);
            return Err(AllocError);
        }
        let outcome = self.engine.step(alloc, session, command)?;
        self.counts.count(session, &outcome);
        Ok(outcome)
    }

    fn retry(&mut self, alloc: Global, session: Session) -> Result<Outcome, NoMemory> {
        if self.refusals.refuse_retry() {
            self.counts.count_end(session);
            return Err(AllocError);
        }
        let outcome = self.engine.retry(alloc, session)?;
        self.counts.count(session, &outcome);
        Ok(outcome)
    }

    fn retryable(&self) -> Option<Session> {
        self.counts.count_look();
        self.engine.retryable()
    }
}

/// A free play of a script on such an engine.
pub fn play_instrumented<R: Threads + Wait + Sync, E: Engine + Drop + Send, G: Gate + Sync>(
    rt: &R,
    alloc: Global,
    engine: E,
    refusals: Refusals,
    counts: &Arc<Counts, Global>,
    script: &Script,
    gate: &G,
) -> Result<Recording, PlayFault>
    requires { E.events engine ≡ [] }
{
    let engine = Instrumented::new(engine, refusals, Arc::try_clone(counts)?);
    play_free(rt, alloc, engine, script, gate)
}
