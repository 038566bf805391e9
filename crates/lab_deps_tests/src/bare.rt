//! An engine that forwards only the required calls to another engine. Its other calls are the trait's defaults.

ghost use Rattle.std.specs.Prelude.{◌≡◌};

use lab_engine::{Engine, Level, LogEvent, Outcome};
use lab_table::{Command, NoMemory, Session, Table};
use std::alloc::Global;

/// An engine that does what another does, by the calls that every engine has to have.
#[derive(Drop)]
pub struct Bare<E: Engine> {
    engine: E,
}

impl<E: Engine> Bare<E> {
    pub fn new(engine: E) -> Bare<E>
        ensures { result.engine ≡ engine }
    {
        Bare { engine }
    }
}

impl<E: Engine> Engine for Bare<E> {
    ghost events = { λ b. E.events b.engine };

    ghost opening = { λ b. E.opening b.engine };

    ghost kind = { λ b. E.kind b.engine };

    fn level(&self) -> Level {
        self.engine.level()
    }

    fn setup(&self) -> &Table {
        self.engine.setup()
    }

    fn log(&self) -> &[LogEvent] {
        self.engine.log()
    }

    fn is_active(&self, session: Session) -> bool {
        self.engine.is_active(session)
    }

    fn is_waiting(&self, session: Session) -> bool {
        self.engine.is_waiting(session)
    }

    fn step(
        &mut self,
        alloc: Global,
        session: Session,
        command: &Command,
    ) -> Result<Outcome, NoMemory> {
        self.engine.step(alloc, session, command)
    }

    fn retry(&mut self, alloc: Global, session: Session) -> Result<Outcome, NoMemory> {
        self.engine.retry(alloc, session)
    }

    fn retryable(&self) -> Option<Session> {
        self.engine.retryable()
    }
}
