//! An engine whose type keeps the level and the setup that its run began with.

ghost use Rattle.std.specs.Prelude.{◌≡◌};
ghost use Rattle.std.specs.Coded.{Coded-set, coded_ℤ};
ghost use Rattle.std.specs.FinMap as map;
ghost use Rattle.lab_table.specs.Row.{coded_row};

use lab_engine::{Engine, Level, LogEvent, Outcome};
use lab_table::{Command, NoMemory, Session, Table};
use std::alloc::Global;
use std::marker::{Brand, PhantomData};

/// The level and the setup that a run begins with. Each run picks its own.
pub(crate) trait Origin {
    ghost use Rattle.lab_table.specs.Table.{Table as PlainTable};
    ghost use Rattle.lab_engine.specs.declared.event.Level.{Level as Kind};

    ghost level: { Kind };

    ghost setup: { PlainTable };
}

impl Origin for Brand {
    ghost use Rattle.lab_engine.specs.declared.event.Level.TheVariants.{Locking};

    ghost level = { Locking };

    ghost setup = { map.empty };
}

/// An engine with the level and the setup of an origin. Of what a lock held only its type is known, so it's the type
/// that has to know these.
#[derive(Drop)]
pub(crate) struct Kept<E: Engine, O: Origin> {
    engine: E,
    origin: PhantomData<O>,
    pub ghost level_is: { E.kind engine ≡ O.level },
    pub ghost setup_is: { E.opening engine ≡ O.setup } by { Coded-set (map.code coded_row coded_ℤ) _ _ },
}

impl<E: Engine, O: Origin> Kept<E, O> {
    /// The engine that a run with this origin begins with.
    pub(crate) fn new(engine: E) -> Kept<E, O>
        requires level { E.kind engine ≡ O.level }
        requires setup { E.opening engine ≡ O.setup }
        ensures { result.engine ≡ engine }
    {
        Kept {
            engine,
            origin: PhantomData,
        }
    }
}

impl<E: Engine, O: Origin> Engine for Kept<E, O> {
    ghost events = { λ k. E.events k.engine };

    ghost opening = { λ k. E.opening k.engine };

    ghost kind = { λ k. E.kind k.engine };

    fn level(&self) -> Level {
        self.engine.level()
    }

    fn setup(&self) -> &Table {
        self.engine.setup()
    }

    fn log(&self) -> &[LogEvent] {
        self.engine.log()
    }

    fn is_active(&self, session: Session) -> bool {
        self.engine.is_active(session)
    }

    fn is_waiting(&self, session: Session) -> bool {
        self.engine.is_waiting(session)
    }

    fn step(
        &mut self,
        alloc: Global,
        session: Session,
        command: &Command,
    ) -> Result<Outcome, NoMemory> {
        self.engine.step(alloc, session, command)
    }

    fn retry(&mut self, alloc: Global, session: Session) -> Result<Outcome, NoMemory> {
        self.engine.retry(alloc, session)
    }

    fn retryable(&self) -> Option<Session> {
        self.engine.retryable()
    }
}
