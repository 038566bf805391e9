//! The serializable engine.

ghost use Rattle.lab_engine.specs.declared.event.Level.TheVariants.{Locking};

use crate::matches::match_holders;
use crate::reads::with_readers_in_way;
use lab_engine::{Asker, Conflict, Journal, Level, Rules, SessionSet};
use lab_table::Statement;

/// Strict two-phase locking of rows and predicates; each commit is let through.
#[derive(Clone, Copy, Debug, Default, PartialEq, Eq)]
pub struct LockRules {}

impl Rules for LockRules {
    ghost kind = { Locking };

    fn level(&self) -> Level {
        Level::Locking
    }

    fn sees_as_of_begin(&self) -> bool {
        false
    }

    fn keeps_statements(&self) -> bool {
        true
    }

    fn blockers(&self, asker: &Asker, statement: &Statement) -> SessionSet {
        let holders = match_holders(asker, statement).with(asker.writers_in_way(statement));
        with_readers_in_way(asker, holders, statement)
    }

    fn conflict(&self, asker: &Asker) -> Option<Conflict> {
        None
    }
}

/// The serializable engine.
pub type LockEngine = Journal<LockRules>;
