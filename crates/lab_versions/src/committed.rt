//! The engine at read committed: a statement sees what has committed before it.

ghost use Rattle.lab_engine.specs.declared.event.Level.TheVariants.{Committed};

use lab_engine::{Asker, Conflict, Journal, Level, Rules, SessionSet};
use lab_table::Statement;

/// The rules of read committed. A statement is blocked by the transactions with uncommitted writes of a row that it
/// would write. No commit conflicts.
#[derive(Clone, Copy, Debug, Default, PartialEq, Eq)]
pub struct CommittedRules {}

impl Rules for CommittedRules {
    ghost kind = { Committed };

    fn level(&self) -> Level {
        Level::Committed
    }

    fn sees_as_of_begin(&self) -> bool {
        false
    }

    fn keeps_statements(&self) -> bool {
        false
    }

    fn blockers(&self, asker: &Asker, statement: &Statement) -> SessionSet {
        asker.writers_in_way(statement)
    }

    fn conflict(&self, asker: &Asker) -> Option<Conflict> {
        None
    }
}

/// The engine at read committed.
pub type CommittedEngine = Journal<CommittedRules>;
