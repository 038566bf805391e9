//! The engine at snapshot isolation: a transaction sees what had committed at its begin.

ghost use Rattle.lab_engine.specs.declared.event.Level.TheVariants.{Snapshot};

use lab_engine::{Asker, Conflict, Journal, Level, Rules, SessionSet};
use lab_table::Statement;

/// The rules of snapshot isolation. No statement is blocked. A commit conflicts if another transaction has installed a
/// row that it wrote, since its begin.
#[derive(Clone, Copy, Debug, Default, PartialEq, Eq)]
pub struct SnapshotRules {}

impl Rules for SnapshotRules {
    ghost kind = { Snapshot };

    fn level(&self) -> Level {
        Level::Snapshot
    }

    fn sees_as_of_begin(&self) -> bool {
        true
    }

    fn keeps_statements(&self) -> bool {
        false
    }

    fn blockers(&self, asker: &Asker, statement: &Statement) -> SessionSet {
        SessionSet::none()
    }

    fn conflict(&self, asker: &Asker) -> Option<Conflict> {
        asker.first_taken()
    }
}

/// The engine at snapshot isolation.
pub type SnapshotEngine = Journal<SnapshotRules>;
