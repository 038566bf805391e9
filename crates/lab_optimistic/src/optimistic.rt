//! The engine that refuses a commit if what the transaction wrote or read has changed since its begin.

ghost use Rattle.std.specs.Prelude.{◌≡◌};
ghost use Rattle.lab_engine.specs.declared.event.Level.TheVariants.{Optimistic};
ghost use Rattle.lab_optimistic.specs.Reads as spec;

use crate::reads::first_read;
use lab_engine::{Asker, Conflict, Journal, Level, Rules, SessionSet};
use lab_table::Statement;

/// Nobody blocks a statement; a commit conflicts where another since its begin installed a row that it wrote, or one that
/// one of its statements matches before or after that.
#[derive(Clone, Copy, Debug, Default, PartialEq, Eq)]
pub struct OptimisticRules {}

/// The conflict at the lower row; at one row that by what was written.
fn earlier(taken: Option<Conflict>, read: Option<Conflict>) -> Option<Conflict>
    ensures { result ≡ spec.earlier taken read }
{
    let Some(taken) = taken else {
        return read;
    };
    let Some(read) = read else {
        return Some(taken);
    };
    if read.row < taken.row {
        Some(read)
    } else {
        Some(taken)
    }
}

impl Rules for OptimisticRules {
    ghost kind = { Optimistic };

    fn level(&self) -> Level {
        Level::Optimistic
    }

    fn sees_as_of_begin(&self) -> bool {
        true
    }

    fn keeps_statements(&self) -> bool {
        true
    }

    fn blockers(&self, asker: &Asker, statement: &Statement) -> SessionSet {
        SessionSet::none()
    }

    fn conflict(&self, asker: &Asker) -> Option<Conflict> {
        earlier(asker.first_taken(), first_read(asker))
    }
}

/// The optimistic engine.
pub type OptimisticEngine = Journal<OptimisticRules>;
