//! The sessions whose uncommitted writes block a statement.

ghost use Rattle.std.specs.Prelude.{◌≡◌, IsSome};
ghost use Rattle.std.specs.List.{list_any};
ghost use Rattle.lab_table.specs.Statement as plain;
ghost use Rattle.lab_engine.specs.declared.event.Level.{Level as Kind};
ghost use Rattle.lab_engine.specs.Log.{Past, Txn, version_by};
ghost use Rattle.lab_engine.specs.Asker.{AreOthers, IsAsker, seen_in};
ghost use Rattle.lab_engine.specs.Rules.{HoldsWrite};

use crate::asker::Asker;
use crate::session_set::SessionSet;
use lab_table::{RowName, Statement};

impl<'a> Asker<'a> {
    /// Whether a statement would write one of some rows.
    fn would_write_any(&self, statement: &Statement, rows: &[RowName]) -> bool
        ensures { result ≡ list_any (λ row. plain.would_write statement.now row (seen_in self.now row).state) rows.now }
    {
        rows.iter().any(|row| self.would_write(statement, *row))
    }

    /// The other sessions that have written a row that a statement would write.
    fn all_writers(&self, statement: &Statement) -> SessionSet
        ensures { (level : Kind) (past : Past) (txn : Txn) → IsAsker level past txn self.now
            → AreOthers past self.now (HoldsWrite level self.now.setup.now past txn statement.now) result }
    {
        self.others_that(|_, holder| self.would_write_any(statement, &holder.written))
    }

    /// The other sessions that have written this row; it is looked up once.
    fn row_writers(&self, row: RowName) -> SessionSet
        ensures { (level : Kind) (past : Past) (txn : Txn) → IsAsker level past txn self.now
            → AreOthers past self.now (λ holder. IsSome (version_by holder row)) result }
    {
        match self.situation.rows.get(row) {
            Some(kept) => self.others_that(|other, _| kept.pending(other).is_some()),
            None => SessionSet::none(),
        }
    }

    /// Returns the other sessions with an uncommitted write of a row that `statement` would write. If the statement
    /// names one row, only that row is looked up.
    pub fn writers_in_way(&self, statement: &Statement) -> SessionSet
        ensures { (level : Kind) (past : Past) (txn : Txn) → IsAsker level past txn self.now
            → AreOthers past self.now (HoldsWrite level self.now.setup.now past txn statement.now) result }
    {
        if statement.is_read_only() {
            return SessionSet::none();
        }
        let Some(row) = statement.named_row() else {
            return self.all_writers(statement);
        };
        if self.would_write(statement, row) {
            self.row_writers(row)
        } else {
            SessionSet::none()
        }
    }
}
