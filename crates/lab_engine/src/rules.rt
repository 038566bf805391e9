//! The rules that differ between levels.

ghost use Rattle.std.specs.Prelude.{◌≡◌, MatchOption};
ghost use Rattle.lab_engine.specs.declared.event.Level.{Level as Kind};
ghost use Rattle.lab_engine.specs.Log.{Past, Txn};
ghost use Rattle.lab_engine.specs.Asker as plain;
ghost use Rattle.lab_engine.specs.Asker.{AreOthers, IsAsker};
ghost use Rattle.lab_engine.specs.Rules.{Blocks, IsFirstConflict, MayCommit};
ghost use Rattle.lab_engine.specs.Situation as kept;

use crate::asker::Asker;
use crate::event::Level;
use crate::session_set::SessionSet;
use lab_table::{RowName, Statement, TxnNo};

/// How an install by another transaction conflicts with a transaction that commits.
#[derive(Clone, Copy, Debug, PartialEq, Eq)]
pub enum ConflictKind {
    /// The committing transaction wrote the row too.
    Write,
    /// A statement of the committing transaction matches the row as it was before or after the install.
    Read,
}

/// Why a transaction can't commit.
#[derive(Clone, Copy, Debug, PartialEq, Eq)]
pub struct Conflict {
    pub kind: ConflictKind,
    /// The least row with a conflict. At the same row, a write conflict comes first.
    pub row: RowName,
    /// The first transaction since the begin that caused the conflict.
    pub by: TxnNo,
}

/// The concurrency control of one isolation level: what a transaction sees, which sessions block a statement, and which
/// commits conflict. A `Journal` creates its rules with `default`.
pub trait Rules: Default {
    /// The level that they are the rules of.
    ghost kind: { Kind };

    /// Returns the level of these rules.
    fn level(&self) -> Level
        ensures { result ≡ kind };

    /// Returns whether a transaction sees the commits as of its begin, instead of all commits so far.
    fn sees_as_of_begin(&self) -> bool
        ensures { result ≡ plain.sees_as_of_begin kind };

    /// Returns whether `blockers` or `conflict` need the statements that active transactions have run.
    fn keeps_statements(&self) -> bool
        ensures { result ≡ kept.keeps_statements kind };

    /// Returns the sessions that block `statement`.
    fn blockers(&self, asker: &Asker, statement: &Statement) -> SessionSet
        ensures { (past : Past) (txn : Txn) → IsAsker kind past txn asker.now
            → AreOthers past asker.now (Blocks kind asker.now.setup.now past txn statement.now) result };

    /// Returns why the requester's transaction can't commit, or `None` if it can.
    fn conflict(&self, asker: &Asker) -> Option<Conflict>
        ensures { (past : Past) (txn : Txn) → IsAsker kind past txn asker.now
            → MatchOption result (MayCommit kind asker.now.setup.now past txn) (λ c. IsFirstConflict kind asker.now.setup.now past txn c.kind c.row c.by) };
}
