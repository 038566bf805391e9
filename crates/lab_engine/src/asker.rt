//! Sessions that request a statement or a commit.

ghost use Rattle.std.specs.Prelude.{◌≡◌, ℕ, Bool, Some};
ghost use Rattle.lab_table.specs.Statement as plain;
ghost use Rattle.lab_engine.specs.Log.{Past, Txn, active};
ghost use Rattle.lab_engine.specs.declared.session_state.RunningTxn.{RunningTxn as Running};
ghost use Rattle.lab_engine.specs.Chosen.{is_chosen};
ghost use Rattle.lab_engine.specs.Asker.{IsAsker, seen_in};
ghost use Rattle.lab_engine.specs.SessionBits.{has};
ghost use Rattle.lab_engine.specs.Situation.{Describes, IsRunning};

use crate::rules::Rules;
use crate::session_set::SessionSet;
use crate::session_state::RunningTxn;
use crate::situation::Situation;
use crate::version::Version;
use lab_history::VersionName;
use lab_table::{RowName, Session, Statement, Table};

/// A session with an active transaction that requests a statement or a commit, and the engine state in which the
/// request is decided.
#[derive(Clone, Copy)]
pub struct Asker<'a> {
    /// The table before the first event.
    pub setup: &'a Table,
    /// The state of sessions and rows after the events so far.
    pub situation: &'a Situation,
    pub session: Session,
    /// Its active transaction.
    pub running: &'a RunningTxn,
    /// The log position of its snapshot: the transaction sees the commits before it. It is the transaction's begin, or
    /// the end of the log.
    pub sees_before: usize,
}

impl<'a> Asker<'a> {
    /// A session with this active transaction, by the rules of a level.
    pub(crate) fn of<R: Rules>(
        rules: &R,
        setup: &'a Table,
        situation: &'a Situation,
        session: Session,
        running: &'a RunningTxn,
    ) -> Asker<'a>
        ensures setup { result.setup.now ≡ setup.now }
        ensures situation { result.situation.now ≡ situation.now }
        ensures session { result.session ≡ session }
        ensures is { (past : Past) (txn : Txn) → Describes R.kind past situation.now → active past session ≡ Some txn → IsRunning R.kind txn running.now
            → IsAsker R.kind past txn result }
    {
        let sees_before = if rules.sees_as_of_begin() {
            running.before
        } else {
            situation.events
        };
        Asker {
            setup,
            situation,
            session,
            running,
            sees_before,
        }
    }

    /// Returns the version of `row` that its transaction sees.
    pub fn row_seen(&self, row: RowName) -> Version
        ensures { result ≡ seen_in self.now row }
    {
        match self
            .situation
            .rows
            .seen_by(row, self.session, self.sees_before)
        {
            Some(version) => version,
            None => Version {
                name: VersionName::Initial,
                state: self.setup.get(row),
            },
        }
    }

    /// Returns whether `statement` would write `row`, as its transaction sees it.
    pub fn would_write(&self, statement: &Statement, row: RowName) -> bool
        ensures { result ≡ plain.would_write statement.now row (seen_in self.now row).state }
    {
        statement.would_write(row, self.row_seen(row).state)
    }

    /// Returns the other sessions whose active transaction passes `test`.
    pub fn others_that<F: Fn(Session, &RunningTxn) -> bool>(&self, test: F) -> SessionSet
        requires { F.IsAlwaysCallable test }
        ensures { (passes : ℕ → Running → Bool) → ((other : ℕ) (running : _) (b : Bool) → F.post test other running b → b ≡ passes other running.now)
            → (n : ℕ) → has result n ≡ is_chosen passes self.now.session self.now.situation.now.sessions n }
    {
        let mut others = SessionSet::none();
        for state in self.situation.sessions.as_slice() {
            if let Some(running) = &state.running {
                if state.session != self.session && test(state.session, running) {
                    others.insert(state.session);
                }
            }
        }
        others
    }
}
