//! Who waits for whom.

ghost use Rattle.std.specs.Prelude.{◌≡◌, ◌==◌, ◌↔◌, ℕ, cond, false, IsTrue};
ghost use Rattle.lab_engine.specs.SessionBits.{has};
ghost use Rattle.lab_engine.specs.WaitsFor.{waits_for, WaitsForOne};

use crate::session_set::SessionSet;
use lab_table::{PerSession, Session};
use std::marker::Model;

/// The waits-for graph of the sessions.
#[derive(Drop)]
pub struct WaitGraph {
    /// For each session those that it waits for.
    on: PerSession<SessionSet>,
}

impl Model for WaitGraph {
    ghost use Rattle.std.specs.Prelude.{ℕ, List};

    ghost Value = { List ℕ };

    ghost view = { λ g. g.on };
}

impl WaitGraph {
    /// Nobody waits.
    pub fn none() -> WaitGraph
        ensures { (session other : ℕ) → waits_for result session other ≡ false }
    {
        WaitGraph {
            on: PerSession::all(SessionSet::none()),
        }
    }

    /// The same once more.
    pub fn copy(&self) -> WaitGraph
        ensures { result ≡ self.now }
    {
        WaitGraph { on: self.on.copy() }
    }

    /// From now on a session waits for these.
    #[tactic(auto, using(crate::proofs::WaitGraphs::put_set))]
    pub fn put(&mut self, session: Session, on: SessionSet)
        ensures { (waiter other : ℕ) → waits_for self.new waiter other ≡ cond (waiter == session) (has on other) (waits_for self.old waiter other) }
    {
        self.on.set(session, on);
    }

    /// Those that a session waits for.
    #[tactic(auto, using(crate::proofs::WaitGraphs::own_set))]
    pub fn on(&self, session: Session) -> SessionSet
        ensures { (other : ℕ) → has result other ≡ waits_for self.now session other }
    {
        self.on.get(session)
    }

    /// Whether a session waits for nobody.
    pub fn is_free(&self, session: Session) -> bool
        ensures { IsTrue result ↔ ((other : ℕ) → waits_for self.now session other ≡ false) }
    {
        self.on(session).least().is_none()
    }

    /// Whether a session waits for somebody in a set.
    #[tactic(auto, using(crate::proofs::WaitGraphs::waits_for_one))]
    fn is_waiter(&self, session: Session, set: SessionSet) -> bool
        ensures { IsTrue result ↔ WaitsForOne self.now set session }
    {
        self.on(session).common(set).least().is_some()
    }

    /// Those that wait for somebody in a set.
    pub fn waiters(&self, set: SessionSet) -> SessionSet
        ensures { (session : ℕ) → IsTrue (has result session) ↔ WaitsForOne self.now set session }
    {
        let mut waiters = SessionSet::none();
        for session in Session::ALL {
            if self.is_waiter(session, set) {
                waiters.insert(session);
            }
        }
        waiters
    }
}
