//! Sets of sessions.

ghost use Rattle.std.specs.Prelude.{◌≡◌, ◌≤◌, ◌==◌, ◌||◌, ◌&&◌, ℕ, None, false, IfSome, IsTrue};
ghost use Rattle.std.specs.List.{list_any};
ghost use Rattle.lab_engine.specs.SessionBits.{has};

use lab_table::Session;
use std::marker::Model;

/// A set of sessions.
#[derive(Clone, Copy)]
pub struct SessionSet {
    /// Bit n is set if the set has session n.
    bits: u16,
}

impl Model for SessionSet {
    ghost use Rattle.std.specs.Prelude.{ℕ};
    ghost use Rattle.lab_engine.specs.SessionBits.{AreSessions};

    ghost Value = { ℕ };

    ghost view = { λ s. s.bits };

    ghost invariant = { λ s. AreSessions s.bits };

    ghost inverse = { λ set. record { bits = set } };
}

impl SessionSet {
    /// Returns the empty set.
    #[tactic(auto, using(crate::proofs::SessionBits::has_nobody))]
    pub fn none() -> SessionSet
        ensures { (n : ℕ) → has result n ≡ false }
    {
        SessionSet { bits: 0 }
    }

    /// Returns the set of these sessions.
    pub fn of(sessions: &[Session]) -> SessionSet
        ensures { (n : ℕ) → has result n ≡ list_any (λ session. session == n) sessions.now }
    {
        let mut set = SessionSet::none();
        for session in sessions {
            set.insert(*session);
        }
        set
    }

    /// Adds `session`.
    #[tactic(auto, using(crate::proofs::SessionBits::sessions_inserted, crate::proofs::SessionBits::has_inserted))]
    pub fn insert(&mut self, session: Session)
        ensures { (n : ℕ) → has self.new n ≡ (n == session || has self.old n) }
    {
        self.bits |= 1 << session.number();
    }

    /// Returns whether the set has `session`.
    #[tactic(auto, using(crate::proofs::SessionBits::has_tested))]
    pub fn has(self, session: Session) -> bool
        ensures { result ≡ has self session }
    {
        (self.bits >> session.number()) & 1 == 1
    }

    /// Returns the intersection with `other`.
    #[tactic(auto, using(crate::proofs::SessionBits::has_common))]
    pub fn common(self, other: SessionSet) -> SessionSet
        ensures { (n : ℕ) → has result n ≡ (has self n && has other n) }
    {
        SessionSet {
            bits: self.bits & other.bits,
        }
    }

    /// Returns the union with `other`.
    #[tactic(auto, using(crate::proofs::SessionBits::sessions_either, crate::proofs::SessionBits::has_either))]
    pub fn with(self, other: SessionSet) -> SessionSet
        ensures { (n : ℕ) → has result n ≡ (has self n || has other n) }
    {
        SessionSet {
            bits: self.bits | other.bits,
        }
    }

    /// Returns the least session of the set, or `None` if it is empty.
    #[tactic(auto, using(crate::proofs::SessionBits::least_some, crate::proofs::SessionBits::least_least, crate::proofs::SessionBits::least_none))]
    pub fn least(self) -> Option<Session>
        ensures some { IfSome result (λ session. IsTrue (has self session)) }
        ensures least { IfSome result (λ session. (n : ℕ) → IsTrue (has self n) → session ≤ n) }
        ensures none { result ≡ None → (n : ℕ) → has self n ≡ false }
    {
        Session::new(self.bits.trailing_zeros() as u8)
    }
}
