//! A value for each session.

ghost use Rattle.std.specs.Prelude.{◌≡◌, ◌==◌, ◌≤◌, ◌-◌, ℕ, Some, cond, slice_set, replicate};
ghost use Rattle.lab_table.specs.Sessions.{of_session};

use crate::number::Session;
use std::marker::Model;

/// A value for each session.
#[derive(Drop)]
pub struct PerSession<V: Copy> {
    /// In ascending order of sessions.
    values: [V; 9],
}

impl<V: Copy> Model for PerSession<V> {
    ghost use Rattle.std.specs.Prelude.{◌≡◌, List, length};
    ghost use Rattle.std.specs.Coded.{coded_list};

    ghost Value = { List V };

    ghost coded = { coded_list V.code };

    ghost view = { λ s. s.values };

    ghost invariant = { λ s. length s.values ≡ 9 };
}

impl<V: Copy> PerSession<V> {
    /// Returns the same value for each session.
    pub fn all(value: V) -> PerSession<V>
        ensures values { result ≡ replicate 9 value }
        ensures each { (session : ℕ) → 1 ≤ session → session ≤ 9 → of_session result session ≡ Some value }
    {
        PerSession { values: [value; 9] }
    }

    /// Returns the value of `session`.
    pub fn get(&self, session: Session) -> V
        ensures value { of_session self.now session ≡ Some result }
        ensures low { 1 ≤ session }
        ensures high { session ≤ 9 }
    {
        self.values[session.place()]
    }

    /// Replaces the value of `session`.
    pub fn set(&mut self, session: Session, value: V)
        ensures values { self.new ≡ slice_set self.old (session - 1) value }
        ensures each { (other : ℕ) → of_session self.new other ≡ cond (other == session) (Some value) (of_session self.old other) }
        ensures low { 1 ≤ session }
        ensures high { session ≤ 9 }
    {
        self.values[session.place()] = value;
    }

    /// Returns a copy.
    pub fn copy(&self) -> PerSession<V>
        ensures { result ≡ self.now }
    {
        PerSession {
            values: self.values,
        }
    }
}
