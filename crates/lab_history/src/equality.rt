//! Equality of views, listed rows and writes.

ghost use Rattle.std.specs.Prelude.{◌≡◌, ◌↔◌, IsTrue};
ghost use Rattle.std.specs.Bool.{Decides};

use crate::operation::{Rows, View, Writes};
use lab_table::RowName;

impl View {
    ghost use Rattle.std.specs.Prelude.{◌≡◌, ◌↔◌, IsTrue};

    /// Returns whether both views list the same rows at the same versions.
    pub fn equals(&self, other: &View) -> bool
        ensures { IsTrue result ↔ (self.now ≡ other.now) }
    {
        are_same(self.entries(), other.entries())
    }
}

impl Rows {
    ghost use Rattle.std.specs.Prelude.{◌≡◌, ◌↔◌, IsTrue};

    /// Returns whether both lists have the same rows with the same values.
    pub fn equals(&self, other: &Rows) -> bool
        ensures { IsTrue result ↔ (self.now ≡ other.now) }
    {
        are_same(self.entries(), other.entries())
    }
}

impl Writes {
    ghost use Rattle.std.specs.Prelude.{◌≡◌, ◌↔◌, IsTrue};

    /// Returns whether both lists have the same rows with the same new states.
    pub fn equals(&self, other: &Writes) -> bool
        ensures { IsTrue result ↔ (self.now ≡ other.now) }
    {
        are_same(self.entries(), other.entries())
    }
}

/// Whether two lists have the same entries.
fn are_same<X: PartialEq>(a: &[(RowName, X)], b: &[(RowName, X)]) -> bool
    requires { (x y : X) → Decides (X.eq x y) (x ≡ y) }
    ensures { IsTrue result ↔ (a.now ≡ b.now) }
{
    a == b
}
