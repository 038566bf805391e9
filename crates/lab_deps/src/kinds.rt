//! Sets of kinds of dependency.

ghost use Rattle.std.specs.Prelude.{◌≡◌, ◌≢◌, ◌↔◌, true, false};
ghost use Rattle.lab_deps.specs.KindBits.{has_any};
ghost use Rattle.lab_deps.specs.KindSets.{among, is_any, is_write, is_flow, is_anti, is_item_anti};
ghost use Rattle.lab_deps.specs.declared.edge.Kind.{Kind as Way};

use crate::arrows::{bit, has_bit};
use crate::edge::Kind;

/// A set of kinds of dependencies.
#[derive(Clone, Copy, Debug, PartialEq, Eq)]
pub struct Kinds {
    pub(crate) bits: u8,
}

impl Kinds {
    /// Each kind.
    pub const ALL: Kinds = Kinds { bits: 0b11111 };
    /// Write-dependencies.
    pub const WRITES: Kinds = Kinds { bits: 0b00001 };
    /// Write- and read-dependencies, without anti-dependencies.
    pub const FLOW: Kinds = Kinds { bits: 0b00111 };
    /// Anti-dependencies.
    pub const ANTI: Kinds = Kinds { bits: 0b11000 };
    /// Anti-dependencies at listed rows.
    pub const ITEM_ANTI: Kinds = Kinds { bits: 0b01000 };

    /// Returns the empty set.
    pub fn none() -> Kinds
        ensures { (kind : Way) → among result kind ≡ false }
    {
        Kinds { bits: 0 }
    }

    /// Returns the set with one more kind.
    pub fn and(self, kind: Kind) -> Kinds
        ensures more { among result kind ≡ true }
        ensures others { (other : Way) → other ≢ kind → among result other ≡ among self other }
    {
        Kinds {
            bits: self.bits | bit(kind),
        }
    }

    /// Returns whether the set has `kind`.
    pub fn has(self, kind: Kind) -> bool
        ensures { result ≡ among self kind }
    {
        has_bit(self.bits, kind)
    }

    /// Returns whether the sets have a kind in common.
    pub fn meets(self, other: Kinds) -> bool
        ensures { result ≡ true ↔ ((kind : Way) × (among self kind ≡ true) × (among other kind ≡ true)) }
    {
        let both = self.bits & other.bits;
        both != 0 && has_any(both)
    }
}

/// Each named set has exactly the kinds that its name says.
pub fn named_kinds_are_exact()
    ensures all { (kind : Way) → among Kinds.ALL kind ≡ is_any kind }
    ensures writes { (kind : Way) → among Kinds.WRITES kind ≡ is_write kind }
    ensures flow { (kind : Way) → among Kinds.FLOW kind ≡ is_flow kind }
    ensures anti { (kind : Way) → among Kinds.ANTI kind ≡ is_anti kind }
    ensures item_anti { (kind : Way) → among Kinds.ITEM_ANTI kind ≡ is_item_anti kind }
{}

/// Whether a cell has the bit of some kind.
fn has_any(cell: u8) -> bool
    ensures { result ≡ has_any cell }
{
    has_bit(cell, Kind::Write)
        || (has_bit(cell, Kind::ItemRead)
            || (has_bit(cell, Kind::PredicateRead)
                || (has_bit(cell, Kind::ItemAnti) || has_bit(cell, Kind::PredicateAnti))))
}
