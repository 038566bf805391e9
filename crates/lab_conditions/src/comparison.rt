//! Comparisons turned round.

ghost use Rattle.std.specs.Prelude.{◌≡◌, ℤ, not};
ghost use Rattle.lab_table.specs.Predicate.{compares};

use lab_table::Cmp;

/// The comparison that is true exactly where this one is false.
pub(crate) fn opposite(cmp: Cmp) -> Cmp
    ensures { (a b : ℤ) → compares result a b ≡ not (compares cmp a b) }
{
    match cmp {
        Cmp::Eq => Cmp::Ne,
        Cmp::Ne => Cmp::Eq,
        Cmp::Lt => Cmp::Ge,
        Cmp::Le => Cmp::Gt,
        Cmp::Gt => Cmp::Le,
        Cmp::Ge => Cmp::Lt,
    }
}
