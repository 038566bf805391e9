//! Theorems on parts of histories, stated as contracts of empty functions.

ghost use Rattle.lab_history.specs.History.{History as Whole};
ghost use Rattle.lab_cut.specs.PartOf.{IsPartOf};

/// A history is a part of itself.
pub fn whole_is_a_part()
    ensures { (h : Whole) → IsPartOf h h }
{}

/// A part of a part is a part.
pub fn part_of_a_part_is_a_part()
    ensures { (small part h : Whole) → IsPartOf small part → IsPartOf part h → IsPartOf small h }
{}
