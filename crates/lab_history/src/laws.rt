//! Theorems on histories, stated as contracts of empty functions.

ghost use Rattle.std.specs.Prelude.{◌≡◌, ◌↔◌, ℕ, List, Some, None};
ghost use Rattle.lab_table.specs.Row.{Row};
ghost use Rattle.lab_history.specs.Version.{last_write, WritesAt, IsLastWrite, place_in, StandsAt, IsPlaceOf};
ghost use Rattle.lab_history.specs.declared.operation.Op.{Op as OpValue};

/// A transaction's last write of a row is the greatest number of its operations that write the row, counted from 1.
/// There is no last write exactly if no operation writes the row.
pub fn last_write_is_the_greatest()
    ensures last { (ops : List OpValue) (row : Row) (k : ℕ) → (last_write ops row ≡ Some k) ↔ IsLastWrite ops row k }
    ensures none { (ops : List OpValue) (row : Row) → (last_write ops row ≡ None) ↔ ((k : ℕ) → WritesAt ops k row → ⊥) }
{}

/// A transaction's position among a row's installers is the first position of its number, counted from 1. There is no
/// position exactly if the list lacks the number.
pub fn place_is_the_first()
    ensures place { (ns : List ℕ) (n : ℕ) (p : ℕ) → (place_in ns n ≡ Some p) ↔ IsPlaceOf ns n p }
    ensures none { (ns : List ℕ) (n : ℕ) → (place_in ns n ≡ None) ↔ ((p : ℕ) → StandsAt ns p n → ⊥) }
{}
