//! The key of a condition: a number that a lens reads off each row of which the condition is true.

ghost use Rattle.std.specs.Prelude.{◌≡◌, ℕ, ℤ, true, false};
ghost use Rattle.lab_table.specs.Predicate.{compares, holds, column};
ghost use Rattle.lab_conditions.specs.Filed.{looked};

use crate::bounds::bounds_of;
use crate::comparison::opposite;
use crate::lens::Lens;
use lab_table::{Cmp, Col, Pred, PredKind, Value};

/// The number that a lens reads off each row of which a condition is true.
#[derive(Clone, Copy)]
pub(crate) struct Key {
    pub(crate) lens: Lens,
    pub(crate) number: i64,
}

impl Key {
    /// The key that every condition has.
    pub(crate) const ANYTHING: Key = Key {
        lens: Lens::Anything,
        number: 0,
    };
}

/// A key of a condition, by the part of it that lets the fewest rows pass.
pub(crate) fn key_of(pred: &Pred) -> Key
    ensures { (id : ℕ) (value : ℤ) → holds pred.now id value ≡ true → looked result.lens id value ≡ result.number }
{
    better(key_of_parts(pred), bounds_of(pred).key())
}

/// A key of a condition by one of its parts.
#[cycle(keys)]
fn key_of_parts(pred: &Pred) -> Key
    ensures { (id : ℕ) (value : ℤ) → holds pred.now id value ≡ true → looked result.lens id value ≡ result.number }
{
    match &pred.kind {
        PredKind::Compare { col, cmp, number } => key_of_comparison(*col, *cmp, *number),
        PredKind::Remainder { col, modulus, rest } => Key {
            lens: Lens::Remainder(*col, *modulus),
            number: rest.number(),
        },
        PredKind::Not(p) => key_of_opposite(p),
        PredKind::And(p, q) => better(key_of_parts(p), key_of_parts(q)),
        PredKind::OneOf { .. } | PredKind::Or(..) => Key::ANYTHING,
    }
}

/// A key of the opposite of a condition.
#[cycle(keys)]
fn key_of_opposite(pred: &Pred) -> Key
    ensures { (id : ℕ) (value : ℤ) → holds pred.now id value ≡ false → looked result.lens id value ≡ result.number }
{
    match &pred.kind {
        PredKind::Compare { col, cmp, number } => key_of_comparison(*col, opposite(*cmp), *number),
        PredKind::Remainder { col, modulus, rest } => Key {
            lens: Lens::Misses(*col, *modulus, *rest),
            number: 1,
        },
        PredKind::Not(p) => key_of_parts(p),
        PredKind::Or(p, q) => better(key_of_opposite(p), key_of_opposite(q)),
        PredKind::OneOf { .. } | PredKind::And(..) => Key::ANYTHING,
    }
}

/// A key of a comparison.
fn key_of_comparison(col: Col, cmp: Cmp, number: Value) -> Key
    ensures { (id : ℕ) (value : ℤ) → compares cmp (column col id value) number ≡ true → looked result.lens id value ≡ result.number }
{
    match cmp {
        Cmp::Eq => Key {
            lens: Lens::Number(col),
            number: number.number(),
        },
        Cmp::Ne | Cmp::Lt | Cmp::Le | Cmp::Gt | Cmp::Ge => Key::ANYTHING,
    }
}

/// The one of two keys whose lens is worth more.
fn better(a: Key, b: Key) -> Key
    ensures { (id : ℕ) (value : ℤ) → looked a.lens id value ≡ a.number → looked b.lens id value ≡ b.number → looked result.lens id value ≡ result.number }
{
    if a.lens.worth() < b.lens.worth() {
        b
    } else {
        a
    }
}
