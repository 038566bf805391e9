//! Equality of conditions.

ghost use Rattle.std.specs.Prelude.{◌≡◌, ◌↔◌, IsTrue};

use lab_table::{Cmp, Col, Pred, PredKind, Value};

/// Whether two conditions are written alike.
pub(crate) fn same(a: &Pred, b: &Pred) -> bool
    ensures { IsTrue result ↔ (a.now ≡ b.now) }
{
    match &a.kind {
        PredKind::Compare { col, cmp, number } => match &b.kind {
            PredKind::Compare {
                col: other_col,
                cmp: other_cmp,
                number: other_number,
            } => *col == *other_col && *cmp == *other_cmp && *number == *other_number,
            _ => false,
        },
        PredKind::Remainder { col, modulus, rest } => match &b.kind {
            PredKind::Remainder {
                col: other_col,
                modulus: other_modulus,
                rest: other_rest,
            } => *col == *other_col && *modulus == *other_modulus && *rest == *other_rest,
            _ => false,
        },
        PredKind::OneOf { col, numbers } => match &b.kind {
            PredKind::OneOf {
                col: other_col,
                numbers: other_numbers,
            } => *col == *other_col && same_values(numbers.as_slice(), other_numbers.as_slice()),
            _ => false,
        },
        PredKind::Not(p) => match &b.kind {
            PredKind::Not(other) => same(p, other),
            _ => false,
        },
        PredKind::And(p, q) => match &b.kind {
            PredKind::And(r, s) => same(p, r) && same(q, s),
            _ => false,
        },
        PredKind::Or(p, q) => match &b.kind {
            PredKind::Or(r, s) => same(p, r) && same(q, s),
            _ => false,
        },
    }
}

fn same_values(a: &[Value], b: &[Value]) -> bool
    ensures { IsTrue result ↔ (a.now ≡ b.now) }
{
    a == b
}

/// A number that is the same for equal conditions, and different for nearly all others.
pub(crate) fn digest(pred: &Pred) -> u64 {
    match &pred.kind {
        PredKind::Compare { col, cmp, number } => mixed(
            mixed(1, digest_of_column(*col)),
            mixed(digest_of_comparison(*cmp), digest_of_number(*number)),
        ),
        PredKind::Remainder { col, modulus, rest } => mixed(
            mixed(2, digest_of_column(*col)),
            mixed(u64::from(modulus.number()), digest_of_number(*rest)),
        ),
        PredKind::OneOf { col, numbers } => mixed(
            mixed(3, digest_of_column(*col)),
            digest_of_numbers(numbers.as_slice()),
        ),
        PredKind::Not(p) => mixed(4, digest(p)),
        PredKind::And(p, q) => mixed(mixed(5, digest(p)), digest(q)),
        PredKind::Or(p, q) => mixed(mixed(6, digest(p)), digest(q)),
    }
}

fn digest_of_column(col: Col) -> u64 {
    match col {
        Col::Id => 1,
        Col::Value => 2,
    }
}

fn digest_of_comparison(cmp: Cmp) -> u64 {
    match cmp {
        Cmp::Eq => 1,
        Cmp::Ne => 2,
        Cmp::Lt => 3,
        Cmp::Le => 4,
        Cmp::Gt => 5,
        Cmp::Ge => 6,
    }
}

fn digest_of_number(number: Value) -> u64 {
    let number = number.number();
    2 * number.unsigned_abs() + u64::from(number < 0)
}

fn digest_of_numbers(numbers: &[Value]) -> u64 {
    let mut all = 0;
    for number in numbers {
        all = mixed(all, digest_of_number(*number));
    }
    all
}

/// One number of two, which depends on their order: a round of multiplying and shifting.
fn mixed(a: u64, b: u64) -> u64 {
    let sum = a.rotate_left(25).wrapping_add(b);
    let product = sum.wrapping_mul(0x9e37_79b9_7f4a_7c15);
    product ^ (product >> 29)
}
