//! Between which numbers the rows lie that a statement may match.

ghost use Rattle.std.specs.Prelude.{◌≡◌, ◌≤◌, ◌<◌, ℕ, pos, int_le, int_lt, true, IfSome};
ghost use Rattle.std.specs.Ordering.{int_eq};
ghost use Rattle.lab_table.specs.Row.{Row};
ghost use Rattle.lab_table.specs.Predicate.{Compare, may_hold};
ghost use Rattle.lab_table.specs.Statement.{where_may_hold, may_match};

use lab_table::{Cmp, Col, Pred, PredKind, Statement, StatementKind, Value};

/// A number such that no row with a lesser one may match a statement; 0 where the statement has no such bound.
pub fn least_id(statement: &Statement) -> u32
    ensures { (row : Row) → may_match statement.now row ≡ true → result ≤ row.id }
{
    match &statement.kind {
        StatementKind::Select { pred } => where_least(pred),
        StatementKind::Update { pred, .. } => where_least(pred),
        StatementKind::Insert { .. } => 0,
        StatementKind::Delete { pred } => where_least(pred),
    }
}

/// A number such that no row with this or a greater one may match a statement, where the statement has such a bound.
pub fn beyond_id(statement: &Statement) -> Option<u32>
    ensures { (row : Row) → may_match statement.now row ≡ true → IfSome result (λ beyond. row.id < beyond) }
{
    match &statement.kind {
        StatementKind::Select { pred } => where_beyond(pred),
        StatementKind::Update { pred, .. } => where_beyond(pred),
        StatementKind::Insert { .. } => None,
        StatementKind::Delete { pred } => where_beyond(pred),
    }
}

fn where_least(pred: &Option<Pred>) -> u32
    ensures { (id : ℕ) → where_may_hold pred.now id ≡ true → result ≤ id }
{
    match pred {
        None => 0,
        Some(pred) => pred_least(pred),
    }
}

fn where_beyond(pred: &Option<Pred>) -> Option<u32>
    ensures { (id : ℕ) → where_may_hold pred.now id ≡ true → IfSome result (λ beyond. id < beyond) }
{
    match pred {
        None => None,
        Some(pred) => pred_beyond(pred),
    }
}

/// A number such that the condition may be true of no row with a lesser one.
fn pred_least(pred: &Pred) -> u32
    ensures { (id : ℕ) → may_hold pred.now id ≡ true → result ≤ id }
{
    match &pred.kind {
        PredKind::Compare { col, cmp, number } => compared_least(*col, *cmp, *number),
        PredKind::Remainder { .. } => 0,
        PredKind::OneOf { .. } => 0,
        PredKind::Not(_) => 0,
        PredKind::And(p, q) => greater(pred_least(p), pred_least(q)),
        PredKind::Or(p, q) => lesser(pred_least(p), pred_least(q)),
    }
}

/// A number such that the condition may be true of no row with this or a greater one.
fn pred_beyond(pred: &Pred) -> Option<u32>
    ensures { (id : ℕ) → may_hold pred.now id ≡ true → IfSome result (λ beyond. id < beyond) }
{
    match &pred.kind {
        PredKind::Compare { col, cmp, number } => compared_beyond(*col, *cmp, *number),
        PredKind::Remainder { .. } => None,
        PredKind::OneOf { .. } => None,
        PredKind::Not(_) => None,
        PredKind::And(p, q) => first_of(pred_beyond(p), pred_beyond(q)),
        PredKind::Or(p, q) => last_of(pred_beyond(p), pred_beyond(q)),
    }
}

fn greater(a: u32, b: u32) -> u32
    ensures a { a ≤ result }
    ensures b { b ≤ result }
    ensures greatest { (n : ℕ) → a ≤ n → b ≤ n → result ≤ n }
{
    if a < b { b } else { a }
}

fn lesser(a: u32, b: u32) -> u32
    ensures a { result ≤ a }
    ensures b { result ≤ b }
    ensures least { (n : ℕ) → n < a → n < b → n < result }
{
    if a < b { a } else { b }
}

/// The lesser bound, of those that there are.
fn first_of(a: Option<u32>, b: Option<u32>) -> Option<u32>
    ensures { (n : ℕ) → IfSome a (λ x. n < x) → IfSome b (λ y. n < y) → IfSome result (λ first. n < first) }
{
    match a {
        None => b,
        Some(x) => match b {
            None => a,
            Some(y) => Some(lesser(x, y)),
        },
    }
}

/// The greater bound, where there are both.
fn last_of(a: Option<u32>, b: Option<u32>) -> Option<u32>
    ensures a { (n : ℕ) → IfSome a (λ x. n < x) → IfSome result (λ last. n < last) }
    ensures b { (n : ℕ) → IfSome b (λ y. n < y) → IfSome result (λ last. n < last) }
{
    match a {
        None => None,
        Some(x) => match b {
            None => None,
            Some(y) => Some(greater(x, y)),
        },
    }
}

/// The least number that a comparison allows.
fn compared_least(col: Col, cmp: Cmp, number: Value) -> u32
    ensures { (id : ℕ) → may_hold (Compare col cmp number) id ≡ true → result ≤ id }
{
    match col {
        Col::Value => 0,
        Col::Id => match cmp {
            Cmp::Eq => from(number),
            Cmp::Gt => from(number),
            Cmp::Ge => from(number),
            Cmp::Ne => 0,
            Cmp::Lt => 0,
            Cmp::Le => 0,
        },
    }
}

/// The number behind those that a comparison allows.
fn compared_beyond(col: Col, cmp: Cmp, number: Value) -> Option<u32>
    ensures { (id : ℕ) → may_hold (Compare col cmp number) id ≡ true → IfSome result (λ beyond. id < beyond) }
{
    match col {
        Col::Value => None,
        Col::Id => match cmp {
            Cmp::Eq => behind(number),
            Cmp::Lt => behind(number),
            Cmp::Le => behind(number),
            Cmp::Ne => None,
            Cmp::Gt => None,
            Cmp::Ge => None,
        },
    }
}

/// The number itself, or 0 where it is less.
fn from(number: Value) -> u32
    ensures eq { (id : ℕ) → int_eq (pos id) number ≡ true → result ≤ id }
    ensures gt { (id : ℕ) → int_lt number (pos id) ≡ true → result ≤ id }
    ensures ge { (id : ℕ) → int_le number (pos id) ≡ true → result ≤ id }
{
    match u32::try_from(number.number()) {
        Ok(id) => id,
        Err(_) => 0,
    }
}

/// The number behind this one, where this is none below 0.
fn behind(number: Value) -> Option<u32>
    ensures eq { (id : ℕ) → int_eq (pos id) number ≡ true → IfSome result (λ beyond. id < beyond) }
    ensures lt { (id : ℕ) → int_lt (pos id) number ≡ true → IfSome result (λ beyond. id < beyond) }
    ensures le { (id : ℕ) → int_le (pos id) number ≡ true → IfSome result (λ beyond. id < beyond) }
{
    match u32::try_from(number.number()) {
        Ok(id) => id.checked_add(1),
        Err(_) => None,
    }
}
