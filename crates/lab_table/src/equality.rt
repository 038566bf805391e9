//! Equality of commands.

ghost use Rattle.std.specs.Prelude.{◌≡◌, ◌↔◌, IsTrue};

use crate::number::Value;
use crate::predicate::{Pred, PredKind};
use crate::statement::{Command, Expr, Statement, StatementKind};

impl Command {
    ghost use Rattle.std.specs.Prelude.{◌≡◌, ◌↔◌, IsTrue};

    /// Returns whether both commands are equal.
    pub fn equals(&self, other: &Command) -> bool
        ensures { IsTrue result ↔ (self.now ≡ other.now) }
    {
        match self {
            Command::Begin => matches!(other, Command::Begin),
            Command::Commit => matches!(other, Command::Commit),
            Command::Abort => matches!(other, Command::Abort),
            Command::Run(statement) => match other {
                Command::Run(run) => same_statements(statement, run),
                _ => false,
            },
        }
    }
}

fn same_statements(a: &Statement, b: &Statement) -> bool
    ensures { IsTrue result ↔ (a.now ≡ b.now) }
{
    a.table == b.table && same_kinds(&a.kind, &b.kind)
}

fn same_kinds(a: &StatementKind, b: &StatementKind) -> bool
    ensures { IsTrue result ↔ (a.now ≡ b.now) }
{
    match a {
        StatementKind::Select { pred } => match b {
            StatementKind::Select { pred: other } => same_wheres(pred, other),
            _ => false,
        },
        StatementKind::Update { expr, pred } => match b {
            StatementKind::Update {
                expr: other_expr,
                pred: other,
            } => same_expr(*expr, *other_expr) && same_wheres(pred, other),
            _ => false,
        },
        StatementKind::Insert { id, value } => match b {
            StatementKind::Insert {
                id: other_id,
                value: other,
            } => *id == *other_id && *value == *other,
            _ => false,
        },
        StatementKind::Delete { pred } => match b {
            StatementKind::Delete { pred: other } => same_wheres(pred, other),
            _ => false,
        },
    }
}

fn same_wheres(a: &Option<Pred>, b: &Option<Pred>) -> bool
    ensures { IsTrue result ↔ (a.now ≡ b.now) }
{
    match a {
        None => b.is_none(),
        Some(pred) => match b {
            Some(other) => same_preds(pred, other),
            None => false,
        },
    }
}

fn same_expr(a: Expr, b: Expr) -> bool
    ensures { IsTrue result ↔ (a ≡ b) }
{
    a == b
}

fn same_preds(a: &Pred, b: &Pred) -> bool
    ensures { IsTrue result ↔ (a.now ≡ b.now) }
{
    match &a.kind {
        PredKind::Compare { col, cmp, number } => match &b.kind {
            PredKind::Compare {
                col: other_col,
                cmp: other_cmp,
                number: other_number,
            } => *col == *other_col && *cmp == *other_cmp && *number == *other_number,
            _ => false,
        },
        PredKind::Remainder { col, modulus, rest } => match &b.kind {
            PredKind::Remainder {
                col: other_col,
                modulus: other_modulus,
                rest: other_rest,
            } => *col == *other_col && *modulus == *other_modulus && *rest == *other_rest,
            _ => false,
        },
        PredKind::OneOf { col, numbers } => match &b.kind {
            PredKind::OneOf {
                col: other_col,
                numbers: other_numbers,
            } => *col == *other_col && same_values(numbers.as_slice(), other_numbers.as_slice()),
            _ => false,
        },
        PredKind::Not(p) => match &b.kind {
            PredKind::Not(other) => same_preds(p, other),
            _ => false,
        },
        PredKind::And(p, q) => match &b.kind {
            PredKind::And(r, s) => same_preds(p, r) && same_preds(q, s),
            _ => false,
        },
        PredKind::Or(p, q) => match &b.kind {
            PredKind::Or(r, s) => same_preds(p, r) && same_preds(q, s),
            _ => false,
        },
    }
}

fn same_values(a: &[Value], b: &[Value]) -> bool
    ensures { IsTrue result ↔ (a.now ≡ b.now) }
{
    a == b
}
