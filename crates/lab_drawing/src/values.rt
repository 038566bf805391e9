//! Whether the result of a statement depends on the values of rows.

ghost use Rattle.std.specs.Prelude.{◌≡◌};
ghost use Rattle.lab_drawing.specs.Values.{is_value, names_value, where_names_value, computes, uses_values};

use lab_table::{Col, Expr, Pred, PredKind, Statement, StatementKind};

fn is_value(col: Col) -> bool
    ensures { result ≡ is_value col }
{
    match col {
        Col::Id => false,
        Col::Value => true,
    }
}

/// Whether a condition has the column `value`.
fn names_value(pred: &Pred) -> bool
    ensures { result ≡ names_value pred.now }
{
    match &pred.kind {
        PredKind::Compare { col, .. } => is_value(*col),
        PredKind::Remainder { col, .. } => is_value(*col),
        PredKind::OneOf { col, .. } => is_value(*col),
        PredKind::Not(p) => names_value(p),
        PredKind::And(p, q) => names_value(p) || names_value(q),
        PredKind::Or(p, q) => names_value(p) || names_value(q),
    }
}

fn where_names_value(pred: &Option<Pred>) -> bool
    ensures { result ≡ where_names_value pred.now }
{
    match pred {
        None => false,
        Some(p) => names_value(p),
    }
}

/// Whether an expression computes with the old value.
fn computes(expr: Expr) -> bool
    ensures { result ≡ computes expr }
{
    match expr {
        Expr::Set(_) => false,
        Expr::Plus(_) | Expr::Minus(_) => true,
    }
}

/// Whether what a statement does to a row depends on the row's value: a select, which returns it; an update that computes
/// with it; and an update or a delete with a condition on it.
pub fn uses_values(statement: &Statement) -> bool
    ensures { result ≡ uses_values statement.now }
{
    match &statement.kind {
        StatementKind::Select { .. } => true,
        StatementKind::Update { expr, pred } => computes(*expr) || where_names_value(pred),
        StatementKind::Insert { .. } => false,
        StatementKind::Delete { pred } => where_names_value(pred),
    }
}
