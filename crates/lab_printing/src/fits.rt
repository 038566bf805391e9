//! Length check of printed statements: measures the text without building it, and no further than the limit.

ghost use Rattle.std.specs.Prelude.{◌≤◌, ◌↔◌, length, IsTrue};
ghost use Rattle.lab_printing.specs.Printed.{printed_statement};
ghost use Rattle.lab_printing.specs.Depth.{deeper, depth_of, statement_depth};
ghost use Rattle.lab_printing.specs.Limits.{max_depth, max_statement_bytes};

use crate::limits::{MAX_DEPTH, MAX_STATEMENT_BYTES};
use crate::sink::Room;
use crate::spelling::{is_joined, is_or, spell_statement};
use lab_table::{Pred, PredKind, Statement, StatementKind};

/// Whether at most [`MAX_DEPTH`] parentheses and `not`s are open at one place of a statement's printed form.
pub fn depth_fits(statement: &Statement) -> bool
    ensures { IsTrue result ↔ (statement_depth statement.now ≤ max_depth) }
{
    match &statement.kind {
        StatementKind::Select { pred: Some(p) }
        | StatementKind::Update { pred: Some(p), .. }
        | StatementKind::Delete { pred: Some(p) } => nests_within(p, false, usize::from(MAX_DEPTH)),
        _ => true,
    }
}

// A pair of parentheses round the predicate counts too.
fn nests_within(pred: &Pred, enclosed: bool, depth: usize) -> bool
    ensures { IsTrue result ↔ (deeper enclosed (depth_of pred.now) ≤ depth) }
{
    let Some(depth) = depth.checked_sub(usize::from(enclosed)) else {
        return false;
    };
    match &pred.kind {
        PredKind::Compare { .. } | PredKind::Remainder { .. } | PredKind::OneOf { .. } => true,
        PredKind::Not(p) => match depth.checked_sub(1) {
            None => false,
            Some(depth) => nests_within(p, is_joined(p), depth),
        },
        PredKind::And(p, q) => nests_within(p, is_or(p), depth)
            && nests_within(q, is_joined(q), depth),
        PredKind::Or(p, q) => nests_within(p, false, depth) && nests_within(q, is_or(q), depth),
    }
}

/// Returns whether the printed form of `statement` has at most `MAX_STATEMENT_BYTES`.
pub fn statement_fits(statement: &Statement) -> bool
    ensures { IsTrue result ↔ (length (printed_statement statement.now) ≤ max_statement_bytes) }
{
    let mut room = Room::<MAX_STATEMENT_BYTES>::new();
    spell_statement(&mut room, statement)
}
