//! Statements that are parsed or copied with a failing allocation, also within their condition.

use lab_refusal_tests::{refuse, was_refused};
use lab_statement::{ScriptFault, parse_statement, print_statement};
use lab_table::{Statement, StatementKind};
use std::alloc::Global;

/// A statement with every kind of condition.
pub const EVERY_KIND: &str =
    "update test set value = value - 1 where not value % 3 = -1 and (id in (3, -1, 3) or value <= 10)";

/// Copies the condition of an update.
fn with_condition_copied(alloc: Global, statement: &Statement) -> Result<Statement, ScriptFault> {
    match &statement.kind {
        StatementKind::Update {
            expr,
            pred: Some(pred),
        } => {
            let pred = Some(pred.copy(alloc)?);
            Ok(Statement {
                table: statement.table,
                kind: StatementKind::Update { expr: *expr, pred },
            })
        }
        _ => Ok(statement.copy(alloc)?),
    }
}

/// The statement of every kind by a call: read, copied, or with its condition copied.
fn made_statement(
    alloc: Global,
    call: u8,
    statement: &Statement,
) -> Result<Statement, ScriptFault> {
    if call == 0 {
        parse_statement(alloc, EVERY_KIND.as_bytes())
    } else if call == 1 {
        Ok(statement.copy(alloc)?)
    } else {
        with_condition_copied(alloc, statement)
    }
}

/// Whether a statement is that of every kind.
fn is_every_kind(alloc: Global, statement: &Statement) -> bool {
    match print_statement(alloc, statement) {
        Ok(text) => text.as_slice() == EVERY_KIND.as_bytes(),
        Err(_) => false,
    }
}

/// Whether a call made the statement of every kind, or found no memory where an allocation was refused.
fn is_right(alloc: Global, made: &Result<Statement, ScriptFault>, refused: bool) -> bool {
    match made {
        Ok(statement) => is_every_kind(alloc, statement),
        Err(fault) => refused && *fault == ScriptFault::NoMemory,
    }
}

/// Makes a call with an allocation refused, and says whether it answers what it is to answer, and whether an allocation
/// was refused.
pub fn tried(alloc: Global, growth: u16, call: u8, statement: &Statement) -> (bool, bool) {
    refuse(alloc, growth);
    let made = made_statement(alloc, call, statement);
    let refused = was_refused(alloc);
    let right = is_right(alloc, &made, refused);
    drop(made);
    (right, refused)
}
