//! What a fault's kind says, and whether a stop tells it.

use crate::stop::NAME_RULE;
use crate::walk::Wrong;
use lab_statement::ScriptFaultKind;

/// Whether a fault of this kind is what a stop tells.
pub fn is_told(kind: ScriptFaultKind, wrong: Wrong) -> bool {
    match kind {
        ScriptFaultKind::UnknownStatement | ScriptFaultKind::BadPredicate => {
            wrong == Wrong::Unexpected
        }
        ScriptFaultKind::BadTableName => wrong == Wrong::NotAName,
        ScriptFaultKind::NumberOutOfRange => matches!(wrong, Wrong::OutOfRange(_)),
        ScriptFaultKind::TooDeep => wrong == Wrong::TooDeep,
        ScriptFaultKind::DuplicateSetupRow => wrong == Wrong::RepeatedRow,
        ScriptFaultKind::TooManyTables => wrong == Wrong::FifthTable,
        _ => false,
    }
}

/// What a fault's kind says by itself.
pub fn kind_rule(kind: ScriptFaultKind) -> &'static str {
    match kind {
        ScriptFaultKind::BadPredicate => "no predicate of the grammar goes on like this",
        ScriptFaultKind::BadTableName => NAME_RULE,
        ScriptFaultKind::NumberOutOfRange => "a number is out of its range",
        ScriptFaultKind::TooDeep => "at most 16 '(' and 'not' may be open",
        ScriptFaultKind::DuplicateSetupRow => "the setup has a row twice",
        ScriptFaultKind::TooManyTables => "a script names at most 4 tables",
        _ => "no statement of the grammar goes on like this",
    }
}
