//! Prints statements so that they can be parsed again.

ghost use Rattle.std.specs.Prelude.{◌≡◌, ◌≢◌, ◌≤◌, ◌<◌, length, Some, IfOk, OnOk, Err};
ghost use Rattle.lab_printing.specs.Printed.{printed_statement};
ghost use Rattle.lab_printing.specs.Depth.{statement_depth};
ghost use Rattle.lab_printing.specs.Limits.{max_depth, max_statement_bytes, StatementPrints};
ghost use Rattle.lab_statement.specs.Text.{SpellsStatement};
ghost use Rattle.lab_statement.specs.StatementText.{statement_in};

use lab_printing::{PrintFault, check_statement, put_statement};
use lab_table::Statement;
use std::alloc::Global;

/// Returns the printed form of a statement, if it keeps the limits of a text. Otherwise fails with `TooDeep`, or with
/// `TooLong` if only the length exceeds its limit.
pub fn print_statement(alloc: Global, statement: &Statement) -> Result<Vec<u8>, PrintFault>
    ensures text { IfOk result (λ text. text.items ≡ printed_statement statement.now) }
    // What is printed is read as the same statement again.
    ensures again { IfOk result (λ text. SpellsStatement text.items statement.now) }
    // The same as a function of the text.
    ensures read { IfOk result (λ text. statement_in text.items ≡ Some statement.now) }
    ensures prints { OnOk result (StatementPrints statement.now) }
    ensures too_deep { result ≡ Err PrintFault.TooDeep → max_depth < statement_depth statement.now }
    ensures too_long { result ≡ Err PrintFault.TooLong → (statement_depth statement.now ≤ max_depth) × (max_statement_bytes < length (printed_statement statement.now)) }
    ensures few_tables { result ≢ Err PrintFault.TooManyTables }
{
    check_statement(statement)?;
    let mut text = Vec::new(alloc);
    put_statement(&mut text, statement)?;
    Ok(text)
}
