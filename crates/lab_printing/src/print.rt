//! Printed statements that keep the limits of a text.

ghost use Rattle.std.specs.Prelude.{◌≡◌, ◌≢◌, ◌++◌, ◌≤◌, ◌<◌, length, OnOk, Err};
ghost use Rattle.lab_printing.specs.Printed.{printed_command, printed_statement};
ghost use Rattle.lab_printing.specs.Depth.{statement_depth};
ghost use Rattle.lab_printing.specs.Ranges.{StatementInRange};
ghost use Rattle.lab_printing.specs.Limits.{max_depth, max_statement_bytes, StatementPrints, CommandPrints, IsDeep, IsLong};

use crate::fits::{depth_fits, statement_fits};
use crate::limits::MAX_STATEMENT_BYTES;
use crate::sink::append_result;
use crate::spelling::{spell_command, spell_statement};
use lab_table::{Command, NoMemory, Statement};
use std::alloc::AllocError;
use thiserror::Error;

/// Why a value has no printed text.
#[derive(Clone, Copy, Debug, PartialEq, Eq, Error)]
pub enum PrintFault {
    /// An allocation failed.
    #[error("no memory")]
    NoMemory,
    /// More than 16 parentheses and `not`s of a statement would be open at once.
    #[error("a statement is too deep")]
    TooDeep,
    /// A statement would have more than 1,000 bytes, the line of a setup more than 4,000 bytes, or a script more than
    /// 2,000 lines.
    #[error("the text is too long")]
    TooLong,
    /// A script names more than four tables. Only `print_script` returns it.
    #[error("there are too many tables")]
    TooManyTables,
}

impl From<AllocError> for PrintFault {
    ghost use Rattle.std.specs.Prelude.{◌≡◌};
    ghost use Rattle.lab_printing.specs.declared.print.PrintFault.TheVariants.{NoMemory};

    ghost from_gives = { λ _ fault. fault ≡ NoMemory };

    fn from(_: AllocError) -> PrintFault {
        PrintFault::NoMemory
    }
}

/// Checks that the printed form of a statement keeps the limits of a text. Returns `Ok` exactly if `print_statement` of
/// `lab_statement` returns a text unless memory runs out. Fails with `TooDeep` if more than 16 parentheses and `not`s
/// would be open at once, else with `TooLong` if the text would have more than 1,000 bytes. Allocates nothing, and
/// never fails with `NoMemory`. Call it before running or keeping a statement that must be printable.
pub fn check_statement(statement: &Statement) -> Result<(), PrintFault>
    ensures prints { OnOk result (StatementPrints statement.now) }
    ensures too_deep { result ≡ Err PrintFault.TooDeep → max_depth < statement_depth statement.now }
    ensures too_long { result ≡ Err PrintFault.TooLong → (statement_depth statement.now ≤ max_depth) × (max_statement_bytes < length (printed_statement statement.now)) }
    ensures memory { result ≢ Err PrintFault.NoMemory }
    ensures few_tables { result ≢ Err PrintFault.TooManyTables }
{
    if !depth_fits(statement) {
        Err(PrintFault::TooDeep)
    } else if !statement_fits(statement) {
        Err(PrintFault::TooLong)
    } else {
        Ok(())
    }
}

/// Appends the printed form of a statement, of any length. On failure, a part of it may have been appended.
pub fn put_statement(out: &mut Vec<u8>, statement: &Statement) -> Result<(), NoMemory>
    ensures in_range { OnOk result (StatementInRange statement.now) }
    ensures text { OnOk result (out.new.items ≡ out.old.items ++ printed_statement statement.now) }
{
    append_result(spell_statement(out, statement))
}

/// Appends the printed form of a command, if it keeps the limits of a text. Fails with `TooDeep` or `TooLong` only if
/// it exceeds that limit. On failure, a part of the text may have been appended.
pub fn put_printable(out: &mut Vec<u8>, command: &Command) -> Result<(), PrintFault>
    ensures text { OnOk result (out.new.items ≡ out.old.items ++ printed_command command.now) }
    ensures prints { OnOk result (CommandPrints command.now) }
    ensures too_deep { result ≡ Err PrintFault.TooDeep → IsDeep command.now }
    ensures too_long { result ≡ Err PrintFault.TooLong → IsLong command.now }
    ensures few_tables { result ≢ Err PrintFault.TooManyTables }
{
    match command {
        Command::Run(statement) if !depth_fits(statement) => Err(PrintFault::TooDeep),
        _ => {
            let before = out.len();
            append_result(spell_command(out, command))?;
            // The length is known once it stands there.
            if out.len() - before > MAX_STATEMENT_BYTES {
                return Err(PrintFault::TooLong);
            }
            Ok(())
        }
    }
}

/// Checks that the printed form of a command keeps the limits of a text. Allocates nothing.
pub fn check_command(command: &Command) -> Result<(), PrintFault>
    ensures prints { OnOk result (CommandPrints command.now) }
    ensures too_deep { result ≡ Err PrintFault.TooDeep → IsDeep command.now }
    ensures too_long { result ≡ Err PrintFault.TooLong → IsLong command.now }
    ensures few_tables { result ≢ Err PrintFault.TooManyTables }
{
    match command {
        Command::Begin | Command::Commit | Command::Abort => Ok(()),
        Command::Run(statement) => check_statement(statement),
    }
}
