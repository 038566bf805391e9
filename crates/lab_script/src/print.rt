//! Printed scripts that keep the limits of a text.

ghost use Rattle.std.specs.Prelude.{◌≡◌, ◌≢◌, ◌≤◌, IfOk, MatchBool, OnOk, Err, length};
ghost use Rattle.lab_script.specs.Printed.{printed_script, renumbered};
ghost use Rattle.lab_script.specs.Script.{Spells};
ghost use Rattle.lab_script.specs.Limits.{AllPrint, ScriptPrints, BreaksDepth, BreaksLength, BreaksTables};
ghost use Rattle.lab_script.specs.Tables.{script_tables};
ghost use Rattle.lab_table.specs.TableSet.{max_tables};

use crate::limits::MAX_COMMANDS;
use crate::script::Script;
use crate::spelling::{setup_fits, spell_script};
use crate::tables::add_all;
use lab_printing::{PrintFault, check_command};
use lab_table::TableSet;
use std::alloc::Global;

/// Returns the printed form of a script, if it keeps the limits of a text; each line ends with a newline. Fails with
/// `TooDeep`, `TooLong` or `TooManyTables` only if the text would exceed that limit.
pub fn print_script(alloc: Global, script: &Script) -> Result<Vec<u8>, PrintFault>
    ensures text { IfOk result (λ text. text.items ≡ printed_script script.now) }
    // What is printed is read as the same script again, its commands on lines 2, 3 and so on.
    ensures again { IfOk result (λ text. Spells text.items (renumbered script.now)) }
    ensures prints { OnOk result (ScriptPrints script.now) }
    ensures too_deep { result ≡ Err PrintFault.TooDeep → BreaksDepth script.now }
    ensures too_long { result ≡ Err PrintFault.TooLong → BreaksLength script.now }
    ensures too_many_tables { result ≡ Err PrintFault.TooManyTables → BreaksTables script.now }
{
    check_script(script)?;
    let mut text = Vec::new(alloc);
    if spell_script(&mut text, script) {
        Ok(text)
    } else {
        Err(PrintFault::NoMemory)
    }
}

/// Whether the printed form of a script keeps the limits of a text.
fn check_script(script: &Script) -> Result<(), PrintFault>
    ensures prints { OnOk result (ScriptPrints script.now) }
    ensures too_deep { result ≡ Err PrintFault.TooDeep → BreaksDepth script.now }
    ensures too_long { result ≡ Err PrintFault.TooLong → BreaksLength script.now }
    ensures too_many_tables { result ≡ Err PrintFault.TooManyTables → BreaksTables script.now }
{
    if script.lines.as_slice().len() > MAX_COMMANDS || !setup_fits(&script.setup) {
        Err(PrintFault::TooLong)
    } else if has_few_tables(script) {
        check_commands(script)
    } else {
        Err(PrintFault::TooManyTables)
    }
}

/// Whether a script has no more tables than it may name.
fn has_few_tables(script: &Script) -> bool
    ensures { MatchBool result (length (script_tables script.now) ≤ max_tables) (BreaksTables script.now) }
{
    let mut tables = TableSet::new();
    add_all(&mut tables, script.setup.rows()) && add_all(&mut tables, script.lines.as_slice())
}

/// Whether the printed form of each command keeps the limits of a text.
fn check_commands(script: &Script) -> Result<(), PrintFault>
    ensures prints { OnOk result (AllPrint script.now.lines) }
    ensures too_deep { result ≡ Err PrintFault.TooDeep → BreaksDepth script.now }
    ensures too_long { result ≡ Err PrintFault.TooLong → BreaksLength script.now }
    ensures few_tables { result ≢ Err PrintFault.TooManyTables }
{
    for line in script.lines.as_slice() {
        check_command(&line.command)?;
    }
    Ok(())
}
