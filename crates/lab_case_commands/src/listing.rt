//! The subcommand `case`: prints the script of a case.

ghost use Rattle.std.specs.Prelude.{◌≡◌, ◌≢◌, ◌⊎◌, IfOk, IfErr, OnOk};
ghost use Rattle.std.specs.Io.KnownBytes.{Appends, Keeps};
ghost use Rattle.lab_script.specs.Printed.{printed_script};
ghost use Rattle.lab_matrix.specs.Listings.{case_script};

use lab_matrix::{CaseName, cases_print};
use lab_printing::PrintFault;
use lab_script::print_script;
use lab_streams::{Ending, RunFault, write_text};
use lab_table::NoMemory;
use std::alloc::{AllocError, Global};
use std::io::Write;

/// The printed form of a case's script.
fn text_of(alloc: Global, name: CaseName) -> Result<Vec<u8>, NoMemory>
    ensures { IfOk result (λ text. text.items ≡ printed_script (case_script name)) }
{
    cases_print();
    let script = lab_matrix::case(alloc, name)?;
    match print_script(alloc, &script) {
        Ok(text) => Ok(text),
        Err(PrintFault::NoMemory) => Err(AllocError),
        Err(PrintFault::TooDeep) => unreachable!(),
        Err(PrintFault::TooLong) => unreachable!(),
        Err(PrintFault::TooManyTables) => unreachable!(),
    }
}

/// Writes the printed script of a case. Fails with `NoMemory` before anything is written, and with `Unwritten` if a
/// write fails.
pub fn case<W: Write>(alloc: Global, name: CaseName, writer: &mut W) -> Result<Ending, RunFault>
    ensures done { IfOk result (λ ending. ending ≡ Ending.Done) }
    ensures written { OnOk result (Appends (W.contents writer.old) (W.contents writer.new) (printed_script (case_script name))) }
    ensures reads_nothing { IfErr result (λ fault. fault ≢ RunFault.Unread) }
    ensures silent { IfErr result (λ fault. (fault ≡ RunFault.Unwritten) ⊎ Keeps (W.contents writer.old) (W.contents writer.new)) }
{
    let text = text_of(alloc, name)?;
    write_text(writer, text.as_slice())?;
    Ok(Ending::Done)
}
