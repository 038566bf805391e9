//! The subcommand `matrix`: each case on each engine.

ghost use Rattle.std.specs.Prelude.{◌≡◌, ◌≢◌, ◌⊎◌, List, ℕ, IfOk, IfErr};
ghost use Rattle.std.specs.Io.KnownBytes.{Appends, Keeps};
ghost use Rattle.lab_matrix.specs.Matrix.{IsMatrixFault};
ghost use Rattle.lab_case_commands.specs.Tabulating.{IsMatrixAnswer, IsTabulated, IsUntabulated};

use lab_matrix::{MatrixFault, print_matrix};
use lab_session::print_play_fault;
use lab_streams::{Answer, Ending, RunFault, write_text};
use lab_table::NoMemory;
use std::alloc::{AllocError, Global};
use std::io::Write;

/// The text of the matrix.
fn tabulated(alloc: Global) -> Result<Vec<u8>, MatrixFault>
    ensures text { IfOk result (λ text. IsTabulated text.items Ending.Done) }
    ensures fault { IfErr result IsMatrixFault }
{
    let matrix = lab_matrix::matrix(alloc)?;
    let text = print_matrix(alloc, &matrix);
    drop(matrix);
    Ok(text?)
}

/// The line of a play that was refused.
fn untold(alloc: Global, fault: MatrixFault) -> Result<Answer, NoMemory>
    requires { IsMatrixFault fault }
    ensures { IfOk result (λ answer. IsUntabulated answer.text.items answer.ending) }
{
    match fault {
        MatrixFault::NoMemory => Err(AllocError),
        MatrixFault::Play { fault, .. } => Ok(Answer {
            text: print_play_fault(alloc, &fault)?,
            ending: Ending::Refused,
        }),
    }
}

/// The text of the matrix, or the line of a play that was refused.
fn answer(alloc: Global) -> Result<Answer, NoMemory>
    ensures { IfOk result (λ answer. IsMatrixAnswer answer.text.items answer.ending) }
{
    match tabulated(alloc) {
        Ok(text) => Ok(Answer {
            text,
            ending: Ending::Done,
        }),
        Err(fault) => untold(alloc, fault),
    }
}

/// Writes the matrix: for each case, the level that its history meets on each engine, and whether it is a snapshot run;
/// or the line of a play that was refused. Fails with `NoMemory` before anything is written, and with `Unwritten` if a
/// write fails.
pub fn matrix<W: Write>(alloc: Global, writer: &mut W) -> Result<Ending, RunFault>
    ensures written { IfOk result (λ ending. (text : List ℕ) × Appends (W.contents writer.old) (W.contents writer.new) text × IsMatrixAnswer text ending) }
    ensures reads_nothing { IfErr result (λ fault. fault ≢ RunFault.Unread) }
    ensures silent { IfErr result (λ fault. (fault ≡ RunFault.Unwritten) ⊎ Keeps (W.contents writer.old) (W.contents writer.new)) }
{
    let answer = answer(alloc)?;
    write_text(writer, answer.text.as_slice())?;
    Ok(answer.ending)
}
