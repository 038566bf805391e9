//! The subcommand `matrix` with given engines: each case on each of them.

ghost use Rattle.std.specs.Prelude.{◌≡◌, ◌≢◌, ◌⊎◌, List, ℕ, IfOk, IfErr};
ghost use Rattle.std.specs.Io.KnownBytes.{Appends, Keeps};
ghost use Rattle.lab_matrix.specs.Columns.{IsColumnsFault};
ghost use Rattle.lab_case_commands.specs.Tabulating.{IsColumnsAnswer, IsTabulatedAt, IsUntabulatedAt};

use lab_engine::Level;
use lab_matrix::{MatrixFault, columns_at, print_columns};
use lab_session::print_play_fault;
use lab_streams::{Answer, Ending, RunFault, write_text};
use lab_table::NoMemory;
use std::alloc::{AllocError, Global};
use std::io::Write;

/// The text of the cases at these levels.
fn tabulated_at(alloc: Global, levels: &[Level]) -> Result<Vec<u8>, MatrixFault>
    ensures text { IfOk result (λ text. IsTabulatedAt levels.now text.items Ending.Done) }
    ensures fault { IfErr result (IsColumnsFault levels.now) }
{
    let columns = columns_at(alloc, levels)?;
    let text = print_columns(alloc, &columns);
    drop(columns);
    Ok(text?)
}

/// The line of a play that was refused, the first at these levels.
fn untold_at(alloc: Global, fault: MatrixFault, _levels: &[Level]) -> Result<Answer, NoMemory>
    requires { IsColumnsFault _levels.now fault }
    ensures { IfOk result (λ answer. IsUntabulatedAt _levels.now answer.text.items answer.ending) }
{
    match fault {
        MatrixFault::NoMemory => Err(AllocError),
        MatrixFault::Play { fault, .. } => Ok(Answer {
            text: print_play_fault(alloc, &fault)?,
            ending: Ending::Refused,
        }),
    }
}

/// The text of the cases at these levels, or the line of a play that was refused.
fn answer_at(alloc: Global, levels: &[Level]) -> Result<Answer, NoMemory>
    ensures { IfOk result (λ answer. IsColumnsAnswer levels.now answer.text.items answer.ending) }
{
    match tabulated_at(alloc, levels) {
        Ok(text) => Ok(Answer {
            text,
            ending: Ending::Done,
        }),
        Err(fault) => untold_at(alloc, fault, levels),
    }
}

/// Writes the matrix of the engines of these levels, in their order: for each case, the level that its history meets,
/// and whether it is a snapshot run; or the line of a play that was refused. Fails with `NoMemory` before anything is
/// written, and with `Unwritten` if a write fails.
pub fn matrix_at<W: Write>(
    alloc: Global,
    writer: &mut W,
    levels: &[Level],
) -> Result<Ending, RunFault>
    ensures written { IfOk result (λ ending. (text : List ℕ) × Appends (W.contents writer.old) (W.contents writer.new) text × IsColumnsAnswer levels.now text ending) }
    ensures reads_nothing { IfErr result (λ fault. fault ≢ RunFault.Unread) }
    ensures silent { IfErr result (λ fault. (fault ≡ RunFault.Unwritten) ⊎ Keeps (W.contents writer.old) (W.contents writer.new)) }
{
    let answer = answer_at(alloc, levels)?;
    write_text(writer, answer.text.as_slice())?;
    Ok(answer.ending)
}
