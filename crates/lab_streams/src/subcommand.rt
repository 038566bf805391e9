//! Subcommands that read an input: the input is read completely, one text is written, and hints come last.

ghost use Rattle.std.specs.Prelude.{◌≡◌, ◌⊎◌, List, ℕ, IfOk, IfErr, IfSome, OnErr};
ghost use Rattle.std.specs.Io.KnownBytes.{Appends, Keeps};
ghost use Rattle.lab_streams.specs.Input.{ReadsFirst, read_of};
ghost use Rattle.lab_streams.specs.declared.ending.Ending.{Ending as Ends};

use crate::ending::{Ending, RunFault};
use crate::input::read_input;
use crate::output::{Answer, write_text};
use lab_table::NoMemory;
use std::alloc::Global;
use std::io::{Read, Write};

/// A subcommand that turns an input into one text.
pub trait Subcommand: Drop {
    /// What is asked of its type, as that what it is lent may be shared between threads.
    ghost Needs: { Type 0 };

    /// The text and the ending that are due of an input.
    ghost Says: { Self → List ℕ → List ℕ → Ends → Type 0 };

    /// Returns the output for an input, and how the run ends.
    fn answer(&mut self, alloc: Global, input: &[u8]) -> Result<Answer, NoMemory>
        requires { Needs }
        ensures { IfOk result (λ answer. Says self.old input.now answer.text.items answer.ending) };

    /// Writes a hint to `notes`, if the output calls for one. Ignores failures.
    fn note<N: Write>(&self, alloc: Global, input: &[u8], ending: Ending, notes: &mut N);

    /// What is due of as much of an input as is read is due of all of it.
    ghost whole: { (subcommand : Self) (input text : List ℕ) (ending : Ends) → Says subcommand (read_of input) text ending → Says subcommand input text ending };
}

/// Reads an input, and writes the output of a subcommand for it. The input is read before the first write. Fails with
/// `Unread` if it can't be read, and with `NoMemory`, before anything is written; fails with `Unwritten` if a write
/// fails. After the output, a hint may be written to `notes`, without regard to failures.
pub fn answer_input<S: Subcommand, R: Read, W: Write, N: Write>(
    alloc: Global,
    mut subcommand: S,
    reader: &mut R,
    writer: &mut W,
    notes: &mut N,
) -> Result<Ending, RunFault>
    requires { S.Needs }
    ensures written { IfOk result (λ ending. IfSome (R.remaining reader.old) (λ input.
        (text : List ℕ) × Appends (W.contents writer.old) (W.contents writer.new) text × S.Says subcommand input text ending)) }
    ensures read_first { ReadsFirst result (R.remaining reader.old) (R.remaining reader.new) }
    ensures silent { IfErr result (λ fault. (fault ≡ RunFault.Unwritten) ⊎ Keeps (W.contents writer.old) (W.contents writer.new)) }
    ensures hint_last { OnErr result (Keeps (N.contents notes.old) (N.contents notes.new)) }
{
    let input = read_input(alloc, reader)?;
    let answer = subcommand.answer(alloc, input.as_slice())?;
    write_text(writer, answer.text.as_slice())?;
    subcommand.note(alloc, input.as_slice(), answer.ending, notes);
    Ok(answer.ending)
}
