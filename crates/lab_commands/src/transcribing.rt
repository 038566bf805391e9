//! The subcommand `serial`: runs the transactions of a script one after another.

ghost use Rattle.std.specs.Prelude.{◌≡◌, ◌⊎◌, ⊤, List, ℕ, IfOk, IfErr, IfSome, OnErr};
ghost use Rattle.std.specs.Io.KnownBytes.{Appends, Keeps};
ghost use Rattle.lab_streams.specs.Input.{ReadsFirst};
ghost use Rattle.lab_script.specs.Limits.{ScriptPrints};
ghost use Rattle.lab_script.specs.Transcript.{transcript};
ghost use Rattle.lab_commands.specs.ReadScripts.{serial_whole};
ghost use Rattle.lab_commands.specs.Serial.{IsSerialAnswer};

use lab_hints::note_script;
use lab_script::{Script, parse_script, run_serial};
use lab_statement::{ScriptFault, print_script_fault};
use lab_streams::{Answer, Ending, RunFault, Subcommand, answer_input};
use lab_table::NoMemory;
use std::alloc::{AllocError, Global};
use std::io::{Read, Write};

/// The transcript of a script that prints.
fn transcript_of(alloc: Global, script: &Script) -> Result<Vec<u8>, NoMemory>
    requires { ScriptPrints script.now }
    ensures { IfOk result (λ text. text.items ≡ transcript script.now) }
{
    match run_serial(alloc, script)?.into_text() {
        Ok(text) => Ok(text),
        Err(_) => unreachable!(),
    }
}

/// What tells the transcript of a script.
#[derive(Drop)]
struct TellsTranscript;

impl Subcommand for TellsTranscript {
    ghost Needs = { ⊤ };

    ghost Says = { λ _. IsSerialAnswer };

    fn answer(&mut self, alloc: Global, input: &[u8]) -> Result<Answer, NoMemory> {
        match parse_script(alloc, input) {
            Ok(script) => Ok(Answer {
                text: transcript_of(alloc, &script)?,
                ending: Ending::Done,
            }),
            Err(ScriptFault::NoMemory) => Err(AllocError),
            Err(fault) => Ok(Answer {
                text: print_script_fault(alloc, &fault)?,
                ending: Ending::Refused,
            }),
        }
    }

    fn note<N: Write>(&self, alloc: Global, input: &[u8], ending: Ending, notes: &mut N) {
        note_script(alloc, input, ending == Ending::Refused, notes);
    }

    ghost whole = { λ _. serial_whole };
}

/// Reads a script, runs its transactions one after another, each as a whole, in the order of their begins, and writes
/// the transcript. If the input is no script, writes the line of its first fault. Reads, writes and ends as
/// `answer_input` does. `notes` gets a hint if the input is refused or one of its sessions begins no transaction.
pub fn serial<R: Read, W: Write, N: Write>(
    alloc: Global,
    reader: &mut R,
    writer: &mut W,
    notes: &mut N,
) -> Result<Ending, RunFault>
    ensures written { IfOk result (λ ending. IfSome (R.remaining reader.old) (λ input.
        (text : List ℕ) × Appends (W.contents writer.old) (W.contents writer.new) text × IsSerialAnswer input text ending)) }
    ensures read_first { ReadsFirst result (R.remaining reader.old) (R.remaining reader.new) }
    ensures silent { IfErr result (λ fault. (fault ≡ RunFault.Unwritten) ⊎ Keeps (W.contents writer.old) (W.contents writer.new)) }
    ensures hint_last { OnErr result (Keeps (N.contents notes.old) (N.contents notes.new)) }
{
    answer_input(alloc, TellsTranscript, reader, writer, notes)
}
