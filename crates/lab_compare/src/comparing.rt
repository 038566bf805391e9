//! The subcommand `compare`: plays a script on several engines.

ghost use Rattle.std.specs.Prelude.{◌≡◌, ◌≢◌, ◌⊎◌, ⊤, List, ℕ, IfOk, IfErr, IfSome, OnErr};
ghost use Rattle.std.specs.Io.KnownBytes.{Appends, Keeps};
ghost use Rattle.lab_streams.specs.Input.{ReadsFirst};
ghost use Rattle.lab_compare.specs.Answer.{AreSides, IsFirstRefusal, IsCompareAnswer};
ghost use Rattle.lab_compare.specs.Comparison.{comparison_text};
ghost use Rattle.lab_compare.specs.Whole.{compare_whole};
ghost use Rattle.lab_compare.specs.declared.side.Side.{Side as SideOf};

use crate::comparison::print_comparison;
use crate::playing::sides_of;
use lab_commands::{note_play, print_play_refusal, print_script_refusal};
use lab_engine::Level;
use lab_script::{Script, parse_script};
use lab_session::PlayFault;
use lab_statement::ScriptFault;
use lab_streams::{Answer, Ending, Format, RunFault, Subcommand, answer_input};
use lab_table::NoMemory;
use std::alloc::{AllocError, Global};
use std::io::{Read, Write};

/// The comparison of what a script comes to at these levels, or the first fault that one of its plays is refused for.
fn compared(alloc: Global, levels: &[Level], script: &Script) -> Result<Vec<u8>, PlayFault>
    ensures text { IfOk result (λ text. (sides : List SideOf) × AreSides script.now levels.now sides × (text.items ≡ comparison_text script.now sides)) }
    ensures fault { IfErr result (λ fault. fault ≢ PlayFault.NoMemory → IsFirstRefusal script.now levels.now fault) }
{
    let sides = sides_of(alloc, levels, script)?;
    Ok(print_comparison(alloc, script, &sides)?)
}

/// What tells a comparison of the engines of some levels.
#[derive(Drop)]
struct TellsComparison<'l> {
    levels: &'l [Level],
    /// Why a play was refused.
    why: Option<PlayFault>,
}

impl<'l> Subcommand for TellsComparison<'l> {
    ghost Needs = { ⊤ };

    ghost Says = { λ s. IsCompareAnswer s.levels.now };

    fn answer(&mut self, alloc: Global, input: &[u8]) -> Result<Answer, NoMemory> {
        let script = match parse_script(alloc, input) {
            Ok(script) => script,
            Err(ScriptFault::NoMemory) => return Err(AllocError),
            Err(fault) => {
                return Ok(Answer {
                    text: print_script_refusal(alloc, Format::Lines, &fault)?,
                    ending: Ending::Refused,
                });
            }
        };
        let compared = compared(alloc, self.levels, &script);
        match compared {
            Ok(text) => Ok(Answer {
                text,
                ending: Ending::Done,
            }),
            Err(PlayFault::NoMemory) => Err(AllocError),
            Err(fault) => {
                self.why = Some(fault);
                Ok(Answer {
                    text: print_play_refusal(alloc, Format::Lines, &fault)?,
                    ending: Ending::Refused,
                })
            }
        }
    }

    fn note<N: Write>(&self, alloc: Global, input: &[u8], ending: Ending, notes: &mut N) {
        note_play(alloc, input, ending == Ending::Refused, self.why, notes);
    }

    ghost whole = { λ s. compare_whole s.levels.now };
}

/// Reads a script, plays it with one thread on the engine of each of these levels, and compares the plays: the outcome
/// of each line, the committed rows if they differ, the level of each history, and what `explain` says about its lowest
/// phenomenon. If the input is no script, or a play is refused, writes only that fault. Reads, writes and ends as
/// `answer_input` does. `notes` gets a hint if the input or its play is refused, or no transaction begins in it.
pub fn compare<R: Read, W: Write, N: Write>(
    alloc: Global,
    reader: &mut R,
    writer: &mut W,
    notes: &mut N,
    levels: &[Level],
) -> Result<Ending, RunFault>
    ensures written { IfOk result (λ ending. IfSome (R.remaining reader.old) (λ input.
        (text : List ℕ) × Appends (W.contents writer.old) (W.contents writer.new) text × IsCompareAnswer levels.now input text ending)) }
    ensures read_first { ReadsFirst result (R.remaining reader.old) (R.remaining reader.new) }
    ensures silent { IfErr result (λ fault. (fault ≡ RunFault.Unwritten) ⊎ Keeps (W.contents writer.old) (W.contents writer.new)) }
    ensures hint_last { OnErr result (Keeps (N.contents notes.old) (N.contents notes.new)) }
{
    answer_input(
        alloc,
        TellsComparison { levels, why: None },
        reader,
        writer,
        notes,
    )
}
