//! The subcommand `run`: plays a script on an engine, and judges the recording.

ghost use Rattle.std.specs.Prelude.{◌≡◌, ◌⊎◌, List, ℕ, IfOk, IfErr, IfSome, OnErr};
ghost use Rattle.std.specs.Io.KnownBytes.{Appends, Keeps};
ghost use Rattle.lab_streams.specs.Input.{ReadsFirst};
ghost use Rattle.lab_script.specs.Limits.{ScriptPrints};
ghost use Rattle.lab_engine.specs.RecordedLog.{RecordedLog};
ghost use Rattle.lab_commands.specs.Playing.{IsScriptedPlay, IsScriptedRefusal, IsFreePlay, IsFreeRefusal, IsRunAnswer, IsRecordingAnswer};
ghost use Rattle.lab_commands.specs.ReadScripts.{run_whole};

use crate::excess::note_excess;
use crate::free::Free;
use crate::play_note::note_play;
use crate::player::Player;
use crate::recording_answer::recording_answer;
use crate::refusals::{print_play_refusal, print_script_refusal};
use crate::scripted::Scripted;
use crate::shown::Shown;
use lab_engine::Level;
use lab_script::{Script, parse_script};
use lab_session::PlayFault;
use lab_statement::ScriptFault;
use lab_streams::{Answer, Ending, RunFault, Subcommand, Wanted, answer_input, note_text};
use lab_table::NoMemory;
use std::alloc::{AllocError, Global};
use std::io::{Read, Write};
use std::sync::Wait;
use std::thread::Threads;

/// What tells of a play of a script: its log and the report of a judgement, or its history file.
#[derive(Drop)]
struct TellsPlay<P: Player> {
    player: P,
    shown: Shown,
    wanted: Wanted,
    /// Why the report doesn't meet what is required, if it doesn't.
    shortfall: Vec<u8>,
    /// Why a play was refused.
    why: Option<PlayFault>,
    /// The level, if one thread plays the script.
    level: Option<Level>,
}

/// What a play of a script that prints tells, or why there is nothing to tell; why the report doesn't meet what is required
/// is noted.
fn play_answer<P: Player>(
    alloc: Global,
    player: &P,
    script: &Script,
    shown: Shown,
    wanted: Wanted,
    shortfall: &mut Vec<u8>,
) -> Result<Answer, PlayFault>
    requires prints { ScriptPrints script.now }
    requires needs { P.Needs }
    ensures tells { IfOk result (λ answer. (recording : RecordedLog) × P.Plays player.now script.now recording × IsRecordingAnswer shown wanted recording answer.text.items answer.ending) }
    ensures fault { IfErr result (P.Refuses player.now script.now) }
{
    let recording = player.play(alloc, script)?;
    recording_answer(alloc, &recording, shown, wanted, shortfall)
}

impl<P: Player> Subcommand for TellsPlay<P> {
    ghost Needs = { P.Needs };

    ghost Says = { λ s. IsRunAnswer (P.Plays s.player) (P.Refuses s.player) s.shown s.wanted };

    fn answer(&mut self, alloc: Global, input: &[u8]) -> Result<Answer, NoMemory> {
        let script = match parse_script(alloc, input) {
            Ok(script) => script,
            Err(ScriptFault::NoMemory) => return Err(AllocError),
            Err(fault) => {
                return Ok(Answer {
                    text: print_script_refusal(alloc, self.wanted.format, &fault)?,
                    ending: Ending::Refused,
                });
            }
        };
        let played = play_answer(
            alloc,
            &self.player,
            &script,
            self.shown,
            self.wanted,
            &mut self.shortfall,
        );
        match played {
            Ok(answer) => Ok(answer),
            Err(PlayFault::NoMemory) => Err(AllocError),
            Err(fault) => {
                self.why = Some(fault);
                Ok(Answer {
                    text: print_play_refusal(alloc, self.wanted.format, &fault)?,
                    ending: Ending::Refused,
                })
            }
        }
    }

    fn note<N: Write>(&self, alloc: Global, input: &[u8], ending: Ending, notes: &mut N) {
        note_play(alloc, input, ending == Ending::Refused, self.why, notes);
        if let (Some(level), Some(fault)) = (self.level, &self.why) {
            note_excess(alloc, input, level, fault, notes);
        }
        note_text(&self.shortfall, notes);
    }

    ghost whole = { λ s. run_whole (P.Plays s.player) (P.Refuses s.player) s.shown s.wanted };
}

/// Reads a script, plays it with one thread on an engine of this level, and writes the log and the report on its
/// recording; in JSON, only the report. With `shown`, the log has the committed rows, or the output is the history file
/// of the recording and a newline. If the input is no script, its play is refused, or its history has no file, writes
/// only that fault.
///
/// Reads, writes and ends as `answer_input` does, and with `Unmet` if the report doesn't meet the requirement; `notes`
/// gets the reason. `notes` also gets a hint if the input or its play is refused, or no transaction begins in it.
pub fn run<R: Read, W: Write, N: Write>(
    alloc: Global,
    reader: &mut R,
    writer: &mut W,
    notes: &mut N,
    level: Level,
    shown: Shown,
    wanted: Wanted,
) -> Result<Ending, RunFault>
    ensures written { IfOk result (λ ending. IfSome (R.remaining reader.old) (λ input.
        (text : List ℕ) × Appends (W.contents writer.old) (W.contents writer.new) text
        × IsRunAnswer (IsScriptedPlay level) (IsScriptedRefusal level) shown wanted input text ending)) }
    ensures read_first { ReadsFirst result (R.remaining reader.old) (R.remaining reader.new) }
    ensures silent { IfErr result (λ fault. (fault ≡ RunFault.Unwritten) ⊎ Keeps (W.contents writer.old) (W.contents writer.new)) }
    ensures hint_last { OnErr result (Keeps (N.contents notes.old) (N.contents notes.new)) }
{
    let scripted = TellsPlay {
        player: Scripted { level },
        shown,
        wanted,
        shortfall: Vec::new(alloc),
        why: None,
        level: Some(level),
    };
    answer_input(alloc, scripted, reader, writer, notes)
}

/// Like `run`, but with one thread for each session that has lines, in any order of execution. Waits for its threads.
pub fn run_free<T: Threads + Wait + Sync, R: Read, W: Write, N: Write>(
    rt: &T,
    alloc: Global,
    reader: &mut R,
    writer: &mut W,
    notes: &mut N,
    level: Level,
    shown: Shown,
    wanted: Wanted,
) -> Result<Ending, RunFault>
    ensures written { IfOk result (λ ending. IfSome (R.remaining reader.old) (λ input.
        (text : List ℕ) × Appends (W.contents writer.old) (W.contents writer.new) text
        × IsRunAnswer (IsFreePlay level) (IsFreeRefusal level) shown wanted input text ending)) }
    ensures read_first { ReadsFirst result (R.remaining reader.old) (R.remaining reader.new) }
    ensures silent { IfErr result (λ fault. (fault ≡ RunFault.Unwritten) ⊎ Keeps (W.contents writer.old) (W.contents writer.new)) }
    ensures hint_last { OnErr result (Keeps (N.contents notes.old) (N.contents notes.new)) }
{
    let free = TellsPlay {
        player: Free { rt, level },
        shown,
        wanted,
        shortfall: Vec::new(alloc),
        why: None,
        level: None,
    };
    answer_input(alloc, free, reader, writer, notes)
}
