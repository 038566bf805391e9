//! The subcommand `judge`: the report of a judgement.

ghost use Rattle.std.specs.Prelude.{◌≡◌, ◌⊎◌, List, ℕ, IfOk, IfErr, IfSome, OnErr};
ghost use Rattle.std.specs.Io.KnownBytes.{Appends, Keeps};
ghost use Rattle.lab_streams.specs.Input.{ReadsFirst};
ghost use Rattle.lab_commands.specs.Judging.{IsReportOf, IsJudgeAnswer};

use lab_history::History;
use lab_streams::{
    Answer, Ending, RunFault, Teller, Wanted, ending_of, note_text, print_said, shortfall_line,
    tell_history,
};
use lab_table::NoMemory;
use std::alloc::{AllocError, Global};
use std::io::{Read, Write};

/// What tells the report of a judgement.
#[derive(Drop)]
struct TellsReport {
    wanted: Wanted,
    /// Why the report doesn't meet what is required, if it doesn't.
    shortfall: Vec<u8>,
}

impl Teller for TellsReport {
    ghost Tells = { λ j. IsReportOf j.wanted };

    fn tell(&mut self, alloc: Global, history: &History) -> Result<Answer, NoMemory> {
        let Ok(report) = lab_judge::judge(alloc, history) else {
            return Err(AllocError);
        };
        let wanted = self.wanted;
        self.shortfall = shortfall_line(alloc, "standard input", wanted.requirement, &report)?;
        Ok(Answer {
            text: print_said(alloc, wanted.format, None, &report)?,
            ending: ending_of(wanted.requirement, &report),
        })
    }

    fn note<N: Write>(&self, notes: &mut N) {
        note_text(&self.shortfall, notes);
    }
}

/// Reads a history file, and writes the report on its history, or the first fault of the file. Reads, writes and ends
/// as `tell_history` does, and with `Unmet` if the report doesn't meet the requirement; `notes` gets the reason.
pub fn judge<R: Read, W: Write, N: Write>(
    alloc: Global,
    reader: &mut R,
    writer: &mut W,
    notes: &mut N,
    wanted: Wanted,
) -> Result<Ending, RunFault>
    ensures written { IfOk result (λ ending. IfSome (R.remaining reader.old) (λ input.
        (text : List ℕ) × Appends (W.contents writer.old) (W.contents writer.new) text × IsJudgeAnswer wanted input text ending)) }
    ensures read_first { ReadsFirst result (R.remaining reader.old) (R.remaining reader.new) }
    ensures silent { IfErr result (λ fault. (fault ≡ RunFault.Unwritten) ⊎ Keeps (W.contents writer.old) (W.contents writer.new)) }
    ensures hint_last { OnErr result (Keeps (N.contents notes.old) (N.contents notes.new)) }
{
    let judge = TellsReport {
        wanted,
        shortfall: Vec::new(alloc),
    };
    tell_history(alloc, judge, wanted.format, reader, writer, notes)
}
