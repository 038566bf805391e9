//! The subcommand `explain`: reads a history file and writes sentences.

ghost use Rattle.std.specs.Prelude.{◌≡◌, ◌⊎◌, List, ℕ, IfOk, IfErr, IfSome, OnErr};
ghost use Rattle.std.specs.Io.KnownBytes.{Appends, Keeps};
ghost use Rattle.lab_streams.specs.Input.{ReadsFirst};
ghost use Rattle.lab_explain.specs.Answer.{IsExplanationOf, Explains, IsExplainAnswer};

use crate::client_mistakes::client_mistake_in;
use crate::newer_rows::may_have_read_newer_rows;
use crate::sections::explanation;
use lab_hints::note_newer_rows;
use lab_history::History;
use lab_judge::judge;
use lab_reports::Phenomenon;
use lab_streams::{Answer, Ending, Format, RunFault, Teller, note_text, tell_history};
use lab_table::NoMemory;
use std::alloc::{AllocError, Global};
use std::io::{Read, Write};

/// Causes that a fault may have besides the one that an explanation names.
#[derive(Clone, Copy)]
struct OtherCauses {
    /// Whether it may come of newer rows.
    are_newer_rows: bool,
    /// What a client or a cut may have done; empty if nothing.
    client: &'static [u8],
}

/// The explanation of a judgement of a history; other causes of a fault are noted where its cause is told.
fn explained(
    alloc: Global,
    history: &History,
    asked: Option<Phenomenon>,
    causes: &mut OtherCauses,
) -> Result<Vec<u8>, NoMemory>
    ensures { IfOk result (λ text. IsExplanationOf history.now asked text.items) }
{
    let Ok(report) = judge(alloc, history) else {
        return Err(AllocError);
    };
    if asked.is_none() {
        *causes = OtherCauses {
            are_newer_rows: may_have_read_newer_rows(history, &report),
            client: client_mistake_in(&report),
        };
    }
    explanation(alloc, history, &report, asked)
}

/// What tells the explanation of a judgement.
#[derive(Drop)]
struct TellsExplanation {
    asked: Option<Phenomenon>,
    /// Those of the fault of the record that was told.
    causes: OtherCauses,
}

impl Teller for TellsExplanation {
    ghost Tells = { λ e. Explains e.asked };

    fn tell(&mut self, alloc: Global, history: &History) -> Result<Answer, NoMemory> {
        Ok(Answer {
            text: explained(alloc, history, self.asked, &mut self.causes)?,
            ending: Ending::Done,
        })
    }

    fn note<N: Write>(&self, notes: &mut N) {
        if self.causes.are_newer_rows {
            note_newer_rows(notes);
        }
        note_text(self.causes.client, notes);
    }
}

/// Reads a history file, and explains the judgement of its history in sentences: all of it, or the finding about a
/// phenomenon. If the file is refused, writes the line of its first fault. Reads, writes and ends as `tell_history`
/// does. A hint is also written to `notes` if a fault can have causes other than the explained one.
pub fn explain<R: Read, W: Write, N: Write>(
    alloc: Global,
    reader: &mut R,
    writer: &mut W,
    notes: &mut N,
    asked: Option<Phenomenon>,
) -> Result<Ending, RunFault>
    ensures written { IfOk result (λ ending. IfSome (R.remaining reader.old) (λ input.
        (text : List ℕ) × Appends (W.contents writer.old) (W.contents writer.new) text × IsExplainAnswer input asked text ending)) }
    ensures read_first { ReadsFirst result (R.remaining reader.old) (R.remaining reader.new) }
    ensures silent { IfErr result (λ fault. (fault ≡ RunFault.Unwritten) ⊎ Keeps (W.contents writer.old) (W.contents writer.new)) }
    ensures hint_last { OnErr result (Keeps (N.contents notes.old) (N.contents notes.new)) }
{
    let explanation = TellsExplanation {
        asked,
        causes: OtherCauses {
            are_newer_rows: false,
            client: b"",
        },
    };
    tell_history(alloc, explanation, Format::Lines, reader, writer, notes)
}
