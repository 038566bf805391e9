//! The subcommand `page`: reads a history file and writes its page.

ghost use Rattle.std.specs.Prelude.{◌≡◌, ◌⊎◌, List, ℕ, IfOk, IfErr, IfSome, OnErr};
ghost use Rattle.std.specs.Io.KnownBytes.{Appends, Keeps};
ghost use Rattle.lab_streams.specs.Input.{ReadsFirst};
ghost use Rattle.lab_page.specs.Answer.{IsPageOf, Pages, IsPageAnswer};

use crate::whole::page_text;
use lab_history::History;
use lab_judge::judge;
use lab_picture::picture_with;
use lab_reports::Phenomenon;
use lab_streams::{Answer, Ending, Format, RunFault, Teller, tell_history};
use lab_table::NoMemory;
use std::alloc::{AllocError, Global};
use std::io::{Read, Write};

/// The page of a judgement of a history.
fn page_of(
    alloc: Global,
    history: &History,
    asked: Option<Phenomenon>,
    title: &[u8],
) -> Result<Vec<u8>, NoMemory>
    ensures { IfOk result (λ text. IsPageOf history.now asked title.now text.items) }
{
    let Ok(report) = judge(alloc, history) else {
        return Err(AllocError);
    };
    let picture = picture_with(alloc, history, &report, asked)?;
    page_text(alloc, history, &report, asked, title, &picture)
}

/// What tells the page of a judgement.
#[derive(Drop)]
struct TellsPage<'a> {
    asked: Option<Phenomenon>,
    title: &'a [u8],
}

impl<'a> Teller for TellsPage<'a> {
    ghost Tells = { λ p. Pages p.asked p.title.now };

    fn tell(&mut self, alloc: Global, history: &History) -> Result<Answer, NoMemory> {
        Ok(Answer {
            text: page_of(alloc, history, self.asked, self.title)?,
            ending: Ending::Done,
        })
    }

    fn note<N: Write>(&self, _notes: &mut N) {}
}

/// Reads a history file, and writes the page of the judgement of its history, or of the finding about a phenomenon,
/// with the title `title`. If the file is refused, writes the line of its first fault. Reads, writes and ends as
/// `tell_history` does.
pub fn page<R: Read, W: Write, N: Write>(
    alloc: Global,
    reader: &mut R,
    writer: &mut W,
    notes: &mut N,
    asked: Option<Phenomenon>,
    title: &[u8],
) -> Result<Ending, RunFault>
    ensures written { IfOk result (λ ending. IfSome (R.remaining reader.old) (λ input.
        (text : List ℕ) × Appends (W.contents writer.old) (W.contents writer.new) text × IsPageAnswer input asked title.now text ending)) }
    ensures read_first { ReadsFirst result (R.remaining reader.old) (R.remaining reader.new) }
    ensures silent { IfErr result (λ fault. (fault ≡ RunFault.Unwritten) ⊎ Keeps (W.contents writer.old) (W.contents writer.new)) }
    ensures hint_last { OnErr result (Keeps (N.contents notes.old) (N.contents notes.new)) }
{
    tell_history(
        alloc,
        TellsPage { asked, title },
        Format::Lines,
        reader,
        writer,
        notes,
    )
}
