//! The subcommand `chain --join`.

ghost use Rattle.std.specs.Prelude.{◌≡◌, ◌≢◌, ◌⊎◌, List, ℕ, map, IfOk, IfErr, OnErr};
ghost use Rattle.std.specs.List.{All};
ghost use Rattle.std.specs.Io.KnownBytes.{Appends, Keeps};
ghost use Rattle.lab_chain_commands.specs.ChainAnswers.{whole_text, whole_status};
ghost use Rattle.lab_chain_commands.specs.JoinAnswers.{Named, IsNamed, IsJoinAnswer, with_piece, joined_pieces, refusals_text, pieces_status};

use crate::asked::Asked;
use crate::part_text::{print_whole, whole_status};
use crate::piece::{Piece, piece_status, put_refusal, read_piece};
use crate::shortfalls::{note_seam, note_shortfalls};
use lab_chain::Summary;
use lab_streams::{RunFault, note_text, write_text};
use lab_table::NoMemory;
use std::alloc::Global;
use std::io::Write;
use std::rt::Files;

/// What the files tell of a run, which of them tell nothing, and the greatest exit status that one of them calls for.
#[derive(Drop)]
struct Joined {
    summary: Summary,
    refusals: Vec<u8>,
    status: u8,
    hints: Vec<u8>,
    /// A line for each piece that doesn't fit to the one before it.
    seams: Vec<u8>,
}

/// What is said of a run with another piece behind it.
fn with_piece(
    alloc: Global,
    asked: Asked,
    summary: Summary,
    piece: Piece,
    seams: &mut Vec<u8>,
) -> Result<Summary, NoMemory>
    ensures { IfOk result (λ next. next ≡ with_piece summary piece) }
{
    match piece {
        Piece::Said(next) => {
            note_seam(alloc, asked, &summary.ends, &next.ends, seams);
            summary.joined(alloc, next)
        }
        Piece::NoAnswer | Piece::Unreadable => Ok(summary),
    }
}

/// Reads the files, and joins what they tell.
fn read_pieces<T: Files>(
    rt: &T,
    alloc: Global,
    names: &[&str],
    asked: Asked,
) -> Result<Joined, NoMemory>
    ensures { IfOk result (λ made. (pieces : List Named) × (map (λ p. p.name) pieces ≡ map (λ name. name.now) names.now) × All IsNamed pieces
        × (made.summary ≡ joined_pieces pieces) × (made.refusals.items ≡ refusals_text asked.format pieces) × (made.status ≡ pieces_status pieces)) }
{
    let mut summary = Summary::nothing();
    let mut refusals = Vec::new(alloc);
    let mut status = 0u8;
    let mut hints = Vec::new(alloc);
    let mut seams = Vec::new(alloc);
    for name in names {
        let piece = read_piece(rt, alloc, name, &mut hints)?;
        put_refusal(alloc, &mut refusals, asked.format, name, &piece)?;
        status = status.max(piece_status(&piece));
        summary = with_piece(alloc, asked, summary, piece, &mut seams)?;
    }
    Ok(Joined {
        summary,
        refusals,
        status,
        hints,
        seams,
    })
}

/// Writes what is said of a run, and answers the exit status that it calls for.
fn write_whole<W: Write, N: Write>(
    alloc: Global,
    joined: Joined,
    asked: Asked,
    writer: &mut W,
    notes: &mut N,
) -> Result<u8, RunFault>
    ensures written { IfOk result (λ status. (status ≡ whole_status asked joined.summary)
        × Appends (W.contents writer.old) (W.contents writer.new) (whole_text asked.format joined.summary)) }
    ensures unread { IfErr result (λ fault. fault ≢ RunFault.Unread) }
    ensures silent { IfErr result (λ fault. (fault ≡ RunFault.Unwritten) ⊎ Keeps (W.contents writer.old) (W.contents writer.new)) }
    ensures hint_last { OnErr result (Keeps (N.contents notes.old) (N.contents notes.new)) }
{
    let Joined { summary, seams, .. } = joined;
    let Ok(text) = print_whole(alloc, asked.format, &summary) else {
        drop(summary);
        return Err(RunFault::NoMemory);
    };
    if let Err(fault) = write_text(writer, &text) {
        drop(summary);
        return Err(fault);
    }
    note_text(&seams, notes);
    note_shortfalls(alloc, asked, &summary, notes);
    let status = whole_status(asked, &summary);
    drop(summary);
    Ok(status)
}

/// Writes which files tell nothing of a run, and answers the exit status that they call for.
fn write_refusals<W: Write, N: Write>(
    joined: Joined,
    writer: &mut W,
    notes: &mut N,
) -> Result<u8, RunFault>
    ensures written { IfOk result (λ status. (status ≡ joined.status) × Appends (W.contents writer.old) (W.contents writer.new) joined.refusals.items) }
    ensures unread { IfErr result (λ fault. fault ≢ RunFault.Unread) }
    ensures silent { IfErr result (λ fault. (fault ≡ RunFault.Unwritten) ⊎ Keeps (W.contents writer.old) (W.contents writer.new)) }
    ensures hint_last { OnErr result (Keeps (N.contents notes.old) (N.contents notes.new)) }
{
    let Joined {
        summary,
        refusals,
        status,
        hints,
        ..
    } = joined;
    drop(summary);
    write_text(writer, &refusals)?;
    note_text(&hints, notes);
    Ok(status)
}

/// Reads the JSON summaries that `chain` wrote for consecutive pieces of a run, in their order, and writes the summary
/// of the whole run. If a file doesn't end with such a line, or can't be opened or read, writes that instead, and no
/// summary. Returns the exit status: 1 if the run doesn't meet the requirement or hasn't the number of parts that it must
/// have, 2 if a file has no such line, 3 if a file can't be opened or read.
///
/// Fails with `NoMemory` before anything is written, and with `Unwritten` if a write fails. After the output, `notes`
/// gets the reason why a file can't be opened or read, what a file has instead of a summary, or which pieces don't fit and
/// why the run doesn't meet the requirement; failures of `notes` are ignored.
pub fn join<T: Files, W: Write, N: Write>(
    rt: &T,
    alloc: Global,
    names: &[&str],
    writer: &mut W,
    notes: &mut N,
    asked: Asked,
) -> Result<u8, RunFault>
    ensures written { IfOk result (λ status. (text : List ℕ) × Appends (W.contents writer.old) (W.contents writer.new) text
        × IsJoinAnswer asked (map (λ name. name.now) names.now) text status) }
    ensures unread { IfErr result (λ fault. fault ≢ RunFault.Unread) }
    ensures silent { IfErr result (λ fault. (fault ≡ RunFault.Unwritten) ⊎ Keeps (W.contents writer.old) (W.contents writer.new)) }
    ensures hint_last { OnErr result (Keeps (N.contents notes.old) (N.contents notes.new)) }
{
    let Ok(joined) = read_pieces(rt, alloc, names, asked) else {
        return Err(RunFault::NoMemory);
    };
    if joined.refusals.is_empty() {
        write_whole(alloc, joined, asked, writer, notes)
    } else {
        write_refusals(joined, writer, notes)
    }
}
