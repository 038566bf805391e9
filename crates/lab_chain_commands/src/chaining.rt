//! The subcommand `chain`.

ghost use Rattle.std.specs.Prelude.{◌≡◌, ◌≢◌, ◌⊎◌, List, ℕ, map, max, IfOk, IfErr, OnOk};
ghost use Rattle.std.specs.Io.KnownBytes.{Appends, Keeps};
ghost use Rattle.lab_chain.specs.Summary.{joined};
ghost use Rattle.lab_chain_commands.specs.ChainAnswers.{IsChainAnswer, IsBegun, IsTold};

use crate::asked::Asked;
use crate::judged_part::read_parts;
use crate::part_text::{print_whole, whole_status};
use crate::shortfalls::{note_seam, note_shortfalls};
use crate::window::{Window, judge_and_read};
use lab_chain::Summary;
use lab_commands::Progress;
use lab_streams::{RunFault, note_text, write_text};
use std::alloc::Global;
use std::io::Write;
use std::rt::Files;
use std::thread::Threads;

/// How many parts are judged at a time, while as many are read.
const WINDOW: usize = 16;

/// What is said of a run so far, and the greatest exit status that one of its parts calls for.
#[derive(Drop)]
struct SoFar {
    summary: Summary,
    status: u8,
}

/// Adds the parts of a window to what is said so far, and writes what there is to say of each. `seam` has the line on the
/// seam before the window, or nothing.
fn write_window<W: Write, N: Write>(
    alloc: Global,
    so_far: SoFar,
    window: Window,
    seam: &[u8],
    writer: &mut W,
    notes: &mut N,
) -> Result<SoFar, RunFault>
    ensures summary { IfOk result (λ next. next.summary ≡ joined so_far.summary window.summary) }
    ensures status { IfOk result (λ next. next.status ≡ max so_far.status window.status) }
    ensures written { OnOk result (Appends (W.contents writer.old) (W.contents writer.new) window.text.items) }
    ensures unread { IfErr result (λ fault. fault ≢ RunFault.Unread) }
    ensures silent { IfErr result (λ fault. (fault ≡ RunFault.Unwritten) ⊎ Keeps (W.contents writer.old) (W.contents writer.new)) }
{
    let status = so_far.status.max(window.status);
    let summary = so_far.summary.joined(alloc, window.summary)?;
    if let Err(fault) = write_text(writer, &window.text) {
        drop(summary);
        return Err(fault);
    }
    note_text(seam, notes);
    note_text(&window.hints, notes);
    Ok(SoFar { summary, status })
}

/// The line on the seam before a window, or nothing. Removes the line of the progress, if `done` parts are on it, where
/// something is to be written.
fn seam_before<P: Write>(
    alloc: Global,
    asked: Asked,
    so_far: &SoFar,
    window: &Window,
    done: usize,
    progress: &mut Progress<'_, P>,
) -> Vec<u8> {
    let mut seam = Vec::new(alloc);
    note_seam(
        alloc,
        asked,
        &so_far.summary.ends,
        &window.summary.ends,
        &mut seam,
    );
    if done > 0 && !(window.text.is_empty() && window.hints.is_empty() && seam.is_empty()) {
        progress.clear();
    }
    seam
}

/// Reads and judges the parts, and writes what there is to say of each. While those of a window are judged, those of the
/// next one are read.
fn chain_windows<T: Files + Threads + Sync, W: Write, N: Write, P: Write>(
    rt: &T,
    alloc: Global,
    names: &[&str],
    writer: &mut W,
    notes: &mut N,
    asked: Asked,
    progress: &mut Progress<'_, P>,
) -> Result<SoFar, RunFault>
    ensures said { IfOk result (λ next. IsTold asked (map (λ name. name.now) names.now) (W.contents writer.old) (W.contents writer.new) next.summary next.status) }
    ensures unread { IfErr result (λ fault. fault ≢ RunFault.Unread) }
    ensures begun { IfErr result (λ fault. (fault ≡ RunFault.Unwritten) ⊎ IsBegun asked (map (λ name. name.now) names.now) (W.contents writer.old) (W.contents writer.new)) }
{
    let mut so_far = SoFar {
        summary: Summary::nothing(),
        status: 0,
    };
    let mut done = 0;
    let mut end = names.len().min(WINDOW);
    let Ok(mut inputs) = read_parts(rt, alloc, &names[..end]) else {
        drop(so_far);
        return Err(RunFault::NoMemory);
    };
    while done < names.len() {
        let next = names.len().min(end + WINDOW);
        let (window, read) = judge_and_read(rt, alloc, asked, &inputs, &names[end..next]);
        let Ok(window) = window else {
            drop(so_far);
            return Err(RunFault::NoMemory);
        };
        let seam = seam_before(alloc, asked, &so_far, &window, done, progress);
        so_far = match write_window(alloc, so_far, window, &seam, writer, notes) {
            Ok(next) => next,
            Err(fault) => return Err(fault),
        };
        let Ok(read) = read else {
            drop(so_far);
            return Err(RunFault::NoMemory);
        };
        inputs = read;
        done = end;
        end = next;
        progress.show(done, names.len());
    }
    Ok(so_far)
}

/// Reads and judges the parts of a run, several at a time, and writes the summary of the whole run: the number of
/// parts, and ten lines like those of a report; or a line of JSON. Before the summary, as `batch` does, it writes why a
/// part has no report, and each part's report if these are asked for; this is written as it is computed. Returns the
/// greatest exit status: 1 if the run doesn't meet the requirement or hasn't the number of parts that it must have, 2 if a
/// part is refused, 3 if a part can't be opened or read.
///
/// Parts are read while others are judged, and at most 32 are held in memory. Fails with `NoMemory`, when the output
/// for the first parts may already be written, and with `Unwritten` if a write fails. `notes` gets a line for each part
/// that is refused or can't be read, or doesn't fit to the one before it if a level is required, and the reason if the run
/// doesn't meet the requirement; failures of `notes` are ignored.
pub fn chain<T: Files + Threads + Sync, W: Write, N: Write, P: Write>(
    rt: &T,
    alloc: Global,
    names: &[&str],
    writer: &mut W,
    notes: &mut N,
    asked: Asked,
    progress: &mut Progress<'_, P>,
) -> Result<u8, RunFault>
    ensures written { IfOk result (λ status. (text : List ℕ) × Appends (W.contents writer.old) (W.contents writer.new) text
        × IsChainAnswer asked (map (λ name. name.now) names.now) text status) }
    ensures unread { IfErr result (λ fault. fault ≢ RunFault.Unread) }
    ensures begun { IfErr result (λ fault. (fault ≡ RunFault.Unwritten) ⊎ IsBegun asked (map (λ name. name.now) names.now) (W.contents writer.old) (W.contents writer.new)) }
{
    let judged = chain_windows(rt, alloc, names, writer, notes, asked, progress);
    progress.clear();
    let SoFar { summary, status } = match judged {
        Ok(so_far) => so_far,
        Err(fault) => return Err(fault),
    };
    let Ok(text) = print_whole(alloc, asked.format, &summary) else {
        drop(summary);
        return Err(RunFault::NoMemory);
    };
    let written = write_text(writer, &text);
    if written.is_ok() {
        note_shortfalls(alloc, asked, &summary, notes);
    }
    let status = status.max(whole_status(asked, &summary));
    drop(summary);
    match written {
        Ok(()) => Ok(status),
        Err(fault) => Err(fault),
    }
}
