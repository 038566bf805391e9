//! The line of a script with which its play exceeds a limit of histories.

use crate::player::Player;
use crate::scripted::Scripted;
use lab_engine::{Level, Recording};
use lab_history::{History, Limit};
use lab_script::{Script, parse_script};
use lab_session::{CloseFault, PlayFault};
use lab_statement::ScriptFault;
use lab_streams::note_text;
use lab_table::{NoMemory, RowName};
use std::alloc::{AllocError, Global};
use std::io::Write;

/// The most plays of a beginning of a script: each halves the lines among which the line is, and there are 2,000.
const MOST_PLAYS: usize = 11;

/// The most bytes of a script whose beginnings are played: a longer one has long conditions, and its plays take long.
const MAX_SEARCHED: usize = 150_000;

/// The line with which a play exceeds a limit, and how much its history has before that.
#[derive(Clone, Copy)]
struct Excess {
    line: usize,
    before: usize,
}

/// The limit that a play exceeds, if it exceeds one.
fn limit_of(fault: &PlayFault) -> Option<Limit> {
    match fault {
        PlayFault::OverLimit { which }
        | PlayFault::Close {
            fault: CloseFault::OverLimit { which },
        } => Some(*which),
        _ => None,
    }
}

/// What a limit counts; None if it isn't reached by the number of lines.
fn counted(which: Limit) -> Option<&'static str> {
    match which {
        Limit::Transactions => Some("transactions"),
        Limit::Ids => Some("different rows"),
        Limit::Entries => Some("entries"),
        Limit::Bytes | Limit::Operations | Limit::Tables | Limit::Statement => None,
    }
}

/// How many different rows a history of a play has.
fn count_rows(alloc: Global, history: &History) -> Result<usize, NoMemory> {
    let mut rows: Vec<RowName> = Vec::new(alloc);
    for (row, _) in history.initial().rows() {
        rows.push(*row)?;
    }
    for txn in history.txns().as_slice() {
        for op in txn.ops.as_slice() {
            for (row, _) in op.writes.entries() {
                rows.push(*row)?;
            }
        }
    }
    rows.sort()?;
    rows.dedup();
    Ok(rows.len())
}

/// How many entries a history has.
fn count_entries(history: &History) -> usize {
    let mut count = 0usize;
    for txn in history.txns().as_slice() {
        for op in txn.ops.as_slice() {
            count = count
                .saturating_add(op.view.entries().len())
                .saturating_add(op.rows.entries().len())
                .saturating_add(op.writes.entries().len());
        }
    }
    count
}

/// How much of what a limit counts a recording has.
fn amount_of(alloc: Global, recording: &Recording, which: Limit) -> Result<usize, NoMemory> {
    let history = recording.history();
    match which {
        Limit::Transactions => Ok(history.txns().as_slice().len()),
        Limit::Ids => count_rows(alloc, history),
        _ => Ok(count_entries(history)),
    }
}

/// How much of what a limit counts a play of a script has; None if it exceeds a limit.
fn amount_of_play(
    alloc: Global,
    level: Level,
    script: &Script,
    which: Limit,
) -> Result<Option<usize>, NoMemory> {
    let player = Scripted { level };
    match player.play(alloc, script) {
        Ok(recording) => Ok(Some(amount_of(alloc, &recording, which)?)),
        Err(PlayFault::NoMemory) => Err(AllocError),
        Err(_) => Ok(None),
    }
}

/// The same for a play of a beginning of a script's text, of which there may be too little for a script.
fn amount_of_text(
    alloc: Global,
    level: Level,
    text: &[u8],
    which: Limit,
) -> Result<Option<usize>, NoMemory> {
    match parse_script(alloc, text) {
        Ok(script) => amount_of_play(alloc, level, &script, which),
        Err(ScriptFault::NoMemory) => Err(AllocError),
        Err(ScriptFault::At { .. }) => Ok(Some(0)),
    }
}

/// So many lines of a text.
fn first_lines(text: &[u8], lines: usize) -> &[u8] {
    let mut length = 0usize;
    for line in text.split(|byte| *byte == b'\n').take(lines) {
        length = length.saturating_add(line.len()).saturating_add(1);
    }
    let (front, _) = text.split_at(length.min(text.len()));
    front
}

/// The first line with which a script's play on an engine of a level exceeds a limit, as the play of the whole script does.
fn excess_of(alloc: Global, level: Level, text: &[u8], which: Limit) -> Result<Excess, NoMemory> {
    let mut within = 0usize;
    let mut before = 0usize;
    let mut over = text.split(|byte| *byte == b'\n').count();
    for _ in 0..MOST_PLAYS {
        let lines = within.saturating_add(over.saturating_sub(within) / 2);
        if lines == within {
            break;
        }
        match amount_of_text(alloc, level, first_lines(text, lines), which)? {
            Some(amount) => {
                within = lines;
                before = amount;
            }
            None => over = lines,
        }
    }
    Ok(Excess { line: over, before })
}

fn excess_hint(
    alloc: Global,
    level: Level,
    text: &[u8],
    which: Limit,
) -> Result<Vec<u8>, NoMemory> {
    let Some(what) = counted(which) else {
        return Ok(Vec::new(alloc));
    };
    if text.len() > MAX_SEARCHED {
        return Ok(Vec::new(alloc));
    }
    let Excess { line, before } = excess_of(alloc, level, text, which)?;
    let hint = format!(in alloc;
        "with line {line} there are more; before it there are {before} {what}\n"
    )?;
    Ok(hint.into_bytes())
}

/// Writes the line with which a script's play by one thread exceeds a limit, and how much there is before it. Writes
/// nothing for another fault, if the script has more than 150,000 bytes, or if memory runs out.
pub fn note_excess<N: Write>(
    alloc: Global,
    input: &[u8],
    level: Level,
    fault: &PlayFault,
    notes: &mut N,
) {
    if let Some(which) = limit_of(fault)
        && let Ok(hint) = excess_hint(alloc, level, input, which)
    {
        note_text(&hint, notes);
    }
}
