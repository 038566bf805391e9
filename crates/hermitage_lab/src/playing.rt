//! The subcommands that play a script: `run` and `compare`.

use crate::engines::levels_of;
use crate::streams::Streams;
use crate::told_as::{Kept, Telling, tell};
use crate::wanting::wanted;
use crate::{ARGUMENTS_REFUSED, ended};
use clap::ArgMatches;
use lab_commands::{Shown, run, run_free};
use lab_compare::compare;
use lab_engine::Level;
use lab_levels::level_named;
use lab_streams::{Ending, RunFault};
use std::alloc::Global;
use std::io::{Read, Write};
use std::sync::Wait;
use std::thread::Threads;

/// What is asked of a run.
#[derive(Clone, Copy)]
struct Asked {
    level: Level,
    shown: Shown,
}

/// What the arguments show of a run.
fn shown(matches: &ArgMatches<'_>) -> Shown {
    if matches.get_flag("history") || matches.get_str("as").is_some() {
        Shown::History
    } else if matches.get_flag("rows") {
        Shown::Rows
    } else {
        Shown::Log
    }
}

/// The subcommand that is to tell of the run's history, if another one is.
fn telling_of(matches: &ArgMatches<'_>) -> Option<Telling> {
    match matches.get_str("as") {
        Some("explain") => Some(Telling::Explain),
        Some("picture") => Some(Telling::Picture),
        Some("page") => Some(Telling::Page),
        _ => None,
    }
}

/// Plays a script, and writes what is shown of it.
fn play<T: Threads + Wait + Sync, R: Read, W: Write, N: Write>(
    rt: &T,
    alloc: Global,
    reader: &mut R,
    writer: &mut W,
    notes: &mut N,
    matches: &ArgMatches<'_>,
    asked: Asked,
) -> Result<Ending, RunFault> {
    let Asked { level, shown } = asked;
    let wanted = wanted(matches);
    if matches.get_flag("free") {
        run_free(rt, alloc, reader, writer, notes, level, shown, wanted)
    } else {
        run(alloc, reader, writer, notes, level, shown, wanted)
    }
}

/// Runs `run`, and answers the exit status.
pub fn run_play<T: Threads + Wait + Sync, R: Read, W: Write, N: Write>(
    rt: &T,
    alloc: Global,
    streams: Streams<'_, R, W, N>,
    matches: &ArgMatches<'_>,
) -> Result<u8, RunFault> {
    let Some(level) = matches.get_str("engine").and_then(|name| level_named(name)) else {
        return Ok(ARGUMENTS_REFUSED);
    };
    let asked = Asked {
        level,
        shown: shown(matches),
    };
    let Streams {
        reader,
        writer,
        notes,
        ..
    } = streams;
    let Some(telling) = telling_of(matches) else {
        return ended(play(rt, alloc, reader, writer, notes, matches, asked));
    };
    let mut file = Vec::new(alloc);
    let mut noted = Vec::new(alloc);
    let ending = play(rt, alloc, reader, &mut file, &mut noted, matches, asked);
    let kept = Kept {
        file,
        notes: noted,
        ending,
    };
    ended(tell(alloc, kept, telling, writer, notes))
}

/// Runs `compare`, and answers the exit status.
pub fn run_compare<R: Read, W: Write, N: Write>(
    alloc: Global,
    streams: Streams<'_, R, W, N>,
    matches: &ArgMatches<'_>,
) -> Result<u8, RunFault> {
    let Streams {
        reader,
        writer,
        notes,
        ..
    } = streams;
    let levels = levels_of(alloc, matches)?;
    ended(compare(alloc, reader, writer, notes, &levels))
}
