//! The subcommands over files: those that the arguments name, or those of a list.

use crate::ARGUMENTS_REFUSED;
use crate::streams::Streams;
use crate::wanting::wanted;
use clap::ArgMatches;
use lab_chain_commands::{Asked, chain, join};
use lab_commands::{Progress, batch, listed_names};
use lab_hints::{note_unopened, note_unread};
use lab_history::MAX_FILE_BYTES;
use lab_streams::{RunFault, note_text, read_input, status};
use std::alloc::{AllocError, Global};
use std::io::{ErrorKind, Read, Write};
use std::rt::Files;
use std::thread::Threads;

/// What is done with files.
#[derive(Clone, Copy)]
pub enum Task {
    Batch,
    Chain,
}

/// Reads a file, and says in `notes` why it can't be opened or read, if it can't.
fn read_named<T: Files, N: Write>(
    rt: &T,
    alloc: Global,
    name: &str,
    notes: &mut N,
) -> Result<Option<Vec<u8>>, RunFault> {
    match std::fs::open(rt, name) {
        Ok(mut file) => match read_input(alloc, &mut file) {
            Ok(bytes) => Ok(Some(bytes)),
            Err(RunFault::NoMemory) => Err(RunFault::NoMemory),
            Err(_) => {
                let why = file.read(&mut [0u8; 1]).err();
                note_unread(alloc, name, why.as_ref(), notes);
                Ok(None)
            }
        },
        Err(error) if error.kind() == ErrorKind::OutOfMemory => Err(RunFault::NoMemory),
        Err(error) => {
            note_unopened(alloc, name, &error, notes);
            Ok(None)
        }
    }
}

/// The bytes of a list of names, of which `-` is the input; None where it can't be opened or read, and then `notes` is
/// told.
fn read_list<T: Files, R: Read, N: Write>(
    rt: &T,
    alloc: Global,
    reader: &mut R,
    notes: &mut N,
    list: &str,
) -> Result<Option<Vec<u8>>, RunFault> {
    if list == "-" {
        return Ok(Some(read_input(alloc, reader)?));
    }
    read_named(rt, alloc, list, notes)
}

/// The text of a list of names; None where it is too long or isn't UTF-8, and then `notes` is told.
fn text_of<'b, N: Write>(bytes: &'b [u8], notes: &mut N) -> Option<&'b str> {
    if bytes.len() > MAX_FILE_BYTES {
        note_text(
            b"error: the list of names has more than 8388608 bytes\n",
            notes,
        );
        return None;
    }
    match std::str::from_utf8(bytes) {
        Ok(text) => Some(text),
        Err(_) => {
            note_text(b"error: the list of names is not UTF-8\n", notes);
            None
        }
    }
}

/// The names that the arguments give.
fn given_names<'a>(alloc: Global, matches: &'a ArgMatches<'_>) -> Result<Vec<&'a str>, AllocError> {
    let mut names = Vec::new(alloc);
    if let Some(given) = matches.get_strs("FILE") {
        for name in given {
            names.push(*name)?;
        }
    }
    Ok(names)
}

/// What is asked of `chain`.
fn asked(matches: &ArgMatches<'_>) -> Asked {
    let wanted = wanted(matches);
    Asked {
        format: wanted.format,
        requirement: wanted.requirement,
        parts: matches.get_one::<u64>("parts"),
        reports: matches.get_flag("reports"),
    }
}

/// Runs `batch`, `chain` or `chain --join` over the files of these names, and answers the exit status.
fn run_named<T: Files + Threads + Sync, R: Read, W: Write, N: Write>(
    rt: &T,
    alloc: Global,
    streams: Streams<'_, R, W, N>,
    matches: &ArgMatches<'_>,
    task: Task,
    names: &[&str],
) -> Result<u8, RunFault> {
    let Streams {
        writer,
        notes,
        progress,
        is_watched,
        ..
    } = streams;
    let mut progress = Progress {
        to: progress,
        is_shown: is_watched || matches.get_flag("progress"),
    };
    match task {
        Task::Batch => batch(
            rt,
            alloc,
            names,
            writer,
            notes,
            wanted(matches),
            &mut progress,
        ),
        Task::Chain if matches.get_flag("join") => {
            join(rt, alloc, names, writer, notes, asked(matches))
        }
        Task::Chain => chain(
            rt,
            alloc,
            names,
            writer,
            notes,
            asked(matches),
            &mut progress,
        ),
    }
}

/// Runs a subcommand over files, and answers the exit status. A list of names that is too long, or isn't UTF-8, is refused,
/// and one that can't be opened or read ends the run.
pub fn run_files<T: Files + Threads + Sync, R: Read, W: Write, N: Write>(
    rt: &T,
    alloc: Global,
    streams: Streams<'_, R, W, N>,
    matches: &ArgMatches<'_>,
    task: Task,
) -> Result<u8, RunFault> {
    let Some(list) = matches.get_str("files-from") else {
        let names = given_names(alloc, matches)?;
        return run_named(rt, alloc, streams, matches, task, &names);
    };
    let Streams {
        reader,
        writer,
        notes,
        progress,
        is_watched,
    } = streams;
    let Some(bytes) = read_list(rt, alloc, reader, notes, list)? else {
        return Ok(status(Err(RunFault::Unread)));
    };
    let Some(text) = text_of(&bytes, notes) else {
        return Ok(ARGUMENTS_REFUSED);
    };
    let names = listed_names(alloc, text, matches.get_flag("null"))?;
    let streams = Streams {
        reader,
        writer,
        notes,
        progress,
        is_watched,
    };
    run_named(rt, alloc, streams, matches, task, &names)
}
