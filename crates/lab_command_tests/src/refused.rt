//! The output of `serial`, `run`, `compare`, `judge`, `chain` and `chain --join` when an allocation fails.

use crate::case::{Case, Task, run_unhinted, status_of};
use crate::chain::{Due, RUNS};
use crate::files::{FileRun, ran_on_files};
use crate::judge::{ABORTED_READ, CUT_FILE};
use crate::parts::files_in_memory;
use crate::run::{HISTORY, LEFT_OPEN, ROWS};
use crate::serial::{NO_SESSION, TWO_SESSIONS};
use crate::streams::{Sink, Source};
use crate::words::COMPARISON;
use lab_refusal_tests::{refuse, was_refused};
use lab_streams::RunFault;
use std::alloc::Global;
use std::rt::Files;
use std::sync::Wait;
use std::sync::atomic::AtomicBool;
use std::test::Fail;
use std::thread::Threads;

/// Whether a text is what there is to say of the first parts of a run, of which this is written.
fn is_front(text: &[u8], due: &[u8]) -> bool {
    let rest = &due[text.len().min(due.len())..];
    let is_between = text.is_empty() || text.ends_with(b"\n");
    is_between && due.starts_with(text) && (rest.starts_with(b"==") || rest.starts_with(b"{"))
}

/// Whether that is written with an allocation refused, or all that is due.
fn is_due(writer: &Sink, due: &Due, run: Result<u8, RunFault>, refused: bool) -> bool {
    let text = writer.text.as_slice();
    let is_ended = run == Ok(due.status) && text == due.text;
    let is_begun = match due.task {
        Task::Chain(_) => is_front(text, due.text),
        _ => writer.calls == 0,
    };
    is_ended || (refused && is_begun && run == Err(RunFault::NoMemory))
}

/// Makes a run with an allocation refused. Whether one was; None where what is written isn't due.
fn tried<T: Threads + Wait + Sync>(rt: &T, alloc: Global, due: &Due, growth: u16) -> Option<bool> {
    let held = files_in_memory();
    let is_written = AtomicBool::new(false);
    let mut writer = Sink::new(alloc, 9_000, 0);
    let reserved = writer.text.reserve(9_000).is_ok();
    let of = FileRun {
        held: &held,
        step: 9_000,
        is_interrupted: false,
        task: due.task,
        names: due.names,
        fails_at: 0,
        shown: b"",
    };
    refuse(alloc, growth);
    let ran = ran_on_files(rt, alloc, of, &is_written, &mut writer);
    let refused = was_refused(alloc);
    let is_due = reserved && is_due(&writer, due, ran.run, refused);
    drop(writer);
    if is_due { Some(refused) } else { None }
}

#[test]
fn the_front_stands_where_memory_is_refused(rt: HostRuntime) -> Result<(), Fail> {
    for due in &RUNS {
        let mut succeeded = false;
        for growth in 1..5_000u16 {
            let refused = tried(&rt, rt.alloc(), due, growth);
            assert!(rt; refused.is_some(), "at growth {growth} of {:?}", due.names);
            if refused == Some(false) {
                succeeded = true;
                break;
            }
        }
        assert!(rt; succeeded, "of {:?}", due.names);
    }
    Ok(())
}

/// Cases that are played by no thread, where a refused allocation may be one of the system's.
const ALONE: [Case; 8] = [
    TWO_SESSIONS,
    NO_SESSION,
    LEFT_OPEN,
    HISTORY,
    ROWS,
    COMPARISON,
    ABORTED_READ,
    CUT_FILE,
];

/// The exit status that is due where an allocation was refused. It may have been tried again with a smaller size, and then
/// all is written.
fn status_without(writer: &Sink, case: &Case) -> u8 {
    if writer.calls == 0 {
        4
    } else if writer.text.as_slice() == case.text {
        case.status
    } else {
        3
    }
}

/// Runs a case with an allocation refused. Whether one was; None where what is written, or the exit status, isn't due.
fn tried_alone<T: Files + Threads + Wait + Sync>(
    rt: &T,
    alloc: Global,
    case: &Case,
    growth: u16,
) -> Option<bool> {
    let mut reader = Source::new(case.input, 10, 0, 0);
    let mut writer = Sink::new(alloc, 9_000, 0);
    refuse(alloc, growth);
    let ran = run_unhinted(rt, alloc, case.subcommand, &mut reader, &mut writer);
    let refused = was_refused(alloc);
    let is_whole = writer.text.as_slice() == case.text;
    let due = if refused {
        status_without(&writer, case)
    } else {
        case.status
    };
    drop(writer);
    if status_of(ran.run) == due && (refused || is_whole) {
        Some(refused)
    } else {
        None
    }
}

#[test]
fn writes_nothing_where_memory_is_refused(rt: HostRuntime) -> Result<(), Fail> {
    for case in &ALONE {
        let mut succeeded = false;
        for growth in 1..5_000u16 {
            let refused = tried_alone(&rt, rt.alloc(), case, growth);
            assert!(rt; refused.is_some(), "at growth {growth} of {:?}", case.input);
            if refused == Some(false) {
                succeeded = true;
                break;
            }
        }
        assert!(rt; succeeded, "of {:?}", case.input);
    }
    Ok(())
}
