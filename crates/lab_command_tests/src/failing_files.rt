//! The output of `batch`, `chain` and `chain --join` for files that can't be opened, fail while they are read, or
//! change while they are read.

use crate::case::{JSON, LINES, Task, status_of};
use crate::files::{FileRun, Held, Telling, ran_on_files};
use crate::parts::{ANSWER, FRONT, OTHER, OTHER_ANSWER, STILL};
use crate::streams::{FAULTS, Sink};
use lab_streams::RunFault;
use std::alloc::Global;
use std::io::ErrorKind;
use std::sync::Wait;
use std::sync::atomic::AtomicBool;
use std::test::Fail;
use std::thread::Threads;

/// What is done with a file, one like it on which a call fails, and the first again; what it holds, and what is written.
/// Neither `batch` nor `chain --join` reads any more once something is written.
#[derive(Clone, Copy)]
struct Failing {
    task: Task,
    text: &'static [u8],
    due: &'static [u8],
}

const FAILURES: [Failing; 5] = [
    Failing {
        task: Task::Batch,
        text: FRONT,
        due: b"== whole\nfile: NotJson\n== failing\nfile: unreadable\n== whole\nfile: NotJson\n",
    },
    Failing {
        task: Task::Chain(LINES),
        text: STILL,
        due: b"== failing\nfile: unreadable\n=== parts 3\nserializable: not judged failing\nsnapshot: not judged failing\nG0: not judged failing\nG1a: not judged failing\nG1b: not judged failing\nG1c: not judged failing\nG-single: not judged failing\nG2-item: not judged failing\nG2: not judged failing\nlevel: not judged\n",
    },
    Failing {
        task: Task::Chain(JSON),
        text: STILL,
        due: b"{\"file\":\"failing\",\"unreadable\":true}\n{\"committed\":true,\"end\":[[\"test\",1,10]],\"first\":\"whole\",\"initial\":[[\"test\",1,10]],\"level\":\"not judged\",\"parts\":3,\"phenomena\":{\"G-single\":{\"file\":\"failing\",\"verdict\":\"not judged\"},\"G0\":{\"file\":\"failing\",\"verdict\":\"not judged\"},\"G1a\":{\"file\":\"failing\",\"verdict\":\"not judged\"},\"G1b\":{\"file\":\"failing\",\"verdict\":\"not judged\"},\"G1c\":{\"file\":\"failing\",\"verdict\":\"not judged\"},\"G2\":{\"file\":\"failing\",\"verdict\":\"not judged\"},\"G2-item\":{\"file\":\"failing\",\"verdict\":\"not judged\"}},\"serializable\":{\"file\":\"failing\",\"verdict\":\"not judged\"},\"snapshot\":{\"file\":\"failing\",\"verdict\":\"not judged\"}}\n",
    },
    Failing {
        task: Task::Join(LINES),
        text: ANSWER,
        due: b"== failing\nfile: unreadable\n",
    },
    Failing {
        task: Task::Join(JSON),
        text: ANSWER,
        due: b"{\"file\":\"failing\",\"unreadable\":true}\n",
    },
];

/// Bytes that a read gives.
const STEP: usize = 10;

/// Calls on a file that is read to its end: its opening, and reads, the last of which gives nothing.
fn calls_on(text: &[u8]) -> u32 {
    let reads = text.len().saturating_add(STEP - 1) / STEP;
    u32::try_from(reads).unwrap_or(u32::MAX).saturating_add(2)
}

/// Whether a file on which this call fails is told so, and hinted.
fn is_told<T: Threads + Wait + Sync>(
    rt: &T,
    alloc: Global,
    failing: &Failing,
    fails_at: u32,
    fault: ErrorKind,
) -> bool {
    let is_written = AtomicBool::new(false);
    let is_chain_written = AtomicBool::new(false);
    let whole = Held::new("whole", failing.text);
    let mut held = [whole, Held::new("failing", failing.text)];
    held[1].fails_at = fails_at;
    held[1].fault = fault;
    let mut writer = Telling {
        sink: Sink::new(alloc, 10, 0),
        is_called: if matches!(failing.task, Task::Chain(_)) {
            &is_chain_written
        } else {
            &is_written
        },
    };
    let of = FileRun {
        held: &held,
        step: STEP,
        is_interrupted: false,
        task: failing.task,
        names: &["whole", "failing", "whole"],
        fails_at: 0,
        shown: b"",
    };
    let ran = ran_on_files(rt, alloc, of, &is_written, &mut writer);
    let is_text = writer.sink.text.as_slice() == failing.due;
    drop(writer);
    is_text && ran.run == Ok(3) && ran.noted > 0
}

#[test]
fn a_file_on_which_a_call_fails_is_told(rt: HostRuntime) -> Result<(), Fail> {
    for failing in &FAILURES {
        for fails_at in 1..=calls_on(failing.text) {
            for fault in FAULTS {
                assert!(rt;
                    is_told(&rt, rt.alloc(), failing, fails_at, fault),
                    "{fault:?} at call {fails_at}"
                );
            }
        }
    }
    Ok(())
}

/// What is done with files of which one changes, from a text to another, and the places where these differ; and what is
/// written where all of the first text is read, all before the second of the places, and less.
#[derive(Clone, Copy)]
struct Turning {
    task: Task,
    names: &'static [&'static str],
    text: &'static [u8],
    other: &'static [u8],
    places: [usize; 2],
    whole: &'static [u8],
    mixed: &'static [u8],
    less: &'static [u8],
}

const CHANGES: [Turning; 4] = [
    Turning {
        task: Task::Chain(JSON),
        names: &["turning", "still"],
        text: STILL,
        other: OTHER,
        places: [12, 60],
        whole: b"{\"committed\":false,\"end\":[[\"test\",1,10]],\"first\":\"turning\",\"initial\":[[\"test\",1,10]],\"level\":\"PL-3\",\"parts\":2,\"phenomena\":{\"G-single\":{\"verdict\":\"absent\"},\"G0\":{\"verdict\":\"absent\"},\"G1a\":{\"verdict\":\"absent\"},\"G1b\":{\"verdict\":\"absent\"},\"G1c\":{\"verdict\":\"absent\"},\"G2\":{\"verdict\":\"absent\"},\"G2-item\":{\"verdict\":\"absent\"}},\"serializable\":{\"verdict\":\"yes\"},\"snapshot\":{\"verdict\":\"yes\"}}\n",
        mixed: b"{\"committed\":true,\"end\":[[\"test\",1,10]],\"first\":\"turning\",\"initial\":[[\"test\",1,11]],\"level\":\"unsound\",\"parts\":2,\"phenomena\":{\"G-single\":{\"file\":\"turning\",\"verdict\":\"not judged\"},\"G0\":{\"file\":\"turning\",\"verdict\":\"not judged\"},\"G1a\":{\"file\":\"turning\",\"verdict\":\"not judged\"},\"G1b\":{\"file\":\"turning\",\"verdict\":\"not judged\"},\"G1c\":{\"file\":\"turning\",\"verdict\":\"not judged\"},\"G2\":{\"file\":\"turning\",\"verdict\":\"not judged\"},\"G2-item\":{\"file\":\"turning\",\"verdict\":\"not judged\"}},\"serializable\":{\"file\":\"turning\",\"reason\":\"F9 EndDiffers row 1\",\"verdict\":\"no\"},\"snapshot\":{\"file\":\"turning\",\"reason\":\"F9 EndDiffers row 1\",\"verdict\":\"no\"}}\n",
        less: b"{\"committed\":false,\"end\":[[\"test\",1,10]],\"first\":\"turning\",\"initial\":[[\"test\",1,11]],\"level\":\"unsound\",\"parts\":2,\"phenomena\":{\"G-single\":{\"file\":\"still\",\"verdict\":\"not judged\"},\"G0\":{\"file\":\"still\",\"verdict\":\"not judged\"},\"G1a\":{\"file\":\"still\",\"verdict\":\"not judged\"},\"G1b\":{\"file\":\"still\",\"verdict\":\"not judged\"},\"G1c\":{\"file\":\"still\",\"verdict\":\"not judged\"},\"G2\":{\"file\":\"still\",\"verdict\":\"not judged\"},\"G2-item\":{\"file\":\"still\",\"verdict\":\"not judged\"}},\"serializable\":{\"file\":\"still\",\"reason\":\"seam row 1\",\"verdict\":\"no\"},\"snapshot\":{\"file\":\"still\",\"reason\":\"seam row 1\",\"verdict\":\"no\"}}\n",
    },
    Turning {
        task: Task::Join(JSON),
        names: &["turning"],
        text: ANSWER,
        other: OTHER_ANSWER,
        places: [37, 75],
        whole: b"{\"committed\":false,\"end\":[[\"test\",1,10]],\"first\":\"a\",\"initial\":[[\"test\",1,10]],\"level\":\"PL-3\",\"parts\":1,\"phenomena\":{\"G-single\":{\"verdict\":\"absent\"},\"G0\":{\"verdict\":\"absent\"},\"G1a\":{\"verdict\":\"absent\"},\"G1b\":{\"verdict\":\"absent\"},\"G1c\":{\"verdict\":\"absent\"},\"G2\":{\"verdict\":\"absent\"},\"G2-item\":{\"verdict\":\"absent\"}},\"serializable\":{\"verdict\":\"yes\"},\"snapshot\":{\"verdict\":\"yes\"}}\n",
        mixed: b"{\"committed\":false,\"end\":[[\"test\",1,10]],\"first\":\"a\",\"initial\":[[\"test\",1,11]],\"level\":\"PL-3\",\"parts\":1,\"phenomena\":{\"G-single\":{\"verdict\":\"absent\"},\"G0\":{\"verdict\":\"absent\"},\"G1a\":{\"verdict\":\"absent\"},\"G1b\":{\"verdict\":\"absent\"},\"G1c\":{\"verdict\":\"absent\"},\"G2\":{\"verdict\":\"absent\"},\"G2-item\":{\"verdict\":\"absent\"}},\"serializable\":{\"verdict\":\"yes\"},\"snapshot\":{\"verdict\":\"yes\"}}\n",
        less: b"{\"committed\":false,\"end\":[[\"test\",1,11]],\"first\":\"a\",\"initial\":[[\"test\",1,11]],\"level\":\"PL-3\",\"parts\":1,\"phenomena\":{\"G-single\":{\"verdict\":\"absent\"},\"G0\":{\"verdict\":\"absent\"},\"G1a\":{\"verdict\":\"absent\"},\"G1b\":{\"verdict\":\"absent\"},\"G1c\":{\"verdict\":\"absent\"},\"G2\":{\"verdict\":\"absent\"},\"G2-item\":{\"verdict\":\"absent\"}},\"serializable\":{\"verdict\":\"yes\"},\"snapshot\":{\"verdict\":\"yes\"}}\n",
    },
    Turning {
        task: Task::Chain(LINES),
        names: &["turning"],
        text: STILL,
        other: b"",
        places: [108, 108],
        whole: b"=== parts 1\nserializable: yes\nsnapshot: yes\nG0: absent\nG1a: absent\nG1b: absent\nG1c: absent\nG-single: absent\nG2-item: absent\nG2: absent\nlevel: PL-3\n",
        mixed: b"",
        less: b"== turning\nfile: NotJson\n=== parts 1\nserializable: not judged turning\nsnapshot: not judged turning\nG0: not judged turning\nG1a: not judged turning\nG1b: not judged turning\nG1c: not judged turning\nG-single: not judged turning\nG2-item: not judged turning\nG2: not judged turning\nlevel: not judged\n",
    },
    Turning {
        task: Task::Join(LINES),
        names: &["turning"],
        text: ANSWER,
        other: b"",
        places: [376, 376],
        whole: b"=== parts 1\nserializable: yes\nsnapshot: yes\nG0: absent\nG1a: absent\nG1b: absent\nG1c: absent\nG-single: absent\nG2-item: absent\nG2: absent\nlevel: PL-3\n",
        mixed: b"",
        less: b"== turning\nfile: NoAnswer\n",
    },
];

impl Turning {
    /// What is written where the file changes at this call.
    fn due(&self, turns_at: u32) -> &'static [u8] {
        let read = STEP.saturating_mul(turns_at.saturating_sub(2) as usize);
        let [first, second] = self.places;
        if read > second {
            self.whole
        } else if read > first {
            self.mixed
        } else {
            self.less
        }
    }
}

/// Whether files of which one changes at this call are told as they were read, each once.
fn is_as_read<T: Threads + Wait + Sync>(
    rt: &T,
    alloc: Global,
    turning: &Turning,
    turns_at: u32,
) -> bool {
    let is_called = AtomicBool::new(false);
    let first = Held::new("turning", turning.text);
    let mut held = [first, Held::new("still", STILL)];
    held[0].other = turning.other;
    held[0].turns_at = turns_at;
    let mut writer = Sink::new(alloc, 9_000, 0);
    let of = FileRun {
        held: &held,
        step: STEP,
        is_interrupted: false,
        task: turning.task,
        names: turning.names,
        fails_at: 0,
        shown: b"",
    };
    let ran = ran_on_files(rt, alloc, of, &is_called, &mut writer);
    let due = turning.due(turns_at);
    let is_text = writer.text.as_slice() == due;
    drop(writer);
    let status = if due.starts_with(b"== ") { 2 } else { 0 };
    is_text && status_of(ran.run) == status && ran.openings as usize == turning.names.len()
}

#[test]
fn a_file_that_changes_is_told_as_it_was_read(rt: HostRuntime) -> Result<(), Fail> {
    for turning in &CHANGES {
        for turns_at in 1..=calls_on(turning.text).saturating_add(1) {
            assert!(rt;
                is_as_read(&rt, rt.alloc(), turning, turns_at),
                "at call {turns_at}"
            );
        }
    }
    Ok(())
}

/// The front of what there is to say where the opening of a second file is refused memory.
const BEFORE: [(Task, &[u8]); 3] = [
    (Task::Batch, b""),
    (Task::Chain(LINES), b"== whole\nfile: NotJson\n"),
    (Task::Join(LINES), b""),
];

/// Whether that is written, and the run ends so.
fn is_ended<T: Threads + Wait + Sync>(rt: &T, alloc: Global, task: Task, front: &[u8]) -> bool {
    let is_called = AtomicBool::new(false);
    let mut held = [Held::new("whole", FRONT), Held::new("failing", FRONT)];
    held[1].fails_at = 1;
    held[1].fault = ErrorKind::OutOfMemory;
    let mut writer = Sink::new(alloc, 9_000, 0);
    let of = FileRun {
        held: &held,
        step: STEP,
        is_interrupted: false,
        task,
        names: &["whole", "failing"],
        fails_at: 0,
        shown: b"",
    };
    let ran = ran_on_files(rt, alloc, of, &is_called, &mut writer);
    let is_front = front.starts_with(writer.text.as_slice());
    drop(writer);
    is_front && ran.run == Err(RunFault::NoMemory)
}

#[test]
fn an_opening_without_memory_ends_the_run(rt: HostRuntime) -> Result<(), Fail> {
    for (task, front) in &BEFORE {
        assert!(rt; is_ended(&rt, rt.alloc(), *task, front), "{front:?}");
    }
    Ok(())
}
