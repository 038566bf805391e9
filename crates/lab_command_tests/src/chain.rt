//! The output of `chain` and `chain --join` for files held in memory.

use crate::case::{JSON, LINES, Task, status_of};
use crate::files::{FileRun, ran_on_files};
use crate::parts::files_in_memory;
use crate::streams::Sink;
use lab_chain_commands::Asked;
use lab_reports::Requirement;
use lab_streams::{Format, RunFault};
use std::alloc::Global;
use std::sync::Wait;
use std::sync::atomic::AtomicBool;
use std::test::Fail;
use std::thread::Threads;

/// What is done with which files, what is written, the exit status, whether something is hinted, and what is shown at last
/// of how far it is.
#[derive(Clone, Copy)]
pub struct Due {
    pub task: Task,
    pub names: &'static [&'static str],
    pub text: &'static [u8],
    pub status: u8,
    is_hinted: bool,
    shown: &'static [u8],
}

/// The reports of the parts too.
pub const REPORTS: Asked = Asked {
    format: Format::Lines,
    requirement: None,
    parts: None,
    reports: true,
};

/// That the run has a level.
const REQUIRED: Asked = Asked {
    format: Format::Lines,
    requirement: Some(Requirement::Pl1),
    parts: None,
    reports: false,
};

pub const RUNS: [Due; 16] = [
    // Two parts that fit.
    Due {
        task: Task::Chain(LINES),
        names: &["first", "second"],
        text: b"=== parts 2\nserializable: yes\nsnapshot: yes\nG0: absent\nG1a: absent\nG1b: absent\nG1c: absent\nG-single: absent\nG2-item: absent\nG2: absent\nlevel: PL-3\n",
        status: 0,
        is_hinted: false,
        shown: b"\r2 of 2 files\r\x1b[K",
    },
    Due {
        task: Task::Chain(JSON),
        names: &["first", "second"],
        text: b"{\"committed\":true,\"end\":[[\"test\",1,12]],\"first\":\"first\",\"initial\":[[\"test\",1,10]],\"level\":\"PL-3\",\"parts\":2,\"phenomena\":{\"G-single\":{\"verdict\":\"absent\"},\"G0\":{\"verdict\":\"absent\"},\"G1a\":{\"verdict\":\"absent\"},\"G1b\":{\"verdict\":\"absent\"},\"G1c\":{\"verdict\":\"absent\"},\"G2\":{\"verdict\":\"absent\"},\"G2-item\":{\"verdict\":\"absent\"}},\"serializable\":{\"verdict\":\"yes\"},\"snapshot\":{\"verdict\":\"yes\"}}\n",
        status: 0,
        is_hinted: false,
        shown: b"\r2 of 2 files\r\x1b[K",
    },
    // Their reports too.
    Due {
        task: Task::Chain(REPORTS),
        names: &["first", "second"],
        text: b"== first\nserializable: yes T1\nsnapshot: yes T1 0-1\nG0: absent\nG1a: absent\nG1b: absent\nG1c: absent\nG-single: absent\nG2-item: absent\nG2: absent\nlevel: PL-3\n== second\nserializable: yes T1\nsnapshot: yes T1 0-1\nG0: absent\nG1a: absent\nG1b: absent\nG1c: absent\nG-single: absent\nG2-item: absent\nG2: absent\nlevel: PL-3\n=== parts 2\nserializable: yes\nsnapshot: yes\nG0: absent\nG1a: absent\nG1b: absent\nG1c: absent\nG-single: absent\nG2-item: absent\nG2: absent\nlevel: PL-3\n",
        status: 0,
        is_hinted: false,
        shown: b"\r2 of 2 files\r\x1b[K",
    },
    // One that isn't there.
    Due {
        task: Task::Chain(LINES),
        names: &["first", "none", "second"],
        text: b"== none\nfile: unreadable\n=== parts 3\nserializable: not judged none\nsnapshot: not judged none\nG0: not judged none\nG1a: not judged none\nG1b: not judged none\nG1c: not judged none\nG-single: not judged none\nG2-item: not judged none\nG2: not judged none\nlevel: not judged\n",
        status: 3,
        is_hinted: true,
        shown: b"\r3 of 3 files\r\x1b[K",
    },
    Due {
        task: Task::Chain(JSON),
        names: &["first", "none"],
        text: b"{\"file\":\"none\",\"unreadable\":true}\n{\"committed\":true,\"end\":null,\"first\":\"first\",\"initial\":[[\"test\",1,10]],\"level\":\"not judged\",\"parts\":2,\"phenomena\":{\"G-single\":{\"file\":\"none\",\"verdict\":\"not judged\"},\"G0\":{\"file\":\"none\",\"verdict\":\"not judged\"},\"G1a\":{\"file\":\"none\",\"verdict\":\"not judged\"},\"G1b\":{\"file\":\"none\",\"verdict\":\"not judged\"},\"G1c\":{\"file\":\"none\",\"verdict\":\"not judged\"},\"G2\":{\"file\":\"none\",\"verdict\":\"not judged\"},\"G2-item\":{\"file\":\"none\",\"verdict\":\"not judged\"}},\"serializable\":{\"file\":\"none\",\"verdict\":\"not judged\"},\"snapshot\":{\"file\":\"none\",\"verdict\":\"not judged\"}}\n",
        status: 3,
        is_hinted: true,
        shown: b"\r2 of 2 files\r\x1b[K",
    },
    // One that is refused.
    Due {
        task: Task::Chain(JSON),
        names: &["first", "cut", "second"],
        text: b"{\"file\":\"cut\",\"refused\":{\"kind\":\"NotJson\"}}\n{\"committed\":true,\"end\":[[\"test\",1,12]],\"first\":\"first\",\"initial\":[[\"test\",1,10]],\"level\":\"not judged\",\"parts\":3,\"phenomena\":{\"G-single\":{\"file\":\"cut\",\"verdict\":\"not judged\"},\"G0\":{\"file\":\"cut\",\"verdict\":\"not judged\"},\"G1a\":{\"file\":\"cut\",\"verdict\":\"not judged\"},\"G1b\":{\"file\":\"cut\",\"verdict\":\"not judged\"},\"G1c\":{\"file\":\"cut\",\"verdict\":\"not judged\"},\"G2\":{\"file\":\"cut\",\"verdict\":\"not judged\"},\"G2-item\":{\"file\":\"cut\",\"verdict\":\"not judged\"}},\"serializable\":{\"file\":\"cut\",\"verdict\":\"not judged\"},\"snapshot\":{\"file\":\"cut\",\"verdict\":\"not judged\"}}\n",
        status: 2,
        is_hinted: true,
        shown: b"\r3 of 3 files\r\x1b[K",
    },
    // A seam, and a level that isn't met.
    Due {
        task: Task::Chain(REQUIRED),
        names: &["first", "still"],
        text: b"=== parts 2\nserializable: no still: seam row 1\nsnapshot: no still: seam row 1\nG0: not judged still\nG1a: not judged still\nG1b: not judged still\nG1c: not judged still\nG-single: not judged still\nG2-item: not judged still\nG2: not judged still\nlevel: unsound\n",
        status: 1,
        is_hinted: true,
        shown: b"\r2 of 2 files\r\x1b[K",
    },
    // More parts than are held at a time.
    Due {
        task: Task::Chain(LINES),
        names: &[
            "cut", "cut", "cut", "cut", "cut", "cut", "cut", "cut", "cut", "cut", "cut", "cut",
            "cut", "cut", "cut", "cut", "first",
        ],
        text: b"== cut\nfile: NotJson\n== cut\nfile: NotJson\n== cut\nfile: NotJson\n== cut\nfile: NotJson\n== cut\nfile: NotJson\n== cut\nfile: NotJson\n== cut\nfile: NotJson\n== cut\nfile: NotJson\n== cut\nfile: NotJson\n== cut\nfile: NotJson\n== cut\nfile: NotJson\n== cut\nfile: NotJson\n== cut\nfile: NotJson\n== cut\nfile: NotJson\n== cut\nfile: NotJson\n== cut\nfile: NotJson\n=== parts 17\nserializable: not judged cut\nsnapshot: not judged cut\nG0: not judged cut\nG1a: not judged cut\nG1b: not judged cut\nG1c: not judged cut\nG-single: not judged cut\nG2-item: not judged cut\nG2: not judged cut\nlevel: not judged\n",
        status: 2,
        is_hinted: true,
        shown: b"\r17 of 17 files\r\x1b[K",
    },
    // None.
    Due {
        task: Task::Chain(LINES),
        names: &[],
        text: b"=== parts 0\nserializable: yes\nsnapshot: yes\nG0: absent\nG1a: absent\nG1b: absent\nG1c: absent\nG-single: absent\nG2-item: absent\nG2: absent\nlevel: PL-3\n",
        status: 0,
        is_hinted: false,
        shown: b"\r\x1b[K",
    },
    // Two answers that fit.
    Due {
        task: Task::Join(LINES),
        names: &["answer", "answer"],
        text: b"=== parts 2\nserializable: yes\nsnapshot: yes\nG0: absent\nG1a: absent\nG1b: absent\nG1c: absent\nG-single: absent\nG2-item: absent\nG2: absent\nlevel: PL-3\n",
        status: 0,
        is_hinted: false,
        shown: b"",
    },
    Due {
        task: Task::Join(JSON),
        names: &["answer", "answer"],
        text: b"{\"committed\":false,\"end\":[[\"test\",1,10]],\"first\":\"a\",\"initial\":[[\"test\",1,10]],\"level\":\"PL-3\",\"parts\":2,\"phenomena\":{\"G-single\":{\"verdict\":\"absent\"},\"G0\":{\"verdict\":\"absent\"},\"G1a\":{\"verdict\":\"absent\"},\"G1b\":{\"verdict\":\"absent\"},\"G1c\":{\"verdict\":\"absent\"},\"G2\":{\"verdict\":\"absent\"},\"G2-item\":{\"verdict\":\"absent\"}},\"serializable\":{\"verdict\":\"yes\"},\"snapshot\":{\"verdict\":\"yes\"}}\n",
        status: 0,
        is_hinted: false,
        shown: b"",
    },
    // A seam between two, and what isn't met.
    Due {
        task: Task::Join(REQUIRED),
        names: &["piece", "answer"],
        text: b"=== parts 3\nserializable: no a: seam row 1\nsnapshot: no a: seam row 1\nG0: not judged a\nG1a: not judged a\nG1b: not judged a\nG1c: not judged a\nG-single: not judged a\nG2-item: not judged a\nG2: not judged a\nlevel: unsound\n",
        status: 1,
        is_hinted: true,
        shown: b"",
    },
    // Files without an answer.
    Due {
        task: Task::Join(LINES),
        names: &["answer", "none", "cut"],
        text: b"== none\nfile: unreadable\n== cut\nfile: NoAnswer\n",
        status: 3,
        is_hinted: true,
        shown: b"",
    },
    Due {
        task: Task::Join(JSON),
        names: &["none", "cut"],
        text: b"{\"file\":\"none\",\"unreadable\":true}\n{\"file\":\"cut\",\"refused\":{\"kind\":\"NoAnswer\"}}\n",
        status: 3,
        is_hinted: true,
        shown: b"",
    },
    Due {
        task: Task::Join(LINES),
        names: &["cut", "answer"],
        text: b"== cut\nfile: NoAnswer\n",
        status: 2,
        is_hinted: true,
        shown: b"",
    },
    // None.
    Due {
        task: Task::Join(LINES),
        names: &[],
        text: b"=== parts 0\nserializable: yes\nsnapshot: yes\nG0: absent\nG1a: absent\nG1b: absent\nG1c: absent\nG-single: absent\nG2-item: absent\nG2: absent\nlevel: PL-3\n",
        status: 0,
        is_hinted: false,
        shown: b"",
    },
];

/// Bytes that a read gives and a write takes, whether each second call is interrupted, and which call on the hints and on the
/// line of progress fails.
static STREAMS: [(usize, bool, u32); 4] = [
    (9_000, false, 0),
    (1, false, 0),
    (5, true, 0),
    (9_000, false, 1),
];

/// Whether a run writes, opens, hints and shows what is due, where streams are so.
fn is_written<T: Threads + Wait + Sync>(
    rt: &T,
    alloc: Global,
    due: &Due,
    step: usize,
    is_interrupted: bool,
    fails_at: u32,
) -> bool {
    let held = files_in_memory();
    let is_called = AtomicBool::new(false);
    let mut writer = Sink::new(alloc, step, 0);
    writer.is_interrupted = is_interrupted;
    let of = FileRun {
        held: &held,
        step,
        is_interrupted,
        task: due.task,
        names: due.names,
        fails_at,
        shown: due.shown,
    };
    let ran = ran_on_files(rt, alloc, of, &is_called, &mut writer);
    let is_text = writer.text.as_slice() == due.text;
    drop(writer);
    is_text
        && status_of(ran.run) == due.status
        && ran.openings as usize == due.names.len()
        && (fails_at == 1 || (ran.is_shown && (ran.noted > 0) == due.is_hinted))
}

#[test]
fn runs_in_parts_are_written_as_is_due(rt: HostRuntime) -> Result<(), Fail> {
    for due in &RUNS {
        for (step, is_interrupted, fails_at) in &STREAMS {
            assert!(rt;
                is_written(&rt, rt.alloc(), due, *step, *is_interrupted, *fails_at),
                "of {:?}, by {step} bytes",
                due.names
            );
        }
    }
    Ok(())
}

/// What is written of a part that is refused, which `RUNS[MANY]` has 16 times.
const REFUSED: &[u8] = b"== cut\nfile: NotJson\n";

const MANY: usize = 7;

/// What that run came to where its writes are cut and one of them fails, or each flush: how it ended, the calls of its
/// writer, the bytes that it wrote, whether these are the front of what is due, and the bytes of its hints.
#[derive(Clone, Copy)]
struct Cut {
    run: Result<u8, RunFault>,
    calls: u32,
    written: usize,
    is_front: bool,
    noted: usize,
}

fn run_cut<T: Threads + Wait + Sync>(
    rt: &T,
    alloc: Global,
    fails_at: u32,
    flush_fails: bool,
) -> Cut {
    let held = files_in_memory();
    let is_called = AtomicBool::new(false);
    let due = &RUNS[MANY];
    let mut writer = Sink::new(alloc, 50, fails_at);
    writer.flush_fails = flush_fails;
    let of = FileRun {
        held: &held,
        step: 9_000,
        is_interrupted: false,
        task: due.task,
        names: due.names,
        fails_at: 0,
        shown: due.shown,
    };
    let ran = ran_on_files(rt, alloc, of, &is_called, &mut writer);
    let calls = writer.calls;
    let written = writer.text.len();
    let is_front = due.text.starts_with(writer.text.as_slice());
    drop(writer);
    Cut {
        run: ran.run,
        calls,
        written,
        is_front,
        noted: ran.noted,
    }
}

/// Whether hints of this length come behind what is written.
fn are_behind(cut: &Cut, hint: usize) -> bool {
    cut.noted.saturating_mul(REFUSED.len()) <= cut.written.saturating_mul(hint)
}

#[test]
fn hints_come_behind_what_is_written(rt: HostRuntime) -> Result<(), Fail> {
    let whole = run_cut(&rt, rt.alloc(), 0, false);
    let hint = whole.noted / 16;
    assert!(rt; whole.run == Ok(RUNS[MANY].status) && are_behind(&whole, hint));
    assert!(rt; 1 < whole.calls && whole.calls < 100);
    // In each run a call fails; in the last it is each flush.
    for fails_at in 1..=whole.calls.min(100).saturating_add(1) {
        let cut = run_cut(&rt, rt.alloc(), fails_at, fails_at > whole.calls);
        let is_so = cut.run == Err(RunFault::Unwritten) && cut.is_front && are_behind(&cut, hint);
        assert!(rt; is_so, "at call {fails_at}");
    }
    Ok(())
}
