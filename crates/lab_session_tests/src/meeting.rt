//! Free plays with several threads.

use crate::engines::QuietEngine;
use crate::instrumented::comes_to;
use lab_engine::Recording;
use lab_script::{Script, parse_script};
use lab_session::{Gate, play_free};
use lab_table::Session;
use std::alloc::Global;
use std::sync::Wait;
use std::sync::atomic::{AtomicBool, AtomicU32, Ordering};
use std::test::Fail;
use std::thread::Threads;

/// Holds each session at its first line until so many are there.
struct Meeting {
    sessions: u32,
    here: AtomicU32,
    missed: AtomicBool,
}

impl Drop for Meeting {
    fn drop(self) {
        let Meeting {
            sessions: _,
            here: _,
            missed: _,
        } = self;
    }
}

impl Gate for Meeting {
    fn before(&self, _session: Session, index: usize) {
        if index != 0 {
            return;
        }
        self.here.fetch_add(1, Ordering::SeqCst);
        if !comes_to(&self.here, self.sessions) {
            self.missed.store(true, Ordering::SeqCst);
        }
    }

    fn after(&self, _session: Session, _index: usize) {}
}

/// The recording of a play with a gate.
fn played<R: Threads + Wait + Sync>(
    rt: &R,
    alloc: Global,
    script: &Script,
    gate: &Meeting,
) -> Option<Recording> {
    let setup = script.setup.copy(alloc).ok()?;
    let engine = QuietEngine::new(alloc, setup);
    play_free(rt, alloc, engine, script, gate).ok()
}

/// How many events a play of a script has.
fn events<R: Threads + Wait + Sync>(
    rt: &R,
    alloc: Global,
    text: &[u8],
    gate: &Meeting,
) -> Option<usize> {
    let Ok(script) = parse_script(alloc, text) else {
        return None;
    };
    let played = played(rt, alloc, &script, gate);
    drop(script);
    let recording = played?;
    let events = recording.log().len();
    drop(recording);
    Some(events)
}

/// Scripts by their number of sessions, each of which begins.
static ALL_BEGIN: [(u32, &[u8]); 3] = [
    (2, b"setup ();\nbegin; -- T1\nbegin; -- T2\n"),
    (3, b"setup ();\nbegin; -- T4\nbegin; -- T6\nbegin; -- T9\n"),
    (
        9,
        b"setup ();
begin; -- T1
begin; -- T2
begin; -- T3
begin; -- T4
begin; -- T5
begin; -- T6
begin; -- T7
begin; -- T8
begin; -- T9
",
    ),
];

#[test]
fn all_threads_are_in_their_first_command_at_once(rt: HostRuntime) -> Result<(), Fail> {
    for (sessions, text) in &ALL_BEGIN {
        let gate = Meeting {
            sessions: *sessions,
            here: AtomicU32::new(0),
            missed: AtomicBool::new(false),
        };
        let events = events(&rt, rt.alloc(), text, &gate);
        let missed = gate.missed.load(Ordering::SeqCst);
        drop(gate);
        // A begin of each, and the aborts of what is left active.
        let due = Some(2 * *sessions as usize);
        assert!(rt; !missed && events == due, "{sessions} sessions: {events:?}");
    }
    Ok(())
}
