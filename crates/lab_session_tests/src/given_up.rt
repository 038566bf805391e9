//! Free plays that fail while a session waits that nobody would wake: the session ends with a fault, and the play ends.

use crate::instrumented::{Counts, Refusals, comes_to, play_instrumented};
use lab_engine::MAX_EVENTS;
use lab_locking::LockEngine;
use lab_script::{Line, Lines, Script, parse_script};
use lab_session::{Gate, PlayFault};
use lab_table::{Command, NoMemory, Session};
use std::alloc::Global;
use std::sync::atomic::{AtomicU32, Ordering};
use std::sync::{Arc, Wait};
use std::test::Fail;
use std::thread::Threads;

/// Session 2 waits for session 1 and session 3 for session 2.
const CHAIN: &[u8] = b"setup (1, 10), (2, 20);
begin; -- T1
update test set value = 11 where id = 1; -- T1
commit; -- T1
begin; -- T2
update test set value = 22 where id = 2; -- T2
update test set value = 12 where id = 1; -- T2
begin; -- T3
update test set value = 23 where id = 2; -- T3
";

/// Each session begins once the one that it will wait for has its row, and session 1 commits once both wait.
struct Chain {
    counts: Arc<Counts, Global>,
}

impl Drop for Chain {
    fn drop(self) {
        let Chain { counts: _ } = self;
    }
}

impl Gate for Chain {
    fn before(&self, session: Session, index: usize) {
        let events = match (session.number(), index) {
            (2, 0) => 2,
            (3, 0) => 5,
            (1, 2) => 7,
            _ => 0,
        };
        comes_to(&self.counts.events, events);
    }

    fn after(&self, _session: Session, _index: usize) {}
}

/// Why a play of that chain is refused in which the first two retries have no memory.
fn chain_fault<R: Threads + Wait + Sync>(rt: &R, alloc: Global, gate: &Chain) -> Option<PlayFault> {
    let script = parse_script(alloc, CHAIN).ok()?;
    let Ok(setup) = script.setup.copy(alloc) else {
        drop(script);
        return None;
    };
    let engine = LockEngine::new(alloc, setup);
    let refusals = Refusals::of_retries(2);
    let fault = play_instrumented(rt, alloc, engine, refusals, &gate.counts, &script, gate).err();
    drop(script);
    fault
}

/// Session 1 commits, and session 2 is refused its retry, and that once more. Its abort is told Busy, since the update
/// waits, so it keeps its transaction. Session 3 waits for that, and ends nevertheless.
#[test]
fn who_waits_for_a_session_without_memory_ends(rt: HostRuntime) -> Result<(), Fail> {
    let counts = Counts::new(rt.alloc())?;
    let gate = Chain { counts };
    let fault = chain_fault(&rt, rt.alloc(), &gate);
    let events = gate.counts.events.load(Ordering::SeqCst);
    drop(gate);
    // Eight up to the commit, and that each of the others is told Busy.
    assert!(rt;
        fault == Some(PlayFault::NoMemory) && events == 10,
        "{fault:?}, {events}"
    );
    Ok(())
}

/// Session 1 has the row that session 2 waits for. Then session 3 fills the log.
const WAITING: &[u8] = b"setup (1, 10);
begin; -- T1
update test set value = 11 where id = 1; -- T1
commit; -- T1
begin; -- T2
update test set value = 12 where id = 1; -- T2
";

/// The place of session 3's last line, counted from 0: those before it fill the log behind four events.
const LAST: usize = MAX_EVENTS - 4;

/// Adds the lines of session 3, which has no transaction.
fn fill(lines: &mut Lines, session: Session) -> Result<(), NoMemory> {
    for _ in 0..=LAST {
        lines.push(Line {
            session,
            command: Command::Commit,
            text_line: 7,
        })?;
    }
    Ok(())
}

fn filling_script(alloc: Global) -> Option<Script> {
    let session = Session::new(3)?;
    let Ok(mut script) = parse_script(alloc, WAITING) else {
        return None;
    };
    if fill(&mut script.lines, session).is_err() {
        drop(script);
        return None;
    }
    Some(script)
}

/// Session 2 begins once session 1 has the row, and session 3 once session 2 waits. Its last line, for which the log has
/// no room, comes once session 2 has looked at the full log, and waits again. Session 1 commits behind that line.
struct Filling {
    counts: Arc<Counts, Global>,
    /// Whether session 3 has been refused its last line.
    refused: AtomicU32,
}

impl Drop for Filling {
    fn drop(self) {
        let Filling {
            counts: _,
            refused: _,
        } = self;
    }
}

impl Gate for Filling {
    fn before(&self, session: Session, index: usize) {
        match (session.number(), index) {
            (2, 0) => comes_to(&self.counts.events, 2),
            (3, 0) => comes_to(&self.counts.waits, 1),
            (3, LAST) => comes_to(&self.counts.looked_behind, 100_000),
            (1, 2) => comes_to(&self.refused, 1),
            _ => true,
        };
    }

    fn after(&self, session: Session, index: usize) {
        if session.number() == 3 && index == LAST {
            self.refused.store(1, Ordering::SeqCst);
        }
    }
}

/// Why a play is refused in which session 3 fills the log while session 2 waits.
fn filling_fault<R: Threads + Wait + Sync>(
    rt: &R,
    alloc: Global,
    gate: &Filling,
) -> Option<PlayFault> {
    let script = filling_script(alloc)?;
    let Ok(setup) = script.setup.copy(alloc) else {
        drop(script);
        return None;
    };
    let engine = LockEngine::new(alloc, setup);
    let refusals = Refusals::of_retries(0);
    let fault = play_instrumented(rt, alloc, engine, refusals, &gate.counts, &script, gate).err();
    drop(script);
    fault
}

/// The full log refuses session 1's commit, and then its abort too, so it keeps the row that session 2 waits for. Session
/// 2 sleeps when the first of the others is refused, and no event can wake it.
#[test]
fn who_waits_when_the_log_is_full_ends(rt: HostRuntime) -> Result<(), Fail> {
    let gate = Filling {
        counts: Counts::new(rt.alloc())?,
        refused: AtomicU32::new(0),
    };
    let fault = filling_fault(&rt, rt.alloc(), &gate);
    let looked_behind = gate.counts.looked_behind.load(Ordering::SeqCst);
    drop(gate);
    assert!(rt;
        fault == Some(PlayFault::Full) && looked_behind == 100_000,
        "{fault:?}"
    );
    Ok(())
}
