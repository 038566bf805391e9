//! Sessions that wait in a free play. Each event wakes them, and nothing else does; no event is missed, and a session
//! that is still blocked keeps waiting.

use crate::instrumented::{Counts, Refusals, comes_to, play_instrumented};
use lab_engine::Recording;
use lab_locking::LockEngine;
use lab_script::{Line, Lines, Script, parse_script};
use lab_session::{Gate, print_log};
use lab_table::{NoMemory, Session};
use std::alloc::Global;
use std::sync::atomic::{AtomicBool, Ordering};
use std::sync::{Arc, Wait};
use std::test::Fail;
use std::thread::{Threads, yield_now};

/// A free play of a script at locking, with a gate.
fn played<R: Threads + Wait + Sync, G: Gate + Sync>(
    rt: &R,
    alloc: Global,
    script: &Script,
    counts: &Arc<Counts, Global>,
    gate: &G,
) -> Option<Recording> {
    let setup = script.setup.copy(alloc).ok()?;
    let engine = LockEngine::new(alloc, setup);
    let refusals = Refusals::of_retries(0);
    play_instrumented(rt, alloc, engine, refusals, counts, script, gate).ok()
}

/// Session 2 waits for session 1, and session 3 runs beside them.
const BESIDE: &[u8] = b"setup (1, 10), (2, 20);
begin; -- T1
update test set value = 11 where id = 1; -- T1
commit; -- T1
begin; -- T2
update test set value = 12 where id = 1; -- T2
commit; -- T2
begin; -- T3
select * from test where id = 2; -- T3
commit; -- T3
";

const BESIDE_LOG: &[u8] = b"T1 begin: begun 1
T1 update test set value = 11 where id = 1: rows (1, 10)
T2 begin: begun 2
T2 update test set value = 12 where id = 1: waits T1
T3 begin: begun 3
T3 select * from test where id = 2: rows (2, 20)
T3 commit: committed
T1 commit: committed
T2 update test set value = 12 where id = 1: rows (1, 11)
T2 commit: committed
";

/// Session 2 looks at most once behind its own event, and once behind each of the four that follow before it's answered;
/// a few more may come of waking without a cause.
const MOST_LOOKS: u32 = 16;

/// Turns in which a session that doesn't sleep would look more often.
const TURNS: u32 = 200_000;

/// Session 2 begins once session 1 has the row, and session 3 once session 2 waits. Session 1 commits once session 2 has
/// looked behind session 3's commit, and then had time to look again.
struct Beside {
    counts: Arc<Counts, Global>,
}

impl Drop for Beside {
    fn drop(self) {
        let Beside { counts: _ } = self;
    }
}

impl Beside {
    /// Leaves a session that doesn't sleep the time to look too often.
    fn let_look(&self) {
        for _ in 0..TURNS {
            if self.counts.looks.load(Ordering::SeqCst) > MOST_LOOKS {
                return;
            }
            yield_now();
        }
    }
}

impl Gate for Beside {
    fn before(&self, session: Session, index: usize) {
        match (session.number(), index) {
            (2, 0) => {
                comes_to(&self.counts.events, 2);
            }
            (3, 0) => {
                comes_to(&self.counts.waits, 1);
            }
            (1, 2) => {
                comes_to(&self.counts.looked_behind, 7);
                self.let_look();
            }
            _ => {}
        }
    }

    fn after(&self, _session: Session, _index: usize) {}
}

/// The text of the log of that play.
fn beside_log<R: Threads + Wait + Sync>(rt: &R, alloc: Global, gate: &Beside) -> Option<Vec<u8>> {
    let Ok(script) = parse_script(alloc, BESIDE) else {
        return None;
    };
    let played = played(rt, alloc, &script, &gate.counts, gate);
    drop(script);
    let recording = played?;
    let text = print_log(alloc, &recording).ok();
    drop(recording);
    text
}

/// What others do wakes session 2, which isn't due: it looks, logs nothing, and sleeps.
#[test]
fn who_waits_looks_behind_each_event_and_sleeps(rt: HostRuntime) -> Result<(), Fail> {
    let gate = Beside {
        counts: Counts::new(rt.alloc())?,
    };
    let text = beside_log(&rt, rt.alloc(), &gate);
    let looks = gate.counts.looks.load(Ordering::SeqCst);
    drop(gate);
    let is_due = text.as_deref() == Some(BESIDE_LOG);
    drop(text);
    assert!(rt; is_due && looks <= MOST_LOOKS, "{looks}");
    Ok(())
}

/// One round: sessions 2 and 3 wait for session 1, and then session 3 for session 2.
const ROUND: &[u8] = b"setup (1, 10);
begin; -- T1
update test set value = 11 where id = 1; -- T1
commit; -- T1
begin; -- T2
update test set value = 12 where id = 1; -- T2
commit; -- T2
begin; -- T3
update test set value = 13 where id = 1; -- T3
commit; -- T3
";

/// The events of a round: an update of sessions 2 and 3 is told to wait, and is answered later.
const ROUND_EVENTS: u32 = 11;

const ROUNDS: u32 = 300;

/// In each round session 1 gets the row, then sessions 2 and 3 ask for it, the other first than in the round before, and
/// once both wait session 1 commits. The next round begins when all has been answered.
struct Rounds {
    counts: Arc<Counts, Global>,
    /// Whether a round hasn't ended in time: from then on nobody is held.
    missed: AtomicBool,
}

impl Drop for Rounds {
    fn drop(self) {
        let Rounds {
            counts: _,
            missed: _,
        } = self;
    }
}

impl Rounds {
    /// What is due before a line of a round: so many events, and so many that were told to wait.
    fn due(session: u8, round: u32, line: u32) -> (u32, u32) {
        let events = round.saturating_mul(ROUND_EVENTS);
        let waits = round.saturating_mul(2);
        // The one that asks first begins behind the two events of session 1, the other behind two more.
        let behind = match (session, round % 2) {
            (2, 0) | (3, 1) => 2,
            _ => 4,
        };
        match (session, line) {
            (1, 0) => (events, waits),
            (1, 2) => (events, waits.saturating_add(2)),
            (2, 0) | (3, 0) => (events.saturating_add(behind), waits),
            _ => (0, 0),
        }
    }
}

impl Gate for Rounds {
    fn before(&self, session: Session, index: usize) {
        if index >= 3 * ROUNDS as usize || self.missed.load(Ordering::SeqCst) {
            return;
        }
        let index = index as u32;
        let (events, waits) = Rounds::due(session.number(), index / 3, index % 3);
        if !comes_to(&self.counts.events, events) || !comes_to(&self.counts.waits, waits) {
            self.missed.store(true, Ordering::SeqCst);
        }
    }

    fn after(&self, _session: Session, _index: usize) {}
}

/// Adds a copy of these lines.
fn add(alloc: Global, lines: &mut Lines, round: &[Line]) -> Result<(), NoMemory> {
    for line in round {
        lines.push(Line {
            session: line.session,
            command: line.command.copy(alloc)?,
            text_line: line.text_line,
        })?;
    }
    Ok(())
}

fn all_rounds(alloc: Global, round: &[Line]) -> Result<Lines, NoMemory> {
    let mut lines = Lines::new(Vec::new(alloc));
    for _ in 0..ROUNDS {
        add(alloc, &mut lines, round)?;
    }
    Ok(lines)
}

/// How many events a play of these rounds has.
fn rounds_events<R: Threads + Wait + Sync>(rt: &R, alloc: Global, gate: &Rounds) -> Option<usize> {
    let Ok(one) = parse_script(alloc, ROUND) else {
        return None;
    };
    let lines = all_rounds(alloc, one.lines.as_slice());
    let Script { setup, lines: _ } = one;
    let Ok(lines) = lines else {
        drop(setup);
        return None;
    };
    let script = Script { setup, lines };
    let played = played(rt, alloc, &script, &gate.counts, gate);
    drop(script);
    let recording = played?;
    let events = recording.log().len();
    drop(recording);
    Some(events)
}

/// Each commit wakes both that wait, and finds them asleep or before they have slept.
#[test]
fn who_waits_is_woken_by_each_event(rt: HostRuntime) -> Result<(), Fail> {
    let gate = Rounds {
        counts: Counts::new(rt.alloc())?,
        missed: AtomicBool::new(false),
    };
    let events = rounds_events(&rt, rt.alloc(), &gate);
    let missed = gate.missed.load(Ordering::SeqCst);
    drop(gate);
    assert!(rt; !missed && events == Some(3_300), "{events:?}");
    Ok(())
}
