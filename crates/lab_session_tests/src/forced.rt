//! Free plays whose order a gate forces. At each level, the log is the one that the rules of the level give.

use crate::instrumented::{Counts, Refusals, comes_to, play_instrumented};
use lab_engine::{Level, Recording};
use lab_levels::on_engine;
use lab_script::{Script, parse_script};
use lab_session::{Gate, PlayFault, print_log};
use lab_table::{NoMemory, Session, Table};
use std::alloc::Global;
use std::sync::atomic::{AtomicU32, Ordering};
use std::sync::{Arc, Wait};
use std::test::Fail;
use std::thread::Threads;

/// Session 2 begins behind session 1's update. Session 1 commits once the log has so many events, and session 2 behind
/// that.
struct Forcing {
    before_commit: u32,
    counts: Arc<Counts, Global>,
    /// The calls that came in their place: before the line's command is asked, or after it has ended.
    in_place: AtomicU32,
}

impl Drop for Forcing {
    fn drop(self) {
        let Forcing {
            before_commit: _,
            counts: _,
            in_place: _,
        } = self;
    }
}

impl Forcing {
    fn new(alloc: Global, before_commit: u32) -> Result<Forcing, NoMemory> {
        Ok(Forcing {
            before_commit,
            counts: Counts::new(alloc)?,
            in_place: AtomicU32::new(0),
        })
    }

    /// Counts the call where so many commands of the session have ended.
    fn note(&self, session: Session, ended: usize) {
        if self.counts.ended_of(session).load(Ordering::SeqCst) as usize == ended {
            self.in_place.fetch_add(1, Ordering::SeqCst);
        }
    }
}

impl Gate for Forcing {
    fn before(&self, session: Session, index: usize) {
        self.note(session, index);
        let events = match (session.number(), index) {
            (2, 0) => 2,
            (1, 2) => self.before_commit,
            (2, 3) => self.before_commit.saturating_add(1),
            _ => 0,
        };
        comes_to(&self.counts.events, events);
    }

    fn after(&self, session: Session, index: usize) {
        self.note(session, index.saturating_add(1));
    }
}

const SCRIPT: &[u8] = b"setup (1, 10);
begin; -- T1
update test set value = value + 1 where id = 1; -- T1
commit; -- T1
begin; -- T2
select * from test where id = 1; -- T2
update test set value = value + 2 where id = 1; -- T2
commit; -- T2
";

/// At each level the events before session 1's commit, and the log. A pending update is in the way of a select and an
/// update of its row at locking, of an update alone at committed, and of nothing at snapshot and optimistic, where the
/// second commit is refused in place of that.
static ALL_DUE: [(Level, u32, &[u8]); 4] = [
    (
        Level::Locking,
        4,
        b"T1 begin: begun 1
T1 update test set value = value + 1 where id = 1: rows (1, 10)
T2 begin: begun 2
T2 select * from test where id = 1: waits T1
T1 commit: committed
T2 select * from test where id = 1: rows (1, 11)
T2 update test set value = value + 2 where id = 1: rows (1, 11)
T2 commit: committed
",
    ),
    (
        Level::Committed,
        5,
        b"T1 begin: begun 1
T1 update test set value = value + 1 where id = 1: rows (1, 10)
T2 begin: begun 2
T2 select * from test where id = 1: rows (1, 10)
T2 update test set value = value + 2 where id = 1: waits T1
T1 commit: committed
T2 update test set value = value + 2 where id = 1: rows (1, 11)
T2 commit: committed
",
    ),
    (
        Level::Snapshot,
        5,
        b"T1 begin: begun 1
T1 update test set value = value + 1 where id = 1: rows (1, 10)
T2 begin: begun 2
T2 select * from test where id = 1: rows (1, 10)
T2 update test set value = value + 2 where id = 1: rows (1, 10)
T1 commit: committed
T2 commit: refused WriteConflict row 1 by 1
",
    ),
    (
        Level::Optimistic,
        5,
        b"T1 begin: begun 1
T1 update test set value = value + 1 where id = 1: rows (1, 10)
T2 begin: begun 2
T2 select * from test where id = 1: rows (1, 10)
T2 update test set value = value + 2 where id = 1: rows (1, 10)
T1 commit: committed
T2 commit: refused WriteConflict row 1 by 1
",
    ),
];

/// A free play of the script on the engine of a level.
fn play_on<R: Threads + Wait + Sync>(
    rt: &R,
    alloc: Global,
    level: Level,
    setup: Table,
    refusals: Refusals,
    script: &Script,
    gate: &Forcing,
) -> Result<Recording, PlayFault> {
    on_engine!(
        level,
        alloc,
        setup,
        |engine| play_instrumented(rt, alloc, engine, refusals, &gate.counts, script, gate)
    )
}

/// The same of the script above, with so many of the first retries refused.
fn play_at<R: Threads + Wait + Sync>(
    rt: &R,
    alloc: Global,
    level: Level,
    retries: u32,
    gate: &Forcing,
) -> Option<Result<Recording, PlayFault>> {
    let Ok(script) = parse_script(alloc, SCRIPT) else {
        return None;
    };
    let Ok(setup) = script.setup.copy(alloc) else {
        drop(script);
        return None;
    };
    let refusals = Refusals::of_retries(retries);
    let played = play_on(rt, alloc, level, setup, refusals, &script, gate);
    drop(script);
    Some(played)
}

/// The recording of a play at a level.
fn recording_at<R: Threads + Wait + Sync>(
    rt: &R,
    alloc: Global,
    level: Level,
    gate: &Forcing,
) -> Option<Recording> {
    play_at(rt, alloc, level, 0, gate)?.ok()
}

/// The text of the log of a recording of this level.
fn text_of(alloc: Global, level: Level, recording: &Recording) -> Option<Vec<u8>> {
    if recording.level() != level {
        return None;
    }
    print_log(alloc, recording).ok()
}

/// The text of the log of a play at a level.
fn text_at<R: Threads + Wait + Sync>(
    rt: &R,
    alloc: Global,
    level: Level,
    gate: &Forcing,
) -> Option<Vec<u8>> {
    let recording = recording_at(rt, alloc, level, gate)?;
    let text = text_of(alloc, level, &recording);
    drop(recording);
    text
}

/// Whether a play at a level has this log, with so many events before session 1's commit. And how many calls of its gate
/// came in their place.
fn forced<R: Threads + Wait + Sync>(
    rt: &R,
    alloc: Global,
    level: Level,
    before_commit: u32,
    due: &[u8],
) -> Option<(bool, u32)> {
    let gate = Forcing::new(alloc, before_commit).ok()?;
    let text = text_at(rt, alloc, level, &gate);
    let in_place = gate.in_place.load(Ordering::SeqCst);
    drop(gate);
    let text = text?;
    Some((text.as_slice() == due, in_place))
}

#[test]
fn a_forced_play_has_the_log_of_its_level(rt: HostRuntime) -> Result<(), Fail> {
    for (level, before_commit, due) in &ALL_DUE {
        let played = forced(&rt, rt.alloc(), *level, *before_commit, due);
        // Twice round each of the seven lines.
        assert!(rt; played == Some((true, 14)), "{level:?}");
    }
    Ok(())
}

/// Why a play at locking is refused whose first retry has no memory.
fn fault_of<R: Threads + Wait + Sync>(rt: &R, alloc: Global, gate: &Forcing) -> Option<PlayFault> {
    play_at(rt, alloc, Level::Locking, 1, gate)?.err()
}

/// Session 2's select waits, and its retry has no memory.
#[test]
fn a_forced_play_without_memory_ends(rt: HostRuntime) -> Result<(), Fail> {
    let gate = Forcing::new(rt.alloc(), 4)?;
    let fault = fault_of(&rt, rt.alloc(), &gate);
    let in_place = gate.in_place.load(Ordering::SeqCst);
    let events = gate.counts.events.load(Ordering::SeqCst);
    drop(gate);
    assert_eq!(rt; fault, Some(PlayFault::NoMemory));
    // Twice round each line of session 1, and round the first two of session 2. Five events up to the commit; and then
    // session 2 goes on once with its select, and aborts.
    assert!(rt;
        in_place == 10 && events == 7,
        "{in_place} in place, {events} events"
    );
    Ok(())
}
