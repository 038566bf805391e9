//! Calls on a full log.

use crate::instrumented::{Counts, Refusals, play_instrumented};
use lab_engine::{EngineFault, Outcome};
use lab_locking::LockEngine;
use lab_script::{Line, Lines, Script};
use lab_session::{Bench, BenchFault, Gate, PlayFault, play_script};
use lab_table::{Command, Session, Table};
use std::alloc::Global;
use std::sync::Wait;
use std::sync::atomic::{AtomicBool, Ordering};
use std::test::Fail;
use std::thread::{Threads, yield_now};

/// Whether a commit that no transaction is there for is logged at this place.
fn is_refused(
    alloc: Global,
    bench: &mut Bench<LockEngine>,
    session: Session,
    place: usize,
) -> bool {
    match bench.step(alloc, session, &Command::Commit) {
        Ok(receipt) => {
            let is_refused = receipt.place == place
                && matches!(
                    receipt.outcome,
                    Outcome::Refused(EngineFault::NoTransaction)
                );
            drop(receipt);
            is_refused
        }
        Err(_) => false,
    }
}

/// Whether a bench logs 100,000 such commits, and refuses each one more as Full, which comes at 100,000 events alone.
fn is_filled(alloc: Global, bench: &mut Bench<LockEngine>, session: Session) -> bool {
    for place in 1..=100_000usize {
        if !is_refused(alloc, bench, session, place) {
            return false;
        }
    }
    for _ in 0..2 {
        let fault = bench.step(alloc, session, &Command::Begin).err();
        if fault != Some(BenchFault::Full) {
            return false;
        }
    }
    bench.retryable().is_none() && !bench.is_waiting(session)
}

/// The same of a bench that is new.
fn fills(alloc: Global) -> bool {
    let mut bench = Bench::new(LockEngine::new(alloc, Table::new(alloc)));
    let fills = match Session::new(1) {
        Some(session) => is_filled(alloc, &mut bench, session),
        None => false,
    };
    drop(bench);
    fills
}

#[test]
fn a_full_log_takes_no_more(rt: HostRuntime) -> Result<(), Fail> {
    assert!(rt; fills(rt.alloc()));
    Ok(())
}

/// A begin of one session, and of another so many commits that no transaction is there for that the log has no room for
/// the last.
fn too_many(alloc: Global, one: Session, other: Session) -> Option<Vec<Line>> {
    let mut lines = Vec::with_capacity(alloc, 100_002).ok()?;
    for place in 0..100_002u32 {
        let line = if place == 0 {
            Line {
                session: one,
                command: Command::Begin,
                text_line: 2,
            }
        } else {
            Line {
                session: other,
                command: Command::Commit,
                text_line: 3,
            }
        };
        if lines.push(line).ok().is_none() {
            drop(lines);
            return None;
        }
    }
    Some(lines)
}

/// A script of these lines over an empty table.
fn script_of(alloc: Global, one: u8, other: u8) -> Option<Script> {
    let lines = too_many(alloc, Session::new(one)?, Session::new(other)?)?;
    Some(Script {
        setup: Table::new(alloc),
        lines: Lines::new(lines),
    })
}

/// Holds all but one session until that one's first line was refused.
struct Behind {
    session: u8,
    refused: AtomicBool,
}

impl Drop for Behind {
    fn drop(self) {
        let Behind {
            session: _,
            refused: _,
        } = self;
    }
}

const MAX_TURNS: u32 = 20_000_000;

impl Gate for Behind {
    fn before(&self, session: Session, _index: usize) {
        if session.number() == self.session {
            return;
        }
        for _ in 0..MAX_TURNS {
            if self.refused.load(Ordering::SeqCst) {
                return;
            }
            yield_now();
        }
    }

    fn after(&self, session: Session, _index: usize) {
        if session.number() == self.session {
            self.refused.store(true, Ordering::SeqCst);
        }
    }
}

/// Why a free play has no recording in which one session is refused memory for each command, as long as it has no active
/// transaction, and another then fills the log.
fn fault_of<R: Threads + Wait + Sync>(
    rt: &R,
    alloc: Global,
    refused: u8,
    filling: u8,
) -> Option<PlayFault> {
    let refusals = Refusals {
        idle: Session::new(refused),
        statement: None,
        retries: 0,
    };
    let counts = Counts::new(alloc).ok()?;
    let Some(script) = script_of(alloc, refused, filling) else {
        drop(counts);
        return None;
    };
    let engine = LockEngine::new(alloc, Table::new(alloc));
    let gate = Behind {
        session: refused,
        refused: AtomicBool::new(false),
    };
    let fault = play_instrumented(rt, alloc, engine, refusals, &counts, &script, &gate).err();
    drop(script);
    drop(gate);
    drop(counts);
    fault
}

#[test]
fn a_free_play_tells_the_fault_of_its_least_session(rt: HostRuntime) -> Result<(), Fail> {
    let alloc = rt.alloc();
    assert_eq!(rt; fault_of(&rt, alloc, 2, 1), Some(PlayFault::Full));
    assert_eq!(rt; fault_of(&rt, alloc, 1, 2), Some(PlayFault::NoMemory));
    Ok(())
}

/// Why a play by one thread of such a script has no recording.
fn scripted_fault(alloc: Global) -> Option<PlayFault> {
    let script = script_of(alloc, 1, 2)?;
    let engine = LockEngine::new(alloc, Table::new(alloc));
    let fault = play_script(alloc, engine, &script).err();
    drop(script);
    fault
}

#[test]
fn a_play_whose_log_is_full_says_so(rt: HostRuntime) -> Result<(), Fail> {
    assert_eq!(rt; scripted_fault(rt.alloc()), Some(PlayFault::Full));
    Ok(())
}
