//! Ends of runs with correct and with spoiled seats, compared with a plain implementation.

use crate::handed::{Handed, Spoil, handed_over};
use crate::listings::LISTINGS;
use crate::plain_close::plain_fault;
use lab_engine::{EngineFault, LogEvent, Outcome};
use lab_locking::LockEngine;
use lab_script::{Line, Script, parse_script};
use lab_session::{Bench, CloseFault};
use lab_table::{Session, Table};
use std::alloc::Global;
use std::sync::Wait;
use std::test::Fail;

static SPOILS: [Spoil; 9] = [
    Spoil::Nothing,
    Spoil::LeftOut,
    Spoil::GivenTwice,
    Spoil::Exchanged,
    Spoil::Moved,
    Spoil::OtherValue,
    Spoil::SeatMissing,
    Spoil::SeatRepeated,
    Spoil::MoreSeats,
];

const PLAIN: &[u8] = b"setup (1, 10), (2, 20), (3, 30);
begin; -- T1
update test set value = value + 1 where id = 1; -- T1
begin; -- T2
select * from test where id = 2; -- T2
commit; -- T1
commit; -- T2
";

/// Session 2 waits for session 1 where writers wait.
const WAITING: &[u8] = b"setup (1, 10), (2, 20), (3, 30);
begin; -- T1
update test set value = value + 1 where id = 1; -- T1
begin; -- T2
begin; -- T3
update test set value = value + 2 where id = 1; -- T2
select * from test where id = 3; -- T3
commit; -- T1
update test set value = value + 3 where id = 2; -- T2
commit; -- T3
commit; -- T2
";

const REFUSING: &[u8] = b"setup (1, 10), (2, 20), (3, 30);
commit; -- T3
begin; -- T1
begin; -- T1
insert into test (id, value) values (1, 5); -- T1
begin; -- T2
delete from test where id = 2; -- T2
abort; -- T1
begin; -- T3
select * from test where id = 3; -- T3
abort; -- T2
commit; -- T3
";

/// The other value of row 1.
const OTHER: &[u8] = b"setup (1, 11), (2, 20), (3, 30);
begin; -- T1
";

/// A bench after the commands of a script, where each retry comes as soon as it may.
fn benched(alloc: Global, script: &Script) -> Option<Bench<LockEngine>> {
    let Ok(setup) = script.setup.copy(alloc) else {
        return None;
    };
    let mut bench = Bench::new(LockEngine::new(alloc, setup));
    let ran = run_lines(alloc, &mut bench, script.lines.as_slice());
    ran.and(Some(bench))
}

/// Gives a bench these lines; None where memory is refused.
fn run_lines(alloc: Global, bench: &mut Bench<LockEngine>, lines: &[Line]) -> Option<()> {
    for line in lines {
        if !bench.is_waiting(line.session) {
            drop(bench.step(alloc, line.session, &line.command).ok()?);
        }
        if let Some(session) = bench.retryable() {
            retry(alloc, bench, session)?;
        }
    }
    Some(())
}

/// Retries a session where it waits.
fn retry(alloc: Global, bench: &mut Bench<LockEngine>, session: Session) -> Option<()> {
    if bench.is_waiting(session) {
        drop(bench.retry(alloc, session).ok()?);
    }
    Some(())
}

/// Why a bench isn't closed, by its own body and by the plainer one.
#[derive(Clone, Copy)]
struct Both {
    closed: Option<CloseFault>,
    plain: Option<CloseFault>,
    /// Whether the log has a deadlock. A lab that waits for nobody doesn't come past it.
    deadlocks: bool,
}

fn has_deadlock(log: &[LogEvent]) -> bool {
    for event in log {
        if let Outcome::Refused(EngineFault::Deadlock { .. }) = &event.outcome {
            return true;
        }
    }
    false
}

/// The bench of a script, closed with the seats of a lab of three sessions.
fn end_by_both<R: Wait>(
    rt: &R,
    alloc: Global,
    script: &Script,
    spoil: Spoil,
    at: usize,
) -> Option<Both> {
    let bench = benched(alloc, script)?;
    let both = close_by_both(rt, alloc, &bench, script, spoil, at);
    drop(bench);
    both
}

/// A bench, closed with the seats of a lab of three sessions.
fn close_by_both<R: Wait>(
    rt: &R,
    alloc: Global,
    bench: &Bench<LockEngine>,
    script: &Script,
    spoil: Spoil,
    at: usize,
) -> Option<Both> {
    let Ok(recording) = bench.close(alloc, 0, &[]) else {
        return None;
    };
    let handed = handed_in(rt, alloc, script, recording.log(), spoil, at);
    let both = closed_by_both(alloc, bench, recording.log(), handed);
    drop(recording);
    both
}

/// What is handed in of a lab that runs a script's log as it is spoiled.
fn handed_in<R: Wait>(
    rt: &R,
    alloc: Global,
    script: &Script,
    log: &[LogEvent],
    spoil: Spoil,
    at: usize,
) -> Option<Handed> {
    let lab = start(alloc, script, spoil);
    let shadow = start(alloc, script, spoil);
    match lab.zip(shadow) {
        Some((lab, shadow)) => handed_over(rt, alloc, lab, shadow, log, spoil, at),
        None => None,
    }
}

/// How a bench is closed with what is handed in.
fn closed_by_both(
    alloc: Global,
    bench: &Bench<LockEngine>,
    log: &[LogEvent],
    handed: Option<Handed>,
) -> Option<Both> {
    let handed = handed?;
    let closed = bench.close(alloc, 3, &handed.seats).err();
    let plain = plain_fault(log, 3, &handed.owners, &handed.seats);
    drop(handed);
    Some(Both {
        closed,
        plain,
        deadlocks: has_deadlock(log),
    })
}

/// The table that a lab begins with.
fn start(alloc: Global, script: &Script, spoil: Spoil) -> Option<Table> {
    match spoil {
        Spoil::OtherValue => other_table(alloc),
        _ => script.setup.copy(alloc).ok(),
    }
}

/// The table where row 1 has another value.
fn other_table(alloc: Global) -> Option<Table> {
    let Ok(other) = parse_script(alloc, OTHER) else {
        return None;
    };
    let table = other.setup.copy(alloc).ok();
    drop(other);
    table
}

/// The same of the script of this text.
fn both_of<R: Wait>(rt: &R, alloc: Global, text: &[u8], spoil: Spoil, at: usize) -> Option<Both> {
    match parse_script(alloc, text) {
        Ok(script) => {
            let both = end_by_both(rt, alloc, &script, spoil, at);
            drop(script);
            both
        }
        Err(_) => None,
    }
}

/// Whether both bodies answer alike at the end of a run; where nothing is spoiled, nothing but for a deadlock.
fn is_alike<R: Wait>(rt: &R, alloc: Global, text: &[u8], spoil: Spoil, at: usize) -> bool {
    match both_of(rt, alloc, text, spoil, at) {
        Some(both) => {
            let is_due = !matches!(spoil, Spoil::Nothing)
                || both.closed.is_some() == both.deadlocks;
            is_due && both.closed == both.plain
        }
        None => false,
    }
}

/// Whether it is so at the end of each run of a script. What is spoiled stands at the events from an index on.
fn are_alike<R: Wait>(rt: &R, alloc: Global, text: &[u8], from: usize, to: usize) -> bool {
    for spoil in &SPOILS {
        for at in from..to {
            if !is_alike(rt, alloc, text, *spoil, at) {
                return false;
            }
        }
    }
    true
}

#[test]
fn runs_end_as_by_a_plainer_body(rt: HostRuntime) -> Result<(), Fail> {
    for text in [PLAIN, WAITING, REFUSING] {
        assert!(rt; are_alike(&rt, rt.alloc(), text, 0, 12), "{text:?}");
    }
    for text in &LISTINGS {
        assert!(rt; are_alike(&rt, rt.alloc(), text, 2, 5), "{text:?}");
    }
    Ok(())
}

/// What is due of a close.
#[derive(Clone, Copy)]
enum Due {
    Closed,
    Missing,
    Repeated,
    /// The first place that differs.
    Differs(usize),
}

/// How the plain script's run ends where it is spoiled at the event of an index, and the number of the session that is
/// told.
static ENDS: [(Spoil, usize, u8, Due); 9] = [
    (Spoil::Nothing, 0, 1, Due::Closed),
    (Spoil::LeftOut, 1, 1, Due::Differs(2)),
    (Spoil::LeftOut, 5, 2, Due::Differs(3)),
    (Spoil::GivenTwice, 5, 2, Due::Differs(4)),
    (Spoil::Exchanged, 2, 2, Due::Differs(1)),
    (Spoil::Moved, 4, 1, Due::Differs(3)),
    (Spoil::OtherValue, 0, 1, Due::Differs(2)),
    (Spoil::SeatMissing, 1, 2, Due::Missing),
    (Spoil::SeatRepeated, 1, 2, Due::Repeated),
];

fn fault_of(number: u8, due: Due) -> Option<CloseFault> {
    let session = Session::new(number)?;
    match due {
        Due::Closed => None,
        Due::Missing => Some(CloseFault::SeatMissing { session }),
        Due::Repeated => Some(CloseFault::SeatRepeated { session }),
        Due::Differs(place) => Some(CloseFault::ReceiptDiffers { session, place }),
    }
}

/// Whether the plain script's run ends so.
fn ends_so<R: Wait>(
    rt: &R,
    alloc: Global,
    spoil: Spoil,
    at: usize,
    due: Option<CloseFault>,
) -> bool {
    match both_of(rt, alloc, PLAIN, spoil, at) {
        Some(both) => both.closed == due,
        None => false,
    }
}

#[test]
fn spoiled_seats_are_told(rt: HostRuntime) -> Result<(), Fail> {
    for (spoil, at, number, due) in &ENDS {
        let due = fault_of(*number, *due);
        assert!(rt; ends_so(&rt, rt.alloc(), *spoil, *at, due), "{due:?}");
    }
    Ok(())
}
