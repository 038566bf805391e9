//! The last abort of a seat, which must succeed without memory.

use crate::calls::asked;
use crate::runs::{NOTHING, all_submitted};
use lab_engine::Outcome;
use lab_locking::LockEngine;
use lab_refusal_tests::{refuse, was_refused};
use lab_script::{Line, Script, parse_script};
use lab_session::{Lab, Seat};
use lab_table::{Command, Table};
use std::alloc::Global;
use std::sync::Wait;
use std::test::Fail;

/// A transaction of session 1 of as many calls as a list grows for more than once.
const LOOKS: &[u8] = b"setup (1, 10);
begin; -- T1
select * from test where id = 1; -- T1
select * from test where id = 1; -- T1
select * from test where id = 1; -- T1
select * from test where id = 1; -- T1
select * from test where id = 1; -- T1
select * from test where id = 1; -- T1
select * from test where id = 1; -- T1
select * from test where id = 1; -- T1
select * from test where id = 1; -- T1
";

/// Whether the last seat's abort is answered with the first allocation refused, and none is.
fn is_aborted<R: Wait>(
    rt: &R,
    alloc: Global,
    lab: &Lab<LockEngine>,
    seats: &mut Vec<Seat>,
) -> bool {
    let Some(seat) = seats.pop() else {
        return false;
    };
    refuse(alloc, 1);
    let answered = asked(rt, alloc, lab, seat, Command::Abort);
    let refused = was_refused(alloc);
    match answered {
        Some(seat) => {
            let is_aborted = matches!(seat.reply(), Some(Outcome::Aborted));
            drop(seat);
            is_aborted && !refused
        }
        None => false,
    }
}

/// The same after these lines, in a lab of one session.
fn is_aborted_after<R: Wait>(rt: &R, alloc: Global, setup: Table, lines: &[Line]) -> bool {
    let engine = LockEngine::new(alloc, setup);
    let Ok((lab, mut seats)) = Lab::start(alloc, engine, 1) else {
        return false;
    };
    let mut was = false;
    let submitted = all_submitted(rt, alloc, &lab, &mut seats, lines, NOTHING, &mut was);
    let is_aborted = submitted.is_some() && is_aborted(rt, alloc, &lab, &mut seats);
    drop(lab);
    drop(seats);
    is_aborted
}

/// The same after so many lines of that transaction.
fn is_aborted_behind<R: Wait>(rt: &R, alloc: Global, calls: usize) -> bool {
    let Ok(script) = parse_script(alloc, LOOKS) else {
        return false;
    };
    let Script { setup, lines } = script;
    let is_aborted = match lines.as_slice().get(..calls) {
        Some(lines) => is_aborted_after(rt, alloc, setup, lines),
        None => {
            drop(setup);
            false
        }
    };
    drop(lines);
    is_aborted
}

/// As a thread of a free play ends, whichever place in its seat's list the abort takes.
#[test]
fn the_last_abort_of_a_seat_is_refused_no_memory(rt: HostRuntime) -> Result<(), Fail> {
    for calls in 1..=10usize {
        assert!(rt; is_aborted_behind(&rt, rt.alloc(), calls), "{calls}");
    }
    Ok(())
}
