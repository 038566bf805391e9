//! Commands whose allocations fail before their event or while they wait, and that then continue, in the same lab or in
//! another one.

use crate::calls::{closed, log_of, resumed, setup_of, submitted, with_seat};
use crate::instrumented::{Counts, Instrumented, Refusals, comes_to};
use lab_engine::{Engine, EngineFault, Outcome};
use lab_locking::LockEngine;
use lab_session::{CloseFault, Lab, LabFault, Seat};
use lab_statement::parse_statement;
use lab_table::{Command, Session};
use std::alloc::Global;
use std::sync::atomic::{AtomicBool, Ordering};
use std::sync::{Arc, Wait};
use std::test::Fail;
use std::thread;

const MAX_TURNS: u32 = 200_000_000;

/// The locking engine, but that it is refused memory where it is told so.
type Refusing = Instrumented<LockEngine>;

/// Turns until a flag is raised; false where it isn't within so many.
fn seen(flag: &AtomicBool) -> bool {
    for _ in 0..MAX_TURNS {
        if flag.load(Ordering::SeqCst) {
            return true;
        }
    }
    false
}

const FIRST: &[u8] = b"update test set value = 11 where id = 1";

const SECOND: &[u8] = b"update test set value = 12 where id = 1";

/// What is asked of a lab: a command, or that it goes on with what the seat holds.
#[derive(Clone, Copy)]
enum Ask {
    Begin,
    Update(&'static [u8]),
    Commit,
    Resume,
}

/// What is asked, why it is refused, if it is, and what the seat has then: how many calls, and whether the last of them was
/// told Busy.
#[derive(Clone, Copy)]
struct Step {
    ask: Ask,
    fault: Option<LabFault>,
    calls: usize,
    is_busy: bool,
}

macro_rules! due {
    ($ask:expr, $fault:expr, $calls:expr, $is_busy:expr) => {
        Step {
            ask: $ask,
            fault: $fault,
            calls: $calls,
            is_busy: $is_busy,
        }
    };
}

/// Session 1 begins and updates.
const UPDATES: [Step; 2] = [
    due!(Ask::Begin, None, 1, false),
    due!(Ask::Update(FIRST), None, 2, false),
];

const COMMITS: [Step; 1] = [due!(Ask::Commit, None, 3, false)];

const BEFORE: Option<LabFault> = Some(LabFault::NoMemory { waiting: false });

const WHILE_WAITING: Option<LabFault> = Some(LabFault::NoMemory { waiting: true });

const NOTHING: Option<LabFault> = Some(LabFault::NothingWaiting);

/// Session 2 begins, and updates the same row as session 1: refused before its event, where there is nothing to go on with,
/// and while it waits.
const REFUSED: [Step; 4] = [
    due!(Ask::Begin, None, 1, false),
    due!(Ask::Update(SECOND), BEFORE, 1, false),
    due!(Ask::Resume, NOTHING, 1, false),
    due!(Ask::Update(SECOND), WHILE_WAITING, 1, false),
];

/// A commit while the update waits is told Busy, and the update goes on behind it.
const BEHIND: [Step; 2] = [
    due!(Ask::Commit, None, 2, true),
    due!(Ask::Resume, None, 3, false),
];

/// In another lab, where its session isn't waiting, what the seat holds is stepped behind a begin, and then it holds
/// nothing.
const ELSEWHERE: [Step; 3] = [
    due!(Ask::Begin, None, 2, false),
    due!(Ask::Resume, None, 3, false),
    due!(Ask::Resume, NOTHING, 3, false),
];

/// An update of a row, by its text.
fn update(alloc: Global, text: &[u8]) -> Option<Command> {
    match parse_statement(alloc, text) {
        Ok(statement) => Some(Command::Run(statement)),
        Err(_) => None,
    }
}

/// The command that is asked; None where none is, or memory is refused.
fn command_of(alloc: Global, ask: Ask) -> Option<Command> {
    match ask {
        Ask::Begin => Some(Command::Begin),
        Ask::Update(text) => update(alloc, text),
        Ask::Commit => Some(Command::Commit),
        Ask::Resume => None,
    }
}

/// Asks it. The seat, and why it was refused, if it was.
fn ask_of<E: Engine + Drop, R: Wait>(
    rt: &R,
    alloc: Global,
    lab: &Lab<E>,
    seat: Seat,
    ask: Ask,
) -> (Seat, Option<LabFault>) {
    match command_of(alloc, ask) {
        Some(command) => submitted(rt, alloc, lab, seat, command),
        None => resumed(rt, alloc, lab, seat),
    }
}

fn is_told_busy(seat: &Seat) -> bool {
    matches!(seat.reply(), Some(Outcome::Refused(EngineFault::Busy)))
}

/// Takes a step. The seat, if that came to what is due.
fn taken<E: Engine + Drop, R: Wait>(
    rt: &R,
    alloc: Global,
    lab: &Lab<E>,
    seat: Seat,
    step: Step,
) -> Option<Seat> {
    let (seat, fault) = ask_of(rt, alloc, lab, seat, step.ask);
    if fault == step.fault
        && seat.calls().len() == step.calls
        && is_told_busy(&seat) == step.is_busy
    {
        return Some(seat);
    }
    drop(seat);
    None
}

/// Takes these steps in order.
fn all_taken<E: Engine + Drop, R: Wait>(
    rt: &R,
    alloc: Global,
    lab: &Lab<E>,
    seat: Seat,
    steps: &[Step],
) -> Option<Seat> {
    let mut seat = seat;
    for step in steps {
        seat = taken(rt, alloc, lab, seat, *step)?;
    }
    Some(seat)
}

/// Begins, updates, and commits once the other waits.
fn first<R: Wait>(
    rt: &R,
    alloc: Global,
    lab: &Lab<Refusing>,
    seat: Seat,
    updated: &AtomicBool,
    counts: &Counts,
) -> Option<Seat> {
    let seat = all_taken(rt, alloc, lab, seat, &UPDATES)?;
    updated.store(true, Ordering::SeqCst);
    if !comes_to(&counts.waits, 1) {
        drop(seat);
        return None;
    }
    all_taken(rt, alloc, lab, seat, &COMMITS)
}

/// A lab of its own over the same table, where nothing waits.
fn other_lab(alloc: Global) -> Option<Lab<LockEngine>> {
    let engine = LockEngine::new(alloc, setup_of(alloc, SETUP)?);
    let Ok((lab, seats)) = Lab::start(alloc, engine, 2) else {
        return None;
    };
    drop(seats);
    Some(lab)
}

/// Whether a seat has, behind its begin in the one lab, a begin and the second update in the other, at places 1 and 2.
fn has_gone_on(alloc: Global, seat: &Seat) -> Option<bool> {
    let [_, begun, updated] = seat.calls() else {
        return Some(false);
    };
    let update = update(alloc, SECOND)?;
    let is_as_due = begun.receipt.place == 1
        && matches!(begun.receipt.outcome, Outcome::Begun(_))
        && updated.receipt.place == 2
        && updated.command.equals(&update)
        && matches!(updated.receipt.outcome, Outcome::Rows { .. });
    drop(update);
    Some(is_as_due)
}

/// Goes on in another lab.
fn goes_on_elsewhere<R: Wait>(rt: &R, alloc: Global, seat: Seat) -> Option<Seat> {
    let Some(lab) = other_lab(alloc) else {
        drop(seat);
        return None;
    };
    let seat = all_taken(rt, alloc, &lab, seat, &ELSEWHERE);
    drop(lab);
    let seat = seat?;
    if has_gone_on(alloc, &seat) == Some(true) {
        return Some(seat);
    }
    drop(seat);
    None
}

/// Begins once the other has updated, and updates the same row: refused before its event, and while it waits. It goes on in
/// this lab or in another one.
fn second<R: Wait>(
    rt: &R,
    alloc: Global,
    lab: &Lab<Refusing>,
    seat: Seat,
    updated: &AtomicBool,
    elsewhere: bool,
) -> Option<Seat> {
    if !seen(updated) {
        drop(seat);
        return None;
    }
    let seat = all_taken(rt, alloc, lab, seat, &REFUSED)?;
    if elsewhere {
        goes_on_elsewhere(rt, alloc, seat)
    } else {
        all_taken(rt, alloc, lab, seat, &BEHIND)
    }
}

/// Neither want of memory left an event, and Busy left what waits.
const DUE: &[u8] = b"T1 begin: begun 1
T1 update test set value = 11 where id = 1: rows (1, 10)
T2 begin: begun 2
T2 update test set value = 12 where id = 1: waits T1
T1 commit: committed
T2 commit: refused Busy
T2 update test set value = 12 where id = 1: rows (1, 11)
";

const SETUP: &[u8] = b"setup (1, 10), (2, 20)";

/// A lab whose session 2 is refused its first statement, and which is refused its first retry.
fn lab_of_two(alloc: Global, counts: Arc<Counts, Global>) -> Option<(Lab<Refusing>, Vec<Seat>)> {
    let refusals = Refusals {
        idle: None,
        statement: Session::new(2),
        retries: 1,
    };
    let Some(setup) = setup_of(alloc, SETUP) else {
        drop(counts);
        return None;
    };
    let engine = Instrumented::new(LockEngine::new(alloc, setup), refusals, counts);
    Lab::start(alloc, engine, 2).ok()
}

/// The seats of session 1 and of session 2, which are the last two.
fn two(seats: &mut Vec<Seat>) -> Option<(Seat, Seat)> {
    let theirs = seats.pop();
    seats.pop().zip(theirs)
}

/// The same after a close that was refused for want of seats.
fn unclosed(alloc: Global, lab: Lab<Refusing>) -> Option<Lab<Refusing>> {
    let (lab, none, fault) = closed(alloc, lab, Vec::new(alloc)).err()?;
    drop(none);
    if matches!(fault, CloseFault::SeatMissing { .. }) {
        Some(lab)
    } else {
        drop(lab);
        None
    }
}

/// A lab of two sessions whose close was refused, and their seats.
fn started(alloc: Global, counts: &Arc<Counts, Global>) -> Option<(Lab<Refusing>, Seat, Seat)> {
    let (lab, mut seats) = lab_of_two(alloc, Arc::try_clone(counts).ok()?)?;
    let Some(lab) = unclosed(alloc, lab) else {
        drop(seats);
        return None;
    };
    let both = two(&mut seats);
    drop(seats);
    let Some((ours, theirs)) = both else {
        drop(lab);
        return None;
    };
    Some((lab, ours, theirs))
}

/// The seats of both.
fn both(alloc: Global, ours: Option<Seat>, theirs: Option<Seat>) -> Option<Vec<Seat>> {
    let (ours, theirs) = ours.zip(theirs)?;
    let Some(seats) = with_seat(Vec::new(alloc), ours) else {
        drop(theirs);
        return None;
    };
    with_seat(seats, theirs)
}

/// The text of the log of a lab that is closed with the seats of both.
fn logged(
    alloc: Global,
    lab: Lab<Refusing>,
    ours: Option<Seat>,
    theirs: Option<Seat>,
) -> Option<Vec<u8>> {
    let Some(seats) = both(alloc, ours, theirs) else {
        drop(lab);
        return None;
    };
    log_of(alloc, closed(alloc, lab, seats).ok()?)
}

/// Whether a run came to what is due: its log, or where session 2 went on in another lab that both sessions have gone on.
fn is_as_due(
    alloc: Global,
    lab: Lab<Refusing>,
    ours: Option<Seat>,
    theirs: Option<Seat>,
    elsewhere: bool,
) -> bool {
    if elsewhere {
        let have_gone_on = ours.is_some() && theirs.is_some();
        drop(lab);
        drop(ours);
        drop(theirs);
        return have_gone_on;
    }
    match logged(alloc, lab, ours, theirs) {
        Some(text) => text.as_slice() == DUE,
        None => false,
    }
}

/// In its lab, whose close was refused before, and in another one, where nothing of its session waits.
#[test]
fn a_command_whose_retry_had_no_memory_goes_on(rt: HostRuntime) -> Result<(), Fail> {
    let alloc = rt.alloc();
    for elsewhere in [false, true] {
        let counts = Counts::new(alloc)?;
        let Some((lab, ours, theirs)) = started(alloc, &counts) else {
            drop(counts);
            return Err(Fail::from("a lab"));
        };
        let updated = AtomicBool::new(false);
        let (ours, theirs) = thread::join(
            &rt,
            || first(&rt, alloc, &lab, ours, &updated, &counts),
            || second(&rt, alloc, &lab, theirs, &updated, elsewhere),
        );
        drop(counts);
        let is_as_due = is_as_due(alloc, lab, ours, theirs, elsewhere);
        assert!(rt; is_as_due, "elsewhere: {elsewhere}");
    }
    Ok(())
}
