//! Plays a script with one thread for each session.

ghost use Rattle.std.specs.Prelude.{◌≡◌, ◌≢◌, [], ◌++◌, map, None, false, true, OnOk, IfOk, IfErr, IfSome, IfNone};
ghost use Rattle.std.specs.List.{All};
ghost use Rattle.lab_engine.specs.RecordedLog.{IsSoundRecord};
ghost use Rattle.lab_session.specs.Play.{given_lines, commands_of};
ghost use Rattle.lab_session.specs.Free.{IsFirstOf, IsUnused, HasOneMore, IsPlayedSeat, TellsSomeFull, IsRefusal, IsEnded, AllPlayed, IsStop, AllSessionsPlayed, IsFreeFault};

use crate::fault::{LabFault, PlayFault, refused_play, unclosed};
use crate::kept::{Kept, Origin};
use crate::lab::{Lab, waits_on};
use crate::seat::Seat;
use lab_engine::{Engine, Recording};
use lab_script::{Line, Script};
use lab_table::{Command, Session};
use std::alloc::Global;
use std::marker::Brand;
use std::sync::Wait;
use std::thread;
use std::thread::{Promise, PromisedHandle, Scope, Threads};

/// Callbacks of a free play, which each thread calls before and after each of its lines.
pub trait Gate {
    /// Called before a line of `session` is submitted. `index` counts the session's own lines from 0.
    fn before(&self, session: Session, index: usize);

    /// Called after the line has completed or failed.
    fn after(&self, session: Session, index: usize);
}

/// What a session's thread gives back: its seat, and why the first of its calls that was refused was.
#[derive(Drop)]
struct Ended {
    seat: Seat,
    fault: Option<LabFault>,
}

/// What the threads gave back, in the order of their sessions, and the seats of sessions without lines.
#[derive(Drop)]
struct AllEnded {
    ended: Vec<Ended>,
    idle: Vec<Seat>,
}

/// What a session's thread promises: where nothing was refused, its seat has the session's lines, and at most one abort.
#[derive(Clone, Copy)]
struct PlaysLines<'a> {
    lines: &'a [Line],
}

impl<'a> Promise<Ended> for PlaysLines<'a> {
    ghost kept_by = { λ p r. IsEnded (given_lines p.lines.now) r.seat r.fault };
}

/// Submits a copy of a command.
fn give<E: Engine + Drop, R: Wait>(
    rt: &R,
    alloc: Global,
    lab: &Lab<E>,
    seat: Seat,
    command: &Command,
) -> Result<Seat, (Seat, LabFault)>
    ensures more { IfOk result (λ given. HasOneMore seat given command.now) }
    ensures fault { IfErr result (λ e. e.1 ≢ LabFault.NothingWaiting) }
    ensures full { IfErr result (λ e. TellsSomeFull e.1) }
{
    let Ok(command) = command.copy(alloc) else {
        return Err((seat, LabFault::NoMemory { waiting: false }));
    };
    lab.submit(rt, alloc, seat, command)
}

/// Gives the lines of a seat's session in order, between the two calls of the gate, and aborts what is then active.
fn give_lines<E: Engine + Drop, G: Gate, R: Wait>(
    rt: &R,
    alloc: Global,
    lab: &Lab<E>,
    seat: Seat,
    lines: &[Line],
    gate: &G,
) -> Result<Seat, (Seat, LabFault)>
    requires { IsUnused seat }
    ensures played { IfOk result (IsPlayedSeat (given_lines lines.now)) }
    ensures fault { IfErr result (λ e. e.1 ≢ LabFault.NothingWaiting) }
    ensures full { IfErr result (λ e. TellsSomeFull e.1) }
{
    let session = seat.session();
    let mut seat = seat;
    let mut index = 0usize;
    for line in lines {
        if line.session == session {
            gate.before(session, index);
            let given = give(rt, alloc, lab, seat, &line.command);
            gate.after(session, index);
            match given {
                Ok(answered) => seat = answered,
                Err(refused) => return Err(refused),
            }
            index += 1;
        }
    }
    if index > 0 && lab.is_active(rt, session) {
        return lab.submit(rt, alloc, seat, Command::Abort);
    }
    Ok(seat)
}

/// Goes on once with a command that was refused and still waits.
fn resumed<E: Engine + Drop, R: Wait>(
    rt: &R,
    alloc: Global,
    lab: &Lab<E>,
    seat: Seat,
    fault: LabFault,
) -> Seat {
    if !waits_on(fault) {
        return seat;
    }
    match lab.resume(rt, alloc, seat) {
        Ok(answered) => answered,
        Err(refused) => refused.0,
    }
}

/// After a refusal: nobody waits any longer, for the play is refused; goes on once with what still waits, and aborts.
fn given_up<E: Engine + Drop, R: Wait>(
    rt: &R,
    alloc: Global,
    lab: &Lab<E>,
    seat: Seat,
    fault: LabFault,
) -> Seat {
    lab.give_up(rt);
    let seat = resumed(rt, alloc, lab, seat, fault);
    match lab.submit(rt, alloc, seat, Command::Abort) {
        Ok(answered) => answered,
        Err(refused) => refused.0,
    }
}

/// What a session's thread runs.
fn play_session<E: Engine + Drop, G: Gate, R: Wait>(
    rt: &R,
    alloc: Global,
    lab: &Lab<E>,
    seat: Seat,
    lines: &[Line],
    gate: &G,
) -> Ended
    requires unused { IsUnused seat }
    requires lined { commands_of seat.session (given_lines lines.now) ≢ [] }
    ensures { IsEnded (given_lines lines.now) result.seat result.fault }
{
    match give_lines(rt, alloc, lab, seat, lines, gate) {
        Ok(seat) => Ended { seat, fault: None },
        Err(refused) => {
            let (seat, fault) = refused;
            let seat = given_up(rt, alloc, lab, seat, fault);
            Ended {
                seat,
                fault: Some(fault),
            }
        }
    }
}

/// Whether a line is the session's.
fn has_lines(lines: &[Line], session: Session) -> bool
    ensures none { result ≡ false → commands_of session (given_lines lines.now) ≡ [] }
    ensures some { result ≡ true → commands_of session (given_lines lines.now) ≢ [] }
{
    for line in lines {
        if line.session == session {
            return true;
        }
    }
    false
}

/// Plays each session that has lines in a thread of its own.
fn play_each<
    's,
    'e,
    'r,
    'b,
    'l,
    'g,
    E: Engine + Drop + Send,
    G: Gate + Sync,
    R: Threads + Wait + Sync,
>(
    scope: &'s Scope<'s, &'e ()>,
    rt: &'r R,
    alloc: Global,
    lab: &'b Lab<E>,
    seats: Vec<Seat>,
    lines: &'l [Line],
    gate: &'g G,
) -> Result<AllEnded, PlayFault>
where
    'r: 's,
    'b: 's,
    'l: 's,
    'g: 's,
    requires { All IsUnused seats.items }
    ensures ended { IfOk result (λ all. All (λ e. IsEnded (given_lines lines.now) e.seat e.fault) all.ended.items) }
    ensures idle { IfOk result (λ all. AllPlayed (given_lines lines.now) all.idle.items) }
    ensures fault { IfErr result IsStop }
{
    let mut threads: Vec<PromisedHandle<Ended, PlaysLines<'l>>> = Vec::with_capacity(
        alloc,
        seats.len(),
    )?;
    let mut idle = Vec::with_capacity(alloc, seats.len())?;
    for seat in seats {
        if has_lines(lines, seat.session()) {
            let play = move || play_session(rt, alloc, lab, seat, lines, gate);
            let Ok(thread) = scope.spawn_with(PlaysLines { lines }, play) else {
                return Err(PlayFault::NoThread);
            };
            threads.push(thread)?;
        } else {
            idle.push(seat)?;
        }
    }
    match thread::join_promised(rt, threads) {
        Ok(ended) => Ok(AllEnded { ended, idle }),
        Err(_) => Err(PlayFault::NoMemory),
    }
}

fn play_threads<'x, E: Engine + Drop + Send, G: Gate + Sync, R: Threads + Wait + Sync>(
    rt: &'x R,
    alloc: Global,
    lab: &'x Lab<E>,
    seats: Vec<Seat>,
    lines: &'x [Line],
    gate: &'x G,
) -> Result<AllEnded, PlayFault>
    requires { All IsUnused seats.items }
    ensures ended { IfOk result (λ all. All (λ e. IsEnded (given_lines lines.now) e.seat e.fault) all.ended.items) }
    ensures idle { IfOk result (λ all. AllPlayed (given_lines lines.now) all.idle.items) }
    ensures fault { IfErr result IsStop }
{
    thread::scope(
        thread::scope_env(),
        rt,
        move |scope| -> Result<AllEnded, PlayFault>
            requires { All IsUnused seats.items }
            ensures ended { IfOk result (λ all. All (λ e. IsEnded (given_lines lines.entry.now) e.seat e.fault) all.ended.items) }
            ensures idle { IfOk result (λ all. AllPlayed (given_lines lines.entry.now) all.idle.items) }
            ensures fault { IfErr result IsStop }
        { play_each(scope, rt, alloc, lab, seats, lines, gate) },
    )
}

/// The first fault of the threads.
fn first_fault(ended: &[Ended]) -> Option<LabFault>
    requires { All (λ e. IsRefusal e.fault) ended.now }
    ensures first { IfSome result (IsFirstOf ended.now) }
    ensures none { IfNone result (All (λ e. e.fault ≡ None) ended.now) }
    ensures some { IfSome result (λ fault. fault ≢ LabFault.NothingWaiting) }
    ensures full { IfSome result TellsSomeFull }
{
    for one in ended {
        if let Some(fault) = one.fault {
            return Some(fault);
        }
    }
    None
}

/// All seats, where no thread had a fault; else the fault of the least session that has one.
fn seats_of(alloc: Global, all: AllEnded) -> Result<Vec<Seat>, PlayFault>
    requires { All (λ e. IsRefusal e.fault) all.ended.items }
    ensures seats { IfOk result (λ seats. seats.items ≡ all.idle.items ++ map (λ e. e.seat) all.ended.items) }
    ensures none { OnOk result (All (λ e. e.fault ≡ None) all.ended.items) }
    ensures fault { IfErr result IsStop }
{
    let AllEnded { ended, idle } = all;
    if let Some(fault) = first_fault(&ended) {
        return Err(refused_play(fault));
    }
    let mut seats = idle;
    for one in ended {
        let Ended { seat, fault: _ } = one;
        seats.push(seat)?;
    }
    Ok(seats)
}

/// As [`play_free`], of an engine with the level and the setup of an origin.
fn play_from<O: Origin + Send, E: Engine + Drop + Send, G: Gate + Sync, R: Threads + Wait + Sync>(
    rt: &R,
    alloc: Global,
    engine: E,
    script: &Script,
    gate: &G,
) -> Result<Recording, PlayFault>
    requires fresh { E.events engine ≡ [] }
    requires level { E.kind engine ≡ O.level }
    requires setup { E.opening engine ≡ O.setup }
    ensures sound { IfOk result IsSoundRecord }
    ensures level { IfOk result (λ recording. recording.level ≡ O.level) }
    ensures setup { IfOk result (λ recording. recording.setup ≡ O.setup) }
    ensures played { IfOk result (λ recording. AllSessionsPlayed (given_lines script.now.lines) recording.log) }
    ensures fault { IfErr result (IsFreeFault O.level O.setup (given_lines script.now.lines)) }
{
    let engine: Kept<E, O> = Kept::new(engine);
    let (lab, seats) = Lab::start(alloc, engine, 9)?;
    let all = match play_threads(rt, alloc, &lab, seats, script.lines.as_slice(), gate) {
        Ok(all) => all,
        Err(fault) => return Err(fault),
    };
    let seats = match seats_of(alloc, all) {
        Ok(seats) => seats,
        Err(fault) => return Err(fault),
    };
    match lab.close(alloc, seats) {
        Ok(recording) => Ok(recording),
        Err(refused) => Err(unclosed(refused.2)),
    }
}

/// Plays a script with one thread for each session that has lines. Each thread submits the lines of its session in
/// order, calls `before` and `after` of `gate` around each, and then aborts a transaction that is still active. Waits
/// until all threads have ended. The engine must be fresh; it is consumed.
///
/// A thread whose call fails submits no further line. It resumes a command that still waits once, submits one abort and
/// ends. From then on no thread waits for another: a thread whose command can't be retried at once ends in the same
/// way, so a play ends whichever allocations fail. The play then fails with the fault of the least session that has
/// one: `NoMemory`, or `Full` if the log has 100,000 events.
///
/// Otherwise the lab is closed with all nine seats. Fails with `OverLimit` if the recording would exceed a limit, with
/// `Close` if seats and log differ, and with `NoThread` if a thread couldn't be started; threads that were started end
/// first.
pub fn play_free<E: Engine + Drop + Send, G: Gate + Sync, R: Threads + Wait + Sync>(
    rt: &R,
    alloc: Global,
    engine: E,
    script: &Script,
    gate: &G,
) -> Result<Recording, PlayFault>
    requires { E.events engine ≡ [] }
    ensures sound { IfOk result IsSoundRecord }
    ensures level { IfOk result (λ recording. recording.level ≡ E.kind engine) }
    ensures setup { IfOk result (λ recording. recording.setup ≡ E.opening engine) }
    ensures played { IfOk result (λ recording. AllSessionsPlayed (given_lines script.now.lines) recording.log) }
    ensures fault { IfErr result (IsFreeFault (E.kind engine) (E.opening engine) (given_lines script.now.lines)) }
{
    play_from::<Brand, E, G, R>(rt, alloc, engine, script, gate)
}
