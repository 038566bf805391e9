//! A bench that threads share, and the seats of its sessions.

ghost use Rattle.std.specs.Prelude.{◌≡◌, ◌≢◌, ◌≤◌, ℕ, None, Some, [], true, false, map, is_some, IsSome, IfOk, IfErr};
ghost use Rattle.lab_engine.specs.declared.event.EngineFault.TheVariants.{Busy};
ghost use Rattle.lab_engine.specs.declared.event.Outcome.TheVariants.{Refused};
ghost use Rattle.lab_engine.specs.Journal.{EngineRun};
ghost use Rattle.lab_engine.specs.Log.{past_of, active, asked as asks_for};
ghost use Rattle.lab_engine.specs.Recording.{numbers_from};
ghost use Rattle.lab_engine.specs.RecordedLog.{IsSoundRecord};
ghost use Rattle.lab_session.specs.Bench.{IsRunOf, IsSoundRun};
ghost use Rattle.lab_session.specs.Seats.{new_seat, last_outcome, IsLogged, GrowsBy};
ghost use Rattle.lab_session.specs.Closing.{AreClosed, IsLabCloseFault};
ghost use Rattle.lab_session.specs.Waiting.{still_waits, handed_back, IsTold, IsToldOfHeld};
ghost use Rattle.lab_session.specs.Turns.{holding, IsSteppedIn, IsRetriedIn, IsAnswered, IsGoneOn};

use crate::bench::Bench;
use crate::fault::{CloseFault, LabFault};
use crate::seat::Seat;
use crate::turn::{Progress, ended, gone_on, retried, stepped};
use lab_engine::{Engine, Recording};
use lab_table::{Command, NoMemory, Session};
use std::alloc::Global;
use std::marker::Model;
use std::sync::{Condvar, Mutex, MutexGuard, Wait};

/// What a lab's lock holds.
#[derive(Drop)]
struct Shared<E: Engine> {
    bench: Bench<E>,
    /// Set where a play is given up: a session that waits ends then.
    given_up: bool,
}

/// A bench under a lock, and the number of sessions that have seats. In contracts it is that number, at most 9.
#[derive(Drop)]
pub struct Lab<E: Engine> {
    shared: Mutex<Shared<E>>,
    changed: Condvar,
    sessions: u8,
}

impl<E: Engine> Model for Lab<E> {
    ghost use Rattle.std.specs.Prelude.{ℕ, ◌≤◌};
    ghost use Rattle.std.specs.Coded.{coded_ℕ};

    ghost Value = { ℕ };

    ghost coded = { coded_ℕ };

    ghost view = { λ l. l.sessions };

    ghost invariant = { λ l. l.sessions ≤ 9 };
}

/// Whether the command that was refused still waits.
pub(crate) fn waits_on(fault: LabFault) -> bool
    ensures { result ≡ still_waits fault }
{
    match fault {
        LabFault::NoMemory { waiting } => waiting,
        LabFault::Full { waiting } => waiting,
        LabFault::NothingWaiting => false,
    }
}

fn new_seats(alloc: Global, sessions: u8) -> Result<Vec<Seat>, NoMemory>
    requires { sessions ≤ 9 }
    ensures { IfOk result (λ seats. seats.items ≡ map new_seat (numbers_from 1 sessions)) }
{
    let mut seats = Vec::with_capacity(alloc, usize::from(sessions))?;
    for session in Session::ALL {
        if session.number() > sessions {
            return Ok(seats);
        }
        seats.push(Seat::new(alloc, session))?;
    }
    Ok(seats)
}

impl<E: Engine + Drop> Lab<E> {
    /// Returns a lab of a fresh engine, and a new seat for each session from 1 to `sessions`, which is from 1 to 9. On
    /// failure, the engine is dropped.
    pub fn start(alloc: Global, engine: E, sessions: u8) -> Result<(Lab<E>, Vec<Seat>), NoMemory>
        requires fresh { E.events engine ≡ [] }
        requires some { 1 ≤ sessions }
        requires most { sessions ≤ 9 }
        ensures lab { IfOk result (λ started. started.0 ≡ sessions) }
        ensures seats { IfOk result (λ started. started.1.items ≡ map new_seat (numbers_from 1 sessions)) }
    {
        let seats = new_seats(alloc, sessions)?;
        let shared = Shared {
            bench: Bench::new(engine),
            given_up: false,
        };
        let lab = Lab {
            shared: Mutex::new(shared),
            changed: Condvar::new(),
            sessions,
        };
        Ok((lab, seats))
    }

    /// Waits until the command that a seat holds may be retried, and is answered. Where the play is given up before,
    /// the command waits on, and the seat is handed back. That it waits on is looked at: another seat of the session, of
    /// another lab, might have been given the answer.
    fn waited<R: Wait>(
        &self,
        rt: &R,
        alloc: Global,
        shared: MutexGuard<'_, Shared<E>>,
        seat: Seat,
    ) -> Result<Seat, (Seat, LabFault)>
        requires { IsSome seat.holds }
        ensures retried { IfOk result (IsRetriedIn (IsRunOf E.kind E.opening E.events) seat) }
        ensures holds { IfOk result (λ s. s.holds ≡ None) }
        ensures apart { IfOk result (λ s. last_outcome s.calls ≢ Some (Refused Busy)) }
        ensures seat { IfErr result (λ e. e.0 ≡ seat) }
        ensures waiting { IfErr result (λ e. still_waits e.1 ≡ true) }
        ensures told { IfErr result (λ e. IsTold (IsRunOf E.kind E.opening E.events) seat.session e.1) }
    {
        let mut shared = shared;
        let mut seat = seat;
        for _ in rt.forever() {
            match retried(&mut shared.bench, alloc, &mut seat) {
                Ok(Some(change)) => {
                    change.wake(&self.changed);
                    return Ok(seat);
                }
                Ok(None) => {
                    if shared.given_up && shared.bench.is_waiting(seat.session) {
                        return Err((seat, ended(&shared.bench)));
                    }
                }
                Err(fault) => return Err((seat, fault)),
            }
            shared = self.changed.wait(rt, shared);
        }
        unreachable!()
    }

    /// Runs a command of the seat's session, and waits until it completes. The calls of the seat then end with the
    /// command and its receipt, which is that of an event of the session. If the outcome is `Busy`, or the command runs
    /// no statement, the seat holds what it held.
    ///
    /// Fails with `NoMemory`, or with `Full` if the log has 100,000 events, and returns the seat with its old calls. If
    /// the fault has `waiting`, the command waits in the lab, and the seat holds it instead of an earlier one.
    /// Otherwise the command is dropped, and the seat holds what it held.
    pub fn submit<R: Wait>(
        &self,
        rt: &R,
        alloc: Global,
        seat: Seat,
        command: Command,
    ) -> Result<Seat, (Seat, LabFault)>
        ensures answered { IfOk result (λ s. (r : _) × GrowsBy seat s command r × IsLogged (IsRunOf E.kind E.opening E.events) seat.session r) }
        ensures turns { IfOk result (λ s. (old : _) × IsAnswered (IsRunOf E.kind E.opening E.events) old seat s command) }
        ensures busy { IfOk result (λ s. last_outcome s.calls ≡ Some (Refused Busy) → s.holds ≡ seat.holds) }
        ensures at_once { IfOk result (λ s. asks_for command ≡ None → s.holds ≡ seat.holds) }
        ensures seat { IfErr result (λ e. e.0 ≡ handed_back seat command e.1) }
        ensures told { IfErr result (λ e. IsTold (IsRunOf E.kind E.opening E.events) seat.session e.1) }
        ensures waits { IfErr result (λ e. still_waits e.1 ≡ true → (old : _) × IsSteppedIn (IsRunOf E.kind E.opening E.events) old seat (holding seat command) command false) }
        ensures fault { IfErr result (λ e. e.1 ≢ LabFault.NothingWaiting) }
    {
        let mut seat = seat;
        let mut shared = self.shared.lock(rt);
        match stepped(&mut shared.bench, alloc, &mut seat, command) {
            Ok(progress) => {
                let Progress { answered, change } = progress;
                change.wake(&self.changed);
                if answered {
                    return Ok(seat);
                }
                self.waited(rt, alloc, shared, seat)
            }
            Err(refused) => Err((seat, refused.1)),
        }
    }

    /// Continues the command that the seat holds, and waits until it completes. If its session isn't waiting in the
    /// lab, the command is run as by `submit`. The calls of the seat then end with the command and its receipt, and the
    /// seat holds no command.
    ///
    /// Fails with `NothingWaiting` only if the seat holds no command, otherwise with `NoMemory`, or with `Full` if the
    /// log has 100,000 events. On failure, the seat is returned unchanged.
    pub fn resume<R: Wait>(
        &self,
        rt: &R,
        alloc: Global,
        seat: Seat,
    ) -> Result<Seat, (Seat, LabFault)>
        ensures answered { IfOk result (λ s. (command : _) × (r : _) × (seat.holds ≡ Some command) × GrowsBy seat s command r × IsLogged (IsRunOf E.kind E.opening E.events) seat.session r) }
        ensures turns { IfOk result (IsGoneOn (IsRunOf E.kind E.opening E.events) seat) }
        ensures holds { IfOk result (λ s. s.holds ≡ None) }
        ensures seat { IfErr result (λ e. e.0 ≡ seat) }
        ensures nothing { IfErr result (λ e. e.1 ≡ LabFault.NothingWaiting → seat.holds ≡ None) }
        ensures told { IfErr result (λ e. e.1 ≢ LabFault.NothingWaiting → IsToldOfHeld (IsRunOf E.kind E.opening E.events) seat.session e.1) }
    {
        if seat.holds.is_none() {
            return Err((seat, LabFault::NothingWaiting));
        }
        let mut seat = seat;
        let mut shared = self.shared.lock(rt);
        if shared.bench.is_waiting(seat.session) {
            return self.waited(rt, alloc, shared, seat);
        }
        match gone_on(&mut shared.bench, alloc, &mut seat) {
            Ok(progress) => {
                let Progress { answered, change } = progress;
                change.wake(&self.changed);
                if answered {
                    return Ok(seat);
                }
                self.waited(rt, alloc, shared, seat)
            }
            Err(fault) => Err((seat, fault)),
        }
    }

    /// Gives a play up: from now on no session waits for another. A refused session that keeps its transaction would
    /// let them wait for ever. The flag is set under the lock, so that none falls asleep between its look and the call.
    pub(crate) fn give_up<R: Wait>(&self, rt: &R) {
        let mut shared = self.shared.lock(rt);
        shared.given_up = true;
        self.changed.notify_all();
        drop(shared);
    }

    /// Whether a session has an active transaction.
    pub(crate) fn is_active<R: Wait>(&self, rt: &R, session: Session) -> bool
        ensures { (run : EngineRun) × IsSoundRun run × (result ≡ is_some (active (past_of run.log) session)) }
    {
        self.shared.lock(rt).bench.is_active(session)
    }

    /// Consumes the lab, and returns the recording of its bench, as `Bench::close` does with the lab's sessions and
    /// these seats. Waits for nobody. On failure, returns the lab and the seats with the fault.
    pub fn close(
        self,
        alloc: Global,
        seats: Vec<Seat>,
    ) -> Result<Recording, (Lab<E>, Vec<Seat>, CloseFault)>
        ensures closed { IfOk result (λ recording. AreClosed self recording.log seats.items) }
        ensures sound { IfOk result IsSoundRecord }
        ensures level { IfOk result (λ recording. (engine : _) × (recording.level ≡ E.kind engine)) }
        ensures setup { IfOk result (λ recording. (engine : _) × (recording.setup ≡ E.opening engine)) }
        ensures lab { IfErr result (λ e. e.0 ≡ self) }
        ensures seats { IfErr result (λ e. e.1 ≡ seats) }
        ensures fault { IfErr result (λ e. (engine : _) × IsLabCloseFault (E.kind engine) (E.opening engine) self seats.items e.2) }
    {
        let Lab {
            shared,
            changed,
            sessions,
        } = self;
        let Shared { bench, given_up } = shared.into_inner();
        match bench.close(alloc, sessions, &seats) {
            Ok(recording) => Ok(recording),
            Err(fault) => {
                let lab = Lab {
                    shared: Mutex::new(Shared { bench, given_up }),
                    changed,
                    sessions,
                };
                Err((lab, seats, fault))
            }
        }
    }
}
