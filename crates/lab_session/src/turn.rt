//! What is done under the lock of a lab: each function here is lent the bench for one turn.

ghost use Rattle.std.specs.Prelude.{◌≡◌, ◌≢◌, ◌<◌, ◌≤◌, ◌+◌, None, Some, true, false, length, IsSome, IsOk, IfOk, IfErr, OnOk, OnErr, IfSome, IfNone};
ghost use Rattle.std.specs.Vec.{vec_capacity};
ghost use Rattle.lab_engine.specs.Limits.{max_events};
ghost use Rattle.lab_engine.specs.Engine.{Ends};
ghost use Rattle.lab_engine.specs.declared.event.EngineFault.TheVariants.{Busy};
ghost use Rattle.lab_engine.specs.declared.event.Outcome.TheVariants.{Refused};
ghost use Rattle.lab_engine.specs.Log.{past_of, waiting, asked as asks_for};
ghost use Rattle.lab_engine.specs.Recording.{IsLeastRetryable};
ghost use Rattle.lab_session.specs.Bench.{IsRunOf, IsFull};
ghost use Rattle.lab_session.specs.Waiting.{still_waits, lab_fault_of, TellsFull};
ghost use Rattle.lab_session.specs.Seats.{last_outcome, IsOpen};
ghost use Rattle.lab_session.specs.Turns.{resting, IsStepped, IsRetried};

use crate::bench::{Bench, BenchFault};
use crate::change::Change;
use crate::fault::LabFault;
use crate::seat::{Call, Seat, is_answered};
use lab_engine::Engine;
use lab_table::{Command, NoMemory};
use std::alloc::Global;

/// What came of a command that was stepped.
pub(crate) struct Progress {
    /// Whether it was answered. Else it waits, and the seat holds it.
    pub(crate) answered: bool,
    pub(crate) change: Change,
}

fn lab_fault(fault: BenchFault, waiting: bool) -> LabFault
    ensures { result ≡ lab_fault_of fault waiting }
{
    match fault {
        BenchFault::NoMemory => LabFault::NoMemory { waiting },
        BenchFault::Full => LabFault::Full { waiting },
    }
}

/// Makes room for a call that is answered, and for one behind it where this one doesn't end its session's transaction.
/// So the call that ends one needs no memory.
fn reserve_call(calls: &mut Vec<Call>, ends: bool) -> Result<(), NoMemory>
    ensures calls { calls.new.items ≡ calls.old.items }
    ensures capacity { vec_capacity calls.old ≤ vec_capacity calls.new }
    ensures place { OnOk result (length calls.new.items < vec_capacity calls.new) }
    ensures behind { OnOk result (ends ≡ false → length calls.new.items + 1 < vec_capacity calls.new) }
    ensures end { ends ≡ true → length calls.old.items < vec_capacity calls.old → IsOk result }
{
    calls.try_reserve(if ends { 1 } else { 2 })
}

/// Steps a command of a seat's session. Answered, it stands in the seat's list with its receipt; else it waits, and the
/// seat holds it. Refused, it isn't waiting, and is handed back; nothing has changed then.
pub(crate) fn stepped<E: Engine>(
    bench: &mut Bench<E>,
    alloc: Global,
    seat: &mut Seat,
    command: Command,
) -> Result<Progress, (Command, LabFault)>
    ensures stepped { IfOk result (λ progress. IsStepped bench.old bench.new seat.old seat.new command progress.answered) }
    ensures before { IsRunOf E.kind E.opening E.events bench.old }
    ensures behind { OnOk result (IsRunOf E.kind E.opening E.events bench.new) }
    ensures waits { IfOk result (λ progress. progress.answered ≡ false → IsSome (waiting (past_of bench.new.log) seat.old.session)) }
    ensures asks { IfOk result (λ progress. progress.answered ≡ false → asks_for command ≢ None) }
    ensures level { bench.new.level ≡ bench.old.level }
    ensures setup { bench.new.setup ≡ bench.old.setup }
    ensures log { OnErr result (bench.new.log ≡ bench.old.log) }
    ensures seat { OnErr result (seat.new ≡ seat.old) }
    ensures command { IfErr result (λ e. e.0 ≡ command) }
    ensures waiting { IfErr result (λ e. still_waits e.1 ≡ false) }
    ensures fault { IfErr result (λ e. e.1 ≢ LabFault.NothingWaiting) }
    ensures full { IfErr result (λ e. TellsFull bench.old e.1) }
    ensures end { length bench.old.log < max_events → Ends (past_of bench.old.log) seat.old.session command → IsOpen seat.old.calls → IsOk result }
{
    let ends = bench.ends(seat.session, &command);
    if reserve_call(&mut seat.calls, ends).is_err() {
        return Err((command, LabFault::NoMemory { waiting: false }));
    }
    let receipt = match bench.step(alloc, seat.session, &command) {
        Ok(receipt) => receipt,
        Err(fault) => return Err((command, lab_fault(fault, false))),
    };
    let change = Change::new();
    if !is_answered(&receipt.outcome) {
        seat.holds = Some(command);
        return Ok(Progress {
            answered: false,
            change,
        });
    }
    seat.calls.push_reserved(Call { command, receipt });
    Ok(Progress {
        answered: true,
        change,
    })
}

/// Steps the command that a seat holds, as [`stepped`] does; answered, the seat holds none. Refused, it isn't waiting, and
/// nothing has changed.
pub(crate) fn gone_on<E: Engine>(
    bench: &mut Bench<E>,
    alloc: Global,
    seat: &mut Seat,
) -> Result<Progress, LabFault>
    requires { IsSome seat.old.holds }
    ensures stepped { IfOk result (λ progress. (command : _) × (seat.old.holds ≡ Some command)
        × IsStepped bench.old bench.new (resting seat.old) seat.new command progress.answered) }
    ensures before { IsRunOf E.kind E.opening E.events bench.old }
    ensures behind { OnOk result (IsRunOf E.kind E.opening E.events bench.new) }
    ensures level { bench.new.level ≡ bench.old.level }
    ensures setup { bench.new.setup ≡ bench.old.setup }
    ensures log { OnErr result (bench.new.log ≡ bench.old.log) }
    ensures seat { OnErr result (seat.new ≡ seat.old) }
    ensures waiting { IfErr result (λ e. still_waits e ≡ false) }
    ensures fault { IfErr result (λ e. e ≢ LabFault.NothingWaiting) }
    ensures full { IfErr result (TellsFull bench.old) }
{
    let Some(command) = seat.holds.take() else {
        unreachable!()
    };
    match stepped(bench, alloc, seat, command) {
        Ok(progress) => Ok(progress),
        Err(refused) => {
            let (command, fault) = refused;
            seat.holds = Some(command);
            Err(fault)
        }
    }
}

/// Retries the command of a seat's session where it is the one to be retried. It is answered then: the command that the
/// seat held stands in its list with the receipt, and the seat holds none. None where another is to be retried or
/// nobody, and then nothing is done. Refused, the command waits on, and nothing has changed.
pub(crate) fn retried<E: Engine>(
    bench: &mut Bench<E>,
    alloc: Global,
    seat: &mut Seat,
) -> Result<Option<Change>, LabFault>
    requires { IsSome seat.old.holds }
    ensures retried { IfOk result (λ done. IfSome done (λ change. IsRetried bench.old bench.new seat.old seat.new)) }
    ensures before { IsRunOf E.kind E.opening E.events bench.old }
    ensures behind { OnOk result (IsRunOf E.kind E.opening E.events bench.new) }
    ensures apart { IfOk result (λ done. IfSome done (λ change. last_outcome seat.new.calls ≢ Some (Refused Busy))) }
    ensures not_due { IfOk result (λ done. IfNone done (¬ IsLeastRetryable bench.old.level bench.old.setup (past_of bench.old.log) seat.old.session)) }
    ensures same_log { IfOk result (λ done. IfNone done (bench.new.log ≡ bench.old.log)) }
    ensures same_seat { IfOk result (λ done. IfNone done (seat.new ≡ seat.old)) }
    ensures level { bench.new.level ≡ bench.old.level }
    ensures setup { bench.new.setup ≡ bench.old.setup }
    ensures log { OnErr result (bench.new.log ≡ bench.old.log) }
    ensures seat { OnErr result (seat.new ≡ seat.old) }
    ensures waiting { IfErr result (λ e. still_waits e ≡ true) }
    ensures waits { OnErr result (IsSome (waiting (past_of bench.old.log) seat.old.session)) }
    ensures full { IfErr result (TellsFull bench.old) }
{
    if bench.retryable() != Some(seat.session) {
        return Ok(None);
    }
    if reserve_call(&mut seat.calls, false).is_err() {
        return Err(LabFault::NoMemory { waiting: true });
    }
    let receipt = match bench.retry(alloc, seat.session) {
        Ok(receipt) => receipt,
        Err(fault) => return Err(lab_fault(fault, true)),
    };
    let change = Change::new();
    let Some(command) = seat.holds.take() else {
        unreachable!()
    };
    seat.calls.push_reserved(Call { command, receipt });
    Ok(Some(change))
}

/// What a session whose command waits is told where a play is given up: that the log is full, or that memory was wanted.
pub(crate) fn ended<E: Engine>(bench: &Bench<E>) -> LabFault
    ensures waiting { still_waits result ≡ true }
    ensures full { TellsFull bench.now result }
    ensures room { result ≡ LabFault.NoMemory true → ¬ IsFull bench.now }
{
    if bench.is_full() {
        LabFault::Full { waiting: true }
    } else {
        LabFault::NoMemory { waiting: true }
    }
}
