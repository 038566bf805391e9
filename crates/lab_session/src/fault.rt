//! Why a run can't be closed, and why a play has no recording.

ghost use Rattle.std.specs.Prelude.{◌≡◌, ◌≢◌};
ghost use Rattle.lab_session.specs.Closing.{close_fault_of};
ghost use Rattle.lab_session.specs.Play.{unclosed_fault, stopped_fault, refused_fault};

use crate::bench::BenchFault;
use lab_engine::RecordFault;
use lab_history::Limit;
use lab_table::Session;
use std::alloc::{AllocError, AllocFailed};

/// Why a run can't be closed. Nothing has changed then.
#[derive(Clone, Copy, Debug, PartialEq, Eq)]
pub enum CloseFault {
    /// An allocation failed.
    NoMemory,
    /// A session has no seat.
    SeatMissing { session: Session },
    /// The calls of a session's seat aren't its calls in the log. `place` is the first position, counted from 1, at
    /// which they differ or one list has ended.
    ReceiptDiffers { session: Session, place: usize },
    /// The recording would exceed a limit.
    OverLimit { which: Limit },
    /// A session has two seats.
    SeatRepeated { session: Session },
}

/// Why a call of a lab failed. If `waiting` is true, the command still waits, and the seat holds it.
#[derive(Clone, Copy, Debug, PartialEq, Eq)]
pub enum LabFault {
    /// An allocation failed.
    NoMemory { waiting: bool },
    /// The log has 100,000 events.
    Full { waiting: bool },
    /// The seat holds no command.
    NothingWaiting,
}

/// Why a play has no recording.
#[derive(Clone, Copy, Debug, PartialEq, Eq)]
pub enum PlayFault {
    /// An allocation failed.
    NoMemory,
    /// The recording would exceed a limit.
    OverLimit { which: Limit },
    /// The run couldn't be closed.
    Close { fault: CloseFault },
    /// A thread couldn't be started.
    NoThread,
    /// The log has 100,000 events.
    Full,
}

impl From<AllocError> for PlayFault {
    ghost use Rattle.std.specs.Prelude.{◌≡◌};
    ghost use Rattle.lab_session.specs.declared.fault.PlayFault.TheVariants.{NoMemory};

    ghost from_gives = { λ _ fault. fault ≡ NoMemory };

    fn from(_: AllocError) -> PlayFault {
        PlayFault::NoMemory
    }
}

impl<T: Drop> From<AllocFailed<T>> for PlayFault {
    ghost use Rattle.std.specs.Prelude.{◌≡◌};
    ghost use Rattle.lab_session.specs.declared.fault.PlayFault.TheVariants.{NoMemory};

    ghost from_gives = { λ _ fault. fault ≡ NoMemory };

    fn from(_: AllocFailed<T>) -> PlayFault {
        PlayFault::NoMemory
    }
}

/// Why a run isn't closed, where the log has no recording.
pub(crate) fn unrecorded(fault: RecordFault) -> CloseFault
    ensures { result ≡ close_fault_of fault }
{
    match fault {
        RecordFault::NoMemory => CloseFault::NoMemory,
        RecordFault::OverLimit { which } => CloseFault::OverLimit { which },
    }
}

/// Why a play has no recording, where its run isn't closed.
pub(crate) fn unclosed(fault: CloseFault) -> PlayFault
    ensures { result ≡ unclosed_fault fault }
{
    match fault {
        CloseFault::NoMemory => PlayFault::NoMemory,
        CloseFault::OverLimit { which } => PlayFault::OverLimit { which },
        CloseFault::SeatMissing { .. }
        | CloseFault::ReceiptDiffers { .. }
        | CloseFault::SeatRepeated { .. } => PlayFault::Close { fault },
    }
}

/// Why a play has no recording, where its bench refused.
pub(crate) fn stopped(fault: BenchFault) -> PlayFault
    ensures { result ≡ stopped_fault fault }
{
    match fault {
        BenchFault::NoMemory => PlayFault::NoMemory,
        BenchFault::Full => PlayFault::Full,
    }
}

/// Why a free play has no recording, where a call of a thread was refused.
pub(crate) fn refused_play(fault: LabFault) -> PlayFault
    requires { fault ≢ LabFault.NothingWaiting }
    ensures { result ≡ refused_fault fault }
{
    match fault {
        LabFault::NoMemory { .. } => PlayFault::NoMemory,
        LabFault::Full { .. } => PlayFault::Full,
        LabFault::NothingWaiting => unreachable!(),
    }
}
