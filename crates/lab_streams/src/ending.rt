//! How runs end, and the exit statuses of the program.

ghost use Rattle.std.specs.Prelude.{◌≡◌, MatchResult};
ghost use Rattle.lab_streams.specs.Status.{ending_status, fault_status};

use std::alloc::AllocError;

/// The result of a run that wrote its whole output.
#[derive(Clone, Copy, Debug, Drop, PartialEq, Eq)]
pub enum Ending {
    /// The text is the result.
    Done,
    /// The text is the result, and a requirement isn't met.
    Unmet,
    /// The input was refused, and the text says why.
    Refused,
}

/// Why a run didn't write its output, or not all of it.
#[derive(Clone, Copy, Debug, Drop, PartialEq, Eq)]
pub enum RunFault {
    /// An allocation failed; nothing was written.
    NoMemory,
    /// A read failed, or the input didn't end within the permitted number of calls; nothing was written.
    Unread,
    /// A write failed; a part of the text may have been written.
    Unwritten,
}

impl From<AllocError> for RunFault {
    ghost use Rattle.std.specs.Prelude.{◌≡◌};
    ghost use Rattle.lab_streams.specs.declared.ending.RunFault.TheVariants.{NoMemory};

    ghost from_gives = { λ _ fault. fault ≡ NoMemory };

    fn from(_: AllocError) -> RunFault {
        RunFault::NoMemory
    }
}

/// Returns the exit status of a run:
/// - 0: done
/// - 1: done, but a requirement isn't met
/// - 2: the input was refused
/// - 3: a file couldn't be opened, or a read or a write failed
/// - 4: out of memory
pub fn status(run: Result<Ending, RunFault>) -> u8
    ensures { MatchResult run (λ ending. result ≡ ending_status ending) (λ fault. result ≡ fault_status fault) }
{
    match run {
        Ok(Ending::Done) => 0,
        Ok(Ending::Unmet) => 1,
        Ok(Ending::Refused) => 2,
        Err(RunFault::Unread | RunFault::Unwritten) => 3,
        Err(RunFault::NoMemory) => 4,
    }
}
