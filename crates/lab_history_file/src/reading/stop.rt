//! Why the one-pass reader stops before the end of a file.

use std::alloc::{AllocError, AllocFailed};

/// Why the one-pass reader stopped.
#[derive(Clone, Copy)]
pub enum Stop {
    /// An allocation failed.
    NoMemory,
    /// The file isn't a history without faults. The value of the file says what its first fault is.
    Fault,
}

impl From<AllocError> for Stop {
    ghost use Rattle.std.specs.Prelude.{◌≡◌};
    ghost use Rattle.lab_history_file.specs.declared.reading.stop.Stop.TheVariants.{NoMemory};

    ghost from_gives = { λ _ stop. stop ≡ NoMemory };

    fn from(_: AllocError) -> Stop {
        Stop::NoMemory
    }
}

impl<T: Drop> From<AllocFailed<T>> for Stop {
    ghost use Rattle.std.specs.Prelude.{◌≡◌};
    ghost use Rattle.lab_history_file.specs.declared.reading.stop.Stop.TheVariants.{NoMemory};

    ghost from_gives = { λ _ stop. stop ≡ NoMemory };

    fn from(_: AllocFailed<T>) -> Stop {
        Stop::NoMemory
    }
}
