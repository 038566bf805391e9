//! Why a history can't be written as a file.

use std::alloc::AllocError;
use thiserror::Error;

/// Why a history can't be written as a file.
#[derive(Clone, Copy, Debug, PartialEq, Eq, Error)]
pub enum WriteFault {
    /// An allocation failed.
    #[error("no memory")]
    NoMemory,
    /// The text would have more than 8,388,608 bytes.
    #[error("the text is too long")]
    TooLong,
}

impl From<AllocError> for WriteFault {
    ghost use Rattle.std.specs.Prelude.{◌≡◌};
    ghost use Rattle.lab_history_file.specs.declared.write_fault.WriteFault.TheVariants.{NoMemory};

    ghost from_gives = { λ _ fault. fault ≡ NoMemory };

    fn from(_: AllocError) -> WriteFault {
        WriteFault::NoMemory
    }
}
