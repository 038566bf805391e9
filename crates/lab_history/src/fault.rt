//! Why a file or parts are no history.

use crate::path::Path;
use lab_table::TxnNo;
use std::alloc::{AllocError, AllocFailed};
use thiserror::Error;

/// The limits of histories and of their files.
#[derive(Clone, Copy, Debug, PartialEq, Eq)]
pub enum Limit {
    /// A file has at most 8,388,608 bytes.
    Bytes,
    /// At most 1,000 transactions.
    Transactions,
    /// At most 10,000 operations of all transactions together.
    Operations,
    /// At most 4 different tables in all lists and statements together.
    Tables,
    /// At most 1,000 different rows in all lists together.
    Ids,
    /// At most 200,000 entries of views, rows and writes together.
    Entries,
    /// A statement is printed in at most 1,000 bytes, at most 16 deep. A file has no such statement; a recording may.
    Statement,
}

impl Limit {
    ghost use Rattle.std.specs.Prelude.{◌≡◌};
    ghost use Rattle.lab_history.specs.LimitName.{limit_name};

    /// Returns the name of the limit, as printed faults spell it.
    pub fn name(self) -> &'static str
        ensures { result.now ≡ limit_name self }
    {
        match self {
            Limit::Bytes => "bytes",
            Limit::Transactions => "transactions",
            Limit::Operations => "operations",
            Limit::Tables => "tables",
            Limit::Ids => "ids",
            Limit::Entries => "entries",
            Limit::Statement => "statement",
        }
    }
}

/// Why a file or parts are no history.
#[derive(Clone, Copy, Debug, PartialEq, Eq, Error)]
pub enum FileFault {
    /// An allocation failed.
    #[error("no memory")]
    NoMemory,
    /// The bytes are no JSON text.
    #[error("the file is no JSON text")]
    NotJson,
    /// A value isn't of the format: the innermost one, or the object if a key is missing or extra.
    #[error("a value is not of the format")]
    WrongFormat { path: Path },
    /// The file's version is neither 1 nor 2.
    #[error("version {number} of the format is not known")]
    WrongVersion { number: u64 },
    /// An earlier transaction has the same number.
    #[error("a transaction's number comes twice")]
    RepeatedTxn { no: TxnNo },
    /// The statement of an operation can't be parsed or printed. Operations are counted from 1 within their
    /// transaction.
    #[error("a statement is not read")]
    BadStatement { txn: TxnNo, op: u32 },
    /// The rows of a list don't ascend strictly.
    #[error("the rows of a list do not rise")]
    Unsorted { path: Path },
    /// A limit is exceeded.
    #[error("there is too much of something")]
    OverLimit { which: Limit },
}

impl From<AllocError> for FileFault {
    ghost use Rattle.std.specs.Prelude.{◌≡◌};
    ghost use Rattle.lab_history.specs.declared.fault.FileFault.TheVariants.{NoMemory};

    ghost from_gives = { λ _ fault. fault ≡ NoMemory };

    fn from(_: AllocError) -> FileFault {
        FileFault::NoMemory
    }
}

impl<T: Drop> From<AllocFailed<T>> for FileFault {
    ghost use Rattle.std.specs.Prelude.{◌≡◌};
    ghost use Rattle.lab_history.specs.declared.fault.FileFault.TheVariants.{NoMemory};

    ghost from_gives = { λ _ fault. fault ≡ NoMemory };

    fn from(_: AllocFailed<T>) -> FileFault {
        FileFault::NoMemory
    }
}
