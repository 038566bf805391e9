//! The subcommand `shrink`: writes a smaller history that shows the same anomaly.
//!
//! [`shrink`] reads a history file, and writes the file of a part of its history that shows what the judgement of the
//! whole shows: that it isn't serializable, the kind of its fault, or what is asked for, a phenomenon or that it isn't a
//! snapshot run. If it shows none of these, or nothing can be removed, `shrink` writes the input unchanged, and a line on
//! standard error says so. Functions that allocate return `NoMemory` if an allocation fails.
#![tactic(auto)]

mod progress;
mod remark;
mod shrinking;

pub use progress::Progress;
pub use shrinking::shrink;
