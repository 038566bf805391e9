//! The subcommands of the program that read nothing: [`case`] writes the script of a case, [`matrix`] plays and judges
//! each case on each engine, and [`matrix_at`] on the engines of given levels.
//!
//! Each writes one text. If it was written, the result is an `Ending`, otherwise a `RunFault` other than `Unread`. The
//! matrix has one text, by the contracts of [`matrix_answer_unique`] and [`columns_answer_unique`]. Functions that
//! allocate return `NoMemory` if an allocation fails.
#![tactic(auto)]

mod laws;
mod listing;
mod tabulating;
mod tabulating_at;

pub use laws::{columns_answer_unique, matrix_answer_unique};
pub use listing::case;
pub use tabulating::matrix;
pub use tabulating_at::matrix_at;
