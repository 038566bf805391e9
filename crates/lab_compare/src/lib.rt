//! Comparison of the engines on one script.
//!
//! [`compare`] is the subcommand of the program: it reads a script, plays it on the engines of given levels, and writes
//! the outcome of each line, once if all engines agree; the committed rows if they differ; the level of each history;
//! and what `explain` says about its lowest phenomenon.
//!
//! `comparison_text` defines the text of recordings and their reports. Each input has one text, by
//! [`compare_answer_unique`]. The text groups engines that had the same outcomes, by [`alike_is_same`]. Functions that
//! allocate return `NoMemory` if an allocation fails.
#![tactic(auto)]

mod alike;
mod behind;
mod cells;
mod commits;
mod comparing;
mod comparison;
mod laws;
mod playing;
mod shared;
mod side;
mod telling;
mod told;

pub use comparing::compare;
pub use laws::{alike_is_same, compare_answer_unique};
