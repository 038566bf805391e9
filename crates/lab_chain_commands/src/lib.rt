//! The subcommand `chain`: the summary of a run that was recorded in parts.
//!
//! [`chain`] reads and judges the files of the parts, as many at a time as there are processors, and writes the summary
//! of the whole run. [`join`] makes it from summaries that `chain` wrote for consecutive pieces. Functions that
//! allocate return `NoMemory` if an allocation fails.
#![tactic(auto)]

mod answer_hint;
mod asked;
mod chaining;
mod joining;
mod judged_part;
mod part_text;
mod piece;
mod shortfalls;
mod window;

pub use asked::Asked;
pub use chaining::chain;
pub use joining::join;
