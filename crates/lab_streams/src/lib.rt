//! Shared parts of the subcommands: reading an input, writing a text, the end of a run, and the formats of a report.
//!
//! A subcommand that reads an input implements [`Subcommand`]; [`answer_input`] runs it on its streams. A subcommand
//! that prints something about a history implements [`Teller`]; [`tell_history`] reads its file.
//!
//! The input is read completely before the first write, and one text is written. The result is an [`Ending`] if it was
//! written, else a [`RunFault`]; [`status`] is the exit status of either. Functions that allocate return `NoMemory` if
//! an allocation fails.
#![tactic(auto)]

mod ending;
mod input;
mod laws;
mod output;
mod reporting;
mod subcommand;
mod telling;

pub use ending::{Ending, RunFault, status};
pub use input::read_input;
pub use laws::{idle_histories_are_idle, kept_histories_have_commits};
pub use output::{Answer, note_text, write_text};
pub use reporting::{
    Format, Wanted, ending_of, is_idle, print_refused, print_said, shortfall_line,
};
pub use subcommand::{Subcommand, answer_input};
pub use telling::{Teller, tell_history};
