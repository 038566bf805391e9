//! Summaries of runs that were recorded in parts.
//!
//! A [`Summary`] has the number of parts of a run, a [`Line`] for each verdict and phenomenon, the [`Level`], and the
//! rows at its [`Ends`]. [`part_summary`] makes the summary of one part from its [`Outcome`]. `joined` joins the
//! summaries of consecutive pieces of a run; if two don't fit, their seam gets a line. [`print_summary`] prints a
//! summary, and [`print_summary_json`] prints it as JSON, which [`read_summary`] reads back, so that pieces can be
//! judged separately and joined later.
//!
//! Theorems, stated as contracts of empty functions: the order of joining makes no difference; a yes is one of the
//! history that the parts form together (`whole` of `lab_parts`); and if the parts are sound and fit, each line about
//! cycles and the level are true of that history. The level, the lines and the ends of each summary agree
//! ([`is_coherent`]), and a line in which they don't isn't read back. Functions that allocate return `NoMemory` if an allocation fails.
#![tactic(auto)]

mod coherence;
mod laws;
mod level;
mod line;
mod part;
mod requiring;
mod seam;
mod shown;
mod summary;
mod summary_json;
mod summary_reading;
mod summary_text;

pub use coherence::is_coherent;
pub use laws::{
    differences_are_least, joining_is_associative, joining_keeps_coherence, kept_runs_have_commits,
    pieces_make_the_run, runs_are_coherent, sound_runs_are_told, yes_is_a_serial_run,
    yes_is_a_snapshot_run,
};
pub use level::Level;
pub use line::{Line, Text};
pub use part::{Outcome, part_summary};
pub use requiring::{is_met, put_chain_shortfall};
pub use seam::{Seam, first_difference, row_between};
pub use shown::put_name;
pub use summary::{Ends, Lines, Summary};
pub use summary_json::print_summary_json;
pub use summary_reading::{has_more_summaries, read_summary};
pub use summary_text::print_summary;
