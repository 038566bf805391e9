//! The subcommands of the program that play scripts and judge histories.
//!
//! [`serial`], [`run`], [`run_free`] and [`judge`] read from a reader, and [`batch`] reads files by their names. The
//! input is read completely before the first write, and one text is written. If it was written, the result is an
//! `Ending`, or the greatest exit status of a batch; otherwise it is a `RunFault`. [`serial`], [`run`] and [`judge`]
//! have one output for each input, by the contracts of [`serial_answer_unique`], [`run_answer_unique`] and
//! [`judge_answer_unique`]. Functions that allocate return `NoMemory` if an allocation fails.
#![tactic(auto)]

mod batching;
mod excess;
mod files;
mod free;
mod judged_files;
mod judging;
mod laws;
mod listed;
mod overwriting;
mod play_note;
mod player;
mod progress;
mod recording_answer;
mod refusals;
mod remarked_log;
mod rows_text;
mod running;
mod scripted;
mod shown;
mod standing;
mod transcribing;

pub use batching::batch;
pub use files::{Inputs, note_files, read_files};
pub use judged_files::{BatchAnswer, batch_answer};
pub use judging::judge;
pub use laws::{judge_answer_unique, run_answer_unique, serial_answer_unique};
pub use listed::listed_names;
pub use overwriting::put_state;
pub use play_note::note_play;
pub use player::Player;
pub use progress::Progress;
pub use refusals::{print_play_refusal, print_script_refusal};
pub use rows_text::put_rows;
pub use running::{run, run_free};
pub use scripted::Scripted;
pub use shown::Shown;
pub use standing::{Standing, is_over, number_after};
pub use transcribing::serial;
