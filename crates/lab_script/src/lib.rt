//! Scripts: statements of sessions over a table. Parses, prints and runs them one transaction after another.
//!
//! A [`Script`] has an initial table and its [`Lines`], each a command of a session. In a text the setup comes first,
//! and the comment of each later line names its session:
//!
//! ```text
//! setup (1, 10), (2, 20);
//! begin; -- T1
//! update test set value = value + 10 where id = 1; -- T1
//! commit; -- T1
//! ```
//!
//! A statement names its table. A row of the setup belongs to the table that is named before it, as in `stock (1, 5)`,
//! or else to `test`.
//!
//! [`parse_script`] parses such a text: the one above as a table of two rows and three lines of session 1. Each line
//! keeps its line number in the text. A text that isn't a script fails with the first faulty line and its fault, a
//! `ScriptFault` of `lab_statement`. [`print_script`] prints a script, one command on each line, so that it is parsed
//! as the same script.
//!
//! A text keeps the limits [`MAX_LINES`] and [`MAX_COMMANDS`], and those of `lab_printing` for each line and statement.
//! A script that was built in code, with `Lines::new` or `Lines::push`, may exceed them; printing then fails with a
//! `PrintFault`.
//!
//! [`run_serial`] runs the transactions of a script one after another, in the order of their begins.
//! [`print_transcript`] returns what they listed and the final table.
//!
//! Functions that allocate take an allocator, and return `NoMemory` if an allocation fails.
#![tactic(auto)]

mod command;
mod laws;
mod limits;
mod line;
mod parse;
mod print;
mod script;
mod serial;
mod setup;
mod spelling;
mod tables;
mod transcript;

pub use laws::{fault_unique, first_bytes_tell_a_script, first_faults_are_of_the_grammar};
pub use limits::{MAX_COMMANDS, MAX_LINES};
pub use parse::parse_script;
pub use print::print_script;
pub use script::{Line, Lines, Script};
pub use serial::run_serial;
pub use transcript::{Transcript, print_transcript};
