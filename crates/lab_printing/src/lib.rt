//! The printed form of statements, commands and rows, and the sinks that take it.
//!
//! ```text
//! update test set value = value + 10 where id = 1
//! ```
//!
//! Each value has one printed form. A [`Sink`] takes its text piece by piece: a list of bytes appends it, and a
//! [`Room`] only measures whether it fits. [`spell_statement`], [`spell_command`], [`spell_row_name`] and
//! [`spell_list`] return whether the sink took the whole text. [`put_statement`], [`put_printable`], [`put_row_name`]
//! and [`put_list`] append it to bytes. Other printable values implement [`Spell`]; [`spell_all`] spells a list of
//! them.
//!
//! The text of a statement keeps the limits [`MAX_STATEMENT_BYTES`] and [`MAX_DEPTH`], and [`MAX_LINE_BYTES`] as a
//! line. A statement that was built in code may exceed them. [`check_statement`] and [`check_command`] check this
//! without building a text, and return the exceeded limit as a [`PrintFault`]. `lab_statement` reads such a text.
//!
//! Functions that append to bytes return `NoMemory` if an allocation fails. The bytes may then end in a part of the
//! text.
#![tactic(auto)]

mod fits;
mod limits;
mod print;
mod row_text;
mod sink;
mod spell;
mod spelling;

pub use fits::statement_fits;
pub use limits::{MAX_DEPTH, MAX_LINE_BYTES, MAX_STATEMENT_BYTES};
pub use print::{PrintFault, check_command, check_statement, put_printable, put_statement};
pub use row_text::{put_list, put_row_name, spell_list, spell_row_name};
pub use sink::{Room, Sink, append_result};
pub use spell::{Spell, spell_all};
pub use spelling::{spell_command, spell_statement};
