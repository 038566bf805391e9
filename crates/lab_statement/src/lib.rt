//! Parsing and printing statements.
//!
//! ```text
//! update test set value = value + 10 where id = 1
//! ```
//!
//! [`parse_statement`] parses such a text, and [`print_statement`] prints a statement so that it is parsed as the same
//! statement. A text that isn't a statement has a [`ScriptFault`], which [`print_script_fault`] prints. Whole scripts
//! have the same type of faults, so some kinds occur only there.
//!
//! A text keeps the limits of `lab_printing`, for lines and for printed statements. A statement that was built in code
//! may exceed them; printing then fails with a `PrintFault`.
//!
//! `lab_script` parses the tokens of its lines with the same [`Parser`].
//!
//! Functions that allocate take an allocator, or a list of tokens that has one, and return `NoMemory` if an allocation
//! fails.
#![tactic(auto)]

mod atom;
mod fault;
mod laws;
mod line;
mod parser;
mod predicate;
mod print;
mod row;
mod statement;
mod statement_text;
mod token;

pub use fault::{Refusal, ScriptFault, ScriptFaultKind, print_script_fault};
pub use laws::{blank_texts_have_no_token, statement_is_read_from_its_text, words_are_reserved};
pub use line::{code_and_remark, is_ascii_code};
pub use parser::{Parser, placed};
pub use print::print_statement;
pub use statement::check_length;
pub use statement_text::parse_statement;
pub use token::{Token, blanks_len, tokens_into};
