//! What is said of a play that has no recording, or no history file.

use crate::limits::limit_rule;
use crate::text::{Part, text_of};
use lab_history::Limit;
use lab_table::{NoMemory, Session};
use std::alloc::Global;

/// One line on a history whose file would be too long.
pub fn long_file_hint(alloc: Global) -> Result<Vec<u8>, NoMemory> {
    text_of(
        alloc,
        &[Part::Say(limit_rule(Limit::Bytes)), Part::Say("\n")],
    )
}

/// One line on a play that has no recording: the rule that it, or this session, didn't keep.
pub fn rule_hint(alloc: Global, session: Option<Session>, rule: &str) -> Result<Vec<u8>, NoMemory> {
    match session {
        None => text_of(alloc, &[Part::Say(rule), Part::Say("\n")]),
        Some(session) => text_of(
            alloc,
            &[
                Part::Say("session T"),
                Part::Number(u64::from(session.number())),
                Part::Say(": "),
                Part::Say(rule),
                Part::Say("\n"),
            ],
        ),
    }
}
