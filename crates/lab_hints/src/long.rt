//! What is said where a line of a script, or what ends in it, is over a limit.

use crate::said::Said;
use crate::text::{Part, line_numbered};
use crate::token::tokens_of;
use lab_history::MAX_FILE_BYTES;
use lab_printing::MAX_LINE_BYTES;
use lab_script::{MAX_COMMANDS, MAX_LINES, parse_script};
use lab_statement::{ScriptFault, ScriptFaultKind, blanks_len, parse_statement};
use lab_table::NoMemory;
use std::alloc::{AllocError, Global};

const LONG_STATEMENT: &str =
    "the statement that begins here has a printed form of more than 1,000 bytes";

const LAST_COMMAND: &str = "the 2,000th command begins here; a script has at most 1,999 commands";

/// Whether the printed form of a statement is over its limit.
fn is_long(alloc: Global, statement: &[u8]) -> Result<bool, NoMemory> {
    match parse_statement(alloc, statement) {
        Err(ScriptFault::NoMemory) => Err(AllocError),
        Err(ScriptFault::At { kind, .. }) => Ok(kind == ScriptFaultKind::TooLong),
        Ok(_) => Ok(false),
    }
}

/// Whether a statement of a script gives a command: one that sets a level gives none.
fn is_command(alloc: Global, statement: &[u8]) -> Result<bool, NoMemory> {
    let tokens = tokens_of(alloc, statement)?;
    Ok(tokens.first().is_some_and(|token| !token.is("set")))
}

/// The text before the line with a number.
fn text_before(text: &[u8], number: u32) -> &[u8] {
    let mut left = number;
    let mut len = 0usize;
    for line in text.split(|byte| *byte == b'\n') {
        left = left.saturating_sub(1);
        if left == 0 {
            break;
        }
        len = len.saturating_add(line.len()).saturating_add(1);
    }
    let (before, _) = text.split_at(len.min(text.len()));
    before
}

/// How many commands a script's text has.
fn count_commands(alloc: Global, text: &[u8]) -> Result<usize, NoMemory> {
    match parse_script(alloc, text) {
        Ok(script) => Ok(script.lines.as_slice().len()),
        Err(ScriptFault::NoMemory) => Err(AllocError),
        Err(ScriptFault::At { .. }) => Ok(0),
    }
}

/// What precedes the length of a line: of an input that is longer than what is read of it, the last line may go on.
fn length_words(text: &[u8], number: u32) -> &'static str {
    let is_last = line_numbered(text, (number as usize).saturating_add(1)).is_none();
    if text.len() > MAX_FILE_BYTES && is_last {
        "the line has at least "
    } else {
        "the line has "
    }
}

/// What is said of the first statement of a line that is over a limit, behind so many commands.
fn over_said(alloc: Global, code: &[u8], commands: usize) -> Result<Said, NoMemory> {
    let mut count = commands;
    let mut end = 0usize;
    for statement in code.split(|byte| *byte == b';') {
        let column = end.saturating_add(blanks_len(statement)).saturating_add(1);
        if is_command(alloc, statement)? {
            count = count.saturating_add(1);
        }
        if count > MAX_COMMANDS {
            return Said::at(alloc, column, &[Part::Say(LAST_COMMAND)]);
        }
        if is_long(alloc, statement)? {
            return Said::at(alloc, column, &[Part::Say(LONG_STATEMENT)]);
        }
        end = end.saturating_add(statement.len()).saturating_add(1);
    }
    Said::of_line(alloc, "a script has at most 1,999 commands")
}

/// What is said where a line of a text, or what ends in it, is over a limit.
pub fn long_said(
    alloc: Global,
    text: &[u8],
    number: u32,
    line: &[u8],
    code: &[u8],
) -> Result<Said, NoMemory> {
    if number > MAX_LINES {
        return Said::of_line(alloc, "a script has at most 2,000 lines");
    }
    if line.len() > MAX_LINE_BYTES {
        return Said::at(
            alloc,
            MAX_LINE_BYTES + 1,
            &[
                Part::Say(length_words(text, number)),
                Part::Number(line.len() as u64),
                Part::Say(" bytes; a line has at most 4,000"),
            ],
        );
    }
    let tokens = tokens_of(alloc, code)?;
    if tokens.first().is_some_and(|token| token.is("setup")) {
        return Said::of_line(alloc, "a setup's printed form has at most 4,000 bytes");
    }
    over_said(
        alloc,
        code,
        count_commands(alloc, text_before(text, number))?,
    )
}
