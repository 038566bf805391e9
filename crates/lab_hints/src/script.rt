//! What is said of a script that was refused.

use crate::said::{SETUP_RULE, Said, said_of_kind};
use crate::text::{Part, line_numbered, put, put_shown, text_of};
use lab_statement::{ScriptFault, ScriptFaultKind};
use lab_table::NoMemory;
use std::alloc::Global;

/// The most bytes that are shown of a line, and the most of them before the fault.
const SHOWN_BYTES: usize = 100;

const SHOWN_BEFORE: usize = 60;

/// Appends a line of a text as far as it serves to see a column, with two dots for what is left out.
fn put_line(
    out: &mut Vec<u8>,
    number: u32,
    line: &[u8],
    column: Option<usize>,
) -> Result<(), NoMemory> {
    put(
        out,
        &[
            Part::Say("line "),
            Part::Number(u64::from(number)),
            Part::Say(": "),
        ],
    )?;
    let before = column.unwrap_or(0).saturating_sub(SHOWN_BEFORE);
    if line.len() > SHOWN_BYTES && before > 0 {
        put(out, &[Part::Say("..")])?;
        let (_, rest) = line.split_at(before.min(line.len()));
        put_shown(out, rest, SHOWN_BYTES)?;
    } else {
        put_shown(out, line, SHOWN_BYTES)?;
    }
    out.push(b'\n')?;
    Ok(())
}

/// Appends what is said of a line.
fn put_said(out: &mut Vec<u8>, number: u32, said: &Said) -> Result<(), NoMemory> {
    put(out, &[Part::Say("line "), Part::Number(u64::from(number))])?;
    if let Some(column) = said.column {
        put(out, &[Part::Say(", column "), Part::Number(column as u64)])?;
    }
    put(out, &[Part::Say(": ")])?;
    out.extend_from_slice(&said.words)?;
    out.push(b'\n')?;
    Ok(())
}

fn line_hint(
    alloc: Global,
    text: &[u8],
    number: u32,
    kind: ScriptFaultKind,
) -> Result<Vec<u8>, NoMemory> {
    let Some(line) = line_numbered(text, number as usize) else {
        let found = if text.is_empty() {
            "the input is empty; "
        } else {
            "found no setup; "
        };
        return text_of(
            alloc,
            &[Part::Say(found), Part::Say(SETUP_RULE), Part::Say("\n")],
        );
    };
    let said = said_of_kind(alloc, text, number, kind, line)?;
    let mut out = Vec::new(alloc);
    put_line(&mut out, number, line, said.column)?;
    put_said(&mut out, number, &said)?;
    Ok(out)
}

/// Two lines on a script that `parse_script` refused with this fault: the faulty line, and what was found where and
/// what may stand there. One line for a text without a setup, and nothing if memory runs out.
pub fn script_hint(alloc: Global, text: &[u8], fault: &ScriptFault) -> Result<Vec<u8>, NoMemory> {
    match fault {
        ScriptFault::NoMemory => Ok(Vec::new(alloc)),
        ScriptFault::At { line, kind } => line_hint(alloc, text, *line, *kind),
    }
}
