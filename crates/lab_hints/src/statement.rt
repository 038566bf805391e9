//! What is said of a statement that a history file can't have.

use crate::byte::{foreign_byte, put_byte, sign_name};
use crate::grammar::Place;
use crate::kind::{is_told, kind_rule};
use crate::rows::{has_number, items_at};
use crate::stop::put_stop;
use crate::text::{Part, code_and_remark, put};
use crate::walk::Walk;
use lab_printing::MAX_LINE_BYTES;
use lab_statement::{ScriptFault, ScriptFaultKind, parse_statement};
use lab_table::{NoMemory, TxnNo};
use serde_json::Value as Json;
use std::alloc::{AllocError, Global};

const BYTE_RULE: &str = "a statement stands on one line, of tabs and the bytes 32 to 126";

/// The text of a statement, by the number of its transaction and of the operation, which is counted from 1.
fn statement_at(json: &Json, no: TxnNo, op: u32) -> Option<&str> {
    let txns = items_at(json, "transactions");
    let txn = txns.iter().find(|txn| has_number(txn, no))?;
    let op = items_at(txn, "ops").get(op.saturating_sub(1) as usize)?;
    op.get("statement")?.as_str()
}

/// Appends at which column something is said.
fn put_column(out: &mut Vec<u8>, column: usize) -> Result<(), NoMemory> {
    put(
        out,
        &[
            Part::Say("column "),
            Part::Number(column as u64),
            Part::Say(": "),
        ],
    )
}

/// What else is said of the byte that begins a part of a statement.
fn byte_name(rest: &[u8]) -> &'static str {
    match rest {
        [b'\n', ..] => ", a newline",
        [b'\r', ..] => ", a carriage return",
        _ => sign_name(rest),
    }
}

/// Appends the byte of a text that no statement has.
fn put_foreign_byte(out: &mut Vec<u8>, text: &[u8]) -> Result<(), NoMemory> {
    let Some((column, byte)) = foreign_byte(text) else {
        return put(out, &[Part::Say(BYTE_RULE)]);
    };
    put_column(out, column)?;
    let (_, rest) = text.split_at(column.saturating_sub(1).min(text.len()));
    put_byte(out, byte, byte_name(rest), BYTE_RULE)
}

/// Appends which limit of a statement is broken.
fn put_too_long(out: &mut Vec<u8>, text: &[u8]) -> Result<(), NoMemory> {
    if text.len() <= MAX_LINE_BYTES {
        return put(
            out,
            &[Part::Say("a statement's printed form has at most 1,000 bytes")],
        );
    }
    put(
        out,
        &[
            Part::Say("the text has "),
            Part::Number(text.len() as u64),
            Part::Say(" bytes; a statement's text has at most 4,000"),
        ],
    )
}

/// Appends where a text stops being a statement, and what may stand there.
fn put_where(
    out: &mut Vec<u8>,
    alloc: Global,
    text: &[u8],
    kind: ScriptFaultKind,
) -> Result<(), NoMemory> {
    let (code, remark) = code_and_remark(text);
    let mut walk = Walk::new(alloc);
    match walk.read(alloc, Place::Operation, code)? {
        Some(stop) if is_told(kind, stop.wrong) => {
            put_column(out, stop.column().unwrap_or(code.len() + 1))?;
            put_stop(out, &walk, &stop, remark)
        }
        None if !remark.is_empty() => {
            put_column(out, code.len() + 1)?;
            put(
                out,
                &[Part::Say(
                    "found '--', which begins a remark; a statement of a history has none",
                )],
            )
        }
        _ => put(out, &[Part::Say(kind_rule(kind))]),
    }
}

/// Appends why a text with this kind of fault is no statement.
fn put_why(
    out: &mut Vec<u8>,
    alloc: Global,
    text: &[u8],
    kind: ScriptFaultKind,
) -> Result<(), NoMemory> {
    match kind {
        ScriptFaultKind::NotAscii => put_foreign_byte(out, text),
        ScriptFaultKind::TooLong => put_too_long(out, text),
        _ => put_where(out, alloc, text, kind),
    }
}

/// Appends a statement that a file can't have, and why.
pub fn put_bad_statement(
    out: &mut Vec<u8>,
    alloc: Global,
    json: &Json,
    no: TxnNo,
    op: u32,
) -> Result<(), NoMemory> {
    let Some(text) = statement_at(json, no, op) else {
        return Ok(());
    };
    put(
        out,
        &[
            Part::Say("found '"),
            Part::Shown(text.as_bytes()),
            Part::Say("'; "),
        ],
    )?;
    match parse_statement(alloc, text.as_bytes()) {
        Ok(_) => put(
            out,
            &[Part::Say("in version 1 each statement is on the table test")],
        ),
        Err(ScriptFault::NoMemory) => Err(AllocError),
        Err(ScriptFault::At { kind, .. }) => put_why(out, alloc, text.as_bytes(), kind),
    }
}
