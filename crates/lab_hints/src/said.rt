//! What is said of each kind of fault of a script.

use crate::byte::{foreign_byte, put_byte, sign_name};
use crate::grammar::Place;
use crate::kind::{is_told, kind_rule};
use crate::long::long_said;
use crate::session::{SESSION_RULE, session_in};
use crate::stop::{LINE_RULE, put_stop};
use crate::text::{
    BYTE_ORDER_MARK, Part, UTF_16, code_and_remark, is_blank, is_utf_16, line_numbered, text_of,
};
use crate::token::tokens_of;
use crate::walk::{Stop, Walk};
use bstr::ByteSlice;
use lab_statement::ScriptFaultKind;
use lab_table::NoMemory;
use std::alloc::Global;

pub const SETUP_RULE: &str =
    "a script begins with its setup, as 'setup (1, 10), (2, 20);' or 'setup ();'";

/// What is said of a fault, and at which column of its line that is, if at one. Columns count bytes, from 1.
#[derive(Drop)]
pub struct Said {
    pub column: Option<usize>,
    pub words: Vec<u8>,
}

impl Said {
    pub fn at(alloc: Global, column: usize, parts: &[Part<'_>]) -> Result<Said, NoMemory> {
        Ok(Said {
            column: Some(column),
            words: text_of(alloc, parts)?,
        })
    }

    pub fn of_line(alloc: Global, words: &str) -> Result<Said, NoMemory> {
        Ok(Said {
            column: None,
            words: text_of(alloc, &[Part::Say(words)])?,
        })
    }
}

/// Reads a text up to the line with a number, and answers where that line's code stopped; None where it didn't.
fn stop_in<'a>(
    alloc: Global,
    walk: &mut Walk,
    text: &'a [u8],
    number: u32,
) -> Result<Option<Stop<'a>>, NoMemory> {
    let mut left = number;
    let mut place = Place::Setup;
    for line in text.lines() {
        left = left.saturating_sub(1);
        let (code, _) = code_and_remark(line);
        if !is_blank(code) {
            let stop = walk.read(alloc, place, code)?;
            if left == 0 {
                return Ok(stop);
            }
            if stop.is_some() {
                return Ok(None);
            }
            place = Place::Statement;
        }
    }
    Ok(None)
}

/// What is said where a token, or the end of the line, is at fault.
fn token_said(
    alloc: Global,
    text: &[u8],
    number: u32,
    kind: ScriptFaultKind,
    line: &[u8],
) -> Result<Said, NoMemory> {
    let mut walk = Walk::new(alloc);
    let Some(stop) = stop_in(alloc, &mut walk, text, number)? else {
        return Said::of_line(alloc, kind_rule(kind));
    };
    if !is_told(kind, stop.wrong) {
        return Said::of_line(alloc, kind_rule(kind));
    }
    let (code, remark) = code_and_remark(line);
    // A remark that names a session is meant to be one.
    let cut_off: &[u8] = if session_in(remark).is_some() {
        &[]
    } else {
        remark
    };
    let mut words = Vec::new(alloc);
    put_stop(&mut words, &walk, &stop, cut_off)?;
    Ok(Said {
        column: Some(stop.column().unwrap_or(code.len() + 1)),
        words,
    })
}

/// What is said where a line begins with the wrong token.
fn front_said<'a>(alloc: Global, code: &'a [u8], rule: &'a str) -> Result<Said, NoMemory> {
    let tokens = tokens_of(alloc, code)?;
    match tokens.first() {
        None => Said::of_line(alloc, rule),
        Some(token) => Said::at(
            alloc,
            token.column,
            &[
                Part::Say("found '"),
                Part::Shown(token.text),
                Part::Say("'; "),
                Part::Say(rule),
            ],
        ),
    }
}

/// What else is said of the byte that begins a part of a line.
fn byte_name(rest: &[u8]) -> &'static str {
    match rest {
        [b'\r', ..] => ", a carriage return that no newline follows",
        _ => sign_name(rest),
    }
}

/// What is said where the code of a text's line holds a byte that no code has.
fn byte_said(alloc: Global, text: &[u8], number: u32, code: &[u8]) -> Result<Said, NoMemory> {
    if number == 1 && text.starts_with(BYTE_ORDER_MARK) {
        let words = "found a byte order mark (EF BB BF), which is no part of a script";
        return Said::at(alloc, 1, &[Part::Say(words)]);
    }
    if number == 1 && is_utf_16(text) {
        return Said::at(alloc, 1, &[Part::Say(UTF_16)]);
    }
    let rule = "code has tabs and the bytes 32 to 126";
    let Some((column, byte)) = foreign_byte(code) else {
        return Said::of_line(alloc, rule);
    };
    let mut words = Vec::new(alloc);
    let (_, rest) = code.split_at(column.saturating_sub(1).min(code.len()));
    put_byte(&mut words, byte, byte_name(rest), rule)?;
    Ok(Said {
        column: Some(column),
        words,
    })
}

/// Whether a line begins inside a statement or a setup, so that it seems to go on with the line before.
fn begins_inside(alloc: Global, line: &[u8]) -> Result<bool, NoMemory> {
    let (code, _) = code_and_remark(line);
    let mut walk = Walk::new(alloc);
    match walk.read(alloc, Place::Statement, code)? {
        Some(stop) => Ok(stop.goes_on()),
        None => Ok(false),
    }
}

/// What is said where a line's remark names no session.
fn session_said(
    alloc: Global,
    text: &[u8],
    number: u32,
    code: &[u8],
    remark: &[u8],
) -> Result<Said, NoMemory> {
    let column = code.len() + 1;
    if !remark.is_empty() {
        return Said::at(
            alloc,
            column,
            &[
                Part::Say("found '"),
                Part::Shown(remark),
                Part::Say("'; "),
                Part::Say(SESSION_RULE),
            ],
        );
    }
    let next = line_numbered(text, number as usize + 1).unwrap_or(&[]);
    let (and, rule) = if begins_inside(alloc, next)? {
        ("; ", LINE_RULE)
    } else {
        ("", "")
    };
    Said::at(
        alloc,
        column,
        &[
            Part::Say("found no session; "),
            Part::Say(SESSION_RULE),
            Part::Say(and),
            Part::Say(rule),
        ],
    )
}

/// What is said of a kind of fault in a line of a text.
pub fn said_of_kind(
    alloc: Global,
    text: &[u8],
    number: u32,
    kind: ScriptFaultKind,
    line: &[u8],
) -> Result<Said, NoMemory> {
    let (code, remark) = code_and_remark(line);
    match kind {
        ScriptFaultKind::NotAscii => byte_said(alloc, text, number, code),
        ScriptFaultKind::NoSetup => front_said(alloc, code, SETUP_RULE),
        ScriptFaultKind::SetupRepeated => front_said(alloc, code, "a script has one setup"),
        ScriptFaultKind::NoSession => session_said(alloc, text, number, code, remark),
        ScriptFaultKind::TooLong => long_said(alloc, text, number, line, code),
        _ => token_said(alloc, text, number, kind, line),
    }
}
