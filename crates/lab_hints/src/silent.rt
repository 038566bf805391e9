//! What is said of a script that is none the less read: that no transaction begins in it, or which sessions begin none.

use crate::session::session_in;
use crate::text::{Part, code_and_remark, is_blank, put, text_of};
use bstr::ByteSlice;
use lab_script::{Line, Lines, parse_script};
use lab_statement::ScriptFault;
use lab_table::{Command, NoMemory, PerSession, Session};
use std::alloc::{AllocError, Global};

const SILENT: &str =
    "no transaction begins in this script, so none of its commands does anything; a session begins one by 'begin; -- T1'\n";

const LEFT_OUT: &str = "sessions that begin no transaction, so that their commands are left out:";

/// Whether a line of a script surely begins a transaction; so most scripts need no second look.
fn begins(line: &[u8]) -> bool {
    line.trim_ascii_start().starts_with(b"begin")
}

/// Whether a session of a script may begin no transaction, by the fronts of its lines.
fn may_leave_out(input: &[u8]) -> bool {
    let mut spoken = PerSession::all(false);
    let mut begun = PerSession::all(false);
    for line in input.lines() {
        let (code, remark) = code_and_remark(line);
        if let Some(session) = session_in(remark)
            && !is_blank(code)
        {
            spoken.set(session, true);
            if begins(code) {
                begun.set(session, true);
            }
        }
    }
    Session::ALL
        .iter()
        .any(|session| spoken.get(*session) && !begun.get(*session))
}

/// The commands of a text, if it is a script.
fn lines_of(alloc: Global, input: &[u8]) -> Result<Option<Lines>, NoMemory> {
    match parse_script(alloc, input) {
        Ok(script) => Ok(Some(script.lines)),
        Err(ScriptFault::NoMemory) => Err(AllocError),
        Err(ScriptFault::At { .. }) => Ok(None),
    }
}

/// Whether there are commands, and none of them begins a transaction.
fn is_silent(lines: &[Line]) -> bool {
    !lines.is_empty()
        && !lines
            .iter()
            .any(|line| matches!(line.command, Command::Begin))
}

/// Whether a session has commands, and begins no transaction.
fn is_left_out(lines: &[Line], session: Session) -> bool {
    let mut speaks = false;
    for line in lines {
        if line.session == session {
            if matches!(line.command, Command::Begin) {
                return false;
            }
            speaks = true;
        }
    }
    speaks
}

/// One line on the sessions that begin no transaction, and nothing where each does.
fn put_left_out(out: &mut Vec<u8>, lines: &[Line]) -> Result<(), NoMemory> {
    for session in &Session::ALL {
        if is_left_out(lines, *session) {
            let front = if out.is_empty() { LEFT_OUT } else { "" };
            put(
                out,
                &[
                    Part::Say(front),
                    Part::Say(" T"),
                    Part::Number(u64::from(session.number())),
                ],
            )?;
        }
    }
    if !out.is_empty() {
        out.push(b'\n')?;
    }
    Ok(())
}

/// One line on a script that was played, if no transaction begins in it.
pub fn silent_play_hint(alloc: Global, input: &[u8]) -> Result<Vec<u8>, NoMemory> {
    if input.lines().any(|line| begins(line)) {
        return Ok(Vec::new(alloc));
    }
    match lines_of(alloc, input)? {
        Some(lines) if is_silent(lines.as_slice()) => text_of(alloc, &[Part::Say(SILENT)]),
        _ => Ok(Vec::new(alloc)),
    }
}

/// One line on a script whose transactions were run one after another, if none begins in it, or a session begins none.
pub fn left_out_hint(alloc: Global, input: &[u8]) -> Result<Vec<u8>, NoMemory> {
    let mut text = Vec::new(alloc);
    if !may_leave_out(input) {
        return Ok(text);
    }
    if let Some(lines) = lines_of(alloc, input)? {
        if is_silent(lines.as_slice()) {
            put(&mut text, &[Part::Say(SILENT)])?;
        } else {
            put_left_out(&mut text, lines.as_slice())?;
        }
    }
    Ok(text)
}
