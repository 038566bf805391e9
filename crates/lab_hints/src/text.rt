//! The parts of a text for people.

use bstr::ByteSlice;
use itoa::Buffer;
use lab_table::NoMemory;
use std::alloc::Global;

/// The most bytes that are shown of a word or a value.
const SHOWN_BYTES: usize = 60;

/// What some editors write in front of a text.
pub const BYTE_ORDER_MARK: &[u8] = b"\xEF\xBB\xBF";

/// What begins a text in UTF-16, such as PowerShell writes by `>`.
const UTF_16_MARKS: [&[u8]; 2] = [b"\xFF\xFE", b"\xFE\xFF"];

/// What is said of a text in UTF-16.
pub const UTF_16: &str =
    "found UTF-16 (a byte order mark FF FE or FE FF), as PowerShell writes it; save it as UTF-8 without a mark";

/// Whether a text begins as one in UTF-16 does.
pub fn is_utf_16(text: &[u8]) -> bool {
    UTF_16_MARKS.iter().any(|mark| text.starts_with(mark))
}

/// A part of a text.
#[derive(Clone, Copy)]
pub enum Part<'a> {
    /// These words.
    Say(&'a str),
    /// A number in decimal.
    Number(u64),
    /// What stood in an input, at most 60 bytes of it.
    Shown(&'a [u8]),
}

/// The text that parts make.
pub fn text_of(alloc: Global, parts: &[Part<'_>]) -> Result<Vec<u8>, NoMemory> {
    let mut text = Vec::new(alloc);
    put(&mut text, parts)?;
    Ok(text)
}

/// Appends parts. On failure, a part of the text may have been appended.
pub fn put(out: &mut Vec<u8>, parts: &[Part<'_>]) -> Result<(), NoMemory> {
    for part in parts {
        put_part(out, *part)?;
    }
    Ok(())
}

fn put_part(out: &mut Vec<u8>, part: Part<'_>) -> Result<(), NoMemory> {
    match part {
        Part::Say(words) => out.extend_from_slice(words.as_bytes()),
        Part::Number(number) => out.extend_from_slice(Buffer::new().format(number).as_bytes()),
        Part::Shown(bytes) => put_shown(out, bytes, SHOWN_BYTES),
    }
}

/// Appends bytes of an input, at most so many, and two dots where there are more.
pub fn put_shown(out: &mut Vec<u8>, bytes: &[u8], most: usize) -> Result<(), NoMemory> {
    for byte in bytes.iter().take(most) {
        out.push(printed(*byte))?;
    }
    if bytes.len() > most {
        out.extend_from_slice(b"..")?;
    }
    Ok(())
}

/// The byte itself where it is printed ASCII, so that no input moves a terminal's cursor.
fn printed(byte: u8) -> u8 {
    match byte {
        b'\t' => b' ',
        b' '..=b'~' => byte,
        _ => b'?',
    }
}

/// The part of a line before its first two dashes, and the rest with them.
pub fn code_and_remark(line: &[u8]) -> (&[u8], &[u8]) {
    match line.find(b"--") {
        None => (line, &[]),
        Some(place) => line.split_at(place),
    }
}

/// Whether all of a code is blank.
pub fn is_blank(code: &[u8]) -> bool {
    code.iter().all(|byte| *byte == b' ' || *byte == b'\t')
}

/// The line with a number, counted from 1.
pub fn line_numbered(text: &[u8], number: usize) -> Option<&[u8]> {
    let mut left = number;
    for line in text.lines() {
        left = left.saturating_sub(1);
        if left == 0 {
            return Some(line);
        }
    }
    None
}
