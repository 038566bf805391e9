//! The text of a value of a JSON file, as it is written there.

use crate::text::{Part, put};
use json::{Reader, Scratch, Token};
use lab_history::Path;
use lab_table::NoMemory;
use std::alloc::Global;

/// The most bytes that are shown of a value.
const SHOWN_BYTES: usize = 60;

/// A part of a text, by the offsets of its first byte and of the byte after it.
#[derive(Clone, Copy)]
struct Span {
    start: usize,
    end: usize,
}

fn is_between(byte: u8) -> bool {
    matches!(byte, b' ' | b'\t' | b'\n' | b'\r' | b',' | b':')
}

/// A part of a text, without the blanks, commas and colons around it.
fn part(text: &[u8], span: Span) -> &[u8] {
    let (front, _) = text.split_at(span.end.min(text.len()));
    let (_, part) = front.split_at(span.start.min(front.len()));
    let before = part.iter().take_while(|byte| is_between(**byte)).count();
    let (_, part) = part.split_at(before.min(part.len()));
    let after = part
        .iter()
        .rev()
        .take_while(|byte| is_between(**byte))
        .count();
    let (part, _) = part.split_at(part.len().saturating_sub(after));
    part
}

/// Reads the value that begins here, and returns where it is; None if an array or an object ends here, or no value is.
fn take_value(reader: &mut Reader<'_>, most: usize) -> Option<Span> {
    let start = reader.offset();
    let mut depth = 0usize;
    for _ in 0..most {
        match reader.next() {
            Some(Token::BeginArray | Token::BeginObject) => depth = depth.saturating_add(1),
            Some(Token::EndArray | Token::EndObject) if depth > 0 => {
                depth = depth.saturating_sub(1);
            }
            Some(Token::String(_) | Token::Number(_) | Token::Bool(_) | Token::Null) => {}
            Some(Token::Key(_)) if depth > 0 => {}
            _ => return None,
        }
        if depth == 0 {
            return Some(Span {
                start,
                end: reader.offset(),
            });
        }
    }
    None
}

/// The item of an array with a number, counted from 0.
fn item_in(reader: &mut Reader<'_>, number: usize, most: usize) -> Option<Span> {
    for _ in 0..number {
        take_value(reader, most)?;
    }
    take_value(reader, most)
}

/// The last member of an object that has a key.
fn member_in(reader: &mut Reader<'_>, wanted: &[u8], most: usize) -> Option<Span> {
    let mut found = None;
    for _ in 0..most {
        let Some(Token::Key(key)) = reader.next() else {
            return found;
        };
        let is_wanted = key.as_bytes() == wanted;
        let member = take_value(reader, most)?;
        if is_wanted {
            found = Some(member);
        }
    }
    found
}

/// The number that digits spell.
fn number_of(digits: &[u8]) -> Option<usize> {
    let mut number = 0usize;
    for digit in digits {
        if !digit.is_ascii_digit() {
            return None;
        }
        number = number
            .saturating_mul(10)
            .saturating_add(usize::from(digit.wrapping_sub(b'0')));
    }
    Some(number)
}

/// The part of a value that a step of a JSON pointer leads to: an item's number, or a key.
fn step_to<'b>(alloc: Global, bytes: &'b [u8], step: &[u8]) -> Result<Option<&'b [u8]>, NoMemory> {
    let Ok(text) = std::str::from_utf8(bytes) else {
        return Ok(None);
    };
    let most = bytes.len();
    let mut scratch = Scratch::new(alloc);
    let mut reader = Reader::new(text, &mut scratch)?;
    let span = match reader.next() {
        Some(Token::BeginArray) => match number_of(step) {
            Some(number) => item_in(&mut reader, number, most),
            None => None,
        },
        Some(Token::BeginObject) => member_in(&mut reader, step, most),
        _ => None,
    };
    Ok(span.map(|span| part(bytes, span)))
}

/// The text of the value of a JSON text that a path leads to, without the blanks around it; None if there is none.
pub fn text_at<'b>(
    alloc: Global,
    bytes: &'b [u8],
    path: &Path,
) -> Result<Option<&'b [u8]>, NoMemory> {
    let whole = Span {
        start: 0,
        end: bytes.len(),
    };
    let mut found = part(bytes, whole);
    if *path == Path::Root {
        return Ok(Some(found));
    }
    let pointer = path.print(alloc)?;
    for step in pointer.split(|byte| *byte == b'/').skip(1) {
        match step_to(alloc, found, step)? {
            Some(part) => found = part,
            None => return Ok(None),
        }
    }
    Ok(Some(found))
}

/// The text of an item of an array, counted from 0.
pub fn item_text<'b>(
    alloc: Global,
    array: &'b [u8],
    number: usize,
) -> Result<Option<&'b [u8]>, NoMemory> {
    let mut digits = itoa::Buffer::new();
    step_to(alloc, array, digits.format(number as u64).as_bytes())
}

/// The first bytes of a JSON text on one line: a line's end, with the blanks that begin the next line, is one blank.
fn on_one_line(alloc: Global, text: &[u8]) -> Result<Vec<u8>, NoMemory> {
    let mut line = Vec::new(alloc);
    let mut is_at_front = false;
    for byte in text {
        let is_end = matches!(*byte, b'\n' | b'\r');
        if is_end && !is_at_front {
            line.push(b' ')?;
        }
        is_at_front = is_end || (is_at_front && matches!(*byte, b' ' | b'\t'));
        if !is_at_front {
            line.push(*byte)?;
        }
        if line.len() > SHOWN_BYTES {
            break;
        }
    }
    Ok(line)
}

/// Appends a value as a file has it, on one line and at most 60 bytes of it.
pub fn put_found_value(
    out: &mut Vec<u8>,
    alloc: Global,
    text: Option<&[u8]>,
) -> Result<(), NoMemory> {
    match text {
        None => put(out, &[Part::Say("nothing")]),
        Some(text) => put(out, &[Part::Shown(&on_one_line(alloc, text)?)]),
    }
}
