//! What may not stand in a string of JSON.

use crate::text::{Part, put};
use lab_table::NoMemory;

/// Why a string of JSON doesn't go on.
#[derive(Clone, Copy)]
pub enum StringFlawKind {
    /// A byte below 32.
    Control(u8),
    /// Another sign behind a backslash than JSON has there.
    Escape,
    /// Something else than four hexadecimal digits behind a backslash and a `u`.
    Digits,
    /// A half of a surrogate pair without the other.
    Half,
}

/// Why a string doesn't go on, and how many bytes of the text stand before what may not stand there.
#[derive(Clone, Copy)]
pub struct StringFlaw {
    pub kind: StringFlawKind,
    pub place: usize,
}

/// Whether a text begins with a backslash, a `u` and four hexadecimal digits.
fn begins_with_code(text: &[u8]) -> bool {
    match text {
        [b'\\', b'u', a, b, c, d, ..] => {
            a.is_ascii_hexdigit()
                && b.is_ascii_hexdigit()
                && c.is_ascii_hexdigit()
                && d.is_ascii_hexdigit()
        }
        _ => false,
    }
}

/// Whether a text begins with the first half of a surrogate pair.
fn begins_with_first_half(text: &[u8]) -> bool {
    let is_half = matches!(
        text,
        [
            _,
            _,
            b'd' | b'D',
            b'8' | b'9' | b'a' | b'b' | b'A' | b'B',
            ..
        ]
    );
    is_half && begins_with_code(text)
}

/// Whether a text begins with the second half of a surrogate pair.
fn begins_with_second_half(text: &[u8]) -> bool {
    let is_half = matches!(text, [_, _, b'd' | b'D', b'c'..=b'f' | b'C'..=b'F', ..]);
    is_half && begins_with_code(text)
}

/// How many bytes the escape has that begins a text, or why it is none.
fn escape_length(text: &[u8]) -> Result<usize, StringFlawKind> {
    if begins_with_first_half(text) {
        let (_, rest) = text.split_at(6.min(text.len()));
        return if begins_with_second_half(rest) {
            Ok(12)
        } else {
            Err(StringFlawKind::Half)
        };
    }
    if begins_with_second_half(text) {
        return Err(StringFlawKind::Half);
    }
    match text {
        [_, b'u', ..] if begins_with_code(text) => Ok(6),
        [_, b'u', ..] => Err(StringFlawKind::Digits),
        [
            _,
            b'"' | b'\\' | b'/' | b'b' | b'f' | b'n' | b'r' | b't',
            ..
        ] => Ok(2),
        _ => Err(StringFlawKind::Escape),
    }
}

/// The first thing that may not stand in the string that begins at a place, if a string begins there and has one.
pub fn string_flaw(bytes: &[u8], quote: usize) -> Option<StringFlaw> {
    if bytes.get(quote) != Some(&b'"') {
        return None;
    }
    let mut place = quote.saturating_add(1);
    for _ in 0..bytes.len() {
        let (_, rest) = bytes.split_at(place.min(bytes.len()));
        let length = match rest.first() {
            None | Some(b'"') => return None,
            Some(b'\\') => escape_length(rest),
            Some(byte) if *byte < b' ' => Err(StringFlawKind::Control(*byte)),
            Some(_) => Ok(1),
        };
        match length {
            Ok(length) => place = place.saturating_add(length),
            Err(kind) => return Some(StringFlaw { kind, place }),
        }
    }
    None
}

/// Appends how a byte below 32 is written in a string.
fn put_written(out: &mut Vec<u8>, byte: u8) -> Result<(), NoMemory> {
    match byte {
        b'\t' => put(out, &[Part::Say("\\t")]),
        b'\n' => put(out, &[Part::Say("\\n")]),
        b'\r' => put(out, &[Part::Say("\\r")]),
        _ => {
            out.extend_from_slice(if byte < 16 { b"\\u000" } else { b"\\u001" })?;
            let digits = b"0123456789abcdef";
            out.push(digits[usize::from(byte % 16)])?;
            Ok(())
        }
    }
}

/// Appends the front of an escape, and what is due in its place.
fn put_escape(
    out: &mut Vec<u8>,
    bytes: &[u8],
    place: usize,
    length: usize,
    due: &'static str,
) -> Result<(), NoMemory> {
    let (_, rest) = bytes.split_at(place.min(bytes.len()));
    let (front, _) = rest.split_at(length.min(rest.len()));
    put(
        out,
        &[
            Part::Say("found '"),
            Part::Shown(front),
            Part::Say("'; in a string "),
            Part::Say(due),
        ],
    )
}

/// Appends what may not stand in a string, and what does in its place.
pub fn put_string_flaw(out: &mut Vec<u8>, bytes: &[u8], flaw: StringFlaw) -> Result<(), NoMemory> {
    match flaw.kind {
        StringFlawKind::Control(byte) => {
            put(
                out,
                &[
                    Part::Say("found the byte "),
                    Part::Number(u64::from(byte)),
                    Part::Say("; in a string it is written "),
                ],
            )?;
            put_written(out, byte)
        }
        StringFlawKind::Escape => put_escape(
            out,
            bytes,
            flaw.place,
            2,
            "one of \" \\ / b f n r t u comes behind a '\\'",
        ),
        StringFlawKind::Digits => put_escape(
            out,
            bytes,
            flaw.place,
            6,
            "four hexadecimal digits come behind '\\u'",
        ),
        StringFlawKind::Half => put_escape(
            out,
            bytes,
            flaw.place,
            6,
            "it comes in a pair, one of \\ud800 to \\udbff and one of \\udc00 to \\udfff behind it",
        ),
    }
}
