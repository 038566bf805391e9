//! What is said of a byte that no code has.

use crate::text::{Part, put};
use lab_table::NoMemory;

/// The first byte of a code that no code has, with its column.
pub fn foreign_byte(code: &[u8]) -> Option<(usize, u8)> {
    for (index, byte) in code.iter().enumerate() {
        if !matches!(*byte, b'\t' | b' '..=b'~') {
            return Some((index + 1, *byte));
        }
    }
    None
}

/// The character that begins a text, where editors, chats and web pages put it in place of a byte of code.
pub fn sign_name(text: &[u8]) -> &'static str {
    match text {
        [0xE2, 0x80, 0x93, ..] => ", an en dash in place of '--'",
        [0xE2, 0x80, 0x94 | 0x95, ..] => ", an em dash in place of '--'",
        [0xE2, 0x80, 0x90 | 0x91 | 0x92, ..] | [0xE2, 0x88, 0x92, ..] => {
            ", a dash in place of '-'"
        }
        [0xE2, 0x80, 0x98..=0x9F, ..] => ", a quotation mark of a printed text",
        [0xC2, 0xA0, ..] => ", a no-break space",
        [0, ..] => ", as in UTF-16",
        _ => "",
    }
}

/// Appends that a byte of this name was found where this rule is.
pub fn put_byte<'a>(
    out: &mut Vec<u8>,
    byte: u8,
    name: &'a str,
    rule: &'a str,
) -> Result<(), NoMemory> {
    put(
        out,
        &[
            Part::Say("found the byte "),
            Part::Number(u64::from(byte)),
            Part::Say(name),
            Part::Say("; "),
            Part::Say(rule),
        ],
    )
}
