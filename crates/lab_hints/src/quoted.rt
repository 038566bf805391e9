//! Words as they are typed in a shell.

use crate::shown::is_shown;
use lab_table::NoMemory;

/// The most bytes of a word that is to be typed.
const MAX_WORD: usize = 255;

/// Whether a word can be typed: it is short, and has nothing that would move a terminal's cursor.
pub fn is_typed(word: &str) -> bool {
    word.len() <= MAX_WORD && word.chars().all(|sign| is_shown(sign))
}

/// Whether a byte stands for itself in a shell.
fn is_plain(byte: u8) -> bool {
    byte.is_ascii_alphanumeric() || matches!(byte, b'_' | b'-' | b'.' | b'/' | b',' | b':' | b'+')
}

/// Appends a word, in quotes where a shell takes it otherwise for something else.
pub fn put_quoted(out: &mut Vec<u8>, word: &str) -> Result<(), NoMemory> {
    if !word.is_empty() && word.bytes().all(is_plain) {
        return out.extend_from_slice(word.as_bytes());
    }
    out.push(b'\'')?;
    for byte in word.bytes() {
        if byte == b'\'' {
            out.extend_from_slice(b"'\\''")?;
        } else {
            out.push(byte)?;
        }
    }
    out.push(b'\'')?;
    Ok(())
}
