//! What is said to people of a file that has no answer of `chain`. The texts aren't promised.

use crate::piece::Piece;
use lab_chain::has_more_summaries;
use lab_commands::Inputs;
use lab_history::MAX_FILE_BYTES;
use lab_table::NoMemory;
use std::alloc::Global;

/// The most bytes that are shown of a file's name.
const SHOWN_NAME: usize = 200;

/// The most bytes that are shown of a line.
const SHOWN_LINE: usize = 60;

/// What is wanted, and where it comes from.
const WANTED: &[u8] =
    b"; its last line is to be what 'hermitage_lab chain --json FILE..' writes of one part or more\n";

/// What is wanted of a file with more than one answer.
const APART: &[u8] = b"; each has to be in a file of its own\n";

/// What the answer about a run without parts begins with.
const NO_PART: &[u8] = b"{\"committed\":false,\"end\":null,\"first\":null,";

/// The byte itself where it is printed ASCII, so that no input moves a terminal's cursor.
fn printed(byte: u8) -> u8 {
    if byte == b' ' || byte.is_ascii_graphic() {
        byte
    } else {
        b'?'
    }
}

/// Appends bytes of an input, at most so many, and two dots where there are more.
fn put_shown(out: &mut Vec<u8>, bytes: &[u8], most: usize) -> Result<(), NoMemory> {
    for byte in bytes.iter().take(most) {
        out.push(printed(*byte))?;
    }
    if bytes.len() > most {
        out.extend_from_slice(b"..")?;
    }
    Ok(())
}

/// The last line of a text that ends with a newline.
fn last_line(lines: &[u8]) -> &[u8] {
    match lines.iter().rposition(|byte| *byte == b'\n') {
        Some(place) => &lines[place + 1..],
        None => lines,
    }
}

/// Whether a line is the answer about a run without parts.
fn is_of_no_part(line: &[u8]) -> bool {
    line.starts_with(NO_PART)
}

/// Appends what was found in a file in place of an answer.
fn put_found(out: &mut Vec<u8>, bytes: &[u8]) -> Result<(), NoMemory> {
    if bytes.is_empty() {
        return out.extend_from_slice(b"found nothing");
    }
    if has_more_summaries(bytes) {
        return out.extend_from_slice(b"found more than one answer");
    }
    if bytes.len() > MAX_FILE_BYTES {
        return out.extend_from_slice(b"found more than 8,388,608 bytes");
    }
    match bytes.strip_suffix(b"\n") {
        Some(lines) if is_of_no_part(last_line(lines)) => {
            out.extend_from_slice(b"found the answer for an empty list of parts")
        }
        Some(lines) => {
            out.extend_from_slice(b"found '")?;
            put_shown(out, last_line(lines), SHOWN_LINE)?;
            out.extend_from_slice(b"'")
        }
        None => out.extend_from_slice(b"found no newline at its end"),
    }
}

/// A line on a file that has no answer, behind its name.
fn no_answer_hint(alloc: Global, name: &str, bytes: &[u8]) -> Result<Vec<u8>, NoMemory> {
    let mut line = Vec::new(alloc);
    put_shown(&mut line, name.as_bytes(), SHOWN_NAME)?;
    line.extend_from_slice(b": ")?;
    put_found(&mut line, bytes)?;
    line.extend_from_slice(if has_more_summaries(bytes) {
        APART
    } else {
        WANTED
    })?;
    Ok(line)
}

/// Appends a line on a file of which this was read, where it has no answer. What fails is let go.
pub fn note_piece(alloc: Global, name: &str, inputs: &Inputs, piece: &Piece, hints: &mut Vec<u8>) {
    if let (Piece::NoAnswer, Some(bytes)) = (piece, inputs.files.first())
        && let Ok(line) = no_answer_hint(alloc, name, bytes)
    {
        let _ = hints.extend_from_slice(&line);
    }
}
