//! The layout of sentences in lines. Functions that take bytes append; on failure, a part of the text may have been
//! appended.

ghost use Rattle.std.specs.Prelude.{◌≡◌, ◌++◌, ◌≤◌, [], ◌∷◌, length, OnOk};
ghost use Rattle.std.specs.Fmt.{decimal};
ghost use Rattle.lab_explain.specs.Lines.{blank_after, word_length, breaks, wrapped, sentence, paragraph, step, lines, first_lines, left_out, begun, placed, room_behind, with_left_out, cut, capped};

use itoa::Buffer;
use lab_table::NoMemory;
use std::alloc::Global;

/// The columns of a line.
const COLUMNS: usize = 100;

/// Appends a number in decimal.
pub fn put_natural(out: &mut Vec<u8>, number: u64) -> Result<(), NoMemory>
    ensures { OnOk result (out.new.items ≡ out.old.items ++ decimal number) }
{
    out.extend_from_slice(Buffer::new().format(number).as_bytes())
}

/// How many bytes stand before the next blank.
fn blank_after(text: &[u8]) -> usize
    ensures value { result ≡ blank_after text.now }
    ensures within { result ≤ length text.now }
{
    text.iter().take_while(|byte| **byte != b' ').count()
}

/// How many bytes stand together at the front of a text: those before the next blank, and all where it begins with a square
/// bracket.
fn word_length(text: &[u8]) -> usize
    ensures value { result ≡ word_length text.now }
    ensures within { result ≤ length text.now }
{
    match text.first() {
        None => 0,
        Some(first) => {
            if *first == b'[' {
                text.len()
            } else {
                blank_after(text)
            }
        }
    }
}

/// Whether a byte behind so many on its line is a blank, and the word behind it would end after the last column.
fn breaks(column: usize, byte: u8, rest: &[u8]) -> bool
    ensures { result ≡ breaks column byte rest.now }
{
    byte == b' ' && word_length(rest) >= COLUMNS.saturating_sub(column)
}

/// Appends a text that goes on behind so many bytes of a line, with line breaks.
fn put_wrapped(out: &mut Vec<u8>, before: usize, text: &[u8]) -> Result<(), NoMemory>
    requires { before ≤ 4 }
    ensures { OnOk result (out.new.items ≡ out.old.items ++ wrapped before text.now) }
{
    let mut column = before;
    for (index, byte) in text.iter().enumerate() {
        if breaks(column, *byte, &text[index + 1..]) {
            out.extend_from_slice(b"\n    ")?;
            column = 4;
        } else {
            out.push(*byte)?;
            column += 1;
        }
    }
    Ok(())
}

/// Appends a sentence in lines of its own, with what stands before it on the first.
#[tactic(auto, unfolding(crate::specs::Lines::sentence))]
fn put_sentence(out: &mut Vec<u8>, lead: &[u8], text: &[u8]) -> Result<(), NoMemory>
    requires { length lead.now ≤ 4 }
    ensures { OnOk result (out.new.items ≡ out.old.items ++ sentence lead.now text.now) }
{
    out.extend_from_slice(lead)?;
    put_wrapped(out, lead.len(), text)?;
    out.extend_from_slice(b"\n")
}

/// Appends a sentence that begins at the line's start.
pub fn put_paragraph(out: &mut Vec<u8>, text: &[u8]) -> Result<(), NoMemory>
    ensures { OnOk result (out.new.items ≡ out.old.items ++ paragraph text.now) }
{
    put_sentence(out, b"", text)
}

/// Appends a sentence that is indented.
pub fn put_step(out: &mut Vec<u8>, text: &[u8]) -> Result<(), NoMemory>
    ensures { OnOk result (out.new.items ≡ out.old.items ++ step text.now) }
{
    put_sentence(out, b"  ", text)
}

/// How many lines end in a text.
pub fn lines(text: &[u8]) -> usize
    ensures { result ≡ lines text.now }
{
    text.iter().filter(|byte| **byte == b'\n').count()
}

/// Appends the first lines of a text.
#[tactic(auto, using(crate::proofs::Capped::none_first))]
fn put_first_lines(out: &mut Vec<u8>, most: usize, text: &[u8]) -> Result<(), NoMemory>
    ensures { OnOk result (out.new.items ≡ out.old.items ++ first_lines most text.now) }
{
    let mut left = most;
    for byte in text {
        if left == 0 {
            return Ok(());
        }
        out.push(*byte)?;
        if *byte == b'\n' {
            left -= 1;
        }
    }
    Ok(())
}

/// Appends how many lines are left out.
#[tactic(auto, unfolding(crate::specs::Lines::left_out))]
fn put_left_out(out: &mut Vec<u8>, count: u64) -> Result<(), NoMemory>
    ensures { OnOk result (out.new.items ≡ out.old.items ++ left_out count) }
{
    out.extend_from_slice(b"  .. and ")?;
    put_natural(out, count)?;
    out.extend_from_slice(b" lines more\n")
}

/// Appends what stands of a sentence for which there is no room.
fn put_begun(out: &mut Vec<u8>, most: usize, room: usize, text: &[u8]) -> Result<(), NoMemory>
    ensures { OnOk result (out.new.items ≡ out.old.items ++ begun most room text.now) }
{
    if lines(text) <= most {
        return Ok(());
    }
    put_first_lines(out, room, text)
}

/// Appends what stands of a sentence where there is room for so many lines, or where one before it had no room.
pub fn put_placed(
    out: &mut Vec<u8>,
    most: usize,
    room: Option<usize>,
    text: &[u8],
) -> Result<(), NoMemory>
    ensures { OnOk result (out.new.items ≡ out.old.items ++ placed most room text.now) }
{
    match room {
        None => Ok(()),
        Some(room) => {
            if lines(text) <= room {
                out.extend_from_slice(text)
            } else {
                put_begun(out, most, room, text)
            }
        }
    }
}

/// The room behind a sentence; none where it had no room.
pub fn room_behind(room: Option<usize>, text: &[u8]) -> Option<usize>
    ensures { result ≡ room_behind room text.now }
{
    match room {
        None => None,
        Some(room) => room.checked_sub(lines(text)),
    }
}

/// Appends a text that stands of one of so many lines, and how many lines are left out.
#[tactic(auto, unfolding(crate::specs::Lines::with_left_out))]
pub fn put_with_left_out(out: &mut Vec<u8>, count: usize, text: &[u8]) -> Result<(), NoMemory>
    ensures { OnOk result (out.new.items ≡ out.old.items ++ with_left_out count text.now) }
{
    out.extend_from_slice(text)?;
    put_left_out(out, count.saturating_sub(lines(text)) as u64)
}

/// Appends a sentence for which there are too few lines: its first ones, and in the last line how many are left out.
pub fn put_cut(alloc: Global, out: &mut Vec<u8>, most: usize, text: &[u8]) -> Result<(), NoMemory>
    ensures { OnOk result (out.new.items ≡ out.old.items ++ cut most (text.now ∷ [])) }
{
    let room = most.saturating_sub(1);
    let mut front = Vec::new(alloc);
    put_placed(&mut front, room, Some(room), text)?;
    put_with_left_out(out, lines(text), &front)
}

/// Appends a sentence in so many lines at most.
pub fn put_capped(
    alloc: Global,
    out: &mut Vec<u8>,
    most: usize,
    text: &[u8],
) -> Result<(), NoMemory>
    ensures { OnOk result (out.new.items ≡ out.old.items ++ capped most (text.now ∷ [])) }
{
    if lines(text) <= most {
        return out.extend_from_slice(text);
    }
    put_cut(alloc, out, most, text)
}
