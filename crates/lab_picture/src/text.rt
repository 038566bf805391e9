//! Texts of a picture. The functions append; on failure, a part of the text may have been appended.

ghost use Rattle.std.specs.Prelude.{◌≡◌, ℕ, ◌+◌, ◌++◌, ◌≤◌, ◌<◌, length, IfOk, OnOk};
ghost use Rattle.std.specs.Fmt.{decimal};
ghost use Rattle.lab_picture.specs.Text.{last_blank, depth_behind, last_outside, first_place, cut, front, back, shown, place_text, text_at, line_at, one_line, two_lines, three_lines, four_lines, in_one, in_two, in_three, in_four};

use itoa::Buffer;
use lab_drawing::put_escaped;
use lab_table::NoMemory;
use std::alloc::Global;

/// Appends a number of pixels in decimal.
pub fn put_pixels(out: &mut Vec<u8>, number: u128) -> Result<(), NoMemory>
    ensures { OnOk result (out.new.items ≡ out.old.items ++ decimal number) }
{
    out.extend_from_slice(Buffer::new().format(number).as_bytes())
}

/// How many bytes stand up to the last blank of a text, and with it.
fn last_blank(text: &[u8]) -> usize
    ensures value { result ≡ last_blank text.now }
    ensures within { result ≤ length text.now }
{
    let mut last = 0;
    for (index, byte) in text.iter().enumerate() {
        if *byte == b' ' {
            last = index + 1;
        }
    }
    last
}

/// How deep in parentheses it is behind a byte.
fn depth_behind(depth: usize, byte: u8) -> usize
    requires { depth < 18446744073709551615 }
    ensures value { result ≡ depth_behind depth byte }
    ensures near { result ≤ depth + 1 }
{
    if byte == b'(' {
        depth + 1
    } else if byte == b')' {
        depth.saturating_sub(1)
    } else {
        depth
    }
}

/// How many bytes stand up to the last blank of a text that is outside parentheses, and with it.
fn last_outside(text: &[u8]) -> usize
    ensures value { result ≡ last_outside text.now }
    ensures within { result ≤ length text.now }
{
    let mut last = 0;
    let mut depth = 0;
    for (index, byte) in text.iter().enumerate() {
        if *byte == b' ' && depth == 0 {
            last = index + 1;
        }
        depth = depth_behind(depth, *byte);
    }
    last
}

/// The first of these that isn't 0; the last where both are.
fn first_place(outside: usize, blank: usize, width: usize) -> usize
    ensures value { result ≡ first_place outside blank width }
    ensures within { (most : ℕ) → outside ≤ most → blank ≤ most → width ≤ most → result ≤ most }
{
    if outside != 0 {
        outside
    } else if blank != 0 {
        blank
    } else {
        width
    }
}

/// Where a text that is longer than a line is cut.
fn cut(width: usize, text: &[u8]) -> usize
    requires { width < length text.now }
    ensures value { result ≡ cut width text.now }
    ensures within { result ≤ length text.now }
{
    let head = &text[..width + 1];
    first_place(last_outside(head), last_blank(head), width)
}

/// A text's first line, and what is left of it.
pub fn divided(width: usize, text: &[u8]) -> (&[u8], &[u8])
    ensures line { result.0.now ≡ front width text.now }
    ensures rest { result.1.now ≡ back width text.now }
{
    if text.len() <= width {
        return (text, &[]);
    }
    text.split_at(cut(width, text))
}

/// Appends a place as attributes.
#[tactic(auto, unfolding(crate::specs::Text::place_text))]
pub fn put_place(out: &mut Vec<u8>, x: u128, y: u128) -> Result<(), NoMemory>
    ensures { OnOk result (out.new.items ≡ out.old.items ++ place_text x y) }
{
    out.extend_from_slice(b" x=\"")?;
    put_pixels(out, x)?;
    out.extend_from_slice(b"\" y=\"")?;
    put_pixels(out, y)?;
    out.extend_from_slice(b"\"")
}

/// Appends a line of text with these attributes.
#[tactic(auto, unfolding(crate::specs::Text::text_at))]
pub fn put_text(
    out: &mut Vec<u8>,
    attributes: &[u8],
    x: u128,
    y: u128,
    text: &[u8],
) -> Result<(), NoMemory>
    ensures { OnOk result (out.new.items ≡ out.old.items ++ text_at attributes.now x y text.now) }
{
    out.extend_from_slice(b"<text")?;
    out.extend_from_slice(attributes)?;
    put_place(out, x, y)?;
    out.extend_from_slice(b">")?;
    put_escaped(out, text)?;
    out.extend_from_slice(b"</text>\n")
}

/// Appends a line of text with these attributes, if it isn't empty.
#[tactic(auto, unfolding(crate::specs::Text::line_at))]
pub fn put_line(
    out: &mut Vec<u8>,
    attributes: &[u8],
    x: u128,
    y: u128,
    text: &[u8],
) -> Result<(), NoMemory>
    ensures { OnOk result (out.new.items ≡ out.old.items ++ line_at attributes.now x y text.now) }
{
    if text.len() == 0 {
        Ok(())
    } else {
        put_text(out, attributes, x, y, text)
    }
}

/// The last of a text's lines, with two dots at its end where the text goes on.
fn shown(alloc: Global, width: usize, text: &[u8]) -> Result<Vec<u8>, NoMemory>
    requires { 3 ≤ width }
    ensures { IfOk result (λ line. line.items ≡ shown width text.now) }
{
    if text.len() <= width {
        return Vec::from_slice(alloc, text);
    }
    let (front, _) = divided(width - 3, text);
    let mut line = Vec::from_slice(alloc, front)?;
    line.extend_from_slice(b"..")?;
    Ok(line)
}

/// Appends a text with these attributes in one line of so many bytes.
#[tactic(auto, unfolding(crate::specs::Text::one_line))]
pub fn put_one_line(
    alloc: Global,
    out: &mut Vec<u8>,
    attributes: &[u8],
    x: u128,
    y: u128,
    width: usize,
    text: &[u8],
) -> Result<(), NoMemory>
    requires { 3 ≤ width }
    ensures { OnOk result (out.new.items ≡ out.old.items ++ one_line attributes.now x y width text.now) }
{
    let line = shown(alloc, width, text)?;
    put_line(out, attributes, x, y, &line)
}

/// Appends a text with these attributes in up to two lines, the second so far below the first.
#[tactic(auto, unfolding(crate::specs::Text::two_lines))]
pub fn put_two_lines(
    alloc: Global,
    out: &mut Vec<u8>,
    attributes: &[u8],
    x: u128,
    y: u128,
    step: u128,
    width: usize,
    text: &[u8],
) -> Result<(), NoMemory>
    requires { (3 ≤ width) × (y ≤ 1200000000000000000000000000000000) × (step ≤ 100) }
    ensures { OnOk result (out.new.items ≡ out.old.items ++ two_lines attributes.now x y step width text.now) }
{
    let (first, rest) = divided(width, text);
    put_line(out, attributes, x, y, first)?;
    put_one_line(alloc, out, attributes, x, y + step, width, rest)
}

/// Appends a text with these attributes in up to three lines.
#[tactic(auto, unfolding(crate::specs::Text::three_lines))]
pub fn put_three_lines(
    alloc: Global,
    out: &mut Vec<u8>,
    attributes: &[u8],
    x: u128,
    y: u128,
    step: u128,
    width: usize,
    text: &[u8],
) -> Result<(), NoMemory>
    requires { (3 ≤ width) × (y ≤ 1100000000000000000000000000000000) × (step ≤ 100) }
    ensures { OnOk result (out.new.items ≡ out.old.items ++ three_lines attributes.now x y step width text.now) }
{
    let (first, rest) = divided(width, text);
    put_line(out, attributes, x, y, first)?;
    put_two_lines(alloc, out, attributes, x, y + step, step, width, rest)
}

/// Appends a text with these attributes in up to four lines.
#[tactic(auto, unfolding(crate::specs::Text::four_lines))]
pub fn put_four_lines(
    alloc: Global,
    out: &mut Vec<u8>,
    attributes: &[u8],
    x: u128,
    y: u128,
    step: u128,
    width: usize,
    text: &[u8],
) -> Result<(), NoMemory>
    requires { (3 ≤ width) × (y ≤ 1000000000000000000000000000000000) × (step ≤ 100) }
    ensures { OnOk result (out.new.items ≡ out.old.items ++ four_lines attributes.now x y step width text.now) }
{
    let (first, rest) = divided(width, text);
    put_line(out, attributes, x, y, first)?;
    put_three_lines(alloc, out, attributes, x, y + step, step, width, rest)
}

/// How many lines a text has in one line: none where it is empty.
pub fn in_one(text: &[u8]) -> u128
    ensures value { result ≡ in_one text.now }
    ensures small { result ≤ 1 }
{
    if text.len() == 0 { 0 } else { 1 }
}

/// How many lines a text has in up to two.
pub fn in_two(width: usize, text: &[u8]) -> u128
    ensures value { result ≡ in_two width text.now }
    ensures small { result ≤ 2 }
{
    let (_, rest) = divided(width, text);
    in_one(text) + in_one(rest)
}

/// How many lines a text has in up to three.
pub fn in_three(width: usize, text: &[u8]) -> u128
    ensures value { result ≡ in_three width text.now }
    ensures small { result ≤ 3 }
{
    let (_, rest) = divided(width, text);
    in_one(text) + in_two(width, rest)
}

/// How many lines a text has in up to four.
pub fn in_four(width: usize, text: &[u8]) -> u128
    ensures value { result ≡ in_four width text.now }
    ensures small { result ≤ 4 }
{
    let (_, rest) = divided(width, text);
    in_one(text) + in_three(width, rest)
}
