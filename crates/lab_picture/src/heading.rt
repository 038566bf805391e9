//! What stands above the columns of a picture, and where.

ghost use Rattle.std.specs.Prelude.{◌≡◌, ◌++◌, ◌≤◌, IfOk, OnOk};
ghost use Rattle.lab_picture.specs.Heading.{title_bytes, line_bytes, more_text, more_lines, far_text, far_lines, marked_lines, about_y, note_y, more_y, far_y, solid_y, dashed_y, sees_y, marked_y, thin_y, beside_y, few_y, few_lines, head_y, title_style, title_lines, notes_text, columns_note, legend_text, heading_text};

use crate::column_notes::{beside_lines, beside_text, thin_lines, thin_text};
use crate::keys::{Key, key_lines};
use crate::layout::MAX_COLUMNS;
use crate::legend::{put_key, put_marked};
use crate::slots::few_note;
use crate::text::{in_four, in_one, in_two, put_four_lines, put_line, put_two_lines};
use lab_drawing::{Arrow, Drawing, Spot, put_number};
use lab_table::NoMemory;
use std::alloc::Global;

/// How many bytes a line of the title has over so many columns.
fn title_bytes(columns: usize) -> usize
    ensures value { result ≡ title_bytes columns }
    ensures some { 3 ≤ result }
{
    if columns > 2 { 96 } else { 59 }
}

/// How many bytes a line of other text has.
fn line_bytes(columns: usize) -> usize
    ensures value { result ≡ line_bytes columns }
    ensures some { 3 ≤ result }
{
    if columns > 2 { 122 } else { 76 }
}

/// How many transactions are drawn, where that isn't all.
fn more_text(alloc: Global, columns: usize) -> Result<Vec<u8>, NoMemory>
    ensures { IfOk result (λ text. text.items ≡ more_text columns) }
{
    let mut text = Vec::new(alloc);
    if columns > MAX_COLUMNS {
        text.extend_from_slice(b"40 of ")?;
        put_number(&mut text, columns as u64)?;
        text.extend_from_slice(b" transactions are drawn, without the arrows to the others")?;
    }
    Ok(text)
}

/// How many lines that has.
fn more_lines(columns: usize) -> u128
    ensures value { result ≡ more_lines columns }
    ensures small { result ≤ 1 }
{
    if columns > MAX_COLUMNS { 1 } else { 0 }
}

/// That arrows are left out, where there are those of a yes over more than one band.
fn far_text(columns: usize, forward: &[Arrow]) -> &'static [u8]
    ensures { result.now ≡ far_text columns forward.now }
{
    match forward.split_first() {
        None => b"",
        Some(_) => {
            if columns > 3 {
                b"dependencies between transactions further apart aren't drawn"
            } else {
                b""
            }
        }
    }
}

/// How many lines that has.
fn far_lines(columns: usize, forward: &[Arrow]) -> u128
    ensures value { result ≡ far_lines columns forward.now }
    ensures small { result ≤ 1 }
{
    match forward.split_first() {
        None => 0,
        Some(_) => { if columns > 3 { 1 } else { 0 } }
    }
}

/// How many lines tell of a marked operation.
fn marked_lines(marked: &Option<Spot>) -> u128
    ensures value { result ≡ marked_lines marked.now }
    ensures small { result ≤ 1 }
{
    match marked {
        None => 0,
        Some(_) => 1,
    }
}

/// The ground line of the report's line.
fn about_y(drawing: &Drawing) -> u128
    ensures value { result ≡ about_y drawing.now }
    ensures small { result ≤ 66 }
{
    30 + 18 * in_two(title_bytes(drawing.columns.len()), &drawing.title)
}

/// That of the note.
fn note_y(drawing: &Drawing) -> u128
    ensures value { result ≡ note_y drawing.now }
    ensures small { result ≤ 122 }
{
    about_y(drawing) + 14 * in_four(line_bytes(drawing.columns.len()), &drawing.about)
}

/// That of how many transactions are drawn.
fn more_y(drawing: &Drawing) -> u128
    ensures value { result ≡ more_y drawing.now }
    ensures small { result ≤ 136 }
{
    note_y(drawing) + 14 * in_one(&drawing.note)
}

/// That of which arrows aren't.
fn far_y(drawing: &Drawing) -> u128
    ensures value { result ≡ far_y drawing.now }
    ensures small { result ≤ 150 }
    ensures low { 4 ≤ result }
{
    more_y(drawing) + 14 * more_lines(drawing.columns.len())
}

/// That of the key of solid arrows.
fn solid_y(drawing: &Drawing) -> u128
    ensures value { result ≡ solid_y drawing.now }
    ensures small { result ≤ 164 }
    ensures low { 4 ≤ result }
{
    far_y(drawing) + 14 * far_lines(drawing.columns.len(), &drawing.forward)
}

/// That of the key of dashed arrows.
fn dashed_y(drawing: &Drawing) -> u128
    ensures value { result ≡ dashed_y drawing.now }
    ensures small { result ≤ 178 }
{
    solid_y(drawing) + 14 * key_lines(Key::Solid, drawing)
}

/// That of the key of arrows to who sees a version.
fn sees_y(drawing: &Drawing) -> u128
    ensures value { result ≡ sees_y drawing.now }
    ensures small { result ≤ 192 }
{
    dashed_y(drawing) + 14 * key_lines(Key::Dashed, drawing)
}

/// That of what a thick edge says.
fn marked_y(drawing: &Drawing) -> u128
    ensures value { result ≡ marked_y drawing.now }
    ensures small { result ≤ 206 }
{
    sees_y(drawing) + 14 * key_lines(Key::Sees, drawing)
}

/// That of what a thin column says.
fn thin_y(drawing: &Drawing) -> u128
    ensures value { result ≡ thin_y drawing.now }
    ensures small { result ≤ 220 }
{
    marked_y(drawing) + 14 * marked_lines(&drawing.marked)
}

/// That of what boxes side by side say.
fn beside_y(drawing: &Drawing) -> u128
    ensures value { result ≡ beside_y drawing.now }
    ensures small { result ≤ 234 }
{
    thin_y(drawing) + 14 * thin_lines(drawing)
}

/// That of which operations are drawn.
fn few_y(drawing: &Drawing) -> u128
    ensures value { result ≡ few_y drawing.now }
    ensures small { result ≤ 248 }
{
    beside_y(drawing) + 14 * beside_lines(drawing.columns.len())
}

/// How many lines tell that few operations are drawn.
fn few_lines(few: bool) -> u128
    ensures value { result ≡ few_lines few }
    ensures small { result ≤ 1 }
{
    if few { 1 } else { 0 }
}

/// The ground line of what stands above the columns of the first band.
pub fn head_y(few: bool, drawing: &Drawing) -> u128
    ensures value { result ≡ head_y few drawing.now }
    ensures small { result ≤ 276 }
{
    few_y(drawing) + 14 * few_lines(few) + 14
}

/// The attributes of the title.
fn title_style() -> &'static [u8]
    ensures { result.now ≡ title_style }
{
    b" font-size=\"14\" font-weight=\"bold\""
}

/// Appends the title, and the line of the report.
#[tactic(auto, unfolding(crate::specs::Heading::title_lines))]
fn put_title_lines(alloc: Global, out: &mut Vec<u8>, drawing: &Drawing) -> Result<(), NoMemory>
    ensures { OnOk result (out.new.items ≡ out.old.items ++ title_lines drawing.now) }
{
    let columns = drawing.columns.len();
    put_two_lines(
        alloc,
        out,
        title_style(),
        26,
        30,
        18,
        title_bytes(columns),
        &drawing.title,
    )?;
    let y = about_y(drawing);
    put_four_lines(
        alloc,
        out,
        b"",
        26,
        y,
        14,
        line_bytes(columns),
        &drawing.about,
    )
}

/// Appends the note, how many transactions are drawn, and which arrows aren't.
#[tactic(auto, unfolding(crate::specs::Heading::notes_text))]
fn put_notes(alloc: Global, out: &mut Vec<u8>, drawing: &Drawing) -> Result<(), NoMemory>
    ensures { OnOk result (out.new.items ≡ out.old.items ++ notes_text drawing.now) }
{
    let more = more_text(alloc, drawing.columns.len())?;
    put_line(out, b"", 26, note_y(drawing), &drawing.note)?;
    put_line(out, b"", 26, more_y(drawing), &more)?;
    let far = far_text(drawing.columns.len(), &drawing.forward);
    put_line(out, b"", 26, far_y(drawing), far)
}

/// Appends what thin columns and boxes side by side say, and which operations are drawn.
#[tactic(auto, unfolding(crate::specs::Heading::columns_note))]
fn put_columns_note(out: &mut Vec<u8>, few: bool, drawing: &Drawing) -> Result<(), NoMemory>
    ensures { OnOk result (out.new.items ≡ out.old.items ++ columns_note few drawing.now) }
{
    put_line(out, b"", 26, thin_y(drawing), thin_text(drawing))?;
    let beside = beside_text(drawing.columns.len());
    put_line(out, b"", 26, beside_y(drawing), beside)?;
    put_line(out, b"", 26, few_y(drawing), few_note(few))
}

/// Appends the keys of the arrows that a drawing has.
#[tactic(auto, unfolding(crate::specs::Heading::legend_text))]
fn put_legend(out: &mut Vec<u8>, drawing: &Drawing) -> Result<(), NoMemory>
    ensures { OnOk result (out.new.items ≡ out.old.items ++ legend_text drawing.now) }
{
    put_key(out, solid_y(drawing), Key::Solid, drawing)?;
    put_key(out, dashed_y(drawing), Key::Dashed, drawing)?;
    put_key(out, sees_y(drawing), Key::Sees, drawing)
}

/// Appends all that stands above the columns.
#[tactic(auto, unfolding(crate::specs::Heading::heading_text))]
pub fn put_heading(
    alloc: Global,
    out: &mut Vec<u8>,
    few: bool,
    drawing: &Drawing,
) -> Result<(), NoMemory>
    ensures { OnOk result (out.new.items ≡ out.old.items ++ heading_text few drawing.now) }
{
    put_title_lines(alloc, out, drawing)?;
    put_notes(alloc, out, drawing)?;
    put_legend(out, drawing)?;
    put_marked(out, marked_y(drawing), &drawing.marked)?;
    put_columns_note(out, few, drawing)
}
