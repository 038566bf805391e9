//! The SVG text of a drawing.

ghost use Rattle.std.specs.Prelude.{◌≡◌, ◌++◌, ◌≤◌, IfOk, OnOk};
ghost use Rattle.lab_picture.specs.Svg.{numbers_text, view_text, svg_text, letters_text, open_text, told_title, told_line, told_text, marker_text, ground_text, head_text, arrows_drawn, drawn_columns, placed, drawn_arrows, values_y, whole_height, body_text, svg_with, svg_of, goes_below, frame_of};

use crate::arrows::{has_round, put_forward};
use crate::columns::{put_columns, shown_columns};
use crate::growth::extra_lines;
use crate::heading::{head_y, put_heading};
use crate::layout::{Frame, height, width};
use crate::named::drawn;
use crate::size::put_size;
use crate::slots::{all_slotted, is_few, most_drawn};
use crate::steps::put_steps;
use crate::text::put_pixels;
use crate::values::{put_values, value_lines};
use lab_drawing::{Arrow, Drawing, put_escaped};
use lab_history::History;
use lab_table::NoMemory;
use std::alloc::Global;

/// Appends two numbers as the end of an attribute.
#[tactic(auto, unfolding(crate::specs::Svg::numbers_text))]
fn put_numbers(out: &mut Vec<u8>, a: u128, b: u128) -> Result<(), NoMemory>
    ensures { OnOk result (out.new.items ≡ out.old.items ++ numbers_text a b) }
{
    put_pixels(out, a)?;
    out.extend_from_slice(b" ")?;
    put_pixels(out, b)?;
    out.extend_from_slice(b"\"")
}

/// Appends that all of the ground is shown.
fn put_view(out: &mut Vec<u8>, width: u128, height: u128) -> Result<(), NoMemory>
    ensures { OnOk result (out.new.items ≡ out.old.items ++ view_text width height) }
{
    out.extend_from_slice(b" viewBox=\"0 0 ")?;
    put_numbers(out, width, height)
}

#[tactic(auto, unfolding(crate::specs::Svg::svg_text))]
fn put_svg(out: &mut Vec<u8>) -> Result<(), NoMemory>
    ensures { OnOk result (out.new.items ≡ out.old.items ++ svg_text) }
{
    out.extend_from_slice(b"<svg xmlns=\"http://www.w3.org/2000/svg\" role=\"img\"")
}

#[tactic(auto, unfolding(crate::specs::Svg::letters_text))]
fn put_letters(out: &mut Vec<u8>) -> Result<(), NoMemory>
    ensures { OnOk result (out.new.items ≡ out.old.items ++ letters_text) }
{
    out.extend_from_slice(b" font-family=\"monospace\" font-size=\"11\">\n")
}

/// Appends what opens a picture of this size.
#[tactic(auto, unfolding(crate::specs::Svg::open_text))]
fn put_open(out: &mut Vec<u8>, width: u128, height: u128) -> Result<(), NoMemory>
    ensures { OnOk result (out.new.items ≡ out.old.items ++ open_text width height) }
{
    put_svg(out)?;
    put_size(out, width, height)?;
    put_view(out, width, height)?;
    put_letters(out)
}

/// Appends the title that a reader of screens reads out.
#[tactic(auto, unfolding(crate::specs::Svg::told_title))]
fn put_told_title(out: &mut Vec<u8>, title: &[u8]) -> Result<(), NoMemory>
    ensures { OnOk result (out.new.items ≡ out.old.items ++ told_title title.now) }
{
    out.extend_from_slice(b"<title>")?;
    put_escaped(out, title)?;
    out.extend_from_slice(b"</title>\n")
}

/// Appends the line that it reads out.
#[tactic(auto, unfolding(crate::specs::Svg::told_line))]
fn put_told_line(out: &mut Vec<u8>, about: &[u8]) -> Result<(), NoMemory>
    ensures { OnOk result (out.new.items ≡ out.old.items ++ told_line about.now) }
{
    out.extend_from_slice(b"<desc>")?;
    put_escaped(out, about)?;
    out.extend_from_slice(b"</desc>\n")
}

/// Appends both.
#[tactic(auto, unfolding(crate::specs::Svg::told_text))]
fn put_told(out: &mut Vec<u8>, title: &[u8], about: &[u8]) -> Result<(), NoMemory>
    ensures { OnOk result (out.new.items ≡ out.old.items ++ told_text title.now about.now) }
{
    put_told_title(out, title)?;
    put_told_line(out, about)
}

/// Appends the head of arrows.
#[tactic(auto, unfolding(crate::specs::Svg::marker_text))]
fn put_marker(out: &mut Vec<u8>) -> Result<(), NoMemory>
    ensures { OnOk result (out.new.items ≡ out.old.items ++ marker_text) }
{
    out.extend_from_slice(
        b"<defs><marker id=\"p-head\" viewBox=\"0 0 8 8\" refX=\"8\" refY=\"4\" markerWidth=\"9\" markerHeight=\"9\" markerUnits=\"userSpaceOnUse\" orient=\"auto\"><path d=\"M0 0L8 4L0 8z\"/></marker></defs>\n",
    )
}

/// Appends a white ground.
#[tactic(auto, unfolding(crate::specs::Svg::ground_text))]
fn put_ground(out: &mut Vec<u8>, width: u128, height: u128) -> Result<(), NoMemory>
    ensures { OnOk result (out.new.items ≡ out.old.items ++ ground_text width height) }
{
    out.extend_from_slice(b"<rect")?;
    put_size(out, width, height)?;
    out.extend_from_slice(b" fill=\"white\"/>\n")
}

/// Appends what a picture of this size begins with.
#[tactic(auto, unfolding(crate::specs::Svg::head_text))]
fn put_head(out: &mut Vec<u8>, width: u128, height: u128, drawing: &Drawing) -> Result<(), NoMemory>
    ensures { OnOk result (out.new.items ≡ out.old.items ++ head_text width height drawing.now) }
{
    put_open(out, width, height)?;
    put_told(out, &drawing.title, &drawing.about)?;
    put_marker(out)?;
    put_ground(out, width, height)
}

/// The arrows of a drawing that are drawn, those of a yes too.
fn arrows_drawn(alloc: Global, drawing: &Drawing) -> Result<Vec<Arrow>, NoMemory>
    ensures { IfOk result (λ arrows. arrows.items ≡ arrows_drawn drawing.now) }
{
    let columns = shown_columns(&drawing.columns);
    drawn(alloc, columns, &drawing.arrows, &drawing.forward)
}

/// Appends the columns that are drawn.
#[tactic(auto, unfolding(crate::specs::Svg::drawn_columns))]
fn put_drawn_columns(
    alloc: Global,
    out: &mut Vec<u8>,
    history: &History,
    frame: Frame,
    drawing: &Drawing,
) -> Result<(), NoMemory>
    ensures { OnOk result (out.new.items ≡ out.old.items ++ drawn_columns history.now frame drawing.now) }
{
    let arrows = arrows_drawn(alloc, drawing)?;
    let columns = shown_columns(&drawing.columns);
    put_columns(alloc, out, history, frame, &arrows, drawing, columns)
}

/// Arrows of a drawing with the places of their ends for their numbers.
fn placed(
    alloc: Global,
    frame: Frame,
    drawing: &Drawing,
    arrows: &[Arrow],
) -> Result<Vec<Arrow>, NoMemory>
    ensures { IfOk result (λ found. found.items ≡ placed frame drawing.now arrows.now) }
{
    let drawn = arrows_drawn(alloc, drawing)?;
    all_slotted(alloc, frame.few, &drawn, &drawing.marked, arrows)
}

/// Appends the arrows between them: those of steps, and thin those of a yes.
#[tactic(auto, unfolding(crate::specs::Svg::drawn_arrows))]
fn put_drawn_arrows(
    alloc: Global,
    out: &mut Vec<u8>,
    frame: Frame,
    drawing: &Drawing,
) -> Result<(), NoMemory>
    ensures { OnOk result (out.new.items ≡ out.old.items ++ drawn_arrows frame drawing.now) }
{
    let steps = placed(alloc, frame, drawing, &drawing.arrows)?;
    let forward = placed(alloc, frame, drawing, &drawing.forward)?;
    let columns = shown_columns(&drawing.columns);
    put_steps(alloc, out, frame, columns, &steps)?;
    put_forward(alloc, out, frame, columns, &forward)
}

/// Whether an arrow of a drawing goes below the boxes.
fn goes_below(drawing: &Drawing) -> bool
    ensures { result ≡ goes_below drawing.now }
{
    let columns = shown_columns(&drawing.columns);
    has_round(columns, &drawing.arrows) || has_round(columns, &drawing.forward)
}

/// The frame of a drawing.
fn frame_of(alloc: Global, history: &History, drawing: &Drawing) -> Result<Frame, NoMemory>
    ensures { IfOk result (λ frame. frame ≡ frame_of history.now drawing.now) }
{
    let arrows = arrows_drawn(alloc, drawing)?;
    let columns = shown_columns(&drawing.columns);
    let extra = extra_lines(alloc, history, &arrows, columns)?;
    let few = is_few(history, drawing);
    Ok(Frame {
        head: head_y(few, drawing) as u16,
        most: most_drawn(history, few, &arrows, &drawing.marked, columns),
        round: goes_below(drawing),
        extra,
        few,
    })
}

/// The ground line of the first line of values.
fn values_y(frame: Frame, drawing: &Drawing) -> u128
    ensures value { result ≡ values_y frame drawing.now }
    ensures small { result ≤ 200000000000000000000000000000000 }
{
    height(frame, shown_columns(&drawing.columns).len())
}

/// How high a picture is.
fn whole_height(frame: Frame, drawing: &Drawing) -> u128
    ensures { result ≡ whole_height frame drawing.now }
{
    values_y(frame, drawing) + 14 * value_lines(&drawing.rows)
}

/// Appends what stands below the heading: the columns, the arrows and the values.
#[tactic(auto, unfolding(crate::specs::Svg::body_text))]
fn put_body(
    alloc: Global,
    out: &mut Vec<u8>,
    history: &History,
    frame: Frame,
    drawing: &Drawing,
) -> Result<(), NoMemory>
    ensures { OnOk result (out.new.items ≡ out.old.items ++ body_text history.now frame drawing.now) }
{
    put_drawn_columns(alloc, out, history, frame, drawing)?;
    put_drawn_arrows(alloc, out, frame, drawing)?;
    let y = values_y(frame, drawing);
    put_values(alloc, out, history, y, &drawing.rows)
}

/// Appends the text of a drawing in a frame.
#[tactic(auto, unfolding(crate::specs::Svg::svg_with))]
fn put_drawing(
    alloc: Global,
    out: &mut Vec<u8>,
    history: &History,
    frame: Frame,
    drawing: &Drawing,
) -> Result<(), NoMemory>
    ensures { OnOk result (out.new.items ≡ out.old.items ++ svg_with history.now frame drawing.now) }
{
    let wide = width(drawing.columns.len());
    put_head(out, wide, whole_height(frame, drawing), drawing)?;
    put_heading(alloc, out, frame.few, drawing)?;
    put_body(alloc, out, history, frame, drawing)?;
    out.extend_from_slice(b"</svg>\n")
}

/// Returns the SVG text of a drawing.
pub fn print_drawing(
    alloc: Global,
    history: &History,
    drawing: &Drawing,
) -> Result<Vec<u8>, NoMemory>
    ensures { IfOk result (λ text. text.items ≡ svg_of history.now drawing.now) }
{
    let mut out = Vec::new(alloc);
    let frame = frame_of(alloc, history, drawing)?;
    put_drawing(alloc, &mut out, history, frame, drawing)?;
    Ok(out)
}
