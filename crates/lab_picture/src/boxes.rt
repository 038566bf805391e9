//! The box of an operation.

ghost use Rattle.std.specs.Prelude.{◌≡◌, ◌++◌, ◌≤◌, IfOk, OnOk};
ghost use Rattle.lab_printing.specs.Printed.{printed_statement};
ghost use Rattle.lab_picture.specs.Boxes.{fits, telling, lines_of, box_lines, whole_text, stroke_text, edge_style, edge_text, rest_lines, effect_lines, inner_text, box_text};

use crate::effect::effect_text;
use crate::kept::{kept_text, tells_named};
use crate::layout::{BOX_BYTES, Stroke};
use crate::lines::{count_lines, put_all_lines};
use crate::size::put_size;
use crate::text::{in_four, in_three, put_one_line, put_place, put_three_lines, put_two_lines};
use lab_drawing::put_escaped;
use lab_history::Op;
use lab_printing::put_statement;
use lab_table::{NoMemory, RowName};
use std::alloc::Global;
use std::marker::Model;

/// What a box tells.
#[derive(Drop)]
pub struct BoxText {
    statement: Vec<u8>,
    /// What the statement did.
    effect: Vec<u8>,
    /// Whether that is cut where there is no more room.
    is_cut: bool,
    /// What stands of it, where it isn't cut.
    shown: Vec<u8>,
}

impl Model for BoxText {
    ghost use Rattle.lab_picture.specs.Boxes.{Telling};

    ghost Value = { Telling };

    ghost view = { λ t. record { statement = t.statement.items; effect = t.effect.items; is_cut = t.is_cut; shown = t.shown.items } };
}

/// The text of an operation's statement.
fn statement_text(alloc: Global, op: &Op) -> Result<Vec<u8>, NoMemory>
    ensures { IfOk result (λ text. text.items ≡ printed_statement op.now.statement) }
{
    let mut text = Vec::new(alloc);
    put_statement(&mut text, &op.statement)?;
    Ok(text)
}

/// Whether a statement and what it did have four lines at most.
fn fits(statement: &[u8], effect: &[u8]) -> bool
    ensures { result ≡ fits statement.now effect.now }
{
    in_three(BOX_BYTES, statement) + in_four(BOX_BYTES, effect) <= 4
}

/// What a box tells of an operation where these rows are named.
pub fn telling(alloc: Global, named: &[RowName], op: &Op) -> Result<BoxText, NoMemory>
    ensures { IfOk result (λ told. told ≡ telling named.now op.now) }
{
    let statement = statement_text(alloc, op)?;
    let effect = effect_text(alloc, op)?;
    if fits(&statement, &effect) {
        let shown = Vec::from_slice(alloc, &effect)?;
        Ok(BoxText {
            statement,
            effect,
            is_cut: false,
            shown,
        })
    } else if tells_named(named, op) {
        let shown = kept_text(alloc, named, op)?;
        Ok(BoxText {
            statement,
            effect,
            is_cut: false,
            shown,
        })
    } else {
        Ok(BoxText {
            statement,
            effect,
            is_cut: true,
            shown: Vec::new(alloc),
        })
    }
}

/// How many lines that has, where no more are shown than there is room for.
fn lines_of(told: &BoxText) -> u64
    ensures { result ≡ lines_of told.now }
{
    if told.is_cut {
        4
    } else {
        in_three(BOX_BYTES, &told.statement) as u64 + count_lines(BOX_BYTES, &told.shown)
    }
}

/// How many lines an operation's box needs where these rows are named.
#[tactic(auto, unfolding(crate::specs::Boxes::box_lines))]
pub fn lines_in_box(alloc: Global, named: &[RowName], op: &Op) -> Result<u64, NoMemory>
    ensures { IfOk result (λ lines. lines ≡ box_lines named.now op.now) }
{
    if named.len() == 0 {
        return Ok(4);
    }
    let told = telling(alloc, named, op)?;
    Ok(lines_of(&told))
}

/// Appends the edge of a box.
#[tactic(auto, unfolding(crate::specs::Boxes::stroke_text))]
fn put_stroke(out: &mut Vec<u8>, stroke: Stroke) -> Result<(), NoMemory>
    ensures { OnOk result (out.new.items ≡ out.old.items ++ stroke_text stroke) }
{
    match stroke {
        Stroke::Plain => out.extend_from_slice(b" fill=\"white\" stroke=\"black\"/>\n"),
        Stroke::Thick => out.extend_from_slice(
            b" fill=\"white\" stroke=\"black\" stroke-width=\"4\"/>\n",
        ),
        Stroke::Thin => out.extend_from_slice(
            b" fill=\"white\" stroke=\"black\" stroke-width=\"0.5\"/>\n",
        ),
    }
}

/// Appends a box's size and edge.
#[tactic(auto, unfolding(crate::specs::Boxes::edge_style))]
fn put_edge_style(out: &mut Vec<u8>, height: u128, stroke: Stroke) -> Result<(), NoMemory>
    ensures { OnOk result (out.new.items ≡ out.old.items ++ edge_style height stroke) }
{
    put_size(out, 196, height)?;
    put_stroke(out, stroke)
}

/// Appends a box without its text.
#[tactic(auto, unfolding(crate::specs::Boxes::edge_text))]
fn put_edge(
    out: &mut Vec<u8>,
    x: u128,
    y: u128,
    height: u128,
    stroke: Stroke,
    class: &[u8],
) -> Result<(), NoMemory>
    ensures { OnOk result (out.new.items ≡ out.old.items ++ edge_text x y height stroke class.now) }
{
    out.extend_from_slice(b"<rect")?;
    out.extend_from_slice(class)?;
    put_place(out, x, y)?;
    put_edge_style(out, height, stroke)
}

/// Appends what an operation did in the lines that a statement of so many lines leaves of four.
#[tactic(auto, unfolding(crate::specs::Boxes::rest_lines))]
fn put_rest(
    alloc: Global,
    out: &mut Vec<u8>,
    x: u128,
    y: u128,
    used: u128,
    effect: &[u8],
) -> Result<(), NoMemory>
    requires { y ≤ 700000000000000000000000000000000 }
    ensures { OnOk result (out.new.items ≡ out.old.items ++ rest_lines x y used effect.now) }
{
    if used == 1 {
        put_three_lines(alloc, out, b"", x, y, 13, BOX_BYTES, effect)
    } else if used == 2 {
        put_two_lines(alloc, out, b"", x, y, 13, BOX_BYTES, effect)
    } else {
        put_one_line(alloc, out, b"", x, y, BOX_BYTES, effect)
    }
}

/// Appends what an operation did, below its statement.
#[tactic(auto, unfolding(crate::specs::Boxes::effect_lines))]
fn put_effect(
    alloc: Global,
    out: &mut Vec<u8>,
    x: u128,
    y: u128,
    told: &BoxText,
) -> Result<(), NoMemory>
    requires { y ≤ 700000000000000000000000000000000 }
    ensures { OnOk result (out.new.items ≡ out.old.items ++ effect_lines x y told.now) }
{
    if told.is_cut {
        let used = in_three(BOX_BYTES, &told.statement);
        put_rest(alloc, out, x, y, used, &told.effect)
    } else {
        put_all_lines(out, x, y, BOX_BYTES, &told.shown)
    }
}

/// Appends a statement in up to three lines, and below it what it did.
#[tactic(auto, unfolding(crate::specs::Boxes::inner_text))]
fn put_inner(
    alloc: Global,
    out: &mut Vec<u8>,
    x: u128,
    y: u128,
    told: &BoxText,
) -> Result<(), NoMemory>
    requires { y ≤ 600000000000000000000000000000000 }
    ensures { OnOk result (out.new.items ≡ out.old.items ++ inner_text x y told.now) }
{
    put_three_lines(alloc, out, b"", x, y, 13, BOX_BYTES, &told.statement)?;
    let used = in_three(BOX_BYTES, &told.statement);
    put_effect(alloc, out, x, y + 13 * used, told)
}

/// Appends a statement and what it did as a title.
fn put_whole(out: &mut Vec<u8>, statement: &[u8], effect: &[u8]) -> Result<(), NoMemory>
    ensures { OnOk result (out.new.items ≡ out.old.items ++ whole_text statement.now effect.now) }
{
    out.extend_from_slice(b"<g><title>")?;
    put_escaped(out, statement)?;
    out.extend_from_slice(b" ")?;
    put_escaped(out, effect)?;
    out.extend_from_slice(b"</title>\n")
}

/// Appends a box of this height, and in it its text; the whole text is its title.
#[tactic(auto, unfolding(crate::specs::Boxes::box_text))]
pub fn put_box(
    alloc: Global,
    out: &mut Vec<u8>,
    x: u128,
    y: u128,
    height: u128,
    stroke: Stroke,
    class: &[u8],
    told: &BoxText,
) -> Result<(), NoMemory>
    requires { (x ≤ 1000) × (y ≤ 500000000000000000000000000000000) }
    ensures { OnOk result (out.new.items ≡ out.old.items ++ box_text x y height stroke class.now told.now) }
{
    put_whole(out, &told.statement, &told.effect)?;
    put_edge(out, x, y, height, stroke, class)?;
    put_inner(alloc, out, x + 5, y + 14, told)?;
    out.extend_from_slice(b"</g>\n")
}
