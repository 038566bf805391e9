//! The arrows of a picture.

ghost use Rattle.std.specs.Prelude.{◌≡◌, ◌++◌, ◌≤◌, ◌<◌, length, flat_map, IfOk, IfSome, OnOk};
ghost use Rattle.lab_picture.specs.Arrows.{column_of, tie_name, label_of, label_style, label_text, narrow_label, narrow_text, path_text, straight_text, round_text, route_text, classed_text, arrow_text, forward_text, is_round, has_round};

use crate::layout::{Corner, Frame, GAP_BYTES, aside, entry_of, exit_of, is_next, lane};
use crate::route::{put_round_path, put_straight_path, put_style};
use crate::text::{in_four, put_four_lines, put_text};
use lab_drawing::{Arrow, Tie, is_dashed};
use lab_judge::kind_name;
use lab_printing::put_row_name;
use lab_table::{NoMemory, TxnNo};
use std::alloc::Global;

/// The column of a transaction, if it has one.
pub fn column_of(columns: &[TxnNo], txn: TxnNo) -> Option<usize>
    ensures value { result ≡ column_of 0 txn columns.now }
    ensures within { IfSome result (λ column. column < length columns.now) }
{
    for (column, other) in columns.iter().enumerate() {
        if *other == txn {
            return Some(column);
        }
    }
    None
}

/// The name of what ties two operations.
fn tie_name(tie: Tie) -> &'static str
    ensures { result.now ≡ tie_name tie }
{
    match tie {
        Tie::Dependency(kind) => kind_name(kind),
        Tie::Version => "sees",
    }
}

/// What stands at an arrow.
fn label_of(alloc: Global, arrow: &Arrow) -> Result<Vec<u8>, NoMemory>
    ensures { IfOk result (λ label. label.items ≡ label_of arrow.now) }
{
    let mut label = Vec::from_slice(alloc, tie_name(arrow.tie).as_bytes())?;
    label.extend_from_slice(b"(")?;
    put_row_name(&mut label, arrow.row)?;
    label.extend_from_slice(b")")?;
    Ok(label)
}

/// The attributes of labels: in the middle of their place, on a white ground.
fn label_style() -> &'static [u8]
    ensures { result.now ≡ label_style }
{
    b" text-anchor=\"middle\" paint-order=\"stroke\" stroke=\"white\" stroke-width=\"3\""
}

/// Appends a label at a place.
#[tactic(auto, unfolding(crate::specs::Arrows::label_text))]
fn put_label(
    alloc: Global,
    out: &mut Vec<u8>,
    x: u128,
    y: u128,
    arrow: &Arrow,
) -> Result<(), NoMemory>
    ensures { OnOk result (out.new.items ≡ out.old.items ++ label_text x y arrow.now) }
{
    let label = label_of(alloc, arrow)?;
    put_text(out, label_style(), x, y, &label)
}

/// Appends a label at a place between two columns, in lines that have room there, the last of them at that place.
#[tactic(auto, unfolding(crate::specs::Arrows::narrow_label))]
fn put_narrow_label(
    alloc: Global,
    out: &mut Vec<u8>,
    x: u128,
    y: u128,
    label: &[u8],
) -> Result<(), NoMemory>
    requires { y ≤ 500000000000000000000000000000000 }
    ensures { OnOk result (out.new.items ≡ out.old.items ++ narrow_label x y label.now) }
{
    let above = 13 * in_four(GAP_BYTES, label);
    let y = (y + 13).saturating_sub(above);
    put_four_lines(alloc, out, label_style(), x, y, 13, GAP_BYTES, label)
}

/// Appends the label of an arrow there.
#[tactic(auto, unfolding(crate::specs::Arrows::narrow_text))]
fn put_narrow(
    alloc: Global,
    out: &mut Vec<u8>,
    x: u128,
    y: u128,
    arrow: &Arrow,
) -> Result<(), NoMemory>
    requires { y ≤ 500000000000000000000000000000000 }
    ensures { OnOk result (out.new.items ≡ out.old.items ++ narrow_text x y arrow.now) }
{
    let label = label_of(alloc, arrow)?;
    put_narrow_label(alloc, out, x, y, &label)
}

/// Appends what opens an arrow that has a class.
#[tactic(auto, unfolding(crate::specs::Arrows::path_text))]
fn put_path(out: &mut Vec<u8>, class: &[u8]) -> Result<(), NoMemory>
    ensures { OnOk result (out.new.items ≡ out.old.items ++ path_text class.now) }
{
    out.extend_from_slice(b"<path")?;
    out.extend_from_slice(class)
}

/// Appends the rest of an arrow from one column to the next, with its label above its higher end.
#[tactic(auto, unfolding(crate::specs::Arrows::straight_text))]
fn put_straight(
    alloc: Global,
    out: &mut Vec<u8>,
    thin: bool,
    arrow: &Arrow,
    from: Corner,
    to: Corner,
) -> Result<(), NoMemory>
    requires { (from.x ≤ 1000) × (from.y ≤ 400000000000000000000000000000000) × (to.y ≤ 400000000000000000000000000000000) }
    ensures { OnOk result (out.new.items ≡ out.old.items ++ straight_text thin arrow.now from to) }
{
    out.extend_from_slice(b" d=\"")?;
    put_straight_path(out, from, to)?;
    put_style(out, thin, is_dashed(arrow.tie))?;
    let y = from.y.min(to.y);
    put_narrow(alloc, out, from.x + 56, y.saturating_sub(5), arrow)
}

/// Appends that of an arrow that goes below the boxes, with its label above its way there.
#[tactic(auto, unfolding(crate::specs::Arrows::round_text))]
fn put_round(
    alloc: Global,
    out: &mut Vec<u8>,
    thin: bool,
    arrow: &Arrow,
    from: Corner,
    lane: u128,
    aside: u128,
    to: Corner,
) -> Result<(), NoMemory>
    requires { (from.x ≤ 1000) × (to.x ≤ 1000) × (aside ≤ to.x) }
    ensures { OnOk result (out.new.items ≡ out.old.items ++ round_text thin arrow.now from lane aside to) }
{
    out.extend_from_slice(b" d=\"")?;
    put_round_path(out, from, lane, aside, to)?;
    put_style(out, thin, is_dashed(arrow.tie))?;
    let x = (from.x + to.x) / 2;
    put_label(alloc, out, x, lane.saturating_sub(4), arrow)
}

/// Appends that of an arrow from one column to another.
fn put_route(
    alloc: Global,
    out: &mut Vec<u8>,
    frame: Frame,
    thin: bool,
    arrow: &Arrow,
    from: usize,
    to: usize,
) -> Result<(), NoMemory>
    requires { (from ≤ 40) × (to ≤ 40) }
    ensures { OnOk result (out.new.items ≡ out.old.items ++ route_text frame thin arrow.now from to) }
{
    let exit = exit_of(frame, from, arrow.from.op);
    let entry = entry_of(frame, to, arrow.to.op);
    if is_next(from, to) {
        put_straight(alloc, out, thin, arrow, exit, entry)
    } else {
        let lane = lane(frame, from, to);
        put_round(alloc, out, thin, arrow, exit, lane, aside(from, to), entry)
    }
}

/// Appends an arrow with this class from one column to another.
#[tactic(auto, unfolding(crate::specs::Arrows::classed_text))]
fn put_classed(
    alloc: Global,
    out: &mut Vec<u8>,
    frame: Frame,
    thin: bool,
    class: &[u8],
    arrow: &Arrow,
    from: usize,
    to: usize,
) -> Result<(), NoMemory>
    requires { (from ≤ 40) × (to ≤ 40) }
    ensures { OnOk result (out.new.items ≡ out.old.items ++ classed_text frame thin class.now arrow.now from to) }
{
    put_path(out, class)?;
    put_route(alloc, out, frame, thin, arrow, from, to)
}

/// Appends an arrow with this class, if both its transactions have a column.
pub fn put_arrow(
    alloc: Global,
    out: &mut Vec<u8>,
    frame: Frame,
    thin: bool,
    class: &[u8],
    columns: &[TxnNo],
    arrow: &Arrow,
) -> Result<(), NoMemory>
    requires { length columns.now ≤ 40 }
    ensures { OnOk result (out.new.items ≡ out.old.items ++ arrow_text frame thin class.now columns.now arrow.now) }
{
    let Some(from) = column_of(columns, arrow.from.txn) else {
        return Ok(());
    };
    let Some(to) = column_of(columns, arrow.to.txn) else {
        return Ok(());
    };
    put_classed(alloc, out, frame, thin, class, arrow, from, to)
}

/// Appends the arrows of a yes whose transactions have columns: thin, without a class.
pub fn put_forward(
    alloc: Global,
    out: &mut Vec<u8>,
    frame: Frame,
    columns: &[TxnNo],
    arrows: &[Arrow],
) -> Result<(), NoMemory>
    requires { length columns.now ≤ 40 }
    ensures { OnOk result (out.new.items ≡ out.old.items ++ flat_map (forward_text frame columns.now) arrows.now) }
{
    for arrow in arrows {
        put_arrow(alloc, out, frame, true, b"", columns, arrow)?;
    }
    Ok(())
}

/// Whether an arrow goes below the boxes.
fn is_round(columns: &[TxnNo], arrow: &Arrow) -> bool
    requires { length columns.now ≤ 40 }
    ensures { result ≡ is_round columns.now arrow.now }
{
    let Some(from) = column_of(columns, arrow.from.txn) else {
        return false;
    };
    let Some(to) = column_of(columns, arrow.to.txn) else {
        return false;
    };
    !is_next(from, to)
}

/// Whether some arrow goes below the boxes.
pub fn has_round(columns: &[TxnNo], arrows: &[Arrow]) -> bool
    requires { length columns.now ≤ 40 }
    ensures { result ≡ has_round columns.now arrows.now }
{
    for arrow in arrows {
        if is_round(columns, arrow) {
            return true;
        }
    }
    false
}
