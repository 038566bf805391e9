//! The places at which arrows' ends are drawn, and how many operations a column has that is drawn.

ghost use Rattle.std.specs.Prelude.{◌≡◌, map, IfOk};
ghost use Rattle.lab_picture.specs.Slots.{is_few, few_note, spot_slot, slotted, drawn_of, most_drawn};

use crate::columns::{marked_in, most_ops, shown_columns};
use crate::few::slot_of;
use lab_drawing::{Arrow, Drawing, Spot, ops_of};
use lab_history::History;
use lab_table::{NoMemory, TxnNo};
use std::alloc::Global;

/// The most operations that a column may have so that all are drawn.
const MAX_OPS: u32 = 24;

/// Whether few operations are drawn.
pub fn is_few(history: &History, drawing: &Drawing) -> bool
    ensures { result ≡ is_few history.now drawing.now }
{
    most_ops(history, shown_columns(&drawing.columns)) > MAX_OPS
}

/// What is said of that.
pub fn few_note(few: bool) -> &'static [u8]
    ensures { result.now ≡ few_note few }
{
    if few {
        b"the first 8 statements of each transaction are drawn, and those in question"
    } else {
        b""
    }
}

/// A transaction's operation by its place.
fn spot_slot(few: bool, arrows: &[Arrow], marked: &Option<Spot>, spot: Spot) -> Spot
    ensures { result ≡ spot_slot few arrows.now marked.now spot }
{
    let number = marked_in(marked, spot.txn);
    Spot {
        txn: spot.txn,
        op: slot_of(few, arrows, spot.txn, number, spot.op),
    }
}

/// An arrow with the places of its ends for their numbers.
fn slotted(few: bool, arrows: &[Arrow], marked: &Option<Spot>, arrow: &Arrow) -> Arrow
    ensures { result ≡ slotted few arrows.now marked.now arrow.now }
{
    Arrow {
        from: spot_slot(few, arrows, marked, arrow.from),
        to: spot_slot(few, arrows, marked, arrow.to),
        tie: arrow.tie,
        row: arrow.row,
    }
}

/// Arrows with the places of their ends for their numbers.
pub fn all_slotted(
    alloc: Global,
    few: bool,
    arrows: &[Arrow],
    marked: &Option<Spot>,
    listed: &[Arrow],
) -> Result<Vec<Arrow>, NoMemory>
    ensures { IfOk result (λ found. found.items ≡ map (slotted few arrows.now marked.now) listed.now) }
{
    let mut found = Vec::new(alloc);
    for arrow in listed {
        found.push(slotted(few, arrows, marked, arrow))?;
    }
    Ok(found)
}

/// How many operations of a transaction are drawn.
fn drawn_of(
    history: &History,
    few: bool,
    arrows: &[Arrow],
    marked: &Option<Spot>,
    txn: TxnNo,
) -> u32
    ensures { result ≡ drawn_of history.now few arrows.now marked.now txn }
{
    let last = ops_of(history, txn).len() as u32;
    slot_of(few, arrows, txn, marked_in(marked, txn), last)
}

/// How many are drawn of the longest of some transactions.
pub fn most_drawn(
    history: &History,
    few: bool,
    arrows: &[Arrow],
    marked: &Option<Spot>,
    columns: &[TxnNo],
) -> u32
    ensures { result ≡ most_drawn history.now few arrows.now marked.now 0 columns.now }
{
    let mut most = 0;
    for txn in columns {
        most = most.max(drawn_of(history, few, arrows, marked, *txn));
    }
    most
}
