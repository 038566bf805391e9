//! The columns of a picture.

ghost use Rattle.std.specs.Prelude.{◌≡◌, ◌++◌, ◌≤◌, length, OnOk, IfOk};
ghost use Rattle.lab_picture.specs.Columns.{most_ops, marked_in, title_of, title_weight, title_text, is_thin, column_at, column_text, columns_text, shown_columns};

use crate::column_boxes::put_boxes;
use crate::layout::{Column, Frame, MAX_COLUMNS, left, top};
use crate::text::put_text;
use lab_drawing::{Arrow, Drawing, Spot, ops_of, outcome_name, put_number};
use lab_history::History;
use lab_table::{NoMemory, TxnNo};
use std::alloc::Global;

/// How many operations the longest of some transactions has.
pub fn most_ops(history: &History, columns: &[TxnNo]) -> u32
    ensures { result ≡ most_ops history.now columns.now }
{
    let mut most = 0;
    for txn in columns {
        most = most.max(ops_of(history, *txn).len() as u32);
    }
    most
}

/// The number of the marked operation, if it is of this transaction, else 0.
pub fn marked_in(marked: &Option<Spot>, txn: TxnNo) -> u32
    ensures { result ≡ marked_in marked.now txn }
{
    match marked {
        Some(spot) if spot.txn == txn => spot.op,
        _ => 0,
    }
}

/// What stands above a column.
fn title_of(alloc: Global, history: &History, txn: TxnNo) -> Result<Vec<u8>, NoMemory>
    ensures { IfOk result (λ title. title.items ≡ title_of history.now txn) }
{
    let mut title = Vec::from_slice(alloc, b"T")?;
    put_number(&mut title, u64::from(txn.number()))?;
    title.extend_from_slice(b" ")?;
    title.extend_from_slice(outcome_name(history, txn).as_bytes())?;
    Ok(title)
}

/// The letters of what stands above a column.
fn title_weight(thin: bool) -> &'static [u8]
    ensures { result.now ≡ title_weight thin }
{
    if thin { b"" } else { b" font-weight=\"bold\"" }
}

/// Appends what stands above a column.
#[tactic(auto, unfolding(crate::specs::Columns::title_text))]
fn put_title(
    alloc: Global,
    out: &mut Vec<u8>,
    history: &History,
    x: u128,
    y: u128,
    thin: bool,
    txn: TxnNo,
) -> Result<(), NoMemory>
    ensures { OnOk result (out.new.items ≡ out.old.items ++ title_text history.now x y thin txn) }
{
    let title = title_of(alloc, history, txn)?;
    put_text(out, title_weight(thin), x, y, &title)
}

/// Whether a transaction is among those whose columns are thin.
pub fn is_thin(thin: &[TxnNo], txn: TxnNo) -> bool
    ensures { result ≡ is_thin thin.now txn }
{
    thin.contains(&txn)
}

/// The column of a transaction at a place.
fn column_at(marked: &Option<Spot>, thin: &[TxnNo], place: usize, txn: TxnNo) -> Column
    ensures value { result ≡ column_at marked.now thin.now place txn }
    ensures place { result.place ≡ place }
{
    Column {
        place,
        txn,
        marked: marked_in(marked, txn),
        thin: is_thin(thin, txn),
    }
}

/// Appends a column: the transaction and its operations.
fn put_column(
    alloc: Global,
    out: &mut Vec<u8>,
    history: &History,
    frame: Frame,
    arrows: &[Arrow],
    steps: &[Arrow],
    column: &Column,
) -> Result<(), NoMemory>
    requires { column.now.place ≤ 40 }
    ensures { OnOk result (out.new.items ≡ out.old.items ++ column_text history.now frame arrows.now steps.now column.now) }
{
    let x = left(column.place);
    let y = top(frame, column.place);
    put_title(alloc, out, history, x, y, column.thin, column.txn)?;
    let ops = ops_of(history, column.txn);
    put_boxes(alloc, out, frame, arrows, steps, column, ops)
}

/// Appends columns of a drawing from left to right. The arrows, which are those that are drawn, say which rows stay in the
/// boxes at their ends.
pub fn put_columns(
    alloc: Global,
    out: &mut Vec<u8>,
    history: &History,
    frame: Frame,
    arrows: &[Arrow],
    drawing: &Drawing,
    columns: &[TxnNo],
) -> Result<(), NoMemory>
    requires { length columns.now ≤ 40 }
    ensures { OnOk result (out.new.items ≡ out.old.items ++ columns_text history.now frame arrows.now drawing.now 0 columns.now) }
{
    for (place, txn) in columns.iter().enumerate() {
        let column = column_at(&drawing.marked, &drawing.thin, place, *txn);
        put_column(alloc, out, history, frame, arrows, &drawing.arrows, &column)?;
    }
    Ok(())
}

/// The transactions that are drawn: no more than forty.
pub fn shown_columns(columns: &[TxnNo]) -> &[TxnNo]
    ensures value { result.now ≡ shown_columns columns.now }
    ensures few { length result.now ≤ 40 }
{
    &columns[..columns.len().min(MAX_COLUMNS)]
}
