//! What is said of thin columns, and of boxes side by side.

ghost use Rattle.std.specs.Prelude.{◌≡◌, ◌≤◌};
ghost use Rattle.std.specs.List.{list_any};
ghost use Rattle.lab_picture.specs.Columns.{is_thin};
ghost use Rattle.lab_picture.specs.Heading.{has_thin, thin_lines, beside_lines, thin_text, beside_text};

use crate::columns::{is_thin, shown_columns};
use lab_drawing::Drawing;
use lab_table::TxnNo;

/// Whether a column that is drawn is thin.
fn has_thin(drawing: &Drawing) -> bool
    ensures { result ≡ has_thin drawing.now }
{
    some_thin(&drawing.thin, shown_columns(&drawing.columns))
}

/// Whether one of these columns is thin.
fn some_thin(thin: &[TxnNo], columns: &[TxnNo]) -> bool
    ensures { result ≡ list_any (is_thin thin.now) columns.now }
{
    for txn in columns {
        if is_thin(thin, *txn) {
            return true;
        }
    }
    false
}

/// How many lines tell of thin columns.
pub fn thin_lines(drawing: &Drawing) -> u128
    ensures value { result ≡ thin_lines drawing.now }
    ensures small { result ≤ 1 }
{
    if has_thin(drawing) { 1 } else { 0 }
}

/// How many lines tell of boxes side by side.
pub fn beside_lines(columns: usize) -> u128
    ensures value { result ≡ beside_lines columns }
    ensures small { result ≤ 1 }
{
    if columns > 1 { 1 } else { 0 }
}

/// What a thin column says, where there is one.
pub fn thin_text(drawing: &Drawing) -> &'static [u8]
    ensures { result.now ≡ thin_text drawing.now }
{
    if has_thin(drawing) {
        b"thin column: who wrote a version that the cycle saw"
    } else {
        b""
    }
}

/// What boxes side by side say, where there are any.
pub fn beside_text(columns: usize) -> &'static [u8]
    ensures { result.now ≡ beside_text columns }
{
    if columns > 1 {
        b"boxes side by side are in no order of time"
    } else {
        b""
    }
}
