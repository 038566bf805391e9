//! Which operations are drawn where a column has many.

ghost use Rattle.std.specs.Prelude.{◌≡◌};
ghost use Rattle.std.specs.List.{list_any};
ghost use Rattle.lab_picture.specs.Named.{touches};
ghost use Rattle.lab_picture.specs.Few.{is_kept, slot_of};

use crate::named::touches;
use lab_drawing::Arrow;
use lab_table::TxnNo;

/// How many operations of a transaction are drawn in any case.
const FIRST_OPS: u32 = 8;

/// Whether an arrow leads from an operation, or to it.
fn is_end(arrows: &[Arrow], txn: TxnNo, op: u32) -> bool
    ensures { result ≡ list_any (touches txn op) arrows.now }
{
    for arrow in arrows {
        if touches(txn, op, arrow) {
            return true;
        }
    }
    false
}

/// Whether an operation is drawn, where the marked one of its transaction has this number, or 0.
pub fn is_kept(few: bool, arrows: &[Arrow], txn: TxnNo, marked: u32, op: u32) -> bool
    ensures { result ≡ is_kept few arrows.now txn marked op }
{
    !few || (op <= FIRST_OPS || (op == marked || is_end(arrows, txn, op)))
}

/// At which place of its column an operation is drawn: how many are, up to it.
pub fn slot_of(few: bool, arrows: &[Arrow], txn: TxnNo, marked: u32, op: u32) -> u32
    ensures { result ≡ slot_of few arrows.now txn marked op }
{
    let mut found = 0;
    for before in 0..op {
        if is_kept(few, arrows, txn, marked, before + 1) {
            found += 1;
        }
    }
    found
}
