//! Positions of versions among those of a row.

ghost use Rattle.std.specs.Prelude.{◌≡◌};
ghost use Rattle.lab_history.specs.Version.{ops_of, op_at};
ghost use Rattle.lab_evidence.specs.Chains.{version_place, seen_place, asked_place, is_place, is_either, lesser_than, lesser, start_at};

use crate::questions::Did;
use lab_deps::viewed;
use lab_drawing::Spot;
use lab_explain::op_of;
use lab_history::{History, VersionName};
use lab_table::{RowName, TxnNo};

/// The place of a version among a row's, counted from 0, which is the initial one.
fn version_place(history: &History, row: RowName, version: VersionName) -> Option<usize>
    ensures { result ≡ version_place history.now row version }
{
    match version {
        VersionName::Initial => Some(0),
        VersionName::Of { txn, .. } => history.installer_place(row, txn),
    }
}

/// The place of the version that an operation saw.
fn seen_place(history: &History, row: RowName, txn: TxnNo, op: u32) -> Option<usize>
    ensures { result ≡ seen_place history.now row (op_at (ops_of history.now txn) op) }
{
    match op_of(history, txn, op) {
        None => None,
        Some(found) => version_place(history, row, viewed(found, row)),
    }
}

/// Returns the position of the version in question.
pub fn asked_place(history: &History, row: RowName, spot: Spot, did: Did) -> Option<usize>
    ensures { result ≡ asked_place history.now row spot did }
{
    match did {
        Did::Saw => seen_place(history, row, spot.txn, spot.op),
        Did::Wrote => history.installer_place(row, spot.txn),
    }
}

fn is_place(asked: Option<usize>, place: usize) -> bool
    ensures { result ≡ is_place asked place }
{
    match asked {
        None => false,
        Some(other) => other == place,
    }
}

/// Whether one of two places is this one.
pub fn is_either(first: Option<usize>, second: Option<usize>, place: usize) -> bool
    ensures { result ≡ is_either first second place }
{
    is_place(first, place) || is_place(second, place)
}

/// The lesser of this place and one that may be there.
fn lesser_than(place: usize, second: Option<usize>) -> usize
    ensures { result ≡ lesser_than place second }
{
    match second {
        None => place,
        Some(other) => place.min(other),
    }
}

/// The lesser of two places that may be there.
pub fn lesser(first: Option<usize>, second: Option<usize>) -> usize
    ensures { result ≡ lesser first second }
{
    match first {
        None => second.unwrap_or(0),
        Some(place) => lesser_than(place, second),
    }
}

/// How many installers stand before those that are shown.
pub fn start_at(place: usize) -> usize
    ensures { result ≡ start_at place }
{
    if place <= 6 { 0 } else { place - 2 }
}
