//! Whether what an operation sees is free of faults, looked at once for all kinds of them.
//!
//! A version that the operation before saw too isn't looked at again.

ghost use Rattle.std.specs.Prelude.{◌≡◌, ◌↔◌, true, Some, T, is_some, IsTrue};
ghost use Rattle.std.specs.FinMap as map;
ghost use Rattle.lab_table.specs.Row.{Row, row_cmp};
ghost use Rattle.lab_history.specs.declared.operation.VersionName.{VersionName as Named};
ghost use Rattle.lab_deps.specs.Fine as fine;

use crate::broken::precedes;
use crate::lookup::{Hints, is_last, version_state_near};
use crate::near::value_near;
use lab_history::{History, Op, VersionName};
use lab_table::{RowName, TxnNo};

/// Whether each version that an operation of a transaction sees is found to be one that it may see. That may be known, as
/// may some such versions.
pub fn sees_fine(
    history: &History,
    txn: TxnNo,
    number: u32,
    known: &[(RowName, VersionName)],
    again: bool,
    op: &Op,
    hints: &mut Hints,
) -> bool
    requires again { again ≡ true → fine.IsFineView history.now txn number op.now.view }
    requires sorted { T (map.is_sorted row_cmp known.now) }
    requires known { (row : Row) (v : Named) → map.find row_cmp row known.now ≡ Some v → fine.is_fine history.now txn number row v ≡ true }
    ensures { result ≡ true → fine.IsFineView history.now txn number op.now.view }
{
    if again {
        return true;
    }
    let mut near = 0;
    let entries = op.view.entries();
    for entry in entries {
        if has_at(known, near, entry) {
            near = near.wrapping_add(1);
        } else {
            match place_past(history, txn, number, known, near, entry, hints) {
                None => return false,
                Some(next) => near = next,
            }
        }
    }
    true
}

/// Whether a list whose rows rise strictly has an entry at this place.
#[inline(always)]
fn has_at(known: &[(RowName, VersionName)], near: usize, entry: &(RowName, VersionName)) -> bool
    requires { T (map.is_sorted row_cmp known.now) }
    ensures { result ≡ true → map.find row_cmp entry.now.0 known.now ≡ Some entry.now.1 }
{
    match known.get(near) {
        None => false,
        Some(other) => other.0 == entry.0 && is_one(other.1, entry.1),
    }
}

/// The place at which the next row is looked for among what is known, where an entry of a view is found to be one that an
/// operation of a transaction may see.
// Not inlined, so that entries that stand where they are looked for pay nothing for it.
#[inline(never)]
fn place_past(
    history: &History,
    txn: TxnNo,
    number: u32,
    known: &[(RowName, VersionName)],
    near: usize,
    entry: &(RowName, VersionName),
    hints: &mut Hints,
) -> Option<usize>
    requires sorted { T (map.is_sorted row_cmp known.now) }
    requires known { (row : Row) (v : Named) → map.find row_cmp row known.now ≡ Some v → fine.is_fine history.now txn number row v ≡ true }
    ensures { is_some result ≡ true → fine.is_fine history.now txn number entry.now.0 entry.now.1 ≡ true }
{
    let found = value_near(known, near, entry.0);
    if is_same(found.0, entry.1) || is_fine(history, txn, number, entry.0, entry.1, hints) {
        Some(found.1)
    } else {
        None
    }
}

/// Whether there is a version, and it is this.
pub fn is_same(found: Option<VersionName>, version: VersionName) -> bool
    ensures { result ≡ true → found ≡ Some version }
{
    match found {
        None => false,
        Some(other) => is_one(other, version),
    }
}

/// Whether two versions are one.
#[inline(always)]
fn is_one(version: VersionName, other: VersionName) -> bool
    ensures { IsTrue result ↔ (version ≡ other) }
{
    version == other
}

/// Whether a version is found to be one that an operation of a transaction may see.
fn is_fine(
    history: &History,
    reader: TxnNo,
    number: u32,
    row: RowName,
    seen: VersionName,
    hints: &mut Hints,
) -> bool
    ensures { result ≡ true → fine.is_fine history.now reader number row seen ≡ true }
{
    match seen {
        VersionName::Initial => true,
        VersionName::Of { txn, op } => {
            if txn == reader {
                op < number && version_state_near(history, row, seen, &mut hints.written).is_some()
            } else {
                is_last(history, txn, op, row, hints) && is_clear(history, reader, txn, row, hints)
            }
        }
    }
}

/// Whether a transaction doesn't stand before another one among a row's installers.
fn is_clear(
    history: &History,
    reader: TxnNo,
    writer: TxnNo,
    row: RowName,
    hints: &mut Hints,
) -> bool
    ensures { result ≡ fine.is_clear history.now reader writer row }
{
    match history.installer_place_near(row, reader, &mut hints.own) {
        None => true,
        Some(place) => !precedes(
            Some(place),
            history.installer_place_near(row, writer, &mut hints.seen),
        ),
    }
}
