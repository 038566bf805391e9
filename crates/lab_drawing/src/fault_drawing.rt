//! The drawing of a fault.

ghost use Rattle.std.specs.Prelude.{◌≡◌, ◌++◌, IfOk, OnOk};
ghost use Rattle.lab_drawing.specs.Installs.{misplaced_of};
ghost use Rattle.lab_drawing.specs.Sketch.{with_column, blank, of_place, of_row, of_misplaced, of_installs, of_fault, installer_columns, last_spot, seen_at, written_by, writer_at, spot_text, version_text, version_note};

use crate::drawing::{Arrow, Drawing, Spot, Tie};
use crate::installs::{Misplaced, installers_of, misplaced_of, put_misplaced};
use crate::states::ops_of;
use crate::text::put_number;
use lab_deps::{FaultParts, LocalFault, RowFault, viewed};
use lab_history::{History, VersionName};
use lab_table::{NoMemory, RowName, TxnNo};
use std::alloc::Global;

/// A drawing without columns.
pub fn blank(alloc: Global, about: Vec<u8>) -> Drawing
    ensures { result ≡ blank about.items }
{
    Drawing {
        columns: Vec::new(alloc),
        arrows: Vec::new(alloc),
        marked: None,
        about,
        note: Vec::new(alloc),
        title: Vec::new(alloc),
        forward: Vec::new(alloc),
        thin: Vec::new(alloc),
        rows: Vec::new(alloc),
    }
}

/// Adds a column, if the transaction has none.
pub fn add_column(columns: &mut Vec<TxnNo>, txn: TxnNo) -> Result<(), NoMemory>
    ensures { OnOk result (columns.new.items ≡ with_column columns.old.items txn) }
{
    if !columns.contains(&txn) {
        columns.push(txn)?;
    }
    Ok(())
}

/// The version of a row that an operation of a transaction sees, where there is such an operation.
pub fn seen_at(history: &History, txn: TxnNo, op: u32, row: RowName) -> Option<VersionName>
    ensures { result ≡ seen_at history.now txn op row }
{
    let found = ops_of(history, txn).get(op.checked_sub(1)? as usize)?;
    Some(viewed(found, row))
}

/// The operation that wrote a version of a row, where it did.
fn written_by(history: &History, row: RowName, version: VersionName) -> Option<Spot>
    ensures { result ≡ written_by history.now row version }
{
    match version {
        VersionName::Initial => None,
        VersionName::Of { txn, op } => {
            history.version_state(row, VersionName::Of { txn, op })?;
            Some(Spot { txn, op })
        }
    }
}

/// The operation that wrote the version that is seen, where there is one.
pub fn writer_at(history: &History, row: RowName, version: Option<VersionName>) -> Option<Spot>
    ensures { result ≡ writer_at history.now row version }
{
    match version {
        None => None,
        Some(version) => written_by(history, row, version),
    }
}

/// Appends the name of an operation.
fn put_spot(out: &mut Vec<u8>, txn: TxnNo, op: u32) -> Result<(), NoMemory>
    ensures { OnOk result (out.new.items ≡ out.old.items ++ spot_text txn op) }
{
    out.extend_from_slice(b"T")?;
    put_number(out, u64::from(txn.number()))?;
    out.extend_from_slice(b" op ")?;
    put_number(out, u64::from(op))
}

/// Appends which version it is, and whether it is there.
fn put_version(out: &mut Vec<u8>, version: VersionName, written: bool) -> Result<(), NoMemory>
    ensures { OnOk result (out.new.items ≡ out.old.items ++ version_text version written) }
{
    match version {
        VersionName::Initial => out.extend_from_slice(b"version seen: initial"),
        VersionName::Of { txn, op } => {
            out.extend_from_slice(b"version seen: ")?;
            put_spot(out, txn, op)?;
            if written {
                Ok(())
            } else {
                out.extend_from_slice(b", which isn't there")
            }
        }
    }
}

/// Appends which version is seen, if one is.
fn put_note(out: &mut Vec<u8>, version: Option<VersionName>, written: bool) -> Result<(), NoMemory>
    ensures { OnOk result (out.new.items ≡ out.old.items ++ version_note version written) }
{
    match version {
        None => Ok(()),
        Some(version) => put_version(out, version, written),
    }
}

/// The drawing of a fault at an operation and a row: the operation, and the one that wrote the version that it sees.
pub fn of_place(
    alloc: Global,
    history: &History,
    about: Vec<u8>,
    txn: TxnNo,
    op: u32,
    row: RowName,
) -> Result<Drawing, NoMemory>
    ensures { IfOk result (λ drawing. drawing ≡ of_place history.now about.items txn op row) }
{
    let version = seen_at(history, txn, op, row);
    let mut note = Vec::new(alloc);
    match writer_at(history, row, version) {
        None => {
            put_note(&mut note, version, false)?;
            Ok(Drawing {
                columns: Vec::from_slice(alloc, &[txn])?,
                arrows: Vec::new(alloc),
                marked: Some(Spot { txn, op }),
                about,
                note,
                title: Vec::new(alloc),
                forward: Vec::new(alloc),
                thin: Vec::new(alloc),
                rows: Vec::new(alloc),
            })
        }
        Some(from) => {
            put_note(&mut note, version, true)?;
            let mut columns = Vec::from_slice(alloc, &[from.txn])?;
            add_column(&mut columns, txn)?;
            let mut arrows = Vec::new(alloc);
            arrows.push(Arrow {
                from,
                to: Spot { txn, op },
                tie: Tie::Version,
                row,
            })?;
            Ok(Drawing {
                columns,
                arrows,
                marked: Some(Spot { txn, op }),
                about,
                note,
                title: Vec::new(alloc),
                forward: Vec::new(alloc),
                thin: Vec::new(alloc),
                rows: Vec::new(alloc),
            })
        }
    }
}

/// The transactions that installed a row, in their order, each once.
fn installer_columns(alloc: Global, history: &History, row: RowName) -> Result<Vec<TxnNo>, NoMemory>
    ensures { IfOk result (λ columns. columns.items ≡ installer_columns history.now row) }
{
    let mut columns = Vec::new(alloc);
    let installers = installers_of(history, row);
    for txn in installers {
        add_column(&mut columns, *txn)?;
    }
    Ok(columns)
}

/// The drawing of a fault of a row: the transactions that installed it.
fn of_row(
    alloc: Global,
    history: &History,
    about: Vec<u8>,
    row: RowName,
) -> Result<Drawing, NoMemory>
    ensures { IfOk result (λ drawing. drawing ≡ of_row history.now about.items row) }
{
    Ok(Drawing {
        columns: installer_columns(alloc, history, row)?,
        arrows: Vec::new(alloc),
        marked: None,
        about,
        note: Vec::new(alloc),
        title: Vec::new(alloc),
        forward: Vec::new(alloc),
        thin: Vec::new(alloc),
        rows: Vec::new(alloc),
    })
}

/// A transaction's last write of a row, where it wrote the row.
fn last_spot(history: &History, row: RowName, txn: TxnNo) -> Option<Spot>
    ensures { result ≡ last_spot history.now row txn }
{
    let op = history.last_write(txn, row)?;
    Some(Spot { txn, op })
}

/// The drawing of a row and a transaction that is out of place among its installers: those, that transaction, and its last
/// write of the row.
fn of_misplaced(
    alloc: Global,
    history: &History,
    about: Vec<u8>,
    row: RowName,
    found: Misplaced,
) -> Result<Drawing, NoMemory>
    ensures { IfOk result (λ drawing. drawing ≡ of_misplaced history.now about.items row found) }
{
    let txn = found.txn;
    let mut note = Vec::new(alloc);
    put_misplaced(&mut note, found)?;
    let mut columns = installer_columns(alloc, history, row)?;
    add_column(&mut columns, txn)?;
    let marked = last_spot(history, row, txn);
    Ok(Drawing {
        columns,
        arrows: Vec::new(alloc),
        marked,
        about,
        note,
        title: Vec::new(alloc),
        forward: Vec::new(alloc),
        thin: Vec::new(alloc),
        rows: Vec::new(alloc),
    })
}

/// The drawing of a row whose installers aren't its committed writers.
fn of_installs(
    alloc: Global,
    history: &History,
    about: Vec<u8>,
    row: RowName,
) -> Result<Drawing, NoMemory>
    ensures { IfOk result (λ drawing. drawing ≡ of_installs history.now about.items row (misplaced_of history.now row)) }
{
    match misplaced_of(history, row) {
        None => of_row(alloc, history, about, row),
        Some(found) => of_misplaced(alloc, history, about, row, found),
    }
}

/// The drawing of a history's fault.
pub fn of_fault(
    alloc: Global,
    history: &History,
    about: Vec<u8>,
    fault: LocalFault,
) -> Result<Drawing, NoMemory>
    ensures { IfOk result (λ drawing. drawing ≡ of_fault history.now about.items fault) }
{
    match fault.parts() {
        FaultParts::Operation { txn, op, row, .. } => of_place(alloc, history, about, txn, op, row),
        FaultParts::Row { kind, row } => match kind {
            RowFault::InstallOrder => of_installs(alloc, history, about, row),
            RowFault::EndDiffers => of_row(alloc, history, about, row),
        },
    }
}
