//! What operations that stay need, so that each sees what it is recorded to have seen.
//!
//! A row's first writers aren't needed: where all of them go, the row begins as they left it. So the least version of a row that
//! is seen needs no writer, if the writer of the next one stays.

use crate::op_name::{OpName, writer_seen};
use crate::touch::NONE;
use lab_history::{History, Op};
use lab_table::{NoMemory, RowName, TxnNo};
use std::alloc::Global;

/// A version of a row: the row's place among some rows, and the version's among the row's versions, the initial one's being 0.
#[derive(Clone, Copy)]
struct Version {
    row: usize,
    place: usize,
}

/// A version that is seen, and the operation that wrote it.
#[derive(Clone, Copy)]
struct Seen {
    version: Version,
    writer: OpName,
}

/// What operations that stay need.
#[derive(Drop)]
pub struct Needs {
    /// Of each row, the place of the least version that is seen; NONE where none is.
    least: Vec<usize>,
    /// The versions that are seen, but the initial ones.
    seen: Vec<Seen>,
    /// The versions that are written.
    written: Vec<Version>,
    /// Operations of the same transaction that are seen, and those that installed nothing.
    ops: Vec<OpName>,
}

/// The last operation of a row's installer at a place, counted from 0.
fn last_of(history: &History, row: RowName, place: usize) -> Option<OpName> {
    let txn = *history.installed().get(row)?.as_slice().get(place)?;
    let op = history.last_write(txn, row)?;
    Some(OpName { txn, op })
}

/// The place of the version of a row that a transaction wrote, as another one sees it. Its own writes, and those that aren't
/// installed, have none.
fn place_for(history: &History, reader: TxnNo, writer: TxnNo, row: RowName) -> Option<usize> {
    if writer == reader {
        return None;
    }
    history.installer_place(row, writer)
}

impl Needs {
    /// No needs, of so many rows.
    pub fn none(alloc: Global, rows: usize) -> Result<Needs, NoMemory> {
        Ok(Needs {
            least: vec![in alloc; NONE; rows]?,
            seen: Vec::new(alloc),
            written: Vec::new(alloc),
            ops: Vec::new(alloc),
        })
    }

    /// Notes that a version of a row is seen.
    fn see(&mut self, row: usize, place: usize) {
        if let Some(least) = self.least.get_mut(row) {
            *least = (*least).min(place);
        }
    }

    /// Notes which version of the row at a place an operation saw.
    fn add_seen(
        &mut self,
        history: &History,
        name: &OpName,
        op: &Op,
        at: usize,
        row: RowName,
    ) -> Result<(), NoMemory> {
        let Some(writer) = writer_seen(op, row) else {
            self.see(at, 0);
            return Ok(());
        };
        match place_for(history, name.txn, writer.txn, row) {
            Some(place) => self.push_seen(at, place, &writer),
            None => push_name(&mut self.ops, &writer),
        }
    }

    /// Notes that another transaction's version of the row at a place is seen, and who wrote it.
    fn push_seen(&mut self, row: usize, place: usize, writer: &OpName) -> Result<(), NoMemory> {
        self.see(row, place);
        self.seen.push(Seen {
            version: Version { row, place },
            writer: OpName {
                txn: writer.txn,
                op: writer.op,
            },
        })?;
        Ok(())
    }

    /// Notes what an operation saw and wrote of the row at a place.
    fn add_row(
        &mut self,
        history: &History,
        name: &OpName,
        op: &Op,
        at: usize,
        row: RowName,
    ) -> Result<(), NoMemory> {
        self.add_seen(history, name, op, at, row)?;
        if op.writes.get(row).is_some()
            && let Some(place) = history.installer_place(row, name.txn)
        {
            self.written.push(Version { row: at, place })?;
        }
        Ok(())
    }

    /// Notes what an operation did with the rows of entries, where they are among some rows.
    fn add_entries<X>(
        &mut self,
        history: &History,
        name: &OpName,
        op: &Op,
        rows: &[RowName],
        entries: &[(RowName, X)],
    ) -> Result<(), NoMemory> {
        for (row, _) in entries {
            if let Ok(at) = rows.binary_search(row) {
                self.add_row(history, name, op, at, *row)?;
            }
        }
        Ok(())
    }

    /// Notes what an operation did with some rows.
    pub fn add_op(
        &mut self,
        history: &History,
        name: &OpName,
        op: &Op,
        rows: &[RowName],
    ) -> Result<(), NoMemory> {
        self.add_entries(history, name, op, rows, op.view.entries())?;
        self.add_entries(history, name, op, rows, op.rows.entries())?;
        self.add_entries(history, name, op, rows, op.writes.entries())
    }

    /// The place of the version of the row at a place with which the row begins.
    fn first_of(&self, row: usize, from_start: bool) -> usize {
        match self.least.get(row) {
            Some(least) if !from_start => *least,
            _ => 0,
        }
    }

    /// Whether what a transaction wrote of the row at a place isn't the version with which the row begins, as another one sees
    /// it; its own writes, and those that aren't installed, never are.
    pub fn is_after(
        &self,
        history: &History,
        reader: TxnNo,
        writer: TxnNo,
        at: usize,
        row: RowName,
        from_start: bool,
    ) -> bool {
        match place_for(history, reader, writer, row) {
            Some(place) => place > self.first_of(at, from_start),
            None => true,
        }
    }

    /// Of each of so many rows, whether an operation stays that wrote the version next after the one with which the row
    /// begins.
    fn are_followed(
        &self,
        alloc: Global,
        rows: usize,
        from_start: bool,
    ) -> Result<Vec<bool>, NoMemory> {
        let mut followed = vec![in alloc; false; rows]?;
        for version in self.written.iter() {
            let first = self.first_of(version.row, from_start);
            if version.place == first.saturating_add(1)
                && let Some(is_followed) = followed.get_mut(version.row)
            {
                *is_followed = true;
            }
        }
        Ok(followed)
    }

    /// The operations that are needed: the writers of the versions that are seen, but of those with which rows begin,
    /// and of each row the writer of the version next after that one, where none of its operations that wrote the row
    /// stays.
    pub fn needed(
        &self,
        alloc: Global,
        history: &History,
        rows: &[RowName],
        from_start: bool,
    ) -> Result<Vec<OpName>, NoMemory> {
        let mut needed = Vec::new(alloc);
        for name in self.ops.iter() {
            push_name(&mut needed, name)?;
        }
        for seen in self.seen.iter() {
            if seen.version.place > self.first_of(seen.version.row, from_start) {
                push_name(&mut needed, &seen.writer)?;
            }
        }
        let followed = self.are_followed(alloc, rows.len(), from_start)?;
        for (at, row) in rows.iter().enumerate() {
            if !followed.get(at).copied().unwrap_or(true)
                && let Some(name) = last_of(history, *row, self.first_of(at, from_start))
            {
                needed.push(name)?;
            }
        }
        Ok(needed)
    }
}

/// Adds a name.
fn push_name(names: &mut Vec<OpName>, name: &OpName) -> Result<(), NoMemory> {
    names.push(OpName {
        txn: name.txn,
        op: name.op,
    })?;
    Ok(())
}
