//! What a cycle or a fault names: mostly, with what that needs, all of a history that has to stay.

use crate::named::put_in_order;
use lab_deps::{Edge, FaultParts, LocalFault};
use lab_history::{History, Op, VersionName};
use lab_judge::Finding;
use lab_table::{NoMemory, RowName, TxnNo};
use std::alloc::Global;

/// What is named: rows, which rise, and of each operation of a history, whether it is.
#[derive(Drop)]
pub struct Lead {
    pub rows: Vec<RowName>,
    pub named: Vec<bool>,
}

/// Whether an operation saw, listed or wrote a row, or may have looked at it.
fn touches(op: &Op, row: RowName) -> bool {
    op.writes.get(row).is_some()
        || op.rows.get(row).is_some()
        || op.view.get(row).is_some()
        || op.statement.may_match(row)
}

/// A row of a dependency that begins or ends at a transaction, and whether an operation of that touched it, or wrote it.
#[derive(Clone, Copy)]
struct RowBeside {
    row: RowName,
    is_touched: bool,
    is_written: bool,
}

impl RowBeside {
    /// Notes what an operation did with the row, and answers whether it did that as the first one, or at all where
    /// `is_each` says so.
    fn names(&mut self, op: &Op, is_each: bool) -> bool {
        let touched = touches(op, self.row);
        let wrote = op.writes.get(self.row).is_some();
        let is_new = (touched && !self.is_touched) || (wrote && !self.is_written);
        self.is_touched = self.is_touched || touched;
        self.is_written = self.is_written || wrote;
        is_new || (is_each && touched)
    }
}

/// Whether an operation is named by one of some rows.
fn is_named(beside: &mut Vec<RowBeside>, op: &Op, is_each: bool) -> bool {
    let mut is_named = false;
    for row in beside.iter_mut() {
        if row.names(op, is_each) {
            is_named = true;
        }
    }
    is_named
}

/// The rows of the dependencies that begin or end at a transaction.
fn rows_beside(alloc: Global, walk: &[Edge], txn: TxnNo) -> Result<Vec<RowBeside>, NoMemory> {
    let mut rows = Vec::new(alloc);
    for edge in walk {
        if edge.from == txn || edge.to == txn {
            rows.push(RowBeside {
                row: edge.row,
                is_touched: false,
                is_written: false,
            })?;
        }
    }
    Ok(rows)
}

/// What a walk names: the rows of its dependencies, and what its transactions did first with them, or all that they did
/// with them where `is_each` says so.
pub fn lead_of_walk(
    alloc: Global,
    history: &History,
    walk: &[Edge],
    is_each: bool,
) -> Result<Lead, NoMemory> {
    let mut rows = Vec::new(alloc);
    for edge in walk {
        rows.push(edge.row)?;
    }
    put_in_order(&mut rows)?;
    let mut named = Vec::new(alloc);
    for txn in history.txns().as_slice() {
        let mut beside = rows_beside(alloc, walk, txn.no)?;
        for op in txn.ops.as_slice() {
            named.push(is_named(&mut beside, op, is_each))?;
        }
    }
    Ok(Lead { rows, named })
}

/// A transaction and the place of one of its operations, counted from 0.
#[derive(Clone, Copy)]
struct OpPlace {
    txn: TxnNo,
    place: usize,
}

/// The operation that wrote what an operation saw of a row, unless that is the initial version.
fn seen_op(history: &History, at: &OpPlace, row: RowName) -> Option<OpPlace> {
    let op = history.txn(at.txn)?.ops.as_slice().get(at.place)?;
    match op.view.get(row)? {
        VersionName::Initial => None,
        VersionName::Of { txn, op } => Some(OpPlace {
            txn,
            place: op.saturating_sub(1) as usize,
        }),
    }
}

/// Whether an operation at a place is named by a fault at another: it is that one, or came before it in its transaction and
/// touched the row; or it is the one that was seen, or wrote the row in that one's transaction.
fn is_beside(op: &Op, here: &OpPlace, at: &OpPlace, seen: &Option<OpPlace>, row: RowName) -> bool {
    if here.txn == at.txn && here.place <= at.place {
        return here.place == at.place || touches(op, row);
    }
    match seen {
        Some(seen) if seen.txn == here.txn => {
            seen.place == here.place || op.writes.get(row).is_some()
        }
        _ => false,
    }
}

/// What a fault at an operation and a row names.
fn lead_of_op(
    alloc: Global,
    history: &History,
    at: &OpPlace,
    row: RowName,
) -> Result<Lead, NoMemory> {
    let seen = seen_op(history, at, row);
    let mut named = Vec::new(alloc);
    for txn in history.txns().as_slice() {
        for (place, op) in txn.ops.as_slice().iter().enumerate() {
            let here = OpPlace { txn: txn.no, place };
            named.push(is_beside(op, &here, at, &seen, row))?;
        }
    }
    let mut rows = Vec::new(alloc);
    rows.push(row)?;
    Ok(Lead { rows, named })
}

/// What a fault at a row names: whoever wrote it.
fn lead_of_row(alloc: Global, history: &History, row: RowName) -> Result<Lead, NoMemory> {
    let mut named = Vec::new(alloc);
    for txn in history.txns().as_slice() {
        for op in txn.ops.as_slice() {
            named.push(op.writes.get(row).is_some())?;
        }
    }
    let mut rows = Vec::new(alloc);
    rows.push(row)?;
    Ok(Lead { rows, named })
}

/// What a fault names.
pub fn lead_of_fault(
    alloc: Global,
    history: &History,
    fault: LocalFault,
) -> Result<Lead, NoMemory> {
    match fault.parts() {
        FaultParts::Operation { txn, op, row, .. } => {
            let place = op.saturating_sub(1) as usize;
            let at = OpPlace { txn, place };
            lead_of_op(alloc, history, &at, row)
        }
        FaultParts::Row { row, .. } => lead_of_row(alloc, history, row),
    }
}

/// What a finding names, if it is one.
pub fn lead_of_finding(
    alloc: Global,
    history: &History,
    finding: &Finding,
    is_each: bool,
) -> Result<Option<Lead>, NoMemory> {
    match finding {
        Finding::Walk(walk) => Ok(Some(lead_of_walk(alloc, history, walk.as_slice(), is_each)?)),
        Finding::At { txn, op, row } => {
            let place = op.saturating_sub(1) as usize;
            let at = OpPlace { txn: *txn, place };
            Ok(Some(lead_of_op(alloc, history, &at, *row)?))
        }
        Finding::Absent | Finding::NotJudged => Ok(None),
    }
}
