//! The edges of a sound history by their definition: at each row, each operation is compared with each installer.

use lab_deps::{Edge, Kind};
use lab_history::{History, Op, Outcome, State, VersionName};
use lab_table::{NoMemory, Pred, RowId, RowName, Statement, StatementKind, TxnNo, Value};
use std::alloc::Global;

/// What an operation of a transaction sees of a row: the place of a version, counted from 0, and whether it lists the
/// row.
#[derive(Clone, Copy)]
struct Reading {
    txn: TxnNo,
    row: RowName,
    place: usize,
    listed: bool,
}

/// The edges by rising from, to, kind and row, each once.
pub fn edges_by_pairs(alloc: Global, history: &History) -> Result<Vec<Edge>, NoMemory> {
    let mut edges = Vec::new(alloc);
    add_all(&mut edges, history)?;
    edges.sort()?;
    edges.dedup();
    Ok(edges)
}

/// Adds the edges at each row, some more than once.
fn add_all(edges: &mut Vec<Edge>, history: &History) -> Result<(), NoMemory> {
    for (row, installers) in history.installed().entries() {
        add_neighbours(edges, *row, installers.as_slice())?;
        for txn in history.txns().as_slice() {
            if txn.outcome == Outcome::Committed {
                add_txn(edges, history, *row, txn.no, txn.ops.as_slice())?;
            }
        }
    }
    Ok(())
}

/// Adds the edges between neighbours in a row's list.
fn add_neighbours(
    edges: &mut Vec<Edge>,
    row: RowName,
    installers: &[TxnNo],
) -> Result<(), NoMemory> {
    let mut before = None;
    for installer in installers {
        if let Some(from) = before {
            add_apart(edges, from, *installer, Kind::Write, row)?;
        }
        before = Some(*installer);
    }
    Ok(())
}

/// Adds the edges of a transaction's operations at a row.
fn add_txn(
    edges: &mut Vec<Edge>,
    history: &History,
    row: RowName,
    txn: TxnNo,
    ops: &[Op],
) -> Result<(), NoMemory> {
    for op in ops {
        if let Some(place) = seen_place(history, txn, op, row) {
            let listed = op.rows.get(row).is_some();
            let reading = Reading {
                txn,
                row,
                place,
                listed,
            };
            add_reading(edges, history, &op.statement, &reading)?;
        }
    }
    Ok(())
}

/// Adds the edges between an operation and each installer of a row.
fn add_reading(
    edges: &mut Vec<Edge>,
    history: &History,
    statement: &Statement,
    reading: &Reading,
) -> Result<(), NoMemory> {
    for (place, installer) in installers(history, reading.row).iter().enumerate() {
        add_listed(edges, reading, place, *installer)?;
        if changes(history, statement, reading.row, place) {
            add_change(edges, reading, place, *installer)?;
        }
    }
    Ok(())
}

/// Adds the edge between an operation that lists a row and the installer at a place: of the version that it sees, or of
/// the next one.
fn add_listed(
    edges: &mut Vec<Edge>,
    reading: &Reading,
    place: usize,
    installer: TxnNo,
) -> Result<(), NoMemory> {
    if !reading.listed {
        Ok(())
    } else if reading.place.checked_sub(1) == Some(place) {
        add_apart(edges, installer, reading.txn, Kind::ItemRead, reading.row)
    } else if reading.place == place {
        add_apart(edges, reading.txn, installer, Kind::ItemAnti, reading.row)
    } else {
        Ok(())
    }
}

/// Adds the edge between an operation and the installer at a place, which changes its matches.
fn add_change(
    edges: &mut Vec<Edge>,
    reading: &Reading,
    place: usize,
    installer: TxnNo,
) -> Result<(), NoMemory> {
    if place < reading.place {
        add_apart(
            edges,
            installer,
            reading.txn,
            Kind::PredicateRead,
            reading.row,
        )
    } else {
        add_apart(
            edges,
            reading.txn,
            installer,
            Kind::PredicateAnti,
            reading.row,
        )
    }
}

/// Adds an edge where it is between different transactions.
fn add_apart(
    edges: &mut Vec<Edge>,
    from: TxnNo,
    to: TxnNo,
    kind: Kind,
    row: RowName,
) -> Result<(), NoMemory> {
    if from != to {
        edges.push(Edge {
            from,
            to,
            kind,
            row,
        })?;
    }
    Ok(())
}

/// The place of the version that an operation sees of a row, or None where that is its own transaction's.
fn seen_place(history: &History, reader: TxnNo, op: &Op, row: RowName) -> Option<usize> {
    match op.view.get(row).unwrap_or(VersionName::Initial) {
        VersionName::Initial => Some(0),
        VersionName::Of { txn, .. } => {
            if txn == reader {
                None
            } else {
                history.installer_place(row, txn)
            }
        }
    }
}

/// The transactions that installed a row, in order.
fn installers(history: &History, row: RowName) -> &[TxnNo] {
    match history.installed().get(row) {
        None => &[],
        Some(installers) => installers.as_slice(),
    }
}

/// Whether exactly one of the version at a place and the one before it matches.
fn changes(history: &History, statement: &Statement, row: RowName, place: usize) -> bool {
    let before = match place.checked_sub(1) {
        None => history.initial().get(row),
        Some(previous) => value_after(history, row, previous),
    };
    let after = value_after(history, row, place);
    matches(statement, row, before) != matches(statement, row, after)
}

/// The value that the installer at a place left, None where it made the row absent.
fn value_after(history: &History, row: RowName, place: usize) -> Option<Value> {
    let txn = *installers(history, row).get(place)?;
    let op = history.last_write(txn, row)?;
    match history.version_state(row, VersionName::Of { txn, op })? {
        State::Absent => None,
        State::Present(value) => Some(value),
    }
}

/// Whether a row with this value, None where it is absent, matches a statement.
fn matches(statement: &Statement, row: RowName, value: Option<Value>) -> bool {
    let Some(value) = value else {
        return false;
    };
    if row.table != statement.table {
        return false;
    }
    match &statement.kind {
        StatementKind::Select { pred } => is_true(pred, row.id, value),
        StatementKind::Update { pred, .. } => is_true(pred, row.id, value),
        StatementKind::Insert { id, .. } => row.id == *id,
        StatementKind::Delete { pred } => is_true(pred, row.id, value),
    }
}

/// Whether what stands behind `where` is true of a row of this number; without a `where` it is.
fn is_true(pred: &Option<Pred>, id: RowId, value: Value) -> bool {
    match pred {
        None => true,
        Some(pred) => pred.matches(id, value),
    }
}
