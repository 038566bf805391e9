//! The operations that make a dependency.

ghost use Rattle.std.specs.Prelude.{◌≡◌, ◌≤◌, length};
ghost use Rattle.lab_history.specs.Limits.{max_operations};
ghost use Rattle.lab_drawing.specs.Making.{ties, makes, is_made, first_op, reader_of, writer_of, from_of, to_of, arrow_of};

use crate::drawing::{Arrow, Spot, Tie};
use crate::states::{changes, ops_of};
use lab_deps::{Edge, Kind, place_of, viewed};
use lab_history::{History, Op};
use lab_table::{RowName, TxnNo};

/// The transaction that a dependency reads in; of two writers the later one.
fn reader_of(edge: &Edge) -> TxnNo
    ensures { result ≡ reader_of edge.now }
{
    match edge.kind {
        Kind::ItemAnti | Kind::PredicateAnti => edge.from,
        Kind::Write | Kind::ItemRead | Kind::PredicateRead => edge.to,
    }
}

/// The transaction that installs what a dependency is about; of two writers the earlier one.
fn writer_of(edge: &Edge) -> TxnNo
    ensures { result ≡ writer_of edge.now }
{
    match edge.kind {
        Kind::ItemAnti | Kind::PredicateAnti => edge.to,
        Kind::Write | Kind::ItemRead | Kind::PredicateRead => edge.from,
    }
}

/// Whether an operation that sees the version at one place depends so on the one that is installed at another.
fn ties(history: &History, kind: Kind, row: RowName, op: &Op, seen: usize, own: usize) -> bool
    ensures { result ≡ ties history.now kind row op.now seen own }
{
    match kind {
        Kind::Write => false,
        Kind::ItemRead => seen == own && op.rows.get(row).is_some(),
        Kind::PredicateRead => {
            own <= seen && changes(history, &op.statement, row, own.saturating_sub(1))
        }
        Kind::ItemAnti => seen < own && own - 1 == seen && op.rows.get(row).is_some(),
        Kind::PredicateAnti => {
            seen < own && changes(history, &op.statement, row, own.saturating_sub(1))
        }
    }
}

/// Whether an operation of the reader makes a dependency.
fn makes(history: &History, edge: &Edge, op: &Op) -> bool
    ensures { result ≡ makes history.now edge.now op.now }
{
    let version = viewed(op, edge.row);
    let Some(seen) = place_of(history, reader_of(edge), edge.row, version) else {
        return false;
    };
    let Some(own) = history.installer_place(edge.row, writer_of(edge)) else {
        return false;
    };
    ties(history, edge.kind, edge.row, op, seen, own)
}

/// Whether an operation of the reader makes a dependency. Of two writers none does.
pub fn is_made(history: &History, edge: &Edge) -> bool
    ensures { result ≡ is_made history.now edge.now }
{
    ops_of(history, reader_of(edge))
        .iter()
        .any(|op| makes(history, edge, op))
}

/// The first of the reader's operations that makes a dependency.
fn first_op(history: &History, edge: &Edge, ops: &[Op]) -> Option<u32>
    requires { length ops.now ≤ max_operations }
    ensures { result ≡ first_op (makes history.now edge.now) 0 ops.now }
{
    for (index, op) in ops.iter().enumerate() {
        if makes(history, edge, op) {
            return Some(index as u32 + 1);
        }
    }
    None
}

/// The operation that a dependency leads from.
fn from_op(history: &History, edge: &Edge) -> Option<u32>
    ensures { result ≡ from_of history.now edge.now edge.now.kind }
{
    match edge.kind {
        Kind::ItemAnti | Kind::PredicateAnti => {
            first_op(history, edge, ops_of(history, edge.from))
        }
        Kind::Write | Kind::ItemRead | Kind::PredicateRead => {
            history.last_write(edge.from, edge.row)
        }
    }
}

/// The operation that a dependency leads to.
fn to_op(history: &History, edge: &Edge) -> Option<u32>
    ensures { result ≡ to_of history.now edge.now edge.now.kind }
{
    match edge.kind {
        Kind::ItemRead | Kind::PredicateRead => first_op(history, edge, ops_of(history, edge.to)),
        Kind::Write | Kind::ItemAnti | Kind::PredicateAnti => {
            history.last_write(edge.to, edge.row)
        }
    }
}

/// Returns the arrow of a dependency, between the operations that make it, or `None` if there are none.
pub fn arrow_of(history: &History, edge: &Edge) -> Option<Arrow>
    ensures { result ≡ arrow_of history.now edge.now }
{
    let from = from_op(history, edge)?;
    let to = to_op(history, edge)?;
    Some(Arrow {
        from: Spot {
            txn: edge.from,
            op: from,
        },
        to: Spot {
            txn: edge.to,
            op: to,
        },
        tie: Tie::Dependency(edge.kind),
        row: edge.row,
    })
}
