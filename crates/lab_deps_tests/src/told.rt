//! The cells for each two transactions, compared with the list of the edges.

ghost use Rattle.lab_deps.specs.Soundness.{IsSound};

use lab_deps::{Dependencies, Edge, Kind, Kinds, Sound};
use lab_history::{History, Txn};
use lab_table::TxnNo;
use std::alloc::Global;

/// Whether what is told of each two transactions of a sound history is what its edges are; it isn't where memory is
/// refused.
pub fn is_told(alloc: Global, history: &History, sound: &Sound, edges: &[Edge]) -> bool
    requires { IsSound history.now }
{
    match Dependencies::of(alloc, history, sound) {
        Ok(found) => {
            let told = are_told(&found, edges, history.txns().as_slice());
            drop(found);
            told
        }
        Err(_) => false,
    }
}

/// Whether it is so of each two of these transactions.
fn are_told(found: &Dependencies, edges: &[Edge], txns: &[Txn]) -> bool {
    for txn in txns {
        if !is_told_from(found, edges, txn.no, txns) {
            return false;
        }
    }
    true
}

/// Whether it is so from a transaction to each other one.
fn is_told_from(found: &Dependencies, edges: &[Edge], from: TxnNo, txns: &[Txn]) -> bool {
    for txn in txns {
        if !is_told_between(found, edges, from, txn.no) {
            return false;
        }
    }
    true
}

/// The kinds of edges.
static KINDS: [Kind; 5] = [
    Kind::Write,
    Kind::ItemRead,
    Kind::PredicateRead,
    Kind::ItemAnti,
    Kind::PredicateAnti,
];

/// Whether it is so of each kind between two transactions.
fn is_told_between(found: &Dependencies, edges: &[Edge], from: TxnNo, to: TxnNo) -> bool {
    for kind in &KINDS {
        if !is_told_of_kind(found, edges, from, to, *kind) {
            return false;
        }
    }
    true
}

/// Whether it is so of a kind between two transactions.
fn is_told_of_kind(
    found: &Dependencies,
    edges: &[Edge],
    from: TxnNo,
    to: TxnNo,
    kind: Kind,
) -> bool {
    let due = first_of(edges, from, to, kind);
    found.kinds(from, to).has(kind) == due.is_some()
        && found.least(from, to, Kinds::none().and(kind)).ok() == Some(due)
}

/// The first of these edges that is between two transactions and of a kind.
fn first_of(edges: &[Edge], from: TxnNo, to: TxnNo, kind: Kind) -> Option<Edge> {
    for edge in edges {
        if edge.from == from && edge.to == to && edge.kind == kind {
            return Some(*edge);
        }
    }
    None
}
