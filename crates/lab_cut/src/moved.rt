//! Transactions with the operations that are kept, which are counted anew.

ghost use Rattle.std.specs.Prelude.{◌≡◌, cond, ◌∷◌, [], ◌++◌, IfOk, OnOk, length, drop, map};
ghost use Rattle.lab_cut.specs.Cut as cut;
ghost use Rattle.lab_cut.specs.Left.{left_of};
ghost use Rattle.lab_cut.specs.Kept.{kept_in};
ghost use Rattle.lab_cut.specs.MadeEntries.{made_entries};

use crate::kept::Moves;
use crate::mask::Mask;
use lab_history::{Op, Ops, Txn, VersionName, View};
use lab_table::{NoMemory, RowName};
use std::alloc::Global;

/// The new number of an operation that had this one, or None where it goes. One that isn't there keeps its own.
fn number_after(operation: u32, number: Option<u32>) -> Option<u32>
    ensures { result ≡ cut.number_after operation number }
{
    match number {
        None => Some(operation),
        Some(number) => { if number == 0 { None } else { Some(number) } }
    }
}

/// A version under its new name, or None where its operation goes.
fn renamed(moves: &Moves, version: VersionName) -> Option<VersionName>
    ensures { result ≡ cut.renamed (kept_in moves.now) version }
{
    match version {
        VersionName::Initial => Some(VersionName::Initial),
        VersionName::Of { txn, op } => {
            let op = number_after(op, moves.number_of(txn, op))?;
            Some(VersionName::Of { txn, op })
        }
    }
}

/// The entries of a view under their new names.
fn left_entries(
    alloc: Global,
    moves: &Moves,
    entries: &[(RowName, VersionName)],
) -> Result<Vec<(RowName, VersionName)>, NoMemory>
    ensures { IfOk result (λ left. left.items ≡ made_entries (λ row version. cut.renamed (kept_in moves.now) version) entries.now) }
{
    let mut left = Vec::with_capacity(alloc, entries.len())?;
    for (row, version) in entries {
        if let Some(renamed) = renamed(moves, *version) {
            left.push((*row, renamed))?;
        }
    }
    Ok(left)
}

/// What is left of a view.
fn left_view(alloc: Global, moves: &Moves, view: &View) -> Result<View, NoMemory>
    ensures { IfOk result (λ left. left ≡ cut.left_view (kept_in moves.now) view.now) }
{
    let left = left_entries(alloc, moves, view.entries())?;
    Ok(View::new(left))
}

/// An operation with what is left of its view.
fn left_op(alloc: Global, moves: &Moves, op: &Op) -> Result<Op, NoMemory>
    ensures { IfOk result (λ left. left ≡ cut.left_op (kept_in moves.now) op.now) }
{
    Ok(Op {
        statement: op.statement.copy(alloc)?,
        view: left_view(alloc, moves, &op.view)?,
        rows: op.rows.copy(alloc)?,
        writes: op.writes.copy(alloc)?,
    })
}

/// Appends what is left of an operation, if it is kept.
fn push_kept(
    alloc: Global,
    moves: &Moves,
    left: &mut Vec<Op>,
    kept: bool,
    op: &Op,
) -> Result<(), NoMemory>
    ensures { OnOk result (left.new.items ≡ left.old.items ++ cond kept (cut.left_op (kept_in moves.now) op.now ∷ []) []) }
{
    if !kept {
        return Ok(());
    }
    left.push(left_op(alloc, moves, op)?)?;
    Ok(())
}

/// The operations of a transaction that a mask keeps.
fn left_ops(alloc: Global, moves: &Moves, mask: &mut Mask, ops: &[Op]) -> Result<Vec<Op>, NoMemory>
    ensures left { IfOk result (λ left. left.items ≡ map (cut.left_op (kept_in moves.now)) (left_of mask.old ops.now)) }
    ensures rest { OnOk result (mask.new ≡ drop (length ops.now) mask.old) }
{
    let mut left = Vec::new(alloc);
    for op in ops {
        push_kept(alloc, moves, &mut left, mask.next(), op)?;
    }
    Ok(left)
}

/// A transaction, if it has an operation.
#[tactic(auto, using(crate::proofs::Lists::no_operation, crate::proofs::Lists::some_operation))]
fn if_any(txn: Txn) -> Option<Txn>
    ensures { result ≡ cut.txn_of txn.no txn.outcome txn.ops }
{
    if txn.ops.as_slice().is_empty() {
        None
    } else {
        Some(txn)
    }
}

/// The transactions with the operations that are kept, but for those that have none.
pub fn left_txns(
    alloc: Global,
    moves: &Moves,
    kept: &[bool],
    txns: &[Txn],
) -> Result<Vec<Txn>, NoMemory>
    ensures { IfOk result (λ left. left.items ≡ cut.left_txns (kept_in moves.now) kept.now txns.now) }
{
    let mut left = Vec::new(alloc);
    let mut mask = Mask::new(kept);
    for txn in txns {
        let ops = left_ops(alloc, moves, &mut mask, txn.ops.as_slice())?;
        let txn = Txn {
            no: txn.no,
            outcome: txn.outcome,
            ops: Ops::new(ops),
        };
        if let Some(txn) = if_any(txn) {
            left.push(txn)?;
        }
    }
    Ok(left)
}
