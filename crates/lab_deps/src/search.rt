//! The first fault that is found at operations, by one walk over them.
//!
//! What is found says what is still looked for: the kinds that come before its own. Most operations see nothing but what
//! they may see, and that is found at once for all kinds that say otherwise.

ghost use Rattle.std.specs.Prelude.{◌≡◌, ◌≤◌, ◌+◌, true, Some, T, length, take, IfSome};
ghost use Rattle.std.specs.Option.{option_copied};
ghost use Rattle.std.specs.FinMap as map;
ghost use Rattle.lab_table.specs.Row.{Row, row_cmp};
ghost use Rattle.lab_history.specs.Limits.{max_operations};
ghost use Rattle.lab_history.specs.Version.{IsCommitted, ops_of};
ghost use Rattle.lab_history.specs.declared.operation.Op.{Op as Before};
ghost use Rattle.lab_history.specs.declared.operation.VersionName.{VersionName as Named};
ghost use Rattle.lab_deps.specs.FaultOrder.{place_among};
ghost use Rattle.lab_deps.specs.FirstOf.{IsFirstOf};
ghost use Rattle.lab_deps.specs.Search.{limit, ComesFirst, IsSought, IsSoughtTo, IsSoughtAt, IsStep, IsTxnOf};

use crate::broken_rows::{Step, broken_row};
use crate::fine::sees_fine;
use crate::kind::OpFault;
use crate::lookup::{Hints, op_of};
use lab_history::{History, Op, Outcome, Txn, VersionName};
use lab_table::{RowName, TxnNo};

/// A fault at the operation `op` of a transaction, counted from 1, and a row.
#[derive(Clone, Copy)]
pub struct Found {
    pub kind: OpFault,
    /// The place of the kind among those that are looked for.
    pub place: usize,
    pub txn: TxnNo,
    pub op: u32,
    pub row: RowName,
}

/// The first fault at the operations of committed transactions, of kinds that are given in their order. There may be None
/// in the place of a kind.
pub fn first_at_ops(history: &History, kinds: &[Option<OpFault>]) -> Option<Found>
    ensures { IsFirstOf (ComesFirst history.now) (IsSought history.now kinds.now) result }
{
    let mut found = None;
    let txns = history.txns().as_slice();
    for txn in txns {
        found = first_in_txn(history, kinds, found, txn);
    }
    found
}

/// The first of what is found so far and of the faults at a transaction.
fn first_in_txn(
    history: &History,
    kinds: &[Option<OpFault>],
    found: Option<Found>,
    txn: &Txn,
) -> Option<Found>
    requires txn { IsTxnOf history.now txn.now }
    requires found { IsFirstOf (ComesFirst history.now) (IsSoughtTo history.now kinds.now (place_among history.now.txns txn.now.no) 0) found }
    ensures { IsFirstOf (ComesFirst history.now) (IsSoughtTo history.now kinds.now (place_among history.now.txns txn.now.no + 1) 0) result }
{
    match txn.outcome {
        Outcome::Aborted => found,
        Outcome::Committed => first_in_ops(history, kinds, found, txn.no, txn.ops.as_slice()),
    }
}

/// The same of a committed transaction with these operations.
fn first_in_ops(
    history: &History,
    kinds: &[Option<OpFault>],
    found: Option<Found>,
    txn: TxnNo,
    ops: &[Op],
) -> Option<Found>
    requires committed { IsCommitted history.now txn }
    requires few { length ops.now ≤ max_operations }
    requires ops { ops_of history.now txn ≡ ops.now }
    requires found { IsFirstOf (ComesFirst history.now) (IsSoughtTo history.now kinds.now (place_among history.now.txns txn) 0) found }
    ensures { IsFirstOf (ComesFirst history.now) (IsSoughtTo history.now kinds.now (place_among history.now.txns txn + 1) 0) result }
{
    let mut found = found;
    let mut fine = false;
    let mut known: &[(RowName, VersionName)] = &[];
    let mut hints = Hints::new();
    for (index, op) in ops.iter().enumerate() {
        let left = kinds_before(kinds, &found);
        if left.is_empty() {
            return found;
        }
        let number = index as u32 + 1;
        let before = op_of(ops, number - 1);
        let again = sees_again(fine, before, op);
        fine = sees_fine(history, txn, number, known, again, op, &mut hints);
        known = known_of(fine, op);
        let step = Step {
            txn,
            number,
            op,
            before,
            again,
            fine,
        };
        found = first_at_step(history, left, &step).or(found);
    }
    found
}

/// The kinds that come before what is found, if anything is.
fn kinds_before<'k>(kinds: &'k [Option<OpFault>], found: &Option<Found>) -> &'k [Option<OpFault>]
    requires { IfSome found.now (λ f. f.place ≤ length kinds.now) }
    ensures { result.now ≡ take (limit kinds.now found.now) kinds.now }
{
    match found {
        None => kinds,
        Some(found) => &kinds[..found.place],
    }
}

/// Whether an operation sees the same as the one before it, where there is one and what that sees is fine.
fn sees_again(fine: bool, before: Option<&Op>, op: &Op) -> bool
    ensures { result ≡ true → (fine ≡ true) × ((b : Before) × (option_copied before.entry ≡ Some b) × (b.view ≡ op.now.view)) }
{
    match before {
        None => false,
        Some(before) => fine && before.view.equals(&op.view),
    }
}

/// What an operation sees, where that is fine.
fn known_of(fine: bool, op: &Op) -> &[(RowName, VersionName)]
    ensures sorted { T (map.is_sorted row_cmp result.now) }
    ensures seen { (row : Row) (v : Named) → map.find row_cmp row result.now ≡ Some v → (fine ≡ true) × (map.get op.now.view row ≡ Some v) }
{
    if fine { op.view.entries() } else { &[] }
}

/// The first fault at an operation.
fn first_at_step(history: &History, kinds: &[Option<OpFault>], step: &Step) -> Option<Found>
    requires { IsStep history.now step.now }
    ensures { IsFirstOf (ComesFirst history.now) (IsSoughtAt history.now kinds.now step.now.txn step.now.number) result }
{
    for (place, kind) in kinds.iter().enumerate() {
        if let Some(kind) = *kind {
            if let Some(row) = broken_row(history, kind, step) {
                return Some(Found {
                    kind,
                    place,
                    txn: step.txn,
                    op: step.number,
                    row,
                });
            }
        }
    }
    None
}
