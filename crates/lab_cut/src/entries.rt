//! Removes entries of views from a history.

ghost use Rattle.std.specs.Prelude.{◌≡◌, cond, ◌∷◌, [], ◌++◌, IfOk, OnOk, IfSome, length, drop};
ghost use Rattle.std.specs.FinMap as map;
ghost use Rattle.lab_cut.specs.PartOf.{IsPartOf};
ghost use Rattle.lab_cut.specs.Left.{left_of};
ghost use Rattle.lab_cut.specs.Seen as spec;

use crate::made::made;
use crate::mask::Mask;
use lab_history::{History, Installed, Installers, Op, Ops, Parts, Txn, Txns, VersionName, View};
use lab_table::{NoMemory, RowName, Table};
use std::alloc::Global;

/// Returns the history without the view entries whose flag in `kept` is `false`. The flags are in the order of the
/// file; entries beyond them stay. Returns `None` if the rest isn't a history.
pub fn without_entries(
    alloc: Global,
    history: &History,
    kept: &[bool],
) -> Result<Option<History>, NoMemory>
    ensures part { IfOk result (λ left. IfSome left (λ part. IsPartOf part history.now)) }
    ensures exact { IfOk result (λ left. IfSome left (λ part. part ≡ spec.seeing kept.now history.now)) }
{
    made(alloc, left_parts(alloc, history, kept)?)
}

/// The parts of what is left.
fn left_parts(alloc: Global, history: &History, kept: &[bool]) -> Result<Parts, NoMemory>
    ensures { IfOk result (λ parts. parts ≡ spec.seeing kept.now history.now) }
{
    Ok(Parts {
        initial: table_copy(alloc, history.initial())?,
        txns: Txns::new(left_txns(alloc, kept, history.txns().as_slice())?),
        installed: installed_copy(alloc, history.installed())?,
        end_table: table_copy(alloc, history.end_table())?,
    })
}

fn table_copy(alloc: Global, table: &Table) -> Result<Table, NoMemory>
    ensures { IfOk result (λ copy. copy ≡ table.now) }
{
    let rows = Vec::from_slice(alloc, table.rows())?;
    Ok(Table::from_rising(rows))
}

fn lists_copy(
    alloc: Global,
    entries: &[(RowName, Installers)],
) -> Result<Vec<(RowName, Installers)>, NoMemory>
    ensures { IfOk result (λ copy. copy.items ≡ entries.now) }
{
    let mut copy = Vec::with_capacity(alloc, entries.len())?;
    for (row, installers) in entries {
        copy.push((*row, installers.copy(alloc)?))?;
    }
    Ok(copy)
}

fn installed_copy(alloc: Global, installed: &Installed) -> Result<Installed, NoMemory>
    ensures { IfOk result (λ copy. copy ≡ installed.now) }
{
    let copy = lists_copy(alloc, installed.entries())?;
    Ok(Installed::new(copy))
}

/// Appends an entry, if it is kept.
fn push_kept(
    left: &mut Vec<(RowName, VersionName)>,
    kept: bool,
    entry: &(RowName, VersionName),
) -> Result<(), NoMemory>
    ensures { OnOk result (left.new.items ≡ left.old.items ++ cond kept (entry.now ∷ []) []) }
{
    if !kept {
        return Ok(());
    }
    left.push(*entry)?;
    Ok(())
}

/// The entries that a mask keeps.
fn left_entries(
    alloc: Global,
    mask: &mut Mask,
    entries: &[(RowName, VersionName)],
) -> Result<Vec<(RowName, VersionName)>, NoMemory>
    ensures left { IfOk result (λ left. left.items ≡ left_of mask.old entries.now) }
    ensures rest { OnOk result (mask.new ≡ drop (length entries.now) mask.old) }
{
    let mut left = Vec::with_capacity(alloc, entries.len())?;
    for entry in entries {
        push_kept(&mut left, mask.next(), entry)?;
    }
    Ok(left)
}

/// The entries of a view that a mask keeps.
fn left_view(alloc: Global, mask: &mut Mask, view: &View) -> Result<View, NoMemory>
    ensures left { IfOk result (λ left. left ≡ map.from_sorted (left_of mask.old (map.entries view.now))) }
    ensures rest { OnOk result (mask.new ≡ drop (length (map.entries view.now)) mask.old) }
{
    let left = left_entries(alloc, mask, view.entries())?;
    Ok(View::new(left))
}

/// An operation that saw the entries which a mask keeps.
fn left_op(alloc: Global, mask: &mut Mask, op: &Op) -> Result<Op, NoMemory>
    ensures left { IfOk result (λ left. left ≡ spec.op_seeing mask.old op.now) }
    ensures rest { OnOk result (mask.new ≡ drop (length (map.entries op.now.view)) mask.old) }
{
    Ok(Op {
        statement: op.statement.copy(alloc)?,
        view: left_view(alloc, mask, &op.view)?,
        rows: op.rows.copy(alloc)?,
        writes: op.writes.copy(alloc)?,
    })
}

/// Operations that saw the entries which a mask keeps.
fn left_ops(alloc: Global, mask: &mut Mask, ops: &[Op]) -> Result<Vec<Op>, NoMemory>
    ensures left { IfOk result (λ left. left.items ≡ spec.ops_seeing mask.old ops.now) }
    ensures rest { OnOk result (mask.new ≡ spec.behind_views mask.old ops.now) }
{
    let mut left = Vec::with_capacity(alloc, ops.len())?;
    for op in ops {
        left.push(left_op(alloc, mask, op)?)?;
    }
    Ok(left)
}

/// Transactions whose operations saw the entries which a mask keeps.
fn left_txns(alloc: Global, kept: &[bool], txns: &[Txn]) -> Result<Vec<Txn>, NoMemory>
    ensures { IfOk result (λ left. left.items ≡ spec.txns_seeing kept.now txns.now) }
{
    let mut left = Vec::with_capacity(alloc, txns.len())?;
    let mut mask = Mask::new(kept);
    for txn in txns {
        left.push(Txn {
            no: txn.no,
            outcome: txn.outcome,
            ops: Ops::new(left_ops(alloc, &mut mask, txn.ops.as_slice())?),
        })?;
    }
    Ok(left)
}
