//! The classes of steps, by which a style finds the arrow and the boxes of each.

ghost use Rattle.std.specs.Prelude.{◌≡◌, ◌++◌, ◌≤◌, flat_map, length, IfOk, OnOk};
ghost use Rattle.lab_picture.specs.Classes.{next_class, class_text, arrow_steps, is_dependency, first_steps, is_step_at, steps_from, box_steps, arrow_class, box_class};

use crate::layout::Column;
use crate::named::touches;
use lab_drawing::{Arrow, Tie, put_number};
use lab_table::{NoMemory, TxnNo};
use std::alloc::Global;

/// How many steps have classes.
const MAX_STEPS: usize = 20;

/// Appends the classes of steps, each behind another.
fn put_next(out: &mut Vec<u8>, steps: &[u64]) -> Result<(), NoMemory>
    ensures { OnOk result (out.new.items ≡ out.old.items ++ flat_map next_class steps.now) }
{
    for step in steps {
        out.extend_from_slice(b" p-")?;
        put_number(out, *step)?;
    }
    Ok(())
}

/// The attribute with the classes of some steps; empty of none.
fn class_of(alloc: Global, steps: &[u64]) -> Result<Vec<u8>, NoMemory>
    ensures { IfOk result (λ class. class.items ≡ class_text steps.now) }
{
    let mut class = Vec::new(alloc);
    if let Some((first, more)) = steps.split_first() {
        class.extend_from_slice(b" class=\"p-")?;
        put_number(&mut class, *first)?;
        put_next(&mut class, more)?;
        class.extend_from_slice(b"\"")?;
    }
    Ok(class)
}

/// The steps of an arrow that so many come before.
fn arrow_steps(alloc: Global, before: usize, tie: Tie) -> Result<Vec<u64>, NoMemory>
    ensures { IfOk result (λ steps. steps.items ≡ arrow_steps before tie) }
{
    match tie {
        Tie::Dependency(_) => {
            if before < MAX_STEPS {
                Vec::from_slice(alloc, &[before as u64 + 1])
            } else {
                Ok(Vec::new(alloc))
            }
        }
        Tie::Version => Vec::from_slice(alloc, &[0]),
    }
}

/// The class of an arrow that so many come before.
pub fn arrow_class(alloc: Global, before: usize, tie: Tie) -> Result<Vec<u8>, NoMemory>
    ensures { IfOk result (λ class. class.items ≡ arrow_class before tie) }
{
    let steps = arrow_steps(alloc, before, tie)?;
    class_of(alloc, &steps)
}

/// Whether it is a dependency that ties two operations.
fn is_dependency(tie: Tie) -> bool
    ensures { result ≡ is_dependency tie }
{
    match tie {
        Tie::Dependency(_) => true,
        Tie::Version => false,
    }
}

/// The arrows whose steps have classes.
fn first_steps(arrows: &[Arrow]) -> &[Arrow]
    ensures value { result.now ≡ first_steps arrows.now }
    ensures few { length result.now ≤ 20 }
{
    &arrows[..arrows.len().min(MAX_STEPS)]
}

/// Whether an arrow is that of a dependency and leads from an operation, or to it.
fn is_step_at(txn: TxnNo, op: u32, arrow: &Arrow) -> bool
    ensures { result ≡ is_step_at txn op arrow.now }
{
    is_dependency(arrow.tie) && touches(txn, op, arrow)
}

/// The steps whose arrows lead from an operation, or to it.
fn steps_at(alloc: Global, txn: TxnNo, op: u32, arrows: &[Arrow]) -> Result<Vec<u64>, NoMemory>
    requires { length arrows.now ≤ 20 }
    ensures { IfOk result (λ steps. steps.items ≡ steps_from txn op 0 arrows.now) }
{
    let mut steps = Vec::new(alloc);
    for (index, arrow) in arrows.iter().enumerate() {
        if is_step_at(txn, op, arrow) {
            steps.push(index as u64 + 1)?;
        }
    }
    Ok(steps)
}

/// The steps of a column's box.
fn box_steps(
    alloc: Global,
    arrows: &[Arrow],
    column: &Column,
    op: u32,
) -> Result<Vec<u64>, NoMemory>
    ensures { IfOk result (λ steps. steps.items ≡ box_steps arrows.now column.now op) }
{
    if op == column.marked {
        Vec::from_slice(alloc, &[0])
    } else {
        steps_at(alloc, column.txn, op, first_steps(arrows))
    }
}

/// The class of a column's box.
pub fn box_class(
    alloc: Global,
    arrows: &[Arrow],
    column: &Column,
    op: u32,
) -> Result<Vec<u8>, NoMemory>
    ensures { IfOk result (λ class. class.items ≡ box_class arrows.now column.now op) }
{
    let steps = box_steps(alloc, arrows, column, op)?;
    class_of(alloc, &steps)
}
