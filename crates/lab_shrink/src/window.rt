//! Which operations stay: the named ones, and those that they need.

use crate::lead::Lead;
use crate::measure::size_of;
use crate::needs::Needs;
use crate::op_name::OpName;
use crate::standing::Standings;
use lab_history::{History, Op, VersionName};
use lab_table::{NoMemory, RowName};
use std::alloc::Global;

/// The most times that operations are added for those that stay.
const TURNS: usize = 16;

/// The number from 1 of an operation at a place.
fn number_at(place: usize) -> u32 {
    u32::try_from(place).unwrap_or(u32::MAX).saturating_add(1)
}

/// Notes that the operation of a name stays; false where it did, or where there is none.
fn add_name(kept: &mut Vec<bool>, standings: &Standings, name: &OpName) -> bool {
    let Some(standing) = standings.find(name.txn) else {
        return false;
    };
    match kept.get_mut(standing.number_of(name.op)) {
        Some(stays) => {
            let is_new = !*stays;
            *stays = true;
            is_new
        }
        None => false,
    }
}

/// What the operations that stay need at some rows.
fn needs_of(
    alloc: Global,
    history: &History,
    rows: &[RowName],
    kept: &[bool],
) -> Result<Needs, NoMemory> {
    let mut needs = Needs::none(alloc, rows.len())?;
    let mut stays = kept.iter();
    for txn in history.txns().as_slice() {
        for (place, op) in txn.ops.as_slice().iter().enumerate() {
            if stays.next().copied().unwrap_or(false) {
                let name = OpName {
                    txn: txn.no,
                    op: number_at(place),
                };
                needs.add_op(history, &name, op, rows)?;
            }
        }
    }
    Ok(needs)
}

/// Adds the writers of what an operation saw of some rows, but of the versions with which rows begin.
fn push_writers(
    needed: &mut Vec<OpName>,
    needs: &Needs,
    history: &History,
    name: &OpName,
    rows: &[RowName],
    from_start: bool,
) -> Result<(), NoMemory> {
    let Some(op) = op_named(history, name) else {
        return Ok(());
    };
    for (row, version) in op.view.entries() {
        if let Ok(at) = rows.binary_search(row)
            && let VersionName::Of { txn, op: number } = *version
            && needs.is_after(history, name.txn, txn, at, *row, from_start)
        {
            needed.push(OpName { txn, op: number })?;
        }
    }
    Ok(())
}

/// The operation of this name, if there is one.
fn op_named<'h>(history: &'h History, name: &OpName) -> Option<&'h Op> {
    let place = name.op.checked_sub(1)? as usize;
    history.txn(name.txn)?.ops.as_slice().get(place)
}

/// Which operations stay once those that are needed do.
fn kept_more(
    alloc: Global,
    history: &History,
    lead: &Lead,
    kept: &[bool],
    from_start: bool,
) -> Result<Vec<bool>, NoMemory> {
    let needs = needs_of(alloc, history, &lead.rows, kept)?;
    let standings = Standings::of(alloc, history)?;
    let mut more = Vec::new(alloc);
    more.extend_from_slice(kept)?;
    let mut needed = needs.needed(alloc, history, &lead.rows, from_start)?;
    // Each operation is added once, and then the writers of what it saw are looked at.
    for _ in 0..size_of(history).saturating_mul(2) {
        let Some(name) = needed.pop() else {
            break;
        };
        if add_name(&mut more, &standings, &name) {
            push_writers(&mut needed, &needs, history, &name, &lead.rows, from_start)?;
        }
    }
    Ok(more)
}

/// Of each operation, whether it is named, or is needed by those that are; with `from_start` the first writers of each
/// row are needed, too.
pub fn kept_with(
    alloc: Global,
    history: &History,
    lead: &Lead,
    from_start: bool,
) -> Result<Vec<bool>, NoMemory> {
    let mut kept = kept_more(alloc, history, lead, &lead.named, from_start)?;
    for _ in 0..TURNS {
        let more = kept_more(alloc, history, lead, &kept, from_start)?;
        let is_same = more.as_slice() == kept.as_slice();
        kept = more;
        if is_same {
            break;
        }
    }
    Ok(kept)
}
