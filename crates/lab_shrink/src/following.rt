//! Following what a judgement names.

ghost use Rattle.std.specs.Prelude.{IfOk, IfSome};
ghost use Rattle.lab_cut.specs.PartOf.{IsPartOf};
ghost use Rattle.lab_shrink.specs.Smaller.{IsSmaller};

use crate::goal::Goal;
use crate::lead::Lead;
use crate::leads::leads_of;
use crate::onward::smallest;
use crate::trial::tried;
use crate::window::kept_with;
use crate::work::Work;
use lab_cut::{with_rows, without_operations};
use lab_history::History;
use lab_table::{NoMemory, RowName};
use std::alloc::Global;

/// The most times that leads are followed; each takes something away.
const LEADS: usize = 8;

/// What is left of a history with these rows alone, and of its operations those that are kept.
fn followed(
    alloc: Global,
    history: &History,
    rows: &[RowName],
    kept: &[bool],
) -> Result<Option<History>, NoMemory>
    ensures { IfOk result (λ left. IfSome left (λ part. IsPartOf part history.now)) }
{
    match with_rows(alloc, history, rows)? {
        Some(fewer) => without_operations(alloc, &fewer, kept),
        None => Ok(None),
    }
}

/// What is left of a history where a lead is followed, if that shows the goal: the named rows alone, the named
/// operations, and those that these need; with the first of the rows' writers gone, or with them all.
fn led_by(
    alloc: Global,
    goal: Goal,
    whole: &History,
    lead: &Lead,
    work: &mut Work,
) -> Result<Option<History>, NoMemory>
    ensures { IfOk result (λ found. IfSome found (IsSmaller whole.now goal)) }
{
    let near = kept_with(alloc, whole, lead, false)?;
    let part = followed(alloc, whole, &lead.rows, &near)?;
    if let Some(part) = tried(alloc, goal, whole, part, work)? {
        return Ok(Some(part));
    }
    let far = kept_with(alloc, whole, lead, true)?;
    if far.as_slice() == near.as_slice() {
        return Ok(None);
    }
    let part = followed(alloc, whole, &lead.rows, &far)?;
    tried(alloc, goal, whole, part, work)
}

/// What is left of a history where what its judgement names is kept, if that shows the goal.
fn led_once(
    alloc: Global,
    goal: Goal,
    whole: &History,
    work: &mut Work,
) -> Result<Option<History>, NoMemory>
    ensures { IfOk result (λ found. IfSome found (IsSmaller whole.now goal)) }
{
    let leads = leads_of(alloc, whole, goal)?;
    for lead in leads.iter() {
        if let Some(part) = led_by(alloc, goal, whole, lead, work)? {
            return Ok(Some(part));
        }
    }
    Ok(None)
}

/// What is left of a history where the leads of judgements are followed, one after another.
pub fn led(
    alloc: Global,
    goal: Goal,
    whole: &History,
    work: &mut Work,
) -> Result<Option<History>, NoMemory>
    ensures { IfOk result (λ found. IfSome found (IsSmaller whole.now goal)) }
{
    let mut found = None;
    for _ in 0..LEADS {
        match led_once(alloc, goal, smallest(&found, whole), work)? {
            Some(part) => found = Some(part),
            None => break,
        }
    }
    Ok(found)
}
