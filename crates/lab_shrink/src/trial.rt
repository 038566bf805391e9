//! Trying whether a smaller history shows the goal.

ghost use Rattle.std.specs.Prelude.{◌≡◌, true, IfOk, IfSome};
ghost use Rattle.lab_cut.specs.PartOf.{IsPartOf};
ghost use Rattle.lab_shrink.specs.Goals.{Shows};
ghost use Rattle.lab_shrink.specs.Smaller.{IsSmaller};

use crate::block::Block;
use crate::goal::Goal;
use crate::measure::size_of;
use crate::work::Work;
use lab_history::History;
use lab_judge::judge;
use lab_table::NoMemory;
use std::alloc::Global;

/// Whether a history shows a goal.
#[tactic(auto, using(crate::proofs::GoalsShown::shown_where))]
fn shows(alloc: Global, history: &History, goal: Goal) -> Result<bool, NoMemory>
    ensures { IfOk result (λ shown. shown ≡ true → Shows history.now goal) }
{
    let report = judge(alloc, history)?;
    Ok(goal.is_shown_by(&report))
}

/// A part of a history, where it has less than that and shows the goal.
#[tactic(auto, using(crate::proofs::SmallerStill::smaller_part))]
pub fn tried(
    alloc: Global,
    goal: Goal,
    whole: &History,
    part: Option<History>,
    work: &mut Work,
) -> Result<Option<History>, NoMemory>
    requires { IfSome part (λ part. IsPartOf part whole.now) }
    ensures { IfOk result (λ found. IfSome found (IsSmaller whole.now goal)) }
{
    let Some(part) = part else {
        return Ok(None);
    };
    if size_of(&part) >= size_of(whole) {
        drop(part);
        return Ok(None);
    }
    work.add_judgement(&part);
    if !shows(alloc, &part, goal)? {
        drop(part);
        return Ok(None);
    }
    Ok(Some(part))
}

/// A history without a block, where that shows the goal.
pub fn tried_without(
    alloc: Global,
    goal: Goal,
    history: &History,
    block: Block,
    work: &mut Work,
) -> Result<Option<History>, NoMemory>
    ensures { IfOk result (λ found. IfSome found (IsSmaller history.now goal)) }
{
    work.add_sifting();
    if !work.sieve.lets_through(alloc, block)? {
        return Ok(None);
    }
    let part = block.taken_from(alloc, history)?;
    match tried(alloc, goal, history, part, work)? {
        Some(part) => {
            work.sieve.forget();
            Ok(Some(part))
        }
        None => {
            work.sieve.learn(alloc, history)?;
            Ok(None)
        }
    }
}
