//! Passes over a history, in which blocks of one length are taken away where they can be.

ghost use Rattle.std.specs.Prelude.{IfOk, IfSome};
ghost use Rattle.lab_shrink.specs.Smaller.{IsSmaller};

use crate::block::{Block, Sort};
use crate::goal::Goal;
use crate::measure::count;
use crate::onward::smallest;
use crate::trial::tried_without;
use crate::work::Work;
use lab_history::History;
use lab_table::NoMemory;
use std::alloc::Global;

/// Takes away blocks of so many things of a sort, from the last to the first, each that can go; behind one that went a
/// block of twice the length is tried, and so on. What is left, where one went.
#[tactic(auto, using(crate::proofs::SmallerStill::smaller_still))]
pub fn pass(
    alloc: Global,
    goal: Goal,
    whole: &History,
    sort: Sort,
    length: usize,
    work: &mut Work,
) -> Result<Option<History>, NoMemory>
    ensures { IfOk result (λ found. IfSome found (IsSmaller whole.now goal)) }
{
    let mut found = None;
    let mut to = count(alloc, whole, sort)?;
    let mut next = length;
    for _ in 0..to.saturating_mul(2) {
        if to == 0 || work.is_over() {
            break;
        }
        let from = to.saturating_sub(next.max(1));
        let block = Block { sort, from, to };
        match tried_without(alloc, goal, smallest(&found, whole), block, work)? {
            Some(part) => {
                found = Some(part);
                to = from;
                next = next.saturating_mul(2);
            }
            None => {
                if next > length {
                    next = length;
                } else {
                    to = from;
                }
            }
        }
    }
    Ok(found)
}
