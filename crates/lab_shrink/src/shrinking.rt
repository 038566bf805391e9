//! Shrinks a history until nothing more can be removed.

ghost use Rattle.std.specs.Prelude.{IfOk, IfSome};
ghost use Rattle.lab_shrink.specs.Smaller.{IsSmaller};

use crate::block::Sort;
use crate::following::led;
use crate::goal::Goal;
use crate::measure::{count, count_operations};
use crate::onward::smallest;
use crate::pass::pass;
use crate::work::Work;
use lab_history::History;
use lab_table::NoMemory;
use std::alloc::Global;

/// The sorts of things, in the order in which they are taken away.
const SORTS: [Sort; 4] = [
    Sort::Transactions,
    Sort::Operations,
    Sort::Rows,
    Sort::Entries,
];

/// The most rounds; each takes something away.
const ROUNDS: usize = 1_000;

/// Receives the progress of a search.
pub trait Watcher {
    /// Called when `transactions` and `operations` are left.
    fn left(&mut self, transactions: usize, operations: usize);
}

/// The result of shrinking a history.
#[derive(Drop)]
pub struct Shrunk {
    /// The rest, or `None` if nothing could be removed.
    pub history: Option<History>,
    /// Whether nothing more can be removed; otherwise the search ended before that was known.
    pub is_least: bool,
}

/// Tells the watcher how much is left.
fn tell<W: Watcher>(watcher: &mut W, history: &History) {
    watcher.left(history.txns().as_slice().len(), count_operations(history));
}

/// The length of the blocks that are tried first: half of a count, rounded up.
fn half(count: usize) -> usize {
    count / 2 + count % 2
}

/// Takes away blocks of a sort, of this length at first and then of half as many, down to one.
#[tactic(auto, using(crate::proofs::SmallerStill::smaller_still))]
fn take_sort<W: Watcher>(
    alloc: Global,
    goal: Goal,
    whole: &History,
    sort: Sort,
    first: usize,
    work: &mut Work,
    watcher: &mut W,
) -> Result<Option<History>, NoMemory>
    ensures { IfOk result (λ found. IfSome found (IsSmaller whole.now goal)) }
{
    let mut found = None;
    let mut length = first;
    while length > 0 {
        let current = smallest(&found, whole);
        tell(watcher, current);
        if let Some(part) = pass(alloc, goal, current, sort, length, work)? {
            found = Some(part);
        }
        length /= 2;
    }
    Ok(found)
}

/// Takes away what can go of each sort: in the first round long blocks at first, later one thing at a time.
#[tactic(auto, using(crate::proofs::SmallerStill::smaller_still))]
fn take_round<W: Watcher>(
    alloc: Global,
    goal: Goal,
    whole: &History,
    is_first: bool,
    work: &mut Work,
    watcher: &mut W,
) -> Result<Option<History>, NoMemory>
    ensures { IfOk result (λ found. IfSome found (IsSmaller whole.now goal)) }
{
    let mut found = None;
    for sort in SORTS {
        let current = smallest(&found, whole);
        let first = if is_first {
            half(count(alloc, current, sort)?)
        } else {
            1
        };
        if let Some(part) = take_sort(alloc, goal, current, sort, first, work, watcher)? {
            found = Some(part);
        }
    }
    Ok(found)
}

/// Shrinks a history: returns a part of it that shows the goal, or `None` in `history` if nothing could be removed.
/// `is_least` says whether the search ended with a part from which no transaction, operation, row or view entry can be
/// removed; no clause states this. The search first keeps what the judgement names, a cycle or a fault, with what that
/// needs. Then it removes halves, quarters and so on, of transactions, operations, rows and view entries.
pub fn shrink<W: Watcher>(
    alloc: Global,
    history: &History,
    goal: Goal,
    watcher: &mut W,
) -> Result<Shrunk, NoMemory>
    ensures { IfOk result (λ shrunk. IfSome shrunk.history (IsSmaller history.now goal)) }
{
    let mut work = Work::none(goal);
    let mut found = led(alloc, goal, history, &mut work)?;
    let mut is_done = false;
    for round in 0..ROUNDS {
        let current = smallest(&found, history);
        match take_round(alloc, goal, current, round == 0, &mut work, watcher)? {
            Some(part) => found = Some(part),
            None => {
                is_done = true;
                break;
            }
        }
    }
    Ok(Shrunk {
        history: found,
        is_least: is_done && !work.is_over(),
    })
}
