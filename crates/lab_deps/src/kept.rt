//! What is kept of where a row turns, for some ways in which a statement may take its values.

ghost use Rattle.std.specs.Prelude.{◌≡◌, Bool, true, List, length, Contains, OnOk, IfOk, IfSome};
ghost use Rattle.lab_table.specs.Table.{State};
ghost use Rattle.lab_deps.specs.Turns.{AreNumbers, AreKept};

use crate::turns::Turns;
use crate::values::Values;
use crate::versions::Version;
use lab_table::{NoMemory, Value};
use std::alloc::Global;

/// Where a row turns for the statements that take its values in a way.
#[derive(Drop)]
pub struct Kept {
    /// For each value beside the first one whether it is taken otherwise than that.
    pub answers: Vec<bool>,
    pub turns: Turns,
}

/// Rows with fewer versions are walked along.
pub const FEWEST: usize = 16;

/// What is kept of a row with these versions, for so many ways at most. NoMemory where an allocation was refused.
pub fn kept_of(
    alloc: Global,
    most: usize,
    before: &Option<Value>,
    versions: &[Version],
    values: &Values,
) -> Result<Vec<Kept>, NoMemory>
    ensures { IfOk result (λ kept. AreKept values.now.exact before.now values.now.others.items versions.now kept.items) }
{
    let mut kept = Vec::new(alloc);
    let Some(numbers) = values.numbers(alloc, before, versions)? else {
        return Ok(kept);
    };
    for index in 0..values.ways() {
        let answers = values.way(alloc, before, index)?;
        keep(alloc, &mut kept, most, versions, &numbers, answers)?;
    }
    Ok(kept)
}

/// Keeps where a row turns whose versions have these numbers, by an answer for each, if it isn't kept yet and there is
/// room. NoMemory where an allocation was refused.
fn keep(
    alloc: Global,
    kept: &mut Vec<Kept>,
    most: usize,
    versions: &[Version],
    numbers: &[usize],
    answers: Vec<bool>,
) -> Result<(), NoMemory>
    requires { length numbers.now ≡ length versions.now }
    ensures { OnOk result ((exact : Bool) (before : State) (others : List State) → AreNumbers exact before others versions.now numbers.now
        → AreKept exact before others versions.now kept.old.items → AreKept exact before others versions.now kept.new.items) }
{
    if kept.len() >= most {
        return Ok(());
    }
    if kept_by(kept, &answers).is_some() {
        return Ok(());
    }
    let turns = Turns::of(alloc, versions, numbers, &answers)?;
    kept.push(Kept { answers, turns })?;
    Ok(())
}

/// What is kept by these answers.
pub fn kept_by<'a>(kept: &'a [Kept], answers: &[bool]) -> Option<&'a Kept>
    ensures { IfSome result (λ item. Contains kept.now item.now × (item.now.answers.items ≡ answers.now)) }
{
    for item in kept {
        if is_by(item, answers) {
            return Some(item);
        }
    }
    None
}

/// Whether something is kept by these answers.
fn is_by(item: &Kept, answers: &[bool]) -> bool
    ensures { result ≡ true → item.now.answers.items ≡ answers.now }
{
    item.answers.as_slice() == answers
}
