//! The lines of a fault. Functions that take bytes append; on failure, a part of the text may have been appended.

ghost use Rattle.std.specs.Prelude.{◌≡◌, ◌++◌, IfOk, OnOk};
ghost use Rattle.lab_explain.specs.Faults.{fault_sentences};
ghost use Rattle.lab_explain.specs.Lines.{step, joined, placed, room_behind, standing};

use crate::faults::{mistake, put_due_text, put_most_often, put_recorded_text};
use crate::lines::{put_placed, put_step, room_behind};
use lab_deps::LocalFault;
use lab_history::History;
use lab_table::NoMemory;
use std::alloc::Global;

/// Appends the lines of a fault.
#[tactic(auto, unfolding(crate::specs::Faults::fault_sentences))]
pub fn put_fault_steps(
    alloc: Global,
    out: &mut Vec<u8>,
    history: &History,
    fault: &LocalFault,
) -> Result<(), NoMemory>
    ensures { OnOk result (out.new.items ≡ out.old.items ++ joined (fault_sentences history.now fault.now)) }
{
    let mut text = Vec::new(alloc);
    put_recorded_text(&mut text, history, fault)?;
    put_step(out, &text)?;
    text.clear();
    put_due_text(&mut text, history, *fault)?;
    put_step(out, &text)?;
    text.clear();
    put_most_often(&mut text, mistake(fault.parts()))?;
    put_step(out, &text)
}

/// Appends what stands of a step where there is room for so many lines; answers the room behind it.
fn put_standing_step(
    alloc: Global,
    out: &mut Vec<u8>,
    most: usize,
    room: Option<usize>,
    text: &[u8],
) -> Result<Option<usize>, NoMemory>
    ensures stands { OnOk result (out.new.items ≡ out.old.items ++ placed most room (step text.now)) }
    ensures room { IfOk result (λ left. left ≡ room_behind room (step text.now)) }
{
    let mut lines = Vec::new(alloc);
    put_step(&mut lines, text)?;
    put_placed(out, most, room, &lines)?;
    Ok(room_behind(room, &lines))
}

/// Appends what stands of a fault's lines where there is room for so many, or where a sentence before it had no room.
#[tactic(auto, unfolding(crate::specs::Faults::fault_sentences))]
pub fn put_standing_fault(
    alloc: Global,
    out: &mut Vec<u8>,
    most: usize,
    room: Option<usize>,
    history: &History,
    fault: &LocalFault,
) -> Result<(), NoMemory>
    ensures { OnOk result (out.new.items ≡ out.old.items ++ standing most room (fault_sentences history.now fault.now)) }
{
    let mut text = Vec::new(alloc);
    put_recorded_text(&mut text, history, fault)?;
    let room = put_standing_step(alloc, out, most, room, &text)?;
    text.clear();
    put_due_text(&mut text, history, *fault)?;
    let room = put_standing_step(alloc, out, most, room, &text)?;
    text.clear();
    put_most_often(&mut text, mistake(fault.parts()))?;
    put_standing_step(alloc, out, most, room, &text)?;
    Ok(())
}
