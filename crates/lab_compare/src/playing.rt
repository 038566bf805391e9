//! Plays of a script at some levels.

ghost use Rattle.std.specs.Prelude.{◌≡◌, ◌≢◌, ◌++◌, ◌∷◌, [], IfOk, IfErr, OnOk};
ghost use Rattle.lab_commands.specs.Playing.{IsScriptedRefusal};
ghost use Rattle.lab_compare.specs.Answer.{IsSide, AreSides, IsFirstRefusal};

use crate::side::{Side, side_of};
use lab_commands::{Player, Scripted};
use lab_engine::Level;
use lab_judge::judge_recording;
use lab_script::Script;
use lab_session::PlayFault;
use lab_table::NoMemory;
use std::alloc::Global;

/// Plays a script at a level, and says what there is to say of that.
fn side(alloc: Global, level: Level, script: &Script) -> Result<Side, PlayFault>
    ensures side { IfOk result (IsSide level script.now) }
    ensures fault { IfErr result (IsScriptedRefusal level script.now) }
{
    let recording = Scripted { level }.play(alloc, script)?;
    let report = judge_recording(alloc, &recording)?;
    Ok(side_of(alloc, level, script.lines.as_slice(), &recording, &report)?)
}

/// Adds a side.
fn add(sides: &mut Vec<Side>, side: Side) -> Result<(), NoMemory>
    ensures { OnOk result (sides.new.items ≡ sides.old.items ++ side ∷ []) }
{
    sides.push(side)?;
    Ok(())
}

/// What there is to say of the plays of a script at these levels, or the first fault that one of them is refused for.
pub fn sides_of(alloc: Global, levels: &[Level], script: &Script) -> Result<Vec<Side>, PlayFault>
    ensures sides { IfOk result (λ sides. AreSides script.now levels.now sides.items) }
    ensures fault { IfErr result (λ fault. fault ≢ PlayFault.NoMemory → IsFirstRefusal script.now levels.now fault) }
{
    let mut sides = Vec::with_capacity(alloc, levels.len())?;
    for level in levels {
        let side = side(alloc, *level, script)?;
        add(&mut sides, side)?;
    }
    Ok(sides)
}
