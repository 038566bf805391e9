//! The interface of players of scripts.

ghost use Rattle.std.specs.Prelude.{IfOk, IfErr};
ghost use Rattle.lab_script.specs.Limits.{ScriptPrints};
ghost use Rattle.lab_script.specs.declared.script.Script.{Script as Spelled};
ghost use Rattle.lab_engine.specs.RecordedLog.{RecordedLog};
ghost use Rattle.lab_session.specs.declared.fault.PlayFault.{PlayFault as Fault};
ghost use Rattle.lab_commands.specs.Playing.{IsUntold};

use lab_engine::Recording;
use lab_script::Script;
use lab_session::PlayFault;
use std::alloc::Global;

/// A player of scripts.
pub trait Player: Drop {
    /// What is asked of its type, as that what it is lent may be shared between threads.
    ghost Needs: { Type 0 };

    /// The recordings that a play of a script gives.
    ghost Plays: { Self → Spelled → RecordedLog → Type 0 };

    /// The faults that a play of a script is refused for, or that keep it from being told.
    ghost Refuses: { Self → Spelled → Fault → Type 0 };

    /// Plays a script, and returns the recording.
    fn play(&self, alloc: Global, script: &Script) -> Result<Recording, PlayFault>
        requires { Needs }
        ensures play { IfOk result (Plays self.now script.now) }
        ensures fault { IfErr result (Refuses self.now script.now) };

    /// What keeps a play of a script that prints from being told is among these faults.
    ghost untold: { (player : Self) (script : Spelled) (recording : RecordedLog) (fault : Fault) → ScriptPrints script → Plays player script recording → IsUntold recording fault
        → Refuses player script fault };
}
