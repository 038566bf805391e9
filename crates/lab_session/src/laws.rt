//! Theorems on scripted plays: each script has one. Stated as contracts of empty functions.

ghost use Rattle.std.specs.Prelude.{◌≡◌, ◌≢◌, List, Ok};
ghost use Rattle.lab_table.specs.Table.{Table};
ghost use Rattle.lab_history.specs.History.{History};
ghost use Rattle.lab_history.specs.FirstPartsFault.{checked};
ghost use Rattle.lab_engine.specs.declared.event.Level.{Level};
ghost use Rattle.lab_engine.specs.declared.event.LogEvent.{LogEvent};
ghost use Rattle.lab_engine.specs.Log.{past_of};
ghost use Rattle.lab_engine.specs.Recording.{Line, IsRecording};
ghost use Rattle.lab_session.specs.Play.{IsLegalPlay, IsScriptedFault};
ghost use Rattle.lab_session.specs.declared.fault.PlayFault.{PlayFault};
ghost use Rattle.lab_session.specs.declared.fault.PlayFault.TheVariants as play_fault;

/// A script that one thread plays has one log at a level and on an initial table: two complete plays have the same
/// events.
pub fn one_play()
    ensures { (level : Level) (setup : Table) (lines : List Line) (log other : List LogEvent)
        → IsLegalPlay level setup lines log → IsLegalPlay level setup lines other → log ≡ other }
{}

/// A play has either a recording or one fault, apart from `NoMemory`. If the play of a script has a recording, no fault
/// is true of the script; otherwise at most one is.
pub fn one_play_fault()
    ensures recorded { (level : Level) (setup : Table) (lines : List Line) (log : List LogEvent) (h : History) (fault : PlayFault)
        → IsLegalPlay level setup lines log → IsRecording setup (past_of log) h → checked h ≡ Ok tt → fault ≢ play_fault.NoMemory → IsScriptedFault level setup lines fault → ⊥ }
    ensures refused { (level : Level) (setup : Table) (lines : List Line) (fault other : PlayFault) → fault ≢ play_fault.NoMemory → other ≢ play_fault.NoMemory
        → IsScriptedFault level setup lines fault → IsScriptedFault level setup lines other → fault ≡ other }
{}
