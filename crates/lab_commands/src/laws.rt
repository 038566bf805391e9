//! Theorems: each input has one output. Stated as contracts of empty functions.

ghost use Rattle.std.specs.Prelude.{◌≡◌, ℕ, List};
ghost use Rattle.lab_engine.specs.declared.event.Level.{Level};
ghost use Rattle.lab_commands.specs.Judging.{IsJudgeAnswer};
ghost use Rattle.lab_commands.specs.Playing.{IsScriptedPlay, IsScriptedRefusal, IsRunAnswer};
ghost use Rattle.lab_commands.specs.Serial.{IsSerialAnswer};
ghost use Rattle.lab_commands.specs.declared.shown.Shown.{Shown as Kind};
ghost use Rattle.lab_streams.specs.declared.ending.Ending.{Ending};
ghost use Rattle.lab_streams.specs.declared.reporting.Wanted.{Wanted};

/// `judge` has one output for each input, byte for byte: the report, or the fault.
pub fn judge_answer_unique()
    ensures text { (wanted : Wanted) (input one other : List ℕ) (first again : Ending) → IsJudgeAnswer wanted input one first → IsJudgeAnswer wanted input other again → one ≡ other }
    ensures ending { (wanted : Wanted) (input one other : List ℕ) (first again : Ending) → IsJudgeAnswer wanted input one first → IsJudgeAnswer wanted input other again → first ≡ again }
{}

/// `serial` has one output for each input, byte for byte: the transcript, or the line of the fault.
pub fn serial_answer_unique()
    ensures text { (input one other : List ℕ) (first again : Ending) → IsSerialAnswer input one first → IsSerialAnswer input other again → one ≡ other }
    ensures ending { (input one other : List ℕ) (first again : Ending) → IsSerialAnswer input one first → IsSerialAnswer input other again → first ≡ again }
{}

/// `run` has one output for each input at a level, byte for byte: the log, with or without the committed rows, and the
/// report; or the history file; or the line of the fault.
pub fn run_answer_unique()
    ensures text { (level : Level) (shown : Kind) (wanted : Wanted) (input one other : List ℕ) (first again : Ending) → IsRunAnswer (IsScriptedPlay level) (IsScriptedRefusal level) shown wanted input one first
        → IsRunAnswer (IsScriptedPlay level) (IsScriptedRefusal level) shown wanted input other again → one ≡ other }
    ensures ending { (level : Level) (shown : Kind) (wanted : Wanted) (input one other : List ℕ) (first again : Ending) → IsRunAnswer (IsScriptedPlay level) (IsScriptedRefusal level) shown wanted input one first
        → IsRunAnswer (IsScriptedPlay level) (IsScriptedRefusal level) shown wanted input other again → first ≡ again }
{}
