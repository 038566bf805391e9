//! Theorems on comparisons, stated as contracts of empty functions.

ghost use Rattle.std.specs.Prelude.{◌≡◌, ◌↔◌, IsTrue, ℕ, List};
ghost use Rattle.lab_compare.specs.Alike.{TellSame, alike};
ghost use Rattle.lab_compare.specs.Answer.{IsCompareAnswer};
ghost use Rattle.lab_engine.specs.declared.event.Level.{Level};
ghost use Rattle.lab_compare.specs.declared.telling.Telling.{Telling};
ghost use Rattle.lab_streams.specs.declared.ending.Ending.{Ending};

/// `compare` has one output for each input and list of levels, byte for byte: the comparison, or the line of the fault.
pub fn compare_answer_unique()
    ensures text { (levels : List Level) (input one other : List ℕ) (first again : Ending) → IsCompareAnswer levels input one first → IsCompareAnswer levels input other again → one ≡ other }
    ensures ending { (levels : List Level) (input one other : List ℕ) (first again : Ending) → IsCompareAnswer levels input one first → IsCompareAnswer levels input other again → first ≡ again }
{}

/// A comparison groups engines exactly if they had the same outcomes.
pub fn alike_is_same()
    ensures { (one other : Telling) → IsTrue (alike one other) ↔ TellSame one other }
{}
