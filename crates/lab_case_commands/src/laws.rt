//! Theorems: the matrix has one text. Stated as contracts of empty functions.

ghost use Rattle.std.specs.Prelude.{◌≡◌, ℕ, List};
ghost use Rattle.lab_case_commands.specs.Tabulating.{IsColumnsAnswer, IsMatrixAnswer};
ghost use Rattle.lab_engine.specs.declared.event.Level.{Level};
ghost use Rattle.lab_streams.specs.declared.ending.Ending.{Ending};

/// `matrix` has one output, byte for byte.
pub fn matrix_answer_unique()
    ensures text { (one other : List ℕ) (first again : Ending) → IsMatrixAnswer one first → IsMatrixAnswer other again → one ≡ other }
    ensures ending { (one other : List ℕ) (first again : Ending) → IsMatrixAnswer one first → IsMatrixAnswer other again → first ≡ again }
{}

/// `matrix` has one output for given levels, byte for byte.
pub fn columns_answer_unique()
    ensures text { (levels : List Level) (one other : List ℕ) (first again : Ending) → IsColumnsAnswer levels one first → IsColumnsAnswer levels other again → one ≡ other }
    ensures ending { (levels : List Level) (one other : List ℕ) (first again : Ending) → IsColumnsAnswer levels one first → IsColumnsAnswer levels other again → first ≡ again }
{}
