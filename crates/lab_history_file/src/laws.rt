//! Theorems on history files, stated as contracts of empty functions.

ghost use Rattle.std.specs.Prelude.{◌≡◌, ◌↔◌, Ok, Err};
ghost use Rattle.serde_json.specs.Data.{Data};
ghost use Rattle.lab_history_file.specs.FileOf.{IsFileIn, IsFileOf};
ghost use Rattle.lab_history_file.specs.FaultOf.{IsTrueFault};
ghost use Rattle.lab_history_file.specs.Format.{version_said, history_in};
ghost use Rattle.lab_history_file.specs.Lift.{lift};
ghost use Rattle.lab_history.specs.History.{History as HistoryValue};
ghost use Rattle.lab_history.specs.declared.fault.FileFault.{FileFault as FaultValue};
ghost use Rattle.lab_history_file.specs.declared.file_version.FileVersion.TheVariants.{One, Two};

/// The reader reads from a JSON value exactly the history that the value is a file of, by the definition of the format,
/// and none from a value that isn't a file.
pub fn history_is_read_from_its_file()
    ensures { (d : Data) (h : HistoryValue) → history_in d ≡ Ok h ↔ IsFileOf d h }
{}

/// A fault that the reader returns is true of the value, at the position that the fault names. No fault is true of a
/// file.
pub fn faults_are_true()
    ensures true_fault { (d : Data) (f : FaultValue) → history_in d ≡ Err f → IsTrueFault d f }
    ensures faultless { (d : Data) (h : HistoryValue) → IsFileOf d h → (f : FaultValue) → IsTrueFault d f → ⊥ }
{}

/// A file of version 1 becomes a file of version 2 of the same history if its version is changed and `test` is put
/// before each id. The reader reads the same from both.
pub fn versions_hold_one_history()
    ensures file { (d : Data) (h : HistoryValue) → version_said d ≡ One → IsFileOf d h → IsFileIn Two (lift d) h }
    ensures read { (d : Data) (h : HistoryValue) → version_said d ≡ One → history_in d ≡ Ok h → history_in (lift d) ≡ history_in d }
{}
