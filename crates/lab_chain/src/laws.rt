//! Theorems on the summaries of runs in parts, stated as contracts of empty functions.

ghost use Rattle.std.specs.Prelude.{◌≡◌, ◌≢◌, ◌↔◌, ◌++◌, [], None, List, Some, true};
ghost use Rattle.std.specs.List.{All};
ghost use Rattle.lab_history.specs.History.{History};
ghost use Rattle.lab_table.specs.Row.{Row};
ghost use Rattle.lab_table.specs.Table.{Table};
ghost use Rattle.lab_judge.specs.Phenomena.{NoWalk, IsG0, IsG1c, IsGSingle, IsG2Item, IsG2, IsGrade};
ghost use Rattle.lab_judge.specs.declared.report.Grade.{Grade};
ghost use Rattle.lab_parts.specs.Whole.{whole};
ghost use Rattle.lab_reports.specs.declared.requirement.Requirement.{Requirement};
ghost use Rattle.lab_chain.specs.Chain.{Part, IsPart, summary_of, chain_keeps};
ghost use Rattle.lab_chain.specs.ChainLaws.{IsSerialInParts, IsSnapshotInParts, AreSound, TellsOf, OneCommits};
ghost use Rattle.lab_chain.specs.Coherence.{is_coherent};
ghost use Rattle.lab_chain.specs.Difference.{IsLeastDifference, first_difference};
ghost use Rattle.lab_chain.specs.Levels.{level_of};
ghost use Rattle.lab_chain.specs.Summary.{clear_lines, joined};
ghost use Rattle.lab_chain.specs.declared.line.Line.TheVariants.{Clear};
ghost use Rattle.lab_chain.specs.declared.summary.Summary.{Summary};

/// The summary of three pieces of a run doesn't depend on which two are joined first, if a piece without parts has
/// clear lines.
pub fn joining_is_associative()
    ensures { (a b c : Summary) → (b.ends ≡ None → b.lines ≡ clear_lines) → joined (joined a b) c ≡ joined a (joined b c) }
{}

/// The summary of a run is the join of the summaries of consecutive pieces of it.
pub fn pieces_make_the_run()
    ensures { (ps qs : List Part) → summary_of (ps ++ qs) ≡ joined (summary_of ps) (summary_of qs) }
{}

/// If a first difference between two tables is reported, they differ there and at no lesser row; if none is reported,
/// they are equal.
pub fn differences_are_least()
    ensures same { (a b : Table) → (first_difference a b ≡ None) ↔ (a ≡ b) }
    ensures least { (a b : Table) (row : Row) → first_difference a b ≡ Some row → IsLeastDifference a b row }
{}

/// If a run is reported as serializable, the orders of its parts, one after another, are a serial run of the whole.
pub fn yes_is_a_serial_run()
    ensures { (ps : List Part) → ps ≢ [] → All IsPart ps → (summary_of ps).lines.serial ≡ Clear → IsSerialInParts ps }
{}

/// If a run is reported as a snapshot run, it is one with the timestamps of its parts, those of each after those of the
/// parts before.
pub fn yes_is_a_snapshot_run()
    ensures { (ps : List Part) → ps ≢ [] → All IsPart ps → (summary_of ps).lines.snapshot ≡ Clear → IsSnapshotInParts ps }
{}

/// The level, the lines and the ends of the summary of a run agree, so no summary that `chain --json` prints is refused
/// for them.
pub fn runs_are_coherent()
    ensures { (ps : List Part) → ps ≢ [] → All IsPart ps → is_coherent (summary_of ps) ≡ true }
{}

/// Coherent pieces of a run are joined to a coherent one.
pub fn joining_keeps_coherence()
    ensures { (a b : Summary) → is_coherent a ≡ true → is_coherent b ≡ true → is_coherent (joined a b) ≡ true }
{}

/// A run meets a requirement only if a transaction committed in one of its parts.
pub fn kept_runs_have_commits()
    ensures { (ps : List Part) (requirement : Requirement) → All IsPart ps → chain_keeps requirement (summary_of ps) ≡ true → OneCommits ps }
{}

/// If the parts of a run are sound and fit, the lines about cycles are true of its history, and the level is its level.
pub fn sound_runs_are_told()
    ensures g0 { (ps : List Part) (first : History) (others : List History) → AreSound ps first others → TellsOf (summary_of ps).lines.g0 (NoWalk (IsG0 (whole first others))) }
    ensures g1c { (ps : List Part) (first : History) (others : List History) → AreSound ps first others → TellsOf (summary_of ps).lines.g1c (NoWalk (IsG1c (whole first others))) }
    ensures g_single { (ps : List Part) (first : History) (others : List History) → AreSound ps first others → TellsOf (summary_of ps).lines.g_single (NoWalk (IsGSingle (whole first others))) }
    ensures g2_item { (ps : List Part) (first : History) (others : List History) → AreSound ps first others → TellsOf (summary_of ps).lines.g2_item (NoWalk (IsG2Item (whole first others))) }
    ensures g2 { (ps : List Part) (first : History) (others : List History) → AreSound ps first others → TellsOf (summary_of ps).lines.g2 (NoWalk (IsG2 (whole first others))) }
    ensures level { (ps : List Part) (first : History) (others : List History) (grade : Grade) → AreSound ps first others → (IsGrade (whole first others) grade ↔ ((summary_of ps).level ≡ level_of grade)) }
{}
