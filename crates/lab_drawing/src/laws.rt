//! Theorems on drawings and their texts, stated as contracts of empty functions.

ghost use Rattle.std.specs.Prelude.{◌≡◌, ◌≢◌, ◌↔◌, ℕ, true, Some, None, Option, List, Contains};
ghost use Rattle.std.specs.List.{list_all};
ghost use Rattle.lab_table.specs.Row.{Row};
ghost use Rattle.lab_history.specs.History.{History as Held};
ghost use Rattle.lab_deps.specs.Edges.{Depends, IsEdge};
ghost use Rattle.lab_deps.specs.Soundness.{IsSound, Stands};
ghost use Rattle.lab_deps.specs.declared.edge.Edge.{Edge as Dependency};
ghost use Rattle.lab_deps.specs.declared.edge.Kind.{Kind as Tied};
ghost use Rattle.lab_deps.specs.declared.edge.Kind.TheVariants.{Write};
ghost use Rattle.lab_deps.specs.declared.fault.LocalFault.TheVariants.{InstallOrder};
ghost use Rattle.lab_judge.specs.Judgement.{IsExactJudgement};
ghost use Rattle.lab_judge.specs.declared.report.Report.{Report};
ghost use Rattle.lab_judge.specs.declared.serial.Serial.TheVariants.{NoCycle, NoFault};
ghost use Rattle.lab_drawing.specs.ArrowLaws.{IsArrowOf, MakesAt, NamesWalk, DrawsArrow, DrawsWrites};
ghost use Rattle.lab_drawing.specs.InstallLaws.{NamesOut};
ghost use Rattle.lab_drawing.specs.Installs.{misplaced_text};
ghost use Rattle.lab_drawing.specs.Making.{arrow_of};
ghost use Rattle.lab_drawing.specs.Anomalies.{HasForm};
ghost use Rattle.lab_drawing.specs.Nicknames.{nicknames_of};
ghost use Rattle.lab_drawing.specs.Sketch.{drawing_of};
ghost use Rattle.lab_drawing.specs.Text.{escaped, is_plain};
ghost use Rattle.lab_drawing.specs.TitleLaws.{TellsWalk};
ghost use Rattle.lab_reports.specs.declared.phenomenon.Phenomenon.{Phenomenon};
ghost use Rattle.lab_reports.specs.declared.phenomenon.Phenomenon.TheVariants.{G0};
ghost use Rattle.lab_drawing.specs.declared.drawing.Arrow.{Arrow as Drawn};
ghost use Rattle.lab_drawing.specs.declared.installs.Misplaced.{Misplaced};
ghost use Rattle.lab_drawing.specs.declared.nicknames.Nickname.{Nickname as Said};

/// In a sound history, each dependency has an arrow between the operations that make it: the last write of the
/// installer, and the first operation of the reader that makes the dependency.
pub fn each_dependency_has_its_arrow()
    ensures { (h : Held) (e : Dependency) → IsSound h → IsEdge h e → (a : Drawn) × (arrow_of h e ≡ Some a) × IsArrowOf h e a }
{}

/// Each dependency has its arrow also in an unsound history, if the installers of each row are its committed writers,
/// each once.
pub fn each_dependency_of_installed_rows_has_its_arrow()
    ensures { (h : Held) (e : Dependency) → ((row : Row) → ¬ Stands h (InstallOrder row)) → IsEdge h e → (a : Drawn) × (arrow_of h e ≡ Some a) × IsArrowOf h e a }
{}

/// A dependency that isn't a write after a write is made by an operation of the reader, and what such an operation
/// makes is a dependency.
#[tactic(auto, using(crate::proofs::MadeDependencies::dependencies_made))]
pub fn dependencies_are_made_by_operations()
    ensures { (h : Held) (kind : Tied) (row : Row) (from to : ℕ) → kind ≢ Write → Depends h kind row from to ↔ ((k : ℕ) × MakesAt h kind row from to k) }
{}

/// In the picture of a cycle that a judgement names, each dependency of the cycle has its arrow. In the picture of a
/// G0, which unsound histories can have too, the arrow leads from the last write of one transaction to that of another.
pub fn each_dependency_of_a_walk_is_drawn()
    ensures drawn { (h : Held) (report : Report) (asked : Option Phenomenon) (walk : List Dependency) → IsExactJudgement h report → NamesWalk report asked walk
        → (e : Dependency) → Contains walk e → DrawsArrow h (drawing_of h report asked) e }
    ensures writes { (h : Held) (report : Report) (walk : List Dependency) → IsExactJudgement h report → NamesWalk report (Some G0) walk
        → (e : Dependency) → Contains walk e → DrawsWrites h (drawing_of h report (Some G0)) e }
{}

/// If the installers of a row aren't its committed writers, the picture names a misplaced transaction and how it is
/// misplaced: a writer that isn't an installer, if there is one.
pub fn who_is_out_of_place_is_named()
    ensures { (h : Held) (report : Report) (row : Row) → IsExactJudgement h report → report.serial ≡ NoFault (InstallOrder row)
        → (found : Misplaced) × ((drawing_of h report None).note ≡ misplaced_text found) × NamesOut h row found }
{}

/// The title of a no with a cycle names a phenomenon that the cycle is an instance of, and the nicknames of the cycle.
pub fn a_title_names_what_a_walk_is()
    ensures { (h : Held) (report : Report) (walk : List Dependency) → IsExactJudgement h report → report.serial ≡ NoCycle walk → TellsWalk h walk (drawing_of h report None).title }
{}

/// A cycle has a nickname exactly if it has the form that the nickname is for.
pub fn a_nickname_is_said_of_its_form()
    ensures said { (h : Held) (walk : List Dependency) (nickname : Said) → Contains (nicknames_of h walk) nickname → HasForm h walk nickname }
    ensures due { (h : Held) (walk : List Dependency) (nickname : Said) → HasForm h walk nickname → Contains (nicknames_of h walk) nickname }
{}

/// An escaped text has no byte that begins or ends markup.
pub fn an_escaped_text_has_no_markup()
    ensures { (text : List ℕ) → list_all is_plain (escaped text) ≡ true }
{}
