//! Theorems on goals, stated as contracts of empty functions.

ghost use Rattle.std.specs.Prelude.{◌≡◌, Bool, Some, Option};
ghost use Rattle.lab_history.specs.History.{History as Held};
ghost use Rattle.lab_deps.specs.FaultOrder.{IsFirst};
ghost use Rattle.lab_deps.specs.Soundness.{IsSound};
ghost use Rattle.lab_deps.specs.declared.fault.LocalFault.{LocalFault as Fault};
ghost use Rattle.lab_judge.specs.Judgement.{IsExactJudgement};
ghost use Rattle.lab_judge.specs.Phenomena.{IsClosedWalk};
ghost use Rattle.lab_judge.specs.declared.report.Report.{Report};
ghost use Rattle.lab_reports.specs.declared.phenomenon.Phenomenon.{Phenomenon};
ghost use Rattle.lab_reports.specs.declared.violation.Violation.{Violation};
ghost use Rattle.lab_shrink.specs.Goals.{kind_of, goal_of, HasWalk, HasCircle, Has, Shows};
ghost use Rattle.lab_shrink.specs.declared.goal.FaultKind.{FaultKind as Kind};
ghost use Rattle.lab_shrink.specs.declared.goal.Goal.{Goal as Aim};
ghost use Rattle.lab_shrink.specs.declared.goal.Goal.TheVariants as goal;

/// A history that shows a goal has it: it is sound and its dependencies have a cycle, its first fault is of the kind, it
/// has the phenomenon, or it is sound and its starts and commits have a cycle.
pub fn what_is_shown_is_so()
    ensures no_order { (h : Held) → Shows h goal.NoOrder → IsSound h × HasWalk (IsClosedWalk h) }
    ensures fault { (h : Held) (kind : Kind) → Shows h (goal.Fault kind) → (f : Fault) × IsFirst h f × (kind_of f ≡ kind) }
    ensures present { (h : Held) (p : Phenomenon) (in_sound : Bool) → Shows h (goal.Present p in_sound) → Has p h }
    ensures no_timestamps { (h : Held) → Shows h goal.NoTimestamps → IsSound h × HasCircle h }
{}

/// A history shows the goal of its judgement.
pub fn judgement_shows_its_goal()
    ensures { (h : Held) (report : Report) (asked : Option Violation) (aim : Aim) → IsExactJudgement h report → goal_of report asked ≡ Some aim → Shows h aim }
{}

/// A history that shows the goal of a sound history is sound.
pub fn sound_stays_sound()
    ensures { (h part : Held) (report : Report) (asked : Option Violation) (aim : Aim) → IsExactJudgement h report → goal_of report asked ≡ Some aim → IsSound h → Shows part aim → IsSound part }
{}
