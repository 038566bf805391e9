//! Theorems on a run whose parts fit.

ghost use Rattle.std.specs.Prelude.{◌⊎◌, List, map};
ghost use Rattle.std.specs.List.{All};
ghost use Rattle.lab_history.specs.History.{History};
ghost use Rattle.lab_deps.specs.Edges.{IsEdge};
ghost use Rattle.lab_deps.specs.Soundness.{IsSound};
ghost use Rattle.lab_deps.specs.declared.edge.Edge.{Edge as Dependency};
ghost use Rattle.lab_judge.specs.Phenomena.{IsClosedWalk, NoWalk, IsG0, IsG1c, IsGSingle, IsG2Item, IsG2, IsGrade};
ghost use Rattle.lab_judge.specs.Places.{IsCircle};
ghost use Rattle.lab_judge.specs.Runs.{IsSerialRun, IsSnapshotRun};
ghost use Rattle.lab_parts.specs.Whole.{whole, Fits};
ghost use Rattle.lab_parts.specs.WholeEdges.{IsWithin, LeadsForward, edge_in};
ghost use Rattle.lab_parts.specs.WholeFindings.{HasThoseOfParts, IsFreeByParts, NoCircle, Graded, point_in, least_of};
ghost use Rattle.lab_parts.specs.WholeRuns.{Ordered, Placed, whole_order, whole_spans};

/// If each part is a serial run in an order, the whole run is a serial run in these orders, one after another. Each
/// statement lists and writes what is recorded, from the table before the first part to the table after the last.
pub fn orders_are_one_order()
    ensures { (first : Ordered) (others : List Ordered) → IsSerialRun first.part first.order → All (λ o. IsSerialRun o.part o.order) others
        → Fits first.part (map (λ o. o.part) others) → IsSerialRun (whole first.part (map (λ o. o.part) others)) (whole_order first others) }
{}

/// If each part is a snapshot run with start and commit timestamps, the whole run is one, with the timestamps of each
/// part after those of the parts before.
pub fn spans_are_one_placing()
    ensures { (first : Placed) (others : List Placed) → IsSnapshotRun first.part first.spans → All (λ o. IsSnapshotRun o.part o.spans) others
        → Fits first.part (map (λ o. o.part) others) → IsSnapshotRun (whole first.part (map (λ o. o.part) others)) (whole_spans first others) }
{}

/// If each part is sound, the whole run is sound.
pub fn parts_are_sound_together()
    ensures { (first : History) (parts : List History) → IsSound first → All IsSound parts → Fits first parts → IsSound (whole first parts) }
{}

/// If the parts are sound, each dependency of the run is one of a part, with the numbers that its transactions have in
/// the run, or leads from a transaction of a part to one of a later part. Each dependency of a part is one of the run.
pub fn dependencies_lead_forward()
    ensures forward { (first : History) (parts : List History) → IsSound first → All IsSound parts → Fits first parts
        → (e : Dependency) → IsEdge (whole first parts) e → IsWithin first parts e ⊎ LeadsForward first parts e }
    ensures kept { (first : History) (parts : List History) → IsSound first → All IsSound parts → Fits first parts
        → (e : Dependency) → IsWithin first parts e → IsEdge (whole first parts) e }
{}

/// If the parts are sound and fit, the run has exactly the cycles of each kind that its parts have, with the numbers
/// that the transactions have in the run. The same holds for cycles of starts and commits.
pub fn cycles_are_those_of_parts()
    ensures cycle { HasThoseOfParts IsClosedWalk edge_in }
    ensures g0 { HasThoseOfParts IsG0 edge_in }
    ensures g1c { HasThoseOfParts IsG1c edge_in }
    ensures g_single { HasThoseOfParts IsGSingle edge_in }
    ensures g2_item { HasThoseOfParts IsG2Item edge_in }
    ensures g2 { HasThoseOfParts IsG2 edge_in }
    ensures circle { HasThoseOfParts IsCircle point_in }
{}

/// If the parts are sound and fit, the run has no cycle of a kind exactly if no part has one.
pub fn parts_show_what_the_whole_shows()
    ensures cycle { IsFreeByParts (λ h. NoWalk (IsClosedWalk h)) }
    ensures g0 { IsFreeByParts (λ h. NoWalk (IsG0 h)) }
    ensures g1c { IsFreeByParts (λ h. NoWalk (IsG1c h)) }
    ensures g_single { IsFreeByParts (λ h. NoWalk (IsGSingle h)) }
    ensures g2_item { IsFreeByParts (λ h. NoWalk (IsG2Item h)) }
    ensures g2 { IsFreeByParts (λ h. NoWalk (IsG2 h)) }
    ensures circle { IsFreeByParts NoCircle }
{}

/// If the parts are sound and fit, the level of the run is the lowest level of its parts.
pub fn level_is_the_lowest_of_parts()
    ensures { (first : Graded) (others : List Graded) → IsSound first.part → All IsSound (map (λ o. o.part) others) → Fits first.part (map (λ o. o.part) others)
        → IsGrade first.part first.level → All (λ o. IsGrade o.part o.level) others
        → IsGrade (whole first.part (map (λ o. o.part) others)) (least_of first.level (map (λ o. o.level) others)) }
{}
