//! Theorems: what a met or unmet requirement says about the history. Stated as contracts of empty functions.

ghost use Rattle.lab_reports.specs.RequirementLaws.{MetIsSo, UnmetIsNot};
ghost use Rattle.lab_reports.specs.declared.requirement.Requirement.TheVariants.{Pl1, Pl2, Pl299, Pl3};

/// If the judgement of a history meets a requirement, the history has no phenomenon that the level proscribes, or it is
/// a snapshot run.
pub fn met_requirements_are_kept()
    ensures { MetIsSo }
{}

/// If a judgement has found a level and doesn't meet another one, the history isn't at that other level.
pub fn unmet_levels_are_not()
    ensures pl1 { UnmetIsNot Pl1 }
    ensures pl2 { UnmetIsNot Pl2 }
    ensures pl299 { UnmetIsNot Pl299 }
    ensures pl3 { UnmetIsNot Pl3 }
{}
