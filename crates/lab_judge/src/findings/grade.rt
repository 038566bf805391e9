//! The level that a history meets, by what was found.

ghost use Rattle.std.specs.Prelude.{◌≡◌};
ghost use Rattle.lab_history.specs.History.{History};
ghost use Rattle.lab_judge.specs.Findings.{is_walk};
ghost use Rattle.lab_judge.specs.Judgement.{FindsWalk};
ghost use Rattle.lab_judge.specs.Phenomena.{IsG0, IsG1c, IsG2Item, IsG2, IsGrade, MeetsPl2, NoG1a, NoG1b};

use crate::report::{Finding, Grade};

/// The level of a history in which nobody reads what was never committed.
pub(crate) fn grade_of(g0: &Finding, g1c: &Finding, g2_item: &Finding, g2: &Finding) -> Grade
    ensures { (h : History) → NoG1a h → NoG1b h → FindsWalk (IsG0 h) g0.now → FindsWalk (IsG1c h) g1c.now → FindsWalk (IsG2Item h) g2_item.now → FindsWalk (IsG2 h) g2.now → IsGrade h result }
{
    if is_walk(g0) {
        Grade::BelowPl1
    } else if is_walk(g1c) {
        Grade::Pl1
    } else if is_walk(g2_item) {
        Grade::Pl2
    } else if is_walk(g2) {
        Grade::Pl299
    } else {
        Grade::Pl3
    }
}

/// The level of a history that doesn't meet the second.
pub(crate) fn low_grade_of(g0: &Finding) -> Grade
    ensures { (h : History) → ¬ (MeetsPl2 h) → FindsWalk (IsG0 h) g0.now → IsGrade h result }
{
    if is_walk(g0) {
        Grade::BelowPl1
    } else {
        Grade::Pl1
    }
}

/// Whether a walk was found.
fn is_walk(finding: &Finding) -> bool
    ensures { result ≡ is_walk finding.now }
{
    match finding {
        Finding::Absent => false,
        Finding::Walk(_) => true,
        Finding::At { .. } => false,
        Finding::NotJudged => false,
    }
}
