//! What a pipeline can require of a report.

ghost use Rattle.std.specs.Prelude.{◌≡◌, Some};
ghost use Rattle.lab_reports.specs.Requirements.{requirement_name, first_required, required, levels_met, is_yes, meets};

use crate::phenomenon::is_same;
use lab_judge::{Grade, Places, Report};

/// A requirement on a report: a level, or that the history is a snapshot run.
#[derive(Clone, Copy, Debug, PartialEq, Eq)]
pub enum Requirement {
    /// The level PL-1.
    Pl1,
    /// The level PL-2.
    Pl2,
    /// The level PL-2.99.
    Pl299,
    /// The level PL-3.
    Pl3,
    /// The history must be a snapshot run.
    Snapshot,
}

/// The names of the requirements: the levels as they rise, each as a report prints it, and `SI`.
pub static REQUIREMENTS: [&str; 5] = ["PL-1", "PL-2", "PL-2.99", "PL-3", "SI"];

impl Requirement {
    /// All of them, in the order of their names.
    pub const ALL: [Requirement; 5] = [
        Requirement::Pl1,
        Requirement::Pl2,
        Requirement::Pl299,
        Requirement::Pl3,
        Requirement::Snapshot,
    ];

    /// Returns the name of the requirement. No other requirement has it.
    pub fn name(self) -> &'static str
        ensures name { result.now ≡ requirement_name self }
        ensures back { required result.now ≡ Some self }
    {
        REQUIREMENTS[self as usize]
    }

    /// Returns the requirement of this name, or `None` if no requirement has it.
    pub fn named(name: &str) -> Option<Requirement>
        ensures { result ≡ required name.now }
    {
        first_required(&Requirement::ALL, name)
    }

    /// Returns whether a report meets the requirement: its level is the required one or higher, or its snapshot verdict
    /// is yes. A report whose level is `unsound` meets no level.
    pub fn is_met(self, report: &Report) -> bool
        ensures { result ≡ meets self report.now }
    {
        match self {
            Requirement::Pl1 => 1 <= levels_met(report.level),
            Requirement::Pl2 => 2 <= levels_met(report.level),
            Requirement::Pl299 => 3 <= levels_met(report.level),
            Requirement::Pl3 => 4 <= levels_met(report.level),
            Requirement::Snapshot => is_yes(&report.snapshot),
        }
    }
}

/// The first of some requirements that has this name.
fn first_required(among: &[Requirement], name: &str) -> Option<Requirement>
    ensures { result ≡ first_required name.now among.now }
{
    for requirement in among {
        if is_same(requirement.name(), name) {
            return Some(*requirement);
        }
    }
    None
}

/// How many of the levels a history of this grade meets.
fn levels_met(level: Grade) -> u8
    ensures { result ≡ levels_met level }
{
    match level {
        Grade::BelowPl1 | Grade::Unsound => 0,
        Grade::Pl1 => 1,
        Grade::Pl2 => 2,
        Grade::Pl299 => 3,
        Grade::Pl3 => 4,
    }
}

fn is_yes(places: &Places) -> bool
    ensures { result ≡ is_yes places.now }
{
    matches!(places, Places::Yes(_))
}
