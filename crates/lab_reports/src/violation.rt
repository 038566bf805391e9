//! The violations that a subcommand can be asked to show.

ghost use Rattle.std.specs.Prelude.{◌≡◌, Some};
ghost use Rattle.lab_reports.specs.Violations.{violation_name, first_violation, violation_named};

use crate::phenomenon::{Phenomenon, is_same};

/// What `--phenomenon` names: a phenomenon, or that a history isn't a snapshot run.
#[derive(Clone, Copy, Debug, PartialEq, Eq)]
pub enum Violation {
    /// A phenomenon of a report.
    Phenomenon(Phenomenon),
    /// The history isn't a snapshot run.
    Snapshot,
}

impl Violation {
    /// All of them: the phenomena in the order of a report's lines, and then `Snapshot`.
    pub const ALL: [Violation; 8] = [
        Violation::Phenomenon(Phenomenon::G0),
        Violation::Phenomenon(Phenomenon::G1a),
        Violation::Phenomenon(Phenomenon::G1b),
        Violation::Phenomenon(Phenomenon::G1c),
        Violation::Phenomenon(Phenomenon::GSingle),
        Violation::Phenomenon(Phenomenon::G2Item),
        Violation::Phenomenon(Phenomenon::G2),
        Violation::Snapshot,
    ];

    /// Returns the name of the violation: that of the phenomenon, as a report prints it, or `SI`. No other violation
    /// has it.
    #[tactic(auto, using(crate::proofs::ViolationNames::named_back))]
    pub fn name(self) -> &'static str
        ensures name { result.now ≡ violation_name self }
        ensures back { violation_named result.now ≡ Some self }
    {
        match self {
            Violation::Phenomenon(phenomenon) => phenomenon.name(),
            Violation::Snapshot => "SI",
        }
    }

    /// Returns the violation of this name, or `None` if no violation has it.
    pub fn named(name: &str) -> Option<Violation>
        ensures { result ≡ violation_named name.now }
    {
        first_violation(&Violation::ALL, name)
    }
}

/// The first of some violations that has this name.
fn first_violation(among: &[Violation], name: &str) -> Option<Violation>
    ensures { result ≡ first_violation name.now among.now }
{
    for violation in among {
        if is_same(violation.name(), name) {
            return Some(*violation);
        }
    }
    None
}
