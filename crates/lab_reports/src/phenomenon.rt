//! The phenomena of a report.

ghost use Rattle.std.specs.Prelude.{◌≡◌, Some};
ghost use Rattle.std.specs.Str.{bytes_eq};
ghost use Rattle.lab_reports.specs.Phenomena.{phenomenon_name, finding_of, first_named, named};

use lab_judge::{Finding, Report};

/// A phenomenon that a report covers.
#[derive(Clone, Copy, Debug, PartialEq, Eq)]
pub enum Phenomenon {
    G0,
    G1a,
    G1b,
    G1c,
    GSingle,
    G2Item,
    G2,
}

/// The names of the phenomena, as a report prints them, in the order of its lines.
pub static PHENOMENA: [&str; 7] = ["G0", "G1a", "G1b", "G1c", "G-single", "G2-item", "G2"];

impl Phenomenon {
    /// All of them, in the order of a report's lines.
    pub const ALL: [Phenomenon; 7] = [
        Phenomenon::G0,
        Phenomenon::G1a,
        Phenomenon::G1b,
        Phenomenon::G1c,
        Phenomenon::GSingle,
        Phenomenon::G2Item,
        Phenomenon::G2,
    ];

    /// Returns the name of the phenomenon, as a report prints it. No other phenomenon has it.
    pub fn name(self) -> &'static str
        ensures name { result.now ≡ phenomenon_name self }
        ensures back { named result.now ≡ Some self }
    {
        PHENOMENA[self as usize]
    }

    /// Returns the finding of a report about the phenomenon.
    pub fn found_in(self, report: &Report) -> &Finding
        ensures { result.now ≡ finding_of self report.now }
    {
        match self {
            Phenomenon::G0 => report.g0(),
            Phenomenon::G1a => report.g1a(),
            Phenomenon::G1b => report.g1b(),
            Phenomenon::G1c => report.g1c(),
            Phenomenon::GSingle => report.g_single(),
            Phenomenon::G2Item => report.g2_item(),
            Phenomenon::G2 => report.g2(),
        }
    }

    /// Returns the phenomenon of this name, or `None` if no phenomenon has it.
    pub fn named(name: &str) -> Option<Phenomenon>
        ensures { result ≡ named name.now }
    {
        first_named(&Phenomenon::ALL, name)
    }
}

/// The first of some phenomena that has this name.
fn first_named(among: &[Phenomenon], name: &str) -> Option<Phenomenon>
    ensures { result ≡ first_named name.now among.now }
{
    for phenomenon in among {
        if is_same(phenomenon.name(), name) {
            return Some(*phenomenon);
        }
    }
    None
}

/// Whether two texts are the same.
pub fn is_same(a: &str, b: &str) -> bool
    ensures { result ≡ bytes_eq a.now b.now }
{
    a.as_bytes() == b.as_bytes()
}
