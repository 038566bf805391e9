//! The names and scripts of the cases.

ghost use Rattle.std.specs.Prelude.{◌≡◌, IfOk};
ghost use Rattle.std.specs.Str.{bytes_eq};
ghost use Rattle.lab_script.specs.Limits.{ScriptPrints};
ghost use Rattle.lab_matrix.specs.Listings.{case_script};
ghost use Rattle.lab_matrix.specs.MatrixText.{case_name, first_named, case_named};
ghost use Rattle.lab_matrix.specs.declared.name.CaseName.{CaseName as Spelled};

use crate::cases;
use lab_script::Script;
use lab_table::NoMemory;
use std::alloc::Global;

/// A case: an interleaving that shows one anomaly if the engine permits it. The cases follow Martin Kleppmann's
/// Hermitage; the scripts are this laboratory's own.
#[derive(Clone, Copy, Debug, PartialEq, Eq)]
pub enum CaseName {
    /// Two transactions write the same two rows in turn.
    G0,
    /// A transaction reads a version whose writer aborts later.
    G1a,
    /// A transaction reads a value that its writer overwrites before it commits.
    G1b,
    /// Each of two transactions reads what the other one wrote.
    G1c,
    /// Observed transaction vanishes: a transaction sees a part of what another one overwrote.
    Otv,
    /// Predicate many preceders: a row starts to match a predicate between two reads.
    Pmp,
    /// Lost update: two transactions read a row, and both write it.
    P4,
    /// Read skew: a transaction reads one row before and another row after another transaction writes both.
    GSingle,
    /// Write skew on rows: each of two transactions reads both rows, and writes one of them.
    G2Item,
    /// Write skew on a predicate: each of two transactions reads by a predicate, and inserts a row that matches it.
    G2,
}

impl CaseName {
    /// All cases, in the order in which they are printed.
    pub const ALL: [CaseName; 10] = [
        CaseName::G0,
        CaseName::G1a,
        CaseName::G1b,
        CaseName::G1c,
        CaseName::Otv,
        CaseName::Pmp,
        CaseName::P4,
        CaseName::GSingle,
        CaseName::G2Item,
        CaseName::G2,
    ];

    /// Returns the case of this name, or `None` if no case has it.
    pub fn named(name: &str) -> Option<CaseName>
        ensures { result ≡ case_named name.now }
    {
        first_named(&CaseName::ALL, name)
    }

    /// Returns the name of the case, as printed and as an argument: `G0`, `G1a`, `G1b`, `G1c`, `OTV`, `PMP`, `P4`,
    /// `G-single`, `G2-item`, `G2`.
    pub fn name(self) -> &'static str
        ensures { result.now ≡ case_name self }
    {
        match self {
            CaseName::G0 => "G0",
            CaseName::G1a => "G1a",
            CaseName::G1b => "G1b",
            CaseName::G1c => "G1c",
            CaseName::Otv => "OTV",
            CaseName::Pmp => "PMP",
            CaseName::P4 => "P4",
            CaseName::GSingle => "G-single",
            CaseName::G2Item => "G2-item",
            CaseName::G2 => "G2",
        }
    }
}

/// Whether a case has this name.
fn has_name(case: CaseName, name: &str) -> bool
    ensures { result ≡ bytes_eq (case_name case) name.now }
{
    case.name().as_bytes() == name.as_bytes()
}

/// The first of some cases that has this name.
fn first_named(among: &[CaseName], name: &str) -> Option<CaseName>
    ensures { result ≡ first_named name.now among.now }
{
    for case in among {
        if has_name(*case, name) {
            return Some(*case);
        }
    }
    None
}

/// Returns the script of a case: a list of commands, one on each text line from line 2 on, over the table (1, 10), (2,
/// 20).
pub fn case(alloc: Global, name: CaseName) -> Result<Script, NoMemory>
    ensures { IfOk result (λ script. script ≡ case_script name) }
{
    match name {
        CaseName::G0 => cases::g0(alloc),
        CaseName::G1a => cases::g1a(alloc),
        CaseName::G1b => cases::g1b(alloc),
        CaseName::G1c => cases::g1c(alloc),
        CaseName::Otv => cases::otv(alloc),
        CaseName::Pmp => cases::pmp(alloc),
        CaseName::P4 => cases::p4(alloc),
        CaseName::GSingle => cases::g_single(alloc),
        CaseName::G2Item => cases::g2_item(alloc),
        CaseName::G2 => cases::g2(alloc),
    }
}

/// The script of each case prints within the limits of a text.
pub fn cases_print()
    ensures { (case : Spelled) → ScriptPrints (case_script case) }
{}
