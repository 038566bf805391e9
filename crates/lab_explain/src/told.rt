//! Which phenomenon's cycle is told beside a serial verdict.

ghost use Rattle.std.specs.Prelude.{◌≡◌, IfOk};
ghost use Rattle.std.specs.Str.{bytes_eq};
ghost use Rattle.lab_judge.specs.ReportText.{walk_text};
ghost use Rattle.lab_explain.specs.Told.{serial_walk, is_cycle, first_present, is_verdicts, told_of, is_told};

use lab_deps::Edge;
use lab_drawing::cycle_of;
use lab_judge::{Finding, Report, Serial, put_walk};
use lab_reports::Phenomenon;
use lab_table::NoMemory;
use std::alloc::Global;

/// The phenomena that may be present by a cycle, in a report's order.
const OF_CYCLES: [Phenomenon; 5] = [
    Phenomenon::G0,
    Phenomenon::G1c,
    Phenomenon::GSingle,
    Phenomenon::G2Item,
    Phenomenon::G2,
];

/// A walk as the report prints it.
pub fn walk_text(alloc: Global, walk: &[Edge]) -> Result<Vec<u8>, NoMemory>
    ensures { IfOk result (λ text. text.items ≡ walk_text walk.now) }
{
    let mut text = Vec::new(alloc);
    put_walk(&mut text, walk)?;
    Ok(text)
}

/// The walk of a serial verdict as the report prints it; empty where it has none.
pub fn serial_walk(alloc: Global, serial: &Serial) -> Result<Vec<u8>, NoMemory>
    ensures { IfOk result (λ text. text.items ≡ serial_walk serial.now) }
{
    match serial {
        Serial::Yes(_) | Serial::NoFault(_) => Ok(Vec::new(alloc)),
        Serial::NoCycle(walk) => walk_text(alloc, walk.as_slice()),
    }
}

/// Whether two texts are the same.
pub fn is_same(a: &[u8], b: &[u8]) -> bool
    ensures { result ≡ bytes_eq a.now b.now }
{
    a == b
}

/// Whether a phenomenon is present by a cycle.
fn is_cycle(finding: &Finding) -> bool
    ensures { result ≡ is_cycle finding.now }
{
    match finding {
        Finding::Walk(_) => true,
        Finding::Absent | Finding::At { .. } | Finding::NotJudged => false,
    }
}

/// The first of some phenomena that is present by a cycle.
fn first_present(report: &Report, among: &[Phenomenon]) -> Option<Phenomenon>
    ensures { result ≡ first_present report.now among.now }
{
    for phenomenon in among {
        if is_cycle(phenomenon.found_in(report)) {
            return Some(*phenomenon);
        }
    }
    None
}

/// Whether a phenomenon's cycle is that of the serial verdict, which is printed so.
#[tactic(auto, unfolding(crate::specs::Told::is_verdicts))]
fn is_verdicts(
    alloc: Global,
    report: &Report,
    of_serial: &[u8],
    phenomenon: Phenomenon,
) -> Result<bool, NoMemory>
    requires { of_serial.now ≡ serial_walk report.now.serial }
    ensures { IfOk result (λ same. same ≡ is_verdicts report.now phenomenon) }
{
    let walk = walk_text(alloc, cycle_of(phenomenon.found_in(report)))?;
    Ok(is_same(&walk, of_serial))
}

/// The phenomenon whose cycle is told beside the serial verdict, whose walk is printed so: the first that is present by
/// a cycle, where that is another than the verdict's.
#[tactic(auto, unfolding(crate::specs::Told::told_of))]
pub fn told_of(
    alloc: Global,
    report: &Report,
    of_serial: &[u8],
) -> Result<Option<Phenomenon>, NoMemory>
    requires { of_serial.now ≡ serial_walk report.now.serial }
    ensures { IfOk result (λ told. told ≡ told_of report.now) }
{
    let Some(phenomenon) = first_present(report, &OF_CYCLES) else {
        return Ok(None);
    };
    if is_verdicts(alloc, report, of_serial, phenomenon)? {
        Ok(None)
    } else {
        Ok(Some(phenomenon))
    }
}

/// Whether a phenomenon is the one whose cycle is told.
pub fn is_told(told: Option<Phenomenon>, phenomenon: Phenomenon) -> bool
    ensures { result ≡ is_told told phenomenon }
{
    match told {
        None => false,
        Some(told) => is_same(told.name().as_bytes(), phenomenon.name().as_bytes()),
    }
}
