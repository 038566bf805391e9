//! How a reader can check the verdict.

ghost use Rattle.std.specs.Prelude.{◌≡◌, ◌++◌, OnOk};
ghost use Rattle.lab_overview.specs.Check.{serial_check, found_check, check_of, check_part};

use crate::phrases::{check_cycle, check_fault, check_file, check_order, check_program};
use crate::tags::check_head;
use lab_judge::{Finding, Report, Serial};
use lab_reports::Phenomenon;
use lab_table::NoMemory;

/// How a verdict is checked.
fn serial_check(serial: &Serial) -> &'static [u8]
    ensures { result.now ≡ serial_check serial.now }
{
    match serial {
        Serial::Yes(_) => check_order(),
        Serial::NoFault(_) => check_fault(),
        Serial::NoCycle(_) => check_cycle(),
    }
}

/// How what is found of a phenomenon is.
fn found_check(finding: &Finding) -> &'static [u8]
    ensures { result.now ≡ found_check finding.now }
{
    match finding {
        Finding::Absent => b"",
        Finding::Walk(_) => check_cycle(),
        Finding::At { .. } => check_fault(),
        Finding::NotJudged => b"",
    }
}

fn check_of(report: &Report, asked: Option<Phenomenon>) -> &'static [u8]
    ensures { result.now ≡ check_of report.now asked }
{
    match asked {
        None => serial_check(&report.serial),
        Some(phenomenon) => found_check(phenomenon.found_in(report)),
    }
}

/// Appends the section on checking the verdict. On failure, a part of it may have been appended.
#[tactic(auto, unfolding(crate::specs::Check::check_part))]
pub fn put_check(
    out: &mut Vec<u8>,
    report: &Report,
    asked: Option<Phenomenon>,
) -> Result<(), NoMemory>
    ensures { OnOk result (out.new.items ≡ out.old.items ++ check_part report.now asked) }
{
    out.extend_from_slice(check_head())?;
    out.extend_from_slice(check_of(report, asked))?;
    out.extend_from_slice(check_file())?;
    out.extend_from_slice(check_program())
}
