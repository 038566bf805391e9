//! Says why a report doesn't meet a requirement. The functions append; on failure, a part of the text may have been
//! appended.

ghost use Rattle.std.specs.Prelude.{◌≡◌, ◌++◌, codes, OnOk};
ghost use Rattle.lab_reports.specs.Phenomena.{phenomenon_name};
ghost use Rattle.lab_reports.specs.Shortfall.{is_present, is_unjudged, first_found, barred_text, unsound_text, level_text, verdict_text, cut, snapshot_text, shortfall_text};

use crate::phenomenon::Phenomenon;
use crate::requirement::Requirement;
use lab_judge::{Finding, Grade, Places, Report, Serial, put_circle, put_fault};
use lab_table::NoMemory;

/// The most bytes of a snapshot verdict that are shown.
const MAX_SHOWN: usize = 200;

fn is_present(finding: &Finding) -> bool
    ensures { result ≡ is_present finding.now }
{
    matches!(finding, Finding::Walk(_) | Finding::At { .. })
}

fn is_unjudged(finding: &Finding) -> bool
    ensures { result ≡ is_unjudged finding.now }
{
    matches!(finding, Finding::NotJudged)
}

/// The first of some phenomena that is there.
fn first_present(among: &[Phenomenon], report: &Report) -> Option<Phenomenon>
    ensures { result ≡ first_found is_present report.now among.now }
{
    for phenomenon in among {
        if is_present(phenomenon.found_in(report)) {
            return Some(*phenomenon);
        }
    }
    None
}

/// The first of some phenomena that wasn't looked for.
fn first_unjudged(among: &[Phenomenon], report: &Report) -> Option<Phenomenon>
    ensures { result ≡ first_found is_unjudged report.now among.now }
{
    for phenomenon in among {
        if is_unjudged(phenomenon.found_in(report)) {
            return Some(*phenomenon);
        }
    }
    None
}

/// Appends a phenomenon and a word behind it.
fn put_bar(out: &mut Vec<u8>, phenomenon: Phenomenon, word: &[u8]) -> Result<(), NoMemory>
    ensures { OnOk result (out.new.items ≡ out.old.items ++ (codes ": " ++ phenomenon_name phenomenon ++ word.now)) }
{
    out.extend_from_slice(b": ")?;
    out.extend_from_slice(phenomenon.name().as_bytes())?;
    out.extend_from_slice(word)
}

/// Appends, behind a level, the first of the phenomena that is there, of which the next level has none.
fn put_barred(out: &mut Vec<u8>, among: &[Phenomenon], report: &Report) -> Result<(), NoMemory>
    ensures { OnOk result (out.new.items ≡ out.old.items ++ barred_text among.now report.now) }
{
    out.extend_from_slice(b" found")?;
    if let Some(phenomenon) = first_present(among, report) {
        return put_bar(out, phenomenon, b" present");
    }
    match first_unjudged(among, report) {
        Some(phenomenon) => put_bar(out, phenomenon, b" not judged"),
        None => Ok(()),
    }
}

/// Appends, behind `unsound`, what is wrong with the history.
fn put_unsound(out: &mut Vec<u8>, serial: &Serial) -> Result<(), NoMemory>
    ensures { OnOk result (out.new.items ≡ out.old.items ++ unsound_text serial.now) }
{
    if let Serial::NoFault(fault) = serial {
        out.extend_from_slice(b": ")?;
        put_fault(out, *fault)?;
    }
    Ok(())
}

/// Appends the level that a report found, and what keeps the history from the next one.
fn put_level(out: &mut Vec<u8>, report: &Report) -> Result<(), NoMemory>
    ensures { OnOk result (out.new.items ≡ out.old.items ++ level_text report.now) }
{
    out.extend_from_slice(report.level.name().as_bytes())?;
    match report.level {
        Grade::BelowPl1 => put_barred(out, &[Phenomenon::G0], report),
        Grade::Pl1 => {
            let proscribed = [Phenomenon::G1a, Phenomenon::G1b, Phenomenon::G1c];
            put_barred(out, &proscribed, report)
        }
        Grade::Pl2 => put_barred(out, &[Phenomenon::G2Item], report),
        Grade::Pl299 => put_barred(out, &[Phenomenon::G2], report),
        Grade::Pl3 => put_barred(out, &[], report),
        Grade::Unsound => put_unsound(out, &report.serial),
    }
}

/// Appends a snapshot verdict, and why it is no.
fn put_verdict(out: &mut Vec<u8>, places: &Places) -> Result<(), NoMemory>
    ensures { OnOk result (out.new.items ≡ out.old.items ++ verdict_text places.now) }
{
    match places {
        Places::Yes(_) => out.extend_from_slice(b"yes"),
        Places::NoFault(fault) => {
            out.extend_from_slice(b"no ")?;
            put_fault(out, *fault)
        }
        Places::NoCycle(circle) => {
            out.extend_from_slice(b"no")?;
            put_circle(out, circle.as_slice())
        }
    }
}

/// Appends a snapshot verdict, up to [`MAX_SHOWN`] bytes of it.
#[tactic(auto, using(crate::proofs::CutTexts::cut_short, crate::proofs::CutTexts::uncut))]
fn put_cut(out: &mut Vec<u8>, places: &Places) -> Result<(), NoMemory>
    ensures { OnOk result (out.new.items ≡ out.old.items ++ cut (verdict_text places.now)) }
{
    let begin = out.len();
    put_verdict(out, places)?;
    if out.len() - begin > MAX_SHOWN {
        out.truncate(begin + MAX_SHOWN);
        out.extend_from_slice(b" ..")?;
    }
    Ok(())
}

/// Appends what a report says of snapshots.
fn put_places(out: &mut Vec<u8>, report: &Report) -> Result<(), NoMemory>
    ensures { OnOk result (out.new.items ≡ out.old.items ++ snapshot_text report.now) }
{
    out.extend_from_slice(b"snapshot: ")?;
    put_cut(out, &report.snapshot)
}

/// Appends why a report doesn't meet a requirement, without a newline. The text has the requirement, and one of these:
/// - the level that was found, and the first phenomenon that excludes the next one:
///   `PL-2 asked, PL-1 found: G1b present`
/// - the fault of a history that isn't sound: `PL-2 asked, unsound: F1 Dangling T1 op 1 row 1`
/// - the snapshot verdict, at most 200 bytes of it: `SI asked, snapshot: no c1 s2 c1`
pub fn put_shortfall(
    out: &mut Vec<u8>,
    requirement: Requirement,
    report: &Report,
) -> Result<(), NoMemory>
    ensures { OnOk result (out.new.items ≡ out.old.items ++ shortfall_text requirement report.now) }
{
    out.extend_from_slice(requirement.name().as_bytes())?;
    out.extend_from_slice(b" asked, ")?;
    match requirement {
        Requirement::Snapshot => put_places(out, report),
        _ => put_level(out, report),
    }
}
