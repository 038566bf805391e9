//! The verdict of a page, or what is found, in a line and in a sentence.

ghost use Rattle.std.specs.Prelude.{◌≡◌, ◌++◌, IfOk, OnOk};
ghost use Rattle.lab_overview.specs.Head.{serial_headline, headline_of, serial_lede, lede_of};

use crate::meanings::{fault_meaning, meaning_of};
use crate::phrases::yes_lede;
use lab_drawing::{put_finding_title, put_serial_title, walk_phenomenon};
use lab_history::History;
use lab_judge::{Report, Serial};
use lab_reports::Phenomenon;
use lab_table::NoMemory;
use std::alloc::Global;

/// Appends the verdict in a line.
fn put_serial_headline(
    out: &mut Vec<u8>,
    history: &History,
    serial: &Serial,
) -> Result<(), NoMemory>
    ensures { OnOk result (out.new.items ≡ out.old.items ++ serial_headline history.now serial.now) }
{
    match serial {
        Serial::Yes(_) => out.extend_from_slice(b"Serializable"),
        Serial::NoFault(_) => put_serial_title(out, history, serial),
        Serial::NoCycle(_) => put_serial_title(out, history, serial),
    }
}

/// Appends the verdict, or what is found, in a line.
fn put_headline_words(
    out: &mut Vec<u8>,
    history: &History,
    report: &Report,
    asked: Option<Phenomenon>,
) -> Result<(), NoMemory>
    ensures { OnOk result (out.new.items ≡ out.old.items ++ headline_of history.now report.now asked) }
{
    match asked {
        None => put_serial_headline(out, history, &report.serial),
        Some(phenomenon) => {
            put_finding_title(out, history, phenomenon, phenomenon.found_in(report))
        }
    }
}

/// The same.
pub fn headline_of(
    alloc: Global,
    history: &History,
    report: &Report,
    asked: Option<Phenomenon>,
) -> Result<Vec<u8>, NoMemory>
    ensures { IfOk result (λ text. text.items ≡ headline_of history.now report.now asked) }
{
    let mut text = Vec::new(alloc);
    put_headline_words(&mut text, history, report, asked)?;
    Ok(text)
}

/// What a verdict means, in a sentence.
fn serial_lede(serial: &Serial) -> &'static [u8]
    ensures { result.now ≡ serial_lede serial.now }
{
    match serial {
        Serial::Yes(_) => yes_lede(),
        Serial::NoFault(fault) => fault_meaning(fault.parts()),
        Serial::NoCycle(walk) => meaning_of(walk_phenomenon(walk.as_slice())),
    }
}

/// The same of what is asked for.
pub fn lede_of(report: &Report, asked: Option<Phenomenon>) -> &'static [u8]
    ensures { result.now ≡ lede_of report.now asked }
{
    match asked {
        None => serial_lede(&report.serial),
        Some(phenomenon) => meaning_of(phenomenon),
    }
}
