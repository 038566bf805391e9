//! The tiles of a page: the verdict in four words. Functions that take bytes append; on failure, a part of the text may
//! have been appended.

ghost use Rattle.std.specs.Prelude.{◌≡◌, ◌++◌, flat_map, IfOk, OnOk};
ghost use Rattle.lab_overview.specs.Head.{tile_open, tile_said, tile_text, is_serial, is_placed, yes_word, is_present, present_name, present_names, none_words, names_tile, serial_tile, placed_tile, level_tile, verdict_tiles, tiles_text};

use crate::meanings::{level_words, rung_of};
use lab_judge::{Finding, Grade, Places, Report, Serial};
use lab_reports::Phenomenon;
use lab_table::NoMemory;
use std::alloc::Global;

/// The beginning of a tile.
fn tile_open(bad: bool) -> &'static [u8]
    ensures { result.now ≡ tile_open bad }
{
    if bad { b"<li class=\"no\">" } else { b"<li>" }
}

/// Appends what a tile says, and its end.
#[tactic(auto, unfolding(crate::specs::Head::tile_said))]
fn put_tile_said(out: &mut Vec<u8>, said: &[u8]) -> Result<(), NoMemory>
    ensures { OnOk result (out.new.items ≡ out.old.items ++ tile_said said.now) }
{
    out.extend_from_slice(b" <b>")?;
    out.extend_from_slice(said)?;
    out.extend_from_slice(b"</b></li>\n")
}

/// Appends a tile.
#[tactic(auto, unfolding(crate::specs::Head::tile_text))]
fn put_tile(out: &mut Vec<u8>, bad: bool, term: &[u8], said: &[u8]) -> Result<(), NoMemory>
    ensures { OnOk result (out.new.items ≡ out.old.items ++ tile_text bad term.now said.now) }
{
    out.extend_from_slice(tile_open(bad))?;
    out.extend_from_slice(term)?;
    put_tile_said(out, said)
}

/// Whether a history is serializable.
fn is_serial(serial: &Serial) -> bool
    ensures { result ≡ is_serial serial.now }
{
    match serial {
        Serial::Yes(_) => true,
        Serial::NoFault(_) => false,
        Serial::NoCycle(_) => false,
    }
}

/// Whether it is a snapshot run.
fn is_placed(snapshot: &Places) -> bool
    ensures { result ≡ is_placed snapshot.now }
{
    match snapshot {
        Places::Yes(_) => true,
        Places::NoFault(_) => false,
        Places::NoCycle(_) => false,
    }
}

fn yes_word(said: bool) -> &'static [u8]
    ensures { result.now ≡ yes_word said }
{
    if said { b"yes" } else { b"no" }
}

/// Whether a phenomenon is present.
fn is_present(finding: &Finding) -> bool
    ensures { result ≡ is_present finding.now }
{
    match finding {
        Finding::Absent => false,
        Finding::Walk(_) => true,
        Finding::At { .. } => true,
        Finding::NotJudged => false,
    }
}

/// Appends the name of a phenomenon, if it is present.
fn put_present_name(
    out: &mut Vec<u8>,
    report: &Report,
    phenomenon: Phenomenon,
) -> Result<(), NoMemory>
    ensures { OnOk result (out.new.items ≡ out.old.items ++ present_name report.now phenomenon) }
{
    if is_present(phenomenon.found_in(report)) {
        out.extend_from_slice(b" ")?;
        out.extend_from_slice(phenomenon.name().as_bytes())
    } else {
        Ok(())
    }
}

/// Appends the names of those of these phenomena that are present.
fn put_names(out: &mut Vec<u8>, report: &Report, phenomena: &[Phenomenon]) -> Result<(), NoMemory>
    ensures { OnOk result (out.new.items ≡ out.old.items ++ flat_map (present_name report.now) phenomena.now) }
{
    for phenomenon in phenomena {
        put_present_name(out, report, *phenomenon)?;
    }
    Ok(())
}

/// The names of the phenomena that are present.
fn present_names(alloc: Global, report: &Report) -> Result<Vec<u8>, NoMemory>
    ensures { IfOk result (λ names. names.items ≡ present_names report.now) }
{
    let mut names = Vec::new(alloc);
    put_names(&mut names, report, &Phenomenon::ALL)?;
    Ok(names)
}

/// What is said where none is.
fn none_words(level: Grade) -> &'static [u8]
    ensures { result.now ≡ none_words level }
{
    match level {
        Grade::BelowPl1 => b"none",
        Grade::Pl1 => b"none",
        Grade::Pl2 => b"none",
        Grade::Pl299 => b"none",
        Grade::Pl3 => b"none",
        Grade::Unsound => b"not judged",
    }
}

/// Appends the tile of the phenomena with these names.
#[tactic(auto, unfolding(crate::specs::Head::names_tile))]
fn put_names_tile(out: &mut Vec<u8>, level: Grade, names: &[u8]) -> Result<(), NoMemory>
    ensures { OnOk result (out.new.items ≡ out.old.items ++ names_tile level names.now) }
{
    if names.len() == 0 {
        put_tile(out, false, b"Phenomena", none_words(level))
    } else {
        put_tile(out, true, b"Phenomena", names)
    }
}

/// Appends the tile of the serial verdict.
#[tactic(auto, unfolding(crate::specs::Head::serial_tile))]
fn put_serial_tile(out: &mut Vec<u8>, said: bool) -> Result<(), NoMemory>
    ensures { OnOk result (out.new.items ≡ out.old.items ++ serial_tile said) }
{
    put_tile(out, !said, b"Serializable", yes_word(said))
}

/// Appends the tile of the snapshot verdict.
#[tactic(auto, unfolding(crate::specs::Head::placed_tile))]
fn put_placed_tile(out: &mut Vec<u8>, said: bool) -> Result<(), NoMemory>
    ensures { OnOk result (out.new.items ≡ out.old.items ++ placed_tile said) }
{
    put_tile(out, !said, b"Snapshot isolation", yes_word(said))
}

/// Appends the tile of the level.
#[tactic(auto, unfolding(crate::specs::Head::level_tile))]
fn put_level_tile(out: &mut Vec<u8>, level: Grade) -> Result<(), NoMemory>
    ensures { OnOk result (out.new.items ≡ out.old.items ++ level_tile level) }
{
    put_tile(out, rung_of(level) != 4, b"Level", level_words(level))
}

/// Appends the tiles of the verdicts.
#[tactic(auto, unfolding(crate::specs::Head::verdict_tiles))]
fn put_verdict_tiles(out: &mut Vec<u8>, report: &Report) -> Result<(), NoMemory>
    ensures { OnOk result (out.new.items ≡ out.old.items ++ verdict_tiles report.now) }
{
    put_serial_tile(out, is_serial(&report.serial))?;
    put_placed_tile(out, is_placed(&report.snapshot))?;
    put_level_tile(out, report.level)
}

/// Appends the four tiles.
#[tactic(auto, unfolding(crate::specs::Head::tiles_text))]
pub fn put_tiles(alloc: Global, out: &mut Vec<u8>, report: &Report) -> Result<(), NoMemory>
    ensures { OnOk result (out.new.items ≡ out.old.items ++ tiles_text report.now) }
{
    let names = present_names(alloc, report)?;
    put_verdict_tiles(out, report)?;
    put_names_tile(out, report.level, &names)?;
    out.extend_from_slice(b"</ul>\n")
}
