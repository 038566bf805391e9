//! The levels and the phenomena. Functions that take bytes append; on failure, a part of the text may have been
//! appended.

ghost use Rattle.std.specs.Prelude.{◌≡◌, ◌++◌, flat_map, OnOk};
ghost use Rattle.lab_explain.specs.Places.{places_sentence};
ghost use Rattle.lab_overview.specs.Sentences.{paragraph_text};
ghost use Rattle.lab_overview.specs.Levels.{rung_open, rung_said, rung_text, upper_rungs, lower_rungs, ladder_text, ladder_of, finding_cell, meaning_cells, phenomenon_line, phenomena_text, levels_open, levels_text};

use crate::meanings::{forbidden_from, meaning_of};
use crate::phrases::{
    committed_rung, ladder_open, lowest_rung, phenomena_open, repeatable_rung, serial_rung,
    uncommitted_rung,
};
use crate::sentences::{put_led, put_paragraph};
use crate::tags::{finding_open, forbidden_open};
use lab_explain::{level_line, put_finding_sentence, put_places_sentence};
use lab_history::History;
use lab_judge::{Grade, Places, Report};
use lab_reports::Phenomenon;
use lab_table::NoMemory;
use std::alloc::Global;

/// The beginning of a rung.
fn rung_open(here: bool) -> &'static [u8]
    ensures { result.now ≡ rung_open here }
{
    if here {
        b"<tr class=\"here\">"
    } else {
        b"<tr>"
    }
}

/// Whether it is met.
fn rung_said(met: bool) -> &'static [u8]
    ensures { result.now ≡ rung_said met }
{
    if met {
        b"<td>met</td></tr>\n"
    } else {
        b"<td>not met</td></tr>\n"
    }
}

/// Appends a rung of the ladder.
#[tactic(auto, unfolding(crate::specs::Levels::rung_text))]
fn put_rung(out: &mut Vec<u8>, own: u32, rung: u32, words: &[u8]) -> Result<(), NoMemory>
    ensures { OnOk result (out.new.items ≡ out.old.items ++ rung_text own rung words.now) }
{
    out.extend_from_slice(rung_open(own == rung))?;
    out.extend_from_slice(words)?;
    out.extend_from_slice(rung_said(rung <= own))
}

/// Appends the upper rungs.
#[tactic(auto, unfolding(crate::specs::Levels::upper_rungs))]
fn put_upper_rungs(out: &mut Vec<u8>, own: u32) -> Result<(), NoMemory>
    ensures { OnOk result (out.new.items ≡ out.old.items ++ upper_rungs own) }
{
    put_rung(out, own, 4, serial_rung())?;
    put_rung(out, own, 3, repeatable_rung())
}

/// Appends the lower rungs.
#[tactic(auto, unfolding(crate::specs::Levels::lower_rungs))]
fn put_lower_rungs(out: &mut Vec<u8>, own: u32) -> Result<(), NoMemory>
    ensures { OnOk result (out.new.items ≡ out.old.items ++ lower_rungs own) }
{
    put_rung(out, own, 2, committed_rung())?;
    put_rung(out, own, 1, uncommitted_rung())?;
    out.extend_from_slice(rung_open(own == 0))?;
    out.extend_from_slice(lowest_rung())
}

/// Appends the ladder.
#[tactic(auto, unfolding(crate::specs::Levels::ladder_text))]
fn put_ladder(out: &mut Vec<u8>, own: u32) -> Result<(), NoMemory>
    ensures { OnOk result (out.new.items ≡ out.old.items ++ ladder_text own) }
{
    out.extend_from_slice(ladder_open())?;
    put_upper_rungs(out, own)?;
    put_lower_rungs(out, own)?;
    out.extend_from_slice(b"</tbody>\n</table>\n")
}

/// Appends the ladder of a level, where one is looked for.
fn put_ladder_of(out: &mut Vec<u8>, level: Grade) -> Result<(), NoMemory>
    ensures { OnOk result (out.new.items ≡ out.old.items ++ ladder_of level) }
{
    match level {
        Grade::BelowPl1 => put_ladder(out, 0),
        Grade::Pl1 => put_ladder(out, 1),
        Grade::Pl2 => put_ladder(out, 2),
        Grade::Pl299 => put_ladder(out, 3),
        Grade::Pl3 => put_ladder(out, 4),
        Grade::Unsound => Ok(()),
    }
}

/// Appends what is found of a phenomenon.
#[tactic(auto, unfolding(crate::specs::Levels::finding_cell))]
fn put_finding_cell(out: &mut Vec<u8>, sentence: &[u8]) -> Result<(), NoMemory>
    ensures { OnOk result (out.new.items ≡ out.old.items ++ finding_cell sentence.now) }
{
    out.extend_from_slice(finding_open())?;
    put_led(out, sentence)?;
    out.extend_from_slice(b"</th><td>")
}

/// Appends what it is, and the lowest level that forbids it.
#[tactic(auto, unfolding(crate::specs::Levels::meaning_cells))]
fn put_meaning_cells(out: &mut Vec<u8>, phenomenon: Phenomenon) -> Result<(), NoMemory>
    ensures { OnOk result (out.new.items ≡ out.old.items ++ meaning_cells phenomenon) }
{
    out.extend_from_slice(meaning_of(phenomenon))?;
    out.extend_from_slice(forbidden_open())?;
    out.extend_from_slice(forbidden_from(phenomenon))?;
    out.extend_from_slice(b"</td></tr>\n")
}

/// Appends a phenomenon.
#[tactic(auto, unfolding(crate::specs::Levels::phenomenon_line))]
fn put_phenomenon(
    alloc: Global,
    out: &mut Vec<u8>,
    history: &History,
    report: &Report,
    phenomenon: Phenomenon,
) -> Result<(), NoMemory>
    ensures { OnOk result (out.new.items ≡ out.old.items ++ phenomenon_line history.now report.now phenomenon) }
{
    let mut sentence = Vec::new(alloc);
    put_finding_sentence(alloc, &mut sentence, history, report, phenomenon)?;
    put_finding_cell(out, &sentence)?;
    put_meaning_cells(out, phenomenon)
}

/// Appends the lines of phenomena.
fn put_phenomenon_lines(
    alloc: Global,
    out: &mut Vec<u8>,
    history: &History,
    report: &Report,
    phenomena: &[Phenomenon],
) -> Result<(), NoMemory>
    ensures { OnOk result (out.new.items ≡ out.old.items ++ flat_map (phenomenon_line history.now report.now) phenomena.now) }
{
    for phenomenon in phenomena {
        put_phenomenon(alloc, out, history, report, *phenomenon)?;
    }
    Ok(())
}

/// Appends the phenomena.
#[tactic(auto, unfolding(crate::specs::Levels::phenomena_text))]
fn put_phenomena(
    alloc: Global,
    out: &mut Vec<u8>,
    history: &History,
    report: &Report,
) -> Result<(), NoMemory>
    ensures { OnOk result (out.new.items ≡ out.old.items ++ phenomena_text history.now report.now) }
{
    out.extend_from_slice(phenomena_open())?;
    put_phenomenon_lines(alloc, out, history, report, &Phenomenon::ALL)?;
    out.extend_from_slice(b"</tbody>\n</table>\n</section>\n")
}

/// The beginning.
#[tactic(auto, unfolding(crate::specs::Levels::levels_open))]
fn levels_open() -> &'static [u8]
    ensures { result.now ≡ levels_open }
{
    b"<section aria-labelledby=\"levels\">\n<h2 id=\"levels\">Levels and phenomena</h2>\n"
}

/// Appends the sentence of the snapshot verdict.
fn put_places(alloc: Global, out: &mut Vec<u8>, snapshot: &Places) -> Result<(), NoMemory>
    ensures { OnOk result (out.new.items ≡ out.old.items ++ paragraph_text (places_sentence snapshot.now)) }
{
    let mut sentence = Vec::new(alloc);
    put_places_sentence(&mut sentence, snapshot)?;
    put_paragraph(out, &sentence)
}

/// Appends the section on levels and phenomena.
#[tactic(auto, unfolding(crate::specs::Levels::levels_text))]
pub fn put_levels(
    alloc: Global,
    out: &mut Vec<u8>,
    history: &History,
    report: &Report,
) -> Result<(), NoMemory>
    ensures { OnOk result (out.new.items ≡ out.old.items ++ levels_text history.now report.now) }
{
    out.extend_from_slice(levels_open())?;
    put_paragraph(out, level_line(report.level).as_bytes())?;
    put_places(alloc, out, &report.snapshot)?;
    put_ladder_of(out, report.level)?;
    put_phenomena(alloc, out, history, report)
}
