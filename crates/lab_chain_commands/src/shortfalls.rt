//! What is said to people of a run that doesn't meet what is required of it. Lines that can't be made are left out.

use crate::asked::Asked;
use crate::part_text::{count_status, level_status};
use itoa::Buffer;
use lab_chain::{Ends, Summary, put_chain_shortfall, put_name, row_between};
use lab_printing::put_row_name;
use lab_reports::Requirement;
use lab_streams::note_text;
use lab_table::{NoMemory, RowName};
use std::alloc::Global;
use std::io::Write;

/// A line on a part that doesn't fit to the one before it, where they differ at this row.
fn seam_line(
    alloc: Global,
    requirement: Requirement,
    part: &[u8],
    row: RowName,
) -> Result<Vec<u8>, NoMemory> {
    let mut line = Vec::new(alloc);
    put_name(&mut line, part)?;
    line.extend_from_slice(b": ")?;
    line.extend_from_slice(requirement.name().as_bytes())?;
    line.extend_from_slice(b" asked, seam row ")?;
    put_row_name(&mut line, row)?;
    line.push(b'\n')?;
    Ok(line)
}

/// Appends a line on a piece that doesn't fit to the one before it, if a level is required.
pub fn note_seam(
    alloc: Global,
    asked: Asked,
    before: &Option<Ends>,
    next: &Option<Ends>,
    lines: &mut Vec<u8>,
) {
    if let (Some(requirement), Some(ends)) = (asked.requirement, next)
        && let Some(row) = row_between(before, next)
        && let Ok(line) = seam_line(alloc, requirement, ends.first.as_slice(), row)
    {
        let _ = lines.extend_from_slice(&line);
    }
}

/// A line that says how many parts a run must have, and how many it has.
fn count_line(alloc: Global, parts: u64, summary: &Summary) -> Result<Vec<u8>, NoMemory> {
    let mut line = Vec::from_slice(alloc, b"chain: ")?;
    line.extend_from_slice(Buffer::new().format(parts).as_bytes())?;
    line.extend_from_slice(b" parts asked, ")?;
    line.extend_from_slice(Buffer::new().format(summary.parts).as_bytes())?;
    line.extend_from_slice(b" found\n")?;
    Ok(line)
}

/// A line that says why a run doesn't meet a requirement.
fn level_line(
    alloc: Global,
    requirement: Requirement,
    summary: &Summary,
) -> Result<Vec<u8>, NoMemory> {
    let mut line = Vec::from_slice(alloc, b"chain: ")?;
    put_chain_shortfall(&mut line, requirement, summary)?;
    line.push(b'\n')?;
    Ok(line)
}

/// Gives `notes` a line if a run hasn't the number of parts that it must have, and one that says why it doesn't meet the
/// level that is required, if it doesn't.
pub fn note_shortfalls<N: Write>(alloc: Global, asked: Asked, summary: &Summary, notes: &mut N) {
    if let Some(parts) = asked.parts
        && count_status(asked.parts, summary) != 0
        && let Ok(line) = count_line(alloc, parts, summary)
    {
        note_text(&line, notes);
    }
    if let Some(requirement) = asked.requirement
        && level_status(asked.requirement, summary) != 0
        && let Ok(line) = level_line(alloc, requirement, summary)
    {
        note_text(&line, notes);
    }
}
