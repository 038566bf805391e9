//! The seam between two parts: whether a part begins with the rows with which the part before it ended.

ghost use Rattle.std.specs.Prelude.{◌≡◌, IfOk};
ghost use Rattle.lab_chain.specs.Difference.{lesser, same_entry, parted, first_difference};
ghost use Rattle.lab_chain.specs.Summary as spec;

use crate::level::Level;
use crate::line::{Line, Text};
use crate::summary::{Ends, Lines};
use lab_printing::put_row_name;
use lab_table::{NoMemory, RowName, Table, Value};
use std::alloc::Global;

/// The lines and the level of the seam between two pieces of a run.
#[derive(Drop)]
pub struct Seam {
    pub lines: Lines,
    pub level: Level,
}

fn lesser(one: RowName, other: RowName) -> RowName
    ensures { result ≡ lesser one other }
{
    if one <= other { one } else { other }
}

fn same_entry(one: &(RowName, Value), other: &(RowName, Value)) -> bool
    ensures { result ≡ same_entry one.now other.now }
{
    one.0 == other.0 && one.1 == other.1
}

/// The lesser row of the first place at which two lists differ.
fn parted(entries: &[(RowName, Value)], others: &[(RowName, Value)]) -> Option<RowName>
    ensures { result ≡ parted entries.now others.now }
{
    let mut rest = others;
    for entry in entries {
        match rest.split_first() {
            None => return Some(entry.0),
            Some((other, behind)) => {
                if !same_entry(entry, other) {
                    return Some(lesser(entry.0, other.0));
                }
                rest = behind;
            }
        }
    }
    rest.first().map(|other| other.0)
}

/// Returns the least row at which two tables differ, or `None` if they are equal.
pub fn first_difference(table: &Table, other: &Table) -> Option<RowName>
    ensures { result ≡ first_difference table.now other.now }
{
    parted(table.rows(), other.rows())
}

/// The least row of which the rows in the end of a part and those at the beginning of the next say otherwise, where both
/// are known.
fn parted_at(last: &Option<Table>, initial: &Option<Table>) -> Option<RowName>
    ensures { result ≡ spec.parted_at last.now initial.now }
{
    match (last, initial) {
        (Some(last), Some(initial)) => first_difference(last, initial),
        _ => None,
    }
}

/// Returns the least row at which a piece of a run doesn't fit to the one before it, or `None` if it fits or the rows
/// at the seam aren't known.
pub fn row_between(first: &Option<Ends>, next: &Option<Ends>) -> Option<RowName>
    ensures { result ≡ spec.row_between first.now next.now }
{
    match (first, next) {
        (Some(first), Some(next)) => parted_at(&first.last, &next.initial),
        _ => None,
    }
}

/// Why a part doesn't fit to the one before it.
fn seam_reason(alloc: Global, row: RowName) -> Result<Text, NoMemory>
    ensures { IfOk result (λ text. text ≡ spec.seam_reason row) }
{
    let mut reason = Vec::from_slice(alloc, b"seam row ")?;
    put_row_name(&mut reason, row)?;
    Ok(Text::new(reason))
}

/// What the seam in front of a part says.
fn seam_at(alloc: Global, part: &Text, row: Option<RowName>) -> Result<Seam, NoMemory>
    ensures { IfOk result (λ seam. seam ≡ spec.seam_at part.now row) }
{
    let Some(row) = row else {
        return Ok(Seam {
            lines: Lines::clear(),
            level: Level::Pl3,
        });
    };
    let name = part.as_slice();
    let verdict = Line::found_in(alloc, name, seam_reason(alloc, row)?)?;
    let found = Line::unjudged_from(alloc, name)?;
    Ok(Seam {
        lines: Lines::of(alloc, &verdict, &found)?,
        level: Level::Unsound,
    })
}

/// What the seam between two pieces says.
pub fn seam_between(
    alloc: Global,
    first: &Option<Ends>,
    next: &Option<Ends>,
) -> Result<Seam, NoMemory>
    ensures { IfOk result (λ seam. seam ≡ spec.seam_between first.now next.now) }
{
    match (first, next) {
        (Some(first), Some(next)) => {
            let row = parted_at(&first.last, &next.initial);
            seam_at(alloc, &next.first, row)
        }
        _ => Ok(Seam {
            lines: Lines::clear(),
            level: Level::Pl3,
        }),
    }
}
