//! What engines tell of one thing, side by side: once where they are alike, else once for each thing told. The
//! functions append; on failure, a part of the text may have been appended.

ghost use Rattle.std.specs.Prelude.{◌≡◌, ◌-◌, ◌++◌, flat_map, option_map, OnOk};
ghost use Rattle.lab_compare.specs.Alike.{first_alike, is_of, name_if, group_text, leads, led_text, groups_text, explained_text, explanations_text, all_alike, alike_text, differing_text, columns_behind};
ghost use Rattle.lab_matrix.specs.MatrixText.{spaces};

use crate::side::{Column, Side};
use crate::telling::Telling;
use lab_levels::level_name;
use lab_table::NoMemory;

/// The width of a column.
const WIDTH: usize = 12;

/// The first that tells the same as this one.
fn first_alike<'s, 't>(one: &Telling<'_>, all: &'s [Telling<'t>]) -> Option<&'s Telling<'t>>
    ensures { option_map (λ (telling : _). telling.now) result ≡ first_alike one.now all.now }
{
    for other in all {
        if one.is_alike(other) {
            return Some(other);
        }
    }
    None
}

/// Whether there is a first, and it is the same engine as another one.
fn is_of(first: Option<&Telling<'_>>, one: &Telling<'_>) -> bool
    ensures { result ≡ is_of (option_map (λ (telling : _). telling.now) first.entry) one.now }
{
    match first {
        Some(first) => level_name(first.level).as_bytes() == level_name(one.level).as_bytes(),
        None => false,
    }
}

/// Appends the name of another engine behind a blank, where it tells the same as this one.
fn put_name_if(out: &mut Vec<u8>, one: &Telling<'_>, other: &Telling<'_>) -> Result<(), NoMemory>
    ensures { OnOk result (out.new.items ≡ out.old.items ++ name_if one.now other.now) }
{
    if !one.is_alike(other) {
        return Ok(());
    }
    out.push(b' ')?;
    out.extend_from_slice(level_name(other.level).as_bytes())
}

/// Appends the names of the engines that tell the same as this one, each behind a blank.
fn put_names(out: &mut Vec<u8>, one: &Telling<'_>, all: &[Telling<'_>]) -> Result<(), NoMemory>
    ensures { OnOk result (out.new.items ≡ out.old.items ++ flat_map (name_if one.now) all.now) }
{
    for other in all {
        put_name_if(out, one, other)?;
    }
    Ok(())
}

/// Appends what an engine tells, with the engines that tell the same before it.
fn put_group(
    out: &mut Vec<u8>,
    mark: &[u8],
    all: &[Telling<'_>],
    one: &Telling<'_>,
) -> Result<(), NoMemory>
    ensures { OnOk result (out.new.items ≡ out.old.items ++ group_text mark.now all.now one.now) }
{
    out.push(b' ')?;
    put_names(out, one, all)?;
    out.extend_from_slice(mark)?;
    one.put_content(out)
}

/// Whether an engine is the first that tells what it does.
fn leads(all: &[Telling<'_>], one: &Telling<'_>) -> bool
    ensures { result ≡ leads all.now one.now }
{
    is_of(first_alike(one, all), one)
}

/// Appends a line with what an engine tells, where it is the first that does.
fn put_led(
    out: &mut Vec<u8>,
    mark: &[u8],
    all: &[Telling<'_>],
    one: &Telling<'_>,
) -> Result<(), NoMemory>
    ensures { OnOk result (out.new.items ≡ out.old.items ++ led_text mark.now all.now one.now) }
{
    if !leads(all, one) {
        return Ok(());
    }
    put_group(out, mark, all, one)?;
    out.extend_from_slice(b"\n")
}

/// Appends what is explained of an engine, where something is and it is the first of which that is.
fn put_explained(out: &mut Vec<u8>, all: &[Telling<'_>], one: &Telling<'_>) -> Result<(), NoMemory>
    ensures { OnOk result (out.new.items ≡ out.old.items ++ explained_text all.now one.now) }
{
    if one.is_empty() {
        return Ok(());
    }
    if leads(all, one) {
        put_group(out, b":\n", all, one)
    } else {
        Ok(())
    }
}

/// Appends what is explained, once for all engines of which that is.
pub fn put_explanations(out: &mut Vec<u8>, all: &[Telling<'_>]) -> Result<(), NoMemory>
    ensures { OnOk result (out.new.items ≡ out.old.items ++ explanations_text all.now) }
{
    for one in all {
        put_explained(out, all, one)?;
    }
    Ok(())
}

/// Appends a line for each thing that is told, in the order of the first engines that tell it.
fn put_groups(out: &mut Vec<u8>, mark: &[u8], all: &[Telling<'_>]) -> Result<(), NoMemory>
    ensures { OnOk result (out.new.items ≡ out.old.items ++ groups_text mark.now all.now) }
{
    for one in all {
        put_led(out, mark, all, one)?;
    }
    Ok(())
}

/// Whether all others tell the same as this one.
fn all_alike(one: &Telling<'_>, others: &[Telling<'_>]) -> bool
    ensures { result ≡ all_alike one.now others.now }
{
    others.iter().all(|other| one.is_alike(other))
}

/// Appends, behind what was asked, one text on its line where all are alike, else a line for each.
pub fn put_alike(out: &mut Vec<u8>, all: &[Telling<'_>]) -> Result<(), NoMemory>
    ensures { OnOk result (out.new.items ≡ out.old.items ++ alike_text all.now) }
{
    let Some((first, others)) = all.split_first() else {
        return out.extend_from_slice(b"\n");
    };
    if all_alike(first, others) {
        out.extend_from_slice(b": ")?;
        first.put_content(out)?;
        out.extend_from_slice(b"\n")
    } else {
        out.push(b'\n')?;
        put_groups(out, b": ", all)
    }
}

/// Appends a line for each thing that is told, where they aren't all alike.
pub fn put_differing(out: &mut Vec<u8>, mark: &[u8], all: &[Telling<'_>]) -> Result<(), NoMemory>
    ensures { OnOk result (out.new.items ≡ out.old.items ++ differing_text mark.now all.now) }
{
    let Some((first, others)) = all.split_first() else {
        return Ok(());
    };
    if all_alike(first, others) {
        Ok(())
    } else {
        put_groups(out, mark, all)
    }
}

/// Appends spaces from one column up to another.
fn put_spaces(out: &mut Vec<u8>, used: usize) -> Result<(), NoMemory>
    ensures { OnOk result (out.new.items ≡ out.old.items ++ spaces (12 - used)) }
{
    for _column in used..WIDTH {
        out.push(b' ')?;
    }
    Ok(())
}

/// Appends texts in columns, behind one that has so many bytes.
pub fn put_columns(
    out: &mut Vec<u8>,
    of: Column,
    lead: usize,
    sides: &[Side],
) -> Result<(), NoMemory>
    ensures { OnOk result (out.new.items ≡ out.old.items ++ columns_behind of lead sides.now) }
{
    let mut used = lead;
    for side in sides {
        let text = side.in_column(of);
        put_spaces(out, used)?;
        out.extend_from_slice(text)?;
        used = text.len();
    }
    out.extend_from_slice(b"\n")
}
