//! Values of rows that are looked for first where they are likely to stand.

ghost use Rattle.std.specs.Prelude.{◌≡◌, T, true, option_map};
ghost use Rattle.std.specs.Option.{option_copied};
ghost use Rattle.std.specs.List.{prefix_len};
ghost use Rattle.std.specs.FinMap as map;
ghost use Rattle.std.specs.Ordering.{is_gt};
ghost use Rattle.lab_table.specs.Row.{row_cmp, numbered};
ghost use Rattle.lab_table.specs.Running.{comes_after};

use lab_table::{RowName, TableName, entry_numbered, is_behind, place_of};

/// The value of a row in a list whose rows rise strictly, looked for at a place first; and the place at which a greater row
/// is looked for next: the one behind the row, or where the row would stand.
#[inline(always)]
pub fn value_near<V: Copy>(
    entries: &[(RowName, V)],
    near: usize,
    row: RowName,
) -> (Option<V>, usize)
    requires { T (map.is_sorted row_cmp entries.now) }
    ensures { result.0 ≡ map.find row_cmp row entries.now }
{
    if let Some(entry) = entries.get(near) {
        if row == entry.0 {
            return (Some(entry.1), near.wrapping_add(1));
        }
    }
    let place = place_near(entries, near, row);
    let found = value_at(entries, place, row);
    let next = if found.is_some() {
        place.wrapping_add(1)
    } else {
        place
    };
    (found, next)
}

/// A place at which a row is likely to stand in a list whose rows rise strictly: this one, where it does; else the one at
/// which it stands where the rows' numbers follow each other.
#[inline(always)]
pub fn likely_place<V>(entries: &[(RowName, V)], near: usize, row: RowName) -> usize {
    if let Some(entry) = entries.get(near) {
        if row == entry.0 {
            return near;
        }
    }
    match entries.first() {
        None => near,
        Some(first) => row.id.number().wrapping_sub(first.0.id.number()) as usize,
    }
}

/// The place of a row in a list whose rows rise strictly, looked for at a place and a little behind it first.
#[inline(always)]
fn place_near<V>(entries: &[(RowName, V)], near: usize, row: RowName) -> usize
    requires { T (map.is_sorted row_cmp entries.now) }
    ensures { result ≡ prefix_len (comes_after row) entries.now }
{
    let ahead = ahead(entries, near, row);
    if is_place(entries, ahead, row) {
        ahead
    } else {
        place_of(entries, row)
    }
}

/// A place behind the entries from one on that a row comes after, as far as these are four at the most.
#[inline(always)]
fn ahead<V>(entries: &[(RowName, V)], near: usize, row: RowName) -> usize {
    let mut place = near;
    for _ in 0..4 {
        match entries.get(place) {
            None => return place,
            Some(entry) => {
                if !follows(row, entry.0) {
                    return place;
                }
                place = place.wrapping_add(1);
            }
        }
    }
    place
}

/// Whether this is found to be the place of a row: it comes after the entry before, and not after the one there.
#[inline(always)]
fn is_place<V>(entries: &[(RowName, V)], place: usize, row: RowName) -> bool
    requires { T (map.is_sorted row_cmp entries.now) }
    ensures { result ≡ true → place ≡ prefix_len (comes_after row) entries.now }
{
    if place > entries.len() {
        return false;
    }
    if place < entries.len() && follows(row, entries[place].0) {
        return false;
    }
    place == 0 || follows(row, entries[place - 1].0)
}

/// Whether a row comes after another one. Most are of one table, and are then told apart by their numbers.
#[inline(always)]
fn follows(row: RowName, other: RowName) -> bool
    ensures { result ≡ is_gt (row_cmp row other) }
{
    is_behind(row.table, row.id.number(), other)
}

/// The entry of the row of this number and table in a list whose rows rise strictly; one beyond the last isn't looked for.
pub fn entry_within<V>(
    entries: &[(RowName, V)],
    table: TableName,
    number: u32,
) -> Option<&(RowName, V)>
    requires { T (map.is_sorted row_cmp entries.now) }
    ensures { option_copied result ≡ option_map (λ value. (numbered table number, value)) (map.find row_cmp (numbered table number) entries.now) }
{
    if let Some(last) = entries.last() {
        if is_behind(table, number, last.0) {
            return None;
        }
    }
    entry_numbered(entries, table, number)
}

/// The value of a row, where this is its place.
fn value_at<V: Copy>(entries: &[(RowName, V)], place: usize, row: RowName) -> Option<V>
    requires sorted { T (map.is_sorted row_cmp entries.now) }
    requires place { place ≡ prefix_len (comes_after row) entries.now }
    ensures { result ≡ map.find row_cmp row entries.now }
{
    let entry = entries.get(place)?;
    if row == entry.0 { Some(entry.1) } else { None }
}
