//! A map from rows to values, kept sorted by row.

ghost use Rattle.std.specs.Prelude.{◌≡◌, T, ◌≤◌, true, length, option_map, IfOk, OnErr};
ghost use Rattle.std.specs.Option.{option_copied};
ghost use Rattle.std.specs.List.{prefix_len, list_all};
ghost use Rattle.std.specs.FinMap as map;
ghost use Rattle.std.specs.Ordering.{is_gt};
ghost use Rattle.lab_table.specs.Row.{row_cmp, row_test, numbered, is_in};
ghost use Rattle.lab_table.specs.Running.{comes_after};
ghost use Rattle.lab_table.specs.Placed.{is_row_at, is_of};

use crate::memory::NoMemory;
use crate::row_name::RowName;
use crate::table_name::TableName;
use std::alloc::Global;
use std::marker::Model;
use std::mem;

/// A finite map from rows to values. Entries are sorted by row, and found by binary search.
#[derive(Debug, Drop)]
pub struct ByRow<V: Copy> {
    entries: Vec<(RowName, V)>,
}

impl<V: Copy> Model for ByRow<V> {
    ghost use Rattle.std.specs.Prelude.{T};
    ghost use Rattle.std.specs.FinMap as map;
    ghost use Rattle.lab_table.specs.Row.{row_cmp, coded_row};

    ghost Value = { map.FinMap row_cmp V };

    ghost coded = { map.code coded_row V.code };

    ghost view = { λ m. map.from_sorted m.entries.items };

    ghost invariant = { λ m. T (map.is_sorted row_cmp m.entries.items) };
}

impl<V: Copy> ByRow<V> {
    /// Returns an empty map. Allocates nothing.
    pub fn new(alloc: Global) -> ByRow<V>
        ensures { result ≡ map.empty }
    {
        ByRow {
            entries: Vec::new(alloc),
        }
    }

    /// Returns the map with these entries, whose rows must ascend strictly. Allocates nothing.
    pub fn from_rising(entries: Vec<(RowName, V)>) -> ByRow<V>
        requires { T (map.is_sorted row_cmp entries.items) }
        ensures { result ≡ map.from_sorted entries.items }
    {
        ByRow { entries }
    }

    /// Returns the value of `row`, or `None` if it has none.
    pub fn get(&self, row: RowName) -> Option<V>
        ensures { result ≡ map.get self.now row }
    {
        value_of(&self.entries, row).copied()
    }

    /// Returns the entries, in ascending order of rows.
    pub fn entries(&self) -> &[(RowName, V)]
        ensures { result.now ≡ map.entries self.now }
    {
        &self.entries
    }

    /// Sets the value of `row`, and replaces an old one. On failure, nothing has changed.
    pub fn put(&mut self, row: RowName, value: V) -> Result<(), NoMemory>
        ensures ok { IfOk result (λ _. self.new ≡ map.insert self.old row value) }
        ensures err { OnErr result (self.new ≡ self.old) }
    {
        put_entry(&mut self.entries, row, value)?;
        Ok(())
    }

    /// Removes all entries and returns them, in ascending order of rows.
    pub fn take(&mut self, alloc: Global) -> Vec<(RowName, V)>
        ensures entries { result.items ≡ map.entries self.old }
        ensures left { self.new ≡ map.empty }
    {
        mem::replace(&mut self.entries, Vec::new(alloc))
    }

    /// Returns a copy of the map.
    pub fn copy(&self, alloc: Global) -> Result<ByRow<V>, NoMemory>
        ensures { IfOk result (λ copy. copy ≡ self.now) }
    {
        Ok(ByRow {
            entries: Vec::from_slice(alloc, &self.entries)?,
        })
    }
}

/// Returns the value of `row` in a list sorted by row, or `None` if it has none.
pub fn value_of<V>(entries: &[(RowName, V)], row: RowName) -> Option<&V>
    requires { T (map.is_sorted row_cmp entries.now) }
    ensures { option_copied result ≡ map.find row_cmp row entries.now }
{
    let entry = entries.get(place_of(entries, row))?;
    if row == entry.0 { Some(&entry.1) } else { None }
}

/// Returns the entry of row `number` of `table` in a list sorted by row, or `None` if there is none. Row numbers range
/// from 1 to 999,999; any other number has no entry.
pub fn entry_numbered<V>(
    entries: &[(RowName, V)],
    table: TableName,
    number: u32,
) -> Option<&(RowName, V)>
    requires { T (map.is_sorted row_cmp entries.now) }
    ensures { option_copied result ≡ option_map (λ value. (numbered table number, value)) (map.find row_cmp (numbered table number) entries.now) }
{
    let entry = entries.get(place_numbered(entries, table, number))?;
    if is_numbered(entry.0, table, number) {
        Some(entry)
    } else {
        None
    }
}

/// Whether a row is the one of this number and table.
fn is_numbered(row: RowName, table: TableName, number: u32) -> bool
    ensures { result ≡ row_test (numbered table number) row }
{
    number == row.id.number() && table == row.table
}

/// Returns whether row `number` of `table` comes after `row`. Row numbers range from 1 to 999,999.
#[inline(always)]
pub fn is_behind(table: TableName, number: u32, row: RowName) -> bool
    ensures { result ≡ is_gt (row_cmp (numbered table number) row) }
{
    if table == row.table {
        number > row.id.number()
    } else {
        table > row.table
    }
}

/// Returns how many entries of a list sorted by row come before `row`.
pub fn place_of<V>(entries: &[(RowName, V)], row: RowName) -> usize
    requires { T (map.is_sorted row_cmp entries.now) }
    ensures value { result ≡ prefix_len (comes_after row) entries.now }
    ensures bound { result ≤ length entries.now }
{
    place_numbered(entries, row.table, row.id.number())
}

/// The same of the row of this number and table.
fn place_numbered<V>(entries: &[(RowName, V)], table: TableName, number: u32) -> usize
    requires { T (map.is_sorted row_cmp entries.now) }
    ensures value { result ≡ prefix_len (comes_after (numbered table number)) entries.now }
    ensures bound { result ≤ length entries.now }
{
    // Most lists are of one table, and among its rows a place is found by numbers alone, at less cost.
    if are_in(entries, table) {
        place_among(entries, table, number)
    } else {
        place_in_tables(entries, table, number)
    }
}

/// The same of a list whose rows may be of several tables.
// Not inlined, so that lists of one table pay nothing for it.
#[inline(never)]
fn place_in_tables<V>(entries: &[(RowName, V)], table: TableName, number: u32) -> usize
    requires { T (map.is_sorted row_cmp entries.now) }
    ensures value { result ≡ prefix_len (comes_after (numbered table number)) entries.now }
    ensures bound { result ≤ length entries.now }
{
    entries.partition_point(|entry| is_behind(table, number, entry.0))
}

/// Whether the rows of a list, which rise strictly, are all of a table: the first and the last are.
fn are_in<V>(entries: &[(RowName, V)], table: TableName) -> bool
    requires { T (map.is_sorted row_cmp entries.now) }
    ensures { result ≡ true → list_all (is_of table) entries.now ≡ true }
{
    match entries.first() {
        None => true,
        Some(first) => match entries.last() {
            None => true,
            Some(last) => is_in(first.0, table) && is_in(last.0, table),
        },
    }
}

/// Whether a row is one of a table.
fn is_in(row: RowName, table: TableName) -> bool
    ensures { result ≡ is_in table row }
{
    row.table == table
}

/// How many entries stand before the row of this number, of a list whose rows are of this table and rise strictly.
fn place_among<V>(entries: &[(RowName, V)], table: TableName, number: u32) -> usize
    requires sorted { T (map.is_sorted row_cmp entries.now) }
    requires one { list_all (is_of table) entries.now ≡ true }
    ensures value { result ≡ prefix_len (comes_after (numbered table number)) entries.now }
    ensures bound { result ≤ length entries.now }
{
    entries.partition_point(|entry| entry.0.id.number() < number)
}

fn stands_at<V>(entries: &[(RowName, V)], place: usize, row: RowName) -> bool
    ensures { result ≡ is_row_at entries.now place row }
{
    match entries.get(place) {
        Some(entry) => row == entry.0,
        None => false,
    }
}

fn put_entry<V: Copy>(
    entries: &mut Vec<(RowName, V)>,
    row: RowName,
    value: V,
) -> Result<(), NoMemory>
    requires { T (map.is_sorted row_cmp entries.old.items) }
    ensures ok { IfOk result (λ _. entries.new.items ≡ map.put row_cmp row value entries.old.items) }
    ensures err { OnErr result (entries.new.items ≡ entries.old.items) }
{
    let place = place_of(entries, row);
    if stands_at(entries, place, row) {
        entries[place] = (row, value);
    } else {
        entries.insert(place, (row, value))?;
    }
    Ok(())
}
