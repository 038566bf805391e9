//! What a member of a list begins with: the key of its row, in front of what the list says of the row.

ghost use Rattle.std.specs.Prelude.{◌≡◌, ◌≤◌, ◌+◌, option_map, IfSome, IfOk};
ghost use Rattle.serde_json.specs.Find.{as_array};
ghost use Rattle.serde_json.specs.View.{view, items_view};
ghost use Rattle.lab_history.specs.Faults.{Gives};
ghost use Rattle.lab_history_file.specs.Member.{id_in, table_in, plain_in, full_in, sized, split_key as spec_split_key};
ghost use Rattle.lab_history_file.specs.Member as key;
ghost use Rattle.lab_history_file.specs.Whole.{whole_in};

use crate::fault::{required, wrong};
use crate::file_version::FileVersion;
use lab_history::{FileFault, ListPlace, Path};
use lab_table::{NoMemory, RowId, RowName, TableName};
use serde_json::Value as Json;
use std::alloc::Global;

/// The place of a member of a list in a file of a version, counted from 0.
#[derive(Clone, Copy)]
pub struct MemberPlace {
    pub version: FileVersion,
    pub list: ListPlace,
    pub index: usize,
}

impl MemberPlace {
    ghost use Rattle.std.specs.Prelude.{◌≡◌};
    ghost use Rattle.lab_history.specs.declared.path.Path.TheVariants as path;

    /// The path of the member.
    pub fn path(self) -> Path
        ensures { result ≡ path.Member self.list self.index }
    {
        Path::Member {
            list: self.list,
            index: self.index,
        }
    }

    /// The path of a part of the member, counted from 0.
    pub fn part(self, part: usize) -> Path
        ensures { result ≡ path.Part self.list self.index part }
    {
        Path::Part {
            list: self.list,
            index: self.index,
            part,
        }
    }
}

/// How many parts of a member are its key.
pub fn key_parts(version: FileVersion) -> usize
    ensures { result ≡ key.key_parts version }
{
    match version {
        FileVersion::One => 1,
        FileVersion::Two => 2,
    }
}

/// A whole number from 1 to this one.
#[inline(always)]
pub fn whole_of(json: &Json, most: u32) -> Option<u32>
    ensures value { result ≡ whole_in 1 most (view json.now) }
    ensures some { IfSome result (λ number. 1 ≤ number) }
    ensures bound { IfSome result (λ number. number ≤ most) }
{
    let number = json.as_u64()?;
    if 1 <= number && number <= most as u64 {
        Some(number as u32)
    } else {
        None
    }
}

/// An id.
fn id_of(json: &Json) -> Option<RowId>
    ensures { result ≡ id_in (view json.now) }
{
    RowId::new(whole_of(json, 999_999)?)
}

/// A table's name, in lower case.
#[tactic(auto, using(crate::proofs::TableNames::name_found, crate::proofs::TableNames::no_name, crate::proofs::TableNames::other_name))]
fn table_of(alloc: Global, json: &Json) -> Result<Option<TableName>, NoMemory>
    ensures { IfOk result (λ table. table ≡ table_in (view json.now)) }
{
    let Some(text) = json.as_str() else {
        return Ok(None);
    };
    match TableName::new(alloc, text.as_bytes())? {
        Some(table) => {
            if table.as_bytes() == text.as_bytes() {
                Ok(Some(table))
            } else {
                Ok(None)
            }
        }
        None => Ok(None),
    }
}

/// The row of a key that is an id.
// Not inlined either: a name of a table that a call answers is copied as a whole, and not byte by byte.
#[inline(never)]
fn plain_row(place: MemberPlace, id: &Json) -> Result<RowName, FileFault>
    ensures { Gives (λ row. row) result (plain_in place.list place.index (view id.now)) }
{
    match id_of(id) {
        Some(id) => Ok(RowName::in_test(id)),
        None => Err(wrong(place.part(0))),
    }
}

/// The row of a key that is a table's name and an id.
// Not inlined, so that a key that is an id stays cheap to read.
#[inline(never)]
fn full_row(
    alloc: Global,
    place: MemberPlace,
    table: &Json,
    id: &Json,
) -> Result<RowName, FileFault>
    ensures { Gives (λ row. row) result (full_in place.list place.index (view table.now) (view id.now)) }
{
    let table = required(table_of(alloc, table)?, place.part(0))?;
    let id = required(id_of(id), place.part(1))?;
    Ok(RowName { table, id })
}

/// The parts of a member that has so many behind its key.
#[inline(always)]
#[tactic(auto, using(crate::proofs::Members::parts_sized, crate::proofs::Members::parts_missized))]
pub fn sized_parts(version: FileVersion, behind: u8, json: &Json) -> Option<&[Json]>
    ensures { option_map (λ parts. items_view parts.now) result ≡ sized (key.key_parts version + behind) (as_array (view json.now)) }
{
    let parts = json.as_array()?.as_slice();
    if parts.len() == key_parts(version) + behind as usize {
        Some(parts)
    } else {
        None
    }
}

/// The row of a member's key, and the parts behind it.
#[inline(always)]
#[tactic(auto, using(crate::proofs::Members::no_id, crate::proofs::Members::no_table))]
pub fn split_key(
    alloc: Global,
    place: MemberPlace,
    parts: &[Json],
) -> Result<(RowName, &[Json]), FileFault>
    ensures { Gives (λ split. (split.0, items_view split.1.now)) result (spec_split_key place.version place.list place.index (items_view parts.now)) }
{
    match place.version {
        FileVersion::One => {
            let [id, behind @ ..] = parts else {
                return Err(wrong(place.path()));
            };
            Ok((plain_row(place, id)?, behind))
        }
        FileVersion::Two => {
            let [table, id, behind @ ..] = parts else {
                return Err(wrong(place.path()));
            };
            Ok((full_row(alloc, place, table, id)?, behind))
        }
    }
}
