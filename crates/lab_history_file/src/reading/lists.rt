//! The lists of a history file, whose members begin with a row. They are found by their keys.

ghost use Rattle.std.specs.Prelude.{T, IfOk};
ghost use Rattle.std.specs.FinMap as map;
ghost use Rattle.serde_json.specs.View.{view};
ghost use Rattle.lab_table.specs.Row.{row_cmp};
ghost use Rattle.lab_history_file.specs.Entries.{entry_in, entries_in};
ghost use Rattle.lab_history.specs.Faults.{Gives};
ghost use Rattle.lab_history_file.specs.Format.{at_key};

use super::keys::items_at;
use crate::entry::Entry;
use crate::fault::required;
use crate::file_version::FileVersion;
use crate::member::{MemberPlace, sized_parts, split_key};
use lab_history::{FileFault, ListPlace, Path, follows};
use lab_table::RowName;
use serde_json::Value as Json;
use std::alloc::Global;

/// A member of a list.
#[inline(always)]
fn entry_of<E: Entry>(
    alloc: Global,
    place: MemberPlace,
    json: &Json,
) -> Result<(RowName, E), FileFault>
    ensures { Gives (λ entry. entry) result (entry_in E.PARTS E.read place.version place.list place.index (view json.now)) }
{
    let parts = required(sized_parts(place.version, E::PARTS, json), place.path())?;
    match split_key(alloc, place, parts) {
        Ok((row, behind)) => Ok((row, E::read(alloc, place, behind)?)),
        Err(fault) => Err(fault),
    }
}

/// The list at a key.
#[tactic(auto, using(crate::proofs::ItemsRead::item_read, crate::proofs::ItemsRead::item_fault, crate::proofs::ItemsRead::items_end, crate::proofs::ListsRead::last_pushed))]
pub fn entries_at<E: Entry>(
    alloc: Global,
    version: FileVersion,
    json: &Json,
    key: &str,
    list: ListPlace,
) -> Result<Vec<(RowName, E)>, FileFault>
    ensures read { Gives (λ entries. entries.items) result (entries_in (entry_in E.PARTS E.read version list) list (at_key key.now (view json.now))) }
    ensures rises { IfOk result (λ entries. T (map.is_sorted row_cmp entries.items)) }
{
    let members = required(items_at(json, key), Path::List(list))?;
    let mut entries = Vec::with_capacity(alloc, members.len())?;
    let mut before = None;
    for (index, member) in members.iter().enumerate() {
        let place = MemberPlace {
            version,
            list,
            index,
        };
        let entry = entry_of(alloc, place, member)?;
        if !follows(&before, &entry.0) {
            return Err(FileFault::Unsorted {
                path: Path::List(list),
            });
        }
        before = Some(entry.0);
        entries.push(entry)?;
    }
    Ok(entries)
}
