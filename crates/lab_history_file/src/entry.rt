//! What stands behind the keys of the members of lists.

ghost use Rattle.std.specs.Prelude.{ℕ, [], Result};
ghost use Rattle.serde_json.specs.View.{items_view};
ghost use Rattle.serde_json.specs.Data.{Items};
ghost use Rattle.lab_history.specs.Faults.{Gives};
ghost use Rattle.lab_history.specs.declared.fault.FileFault.{FileFault};
ghost use Rattle.lab_history.specs.declared.path.ListPlace.{ListPlace};
ghost use Rattle.lab_history_file.specs.Entries.{items_from, installer_in, one_in, version_name_in, installers_in};
ghost use Rattle.lab_history_file.specs.declared.file_version.FileVersion.{FileVersion};

use crate::fault::{required, wrong};
use crate::member::{MemberPlace, key_parts};
use crate::part::{Part, op_of, part_at, part_of};
use lab_history::{FileFault, Installers, ListPlace, Path, VersionName};
use lab_table::TxnNo;
use serde_json::Value as Json;
use std::alloc::Global;

/// What stands behind the key in a member of a list.
pub trait Entry: Sized + Drop {
    /// In how many parts.
    ghost PARTS: { ℕ };

    const PARTS: u8;

    ghost read: { FileVersion → ListPlace → ℕ → Items → Result Self FileFault };

    /// What the parts behind the key of the member at a place are.
    fn read(alloc: Global, place: MemberPlace, behind: &[Json]) -> Result<Self, FileFault>
        ensures { Gives (λ entry. entry) result (read place.version place.list place.index (items_view behind.now)) };
}

/// `[key, part]`.
impl<P: Part> Entry for P {
    ghost PARTS = { 1 };

    const PARTS: u8 = 1;

    ghost read = { one_in P.part_in };

    #[inline(always)]
    fn read(_: Global, place: MemberPlace, behind: &[Json]) -> Result<P, FileFault> {
        required(part_of(behind, 0), place.part(key_parts(place.version)))
    }
}

/// `[key, txn, op]`.
impl Entry for VersionName {
    ghost PARTS = { 2 };

    const PARTS: u8 = 2;

    ghost read = { version_name_in };

    #[inline(always)]
    fn read(_: Global, place: MemberPlace, behind: &[Json]) -> Result<VersionName, FileFault> {
        let at = key_parts(place.version);
        let txn = required(part_of(behind, 0), place.part(at))?;
        let op = required(part_at(behind, 1).and_then(op_of), place.part(at + 1))?;
        Ok(VersionName::Of { txn, op })
    }
}

/// `[key, [txn, ..]]`, with at least one. Only one list has such members.
impl Entry for Installers {
    ghost PARTS = { 1 };

    const PARTS: u8 = 1;

    ghost read = { installers_in };

    #[tactic(auto, using(crate::proofs::Members::no_installer, crate::proofs::Members::some_installer))]
    fn read(alloc: Global, place: MemberPlace, behind: &[Json]) -> Result<Installers, FileFault> {
        let part = key_parts(place.version);
        let path = Path::Part {
            list: ListPlace::Installed,
            index: place.index,
            part,
        };
        let numbers = required(part_at(behind, 0).and_then(Json::as_array), path)?;
        if numbers.is_empty() {
            return Err(wrong(path));
        }
        Ok(Installers::new(numbers_of(alloc, place.index, part, numbers)?))
    }
}

/// The numbers of the transactions that installed a row.
#[tactic(auto, using(crate::proofs::ItemsRead::item_read, crate::proofs::ItemsRead::item_fault, crate::proofs::ItemsRead::items_end))]
fn numbers_of(
    alloc: Global,
    index: usize,
    part: usize,
    numbers: &[Json],
) -> Result<Vec<TxnNo>, FileFault>
    ensures { Gives (λ found. found.items) result (items_from (installer_in index part) [] 0 (items_view numbers.now)) }
{
    let mut found = Vec::with_capacity(alloc, numbers.len())?;
    for (place, number) in numbers.iter().enumerate() {
        let path = Path::Installer { index, part, place };
        found.push(required(TxnNo::from_json(number), path)?)?;
    }
    Ok(found)
}
