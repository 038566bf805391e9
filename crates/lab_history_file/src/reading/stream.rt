//! Reads a history file without faults from its tokens, in one pass. The keys of each object may be in any order.

ghost use Rattle.std.specs.Prelude.{◌≡◌, true, Ok, Some, IfOk, IfSome};
ghost use Rattle.lab_history_file.specs.FileVersion.{version_number};
ghost use Rattle.lab_history_file.specs.Format.{parts_in};
ghost use Rattle.lab_history_file.specs.Reads.{PartsIn};
ghost use Rattle.lab_history_file.specs.Spelled.{Spelled};

mod entries;
mod lists;
mod object;
mod operation;
mod transaction;

use super::cursor::Cursor;
use super::stop::Stop;
use crate::file_version::FileVersion;
use json::Scratch;
use lab_history::{Installed, Installers, Parts, Txns};
use lab_table::{Table, Value};
use lists::entries_of;
use object::{Fields, fill, read_object};
use std::alloc::Global;
use transaction::txns_of;

/// The parts of the history that a file without faults holds. A file of version 1 is read as one of version 2 up to the
/// first row, or to its version.
pub fn parts_in(alloc: Global, bytes: &[u8]) -> Result<Parts, Stop>
    ensures { IfOk result (λ parts. PartsIn bytes.now parts) }
{
    let Ok(text) = std::str::from_utf8(bytes) else {
        return Err(Stop::Fault);
    };
    let mut scratch = Scratch::new(alloc);
    match parts_as(alloc, FileVersion::Two, text, &mut scratch) {
        Err(Stop::Fault) => parts_as(alloc, FileVersion::One, text, &mut scratch),
        read => read,
    }
}

/// The parts of the history that a text holds as a file of this version.
#[tactic(auto, using(crate::proofs::RootFields::text_read))]
fn parts_as(
    alloc: Global,
    version: FileVersion,
    text: &str,
    scratch: &mut Scratch,
) -> Result<Parts, Stop>
    ensures { IfOk result (λ parts. PartsIn text.now parts) }
{
    let mut cursor = Cursor::new(text, scratch)?;
    let parts = parts_of(alloc, version, &mut cursor)?;
    if cursor.is_over() {
        Ok(parts)
    } else {
        Err(Stop::Fault)
    }
}

fn parts_of(alloc: Global, version: FileVersion, cursor: &mut Cursor<'_>) -> Result<Parts, Stop>
    ensures { IfOk result (λ parts. Spelled 8 (λ d h. parts_in d ≡ Ok h) cursor.old cursor.new parts) }
{
    let mut fields = RootFields {
        end: None,
        has_format: false,
        initial: None,
        installed: None,
        txns: None,
        has_version: false,
    };
    read_object(alloc, version, &mut fields, cursor)?;
    fields.into_parts().ok_or(Stop::Fault)
}

/// The members of the whole that have been read.
#[derive(Drop)]
struct RootFields {
    end: Option<Table>,
    has_format: bool,
    initial: Option<Table>,
    installed: Option<Installed>,
    txns: Option<Txns>,
    has_version: bool,
}

impl RootFields {
    /// The parts of the history, if the whole has all its members.
    fn into_parts(self) -> Option<Parts>
        ensures parts { IfSome result (λ h. (self.end ≡ Some h.end_table) × (self.initial ≡ Some h.initial) × (self.installed ≡ Some h.installed) × (self.txns ≡ Some h.txns)) }
        ensures said { IfSome result (λ _. (self.has_format ≡ true) × (self.has_version ≡ true)) }
    {
        let RootFields {
            end,
            has_format,
            initial,
            installed,
            txns,
            has_version,
        } = self;
        let end_table = end?;
        let initial = initial?;
        let installed = installed?;
        let txns = txns?;
        if !has_format || !has_version {
            return None;
        }
        Some(Parts {
            initial,
            txns,
            installed,
            end_table,
        })
    }
}

impl Fields for RootFields {
    ghost use Rattle.lab_history_file.specs.Fields.{HoldRoot};

    ghost LEVELS = { 7 };

    ghost hold = { HoldRoot };

    fn read_member(
        &mut self,
        alloc: Global,
        version: FileVersion,
        key: &str,
        cursor: &mut Cursor<'_>,
    ) -> Result<(), Stop> {
        if key == "end" {
            let entries = entries_of::<Value>(alloc, version, cursor)?;
            fill(&mut self.end, Table::from_rising(entries));
            Ok(())
        } else if key == "format" {
            if cursor.text()? != "hermitage-history" {
                return Err(Stop::Fault);
            }
            self.has_format = true;
            Ok(())
        } else if key == "initial" {
            let entries = entries_of::<Value>(alloc, version, cursor)?;
            fill(&mut self.initial, Table::from_rising(entries));
            Ok(())
        } else if key == "installed" {
            let entries = entries_of::<Installers>(alloc, version, cursor)?;
            fill(&mut self.installed, Installed::new(entries));
            Ok(())
        } else if key == "transactions" {
            let txns = txns_of(alloc, version, cursor)?;
            fill(&mut self.txns, txns);
            Ok(())
        } else if key == "version" {
            if cursor.whole()? != number_of(version) {
                return Err(Stop::Fault);
            }
            self.has_version = true;
            Ok(())
        } else {
            Err(Stop::Fault)
        }
    }
}

fn number_of(version: FileVersion) -> u64
    ensures { result ≡ version_number version }
{
    match version {
        FileVersion::One => 1,
        FileVersion::Two => 2,
    }
}
