//! Lists whose entries begin with a row, read from the tokens of a history file.

ghost use Rattle.std.specs.Prelude.{T, IfOk};
ghost use Rattle.std.specs.FinMap as map;
ghost use Rattle.lab_table.specs.Row.{row_cmp};
ghost use Rattle.lab_history_file.specs.FileOf.{IsListOf};
ghost use Rattle.lab_history_file.specs.Spelled.{Spelled};

use super::super::cursor::Cursor;
use super::super::stop::Stop;
use super::entries::Member;
use crate::file_version::FileVersion;
use lab_history::follows;
use lab_table::RowName;
use std::alloc::Global;

/// Reads a list whose entries begin with a row, by rising row.
pub fn entries_of<M: Member>(
    alloc: Global,
    version: FileVersion,
    cursor: &mut Cursor<'_>,
) -> Result<Vec<(RowName, M)>, Stop>
    ensures stand { IfOk result (λ entries. Spelled 3 (IsListOf (M.stands version)) cursor.old cursor.new entries.items) }
    ensures rise { IfOk result (λ entries. T (map.is_sorted row_cmp entries.items)) }
{
    cursor.open_list()?;
    let mut entries = Vec::new(alloc);
    let mut before = None;
    'entries: while !cursor.list_ends() {
        let entry = M::read(alloc, version, cursor)?;
        if !follows(&before, &entry.0) {
            return Err(Stop::Fault);
        }
        before = Some(entry.0);
        entries.push(entry)?;
    }
    Ok(entries)
}
