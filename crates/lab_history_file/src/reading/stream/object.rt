//! Objects, whose members are read in any order.

ghost use Rattle.std.specs.Prelude.{◌≡◌, Some, IfOk};
ghost use Rattle.lab_history_file.specs.Gathered.{TakesMember, TakesObject};

use super::super::cursor::Cursor;
use super::super::stop::Stop;
use crate::file_version::FileVersion;
use std::alloc::Global;

/// The members of an object that have been read, each in a field of its own.
pub trait Fields {
    ghost use Rattle.std.specs.Prelude.{ℕ};
    ghost use Rattle.serde_json.specs.Data.{Members};
    ghost use Rattle.lab_history_file.specs.declared.file_version.FileVersion.{FileVersion};

    /// How many levels of lists and objects a member has at most.
    ghost LEVELS: { ℕ };

    /// These members have been read, and no others.
    ghost hold: { FileVersion → Members → Self → Type 0 };

    /// Reads the member after a key into its field, in place of an earlier member with this key.
    fn read_member(
        &mut self,
        alloc: Global,
        version: FileVersion,
        key: &str,
        cursor: &mut Cursor<'_>,
    ) -> Result<(), Stop>
        ensures { IfOk result (λ _. TakesMember LEVELS (hold version) key.now cursor.old cursor.new self.old self.new) };
}

/// Puts a member into its field, in place of an earlier one.
pub fn fill<T: Drop>(field: &mut Option<T>, member: T)
    ensures { field.new ≡ Some member }
{
    *field = Some(member);
}

/// Reads an object into fields.
pub fn read_object<F: Fields>(
    alloc: Global,
    version: FileVersion,
    fields: &mut F,
    cursor: &mut Cursor<'_>,
) -> Result<(), Stop>
    ensures { IfOk result (λ _. TakesObject F.LEVELS (F.hold version) cursor.old cursor.new fields.old fields.new) }
{
    cursor.open_object()?;
    'members: while let Some(key) = cursor.next_key()? {
        fields.read_member(alloc, version, key, cursor)?;
    }
    Ok(())
}
