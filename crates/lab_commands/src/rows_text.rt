//! Prints rows.

ghost use Rattle.std.specs.Prelude.{◌≡◌, ◌++◌, codes, OnOk};
ghost use Rattle.lab_script.specs.Printed.{named_rows_or};

use lab_printing::{append_result, spell_all};
use lab_table::{NoMemory, RowName, Value};

/// Appends rows with their values, such as `(1, 10), stock (1, 5)`, or `none` if there are none. On failure, a part of
/// the text may have been appended.
pub fn put_rows(out: &mut Vec<u8>, rows: &[(RowName, Value)]) -> Result<(), NoMemory>
    ensures { OnOk result (out.new.items ≡ out.old.items ++ named_rows_or (codes "none") rows.now) }
{
    match rows {
        [] => out.extend_from_slice(b"none"),
        rows => append_result(spell_all(out, rows)),
    }
}
