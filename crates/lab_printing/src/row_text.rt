//! The printed form of numbers and rows. Functions that spell a text return whether the sink took all of it.

ghost use Rattle.std.specs.Prelude.{◌≡◌, ◌≤◌, ◌+◌, ◌∷◌, ◌++◌, drop, codes, OnOk, true};
ghost use Rattle.std.specs.Fmt.{decimal, signed_decimal};
ghost use Rattle.lab_table.specs.TableName.{is_table_name};
ghost use Rattle.lab_printing.specs.Printed.{printed_table_name, printed_row_name, printed_row, rows_or};
ghost use Rattle.lab_printing.specs.Ranges.{RowInRange, ValueInRange};
ghost use Rattle.lab_printing.specs.Sink.{OnTaken, Puts};

use crate::sink::{Sink, append_result};
use crate::spell::Spell;
use itoa::{Buffer, write_digits};
use lab_table::{NoMemory, RowId, RowName, TableName, Value};

/// Room for a comma, a space and a row, whatever its numbers are: each has at most 20 digits, and one of them a sign.
const ROW_BYTES: usize = 48;

/// Spells two texts.
pub fn spell_both<S: Sink>(out: &mut S, first: &[u8], second: &[u8]) -> bool
    ensures { Puts S.kept S.limit result (S.text out.old) (first.now ++ second.now) (S.text out.new) }
{
    out.put(first) && out.put(second)
}

impl Spell for Value {
    ghost use Rattle.std.specs.Fmt.{signed_decimal};
    ghost use Rattle.lab_printing.specs.Ranges.{ValueInRange};

    ghost printed = { signed_decimal };

    ghost in_range = { ValueInRange };

    fn spell<S: Sink>(&self, out: &mut S) -> bool {
        out.put(Buffer::new().format(self.number()).as_bytes())
    }
}

// A row of any table.
impl Spell for (RowName, Value) {
    ghost use Rattle.lab_printing.specs.Printed.{printed_named_row};
    ghost use Rattle.lab_printing.specs.Ranges.{EntryInRange};

    ghost printed = { printed_named_row };

    ghost in_range = { EntryInRange };

    fn spell<S: Sink>(&self, out: &mut S) -> bool {
        spell_table_name(out, self.0.table) && spell_row(out, self.0.id, self.1)
    }
}

/// Spells a number without a sign in decimal.
pub fn spell_natural<S: Sink>(out: &mut S, n: u32) -> bool
    ensures { Puts S.kept S.limit result (S.text out.old) (decimal n) (S.text out.new) }
{
    out.put(Buffer::new().format(n).as_bytes())
}

/// Spells what stands before a row of a table: its name and a space, and nothing for `test`.
fn spell_table_name<S: Sink>(out: &mut S, table: TableName) -> bool
    ensures name { is_table_name table ≡ true }
    ensures text { Puts S.kept S.limit result (S.text out.old) (printed_table_name table) (S.text out.new) }
{
    table == TableName::test() || spell_both(out, table.as_bytes(), b" ")
}

/// Spells the name of a row: the number alone for a row of `test`, else the name of the table and the number, such as
/// `stock 1`.
pub fn spell_row_name<S: Sink>(out: &mut S, row: RowName) -> bool
    ensures { Puts S.kept S.limit result (S.text out.old) (printed_row_name row) (S.text out.new) }
{
    spell_table_name(out, row.table) && spell_natural(out, row.id.number())
}

/// Appends the name of a row, such as `stock 1`, or `1` for a row of `test`. On failure, a part of it may have been
/// appended.
pub fn put_row_name(out: &mut Vec<u8>, row: RowName) -> Result<(), NoMemory>
    ensures { OnOk result (out.new.items ≡ out.old.items ++ printed_row_name row) }
{
    append_result(spell_row_name(out, row))
}

/// Writes a byte in front of what stands from `end` on. Answers where it stands.
fn write_byte(text: &mut [u8; ROW_BYTES], end: usize, byte: u8) -> usize
    requires { (1 ≤ end) × (end ≤ 48) }
    ensures start { result + 1 ≡ end }
    ensures written { drop result text.new ≡ byte ∷ drop end text.old }
{
    text[end - 1] = byte;
    end - 1
}

/// Writes a number in decimal in front of what stands from `end` on. Answers where it starts.
#[tactic(auto, using(crate::proofs::ShortNumbers::decimal_short))]
fn write_natural(text: &mut [u8; ROW_BYTES], end: usize, n: u64) -> usize
    requires { (20 ≤ end) × (end ≤ 48) }
    ensures start { (end ≤ result + 20) × (result ≤ end) }
    ensures written { drop result text.new ≡ decimal n ++ drop end text.old }
{
    write_digits(n, text, end)
}

/// Writes a number with its sign in front of what stands from `end` on. Answers where it starts.
fn write_number(text: &mut [u8; ROW_BYTES], end: usize, n: i64) -> usize
    requires { (21 ≤ end) × (end ≤ 48) }
    ensures start { (end ≤ result + 21) × (result ≤ end) }
    ensures written { drop result text.new ≡ signed_decimal n ++ drop end text.old }
{
    let start = write_natural(text, end, n.unsigned_abs());
    if n < 0 {
        write_byte(text, start, b'-')
    } else {
        start
    }
}

/// Writes a row to the end of a text, from the back, since a number's last digit is found first. Answers where it starts.
fn write_row(text: &mut [u8; ROW_BYTES], id: RowId, value: Value) -> usize
    ensures in_range { RowInRange id × ValueInRange value }
    ensures start { (2 ≤ result) × (result ≤ 48) }
    ensures written { drop result text.new ≡ printed_row id value }
{
    let start = write_byte(text, ROW_BYTES, b')');
    let start = write_number(text, start, value.number());
    let start = write_byte(text, start, b' ');
    let start = write_byte(text, start, b',');
    let start = write_natural(text, start, u64::from(id.number()));
    write_byte(text, start, b'(')
}

/// Spells a row. Its text is built first: one allocation and one copy for it.
pub fn spell_row<S: Sink>(out: &mut S, id: RowId, value: Value) -> bool
    ensures in_range { RowInRange id × ValueInRange value }
    ensures text { Puts S.kept S.limit result (S.text out.old) (printed_row id value) (S.text out.new) }
{
    let mut text = [0; ROW_BYTES];
    let start = write_row(&mut text, id, value);
    out.put(&text[start..])
}

/// Spells a row behind another one.
fn spell_next_row(out: &mut Vec<u8>, id: RowId, value: Value) -> bool
    ensures { OnTaken result (out.new.items ≡ out.old.items ++ (codes ", " ++ printed_row id value)) }
{
    let mut text = [0; ROW_BYTES];
    let start = write_row(&mut text, id, value);
    let start = write_byte(&mut text, start, b' ');
    let start = write_byte(&mut text, start, b',');
    out.put(&text[start..])
}

/// Spells rows of one table as a list, without the name of the table. An empty list is `none`.
pub fn spell_list(out: &mut Vec<u8>, rows: &[(RowName, Value)]) -> bool
    ensures { OnTaken result (out.new.items ≡ out.old.items ++ rows_or (codes "none") rows.now) }
{
    let Some((first, rest)) = rows.split_first() else {
        return out.put(b"none");
    };
    if !spell_row(out, first.0.id, first.1) {
        return false;
    }
    for (row, value) in rest {
        if !spell_next_row(out, row.id, *value) {
            return false;
        }
    }
    true
}

/// Appends rows of one table as a list, without the name of the table. An empty list is `none`. On failure, a part of
/// it may have been appended.
pub fn put_list(out: &mut Vec<u8>, rows: &[(RowName, Value)]) -> Result<(), NoMemory>
    ensures { OnOk result (out.new.items ≡ out.old.items ++ rows_or (codes "none") rows.now) }
{
    append_result(spell_list(out, rows))
}
