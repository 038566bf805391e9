//! The printed form of scripts. Functions that spell a text return whether the sink took all of it.

ghost use Rattle.std.specs.Prelude.{◌≡◌, ◌++◌, ◌≤◌, ◌↔◌, length, IsTrue};
ghost use Rattle.std.specs.FinMap as finite;
ghost use Rattle.std.specs.Fmt.{decimal};
ghost use Rattle.lab_script.specs.Printed.{named_rows_or, printed_line, printed_script, printed_setup};
ghost use Rattle.lab_script.specs.Ranges.{LineInRange, ScriptInRange};
ghost use Rattle.lab_printing.specs.Each.{Each};
ghost use Rattle.lab_printing.specs.Limits.{max_line_bytes};
ghost use Rattle.lab_printing.specs.Ranges.{EntryInRange};
ghost use Rattle.lab_printing.specs.Sink.{OnTaken, Puts};

use crate::script::{Line, Script};
use itoa::Buffer;
use lab_printing::{MAX_LINE_BYTES, Room, Sink, spell_all, spell_command};
use lab_table::{RowName, Table, Value};

/// Spells rows of any table.
pub fn spell_named_rows<S: Sink>(out: &mut S, none: &[u8], rows: &[(RowName, Value)]) -> bool
    ensures in_range { OnTaken result (Each EntryInRange rows.now) }
    ensures text { Puts S.kept S.limit result (S.text out.old) (named_rows_or none.now rows.now) (S.text out.new) }
{
    match rows {
        [] => out.put(none),
        _ => spell_all(out, rows),
    }
}

/// Spells the line of a setup, without its newline.
pub fn spell_setup<S: Sink>(out: &mut S, table: &Table) -> bool
    ensures in_range { OnTaken result (Each EntryInRange (finite.entries table.now)) }
    ensures text { Puts S.kept S.limit result (S.text out.old) (printed_setup table.now) (S.text out.new) }
{
    out.put(b"setup ") && spell_named_rows(out, b"()", table.rows()) && out.put(b";")
}

/// Whether the line of a setup has at most [`MAX_LINE_BYTES`], without its newline: it is measured and not made, and no
/// further than that.
pub fn setup_fits(table: &Table) -> bool
    ensures { IsTrue result ↔ (length (printed_setup table.now) ≤ max_line_bytes) }
{
    let mut room = Room::<MAX_LINE_BYTES>::new();
    spell_setup(&mut room, table)
}

/// Spells a word and a number.
pub fn spell_number(text: &mut Vec<u8>, word: &[u8], number: usize) -> bool
    ensures { OnTaken result (text.new.items ≡ text.old.items ++ word.now ++ decimal number) }
{
    text.put(word) && text.put(Buffer::new().format(number).as_bytes())
}

/// Spells the line of a command, with its newline.
pub fn spell_line(out: &mut Vec<u8>, line: &Line) -> bool
    ensures in_range { OnTaken result (LineInRange line.now) }
    ensures text { OnTaken result (out.new.items ≡ out.old.items ++ printed_line line.now) }
{
    spell_command(out, &line.command)
        && spell_number(out, b"; -- T", usize::from(line.session.number()))
        && out.put(b"\n")
}

/// Spells the text of a script.
pub fn spell_script(out: &mut Vec<u8>, script: &Script) -> bool
    ensures in_range { OnTaken result (ScriptInRange script.now) }
    ensures text { OnTaken result (out.new.items ≡ out.old.items ++ printed_script script.now) }
{
    if !(spell_setup(out, &script.setup) && out.put(b"\n")) {
        return false;
    }
    for line in script.lines.as_slice() {
        if !spell_line(out, line) {
            return false;
        }
    }
    true
}
