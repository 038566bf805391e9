//! The text of a serial run. Functions that spell a text return whether the sink took all of it.

ghost use Rattle.std.specs.Prelude.{◌≡◌, ◌++◌, [], None, codes, IfOk, IfErr, OnOk, ◌⊎◌, ◌≢◌, Some, Err};
ghost use Rattle.std.specs.Option.{option_or};
ghost use Rattle.lab_script.specs.Printed.{named_rows_or};
ghost use Rattle.lab_printing.specs.Sink.{OnTaken};
ghost use Rattle.lab_printing.specs.Printed.{newline, printed_row_name, printed_statement, rows_or};
ghost use Rattle.lab_script.specs.TranscriptView.{fault_text, limit_broken};
ghost use Rattle.lab_script.specs.Transcript.{end_text, heading_text};

use crate::spelling::{spell_named_rows, spell_number};
use lab_printing::{
    PrintFault, Sink, check_statement, spell_list, spell_row_name, spell_statement,
};
use lab_table::{RowName, Session, Statement, TableFault, Value};
use std::alloc::Global;
use std::marker::Model;

/// The result of running the transactions of a script one after another. The text is built as they run;
/// `print_transcript` and `into_text` return it.
#[derive(Drop)]
pub struct Transcript {
    pub(crate) text: Vec<u8>,
    unprintable: Option<PrintFault>,
}

impl Model for Transcript {
    ghost use Rattle.std.specs.Prelude.{◌≢◌, Some};
    ghost use Rattle.lab_script.specs.TranscriptView.{TranscriptView};
    ghost use Rattle.lab_printing.specs.declared.print.PrintFault.TheVariants.{TooManyTables};

    ghost Value = { TranscriptView };

    ghost view = { λ t. record { text = t.text.items; unprintable = t.unprintable } };

    ghost invariant = { λ t. t.unprintable ≢ Some TooManyTables };
}

impl Transcript {
    /// A transcript without a line.
    pub(crate) fn new(alloc: Global) -> Transcript
        ensures { result ≡ record { text = []; unprintable = None } }
    {
        Transcript {
            text: Vec::new(alloc),
            unprintable: None,
        }
    }

    /// Spells a statement, and notes the limit that it breaks, if none was broken before.
    pub(crate) fn spell_statement(&mut self, statement: &Statement) -> bool
        ensures text { OnTaken result (self.new.text ≡ self.old.text ++ (printed_statement statement.now ++ codes " -> ")) }
        ensures unprintable { self.new.unprintable ≡ option_or self.old.unprintable (limit_broken statement.now) }
    {
        if self.unprintable.is_none() {
            self.unprintable = check_statement(statement).err();
        }
        spell_statement(&mut self.text, statement) && self.text.put(b" -> ")
    }

    /// Returns the text without copying it, if each statement in it keeps the limits of a text. Otherwise fails with
    /// the limit that the first other statement exceeds: `TooDeep`, or `TooLong` if only the length exceeds its limit.
    /// Allocates nothing.
    pub fn into_text(self) -> Result<Vec<u8>, PrintFault>
        ensures text { IfOk result (λ text. text.items ≡ self.text) }
        ensures printed { OnOk result (self.unprintable ≡ None) }
        ensures fault { IfErr result (λ fault. self.unprintable ≡ Some fault) }
        ensures few_tables { result ≢ Err PrintFault.TooManyTables }
    {
        let Transcript { text, unprintable } = self;
        if let Some(fault) = unprintable {
            return Err(fault);
        }
        Ok(text)
    }
}

/// Spells the first line of a transaction.
pub fn spell_heading(text: &mut Vec<u8>, number: usize, session: Session) -> bool
    ensures { OnTaken result (text.new.items ≡ text.old.items ++ heading_text number session) }
{
    spell_number(text, b"txn ", number)
        && spell_number(text, b" T", usize::from(session.number()))
        && text.put(b"\n")
}

/// Spells the rows that a statement lists, to the end of its line.
pub fn spell_rows(text: &mut Vec<u8>, rows: &[(RowName, Value)]) -> bool
    ensures { OnTaken result (text.new.items ≡ text.old.items ++ rows_or (codes "none") rows.now ++ newline) }
{
    spell_list(text, rows) && text.put(b"\n")
}

/// Spells why a statement was refused, to the end of its line. `NoMemory` isn't spelled.
pub fn spell_fault(text: &mut Vec<u8>, fault: &TableFault) -> bool
    ensures text { OnTaken result (text.new.items ≡ text.old.items ++ fault_text fault.now ++ newline) }
    ensures refused { OnTaken result (fault.now ≢ TableFault.NoMemory) }
{
    match fault {
        TableFault::NoMemory => false,
        TableFault::DuplicateKey { id } => spell_refusal(text, b"DuplicateKey ", *id),
        TableFault::OutOfRange { id } => spell_refusal(text, b"OutOfRange ", *id),
    }
}

fn spell_refusal(text: &mut Vec<u8>, reason: &[u8], row: RowName) -> bool
    ensures { OnTaken result (text.new.items ≡ text.old.items ++ (reason.now ++ printed_row_name row) ++ newline) }
{
    text.put(reason) && spell_row_name(text, row) && text.put(b"\n")
}

/// Spells the last line of a transaction.
pub fn spell_end(text: &mut Vec<u8>, commits: bool) -> bool
    ensures { OnTaken result (text.new.items ≡ text.old.items ++ end_text commits) }
{
    let end: &[u8] = if commits { b"commit\n" } else { b"abort\n" };
    text.put(end)
}

/// Spells the last line, with all rows of a table.
pub fn spell_table(text: &mut Vec<u8>, rows: &[(RowName, Value)]) -> bool
    ensures { OnTaken result (text.new.items ≡ text.old.items ++ (codes "end " ++ named_rows_or (codes "none") rows.now ++ newline)) }
{
    text.put(b"end ") && spell_named_rows(text, b"none", rows) && text.put(b"\n")
}

/// Returns a copy of the text of a transcript, if each statement in it keeps the limits of a text. Otherwise fails with
/// the limit that the first other statement exceeds: `TooDeep`, or `TooLong` if only the length exceeds its limit.
pub fn print_transcript(alloc: Global, output: &Transcript) -> Result<Vec<u8>, PrintFault>
    ensures text { IfOk result (λ text. text.items ≡ output.now.text) }
    ensures printed { IfOk result (λ text. output.now.unprintable ≡ None) }
    ensures fault { IfErr result (λ fault. (fault ≡ PrintFault.NoMemory) ⊎ (output.now.unprintable ≡ Some fault)) }
    ensures few_tables { result ≢ Err PrintFault.TooManyTables }
{
    match output.unprintable {
        None => Ok(Vec::from_slice(alloc, &output.text)?),
        Some(fault) => Err(fault),
    }
}
