//! Faults of a script's text.

ghost use Rattle.std.specs.Prelude.{◌≡◌, ◌++◌, IfOk};
ghost use Rattle.lab_statement.specs.Fault.{fault_text};
ghost use Rattle.lab_printing.specs.Sink.{OnTaken};

use itoa::Buffer;
use lab_printing::{Sink, append_result};
use lab_table::NoMemory;
use std::alloc::{AllocError, AllocFailed, Global};
use thiserror::Error;

/// What is wrong with a line of a script.
#[derive(Clone, Copy, Debug, PartialEq, Eq)]
pub enum ScriptFaultKind {
    /// The code has a byte that is neither a tab nor printable ASCII.
    NotAscii,
    /// The first line of code isn't a setup, or the text has no setup.
    NoSetup,
    /// A second setup.
    SetupRepeated,
    /// The comment of the line names no session.
    NoSession,
    /// A token that no statement has at this position, or an unexpected end.
    UnknownStatement,
    /// A token that no statement has at this position, or an unexpected end, after a `where`.
    BadPredicate,
    /// A word in the position of a table name that isn't one.
    BadTableName,
    /// A number out of its range.
    NumberOutOfRange,
    /// More than 16 parentheses and `not`s are open at once.
    TooDeep,
    /// A line, the printed form of a statement, or the script exceeds its limit.
    TooLong,
    /// A row occurs twice in the setup.
    DuplicateSetupRow,
    /// A fifth table. A row of the setup without a table name belongs to `test`.
    TooManyTables,
}

/// Why a text isn't a script.
#[derive(Clone, Copy, Debug, PartialEq, Eq, Error)]
pub enum ScriptFault {
    /// An allocation failed.
    #[error("no memory")]
    NoMemory,
    /// The first faulty line, counted from 1, and its fault.
    #[error("line {line}: {kind:?}")]
    At { line: u32, kind: ScriptFaultKind },
}

impl From<AllocError> for ScriptFault {
    ghost use Rattle.std.specs.Prelude.{◌≡◌};
    ghost use Rattle.lab_statement.specs.declared.fault.ScriptFault.TheVariants.{NoMemory};

    ghost from_gives = { λ _ fault. fault ≡ NoMemory };

    fn from(_: AllocError) -> ScriptFault {
        ScriptFault::NoMemory
    }
}

/// Why parsing a line stopped, without the line's number.
#[derive(Debug, Drop)]
pub enum Refusal {
    /// An allocation failed.
    NoMemory,
    /// The tokens don't follow the grammar.
    Fault(ScriptFaultKind),
}

impl Refusal {
    ghost use Rattle.std.specs.Prelude.{◌≡◌};
    ghost use Rattle.lab_statement.specs.Fault.{refusal_at};

    /// Returns this fault as the fault of line `line` of a script.
    pub fn at(self, line: u32) -> ScriptFault
        ensures { result ≡ refusal_at self line }
    {
        match self {
            Refusal::NoMemory => ScriptFault::NoMemory,
            Refusal::Fault(kind) => ScriptFault::At { line, kind },
        }
    }
}

impl From<AllocError> for Refusal {
    ghost use Rattle.std.specs.Prelude.{◌≡◌};
    ghost use Rattle.lab_statement.specs.declared.fault.Refusal.TheVariants.{NoMemory};

    ghost from_gives = { λ _ refusal. refusal ≡ NoMemory };

    fn from(_: AllocError) -> Refusal {
        Refusal::NoMemory
    }
}

impl<T: Drop> From<AllocFailed<T>> for Refusal {
    ghost use Rattle.std.specs.Prelude.{◌≡◌};
    ghost use Rattle.lab_statement.specs.declared.fault.Refusal.TheVariants.{NoMemory};

    ghost from_gives = { λ _ refusal. refusal ≡ NoMemory };

    fn from(_: AllocFailed<T>) -> Refusal {
        Refusal::NoMemory
    }
}

impl ScriptFaultKind {
    ghost use Rattle.std.specs.Prelude.{◌≡◌};
    ghost use Rattle.lab_statement.specs.Fault.{kind_name};

    /// Its name, as a printed fault has it.
    fn name(self) -> &'static str
        ensures { result.now ≡ kind_name self }
    {
        match self {
            ScriptFaultKind::NotAscii => "NotAscii",
            ScriptFaultKind::NoSetup => "NoSetup",
            ScriptFaultKind::SetupRepeated => "SetupRepeated",
            ScriptFaultKind::NoSession => "NoSession",
            ScriptFaultKind::UnknownStatement => "UnknownStatement",
            ScriptFaultKind::BadPredicate => "BadPredicate",
            ScriptFaultKind::BadTableName => "BadTableName",
            ScriptFaultKind::NumberOutOfRange => "NumberOutOfRange",
            ScriptFaultKind::TooDeep => "TooDeep",
            ScriptFaultKind::TooLong => "TooLong",
            ScriptFaultKind::DuplicateSetupRow => "DuplicateSetupRow",
            ScriptFaultKind::TooManyTables => "TooManyTables",
        }
    }
}

/// Spells the line that tells a fault, and nothing if memory runs out.
fn spell_fault(out: &mut Vec<u8>, fault: &ScriptFault) -> bool
    ensures { OnTaken result (out.new.items ≡ out.old.items ++ fault_text fault.now) }
{
    match fault {
        ScriptFault::NoMemory => true,
        ScriptFault::At { line, kind } => {
            out.put(b"line ")
                && out.put(Buffer::new().format(*line).as_bytes())
                && out.put(b": ")
                && out.put(kind.name().as_bytes())
                && out.put(b"\n")
        }
    }
}

/// Returns the printed fault, such as `line 3: NoSession` and a newline. For `NoMemory` the text is empty.
pub fn print_script_fault(alloc: Global, fault: &ScriptFault) -> Result<Vec<u8>, NoMemory>
    ensures { IfOk result (λ text. text.items ≡ fault_text fault.now) }
{
    let mut text = Vec::new(alloc);
    append_result(spell_fault(&mut text, fault))?;
    Ok(text)
}
