//! Operations and versions, as parts of a sentence. Functions that take bytes append; on failure, a part of the text
//! may have been appended.

ghost use Rattle.std.specs.Prelude.{◌≡◌, ◌++◌, OnOk};
ghost use Rattle.std.specs.Option.{option_copied};
ghost use Rattle.std.specs.Fmt.{signed_decimal};
ghost use Rattle.lab_history.specs.Version.{ops_of, op_at, viewed};
ghost use Rattle.lab_explain.specs.Clauses.{txn_name, op_name, ran_text, op_text, row_name, state_text, version_of, version_text, seen_version, seen_by, left_by, saw_text, saw_with, left_text};

use crate::lines::put_natural;
use crate::phrases::version_words;
use itoa::Buffer;
use lab_deps::{state_of, viewed};
use lab_drawing::ops_of;
use lab_history::{History, Op, VersionName};
use lab_printing::{put_row_name, put_statement};
use lab_table::{NoMemory, RowName, TxnNo, Value};

/// The operation with this number, if there is one.
fn op_in(ops: &[Op], number: u32) -> Option<&Op>
    ensures { option_copied result ≡ op_at ops.now number }
{
    ops.get(number.checked_sub(1)? as usize)
}

/// Returns operation number `op` of a transaction, or `None` if there is none.
pub fn op_of(history: &History, txn: TxnNo, op: u32) -> Option<&Op>
    ensures { option_copied result ≡ op_at (ops_of history.now txn) op }
{
    op_in(ops_of(history, txn), op)
}

/// Appends a number with its sign.
fn put_number(out: &mut Vec<u8>, number: i64) -> Result<(), NoMemory>
    ensures { OnOk result (out.new.items ≡ out.old.items ++ signed_decimal number) }
{
    out.extend_from_slice(Buffer::new().format(number).as_bytes())
}

/// Appends the name of a transaction.
pub fn put_txn(out: &mut Vec<u8>, txn: TxnNo) -> Result<(), NoMemory>
    ensures { OnOk result (out.new.items ≡ out.old.items ++ txn_name txn) }
{
    out.extend_from_slice(b"T")?;
    put_natural(out, u64::from(txn.number()))
}

/// Appends an operation's number and its transaction.
#[tactic(auto, unfolding(crate::specs::Clauses::op_name))]
fn put_op_name(out: &mut Vec<u8>, txn: TxnNo, op: u32) -> Result<(), NoMemory>
    ensures { OnOk result (out.new.items ≡ out.old.items ++ op_name txn op) }
{
    out.extend_from_slice(b"statement ")?;
    put_natural(out, u64::from(op))?;
    out.extend_from_slice(b" of T")?;
    put_natural(out, u64::from(txn.number()))
}

/// Appends the name of a row.
pub fn put_row(out: &mut Vec<u8>, row: RowName) -> Result<(), NoMemory>
    ensures { OnOk result (out.new.items ≡ out.old.items ++ row_name row) }
{
    out.extend_from_slice(b"row ")?;
    put_row_name(out, row)
}

/// Appends a row's state, with the blank before it; None is absent.
pub fn put_state(out: &mut Vec<u8>, state: Option<Value>) -> Result<(), NoMemory>
    ensures { OnOk result (out.new.items ≡ out.old.items ++ state_text state) }
{
    match state {
        None => out.extend_from_slice(b" absent"),
        Some(value) => {
            out.extend_from_slice(b" as ")?;
            put_number(out, value.number())
        }
    }
}

/// Appends the version that an operation wrote.
fn put_version_of(out: &mut Vec<u8>, txn: TxnNo, op: u32) -> Result<(), NoMemory>
    ensures { OnOk result (out.new.items ≡ out.old.items ++ version_of txn op) }
{
    out.extend_from_slice(version_words())?;
    put_op_name(out, txn, op)
}

/// Appends a version of a row.
pub fn put_version(out: &mut Vec<u8>, version: VersionName) -> Result<(), NoMemory>
    ensures { OnOk result (out.new.items ≡ out.old.items ++ version_text version) }
{
    match version {
        VersionName::Initial => out.extend_from_slice(b"the initial version"),
        VersionName::Of { txn, op } => put_version_of(out, txn, op),
    }
}

/// Appends what the operation of a transaction with this number ran.
fn put_ran(out: &mut Vec<u8>, history: &History, txn: TxnNo, op: u32) -> Result<(), NoMemory>
    ensures { OnOk result (out.new.items ≡ out.old.items ++ ran_text (op_at (ops_of history.now txn) op)) }
{
    match op_of(history, txn, op) {
        None => out.extend_from_slice(b"which isn't there"),
        Some(found) => put_statement(out, &found.statement),
    }
}

/// Appends an operation of a transaction, with what it ran.
#[tactic(auto, unfolding(crate::specs::Clauses::op_text))]
pub fn put_op(out: &mut Vec<u8>, history: &History, txn: TxnNo, op: u32) -> Result<(), NoMemory>
    ensures { OnOk result (out.new.items ≡ out.old.items ++ op_text history.now txn op) }
{
    put_op_name(out, txn, op)?;
    out.extend_from_slice(b" (")?;
    put_ran(out, history, txn, op)?;
    out.extend_from_slice(b")")
}

/// Appends the state of the version of a row that an operation saw, and the version.
#[tactic(auto, unfolding(crate::specs::Clauses::seen_version))]
fn put_seen_version(
    out: &mut Vec<u8>,
    history: &History,
    op: &Op,
    row: RowName,
) -> Result<(), NoMemory>
    ensures { OnOk result (out.new.items ≡ out.old.items ++ seen_version history.now row (viewed op.now row)) }
{
    put_state(out, state_of(history, row, viewed(op, row)))?;
    out.extend_from_slice(b" (")?;
    put_version(out, viewed(op, row))?;
    out.extend_from_slice(b")")
}

/// Appends how a row was seen by the operation of a transaction with this number.
pub fn put_seen(
    out: &mut Vec<u8>,
    history: &History,
    txn: TxnNo,
    op: u32,
    row: RowName,
) -> Result<(), NoMemory>
    ensures { OnOk result (out.new.items ≡ out.old.items ++ seen_by history.now txn op row) }
{
    match op_of(history, txn, op) {
        None => Ok(()),
        Some(found) => put_seen_version(out, history, found, row),
    }
}

/// Appends how the operation of a transaction with this number left a row.
pub fn put_left(
    out: &mut Vec<u8>,
    history: &History,
    txn: TxnNo,
    op: u32,
    row: RowName,
) -> Result<(), NoMemory>
    ensures { OnOk result (out.new.items ≡ out.old.items ++ left_by history.now txn op row) }
{
    put_state(out, state_of(history, row, VersionName::Of { txn, op }))
}

/// Appends an operation, and how it saw a row.
#[tactic(auto, unfolding(crate::specs::Clauses::saw_text))]
pub fn put_saw(
    out: &mut Vec<u8>,
    history: &History,
    txn: TxnNo,
    op: u32,
    row: RowName,
) -> Result<(), NoMemory>
    ensures { OnOk result (out.new.items ≡ out.old.items ++ saw_text history.now txn op row) }
{
    put_op(out, history, txn, op)?;
    out.extend_from_slice(b" saw ")?;
    put_row(out, row)?;
    put_seen(out, history, txn, op, row)
}

/// Appends an operation, how it saw a row, and what is wrong with that.
#[tactic(auto, unfolding(crate::specs::Clauses::saw_with))]
pub fn put_saw_with(
    out: &mut Vec<u8>,
    history: &History,
    txn: TxnNo,
    op: u32,
    row: RowName,
    flaw: &[u8],
) -> Result<(), NoMemory>
    ensures { OnOk result (out.new.items ≡ out.old.items ++ saw_with history.now txn op row flaw.now) }
{
    put_saw(out, history, txn, op, row)?;
    out.extend_from_slice(flaw)
}

/// Appends an operation, and how it left a row.
#[tactic(auto, unfolding(crate::specs::Clauses::left_text))]
pub fn put_left_row(
    out: &mut Vec<u8>,
    history: &History,
    txn: TxnNo,
    op: u32,
    row: RowName,
) -> Result<(), NoMemory>
    ensures { OnOk result (out.new.items ≡ out.old.items ++ left_text history.now txn op row) }
{
    put_op(out, history, txn, op)?;
    out.extend_from_slice(b" left ")?;
    put_row(out, row)?;
    put_left(out, history, txn, op, row)
}
