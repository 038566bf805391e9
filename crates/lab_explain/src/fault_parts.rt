//! Parts of a fault's sentences: what an operation listed and wrote of a row, and what it was due to. Functions that
//! take bytes append; on failure, a part of the text may have been appended.

ghost use Rattle.std.specs.Prelude.{◌≡◌, ◌++◌, OnOk, option_map};
ghost use Rattle.lab_history.specs.Version.{ops_of, op_at, viewed_state, last_write};
ghost use Rattle.lab_history.specs.VersionName.{state_value};
ghost use Rattle.lab_explain.specs.Faults.{txns_text, listed_text, written_text, viewed_text, rows_of, rows_text, writes_of, writes_text, due_rows, written_state, due_writes, which_text, last_of, last_seen, due_version, last_due, rows_due, writes_due};

use crate::clauses::{op_of, put_state, put_version};
use crate::phrases::{last_words, listed_words, lists_words, writes_words, wrote_words};
use lab_deps::{state_of, viewed};
use lab_history::{History, Op, State, VersionName};
use lab_judge::put_order;
use lab_table::{NoMemory, RowName, Statement, TxnNo, Value};

/// Appends transactions in their order, each with the blank before it.
pub fn put_txns(out: &mut Vec<u8>, txns: &[TxnNo]) -> Result<(), NoMemory>
    ensures { OnOk result (out.new.items ≡ out.old.items ++ txns_text txns.now) }
{
    if txns.len() == 0 {
        out.extend_from_slice(b" none")
    } else {
        put_order(out, txns)
    }
}

/// Appends what is listed of a row, with the blank before it.
fn put_listed(out: &mut Vec<u8>, listed: Option<Value>) -> Result<(), NoMemory>
    ensures { OnOk result (out.new.items ≡ out.old.items ++ listed_text listed) }
{
    match listed {
        None => out.extend_from_slice(b" not at all"),
        Some(value) => put_state(out, Some(value)),
    }
}

/// The value of a row in this state, None where it is absent.
fn value_of(state: State) -> Option<Value>
    ensures { result ≡ state_value state }
{
    match state {
        State::Absent => None,
        State::Present(value) => Some(value),
    }
}

/// Appends what is written to a row, with the blank before it.
fn put_written(out: &mut Vec<u8>, written: Option<State>) -> Result<(), NoMemory>
    ensures { OnOk result (out.new.items ≡ out.old.items ++ written_text (option_map state_value written)) }
{
    match written {
        None => out.extend_from_slice(b" not at all"),
        Some(state) => put_state(out, value_of(state)),
    }
}

/// Appends the version of a row that an operation saw.
pub fn put_viewed(
    out: &mut Vec<u8>,
    history: &History,
    txn: TxnNo,
    op: u32,
    row: RowName,
) -> Result<(), NoMemory>
    ensures { OnOk result (out.new.items ≡ out.old.items ++ viewed_text (op_at (ops_of history.now txn) op) row) }
{
    match op_of(history, txn, op) {
        None => Ok(()),
        Some(found) => put_version(out, viewed(found, row)),
    }
}

/// Appends what this operation listed of a row.
fn put_rows_of(out: &mut Vec<u8>, op: &Op, row: RowName) -> Result<(), NoMemory>
    ensures { OnOk result (out.new.items ≡ out.old.items ++ rows_of op.now row) }
{
    out.extend_from_slice(listed_words())?;
    put_listed(out, op.rows.get(row))
}

/// Appends what an operation listed of a row.
pub fn put_rows(
    out: &mut Vec<u8>,
    history: &History,
    txn: TxnNo,
    op: u32,
    row: RowName,
) -> Result<(), NoMemory>
    ensures { OnOk result (out.new.items ≡ out.old.items ++ rows_text (op_at (ops_of history.now txn) op) row) }
{
    match op_of(history, txn, op) {
        None => Ok(()),
        Some(found) => put_rows_of(out, found, row),
    }
}

/// Appends what this operation wrote to a row.
fn put_writes_of(out: &mut Vec<u8>, op: &Op, row: RowName) -> Result<(), NoMemory>
    ensures { OnOk result (out.new.items ≡ out.old.items ++ writes_of op.now row) }
{
    out.extend_from_slice(wrote_words())?;
    put_written(out, op.writes.get(row))
}

/// Appends what an operation wrote to a row.
pub fn put_writes(
    out: &mut Vec<u8>,
    history: &History,
    txn: TxnNo,
    op: u32,
    row: RowName,
) -> Result<(), NoMemory>
    ensures { OnOk result (out.new.items ≡ out.old.items ++ writes_text (op_at (ops_of history.now txn) op) row) }
{
    match op_of(history, txn, op) {
        None => Ok(()),
        Some(found) => put_writes_of(out, found, row),
    }
}

/// The state in which an operation saw a row, None where it is absent.
fn seen_state(history: &History, op: &Op, row: RowName) -> Option<Value>
    ensures { result ≡ viewed_state history.now op.now row }
{
    state_of(history, row, viewed(op, row))
}

/// Appends what a statement lists of a row in this state.
fn put_due_rows(
    out: &mut Vec<u8>,
    statement: &Statement,
    row: RowName,
    state: Option<Value>,
) -> Result<(), NoMemory>
    ensures { OnOk result (out.new.items ≡ out.old.items ++ due_rows statement.now row state) }
{
    out.extend_from_slice(lists_words())?;
    put_listed(out, statement.listed(row, state))
}

/// Appends the state that a statement writes to a row.
fn put_written_state(out: &mut Vec<u8>, state: Option<Value>) -> Result<(), NoMemory>
    ensures { OnOk result (out.new.items ≡ out.old.items ++ written_state state) }
{
    out.extend_from_slice(writes_words())?;
    put_state(out, state)
}

/// Appends what a statement writes to a row in the state in which an operation saw it.
fn put_due_writes(
    out: &mut Vec<u8>,
    history: &History,
    op: &Op,
    row: RowName,
) -> Result<(), NoMemory>
    ensures { OnOk result (out.new.items ≡ out.old.items ++ due_writes op.now.statement row (viewed_state history.now op.now row)) }
{
    let statement = &op.statement;
    if statement.fails_at(row, seen_state(history, op, row)) {
        return out.extend_from_slice(b"the statement can't run on a row that it sees so");
    }
    if statement.would_write(row, seen_state(history, op, row)) {
        put_written_state(out, statement.new_state(row, seen_state(history, op, row)))
    } else {
        out.extend_from_slice(b"the statement writes it not at all")
    }
}

/// Appends what an operation is due to list of a row.
pub fn put_rows_due(
    out: &mut Vec<u8>,
    history: &History,
    txn: TxnNo,
    op: u32,
    row: RowName,
) -> Result<(), NoMemory>
    ensures { OnOk result (out.new.items ≡ out.old.items ++ rows_due history.now (op_at (ops_of history.now txn) op) row) }
{
    match op_of(history, txn, op) {
        None => Ok(()),
        Some(found) => put_due_rows(out, &found.statement, row, seen_state(history, found, row)),
    }
}

/// Appends what an operation is due to write to a row.
pub fn put_writes_due(
    out: &mut Vec<u8>,
    history: &History,
    txn: TxnNo,
    op: u32,
    row: RowName,
) -> Result<(), NoMemory>
    ensures { OnOk result (out.new.items ≡ out.old.items ++ writes_due history.now (op_at (ops_of history.now txn) op) row) }
{
    match op_of(history, txn, op) {
        None => Ok(()),
        Some(found) => put_due_writes(out, history, found, row),
    }
}

/// Appends which version it is.
fn put_which(out: &mut Vec<u8>, version: VersionName) -> Result<(), NoMemory>
    ensures { OnOk result (out.new.items ≡ out.old.items ++ which_text version) }
{
    out.extend_from_slice(b", which is ")?;
    put_version(out, version)
}

/// Appends a transaction's last version of a row, where it wrote the row.
fn put_last_of(
    out: &mut Vec<u8>,
    history: &History,
    txn: TxnNo,
    row: RowName,
) -> Result<(), NoMemory>
    ensures { OnOk result (out.new.items ≡ out.old.items ++ last_of txn (last_write (ops_of history.now txn) row)) }
{
    match history.last_write(txn, row) {
        None => Ok(()),
        Some(op) => put_which(out, VersionName::Of { txn, op }),
    }
}

/// Appends the last version of a row by the transaction whose version this is.
fn put_last_seen(
    out: &mut Vec<u8>,
    history: &History,
    row: RowName,
    version: VersionName,
) -> Result<(), NoMemory>
    ensures { OnOk result (out.new.items ≡ out.old.items ++ last_seen history.now row version) }
{
    match version {
        VersionName::Initial => Ok(()),
        VersionName::Of { txn, .. } => put_last_of(out, history, txn, row),
    }
}

/// Appends the last version of a row by the transaction whose version an operation saw.
fn put_due_version(
    out: &mut Vec<u8>,
    history: &History,
    txn: TxnNo,
    op: u32,
    row: RowName,
) -> Result<(), NoMemory>
    ensures { OnOk result (out.new.items ≡ out.old.items ++ due_version history.now (op_at (ops_of history.now txn) op) row) }
{
    match op_of(history, txn, op) {
        None => Ok(()),
        Some(found) => put_last_seen(out, history, row, viewed(found, row)),
    }
}

/// Appends the last version of the transaction whose version an operation saw.
pub fn put_last_due(
    out: &mut Vec<u8>,
    history: &History,
    txn: TxnNo,
    op: u32,
    row: RowName,
) -> Result<(), NoMemory>
    ensures { OnOk result (out.new.items ≡ out.old.items ++ last_due history.now (op_at (ops_of history.now txn) op) row) }
{
    out.extend_from_slice(last_words())?;
    put_due_version(out, history, txn, op, row)
}
