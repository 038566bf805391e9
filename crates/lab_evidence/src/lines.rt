//! The line of an operation. Functions that take bytes append; on failure, a part of the text may have been appended.

ghost use Rattle.std.specs.Prelude.{◌≡◌, ◌++◌, OnOk};
ghost use Rattle.lab_evidence.specs.Transactions.{line_open, line_name, statement_cell, saw_column, listed_column, wrote_column, columns_text, line_text};

use crate::cells::{put_listed_cell, put_seen_cell, put_written_cell};
use crate::markup::{put_op_anchor, put_op_name};
use crate::notes::{put_marks, put_notes, rows_at};
use crate::questions::Question;
use crate::scope::Scope;
use crate::tags::{cell_open, line_close, listed_open, name_open, saw_open, wrote_open};
use lab_drawing::put_escaped;
use lab_history::{History, Op};
use lab_printing::put_statement;
use lab_table::{NoMemory, RowName, TxnNo};
use std::alloc::Global;

/// Appends the beginning of an operation's line.
#[tactic(auto, unfolding(crate::specs::Transactions::line_open))]
fn put_line_open(out: &mut Vec<u8>, asked: &[Question], txn: TxnNo, op: u32) -> Result<(), NoMemory>
    ensures { OnOk result (out.new.items ≡ out.old.items ++ line_open asked.now txn op) }
{
    out.extend_from_slice(b"<tr id=\"")?;
    put_op_anchor(out, txn, op)?;
    out.extend_from_slice(b"\" class=\"o")?;
    put_marks(out, asked, txn, op)?;
    out.extend_from_slice(b"\">")
}

/// Appends its name.
#[tactic(auto, unfolding(crate::specs::Transactions::line_name))]
fn put_line_name(out: &mut Vec<u8>, txn: TxnNo, op: u32) -> Result<(), NoMemory>
    ensures { OnOk result (out.new.items ≡ out.old.items ++ line_name txn op) }
{
    out.extend_from_slice(name_open())?;
    put_op_name(out, txn, op)?;
    out.extend_from_slice(b"</th>")
}

/// Appends the statement of an operation, and what is asked of it.
#[tactic(auto, unfolding(crate::specs::Transactions::statement_cell))]
fn put_statement_cell(
    alloc: Global,
    out: &mut Vec<u8>,
    asked: &[Question],
    txn: TxnNo,
    number: u32,
    op: &Op,
) -> Result<(), NoMemory>
    ensures { OnOk result (out.new.items ≡ out.old.items ++ statement_cell asked.now txn number op.now) }
{
    let mut statement = Vec::new(alloc);
    put_statement(&mut statement, &op.statement)?;
    out.extend_from_slice(cell_open())?;
    put_escaped(out, &statement)?;
    put_notes(alloc, out, asked, txn, number)?;
    out.extend_from_slice(b"</td>")
}

/// Appends what it saw.
#[tactic(auto, unfolding(crate::specs::Transactions::saw_column))]
fn put_saw(
    alloc: Global,
    out: &mut Vec<u8>,
    history: &History,
    scope: &Scope,
    rows: &[RowName],
    op: &Op,
) -> Result<(), NoMemory>
    ensures { OnOk result (out.new.items ≡ out.old.items ++ saw_column history.now scope.now rows.now op.now) }
{
    out.extend_from_slice(saw_open())?;
    put_seen_cell(alloc, out, history, scope, rows, op)?;
    out.extend_from_slice(b"</td>")
}

/// Appends what it listed.
#[tactic(auto, unfolding(crate::specs::Transactions::listed_column))]
fn put_listed(
    alloc: Global,
    out: &mut Vec<u8>,
    history: &History,
    scope: &Scope,
    rows: &[RowName],
    op: &Op,
) -> Result<(), NoMemory>
    ensures { OnOk result (out.new.items ≡ out.old.items ++ listed_column history.now scope.now rows.now op.now) }
{
    out.extend_from_slice(listed_open())?;
    put_listed_cell(alloc, out, history, scope, rows, op)?;
    out.extend_from_slice(b"</td>")
}

/// Appends what it wrote.
#[tactic(auto, unfolding(crate::specs::Transactions::wrote_column))]
fn put_wrote(
    alloc: Global,
    out: &mut Vec<u8>,
    history: &History,
    scope: &Scope,
    rows: &[RowName],
    op: &Op,
) -> Result<(), NoMemory>
    ensures { OnOk result (out.new.items ≡ out.old.items ++ wrote_column history.now scope.now rows.now op.now) }
{
    out.extend_from_slice(wrote_open())?;
    put_written_cell(alloc, out, history, scope, rows, op)?;
    out.extend_from_slice(line_close())
}

/// Appends the three.
#[tactic(auto, unfolding(crate::specs::Transactions::columns_text))]
fn put_columns(
    alloc: Global,
    out: &mut Vec<u8>,
    history: &History,
    scope: &Scope,
    rows: &[RowName],
    op: &Op,
) -> Result<(), NoMemory>
    ensures { OnOk result (out.new.items ≡ out.old.items ++ columns_text history.now scope.now rows.now op.now) }
{
    put_saw(alloc, out, history, scope, rows, op)?;
    put_listed(alloc, out, history, scope, rows, op)?;
    put_wrote(alloc, out, history, scope, rows, op)
}

/// Appends the line of an operation with this number.
#[tactic(auto, unfolding(crate::specs::Transactions::line_text))]
pub fn put_line(
    alloc: Global,
    out: &mut Vec<u8>,
    history: &History,
    scope: &Scope,
    txn: TxnNo,
    number: u32,
    op: &Op,
) -> Result<(), NoMemory>
    ensures { OnOk result (out.new.items ≡ out.old.items ++ line_text history.now scope.now txn number op.now) }
{
    let rows = rows_at(alloc, &scope.asked, txn, number)?;
    put_line_open(out, &scope.asked, txn, number)?;
    put_line_name(out, txn, number)?;
    put_statement_cell(alloc, out, &scope.asked, txn, number, op)?;
    put_columns(alloc, out, history, scope, &rows, op)
}
