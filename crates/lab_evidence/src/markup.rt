//! Words of a page that are links or have markup. Functions that take bytes append; on failure, a part of the text may
//! have been appended.

ghost use Rattle.std.specs.Prelude.{◌≡◌, ◌++◌, OnOk};
ghost use Rattle.lab_evidence.specs.Markup.{op_name, op_anchor, op_link, op_text, row_text, bold_open, bold_close};

use crate::scope::{Scope, has_line};
use lab_drawing::{put_escaped, put_number};
use lab_explain::put_txn;
use lab_history::History;
use lab_printing::put_row_name;
use lab_table::{NoMemory, RowName, TxnNo};
use std::alloc::Global;

/// Appends the name of an operation.
#[tactic(auto, unfolding(crate::specs::Markup::op_name))]
pub fn put_op_name(out: &mut Vec<u8>, txn: TxnNo, op: u32) -> Result<(), NoMemory>
    ensures { OnOk result (out.new.items ≡ out.old.items ++ op_name txn op) }
{
    put_txn(out, txn)?;
    out.extend_from_slice(b".")?;
    put_number(out, u64::from(op))
}

/// Appends the name of its line in the page.
#[tactic(auto, unfolding(crate::specs::Markup::op_anchor))]
pub fn put_op_anchor(out: &mut Vec<u8>, txn: TxnNo, op: u32) -> Result<(), NoMemory>
    ensures { OnOk result (out.new.items ≡ out.old.items ++ op_anchor txn op) }
{
    out.extend_from_slice(b"t")?;
    put_number(out, u64::from(txn.number()))?;
    out.extend_from_slice(b"-")?;
    put_number(out, u64::from(op))
}

/// Appends a link to that line.
#[tactic(auto, unfolding(crate::specs::Markup::op_link))]
fn put_op_link(out: &mut Vec<u8>, txn: TxnNo, op: u32) -> Result<(), NoMemory>
    ensures { OnOk result (out.new.items ≡ out.old.items ++ op_link txn op) }
{
    out.extend_from_slice(b"<a href=\"#")?;
    put_op_anchor(out, txn, op)?;
    out.extend_from_slice(b"\">")?;
    put_op_name(out, txn, op)?;
    out.extend_from_slice(b"</a>")
}

/// Appends an operation, as a link if the page has its line.
pub fn put_op(
    out: &mut Vec<u8>,
    history: &History,
    scope: &Scope,
    txn: TxnNo,
    op: u32,
) -> Result<(), NoMemory>
    ensures { OnOk result (out.new.items ≡ out.old.items ++ op_text history.now scope.now txn op) }
{
    if has_line(history, scope, txn, op) {
        put_op_link(out, txn, op)
    } else {
        put_op_name(out, txn, op)
    }
}

/// Appends the name of a row.
pub fn put_row(alloc: Global, out: &mut Vec<u8>, row: RowName) -> Result<(), NoMemory>
    ensures { OnOk result (out.new.items ≡ out.old.items ++ row_text row) }
{
    let mut text = Vec::new(alloc);
    put_row_name(&mut text, row)?;
    put_escaped(out, &text)
}

/// The beginning of bold letters.
pub fn bold_open(bold: bool) -> &'static [u8]
    ensures { result.now ≡ bold_open bold }
{
    if bold { b"<b>" } else { b"" }
}

/// Their end.
pub fn bold_close(bold: bool) -> &'static [u8]
    ensures { result.now ≡ bold_close bold }
{
    if bold { b"</b>" } else { b"" }
}
