//! What is asked of an operation, in its line. Functions that take bytes append; on failure, a part of the text may
//! have been appended.

ghost use Rattle.std.specs.Prelude.{◌≡◌, ◌++◌, flat_map, IfOk, OnOk};
ghost use Rattle.lab_evidence.specs.Transactions.{step_class, mark_text, step_name, did_text, step_link, note_text, asked_note, row_at, rows_at};

use crate::markup::put_row;
use crate::questions::{Did, Question};
use crate::scope::is_at;
use crate::tags::note_open;
use lab_drawing::put_number;
use lab_table::{NoMemory, RowName, TxnNo};
use std::alloc::Global;

/// Appends the class of a question's step.
#[tactic(auto, unfolding(crate::specs::Transactions::step_class))]
fn put_step_class(out: &mut Vec<u8>, step: u32) -> Result<(), NoMemory>
    ensures { OnOk result (out.new.items ≡ out.old.items ++ step_class step) }
{
    out.extend_from_slice(b" s")?;
    put_number(out, u64::from(step))
}

/// Appends the same, where the question is at an operation.
fn put_mark(out: &mut Vec<u8>, txn: TxnNo, op: u32, question: &Question) -> Result<(), NoMemory>
    ensures { OnOk result (out.new.items ≡ out.old.items ++ mark_text txn op question.now) }
{
    if is_at(question, txn, op) {
        put_step_class(out, question.step)
    } else {
        Ok(())
    }
}

/// Appends the classes of the steps that are about an operation.
pub fn put_marks(out: &mut Vec<u8>, asked: &[Question], txn: TxnNo, op: u32) -> Result<(), NoMemory>
    ensures { OnOk result (out.new.items ≡ out.old.items ++ flat_map (mark_text txn op) asked.now) }
{
    for question in asked {
        put_mark(out, txn, op, question)?;
    }
    Ok(())
}

/// Appends the name of a step; what is of none is in question.
fn put_step_name(out: &mut Vec<u8>, step: u32) -> Result<(), NoMemory>
    ensures { OnOk result (out.new.items ≡ out.old.items ++ step_name step) }
{
    if step == 0 {
        out.extend_from_slice(b"in question")
    } else {
        out.extend_from_slice(b"step ")?;
        put_number(out, u64::from(step))
    }
}

/// What was done with a row.
fn did_text(did: Did) -> &'static [u8]
    ensures { result.now ≡ did_text did }
{
    match did {
        Did::Saw => b"saw row ",
        Did::Wrote => b"wrote row ",
    }
}

/// Appends a link to the sentence of a step.
#[tactic(auto, unfolding(crate::specs::Transactions::step_link))]
fn put_step_link(out: &mut Vec<u8>, step: u32) -> Result<(), NoMemory>
    ensures { OnOk result (out.new.items ≡ out.old.items ++ step_link step) }
{
    out.extend_from_slice(b"<a href=\"#s")?;
    put_number(out, u64::from(step))?;
    out.extend_from_slice(b"\">")?;
    put_step_name(out, step)?;
    out.extend_from_slice(b"</a>: ")
}

/// Appends what a question says.
#[tactic(auto, unfolding(crate::specs::Transactions::note_text))]
fn put_note(alloc: Global, out: &mut Vec<u8>, question: &Question) -> Result<(), NoMemory>
    ensures { OnOk result (out.new.items ≡ out.old.items ++ note_text question.now) }
{
    out.extend_from_slice(note_open())?;
    put_step_link(out, question.step)?;
    out.extend_from_slice(did_text(question.did))?;
    put_row(alloc, out, question.row)?;
    out.extend_from_slice(b"</span>")
}

/// Appends the same, where the question is at an operation.
fn put_asked_note(
    alloc: Global,
    out: &mut Vec<u8>,
    txn: TxnNo,
    op: u32,
    question: &Question,
) -> Result<(), NoMemory>
    ensures { OnOk result (out.new.items ≡ out.old.items ++ asked_note txn op question.now) }
{
    if is_at(question, txn, op) {
        put_note(alloc, out, question)
    } else {
        Ok(())
    }
}

/// Appends what is asked of an operation.
pub fn put_notes(
    alloc: Global,
    out: &mut Vec<u8>,
    asked: &[Question],
    txn: TxnNo,
    op: u32,
) -> Result<(), NoMemory>
    ensures { OnOk result (out.new.items ≡ out.old.items ++ flat_map (asked_note txn op) asked.now) }
{
    for question in asked {
        put_asked_note(alloc, out, txn, op, question)?;
    }
    Ok(())
}

/// Appends the row of a question that is at an operation.
fn put_row_at(
    rows: &mut Vec<RowName>,
    txn: TxnNo,
    op: u32,
    question: &Question,
) -> Result<(), NoMemory>
    ensures { OnOk result (rows.new.items ≡ rows.old.items ++ row_at txn op question.now) }
{
    if is_at(question, txn, op) {
        rows.push(question.row)?;
        Ok(())
    } else {
        Ok(())
    }
}

/// The rows that are in question at an operation.
pub fn rows_at(
    alloc: Global,
    asked: &[Question],
    txn: TxnNo,
    op: u32,
) -> Result<Vec<RowName>, NoMemory>
    ensures { IfOk result (λ rows. rows.items ≡ rows_at asked.now txn op) }
{
    let mut rows = Vec::new(alloc);
    for question in asked {
        put_row_at(&mut rows, txn, op, question)?;
    }
    Ok(rows)
}
