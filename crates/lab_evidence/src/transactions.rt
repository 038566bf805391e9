//! The transactions of a page. Functions that take bytes append; on failure, a part of the text may have been appended.

ghost use Rattle.std.specs.Prelude.{◌≡◌, ◌++◌, ◌≤◌, length, flat_map, OnOk};
ghost use Rattle.lab_history.specs.Limits.{max_operations};
ghost use Rattle.lab_history.specs.Version.{outcome_of};
ghost use Rattle.lab_evidence.specs.Transactions.{shown_line, lines_text, untold_ops, ops_count, txn_mark, txn_anchor, txn_said, txn_open, txn_text, shown_text, transactions_open, transactions_text};

use crate::lines::put_line;
use crate::phrases::transactions_caption;
use crate::scope::{Scope, shows_op};
use crate::tags::{head_close, txn_head, untold_open};
use lab_drawing::{ops_of, outcome_name, put_number};
use lab_explain::put_txn as put_txn_name;
use lab_history::{History, Op};
use lab_table::{NoMemory, TxnNo};
use std::alloc::Global;

/// Appends the line of an operation, if it is shown.
fn put_shown_line(
    alloc: Global,
    out: &mut Vec<u8>,
    history: &History,
    scope: &Scope,
    txn: TxnNo,
    number: u32,
    op: &Op,
) -> Result<(), NoMemory>
    ensures { OnOk result (out.new.items ≡ out.old.items ++ shown_line history.now scope.now txn number op.now) }
{
    if shows_op(&scope.asked, txn, number) {
        put_line(alloc, out, history, scope, txn, number, op)
    } else {
        Ok(())
    }
}

/// Appends the lines of a transaction's operations.
fn put_lines(
    alloc: Global,
    out: &mut Vec<u8>,
    history: &History,
    scope: &Scope,
    txn: TxnNo,
    ops: &[Op],
) -> Result<(), NoMemory>
    requires { length ops.now ≤ max_operations }
    ensures { OnOk result (out.new.items ≡ out.old.items ++ lines_text history.now scope.now txn 0 ops.now) }
{
    for (index, op) in ops.iter().enumerate() {
        let number = index as u32 + 1;
        put_shown_line(alloc, out, history, scope, txn, number, op)?;
    }
    Ok(())
}

/// Appends how many statements there are.
#[tactic(auto, unfolding(crate::specs::Transactions::untold_ops))]
fn put_untold_ops(out: &mut Vec<u8>, count: u64) -> Result<(), NoMemory>
    ensures { OnOk result (out.new.items ≡ out.old.items ++ untold_ops count) }
{
    out.extend_from_slice(untold_open())?;
    put_number(out, count)?;
    out.extend_from_slice(
        b" statements the first eight are here, and those in question.</td></tr>\n",
    )
}

/// Appends the same, where not all are shown.
fn put_ops_count(out: &mut Vec<u8>, count: usize) -> Result<(), NoMemory>
    ensures { OnOk result (out.new.items ≡ out.old.items ++ ops_count count) }
{
    if 8 < count {
        put_untold_ops(out, count as u64)
    } else {
        Ok(())
    }
}

/// Appends where a transaction begins.
#[tactic(auto, unfolding(crate::specs::Transactions::txn_mark))]
fn put_txn_mark(out: &mut Vec<u8>, txn: TxnNo) -> Result<(), NoMemory>
    ensures { OnOk result (out.new.items ≡ out.old.items ++ txn_mark txn) }
{
    out.extend_from_slice(txn_head())?;
    put_number(out, u64::from(txn.number()))
}

/// Appends the same, and the beginning of its head.
#[tactic(auto, unfolding(crate::specs::Transactions::txn_anchor))]
fn put_txn_anchor(out: &mut Vec<u8>, txn: TxnNo) -> Result<(), NoMemory>
    ensures { OnOk result (out.new.items ≡ out.old.items ++ txn_anchor txn) }
{
    put_txn_mark(out, txn)?;
    out.extend_from_slice(b"\"><th scope=\"rowgroup\" colspan=\"5\">")
}

/// Appends the same, and its name.
#[tactic(auto, unfolding(crate::specs::Transactions::txn_said))]
fn put_txn_said(out: &mut Vec<u8>, txn: TxnNo) -> Result<(), NoMemory>
    ensures { OnOk result (out.new.items ≡ out.old.items ++ txn_said txn) }
{
    put_txn_anchor(out, txn)?;
    put_txn_name(out, txn)?;
    out.extend_from_slice(b" ")
}

/// Appends the head of a transaction.
#[tactic(auto, unfolding(crate::specs::Transactions::txn_open))]
fn put_txn_open(out: &mut Vec<u8>, history: &History, txn: TxnNo) -> Result<(), NoMemory>
    ensures { OnOk result (out.new.items ≡ out.old.items ++ txn_open txn (outcome_of history.now txn)) }
{
    put_txn_said(out, txn)?;
    out.extend_from_slice(outcome_name(history, txn).as_bytes())?;
    out.extend_from_slice(head_close())
}

/// Appends a transaction.
#[tactic(auto, unfolding(crate::specs::Transactions::txn_text))]
fn put_txn(
    alloc: Global,
    out: &mut Vec<u8>,
    history: &History,
    scope: &Scope,
    txn: TxnNo,
) -> Result<(), NoMemory>
    ensures { OnOk result (out.new.items ≡ out.old.items ++ txn_text history.now scope.now txn) }
{
    let ops = ops_of(history, txn);
    put_txn_open(out, history, txn)?;
    put_lines(alloc, out, history, scope, txn, ops)?;
    put_ops_count(out, ops.len())?;
    out.extend_from_slice(b"</tbody>\n")
}

/// Appends transactions.
fn put_txns(
    alloc: Global,
    out: &mut Vec<u8>,
    history: &History,
    scope: &Scope,
    txns: &[TxnNo],
) -> Result<(), NoMemory>
    ensures { OnOk result (out.new.items ≡ out.old.items ++ flat_map (txn_text history.now scope.now) txns.now) }
{
    for txn in txns {
        put_txn(alloc, out, history, scope, *txn)?;
    }
    Ok(())
}

/// Appends how many are shown of how many.
#[tactic(auto, unfolding(crate::specs::Transactions::shown_text))]
pub fn put_shown(out: &mut Vec<u8>, shown: u64, all: u64) -> Result<(), NoMemory>
    ensures { OnOk result (out.new.items ≡ out.old.items ++ shown_text shown all) }
{
    out.extend_from_slice(b"Here: ")?;
    put_number(out, shown)?;
    out.extend_from_slice(b" of ")?;
    put_number(out, all)?;
    out.extend_from_slice(b".")
}

/// The beginning.
#[tactic(auto, unfolding(crate::specs::Transactions::transactions_open))]
fn transactions_open() -> &'static [u8]
    ensures { result.now ≡ transactions_open }
{
    b"<section aria-labelledby=\"transactions\">\n<h2 id=\"transactions\">The transactions</h2>\n<table class=\"s\">\n<caption>"
}

/// Appends the section on transactions.
#[tactic(auto, unfolding(crate::specs::Transactions::transactions_text))]
pub fn put_transactions(
    alloc: Global,
    out: &mut Vec<u8>,
    history: &History,
    scope: &Scope,
) -> Result<(), NoMemory>
    ensures { OnOk result (out.new.items ≡ out.old.items ++ transactions_text history.now scope.now) }
{
    let all = history.txns().as_slice().len();
    out.extend_from_slice(transactions_open())?;
    put_shown(out, scope.txns.len() as u64, all as u64)?;
    out.extend_from_slice(transactions_caption())?;
    put_txns(alloc, out, history, scope, &scope.txns)?;
    out.extend_from_slice(b"</table>\n</section>\n")
}
