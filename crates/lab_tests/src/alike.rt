//! Compares a returned value with the given one, part by part.

use lab_history::{Installed, Op, Parts, Txn};
use lab_statement::print_statement;
use lab_table::{Statement, Table};
use std::alloc::Global;

/// Whether two statements have one text.
fn alike_statements(alloc: Global, a: &Statement, b: &Statement) -> bool {
    match (print_statement(alloc, a), print_statement(alloc, b)) {
        (Ok(text), Ok(other)) => text.as_slice() == other.as_slice(),
        _ => false,
    }
}

pub fn alike_operations(alloc: Global, a: &Op, b: &Op) -> bool {
    alike_statements(alloc, &a.statement, &b.statement)
        && a.view.entries() == b.view.entries()
        && a.rows.entries() == b.rows.entries()
        && a.writes.entries() == b.writes.entries()
}

fn alike_lists(alloc: Global, a: &[Op], b: &[Op]) -> bool {
    for (op, other) in a.iter().zip(b) {
        if !alike_operations(alloc, op, other) {
            return false;
        }
    }
    a.len() == b.len()
}

fn alike_transactions(alloc: Global, a: &[Txn], b: &[Txn]) -> bool {
    for (txn, other) in a.iter().zip(b) {
        if txn.no != other.no
            || txn.outcome != other.outcome
            || !alike_lists(alloc, txn.ops.as_slice(), other.ops.as_slice())
        {
            return false;
        }
    }
    a.len() == b.len()
}

fn alike_installed(a: &Installed, b: &Installed) -> bool {
    for (entry, other) in a.entries().iter().zip(b.entries()) {
        if entry.0 != other.0 || entry.1.as_slice() != other.1.as_slice() {
            return false;
        }
    }
    a.entries().len() == b.entries().len()
}

fn alike_tables(a: &Table, b: &Table) -> bool {
    a.rows() == b.rows()
}

pub fn alike_parts(alloc: Global, a: &Parts, b: &Parts) -> bool {
    alike_tables(&a.initial, &b.initial)
        && alike_transactions(alloc, a.txns.as_slice(), b.txns.as_slice())
        && alike_installed(&a.installed, &b.installed)
        && alike_tables(&a.end_table, &b.end_table)
}
