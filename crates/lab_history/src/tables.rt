//! How many different tables the lists and statements of a history name.

ghost use Rattle.std.specs.Prelude.{◌≡◌, T, true, Some, nat_le, option_map};
ghost use Rattle.std.specs.FinMap as map;
ghost use Rattle.lab_table.specs.Row.{row_cmp};
ghost use Rattle.lab_history.specs.HistoryRules.{named_tables, distinct_tables};
ghost use Rattle.lab_history.specs.Limits.{max_tables};
ghost use Rattle.lab_history.specs.RunningTables.{with_table, rows_within, op_within, ops_within, txns_within, all_within};

use crate::operation::Op;
use crate::parts::Parts;
use crate::transaction::Txn;
use lab_table::{RowName, TableName, TableSet};

/// Whether the lists and statements of these parts name no more different tables than a history may have.
pub fn has_few_tables(parts: &Parts) -> bool
    ensures { result ≡ nat_le (distinct_tables (named_tables parts.now)) max_tables }
{
    with_all(TableSet::new(), parts).is_some()
}

/// These and one more, or None where that is one too many.
fn with(mut tables: TableSet, name: TableName) -> Option<TableSet>
    ensures { option_map (λ t. t.names) result ≡ with_table tables.names name }
{
    if tables.add(name) { Some(tables) } else { None }
}

/// Whether the rows of a list, which rise strictly, are all of one table that was met: the first and the last are.
fn has_all<X>(tables: &TableSet, entries: &[(RowName, X)]) -> bool
    requires { T (map.is_sorted row_cmp entries.now) }
    ensures { result ≡ true → rows_within tables.now.names entries.now ≡ Some tables.now.names }
{
    match entries.first() {
        None => true,
        Some(first) => match entries.last() {
            None => true,
            Some(last) => first.0.table == last.0.table && tables.has(first.0.table),
        },
    }
}

/// These and those of the rows of a list, which rise strictly.
fn with_rows<X>(tables: TableSet, entries: &[(RowName, X)]) -> Option<TableSet>
    requires { T (map.is_sorted row_cmp entries.now) }
    ensures { option_map (λ t. t.names) result ≡ rows_within tables.names entries.now }
{
    // Most lists are of one table that was met, and then no row between the first and the last is looked at.
    if has_all(&tables, entries) {
        return Some(tables);
    }
    let mut tables = tables;
    for entry in entries {
        if !tables.has(entry.0.table) {
            tables = with(tables, entry.0.table)?;
        }
    }
    Some(tables)
}

fn with_op(tables: TableSet, op: &Op) -> Option<TableSet>
    ensures { option_map (λ t. t.names) result ≡ op_within tables.names op.now }
{
    let tables = with(tables, op.statement.table)?;
    let tables = with_rows(tables, op.view.entries())?;
    let tables = with_rows(tables, op.rows.entries())?;
    with_rows(tables, op.writes.entries())
}

fn with_ops(tables: TableSet, ops: &[Op]) -> Option<TableSet>
    ensures { option_map (λ t. t.names) result ≡ ops_within tables.names ops.now }
{
    let mut tables = tables;
    for op in ops {
        tables = with_op(tables, op)?;
    }
    Some(tables)
}

fn with_txns(tables: TableSet, txns: &[Txn]) -> Option<TableSet>
    ensures { option_map (λ t. t.names) result ≡ txns_within tables.names txns.now }
{
    let mut tables = tables;
    for txn in txns {
        tables = with_ops(tables, txn.ops.as_slice())?;
    }
    Some(tables)
}

fn with_all(tables: TableSet, parts: &Parts) -> Option<TableSet>
    ensures { option_map (λ t. t.names) result ≡ all_within tables.names parts.now }
{
    let tables = with_rows(tables, parts.initial.rows())?;
    let tables = with_txns(tables, parts.txns.as_slice())?;
    let tables = with_rows(tables, parts.installed.entries())?;
    with_rows(tables, parts.end_table.rows())
}
