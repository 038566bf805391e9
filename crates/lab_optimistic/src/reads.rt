//! Which rows that a transaction has read others have changed since its begin.

ghost use Rattle.std.specs.Prelude.{◌≡◌, true};
ghost use Rattle.std.specs.BTreeMap.{IsOrdered};
ghost use Rattle.lab_table.specs.Row.{row_cmp};
ghost use Rattle.lab_engine.specs.declared.event.Level.{Level as Kind};
ghost use Rattle.lab_engine.specs.Log.{Past, Txn};
ghost use Rattle.lab_engine.specs.Asker.{IsAsker};
ghost use Rattle.lab_engine.specs.Situation.{keeps_statements};
ghost use Rattle.lab_optimistic.specs.Reads as spec;
ghost use Rattle.lab_optimistic.specs.Reads.{IsFirstRead, IsLeastRead};

use crate::changes::first_change;
use lab_engine::{Asker, Conflict, ConflictKind, RowState, is_before};
use lab_table::{RowName, TxnNo};
use std::collections::BTreeMap;

/// The transaction that was the first since the begin of the asker's to change a row that the asker's has read.
fn change_at(asker: &Asker, row: RowName) -> Option<TxnNo>
    ensures { result ≡ spec.change_at asker.now row }
{
    match asker.situation.rows.get(row) {
        Some(kept) => first_change(asker, row, kept.installed()),
        None => None,
    }
}

/// The conflict at this row, if there is one and the row comes before the one that was found, if one was; else the one
/// that was found.
fn nearer(asker: &Asker, row: RowName, found: Option<Conflict>) -> Option<Conflict>
    ensures { result ≡ spec.nearer asker.now row found }
{
    if !is_before(row, &found) {
        return found;
    }
    match change_at(asker, row) {
        Some(by) => Some(Conflict {
            kind: ConflictKind::Read,
            row,
            by,
        }),
        None => found,
    }
}

/// The conflict at the first of some rows that the asker's transaction has read and that another has changed since its
/// begin.
fn first_of(asker: &Asker, rows: &BTreeMap<RowName, RowState>) -> Option<Conflict>
    ensures ordered { IsOrdered row_cmp rows.now }
    ensures first { result ≡ spec.first_in asker.now rows.now.entries }
{
    for (row, kept) in rows {
        if let Some(by) = first_change(asker, *row, kept.installed()) {
            return Some(Conflict {
                kind: ConflictKind::Read,
                row: *row,
                by,
            });
        }
    }
    None
}

/// The conflict at the least row that the asker's transaction has read and that another has changed since its begin. Each
/// row that a transaction has written is looked at.
fn least_written(asker: &Asker) -> Option<Conflict>
    ensures { IsLeastRead asker.now result }
{
    first_of(asker, asker.situation.rows.by_row())
}

/// The conflict at the least row that the asker's transaction has read and that another has changed since its begin. Where
/// each statement of the transaction names a row, only those rows are looked up.
fn least_read(asker: &Asker) -> Option<Conflict>
    ensures { IsLeastRead asker.now result }
{
    let mut least = None;
    for statement in asker.running.statements.statements() {
        let Some(row) = statement.named_row() else {
            return least_written(asker);
        };
        least = nearer(asker, row, least);
    }
    least
}

/// The least row at which another transaction was the first since the begin of the asker's to change what that has read;
/// None where what it has read stands.
pub fn first_read(asker: &Asker) -> Option<Conflict>
    ensures { (level : Kind) (past : Past) (txn : Txn) → keeps_statements level ≡ true → IsAsker level past txn asker.now
        → IsFirstRead asker.now.setup.now past txn result }
{
    least_read(asker)
}
