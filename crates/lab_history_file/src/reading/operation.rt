//! The operations of a history file.

ghost use Rattle.std.specs.Prelude.{◌≡◌, ◌≤◌, ◌<◌, [], length, option_and_then, IfOk};
ghost use Rattle.serde_json.specs.View.{view, items_view};
ghost use Rattle.lab_statement.specs.StatementText.{statement_in};
ghost use Rattle.lab_history.specs.Faults.{Gives};
ghost use Rattle.lab_history_file.specs.Entries.{items_from};
ghost use Rattle.lab_history_file.specs.FileVersion.{may_have as spec_may_have};
ghost use Rattle.lab_history_file.specs.Format.{only_in, op_in, op_behind};
ghost use Rattle.lab_history.specs.Limits.{max_operations};

use super::keys::{has_keys, text_at};
use super::lists::entries_at;
use crate::fault::{required, wrong};
use crate::file_version::FileVersion;
use lab_history::{FileFault, ListPlace, Op, Ops, Path, Rows, View, Writes};
use lab_statement::{ScriptFault, parse_statement};
use lab_table::{NoMemory, Statement, TableName, TxnNo};
use serde_json::Value as Json;
use std::alloc::{AllocError, Global};

/// Whether a file of a version may have a statement.
fn may_have(version: FileVersion, statement: &Statement) -> bool
    ensures { result ≡ spec_may_have version statement.now }
{
    match version {
        FileVersion::One => statement.table == TableName::test(),
        FileVersion::Two => true,
    }
}

/// The statement, if a file of a version may have it.
pub fn only(version: FileVersion, statement: Statement) -> Option<Statement>
    ensures { result ≡ only_in version statement }
{
    if may_have(version, &statement) {
        Some(statement)
    } else {
        None
    }
}

/// The statement that a text spells, if it spells one that a file of this version may have.
fn statement_of(
    alloc: Global,
    version: FileVersion,
    text: &str,
) -> Result<Option<Statement>, NoMemory>
    ensures { IfOk result (λ statement. option_and_then (only_in version) (statement_in text.now) ≡ statement) }
{
    match parse_statement(alloc, text.as_bytes()) {
        Ok(statement) => Ok(only(version, statement)),
        Err(ScriptFault::NoMemory) => Err(AllocError),
        Err(ScriptFault::At { .. }) => Ok(None),
    }
}

/// The operation at a place of the transaction with this place and this number.
#[tactic(auto, using(lab_history::proofs::NewStates::new_states_sorted))]
fn op_of(
    alloc: Global,
    version: FileVersion,
    txn: usize,
    number: TxnNo,
    op: usize,
    json: &Json,
) -> Result<Op, FileFault>
    requires { op < max_operations }
    ensures { Gives (λ read. read) result (op_in version txn number op (view json.now)) }
{
    if !has_keys(json, &["rows", "statement", "view", "writes"]) {
        return Err(wrong(Path::Operation { txn, op }));
    }
    let text = required(text_at(json, "statement"), Path::Statement { txn, op })?;
    let Some(statement) = statement_of(alloc, version, text)? else {
        return Err(FileFault::BadStatement {
            txn: number,
            op: op as u32 + 1,
        });
    };
    let view = entries_at(alloc, version, json, "view", ListPlace::View { txn, op })?;
    let rows = entries_at(alloc, version, json, "rows", ListPlace::Rows { txn, op })?;
    let writes = entries_at(
        alloc,
        version,
        json,
        "writes",
        ListPlace::Writes { txn, op },
    )?;
    Ok(Op {
        statement,
        view: View::new(view),
        rows: Rows::new(rows),
        writes: Writes::new(writes),
    })
}

/// The operations of the transaction with this place and this number.
#[tactic(auto, using(crate::proofs::ItemsRead::item_read, crate::proofs::ItemsRead::item_fault, crate::proofs::ItemsRead::items_end))]
pub fn ops_of(
    alloc: Global,
    version: FileVersion,
    txn: usize,
    number: TxnNo,
    items: &[Json],
) -> Result<Ops, FileFault>
    requires { length items.now ≤ max_operations }
    ensures read { Gives (λ ops. ops) result (items_from (op_behind version txn number) [] 0 (items_view items.now)) }
    ensures count { IfOk result (λ ops. length ops ≡ length items.now) }
{
    let mut ops = Vec::with_capacity(alloc, items.len())?;
    for (index, item) in items.iter().enumerate() {
        ops.push(op_of(alloc, version, txn, number, index, item)?)?;
    }
    Ok(Ops::new(ops))
}
