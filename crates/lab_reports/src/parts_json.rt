//! What the verdicts of a report show, as JSON values.

ghost use Rattle.std.specs.Prelude.{◌≡◌, IfOk};
ghost use Rattle.serde_json.specs.View.{view};
ghost use Rattle.lab_history_file.specs.Tree.{natural_tree, list_tree};
ghost use Rattle.lab_judge.specs.Runs.{span_of, spans_of};
ghost use Rattle.lab_reports.specs.Tree.{edge_tree, read_tree, fault_tree, point_tree, span_tree};

use crate::to_json::{ToJson, list_json, table_json};
use lab_deps::{Edge, FaultParts, LocalFault};
use lab_judge::{Point, kind_name};
use lab_table::{NoMemory, RowName, TxnNo};
use serde_json::{Value as Json, json};
use std::alloc::Global;

/// A transaction of a serial order.
impl ToJson for TxnNo {
    ghost tree = { natural_tree };

    fn to_json(&self, _: Global) -> Result<Json, NoMemory> {
        Ok(Json::from(self.number()))
    }
}

/// A dependency of a cycle.
impl ToJson for Edge {
    ghost tree = { edge_tree };

    fn to_json(&self, alloc: Global) -> Result<Json, NoMemory> {
        json!(in alloc; {
            "from": self.from.number(),
            "id": self.row.id.number(),
            "kind": kind_name(self.kind),
            "table": table_json(alloc, self.row.table)?,
            "to": self.to.number()
        })
    }
}

/// A transaction with the places of its start and its commit.
impl ToJson for (TxnNo, u32, u32) {
    ghost tree = { λ span. span_tree (span_of span) };

    fn to_json(&self, alloc: Global) -> Result<Json, NoMemory> {
        json!(in alloc; {
            "commit": self.2,
            "start": self.1,
            "txn": self.0.number()
        })
    }
}

/// A start or a commit of a cycle.
impl ToJson for Point {
    ghost tree = { point_tree };

    fn to_json(&self, alloc: Global) -> Result<Json, NoMemory> {
        match self {
            Point::Start(txn) => json!(in alloc; {"point": "start", "txn": txn.number()}),
            Point::Commit(txn) => json!(in alloc; {"point": "commit", "txn": txn.number()}),
        }
    }
}

/// Transactions with the places of their starts and commits.
#[tactic(auto, using(crate::proofs::Spans::span_trees))]
pub fn spans_json(alloc: Global, spans: &[(TxnNo, u32, u32)]) -> Result<Json, NoMemory>
    ensures { IfOk result (λ v. view v ≡ list_tree span_tree (spans_of spans.now)) }
{
    list_json(alloc, spans)
}

/// An operation of a transaction that sees a version of a row.
pub fn read_json(alloc: Global, txn: TxnNo, op: u32, row: RowName) -> Result<Json, NoMemory>
    ensures { IfOk result (λ v. view v ≡ read_tree txn op row) }
{
    json!(in alloc; {
        "id": row.id.number(),
        "op": op,
        "table": table_json(alloc, row.table)?,
        "txn": txn.number()
    })
}

/// What is wrong with a history.
pub fn fault_json(alloc: Global, fault: LocalFault) -> Result<Json, NoMemory>
    ensures { IfOk result (λ v. view v ≡ fault_tree fault) }
{
    match fault.parts() {
        FaultParts::Operation { kind, txn, op, row } => json!(in alloc; {
            "code": kind.code(),
            "id": row.id.number(),
            "kind": kind.name(),
            "op": op,
            "table": table_json(alloc, row.table)?,
            "txn": txn.number()
        }),
        FaultParts::Row { kind, row } => json!(in alloc; {
            "code": kind.code(),
            "id": row.id.number(),
            "kind": kind.name(),
            "table": table_json(alloc, row.table)?
        }),
    }
}
