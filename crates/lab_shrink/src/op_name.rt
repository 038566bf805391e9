//! Names of operations.

use lab_history::{Op, VersionName};
use lab_table::{RowName, TxnNo};

/// An operation, by its number from 1.
#[derive(Clone, Copy)]
pub struct OpName {
    pub txn: TxnNo,
    pub op: u32,
}

/// The operation that wrote what an operation saw of a row, unless that is the initial version.
pub fn writer_seen(op: &Op, row: RowName) -> Option<OpName> {
    match op.view.get(row)? {
        VersionName::Initial => None,
        VersionName::Of { txn, op } => Some(OpName { txn, op }),
    }
}
