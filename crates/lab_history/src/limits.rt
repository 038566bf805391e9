//! The limits of a history.

ghost use Rattle.std.specs.Prelude.{◌≡◌, ◌≤◌, IfSome};
ghost use Rattle.lab_history.specs.Faults.{Gives};
ghost use Rattle.lab_history.specs.Limits.{max_entries};
ghost use Rattle.lab_history.specs.WithinLimits.{within_limits};
ghost use Rattle.lab_history.specs.RunningCounts.{counted, op_counted, ops_counted, txns_counted};

use crate::fault::{FileFault, Limit};
use crate::ids::has_few_ids;
use crate::operation::Op;
use crate::parts::Parts;
use crate::tables::has_few_tables;
use crate::transaction::Txn;
use std::alloc::Global;

/// The most bytes of a history file.
pub const MAX_FILE_BYTES: usize = 8_388_608;

/// The most transactions of a history.
pub const MAX_TRANSACTIONS: usize = 1_000;

/// The most operations of all its transactions together.
pub const MAX_OPERATIONS: usize = 10_000;

/// The most different rows in all its lists together.
pub const MAX_IDS: usize = 1_000;

/// The most entries of views, rows and writes together.
pub const MAX_ENTRIES: usize = 200_000;

/// Whether parts keep the limits on tables, ids and entries.
pub fn check_limits(alloc: Global, parts: &Parts) -> Result<(), FileFault>
    ensures { Gives (λ _. tt) result (within_limits parts.now) }
{
    if !has_few_tables(parts) {
        return Err(FileFault::OverLimit {
            which: Limit::Tables,
        });
    }
    if !has_few_ids(alloc, parts)? {
        return Err(FileFault::OverLimit { which: Limit::Ids });
    }
    match count_txns(parts.txns.as_slice()) {
        Some(_) => Ok(()),
        None => Err(FileFault::OverLimit {
            which: Limit::Entries,
        }),
    }
}

/// So many entries more, if that keeps the limit.
fn count(total: usize, more: usize) -> Option<usize>
    requires { total ≤ max_entries }
    ensures value { result ≡ counted total more }
    ensures few { IfSome result (λ sum. sum ≤ max_entries) }
{
    if more <= MAX_ENTRIES - total {
        Some(total + more)
    } else {
        None
    }
}

fn count_op(total: usize, op: &Op) -> Option<usize>
    requires { total ≤ max_entries }
    ensures value { result ≡ op_counted total op.now }
    ensures few { IfSome result (λ sum. sum ≤ max_entries) }
{
    let total = count(total, op.view.entries().len())?;
    let total = count(total, op.rows.entries().len())?;
    count(total, op.writes.entries().len())
}

fn count_ops(before: usize, ops: &[Op]) -> Option<usize>
    requires { before ≤ max_entries }
    ensures value { result ≡ ops_counted before ops.now }
    ensures few { IfSome result (λ sum. sum ≤ max_entries) }
{
    let mut total = before;
    for op in ops {
        total = count_op(total, op)?;
    }
    Some(total)
}

fn count_txns(txns: &[Txn]) -> Option<usize>
    ensures { result ≡ txns_counted 0 txns.now }
{
    let mut total = 0;
    for txn in txns {
        total = count_ops(total, txn.ops.as_slice())?;
    }
    Some(total)
}
