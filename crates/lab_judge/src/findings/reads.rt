//! Reads of what was never committed.

ghost use Rattle.lab_deps.specs.declared.fault.LocalFault.TheVariants as fault;
ghost use Rattle.lab_judge.specs.Judgement.{FindsFault};

use crate::report::Finding;
use lab_deps::{first_aborted_read, first_intermediate_read};
use lab_history::History;

/// The first read of a version of an aborted transaction.
pub(crate) fn find_aborted_read(history: &History) -> Finding
    ensures { FindsFault history.now fault.AbortedRead result }
{
    match first_aborted_read(history) {
        None => Finding::Absent,
        Some(read) => Finding::At {
            txn: read.txn,
            op: read.op,
            row: read.row,
        },
    }
}

/// The first read of another's version that isn't that one's last of the row.
pub(crate) fn find_intermediate_read(history: &History) -> Finding
    ensures { FindsFault history.now fault.IntermediateRead result }
{
    match first_intermediate_read(history) {
        None => Finding::Absent,
        Some(read) => Finding::At {
            txn: read.txn,
            op: read.op,
            row: read.row,
        },
    }
}
