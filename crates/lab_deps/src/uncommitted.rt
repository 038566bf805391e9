//! Reads of versions that never committed.

ghost use Rattle.std.specs.Prelude.{◌≡◌, ℕ, None, IfSome};
ghost use Rattle.lab_table.specs.Row.{Row};
ghost use Rattle.lab_deps.specs.Soundness.{Stands};
ghost use Rattle.lab_deps.specs.FaultOrder.{ComesBefore, IsFirstRead};
ghost use Rattle.lab_deps.specs.Search.{IsTestedAt};
ghost use Rattle.lab_deps.specs.declared.fault.LocalFault.TheVariants as fault;

use crate::kind::OpFault;
use crate::search::first_at_ops;
use lab_history::History;
use lab_table::{RowName, TxnNo};

/// An operation of a transaction, counted from 1, that sees a row.
#[derive(Clone, Copy, Debug, PartialEq, Eq)]
pub struct Read {
    pub txn: TxnNo,
    pub op: u32,
    pub row: RowName,
}

/// Returns the first operation of a committed transaction that sees a version of an aborted one, with its least such
/// row, or `None` if there is none. Transactions are in the order of the file.
pub fn first_aborted_read(history: &History) -> Option<Read>
    ensures found { IfSome result (λ read. Stands history.now (fault.AbortedRead read.txn read.op read.row)) }
    ensures first { IfSome result (λ read. IsFirstRead history.now fault.AbortedRead read.txn read.op read.row) }
    ensures none { result ≡ None → (n k : ℕ) (row : Row) → ¬ Stands history.now (fault.AbortedRead n k row) }
{
    first_of_kind(history, OpFault::AbortedRead)
}

/// Returns the first operation of a committed transaction that sees a version of another one that isn't that one's last
/// of the row, with its least such row, or `None` if there is none. Transactions are in the order of the file.
pub fn first_intermediate_read(history: &History) -> Option<Read>
    ensures found { IfSome result (λ read. Stands history.now (fault.IntermediateRead read.txn read.op read.row)) }
    ensures first { IfSome result (λ read. IsFirstRead history.now fault.IntermediateRead read.txn read.op read.row) }
    ensures none { result ≡ None → (n k : ℕ) (row : Row) → ¬ Stands history.now (fault.IntermediateRead n k row) }
{
    first_of_kind(history, OpFault::IntermediateRead)
}

/// The first fault of a kind at an operation.
fn first_of_kind(history: &History, kind: OpFault) -> Option<Read>
    ensures found { IfSome result (λ read. IsTestedAt history.now kind read.txn read.op read.row) }
    ensures first { IfSome result (λ read. (n k : ℕ) (row : Row) → IsTestedAt history.now kind n k row → ComesBefore history.now (n, k, row) (read.txn, read.op, read.row) → ⊥) }
    ensures none { result ≡ None → (n k : ℕ) (row : Row) → IsTestedAt history.now kind n k row → ⊥ }
{
    let found = first_at_ops(history, &[Some(kind)])?;
    Some(Read {
        txn: found.txn,
        op: found.op,
        row: found.row,
    })
}
