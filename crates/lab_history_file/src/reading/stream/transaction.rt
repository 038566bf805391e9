//! Transactions of a history file, read from its tokens.

ghost use Rattle.std.specs.Prelude.{◌≡◌, ◌≤◌, length, [], true, Some, IfOk, IfSome};
ghost use Rattle.lab_history.specs.Limits.{max_transactions};
ghost use Rattle.lab_history_file.specs.FileOf.{IsListOf, IsTransaction, outcome_text};
ghost use Rattle.lab_history_file.specs.Behind.{AllStand, Stands};
ghost use Rattle.lab_history_file.specs.Spelled.{Spelled};

use super::super::cursor::Cursor;
use super::super::earlier::Earlier;
use super::super::stop::Stop;
use super::entries::txn_no_of;
use super::object::{Fields, fill, read_object};
use super::operation::ops_of;
use crate::file_version::FileVersion;
use lab_history::{MAX_OPERATIONS, MAX_TRANSACTIONS, Ops, Outcome, Txn, Txns};
use lab_table::TxnNo;
use std::alloc::Global;

/// The members of a transaction that have been read.
#[derive(Drop)]
struct TxnFields {
    no: Option<TxnNo>,
    ops: Option<Ops>,
    outcome: Option<Outcome>,
}

impl TxnFields {
    /// The transaction, if it has all its members.
    fn into_txn(self) -> Option<Txn>
        ensures { IfSome result (λ txn. (self.no ≡ Some txn.no) × (self.ops ≡ Some txn.ops) × (self.outcome ≡ Some txn.outcome)) }
    {
        let TxnFields { no, ops, outcome } = self;
        let no = no?;
        let ops = ops?;
        let outcome = outcome?;
        Some(Txn { no, outcome, ops })
    }
}

impl Fields for TxnFields {
    ghost use Rattle.lab_history_file.specs.Fields.{HoldTxn};

    ghost LEVELS = { 5 };

    ghost hold = { HoldTxn };

    fn read_member(
        &mut self,
        alloc: Global,
        version: FileVersion,
        key: &str,
        cursor: &mut Cursor<'_>,
    ) -> Result<(), Stop> {
        if key == "no" {
            let no = txn_no_of(cursor)?;
            fill(&mut self.no, no);
            Ok(())
        } else if key == "ops" {
            let ops = ops_of(alloc, version, cursor)?;
            fill(&mut self.ops, ops);
            Ok(())
        } else if key == "outcome" {
            let text = cursor.text()?;
            let outcome = outcome_named(text).ok_or(Stop::Fault)?;
            fill(&mut self.outcome, outcome);
            Ok(())
        } else {
            Err(Stop::Fault)
        }
    }
}

/// Reads a list of transactions.
pub fn txns_of(alloc: Global, version: FileVersion, cursor: &mut Cursor<'_>) -> Result<Txns, Stop>
    ensures spelled { IfOk result (λ txns. Spelled 7 (IsListOf (IsTransaction version)) cursor.old cursor.new txns) }
    ensures stand { IfOk result (λ txns. AllStand Stands [] txns) }
    ensures few { IfOk result (λ txns. length txns ≤ max_transactions) }
{
    cursor.open_list()?;
    let mut txns = Earlier::with_capacity(alloc, 16)?;
    let mut count = 0;
    'txns: while !cursor.list_ends() {
        if count == MAX_TRANSACTIONS {
            return Err(Stop::Fault);
        }
        count += 1;
        let txn = txn_of(alloc, version, &txns, cursor)?;
        txns.push(txn)?;
    }
    Ok(txns.into_txns())
}

/// Reads a transaction that may follow the earlier ones.
fn txn_of(
    alloc: Global,
    version: FileVersion,
    earlier: &Earlier,
    cursor: &mut Cursor<'_>,
) -> Result<Txn, Stop>
    ensures spelled { IfOk result (λ txn. Spelled 6 (IsTransaction version) cursor.old cursor.new txn) }
    ensures stands { IfOk result (λ txn. Stands earlier.now txn) }
{
    let mut fields = TxnFields {
        no: None,
        ops: None,
        outcome: None,
    };
    read_object(alloc, version, &mut fields, cursor)?;
    let txn = fields.into_txn().ok_or(Stop::Fault)?;
    if may_follow(earlier, &txn) {
        Ok(txn)
    } else {
        Err(Stop::Fault)
    }
}

/// Whether a transaction may follow the earlier ones: its number is new, and there is room for its operations.
fn may_follow(earlier: &Earlier, txn: &Txn) -> bool
    ensures { result ≡ true → Stands earlier.now txn.now }
{
    if earlier.has(txn.no) {
        return false;
    }
    txn.ops.as_slice().len() <= MAX_OPERATIONS - earlier.operations()
}

fn outcome_named(text: &str) -> Option<Outcome>
    ensures { IfSome result (λ outcome. text.now ≡ outcome_text outcome) }
{
    if text == "committed" {
        Some(Outcome::Committed)
    } else if text == "aborted" {
        Some(Outcome::Aborted)
    } else {
        None
    }
}
