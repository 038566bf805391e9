//! The transactions of a history file.

ghost use Rattle.std.specs.Prelude.{◌≡◌, ◌≤◌, ◌+◌, codes, length, IfOk, option_and_then};
ghost use Rattle.serde_json.specs.View.{view};
ghost use Rattle.serde_json.specs.Find.{as_str};
ghost use Rattle.lab_history_file.specs.Entries.{txn_in_number};
ghost use Rattle.lab_history.specs.Faults.{Gives};
ghost use Rattle.lab_history_file.specs.Format.{at_key, outcome_named, txn_in, txns_in};
ghost use Rattle.lab_history.specs.HistoryRules.{operations};
ghost use Rattle.lab_history.specs.Limits.{max_operations};

use super::earlier::Earlier;
use super::keys::{has_keys, items_at, text_at};
use super::operation::ops_of;
use crate::fault::{required, wrong};
use crate::file_version::FileVersion;
use crate::part::Part;
use lab_history::{FileFault, Limit, MAX_OPERATIONS, MAX_TRANSACTIONS, Outcome, Path, Txn, Txns};
use lab_table::TxnNo;
use serde_json::Value as Json;
use std::alloc::Global;

/// The number of a transaction.
fn number_of(json: &Json) -> Option<TxnNo>
    ensures { result ≡ txn_in_number (at_key (codes "no") (view json.now)) }
{
    TxnNo::from_json(json.get("no")?)
}

/// How a transaction ended.
fn outcome_of(json: &Json) -> Option<Outcome>
    ensures { result ≡ option_and_then outcome_named (as_str (at_key (codes "outcome") (view json.now))) }
{
    let text = text_at(json, "outcome")?;
    if text == "committed" {
        Some(Outcome::Committed)
    } else if text == "aborted" {
        Some(Outcome::Aborted)
    } else {
        None
    }
}

/// The transaction at a place behind the earlier ones.
#[tactic(auto, using(crate::proofs::Counts::too_many, crate::proofs::Counts::few_enough))]
fn transaction_of(
    alloc: Global,
    version: FileVersion,
    earlier: &Earlier,
    index: usize,
    json: &Json,
) -> Result<Txn, FileFault>
    ensures read { Gives (λ txn. txn) result (txn_in version earlier.now index (view json.now)) }
    ensures few { IfOk result (λ txn. length (operations earlier.now) + length txn.ops ≤ max_operations) }
{
    if !has_keys(json, &["no", "ops", "outcome"]) {
        return Err(wrong(Path::Transaction { txn: index }));
    }
    let no = required(number_of(json), Path::Number { txn: index })?;
    if earlier.has(no) {
        return Err(FileFault::RepeatedTxn { no });
    }
    let outcome = required(outcome_of(json), Path::Outcome { txn: index })?;
    let items = required(items_at(json, "ops"), Path::Operations { txn: index })?;
    if earlier.operations() + items.len() > MAX_OPERATIONS {
        return Err(FileFault::OverLimit {
            which: Limit::Operations,
        });
    }
    let ops = ops_of(alloc, version, index, no, items)?;
    Ok(Txn { no, outcome, ops })
}

/// The transactions of a history.
#[tactic(auto, using(crate::proofs::ItemsRead::item_read, crate::proofs::ItemsRead::item_fault, crate::proofs::ItemsRead::items_end, crate::proofs::Counts::items_count))]
pub fn txns_of(alloc: Global, version: FileVersion, json: &Json) -> Result<Txns, FileFault>
    ensures { Gives (λ txns. txns) result (txns_in version (at_key (codes "transactions") (view json.now))) }
{
    let items = required(items_at(json, "transactions"), Path::Transactions)?;
    if items.len() > MAX_TRANSACTIONS {
        return Err(FileFault::OverLimit {
            which: Limit::Transactions,
        });
    }
    let mut txns = Earlier::with_capacity(alloc, items.len())?;
    for (index, item) in items.iter().enumerate() {
        let txn = transaction_of(alloc, version, &txns, index, item)?;
        txns.push(txn)?;
    }
    Ok(txns.into_txns())
}
