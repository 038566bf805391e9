//! Builds histories from their parts, and checks limits and rules.

ghost use Rattle.std.specs.Prelude.{◌≡◌, ◌≢◌, ◌⊎◌, ◌<◌, ◌≤◌, [], length, Ok, Err, IfOk, IfErr};
ghost use Rattle.lab_history.specs.HistoryRules.{Keeps};
ghost use Rattle.lab_history.specs.Limits.{max_operations};
ghost use Rattle.lab_history.specs.Faults.{Gives};
ghost use Rattle.lab_history.specs.WithinLimits.{within_limits, limited};
ghost use Rattle.lab_history.specs.PartsFault.{IsPartsFault};
ghost use Rattle.lab_history.specs.FirstPartsFault.{statement_prints, listed_from, op_checked, ops_checked, txns_checked, installed_checked, checked};
ghost use Rattle.lab_history.specs.HistoryRules as rules;
ghost use Rattle.lab_history.specs.declared.fault.FileFault.TheVariants as fault;
ghost use Rattle.lab_history.specs.declared.path.Path.TheVariants as path;

use crate::fault::{FileFault, Limit};
use crate::history::History;
use crate::limits::{MAX_OPERATIONS, MAX_TRANSACTIONS, check_limits};
use crate::operation::{Op, VersionName};
use crate::parts::Parts;
use crate::path::{ListPlace, Path};
use crate::transaction::{Installers, Txn};
use lab_printing::check_statement;
use lab_table::{RowName, Statement, TxnNo};
use std::alloc::Global;
use std::collections::BTreeSet;

impl History {
    /// Returns the history of these parts. Fails with the first fault, in the order in which a file is checked, and
    /// returns the parts with it. `NoMemory` can take the place of any other result.
    pub fn from_parts(alloc: Global, parts: Parts) -> Result<History, (Parts, FileFault)>
        ensures found { IfOk result (λ history. (history ≡ parts) × (checked parts ≡ Ok tt)) }
        ensures back { IfErr result (λ refused. refused.0 ≡ parts) }
        ensures fault { IfErr result (λ refused. (refused.1 ≡ FileFault.NoMemory) ⊎ (checked parts ≡ Err refused.1)) }
        // A history comes exactly where the parts keep the rules of its type.
        ensures keeps { IfOk result (λ history. Keeps parts) }
        ensures only { IfErr result (λ refused. refused.1 ≢ FileFault.NoMemory → (Keeps parts → ⊥)) }
        // What the fault names is so.
        ensures truth { IfErr result (λ refused. refused.1 ≢ FileFault.NoMemory → IsPartsFault parts refused.1) }
    {
        match check_parts(alloc, &parts) {
            Ok(()) => match History::assembled(alloc, parts) {
                Ok(history) => Ok(history),
                Err(parts) => Err((parts, FileFault::NoMemory)),
            },
            Err(fault) => Err((parts, fault)),
        }
    }

    /// Returns the history of these parts, or the first limit on tables, rows or entries that they exceed. The caller
    /// must know the other rules of a history to hold, as the reader of files does. `NoMemory` can take the place of
    /// any other result.
    pub fn within_limits(alloc: Global, parts: Parts) -> Result<History, FileFault>
        requires { within_limits parts ≡ Ok tt → Keeps parts }
        ensures { Gives (λ history. history) result (limited parts) }
    {
        check_limits(alloc, &parts)?;
        match History::assembled(alloc, parts) {
            Ok(history) => Ok(history),
            Err(_) => Err(FileFault::NoMemory),
        }
    }
}

/// The first fault of the parts, in the order of a file's walk.
fn check_parts(alloc: Global, parts: &Parts) -> Result<(), FileFault>
    ensures { Gives (λ _. tt) result (checked parts.now) }
{
    let txns = parts.txns.as_slice();
    if txns.len() > MAX_TRANSACTIONS {
        return Err(FileFault::OverLimit {
            which: Limit::Transactions,
        });
    }
    check_txns(alloc, txns)?;
    check_installed(parts.installed.entries())?;
    check_limits(alloc, parts)
}

/// Their numbers are distinct, the operations of all together are within the limit, and each operation is sound.
fn check_txns(alloc: Global, txns: &[Txn]) -> Result<(), FileFault>
    ensures { Gives (λ _. tt) result (txns_checked [] 0 txns.now) }
{
    let mut numbers = BTreeSet::new(alloc);
    let mut operations = 0;
    for (index, txn) in txns.iter().enumerate() {
        if !numbers.insert(txn.no)? {
            return Err(FileFault::RepeatedTxn { no: txn.no });
        }
        let ops = txn.ops.as_slice();
        if ops.len() > MAX_OPERATIONS - operations {
            return Err(FileFault::OverLimit {
                which: Limit::Operations,
            });
        }
        operations += ops.len();
        check_ops(index, txn.no, ops)?;
    }
    Ok(())
}

/// The operations of the transaction at a place, which has this number.
fn check_ops(txn: usize, by: TxnNo, ops: &[Op]) -> Result<(), FileFault>
    requires { length ops.now ≤ max_operations }
    ensures { result ≡ ops_checked txn by 0 ops.now }
{
    for (index, op) in ops.iter().enumerate() {
        check_op(txn, by, index, op)?;
    }
    Ok(())
}

/// Its statement prints, and its view lists versions that a file can hold.
fn check_op(txn: usize, by: TxnNo, index: usize, op: &Op) -> Result<(), FileFault>
    requires { index < max_operations }
    ensures { result ≡ op_checked txn by index op.now }
{
    if !prints(&op.statement) {
        return Err(FileFault::BadStatement {
            txn: by,
            op: index as u32 + 1,
        });
    }
    check_view(ListPlace::View { txn, op: index }, op.view.entries())
}

fn prints(statement: &Statement) -> bool
    ensures { result ≡ statement_prints statement.now }
{
    check_statement(statement).is_ok()
}

fn check_view(place: ListPlace, entries: &[(RowName, VersionName)]) -> Result<(), FileFault>
    ensures { result ≡ listed_from place 0 entries.now }
{
    for (index, entry) in entries.iter().enumerate() {
        if !is_listed(entry.1) {
            return Err(wrong_member(place, index));
        }
    }
    Ok(())
}

/// Whether a view may list a version.
fn is_listed(version: VersionName) -> bool
    ensures { result ≡ rules.is_listed version }
{
    match version {
        VersionName::Initial => false,
        VersionName::Of { op, .. } => 1 <= op && op as usize <= MAX_OPERATIONS,
    }
}

fn check_installed(entries: &[(RowName, Installers)]) -> Result<(), FileFault>
    ensures { result ≡ installed_checked 0 entries.now }
{
    for (index, entry) in entries.iter().enumerate() {
        if entry.1.as_slice().is_empty() {
            return Err(wrong_member(ListPlace::Installed, index));
        }
    }
    Ok(())
}

fn wrong_member(place: ListPlace, index: usize) -> FileFault
    ensures { result ≡ fault.WrongFormat (path.Member place index) }
{
    FileFault::WrongFormat {
        path: Path::Member { list: place, index },
    }
}
