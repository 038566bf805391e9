//! Misplaced installers of a row.

ghost use Rattle.std.specs.Prelude.{◌≡◌, ◌++◌, OnOk};
ghost use Rattle.lab_history.specs.Version.{outcome_of, installers, is_at};
ghost use Rattle.lab_deps.specs.Soundness.{has_committed, is_writer};
ghost use Rattle.lab_drawing.specs.Installs.{is_left_out, first_left_out, wrong_at, first_wrong, misplaced_of, why_text, misplaced_text};

use crate::text::put_number;
use lab_history::{History, Outcome};
use lab_table::{NoMemory, RowName, TxnNo};

/// How a transaction is misplaced.
#[derive(Clone, Copy, Debug, PartialEq, Eq)]
pub enum Why {
    /// It committed a write of the row, but isn't an installer.
    Missing,
    /// It is an installer, but committed no write of the row.
    Unwritten,
    /// It is an installer more than once.
    Repeated,
}

/// A transaction that is misplaced among a row's installers.
#[derive(Clone, Copy, Debug, PartialEq, Eq)]
pub struct Misplaced {
    pub txn: TxnNo,
    pub why: Why,
}

/// Returns the transactions that installed a row, in order.
pub fn installers_of(history: &History, row: RowName) -> &[TxnNo]
    ensures { result.now ≡ installers history.now row }
{
    match history.installed().get(row) {
        None => &[],
        Some(found) => found.as_slice(),
    }
}

/// Returns the transaction that is misplaced among a row's installers: the first transaction of the file that committed
/// a write of the row but isn't an installer. If there is none, the first installer that committed no write of the row,
/// or occurs earlier too.
pub fn misplaced_of(history: &History, row: RowName) -> Option<Misplaced>
    ensures { result ≡ misplaced_of history.now row }
{
    if let Some(found) = first_left_out(history, row) {
        return Some(found);
    }
    first_wrong(history, row, installers_of(history, row))
}

/// The first transaction of the file that committed a write of a row and isn't among its installers.
fn first_left_out(history: &History, row: RowName) -> Option<Misplaced>
    ensures { result ≡ first_left_out history.now row history.now.txns }
{
    let txns = history.txns().as_slice();
    for txn in txns {
        if is_left_out(history, row, txn.no) {
            return Some(Misplaced {
                txn: txn.no,
                why: Why::Missing,
            });
        }
    }
    None
}

fn is_left_out(history: &History, row: RowName, txn: TxnNo) -> bool
    ensures { result ≡ is_left_out history.now row txn }
{
    is_writer(history, row, txn) && history.installer_place(row, txn).is_none()
}

/// Whether a transaction committed a write of a row.
fn is_writer(history: &History, row: RowName, txn: TxnNo) -> bool
    ensures { result ≡ is_writer history.now row txn }
{
    is_committed(history, txn) && history.last_write(txn, row).is_some()
}

/// Returns whether a transaction has committed.
pub fn is_committed(history: &History, txn: TxnNo) -> bool
    ensures { result ≡ has_committed (outcome_of history.now txn) }
{
    match history.txn(txn) {
        None => false,
        Some(found) => match found.outcome {
            Outcome::Aborted => false,
            Outcome::Committed => true,
        },
    }
}

/// What is wrong with the first of a row's installers with which something is.
fn first_wrong(history: &History, row: RowName, installers: &[TxnNo]) -> Option<Misplaced>
    ensures { result ≡ first_wrong history.now row 0 installers.now }
{
    for (index, txn) in installers.iter().enumerate() {
        if let Some(found) = wrong_at(history, row, index + 1, *txn) {
            return Some(found);
        }
    }
    None
}

/// What is wrong with an installer at a place, counted from 1.
fn wrong_at(history: &History, row: RowName, place: usize, txn: TxnNo) -> Option<Misplaced>
    ensures { result ≡ wrong_at history.now row place txn }
{
    if !is_writer(history, row, txn) {
        return Some(Misplaced {
            txn,
            why: Why::Unwritten,
        });
    }
    if is_at(history.installer_place(row, txn), place) {
        return None;
    }
    Some(Misplaced {
        txn,
        why: Why::Repeated,
    })
}

fn is_at(found: Option<usize>, place: usize) -> bool
    ensures { result ≡ is_at found place }
{
    match found {
        None => false,
        Some(other) => other == place,
    }
}

fn why_text(why: Why) -> &'static str
    ensures { result.now ≡ why_text why }
{
    match why {
        Why::Missing => "writer that isn't among the installers",
        Why::Unwritten => "installer that committed no write",
        Why::Repeated => "installer at more than one place",
    }
}

/// Appends which transaction is misplaced, and how.
pub fn put_misplaced(out: &mut Vec<u8>, found: Misplaced) -> Result<(), NoMemory>
    ensures { OnOk result (out.new.items ≡ out.old.items ++ misplaced_text found) }
{
    out.extend_from_slice(why_text(found.why).as_bytes())?;
    out.extend_from_slice(b": T")?;
    put_number(out, u64::from(found.txn.number()))
}
