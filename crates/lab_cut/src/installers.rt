//! The installers of rows that stay.

ghost use Rattle.std.specs.Prelude.{◌≡◌, IfOk, None};
ghost use Rattle.lab_cut.specs.Cut as cut;
ghost use Rattle.lab_cut.specs.Kept.{kept_in};
ghost use Rattle.lab_cut.specs.MadeEntries.{made_entries};

use crate::kept::Moves;
use lab_history::{History, Installed, Installers};
use lab_table::{NoMemory, RowName, TxnNo};
use std::alloc::Global;

/// Whether a transaction goes from the installers of a row: it wrote the row and doesn't any more.
pub fn goes(history: &History, moves: &Moves, row: RowName, txn: TxnNo) -> bool
    ensures { result ≡ cut.goes (kept_in moves.now) history.now row txn }
{
    moves.last_left(txn, row).is_none() && history.last_write(txn, row).is_some()
}

/// Those that stay.
fn staying(
    alloc: Global,
    history: &History,
    moves: &Moves,
    row: RowName,
    installers: &[TxnNo],
) -> Result<Vec<TxnNo>, NoMemory>
    ensures { IfOk result (λ left. left.items ≡ cut.staying (kept_in moves.now) history.now row installers.now) }
{
    let mut left = Vec::new(alloc);
    for txn in installers {
        if !goes(history, moves, row, *txn) {
            left.push(*txn)?;
        }
    }
    Ok(left)
}

/// The last that stays, if one does.
pub fn last_staying(
    history: &History,
    moves: &Moves,
    row: RowName,
    installers: &[TxnNo],
) -> Option<TxnNo>
    ensures { result ≡ cut.last_staying (kept_in moves.now) history.now row None installers.now }
{
    let mut last = None;
    for txn in installers {
        if !goes(history, moves, row, *txn) {
            last = Some(*txn);
        }
    }
    last
}

/// The last of the first ones, which go, if the first does.
pub fn last_of_front(
    history: &History,
    moves: &Moves,
    row: RowName,
    installers: &[TxnNo],
) -> Option<TxnNo>
    ensures { result ≡ cut.last_of_front (cut.goes (kept_in moves.now) history.now row) None installers.now }
{
    let mut last = None;
    for txn in installers {
        if !goes(history, moves, row, *txn) {
            return last;
        }
        last = Some(*txn);
    }
    last
}

/// A list of installers, if it has one.
#[tactic(auto, using(crate::proofs::Lists::no_installer, crate::proofs::Lists::some_installer))]
fn if_any(installers: Installers) -> Option<Installers>
    ensures { result ≡ cut.if_any installers }
{
    if installers.as_slice().is_empty() {
        None
    } else {
        Some(installers)
    }
}

/// The rows of a list with their installers that stay, but for those that have none.
fn left_lists(
    alloc: Global,
    history: &History,
    moves: &Moves,
    entries: &[(RowName, Installers)],
) -> Result<Vec<(RowName, Installers)>, NoMemory>
    ensures { IfOk result (λ left. left.items ≡ made_entries (cut.left_list (kept_in moves.now) history.now) entries.now) }
{
    let mut left = Vec::with_capacity(alloc, entries.len())?;
    for (row, installers) in entries {
        let staying = staying(alloc, history, moves, *row, installers.as_slice())?;
        if let Some(staying) = if_any(Installers::new(staying)) {
            left.push((*row, staying))?;
        }
    }
    Ok(left)
}

/// The installers of each row that stay.
pub fn left_installed(
    alloc: Global,
    history: &History,
    moves: &Moves,
) -> Result<Installed, NoMemory>
    ensures { IfOk result (λ left. left ≡ cut.left_installed (kept_in moves.now) history.now) }
{
    let left = left_lists(alloc, history, moves, history.installed().entries())?;
    Ok(Installed::new(left))
}
