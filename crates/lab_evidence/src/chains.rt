//! The versions of a row, in the order of their installation. Functions that take bytes append; on failure, a part of
//! the text may have been appended.

ghost use Rattle.std.specs.Prelude.{◌≡◌, ◌++◌, ◌≤◌, length, OnOk};
ghost use Rattle.lab_history.specs.Version.{installers, last_write, ops_of};
ghost use Rattle.lab_evidence.specs.Chains.{by_text, installed_text, next_text, versions_text, initial_text, left_before, front_text, left_behind, back_text, shown_installers, chain_from, chain_text};

use crate::markup::{bold_close, bold_open, put_op};
use crate::scope::Scope;
use crate::version_places::{is_either, lesser, start_at};
use lab_drawing::{installers_of, put_number, put_state, state_at};
use lab_explain::put_txn;
use lab_history::History;
use lab_table::{NoMemory, RowName, TxnNo};

/// The installers that are shown behind one another.
const MAX_VERSIONS: usize = 7;

/// Appends who installed a version.
fn put_by(
    out: &mut Vec<u8>,
    history: &History,
    scope: &Scope,
    row: RowName,
    txn: TxnNo,
) -> Result<(), NoMemory>
    ensures { OnOk result (out.new.items ≡ out.old.items ++ by_text history.now scope.now txn (last_write (ops_of history.now txn) row)) }
{
    out.extend_from_slice(b" by ")?;
    match history.last_write(txn, row) {
        None => put_txn(out, txn),
        Some(op) => put_op(out, history, scope, txn, op),
    }
}

/// Appends the version at a place that a transaction installed.
#[tactic(auto, unfolding(crate::specs::Chains::installed_text))]
fn put_installed(
    out: &mut Vec<u8>,
    history: &History,
    scope: &Scope,
    row: RowName,
    place: usize,
    txn: TxnNo,
) -> Result<(), NoMemory>
    ensures { OnOk result (out.new.items ≡ out.old.items ++ installed_text history.now scope.now row place txn) }
{
    put_state(out, state_at(history, row, place))?;
    put_by(out, history, scope, row, txn)
}

/// Appends the same behind an arrow, bold where it is asked for.
#[tactic(auto, unfolding(crate::specs::Chains::next_text))]
fn put_next(
    out: &mut Vec<u8>,
    history: &History,
    scope: &Scope,
    row: RowName,
    bold: bool,
    place: usize,
    txn: TxnNo,
) -> Result<(), NoMemory>
    ensures { OnOk result (out.new.items ≡ out.old.items ++ next_text history.now scope.now row bold place txn) }
{
    out.extend_from_slice(b" &rarr; ")?;
    out.extend_from_slice(bold_open(bold))?;
    put_installed(out, history, scope, row, place, txn)?;
    out.extend_from_slice(bold_close(bold))
}

/// Appends the versions of some installers, before which so many stand.
fn put_versions(
    out: &mut Vec<u8>,
    history: &History,
    scope: &Scope,
    row: RowName,
    first: Option<usize>,
    second: Option<usize>,
    before: usize,
    installers: &[TxnNo],
) -> Result<(), NoMemory>
    requires { (before ≤ 9223372036854775807) × (length installers.now ≤ 7) }
    ensures { OnOk result (out.new.items ≡ out.old.items ++ versions_text history.now scope.now row first second before installers.now) }
{
    let mut place = before;
    for txn in installers {
        place += 1;
        let bold = is_either(first, second, place);
        put_next(out, history, scope, row, bold, place, *txn)?;
    }
    Ok(())
}

/// Appends the initial version, bold where it is asked for.
#[tactic(auto, unfolding(crate::specs::Chains::initial_text))]
fn put_initial(
    out: &mut Vec<u8>,
    history: &History,
    row: RowName,
    bold: bool,
) -> Result<(), NoMemory>
    ensures { OnOk result (out.new.items ≡ out.old.items ++ initial_text history.now row bold) }
{
    out.extend_from_slice(bold_open(bold))?;
    put_state(out, state_at(history, row, 0))?;
    out.extend_from_slice(b" at first")?;
    out.extend_from_slice(bold_close(bold))
}

/// Appends how many versions stand before those that are shown.
#[tactic(auto, unfolding(crate::specs::Chains::left_before))]
fn put_left_before(out: &mut Vec<u8>, count: u64) -> Result<(), NoMemory>
    ensures { OnOk result (out.new.items ≡ out.old.items ++ left_before count) }
{
    put_number(out, count)?;
    out.extend_from_slice(b" more")
}

/// Appends what stands before the versions that are shown.
fn put_front(
    out: &mut Vec<u8>,
    history: &History,
    row: RowName,
    bold: bool,
    start: usize,
) -> Result<(), NoMemory>
    requires { start ≤ 9223372036854775807 }
    ensures { OnOk result (out.new.items ≡ out.old.items ++ front_text history.now row bold start) }
{
    if start == 0 {
        put_initial(out, history, row, bold)
    } else {
        put_left_before(out, start as u64 + 1)
    }
}

/// Appends how many stand behind them.
#[tactic(auto, unfolding(crate::specs::Chains::left_behind))]
fn put_left_behind(out: &mut Vec<u8>, count: u64) -> Result<(), NoMemory>
    ensures { OnOk result (out.new.items ≡ out.old.items ++ left_behind count) }
{
    out.extend_from_slice(b" &rarr; ")?;
    put_number(out, count)?;
    out.extend_from_slice(b" more")
}

fn put_back(out: &mut Vec<u8>, count: usize) -> Result<(), NoMemory>
    ensures { OnOk result (out.new.items ≡ out.old.items ++ back_text count) }
{
    if count == 0 {
        Ok(())
    } else {
        put_left_behind(out, count as u64)
    }
}

/// The installers that are shown behind so many.
fn shown_installers(start: usize, installers: &[TxnNo]) -> &[TxnNo]
    requires { start ≤ length installers.now }
    ensures value { result.now ≡ shown_installers start installers.now }
    ensures few { length result.now ≤ 7 }
{
    let (_, behind) = installers.split_at(start);
    &behind[..behind.len().min(MAX_VERSIONS)]
}

/// Appends the versions of a row behind so many installers.
#[tactic(auto, unfolding(crate::specs::Chains::chain_from))]
fn put_chain_from(
    out: &mut Vec<u8>,
    history: &History,
    scope: &Scope,
    row: RowName,
    first: Option<usize>,
    second: Option<usize>,
    start: usize,
) -> Result<(), NoMemory>
    requires { start ≤ length (installers history.now row) }
    ensures { OnOk result (out.new.items ≡ out.old.items ++ chain_from history.now scope.now row first second start) }
{
    let installers = installers_of(history, row);
    let count = installers.len();
    put_front(out, history, row, is_either(first, second, 0), start)?;
    let shown = shown_installers(start, installers);
    put_versions(out, history, scope, row, first, second, start, shown)?;
    put_back(out, (count - start).saturating_sub(MAX_VERSIONS))
}

/// Appends the versions of a row, with those at positions `first` and `second` in bold.
pub fn put_chain(
    out: &mut Vec<u8>,
    history: &History,
    scope: &Scope,
    row: RowName,
    first: Option<usize>,
    second: Option<usize>,
) -> Result<(), NoMemory>
    ensures { OnOk result (out.new.items ≡ out.old.items ++ chain_text history.now scope.now row first second) }
{
    let start = start_at(lesser(first, second)).min(installers_of(history, row).len());
    put_chain_from(out, history, scope, row, first, second, start)
}
