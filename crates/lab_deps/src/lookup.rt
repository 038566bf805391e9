//! Look-ups in a history that begin where what they look for is likely to stand.

ghost use Rattle.std.specs.Prelude.{◌≡◌, true, None, not, is_none, drop, option_map};
ghost use Rattle.std.specs.Option.{option_copied};
ghost use Rattle.std.specs.List.{list_all};
ghost use Rattle.std.specs.FinMap as map;
ghost use Rattle.lab_table.specs.Row.{row_test};
ghost use Rattle.lab_history.specs.Version.{find_txn, op_at, version_state, last_write, new_state, ops_of, WritesAt, is_at};
ghost use Rattle.lab_history.specs.VersionName.{state_value};
ghost use Rattle.lab_deps.specs.Fine.{is_last};

use crate::near::{likely_place, value_near};
use lab_history::{Hint, History, Op, Outcome, State, Txn, VersionName};
use lab_table::{RowName, TxnNo, Value};
use std::cell::Cell;

/// Where the next look-ups are likely to find what they look for.
#[derive(Clone, Copy)]
pub struct Hints {
    /// The places of a reader among installers.
    pub own: Hint,
    /// The places of those whose versions it sees.
    pub seen: Hint,
    /// Last writes.
    pub last: Hint,
    /// The place of a row among what an operation writes, or the one behind it.
    pub written: usize,
}

impl Hints {
    /// The hints for the first look-ups.
    pub fn new() -> Hints {
        Hints {
            own: Hint::new(),
            seen: Hint::new(),
            last: Hint::new(),
            written: 0,
        }
    }
}

/// Where the next rows of an operation are looked for first. The tests of its rows share it.
#[derive(Drop)]
pub struct Near {
    /// Among those that it lists.
    pub listed: Cell<usize>,
    /// Among those that it sees.
    pub seen: Cell<usize>,
    /// Among those that it writes, or that the operations write whose versions it sees.
    pub written: Cell<usize>,
    /// Among those of the initial table.
    pub initial: Cell<usize>,
}

impl Near {
    /// Where the first rows are looked for.
    pub fn new() -> Near {
        Near {
            listed: Cell::new(0),
            seen: Cell::new(0),
            written: Cell::new(0),
            initial: Cell::new(0),
        }
    }
}

/// The transaction with this number, if there is one. Where numbers follow each other it is looked for by its own.
pub fn txn_of(history: &History, number: TxnNo) -> Option<&Txn>
    ensures { option_copied result ≡ find_txn history.now.txns number }
{
    let txns = history.txns().as_slice();
    if let Some(first) = txns.first() {
        let place = number.number().wrapping_sub(first.no.number()) as usize;
        if let Some(found) = txns.get(place) {
            if found.no == number {
                return Some(found);
            }
        }
    }
    history.txn(number)
}

/// What a version of a row is, or None where there is no such version.
pub fn version_state(history: &History, row: RowName, version: VersionName) -> Option<State>
    ensures { option_map state_value result ≡ version_state history.now row version }
{
    let mut near = 0;
    version_state_near(history, row, version, &mut near)
}

/// The same, where the row is looked for at a place of what the version's operation writes first, and at the one before.
/// The place is then the one behind the row's.
pub fn version_state_near(
    history: &History,
    row: RowName,
    version: VersionName,
    near: &mut usize,
) -> Option<State>
    ensures { option_map state_value result ≡ version_state history.now row version }
{
    match version {
        VersionName::Initial => history.version_state(row, version),
        VersionName::Of { txn, op } => {
            let found = txn_of(history, txn)?;
            written_near(op_of(found.ops.as_slice(), op)?, row, near)
        }
    }
}

/// What an operation lists of a row, looked for at a place first, which is then where a greater row is looked for.
pub fn listed_near(op: &Op, row: RowName, near: &Cell<usize>) -> Option<Value>
    ensures { result ≡ map.get op.now.rows row }
{
    let found = value_near(op.rows.entries(), near.get(), row);
    near.set(found.1);
    found.0
}

/// The version that an operation sees of a row, looked for in the same way.
pub fn seen_near(op: &Op, row: RowName, near: &Cell<usize>) -> Option<VersionName>
    ensures { result ≡ map.get op.now.view row }
{
    let found = value_near(op.view.entries(), near.get(), row);
    near.set(found.1);
    found.0
}

/// The value of a row in the initial table, looked for where it is likely to stand.
pub fn initial_near(history: &History, row: RowName, near: &Cell<usize>) -> Option<Value>
    ensures { result ≡ map.get history.now.initial row }
{
    let initial = history.initial().rows();
    let found = value_near(initial, likely_place(initial, near.get(), row), row);
    near.set(found.1);
    found.0
}

/// What an operation writes to a row, looked for at a place first, and at the one before.
pub fn written_near(op: &Op, row: RowName, near: &mut usize) -> Option<State>
    ensures { option_map state_value result ≡ map.get op.now.writes row }
{
    let entries = op.writes.entries();
    let found = value_near(entries, nearer(entries, *near, row), row);
    *near = found.1;
    found.0
}

/// The place before this one, where the row stands there; else this.
fn nearer<V>(entries: &[(RowName, V)], place: usize, row: RowName) -> usize {
    let last = place.wrapping_sub(1);
    match entries.get(last) {
        None => place,
        Some(entry) => { if entry.0 == row { last } else { place } }
    }
}

/// The operation with this number.
pub fn op_of(ops: &[Op], number: u32) -> Option<&Op>
    ensures { option_copied result ≡ op_at ops.now number }
{
    ops.get(number.checked_sub(1)? as usize)
}

/// Whether an operation of a committed transaction is found to be the transaction's last that writes a row.
pub fn is_last(history: &History, txn: TxnNo, op: u32, row: RowName, hints: &mut Hints) -> bool
    ensures { result ≡ true → is_last history.now txn op row ≡ true }
{
    match txn_of(history, txn) {
        None => false,
        Some(found) => match found.outcome {
            Outcome::Aborted => false,
            Outcome::Committed => is_last_of(history, txn, found.ops.as_slice(), op, row, hints),
        },
    }
}

/// The same of a transaction with these operations.
fn is_last_of(
    history: &History,
    txn: TxnNo,
    ops: &[Op],
    op: u32,
    row: RowName,
    hints: &mut Hints,
) -> bool
    requires { ops_of history.now txn ≡ ops.now }
    ensures { result ≡ true → is_at (last_write ops.now row) op ≡ true }
{
    if none_follows(ops, op, row) {
        writes_at(ops, op, row, &mut hints.written)
    } else {
        is_number(history.last_write_near(txn, row, &mut hints.last), op)
    }
}

/// Whether operations behind the one with this number are found not to write a row. They are looked at where they are few:
/// that costs less than to halve.
fn none_follows(ops: &[Op], number: u32, row: RowName) -> bool
    ensures { result ≡ true → last_write (drop number ops.now) row ≡ None }
{
    let number = number as usize;
    if number > ops.len() || ops.len() - number > 8 {
        return false;
    }
    none_writes(ops.split_at(number).1, row)
}

/// Whether operations are found not to write a row.
fn none_writes(ops: &[Op], row: RowName) -> bool
    ensures { result ≡ true → last_write ops.now row ≡ None }
{
    for op in ops {
        if !writes_few_others(op, row) {
            return false;
        }
    }
    true
}

/// Whether an operation is found not to write a row: it writes few, and all are others.
fn writes_few_others(op: &Op, row: RowName) -> bool
    ensures { result ≡ true → is_none (new_state op.now row) ≡ true }
{
    let entries = op.writes.entries();
    entries.len() <= 4 && lacks(entries, row)
}

/// Whether none of these entries is of a row.
fn lacks(entries: &[(RowName, State)], row: RowName) -> bool
    ensures { result ≡ list_all (λ e. not (row_test row e.0)) entries.now }
{
    entries.iter().all(|entry| row != entry.0)
}

/// Whether the operation with this number writes a row.
fn writes_at(ops: &[Op], number: u32, row: RowName, near: &mut usize) -> bool
    ensures { result ≡ true → WritesAt ops.now number row }
{
    match op_of(ops, number) {
        None => false,
        Some(op) => written_near(op, row, near).is_some(),
    }
}

fn is_number(found: Option<u32>, number: u32) -> bool
    ensures { result ≡ is_at found number }
{
    match found {
        None => false,
        Some(other) => other == number,
    }
}
