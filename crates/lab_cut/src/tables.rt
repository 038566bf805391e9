//! The initial and final tables of a part.

ghost use Rattle.std.specs.Prelude.{◌≡◌, [], ◌++◌, None, Some, MatchOption, IfOk, OnOk, option_map};
ghost use Rattle.std.specs.FinMap as map;
ghost use Rattle.lab_table.specs.Table.{overwritten};
ghost use Rattle.lab_history.specs.VersionName.{new_states, state_value};
ghost use Rattle.lab_cut.specs.Cut as cut;
ghost use Rattle.lab_cut.specs.Kept.{kept_in};
ghost use Rattle.lab_cut.specs.MadeEntries.{with_value, made_entries};
ghost use Rattle.lab_cut.specs.Overlaid as overlaid;

use crate::installers::{last_of_front, last_staying};
use crate::kept::Moves;
use lab_history::{History, Installers, State, VersionName, Writes};
use lab_table::{ByRow, NoMemory, RowName, Table, TxnNo, Value};
use std::alloc::Global;

/// The state of a row by this operation of a transaction; absent where there is none.
fn state_by(history: &History, row: RowName, txn: TxnNo, operation: Option<u32>) -> State
    ensures { state_value result ≡ cut.state_by history.now row txn operation }
{
    let Some(op) = operation else {
        return State::Absent;
    };
    match history.version_state(row, VersionName::Of { txn, op }) {
        Some(state) => state,
        None => State::Absent,
    }
}

/// The state that the last of a row's first installers left, where these go.
fn base(history: &History, moves: &Moves, row: RowName, installers: &[TxnNo]) -> Option<State>
    ensures value { option_map state_value result ≡ cut.base (kept_in moves.now) history.now row installers.now }
    ensures cases { MatchOption result (cut.base (kept_in moves.now) history.now row installers.now ≡ None) (λ state. cut.base (kept_in moves.now) history.now row installers.now ≡ Some (state_value state)) }
{
    let txn = last_of_front(history, moves, row, installers)?;
    Some(state_by(history, row, txn, history.last_write(txn, row)))
}

/// Appends a row with its new state, if it has one.
#[tactic(auto, using(crate::proofs::Steps::new_states_push))]
fn push_state(
    list: &mut Vec<(RowName, State)>,
    row: RowName,
    state: Option<State>,
) -> Result<(), NoMemory>
    ensures { OnOk result (new_states list.new.items ≡ new_states list.old.items ++ with_value row (option_map state_value state) []) }
{
    let Some(state) = state else {
        return Ok(());
    };
    list.push((row, state))?;
    Ok(())
}

/// The rows of a list whose first installers go, with those states.
fn bases_of(
    alloc: Global,
    history: &History,
    moves: &Moves,
    entries: &[(RowName, Installers)],
) -> Result<Vec<(RowName, State)>, NoMemory>
    ensures { IfOk result (λ bases. new_states bases.items ≡ made_entries (cut.base (kept_in moves.now) history.now) entries.now) }
{
    let mut bases = Vec::new(alloc);
    for (row, installers) in entries {
        let state = base(history, moves, *row, installers.as_slice());
        push_state(&mut bases, *row, state)?;
    }
    Ok(bases)
}

/// The rows whose first installers go, with those states.
fn bases(alloc: Global, history: &History, moves: &Moves) -> Result<Writes, NoMemory>
    ensures { IfOk result (λ bases. bases ≡ cut.bases (kept_in moves.now) history.now) }
{
    let bases = bases_of(alloc, history, moves, history.installed().entries())?;
    Ok(Writes::new(bases))
}

/// The new state of a row in the end, or None where its last version is kept.
fn new_end(
    history: &History,
    moves: &Moves,
    initial: &Table,
    row: RowName,
    installers: &[TxnNo],
) -> Option<State>
    requires { initial.now ≡ cut.left_initial (kept_in moves.now) history.now }
    ensures value { option_map state_value result ≡ cut.new_end (kept_in moves.now) history.now row installers.now }
    ensures cases { MatchOption result (cut.new_end (kept_in moves.now) history.now row installers.now ≡ None) (λ state. cut.new_end (kept_in moves.now) history.now row installers.now ≡ Some (state_value state)) }
{
    let last = *installers.last()?;
    if moves.last_left(last, row) == history.last_write(last, row) {
        return None;
    }
    let state = match last_staying(history, moves, row, installers) {
        Some(txn) => state_by(history, row, txn, moves.last_left(txn, row)),
        None => state_in(initial, row),
    };
    Some(state)
}

/// The state of a row in a table.
fn state_in(table: &Table, row: RowName) -> State
    ensures { state_value result ≡ map.get table.now row }
{
    match table.get(row) {
        Some(value) => State::Present(value),
        None => State::Absent,
    }
}

/// The rows of a list whose last versions go, with their new states in the end.
fn ends_of(
    alloc: Global,
    history: &History,
    moves: &Moves,
    initial: &Table,
    entries: &[(RowName, Installers)],
) -> Result<Vec<(RowName, State)>, NoMemory>
    requires { initial.now ≡ cut.left_initial (kept_in moves.now) history.now }
    ensures { IfOk result (λ ends. new_states ends.items ≡ made_entries (cut.new_end (kept_in moves.now) history.now) entries.now) }
{
    let mut ends = Vec::new(alloc);
    for (row, installers) in entries {
        let state = new_end(history, moves, initial, *row, installers.as_slice());
        push_state(&mut ends, *row, state)?;
    }
    Ok(ends)
}

/// The rows whose last versions go, with their new states in the end.
fn new_ends(
    alloc: Global,
    history: &History,
    moves: &Moves,
    initial: &Table,
) -> Result<Writes, NoMemory>
    requires { initial.now ≡ cut.left_initial (kept_in moves.now) history.now }
    ensures { IfOk result (λ ends. ends ≡ cut.new_ends (kept_in moves.now) history.now) }
{
    let ends = ends_of(
        alloc,
        history,
        moves,
        initial,
        history.installed().entries(),
    )?;
    Ok(Writes::new(ends))
}

/// The value of a row in a state, if it is present.
fn value_in(state: State) -> Option<Value>
    ensures { result ≡ state_value state }
{
    match state {
        State::Absent => None,
        State::Present(value) => Some(value),
    }
}

/// The new value of a row that had this one, if it is present.
fn new_value(states: &Writes, row: RowName, value: Value) -> Option<Value>
    ensures { result ≡ overlaid.new_value (map.get states.now row) value }
{
    match states.get(row) {
        None => Some(value),
        Some(state) => value_in(state),
    }
}

/// The rows of a list with the new states of those that are present in both.
fn kept_rows(
    alloc: Global,
    entries: &[(RowName, Value)],
    states: &Writes,
) -> Result<Vec<(RowName, Value)>, NoMemory>
    ensures { IfOk result (λ rows. rows.items ≡ overlaid.kept_rows states.now entries.now) }
{
    let mut rows = Vec::with_capacity(alloc, entries.len())?;
    for (row, value) in entries {
        if let Some(value) = new_value(states, *row, *value) {
            rows.push((*row, value))?;
        }
    }
    Ok(rows)
}

/// Gives rows those of these states in which they are present.
fn put_present(rows: &mut ByRow<Value>, states: &[(RowName, State)]) -> Result<(), NoMemory>
    ensures { OnOk result (rows.new ≡ overlaid.put_present rows.old (new_states states.now)) }
{
    for (row, state) in states {
        if let Some(value) = value_in(*state) {
            rows.put(*row, value)?;
        }
    }
    Ok(())
}

/// Returns a copy of `table` with these rows in new states.
fn with_states(alloc: Global, table: &Table, states: &Writes) -> Result<Table, NoMemory>
    ensures { IfOk result (λ made. made ≡ overwritten states.now table.now) }
{
    let kept = kept_rows(alloc, table.rows(), states)?;
    let mut rows = ByRow::from_rising(kept);
    put_present(&mut rows, states.entries())?;
    Ok(Table::from_rising(rows.take(alloc)))
}

/// The table before the operations that are kept.
pub fn left_initial(alloc: Global, history: &History, moves: &Moves) -> Result<Table, NoMemory>
    ensures { IfOk result (λ initial. initial ≡ cut.left_initial (kept_in moves.now) history.now) }
{
    with_states(alloc, history.initial(), &bases(alloc, history, moves)?)
}

/// The table behind them, by the one before them.
pub fn left_end(
    alloc: Global,
    history: &History,
    moves: &Moves,
    initial: &Table,
) -> Result<Table, NoMemory>
    requires { initial.now ≡ cut.left_initial (kept_in moves.now) history.now }
    ensures { IfOk result (λ end. end ≡ cut.left_end (kept_in moves.now) history.now) }
{
    let ends = new_ends(alloc, history, moves, initial)?;
    with_states(alloc, history.end_table(), &ends)
}
