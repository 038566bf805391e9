//! What a statement does to the rows that a transaction sees.

ghost use Rattle.std.specs.Prelude.{◌≡◌, ◌≢◌, T, false, ◌∷◌, [], IfOk, IfErr, IfSome, MatchOption};
ghost use Rattle.std.specs.FinMap as map;
ghost use Rattle.lab_table.specs.Row.{Row, row_cmp};
ghost use Rattle.lab_table.specs.Statement.{listed, written, fails};
ghost use Rattle.lab_history.specs.VersionName.{new_states};
ghost use Rattle.lab_history.specs.declared.operation.State.TheVariants.{Present};
ghost use Rattle.lab_engine.specs.Log.{Version};
ghost use Rattle.lab_engine.specs.EachRow.{with_row, each_row, value_rewritten};
ghost use Rattle.lab_engine.specs.EachRow as made;
ghost use Rattle.lab_engine.specs.Effect.{IsEffectFault};
ghost use Rattle.lab_engine.specs.Rules.{IsEffectOn};
ghost use Rattle.lab_engine.specs.Asker.{seen_in};
ghost use Rattle.lab_engine.specs.Overlay.{AreMatching};
ghost use Rattle.lab_engine.specs.declared.effect.EffectFault.TheVariants.{NoMemory};

use crate::asker::Asker;
use crate::reading::{rows_matching, view_seen};
use lab_history::{Rows, State, View, Writes};
use lab_table::{NoMemory, RowName, Statement, Value};
use std::alloc::{AllocError, Global};

/// What a statement saw, listed and wrote.
#[derive(Drop)]
pub struct Effect {
    /// The versions that it saw, but for the initial ones.
    pub view: View,
    /// The rows that it lists, with the values that it saw.
    pub rows: Rows,
    /// What it left of each row that it wrote.
    pub writes: Writes,
}

/// Why a statement didn't run.
#[derive(Clone, Copy, Debug, PartialEq, Eq)]
pub enum EffectFault {
    /// An allocation of memory was refused.
    NoMemory,
    /// The row that the insert adds is present.
    DuplicateKey { id: RowName },
    /// The update's result is out of range at this row, the least such.
    OutOfRange { id: RowName },
}

impl From<AllocError> for EffectFault {
    ghost use Rattle.std.specs.Prelude.{◌≡◌};
    ghost use Rattle.lab_engine.specs.declared.effect.EffectFault.TheVariants.{NoMemory};

    ghost from_gives = { λ _ fault. fault ≡ NoMemory };

    fn from(_: AllocError) -> EffectFault {
        EffectFault::NoMemory
    }
}

/// The rows that a statement lists, of those that match it: all, or none where it adds a row.
fn rows_of(alloc: Global, statement: &Statement, matching: Vec<(RowName, Value)>) -> Rows
    requires { T (map.is_sorted row_cmp matching.items) }
    ensures { (sees : Row → Version) → AreMatching statement.now sees matching.items → (row : Row) → map.get result row ≡ listed statement.now row (sees row).state }
{
    match statement.inserted() {
        Some(_) => Rows::new(Vec::new(alloc)),
        None => Rows::new(matching),
    }
}

/// The new state of a row that a statement lists with this value, if it writes what it lists.
/// Nothing where the result is out of range.
fn rewritten_value(statement: &Statement, value: Value) -> Option<State>
    ensures { result ≡ value_rewritten statement.now value }
{
    match statement.rewritten(value)? {
        None => Some(State::Absent),
        Some(value) => Some(State::Present(value)),
    }
}

fn state_at(statement: &Statement, entry: &(RowName, Value)) -> Option<(RowName, State)>
    ensures { result ≡ with_row entry.now.0 (value_rewritten statement.now entry.now.1) }
{
    let state = rewritten_value(statement, entry.1)?;
    Some((entry.0, state))
}

fn states(
    alloc: Global,
    statement: &Statement,
    matching: &[(RowName, Value)],
) -> Result<Vec<(RowName, State)>, NoMemory>
    ensures { IfOk result (λ v. v.items ≡ each_row (λ row value. value_rewritten statement.now value) matching.now) }
{
    matching
        .iter()
        .filter_map(|entry| state_at(statement, entry))
        .collect(alloc)
}

fn inserted(alloc: Global, id: RowName, value: Value) -> Result<Vec<(RowName, State)>, NoMemory>
    ensures { IfOk result (λ v. v.items ≡ (id, Present value) ∷ []) }
{
    let mut written = Vec::new(alloc);
    written.push((id, State::Present(value)))?;
    Ok(written)
}

/// What a statement that no row keeps from running writes.
/// An insert writes its row alone, which is absent.
fn written_states(
    alloc: Global,
    statement: &Statement,
    matching: &[(RowName, Value)],
) -> Result<Vec<(RowName, State)>, NoMemory>
    requires { T (map.is_sorted row_cmp matching.now) }
    ensures sorted { IfOk result (λ v. T (map.is_sorted row_cmp (new_states v.items))) }
    ensures found { (sees : Row → Version) → AreMatching statement.now sees matching.now → ((row : Row) → fails statement.now row (sees row).state ≡ false)
        → IfOk result (λ v. (row : Row) → map.find row_cmp row (new_states v.items) ≡ written statement.now row (sees row).state) }
{
    match statement.inserted() {
        Some((id, value)) => inserted(alloc, id, value),
        None => {
            if statement.is_read_only() {
                Ok(Vec::new(alloc))
            } else {
                states(alloc, statement, matching)
            }
        }
    }
}

fn writes_of(
    alloc: Global,
    statement: &Statement,
    matching: &[(RowName, Value)],
) -> Result<Writes, NoMemory>
    requires { T (map.is_sorted row_cmp matching.now) }
    ensures { (sees : Row → Version) → AreMatching statement.now sees matching.now → ((row : Row) → fails statement.now row (sees row).state ≡ false)
        → IfOk result (λ writes. (row : Row) → map.get writes row ≡ written statement.now row (sees row).state) }
{
    Ok(Writes::new(written_states(alloc, statement, matching)?))
}

fn first_failing(statement: &Statement, matching: &[(RowName, Value)]) -> Option<RowName>
    ensures { result ≡ made.first_failing statement.now matching.now }
{
    for entry in matching {
        if statement.fails_at(entry.0, Some(entry.1)) {
            return Some(entry.0);
        }
    }
    None
}

/// Why a statement can't run on what is seen, by the rows that match it, if it can't: that an insert's row is there, or
/// the first whose new value is out of range.
fn fault_of(statement: &Statement, matching: &[(RowName, Value)]) -> Option<EffectFault>
    ensures fault { (sees : Row → Version) → AreMatching statement.now sees matching.now
        → MatchOption result ((row : Row) → fails statement.now row (sees row).state ≡ false) (IsEffectFault sees statement.now) }
    ensures own { IfSome result (λ fault. fault ≢ NoMemory) }
{
    if statement.is_read_only() {
        return None;
    }
    let id = first_failing(statement, matching)?;
    if statement.is_update() {
        Some(EffectFault::OutOfRange { id })
    } else {
        Some(EffectFault::DuplicateKey { id })
    }
}

/// What a statement does to rows as an asker's transaction sees them. It is refused where a row that is seen keeps it from
/// running, or for want of memory.
pub fn effect_of(alloc: Global, asker: &Asker, statement: &Statement) -> Result<Effect, EffectFault>
    ensures ok { IfOk result (λ e. IsEffectOn (seen_in asker.now) statement.now e.view e.rows e.writes) }
    ensures fault { IfErr result (IsEffectFault (seen_in asker.now) statement.now) }
{
    let matching = rows_matching(alloc, asker, statement)?;
    if let Some(fault) = fault_of(statement, &matching) {
        return Err(fault);
    }
    let view = view_seen(alloc, asker)?;
    let writes = writes_of(alloc, statement, &matching)?;
    Ok(Effect {
        view,
        rows: rows_of(alloc, statement, matching),
        writes,
    })
}
