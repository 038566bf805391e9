//! What an entry of a cell tells of its row. Functions that take bytes append; on failure, a part of the text may have
//! been appended.

ghost use Rattle.std.specs.Prelude.{◌≡◌, ◌++◌, option_map, OnOk};
ghost use Rattle.lab_history.specs.VersionName.{state_value};
ghost use Rattle.lab_evidence.specs.Cells.{known_text, whose_text, seen_text, held_text, told_text};

use crate::entries::Told;
use crate::markup::{put_op, put_row};
use crate::scope::Scope;
use lab_deps::value_of;
use lab_drawing::put_state;
use lab_history::{History, State, VersionName};
use lab_table::{NoMemory, RowName, Value};
use std::alloc::Global;

/// Appends a version's state.
fn put_known(out: &mut Vec<u8>, state: Option<State>) -> Result<(), NoMemory>
    ensures { OnOk result (out.new.items ≡ out.old.items ++ known_text (option_map state_value state)) }
{
    match state {
        None => out.extend_from_slice(b"no such version"),
        Some(state) => put_state(out, value_of(state)),
    }
}

/// Appends whose version it is.
fn put_whose(
    out: &mut Vec<u8>,
    history: &History,
    scope: &Scope,
    version: &VersionName,
) -> Result<(), NoMemory>
    ensures { OnOk result (out.new.items ≡ out.old.items ++ whose_text history.now scope.now version.now) }
{
    match version {
        VersionName::Initial => out.extend_from_slice(b" at first"),
        VersionName::Of { txn, op } => {
            out.extend_from_slice(b" by ")?;
            put_op(out, history, scope, *txn, *op)
        }
    }
}

/// Appends a version of a row that was seen.
#[tactic(auto, unfolding(crate::specs::Cells::seen_text))]
fn put_seen(
    alloc: Global,
    out: &mut Vec<u8>,
    history: &History,
    scope: &Scope,
    row: RowName,
    version: &VersionName,
) -> Result<(), NoMemory>
    ensures { OnOk result (out.new.items ≡ out.old.items ++ seen_text history.now scope.now row version.now) }
{
    out.extend_from_slice(b"row ")?;
    put_row(alloc, out, row)?;
    out.extend_from_slice(b" as ")?;
    put_known(out, history.version_state(row, *version))?;
    put_whose(out, history, scope, version)
}

/// Appends a row and its state.
#[tactic(auto, unfolding(crate::specs::Cells::held_text))]
fn put_held(
    alloc: Global,
    out: &mut Vec<u8>,
    row: RowName,
    state: Option<Value>,
) -> Result<(), NoMemory>
    ensures { OnOk result (out.new.items ≡ out.old.items ++ held_text row state) }
{
    out.extend_from_slice(b"(")?;
    put_row(alloc, out, row)?;
    out.extend_from_slice(b", ")?;
    put_state(out, state)?;
    out.extend_from_slice(b")")
}

/// Appends what is told of a row.
pub fn put_told(
    alloc: Global,
    out: &mut Vec<u8>,
    history: &History,
    scope: &Scope,
    row: RowName,
    told: &Told,
) -> Result<(), NoMemory>
    ensures { OnOk result (out.new.items ≡ out.old.items ++ told_text history.now scope.now row told.now) }
{
    match told {
        Told::Seen(version) => put_seen(alloc, out, history, scope, row, version),
        Told::Held(state) => put_held(alloc, out, row, *state),
    }
}
