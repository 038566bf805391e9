//! What stands below a step of a cycle: its operations, and the versions of its row. Functions that take bytes append;
//! on failure, a part of the text may have been appended.

ghost use Rattle.std.specs.Prelude.{◌≡◌, ◌++◌, OnOk};
ghost use Rattle.lab_drawing.specs.Making.{arrow_of};
ghost use Rattle.lab_page.specs.Why.{ends_text, step_chain, below_ends, below_row, below_head, below_text, below_by};

use crate::tags::{chain_open, row_open, versions_open};
use lab_deps::{Edge, Kind};
use lab_drawing::{Arrow, arrow_of};
use lab_evidence::{Scope, asked_place, first_did, put_chain, put_op, put_row, second_did};
use lab_history::History;
use lab_table::{NoMemory, RowName};
use std::alloc::Global;

/// Appends the operations that make a dependency.
#[tactic(auto, unfolding(crate::specs::Why::ends_text))]
fn put_ends(
    out: &mut Vec<u8>,
    history: &History,
    scope: &Scope,
    arrow: &Arrow,
) -> Result<(), NoMemory>
    ensures { OnOk result (out.new.items ≡ out.old.items ++ ends_text history.now scope.now arrow.now) }
{
    put_op(out, history, scope, arrow.from.txn, arrow.from.op)?;
    out.extend_from_slice(b" and ")?;
    put_op(out, history, scope, arrow.to.txn, arrow.to.op)
}

/// Appends the versions of a row, those in question bold.
fn put_step_chain(
    out: &mut Vec<u8>,
    history: &History,
    scope: &Scope,
    kind: Kind,
    arrow: &Arrow,
) -> Result<(), NoMemory>
    ensures { OnOk result (out.new.items ≡ out.old.items ++ step_chain history.now scope.now kind arrow.now) }
{
    let first = asked_place(history, arrow.row, arrow.from, first_did(kind));
    let second = asked_place(history, arrow.row, arrow.to, second_did(kind));
    put_chain(out, history, scope, arrow.row, first, second)
}

/// Appends the operations that make a dependency.
#[tactic(auto, unfolding(crate::specs::Why::below_ends))]
fn put_below_ends(
    out: &mut Vec<u8>,
    history: &History,
    scope: &Scope,
    arrow: &Arrow,
) -> Result<(), NoMemory>
    ensures { OnOk result (out.new.items ≡ out.old.items ++ below_ends history.now scope.now arrow.now) }
{
    out.extend_from_slice(chain_open())?;
    put_ends(out, history, scope, arrow)
}

/// Appends its row, before the versions of that.
#[tactic(auto, unfolding(crate::specs::Why::below_row))]
fn put_below_row(alloc: Global, out: &mut Vec<u8>, row: RowName) -> Result<(), NoMemory>
    ensures { OnOk result (out.new.items ≡ out.old.items ++ below_row row) }
{
    out.extend_from_slice(row_open())?;
    put_row(alloc, out, row)?;
    out.extend_from_slice(versions_open())
}

/// Appends both.
#[tactic(auto, unfolding(crate::specs::Why::below_head))]
fn put_below_head(
    alloc: Global,
    out: &mut Vec<u8>,
    history: &History,
    scope: &Scope,
    arrow: &Arrow,
) -> Result<(), NoMemory>
    ensures { OnOk result (out.new.items ≡ out.old.items ++ below_head history.now scope.now arrow.now) }
{
    put_below_ends(out, history, scope, arrow)?;
    put_below_row(alloc, out, arrow.row)
}

/// Appends what stands below a step.
#[tactic(auto, unfolding(crate::specs::Why::below_text))]
fn put_below(
    alloc: Global,
    out: &mut Vec<u8>,
    history: &History,
    scope: &Scope,
    kind: Kind,
    arrow: &Arrow,
) -> Result<(), NoMemory>
    ensures { OnOk result (out.new.items ≡ out.old.items ++ below_text history.now scope.now kind arrow.now) }
{
    put_below_head(alloc, out, history, scope, arrow)?;
    put_step_chain(out, history, scope, kind, arrow)?;
    out.extend_from_slice(b"</p>")
}

/// Appends what stands below the step of a dependency.
pub fn put_below_edge(
    alloc: Global,
    out: &mut Vec<u8>,
    history: &History,
    scope: &Scope,
    edge: &Edge,
) -> Result<(), NoMemory>
    ensures { OnOk result (out.new.items ≡ out.old.items ++ below_by history.now scope.now edge.now.kind (arrow_of history.now edge.now)) }
{
    match arrow_of(history, edge) {
        None => Ok(()),
        Some(arrow) => put_below(alloc, out, history, scope, edge.kind, &arrow),
    }
}
