//! Calls on the dependencies of a history, with a failing allocation. Each says whether it returns the expected result.

ghost use Rattle.lab_deps.specs.Soundness.{IsSound};

use crate::inputs::{Inputs, Named};
use crate::refused_calls::Call;
use lab_deps::{Dependencies, Edge, Kind, Kinds, Sound, check_local, edges};
use lab_history::History;
use lab_table::NoMemory;
use std::alloc::Global;

/// How the second transaction depends on the first, at row 3.
static KINDS: [Kind; 4] = [
    Kind::Write,
    Kind::ItemRead,
    Kind::PredicateRead,
    Kind::PredicateAnti,
];

/// Whether edges are of these kinds, between these transactions.
fn are_due(found: &[Edge], named: &Named) -> bool {
    for (edge, kind) in found.iter().zip(&KINDS) {
        if edge.kind != *kind || edge.from != named.first || edge.to != named.second {
            return false;
        }
    }
    found.len() == KINDS.len()
}

/// Whether dependencies of the second transaction on the first are of these kinds, and there are no others.
fn are_all(found: Dependencies, named: &Named, kinds: Kinds) -> bool {
    let right = found.kinds(named.first, named.second) == kinds && are_nodes(&found, named, kinds);
    drop(found);
    right
}

/// Whether the nodes are those of the two transactions, with these kinds from the first to the second, and no others.
fn are_nodes(found: &Dependencies, named: &Named, kinds: Kinds) -> bool {
    found.len() == 2
        && found.number(0) == named.first
        && found.number(1) == named.second
        && found.kinds_at(0, 1) == kinds
        && found.kinds_at(1, 0) == Kinds::none()
        && !found.is_bare(0, 0, 2)
        && found.is_bare(1, 0, 2)
}

/// Calls on the dependencies of a sound history.
fn is_right_of_edges(
    alloc: Global,
    call: Call,
    named: &Named,
    history: &History,
    sound: &Sound,
) -> Result<bool, NoMemory>
    requires { IsSound history.now }
{
    let writes = Kinds::WRITES;
    let all = writes
        .and(Kind::ItemRead)
        .and(Kind::PredicateRead)
        .and(Kind::PredicateAnti);
    match call {
        Call::Edges => {
            let found = edges(alloc, history, sound)?;
            let right = are_due(&found, named);
            drop(found);
            Ok(right)
        }
        Call::DependenciesOf => {
            let found = Dependencies::of(alloc, history, sound)?;
            Ok(are_all(found, named, all))
        }
        _ => {
            let found = Dependencies::of_writes(alloc, history)?;
            Ok(are_all(found, named, writes))
        }
    }
}

/// Calls on dependencies. The check itself takes no memory.
pub fn is_right_of_dependencies(
    alloc: Global,
    call: Call,
    inputs: &Inputs,
) -> Result<bool, NoMemory> {
    match check_local(alloc, &inputs.history) {
        Ok(sound) => match call {
            Call::CheckLocal => Ok(true),
            _ => is_right_of_edges(alloc, call, &inputs.named, &inputs.history, &sound),
        },
        Err(_) => Ok(false),
    }
}
