//! The edges of a sound history.

ghost use Rattle.std.specs.Prelude.{◌↔◌, Contains, IfOk};
ghost use Rattle.lab_deps.specs.Edges.{IsEdge};
ghost use Rattle.lab_deps.specs.EdgeOrder.{IsInOrder};
ghost use Rattle.lab_deps.specs.Soundness.{IsSound};
ghost use Rattle.lab_deps.specs.declared.edge.Edge.{Edge as Spelled};

use crate::collect::edges_of_txns;
use crate::edge::Edge;
use crate::order::in_order;
use crate::sound::Sound;
use lab_history::History;
use lab_table::NoMemory;
use std::alloc::Global;

/// Returns the dependencies between the committed transactions of a sound history, each once, sorted by `from`, `to`,
/// kind and row. `_sound` is the result of `check_local` for this history.
pub fn edges(alloc: Global, history: &History, _sound: &Sound) -> Result<Vec<Edge>, NoMemory>
    requires { IsSound history.now }
    ensures exact { IfOk result (λ edges. (e : Spelled) → Contains edges.items e ↔ IsEdge history.now e) }
    ensures order { IfOk result (λ edges. IsInOrder edges.items) }
{
    in_order(collected(alloc, history)?)
}

/// The edges of a sound history in any order, some of them more than once.
fn collected(alloc: Global, history: &History) -> Result<Vec<Edge>, NoMemory>
    requires { IsSound history.now }
    ensures { IfOk result (λ edges. (e : Spelled) → Contains edges.items e ↔ IsEdge history.now e) }
{
    edges_of_txns(alloc, history)
}
