//! The graph of starts and commits.
//!
//! The p-th transaction by rising number, from 0, starts at the node 2p and commits at the node 2p + 1. It starts before
//! it commits. What another reads or overwrites of it commits before that one starts, and what doesn't see another's
//! write starts before that one commits.

ghost use Rattle.std.specs.Prelude.{◌≡◌, ◌≤◌, ◌*◌, ℕ, IfOk};
ghost use Rattle.lab_order.specs.Arrows.{nodes_of, has_arrow};
ghost use Rattle.lab_deps.specs.KindSets.{among};
ghost use Rattle.lab_judge.specs.Graphs.{IsGraphOf};
ghost use Rattle.lab_judge.specs.PlaceGraphs.{spans, IsPlaceGraph};

use crate::joining::{Joining, add_arrows_among};
use lab_deps::{Dependencies, Kinds};
use lab_order::{Graph, NoMemory};
use std::alloc::Global;

/// The graph of the starts and commits of these transactions, by the graph of all dependencies.
pub(crate) fn place_graph(
    alloc: Global,
    net: &Dependencies<'_>,
    all: &Graph,
) -> Result<Graph, NoMemory>
    requires { IsGraphOf (among Kinds.ALL) net.now all.now }
    ensures { IfOk result (IsPlaceGraph net.now) }
{
    let flow = Kinds::FLOW;
    let anti = Kinds::ANTI;
    let mut graph = spans_graph(alloc, net.len())?;
    add_arrows_among(alloc, &mut graph, net, all, flow, Joining::CommitToStart)?;
    add_arrows_among(alloc, &mut graph, net, all, anti, Joining::StartToCommit)?;
    Ok(graph)
}

/// The graph with an arrow from the start to the commit of each of so many transactions, and no other.
fn spans_graph(alloc: Global, count: u32) -> Result<Graph, NoMemory>
    requires { count ≤ 1000001 }
    ensures size { IfOk result (λ graph. nodes_of graph ≡ 2 * count) }
    ensures arrows { IfOk result (λ graph. (a b : ℕ) → has_arrow graph a b ≡ spans count a b) }
{
    let mut graph = Graph::new(alloc, 2 * count)?;
    for place in 0..count {
        graph.add(alloc, 2 * place, 2 * place + 1)?;
    }
    Ok(graph)
}
