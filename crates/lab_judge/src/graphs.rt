//! Dependencies as the arrows of a graph.

ghost use Rattle.std.specs.Prelude.{IfOk};
ghost use Rattle.lab_deps.specs.KindSets.{among};
ghost use Rattle.lab_judge.specs.Graphs.{IsGraphOf};

use crate::joining::{Joining, add_arrows, add_arrows_among};
use lab_deps::{Dependencies, Kinds};
use lab_order::{Graph, NoMemory};
use std::alloc::Global;

/// The graph of the nodes with an arrow for each two of which one depends on the other in an allowed way.
pub(crate) fn graph_of(
    alloc: Global,
    net: &Dependencies<'_>,
    allowed: Kinds,
) -> Result<Graph, NoMemory>
    ensures { IfOk result (IsGraphOf (among allowed) net.now) }
{
    let mut graph = Graph::new(alloc, net.len())?;
    add_arrows(alloc, &mut graph, net, allowed)?;
    Ok(graph)
}

/// The same where the graph of all dependencies is at hand.
pub(crate) fn graph_among(
    alloc: Global,
    net: &Dependencies<'_>,
    all: &Graph,
    allowed: Kinds,
) -> Result<Graph, NoMemory>
    requires { IsGraphOf (among Kinds.ALL) net.now all.now }
    ensures { IfOk result (IsGraphOf (among allowed) net.now) }
{
    let mut graph = Graph::new(alloc, net.len())?;
    add_arrows_among(alloc, &mut graph, net, all, allowed, Joining::Transactions)?;
    Ok(graph)
}
