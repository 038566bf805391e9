//! Arrows of a graph for dependencies.

ghost use Rattle.std.specs.Prelude.{◌≡◌, ◌<◌, ◌≤◌, length, IfOk, ⊤};
ghost use Rattle.lab_order.specs.Arrows.{nodes_of};
ghost use Rattle.lab_deps.specs.KindSets.{among};
ghost use Rattle.lab_judge.specs.Graphs.{IsGraphOf};
ghost use Rattle.lab_judge.specs.Joining.{Grows, tail, head, nodes_for};

use lab_deps::{Dependencies, Kinds};
use lab_order::{Graph, NoMemory};
use std::alloc::Global;

/// Which nodes the arrow of a dependency joins.
#[derive(Clone, Copy)]
pub(crate) enum Joining {
    /// From the transaction that is depended on to the one that depends on it.
    Transactions,
    /// From the start of the one to the commit of the other.
    StartToCommit,
    /// From the commit of the one to the start of the other.
    CommitToStart,
}

impl Joining {
    /// The node from which the arrow leads.
    fn tail(self, from: u32) -> u32
        requires { from ≤ 1000000 }
        ensures { result ≡ tail self from }
    {
        match self {
            Joining::Transactions => from,
            Joining::StartToCommit => 2 * from,
            Joining::CommitToStart => 2 * from + 1,
        }
    }

    /// The node to which it leads.
    fn head(self, to: u32) -> u32
        requires { to ≤ 1000000 }
        ensures { result ≡ head self to }
    {
        match self {
            Joining::Transactions => to,
            Joining::StartToCommit => 2 * to + 1,
            Joining::CommitToStart => 2 * to,
        }
    }
}

/// Adds an arrow for each two transactions of which one depends on the other in one of these ways.
pub(crate) fn add_arrows(
    alloc: Global,
    graph: &mut Graph,
    net: &Dependencies<'_>,
    kinds: Kinds,
) -> Result<(), NoMemory>
    requires { nodes_of graph.old ≡ length net.now.numbers }
    ensures { IfOk result (λ _. Grows (among kinds) Joining.Transactions net.now (λ p q. ⊤) graph.old graph.new) }
{
    for from in 0..net.len() {
        add_arrows_from(alloc, graph, net, kinds, from)?;
    }
    Ok(())
}

/// Adds the arrows of what depends on the transaction of a node.
fn add_arrows_from(
    alloc: Global,
    graph: &mut Graph,
    net: &Dependencies<'_>,
    kinds: Kinds,
    from: u32,
) -> Result<(), NoMemory>
    requires size { nodes_of graph.old ≡ length net.now.numbers }
    requires from { from < length net.now.numbers }
    ensures { IfOk result (λ _. Grows (among kinds) Joining.Transactions net.now (λ p q. p ≡ from) graph.old graph.new) }
{
    let count = net.len();
    for block in 0..count / 64 + 1 {
        let first = 64 * block;
        let beyond = count.min(first + 64);
        add_arrows_between(alloc, graph, net, kinds, from, first, beyond)?;
    }
    Ok(())
}

/// The same of what is at the places from one on and before another. Where nothing is found to depend there, it is
/// passed over at once.
fn add_arrows_between(
    alloc: Global,
    graph: &mut Graph,
    net: &Dependencies<'_>,
    kinds: Kinds,
    from: u32,
    first: u32,
    beyond: u32,
) -> Result<(), NoMemory>
    requires size { nodes_of graph.old ≡ length net.now.numbers }
    requires from { from < length net.now.numbers }
    requires beyond { beyond ≤ length net.now.numbers }
    ensures { IfOk result (λ _. Grows (among kinds) Joining.Transactions net.now (λ p q. (p ≡ from) × (first ≤ q) × (q < beyond)) graph.old graph.new) }
{
    if net.is_bare(from, first, beyond) {
        return Ok(());
    }
    for to in first..beyond {
        add_arrow(alloc, graph, net, kinds, Joining::Transactions, from, to)?;
    }
    Ok(())
}

/// The same where the graph of all dependencies is at hand: only the transactions that have an arrow there are looked at.
pub(crate) fn add_arrows_among(
    alloc: Global,
    graph: &mut Graph,
    net: &Dependencies<'_>,
    all: &Graph,
    kinds: Kinds,
    joining: Joining,
) -> Result<(), NoMemory>
    requires size { nodes_of graph.old ≡ nodes_for joining (length net.now.numbers) }
    requires all { IsGraphOf (among Kinds.ALL) net.now all.now }
    ensures { IfOk result (λ _. Grows (among kinds) joining net.now (λ p q. ⊤) graph.old graph.new) }
{
    for to in 0..net.len() {
        add_arrows_to(alloc, graph, net, all, kinds, joining, to)?;
    }
    Ok(())
}

/// Adds the arrows of those on which the transaction of a node depends.
fn add_arrows_to(
    alloc: Global,
    graph: &mut Graph,
    net: &Dependencies<'_>,
    all: &Graph,
    kinds: Kinds,
    joining: Joining,
    to: u32,
) -> Result<(), NoMemory>
    requires size { nodes_of graph.old ≡ nodes_for joining (length net.now.numbers) }
    requires all { IsGraphOf (among Kinds.ALL) net.now all.now }
    requires to { to < length net.now.numbers }
    ensures { IfOk result (λ _. Grows (among kinds) joining net.now (λ p q. q ≡ to) graph.old graph.new) }
{
    for from in all.before(to) {
        add_arrow(alloc, graph, net, kinds, joining, *from, to)?;
    }
    Ok(())
}

/// Adds the arrow of two transactions, if the second depends on the first in one of these ways.
#[inline(always)]
fn add_arrow(
    alloc: Global,
    graph: &mut Graph,
    net: &Dependencies<'_>,
    kinds: Kinds,
    joining: Joining,
    from: u32,
    to: u32,
) -> Result<(), NoMemory>
    requires size { nodes_of graph.old ≡ nodes_for joining (length net.now.numbers) }
    requires from { from < length net.now.numbers }
    requires to { to < length net.now.numbers }
    ensures { IfOk result (λ _. Grows (among kinds) joining net.now (λ p q. (p ≡ from) × (q ≡ to)) graph.old graph.new) }
{
    let between = net.kinds_at(from, to);
    if between.meets(kinds) {
        graph.add(alloc, joining.tail(from), joining.head(to))?;
    }
    Ok(())
}
