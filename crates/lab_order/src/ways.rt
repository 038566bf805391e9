//! Reachability: which nodes have a path to which.
//!
//! Each node has the set of the nodes that lead to it, at first itself and those with an arrow to it. Node by node, the
//! successors of a node take over its set, which adds the paths through that node (S. Warshall, A Theorem on Boolean
//! Matrices, 1962).

ghost use Rattle.std.specs.Prelude.{◌≡◌, ◌==◌, ◌<◌, ◌↔◌, ◌&&◌, ◌||◌, ℕ, true, length, IfOk};
ghost use Rattle.std.specs.List.{All, list_any};
ghost use Rattle.lab_sets.specs.Sets.{has, room, room_for};
ghost use Rattle.lab_order.specs.Arrows.{nodes_of, before};
ghost use Rattle.lab_order.specs.Path.{Reaches};
ghost use Rattle.lab_order.specs.Ways.{leads_by};

use crate::graph::Graph;
use crate::memory::NoMemory;
use lab_sets::NumberSet;
use std::alloc::Global;
use std::marker::Model;

/// Which nodes of a graph lead to which.
#[derive(Drop)]
pub struct Ways<'a> {
    graph: &'a Graph,
    sets: Vec<NumberSet>,
}

impl<'a> Model for Ways<'a> {
    ghost use Rattle.lab_order.specs.Arrows.{Arrows};
    ghost use Rattle.lab_order.specs.Ways.{AreWays};

    ghost Value = { Arrows };

    ghost view = { λ w. w.graph.now };

    ghost invariant = { λ w. AreWays w.graph.now w.sets.items };
}

impl<'a> Ways<'a> {
    /// Computes which nodes of a graph lead to which, with a bit for each two nodes. Use it for many questions about
    /// one graph.
    pub fn of(alloc: Global, graph: &'a Graph) -> Result<Ways<'a>, NoMemory>
        ensures { IfOk result (λ ways. ways ≡ graph.now) }
    {
        let mut sets = arrows_alone(alloc, graph)?;
        let mut through = NumberSet::none(alloc, graph.nodes())?;
        for node in 0..graph.nodes() {
            through.clear();
            through.unite(&sets[node as usize]);
            lead_on(&mut sets, node, &through);
        }
        Ok(Ways { graph, sets })
    }

    /// Returns whether a path leads from one node to another. Each node leads to itself.
    pub fn lead(&self, from: u32, to: u32) -> bool
        requires { to < nodes_of self.now }
        ensures { result ≡ true ↔ Reaches self.now from to }
    {
        self.sets[to as usize].has(from)
    }
}

/// For each node the set of itself and of those with an arrow to it.
fn arrows_alone(alloc: Global, graph: &Graph) -> Result<Vec<NumberSet>, NoMemory>
    ensures size { IfOk result (λ sets. length sets.items ≡ nodes_of graph.now) }
    ensures rooms { IfOk result (λ sets. All (λ s. room s ≡ room_for (nodes_of graph.now)) sets.items) }
    ensures sets { IfOk result (λ sets. (from to : ℕ) → to < nodes_of graph.now → leads_by sets.items from to ≡ (from == to || list_any (λ n. n == from) (before graph.now to))) }
{
    let mut sets = Vec::with_capacity(alloc, graph.nodes() as usize)?;
    for node in 0..graph.nodes() {
        sets.push(set_of(alloc, graph.nodes(), node, graph.before(node))?)?;
    }
    Ok(sets)
}

/// The set of a node and of some others, all below a bound.
fn set_of(alloc: Global, bound: u32, node: u32, others: &[u32]) -> Result<NumberSet, NoMemory>
    requires node { node < bound }
    requires others { All (λ n. n < bound) others.now }
    ensures room { IfOk result (λ set. room set ≡ room_for bound) }
    ensures set { IfOk result (λ set. (n : ℕ) → has set n ≡ (n == node || list_any (λ m. m == n) others.now)) }
{
    let mut set = NumberSet::none(alloc, bound)?;
    set.insert(node);
    for other in others {
        set.insert(*other);
    }
    Ok(set)
}

/// Each set that has a node takes over what that node's set has.
fn lead_on(sets: &mut [NumberSet], node: u32, through: &NumberSet)
    requires rooms { All (λ s. room s ≡ room through.now) sets.old }
    ensures size { length sets.new ≡ length sets.old }
    ensures rooms { All (λ s. room s ≡ room through.now) sets.new }
    ensures leads { (from to : ℕ) → to < length sets.old → leads_by sets.new from to ≡ (leads_by sets.old from to || (leads_by sets.old node to && has through.now from)) }
{
    for to in 0..sets.len() {
        take_over(&mut sets[to], node, through);
    }
}

/// A set that has a node takes over what another has.
fn take_over(set: &mut NumberSet, node: u32, through: &NumberSet)
    requires { room through.now ≡ room set.old }
    ensures room { room set.new ≡ room set.old }
    ensures set { (n : ℕ) → has set.new n ≡ (has set.old n || (has set.old node && has through.now n)) }
{
    if set.has(node) {
        set.unite(through);
    }
}
