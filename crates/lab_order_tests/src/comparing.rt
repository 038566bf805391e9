//! Compares orders by counters with orders by scanning.

ghost use Rattle.std.specs.Prelude.{◌≡◌, ◌<◌, IfOk};
ghost use Rattle.lab_order.specs.Arrows.{nodes_of};

use crate::scanning::scanning_order;
use lab_order::{Graph, NoMemory, Ordered, order};
use std::alloc::Global;
use std::test::Fail;

/// The graph of these nodes and those arrows that are between them.
pub fn graph_of(alloc: Global, nodes: u32, arrows: &[(u32, u32)]) -> Result<Graph, NoMemory>
    ensures { IfOk result (λ graph. nodes_of graph ≡ nodes) }
{
    let mut graph = Graph::new(alloc, nodes)?;
    for (from, to) in arrows {
        if *from < nodes && *to < nodes {
            graph.add(alloc, *from, *to)?;
        }
    }
    Ok(graph)
}

/// Whether it is an order, and its nodes.
pub fn parts(ordered: &Ordered) -> (bool, &[u32]) {
    match ordered {
        Ordered::Order(nodes) => (true, nodes.as_slice()),
        Ordered::Circle(nodes) => (false, nodes.as_slice()),
    }
}

/// Arrows between nodes below a number, by a linear congruence; if they shall only lead down, there is no cycle.
fn some_arrows(
    alloc: Global,
    seed: u32,
    nodes: u32,
    count: u32,
    down: bool,
) -> Result<Vec<(u32, u32)>, NoMemory> {
    let mut arrows = Vec::new(alloc);
    let mut number = seed;
    for _ in 0..count {
        number = number.wrapping_mul(1_664_525).wrapping_add(1_013_904_223);
        let from = (number >> 8).checked_rem(nodes).unwrap_or(0);
        let to = (number >> 16).checked_rem(nodes).unwrap_or(0);
        if !down || from > to {
            arrows.push((from, to))?;
        }
    }
    Ok(arrows)
}

/// Two transactions that install two rows in different orders.
const TWO_ORDERS: &[(u32, u32)] = &[(0, 1), (1, 0)];

/// A reader that sees one of two installed rows, whose writers depend on one another.
const BEFORE_AND_AFTER: &[(u32, u32)] = &[(0, 1), (1, 2), (2, 0)];

/// An insert, a delete of the row and an insert again.
const REBORN: &[(u32, u32)] = &[(0, 1), (0, 2), (1, 2)];

/// Whether both answer the same of these arrows; they don't where memory is refused.
fn are_alike(alloc: Global, nodes: u32, arrows: &[(u32, u32)]) -> bool {
    let Ok(graph) = graph_of(alloc, nodes, arrows) else {
        return false;
    };
    let answer = order(alloc, &graph);
    drop(graph);
    match answer {
        Ok(answer) => {
            let alike = is_scanned(alloc, nodes, arrows, &answer);
            drop(answer);
            alike
        }
        Err(_) => false,
    }
}

/// Whether scanning answers this.
fn is_scanned(alloc: Global, nodes: u32, arrows: &[(u32, u32)], answer: &Ordered) -> bool {
    match scanning_order(alloc, nodes, arrows) {
        Ok(scanned) => {
            let alike = parts(answer) == parts(&scanned);
            drop(scanned);
            alike
        }
        Err(_) => false,
    }
}

/// Whether both answer the same of the arrows of a seed.
fn seed_alike(alloc: Global, seed: u32) -> bool
    requires { seed < 50 }
{
    let nodes = 1 + seed * 7 % 40;
    match some_arrows(alloc, seed, nodes, nodes * (1 + seed % 3), seed % 2 == 0) {
        Ok(arrows) => {
            let alike = are_alike(alloc, nodes, &arrows);
            drop(arrows);
            alike
        }
        Err(_) => false,
    }
}

#[test]
fn orders_by_counts_are_those_by_scanning(rt: HostRuntime) -> Result<(), Fail> {
    for arrows in [TWO_ORDERS, BEFORE_AND_AFTER, REBORN] {
        assert!(rt; are_alike(rt.alloc(), 3, arrows), "{arrows:?}");
    }
    for seed in 0..50 {
        assert!(rt; seed_alike(rt.alloc(), seed), "{seed}");
    }
    Ok(())
}
