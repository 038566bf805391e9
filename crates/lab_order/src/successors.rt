//! The nodes behind each node, and how many are before it.

ghost use Rattle.std.specs.Prelude.{◌≡◌, ◌==◌, ◌<◌, ◌+◌, ◌-◌, ◌&&◌, ◌^◌, ℕ, nat_lt, cond, length, IfOk};
ghost use Rattle.std.specs.List.{All};
ghost use Rattle.lab_order.specs.Arrows.{nodes_of, before};
ghost use Rattle.lab_order.specs.Counts.{how_often, after, waits_of, IsTransposed};

use crate::free_nodes::FreeNodes;
use crate::graph::{Graph, Row, bare_rows};
use crate::memory::NoMemory;
use std::alloc::Global;

/// For each node those to which it has an arrow: the transposition of the predecessors.
pub fn successors(alloc: Global, graph: &Graph) -> Result<Vec<Row>, NoMemory>
    ensures size { IfOk result (λ rows. length rows.items ≡ nodes_of graph.now) }
    ensures transposed { IfOk result (λ rows. IsTransposed graph.now rows.items) }
{
    let mut rows = bare_rows(alloc, graph.nodes())?;
    for node in 0..graph.nodes() {
        note_successor(&mut rows, graph.before(node), node)?;
    }
    Ok(rows)
}

/// Notes a node as successor of each of those before it.
fn note_successor(rows: &mut [Row], nodes: &[u32], node: u32) -> Result<(), NoMemory>
    requires { All (λ n. n < length rows.old) nodes.now }
    ensures size { IfOk result (λ _. length rows.new ≡ length rows.old) }
    ensures noted { IfOk result (λ _. (from to : ℕ) → how_often (after rows.new from) to ≡ how_often (after rows.old from) to + cond (node == to) (how_often nodes.now from) 0) }
{
    for from in nodes {
        rows[*from as usize].push(node)?;
    }
    Ok(())
}

/// For each node how many nodes are before it.
pub fn counts_before(alloc: Global, graph: &Graph) -> Result<Vec<usize>, NoMemory>
    ensures size { IfOk result (λ waits. length waits.items ≡ nodes_of graph.now) }
    ensures counts { IfOk result (λ waits. (node : ℕ) → waits_of waits.items node ≡ length (before graph.now node)) }
{
    let mut waits = Vec::with_capacity(alloc, graph.nodes() as usize)?;
    for node in 0..graph.nodes() {
        waits.push(graph.before(node).len())?;
    }
    Ok(waits)
}

/// The nodes that wait for none.
pub fn waiting_for_none(alloc: Global, waits: &[usize]) -> Result<FreeNodes, NoMemory>
    requires { length waits.now < 2 ^ 32 }
    ensures { IfOk result (λ free. (node : ℕ) → how_often free node ≡ cond (nat_lt node (length waits.now) && waits_of waits.now node == 0) 1 0) }
{
    let mut free = FreeNodes::new(alloc);
    for (node, count) in waits.iter().enumerate() {
        if *count == 0 {
            free.push(node as u32)?;
        }
    }
    Ok(free)
}

/// Each of these nodes waits for one node fewer; those that then wait for none become free. After a failure, the result
/// must not be used.
pub fn lower(waits: &mut [usize], nodes: &[u32], free: &mut FreeNodes) -> Result<(), NoMemory>
    requires { All (λ n. n < length waits.old) nodes.now }
    ensures size { IfOk result (λ _. length waits.new ≡ length waits.old) }
    ensures counts { IfOk result (λ _. (node : ℕ) → waits_of waits.new node ≡ waits_of waits.old node - how_often nodes.now node) }
    ensures free { IfOk result (λ _. (node : ℕ) → how_often free.new node ≡ how_often free.old node + cond (nat_lt 0 (waits_of waits.old node) && waits_of waits.new node == 0) 1 0) }
{
    for node in nodes {
        let count = waits[*node as usize];
        if count == 1 {
            free.push(*node)?;
        }
        waits[*node as usize] = count.saturating_sub(1);
    }
    Ok(())
}
