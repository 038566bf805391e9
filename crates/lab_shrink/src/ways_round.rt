//! Whether arrows between numbered nodes lead back to where they begin.

use crate::touch::NONE;
use lab_table::NoMemory;
use std::alloc::Global;

/// An arrow from one node to another.
#[derive(Clone, Copy)]
pub struct Arrow {
    pub from: usize,
    pub to: usize,
}

/// Arrows, by the node that they begin at, and how many of them each node waits for.
#[derive(Drop)]
struct Outgoing {
    /// Of each node, its first arrow.
    first: Vec<usize>,
    /// Of each arrow, the next one of its node.
    next: Vec<usize>,
    /// Of each node, how many arrows lead to it from nodes that aren't placed.
    waiting: Vec<usize>,
}

impl Outgoing {
    /// These arrows between so many nodes.
    fn of(alloc: Global, nodes: usize, arrows: &[Arrow]) -> Result<Outgoing, NoMemory> {
        let mut first = vec![in alloc; NONE; nodes]?;
        let mut waiting = vec![in alloc; 0usize; nodes]?;
        let mut next = Vec::new(alloc);
        for (number, arrow) in arrows.iter().enumerate() {
            next.push(first.get(arrow.from).copied().unwrap_or(NONE))?;
            if let Some(before) = first.get_mut(arrow.from) {
                *before = number;
            }
            if let Some(count) = waiting.get_mut(arrow.to) {
                *count = count.saturating_add(1);
            }
        }
        Ok(Outgoing {
            first,
            next,
            waiting,
        })
    }

    /// The nodes that no arrow leads to.
    fn free(&self, alloc: Global) -> Result<Vec<usize>, NoMemory> {
        let mut free = Vec::new(alloc);
        for (node, count) in self.waiting.iter().enumerate() {
            if *count == 0 {
                free.push(node)?;
            }
        }
        Ok(free)
    }

    /// Takes away the arrows of a node that is placed, and adds the nodes that wait for none any more.
    fn place(
        &mut self,
        arrows: &[Arrow],
        node: usize,
        free: &mut Vec<usize>,
    ) -> Result<(), NoMemory> {
        let mut at = self.first.get(node).copied().unwrap_or(NONE);
        for _ in 0..arrows.len() {
            let Some(arrow) = arrows.get(at) else {
                break;
            };
            if let Some(count) = self.waiting.get_mut(arrow.to) {
                *count = count.saturating_sub(1);
                if *count == 0 {
                    free.push(arrow.to)?;
                }
            }
            at = self.next.get(at).copied().unwrap_or(NONE);
        }
        Ok(())
    }
}

/// Whether arrows between so many nodes lead back to where they begin.
pub fn lead_back(alloc: Global, nodes: usize, arrows: &[Arrow]) -> Result<bool, NoMemory> {
    let mut outgoing = Outgoing::of(alloc, nodes, arrows)?;
    let mut free = outgoing.free(alloc)?;
    let mut placed = 0usize;
    for _ in 0..nodes {
        let Some(node) = free.pop() else {
            break;
        };
        placed = placed.saturating_add(1);
        outgoing.place(arrows, node, &mut free)?;
    }
    Ok(placed < nodes)
}
