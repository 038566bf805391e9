//! A plain implementation of a graph's order: each step scans all nodes for the least free one.

use lab_order::{NoMemory, Ordered};
use std::alloc::Global;

/// The order of these nodes along these arrows, or a cycle where there is none.
pub fn scanning_order(
    alloc: Global,
    nodes: u32,
    arrows: &[(u32, u32)],
) -> Result<Ordered, NoMemory> {
    let mut order = Vec::new(alloc);
    for _ in 0..nodes {
        if let Some(node) = least_free(nodes, arrows, &order) {
            order.push(node)?;
        }
    }
    match least_unplaced(nodes, &order) {
        None => Ok(Ordered::Order(order)),
        Some(node) => Ok(Ordered::Circle(circle_behind(alloc, arrows, &order, node)?)),
    }
}

/// The least node that isn't placed and all of whose predecessors are.
fn least_free(nodes: u32, arrows: &[(u32, u32)], placed: &[u32]) -> Option<u32> {
    for node in 0..nodes {
        if !placed.contains(&node) && least_before(arrows, placed, node).is_none() {
            return Some(node);
        }
    }
    None
}

/// The least node that isn't placed.
fn least_unplaced(nodes: u32, placed: &[u32]) -> Option<u32> {
    for node in 0..nodes {
        if !placed.contains(&node) {
            return Some(node);
        }
    }
    None
}

/// The least unplaced predecessor of a node.
fn least_before(arrows: &[(u32, u32)], placed: &[u32], node: u32) -> Option<u32> {
    let mut least = None;
    for (from, to) in arrows {
        if *to == node && !placed.contains(from) {
            least = match least {
                Some(other) if other < *from => Some(other),
                _ => Some(*from),
            };
        }
    }
    least
}

/// The cycle met on the way back from an unplaced node, read forward from its least node.
fn circle_behind(
    alloc: Global,
    arrows: &[(u32, u32)],
    placed: &[u32],
    start: u32,
) -> Result<Vec<u32>, NoMemory> {
    let mut trail = Vec::new(alloc);
    let mut at = start;
    // the trail has no more nodes than there are arrows
    for _ in arrows {
        if !trail.contains(&at) {
            trail.push(at)?;
            at = least_before(arrows, placed, at).unwrap_or(at);
        }
    }
    trail.reverse();
    let place = how_many_before(&trail, at);
    trail.truncate(place.saturating_add(1));
    let mut least = at;
    for node in trail.as_slice() {
        least = least.min(*node);
    }
    let place = how_many_before(&trail, least);
    if place <= trail.len() {
        trail.rotate_left(place);
    }
    Ok(trail)
}

fn how_many_before(nodes: &[u32], node: u32) -> usize {
    for (place, other) in nodes.iter().enumerate() {
        if *other == node {
            return place;
        }
    }
    nodes.len()
}
