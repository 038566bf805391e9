//! Cycles of dependencies.

ghost use Rattle.std.specs.Prelude.{◌<◌, ◌≡◌, IfOk, length};
ghost use Rattle.std.specs.List.{IsFirstBest};
ghost use Rattle.std.specs.Ordering.{is_lt, nat_cmp};
ghost use Rattle.lab_order.specs.Order.{position};
ghost use Rattle.lab_order.specs.Path.{Reaches};
ghost use Rattle.lab_history.specs.History.{History};
ghost use Rattle.lab_deps.specs.KindSets.{among, is_any};
ghost use Rattle.lab_deps.specs.declared.edge.Edge.{Edge as Spelled};
ghost use Rattle.lab_judge.specs.Due.{FindsOne};
ghost use Rattle.lab_judge.specs.Graphs.{IsGraphOf, IsNetOf};
ghost use Rattle.lab_judge.specs.LeastWalks.{IsBackWalk, IsWayBack, IsTurnToLeast, IsOpenedRound};
ghost use Rattle.lab_judge.specs.Openings.{AllowsAllOrNone, IsClosedOf, IsOpenedWalk};

use crate::findings::opening::first_opening;
use crate::report::Finding;
use crate::serial::Walk;
use crate::walks::{least_between, walk_along, walk_round};
use lab_deps::{Dependencies, Edge, Kinds};
use lab_order::{Graph, NoMemory, Ordered, Ways, order, path};
use std::alloc::Global;

/// The cycle of dependencies of allowed kinds, round the cycle of their graph.
pub(crate) fn find_circle(
    alloc: Global,
    net: &Dependencies<'_>,
    allowed: Kinds,
    graph: &Graph,
) -> Result<Finding, NoMemory>
    requires { IsGraphOf (among allowed) net.now graph.now }
    ensures { IfOk result (λ finding. (h : History) → IsNetOf h (among allowed) net.now → FindsOne (IsClosedOf h (among allowed)) (IsBackWalk h (among allowed)) finding) }
{
    match order(alloc, graph)? {
        Ordered::Order(_) => Ok(Finding::Absent),
        Ordered::Circle(circle) => {
            let walk = walk_round(alloc, net, allowed, circle)?;
            Ok(Finding::Walk(walk))
        }
    }
}

/// The cycle of the first dependency of an opening kind from which a path of allowed kinds leads back, and of that
/// path. It begins with the least transaction. The ways are those of the graph.
pub(crate) fn find_opened(
    alloc: Global,
    net: &Dependencies<'_>,
    allowed: Kinds,
    graph: &Graph,
    ways: &Ways<'_>,
    opening: Kinds,
) -> Result<Finding, NoMemory>
    requires graph { IsGraphOf (among allowed) net.now graph.now }
    requires ways { ways.now ≡ graph.now }
    requires allowed { AllowsAllOrNone (among opening) (among allowed) }
    ensures { IfOk result (λ finding. (h : History) → IsNetOf h is_any net.now → FindsOne (IsOpenedWalk h (among opening) (among allowed)) (IsOpenedRound h (among opening) (among allowed)) finding) }
{
    let Some(ends) = first_opening(net, ways, opening) else {
        return Ok(Finding::Absent);
    };
    let Some(edge) = least_between(net, ends.from, ends.to, opening)? else {
        unreachable!()
    };
    let mut walk = way_back(alloc, net, allowed, graph, ends.to, ends.from)?;
    walk.insert(0, edge)?;
    Ok(Finding::Walk(Walk::new(with_least_first(walk))))
}

/// The least of the shortest paths from one node to another, with the least edges between neighbours.
fn way_back(
    alloc: Global,
    net: &Dependencies<'_>,
    allowed: Kinds,
    graph: &Graph,
    from: u32,
    to: u32,
) -> Result<Vec<Edge>, NoMemory>
    requires graph { IsGraphOf (among allowed) net.now graph.now }
    requires from { from < length net.now.numbers }
    requires to { to < length net.now.numbers }
    requires back { Reaches graph.now from to }
    ensures { IfOk result (λ walk. (h : History) (e : Spelled) → IsNetOf h (among allowed) net.now → position net.now.numbers e.to ≡ from → position net.now.numbers e.from ≡ to
        → IsWayBack h (among allowed) graph.now net.now.numbers e walk.items) }
{
    let Some(nodes_back) = path(alloc, graph, from, to)? else {
        unreachable!()
    };
    match nodes_back.split_first() {
        None => unreachable!(),
        Some((first, way)) => walk_along(alloc, net, allowed, *first, way),
    }
}

/// The same cycle, beginning with its least transaction.
fn with_least_first(walk: Vec<Edge>) -> Vec<Edge>
    requires { 0 < length walk.items }
    ensures { IsTurnToLeast walk.items result.items }
{
    let mut walk = walk;
    let least = place_of_least(&walk);
    walk.rotate_left(least);
    walk
}

/// The place of the first of these edges that begins with the least transaction.
fn place_of_least(walk: &[Edge]) -> usize
    requires { 0 < length walk.now }
    ensures { IsFirstBest (λ x y. is_lt (nat_cmp x.from y.from)) walk.now (length walk.now) result }
{
    let mut least = 0;
    for place in 1..walk.len() {
        if walk[place].from < walk[least].from {
            least = place;
        }
    }
    least
}
