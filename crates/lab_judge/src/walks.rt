//! Walks along dependencies.

ghost use Rattle.std.specs.Prelude.{◌≡◌, ◌<◌, None, length, IfOk, IfSome};
ghost use Rattle.lab_order.specs.Trails.{IsRing, IsChainBy};
ghost use Rattle.lab_history.specs.History.{History};
ghost use Rattle.lab_deps.specs.KindSets.{among};
ghost use Rattle.lab_judge.specs.Graphs.{Tie, IsLeastTie, IsNetOf};
ghost use Rattle.lab_judge.specs.LeastWalks.{GoesAlong, GoesRound};

use crate::serial::Walk;
use lab_deps::{Dependencies, Edge, Kinds};
use lab_order::NoMemory;
use std::alloc::Global;

/// The walk along a cycle of nodes in the graph of the dependencies that are allowed: between two neighbours it takes
/// the least of these, by kind and row. It begins with the first node.
pub(crate) fn walk_round(
    alloc: Global,
    net: &Dependencies<'_>,
    allowed: Kinds,
    circle: Vec<u32>,
) -> Result<Walk, NoMemory>
    requires { IsRing (Tie (among allowed) net.now) circle.items }
    ensures { IfOk result (λ walk. (h : History) → IsNetOf h (among allowed) net.now → GoesRound h (among allowed) net.now.numbers circle.items walk) }
{
    let mut circle = circle;
    let first = circle[0];
    circle.push(first)?;
    Ok(Walk::new(walk_along(alloc, net, allowed, first, &circle[1..])?))
}

/// The dependencies from a node along these, in the order of the way: between two neighbours the least that is allowed,
/// by kind and row.
pub(crate) fn walk_along(
    alloc: Global,
    net: &Dependencies<'_>,
    allowed: Kinds,
    from: u32,
    way: &[u32],
) -> Result<Vec<Edge>, NoMemory>
    requires { IsChainBy (Tie (among allowed) net.now) from way.now }
    ensures { IfOk result (λ walk. (h : History) → IsNetOf h (among allowed) net.now → GoesAlong h (among allowed) net.now.numbers from way.now walk.items) }
{
    let mut walk = Vec::with_capacity(alloc, way.len())?;
    let mut at = from;
    for next in way {
        let Some(edge) = least_between(net, at, *next, allowed)? else {
            unreachable!()
        };
        walk.push(edge)?;
        at = *next;
    }
    Ok(walk)
}

/// The least dependency of one of these kinds from the transaction of one node to that of another, by kind and row, if
/// there is one.
pub(crate) fn least_between(
    net: &Dependencies<'_>,
    from: u32,
    to: u32,
    kinds: Kinds,
) -> Result<Option<Edge>, NoMemory>
    requires from { from < length net.now.numbers }
    requires to { to < length net.now.numbers }
    ensures found { IfOk result (λ found. IfSome found (IsLeastTie (among kinds) net.now from to)) }
    ensures none { IfOk result (λ found. found ≡ None → ¬ Tie (among kinds) net.now from to) }
{
    net.least(net.number(from), net.number(to), kinds)
}
