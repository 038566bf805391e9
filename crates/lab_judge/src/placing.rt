//! Whether a sound history is a snapshot run.

ghost use Rattle.std.specs.Prelude.{◌≡◌, ◌<◌, ◌≤◌, ◌*◌, ◌^◌, ◌==◌, ℕ, length, map, slice_index, Contains, IfOk};
ghost use Rattle.std.specs.List.{All, count_by};
ghost use Rattle.lab_order.specs.Order.{position};
ghost use Rattle.lab_history.specs.History.{History};
ghost use Rattle.lab_deps.specs.KindSets.{among, is_any};
ghost use Rattle.lab_deps.specs.declared.kinds.TheConstants.Kinds.{ALL};
ghost use Rattle.lab_judge.specs.Due.{IsDuePlaces};
ghost use Rattle.lab_judge.specs.Graphs.{IsGraphOf, IsNetOf};
ghost use Rattle.lab_judge.specs.Runs.{spans_of};
ghost use Rattle.lab_judge.specs.PlaceGraphs.{point_at, span_in};

use crate::place_graph::place_graph;
use crate::places::{Circle, Places, Point, Spans};
use lab_deps::Dependencies;
use lab_order::{Graph, NoMemory, Ordered, order};
use lab_table::TxnNo;
use std::alloc::Global;

/// The snapshot verdict on a sound history with these committed transactions, these dependencies and the graph of them
/// all: by rising number, the places of their starts and commits in the least order along which every arrow points
/// forward, or the cycle of arrows on the way back from the lowest that no order can place.
pub(crate) fn snapshot_verdict(
    alloc: Global,
    net: &Dependencies<'_>,
    all: &Graph,
) -> Result<Places, NoMemory>
    requires { IsGraphOf (among ALL) net.now all.now }
    ensures { IfOk result (λ places. (h : History) → IsNetOf h is_any net.now → IsDuePlaces h places) }
{
    let graph = place_graph(alloc, net, all)?;
    match order(alloc, &graph)? {
        Ordered::Order(order) => {
            let places = places_in(alloc, 2 * net.len(), &order)?;
            let spans = spans_in(alloc, net, &places)?;
            Ok(Places::Yes(Spans::new(spans)))
        }
        Ordered::Circle(circle) => {
            let points = points_of(alloc, net, &circle)?;
            Ok(Places::NoCycle(Circle::new(points)))
        }
    }
}

/// The place of each node in this order of the nodes below a number, counted from 0.
fn places_in(alloc: Global, count: u32, order: &[u32]) -> Result<Vec<u32>, NoMemory>
    requires within { All (λ node. node < count) order.now }
    requires once { (node : ℕ) → count_by (λ n. n == node) order.now ≤ 1 }
    requires few { length order.now < 2 ^ 32 }
    ensures count { IfOk result (λ places. length places.items ≡ count) }
    ensures places { IfOk result (λ places. (node : ℕ) → Contains order.now node → slice_index places.items node ≡ position order.now node) }
{
    let mut places = vec![in alloc; 0; count as usize]?;
    for (place, node) in order.iter().enumerate() {
        places[*node as usize] = place as u32;
    }
    Ok(places)
}

/// The transactions by rising number, with the places that their starts and commits have.
fn spans_in(
    alloc: Global,
    net: &Dependencies<'_>,
    places: &[u32],
) -> Result<Vec<(TxnNo, u32, u32)>, NoMemory>
    requires { length places.now ≡ 2 * length net.now.numbers }
    ensures { IfOk result (λ spans. spans_of spans.items ≡ map (span_in net.now.numbers places.now) net.now.numbers) }
{
    let mut spans = Vec::with_capacity(alloc, net.len() as usize)?;
    for place in 0..net.len() {
        let start = 2 * place as usize;
        spans.push((number_at(net, place), places[start], places[start + 1]))?;
    }
    Ok(spans)
}

/// The transaction of a node.
fn number_at(net: &Dependencies<'_>, node: u32) -> TxnNo
    requires { node < length net.now.numbers }
    ensures value { result ≡ slice_index net.now.numbers node }
    ensures node { position net.now.numbers result ≡ node }
{
    net.number(node)
}

/// The starts and commits at these nodes, in the same order.
fn points_of(alloc: Global, net: &Dependencies<'_>, circle: &[u32]) -> Result<Vec<Point>, NoMemory>
    requires { All (λ node. node < 2 * length net.now.numbers) circle.now }
    ensures { IfOk result (λ points. points.items ≡ map (point_at net.now.numbers) circle.now) }
{
    let mut points = Vec::with_capacity(alloc, circle.len())?;
    for node in circle {
        points.push(point_of(net, *node))?;
    }
    Ok(points)
}

/// The start or the commit at a node.
fn point_of(net: &Dependencies<'_>, node: u32) -> Point
    requires { node < 2 * length net.now.numbers }
    ensures { result ≡ point_at net.now.numbers node }
{
    let number = net.number(node / 2);
    if node % 2 == 0 {
        Point::Start(number)
    } else {
        Point::Commit(number)
    }
}
