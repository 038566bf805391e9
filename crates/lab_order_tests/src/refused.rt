//! Calls with each of their allocations failing in turn. They return `NoMemory` and nothing else, and what they would
//! change is unchanged; or, if they can do without the allocation, they return the usual result.

ghost use Rattle.std.specs.Prelude.{◌≡◌};
ghost use Rattle.lab_order.specs.Arrows.{nodes_of};

use crate::comparing::{graph_of, parts};
use lab_order::{Graph, NoMemory, Ways, order, path};
use lab_refusal_tests::{refuse, was_refused};
use std::alloc::Global;
use std::process::Abort;
use std::test::Fail;

/// A call, on four nodes of which the first three are a cycle, or on a chain, or on a new graph.
#[derive(Clone, Copy, Debug)]
enum Call {
    New,
    FirstArrow,
    FifthArrow,
    Order,
    Circle,
    Path,
    NoPath,
    Ways,
}

/// Whether a graph has this order or cycle.
fn has_order(alloc: Global, graph: &Graph, due: (bool, &[u32])) -> Result<bool, NoMemory> {
    let ordered = order(alloc, graph)?;
    let right = parts(&ordered) == due;
    drop(ordered);
    Ok(right)
}

/// Adds an arrow from node 5 to node 0 of six, where that needs an allocation. Where it is refused, the graph has the
/// order that it had before, and takes the arrow then.
fn is_added(alloc: Global, growth: u16, graph: &mut Graph, before: &[u32]) -> Result<bool, NoMemory>
    requires { nodes_of graph.old ≡ 6 }
{
    refuse(alloc, growth);
    let refusal = graph.add(alloc, 5, 0).err();
    if refusal.is_some() {
        if !has_order(alloc, graph, (true, before))? {
            return Ok(false);
        }
        graph.add(alloc, 5, 0)?;
    }
    let added = has_order(alloc, graph, (true, &[1, 2, 3, 4, 5, 0][..]))?;
    match refusal {
        Some(refusal) if added => Err(refusal),
        _ => Ok(added),
    }
}

/// Calls that make a graph or change one.
fn is_right_of_new(alloc: Global, growth: u16, call: Call) -> Result<bool, NoMemory> {
    match call {
        Call::New => {
            let graph = Graph::new(alloc, 4)?;
            let right = has_order(alloc, &graph, (true, &[0, 1, 2, 3][..]));
            drop(graph);
            right
        }
        Call::FirstArrow => {
            let mut graph = Graph::new(alloc, 6)?;
            let added = is_added(alloc, growth, &mut graph, &[0, 1, 2, 3, 4, 5]);
            drop(graph);
            added
        }
        _ => {
            let mut graph = graph_of(alloc, 6, &[(1, 0), (2, 0), (3, 0), (4, 0)])?;
            let added = is_added(alloc, growth, &mut graph, &[1, 2, 3, 4, 0, 5]);
            drop(graph);
            added
        }
    }
}

/// Whether a path goes along these nodes.
fn is_path(path: Option<Vec<u32>>, due: Option<&[u32]>) -> bool {
    let right = path.as_deref() == due;
    drop(path);
    right
}

/// Whether of four nodes the first three lead to the third, and the fourth doesn't.
fn are_due(ways: Ways<'_>) -> bool
    requires { nodes_of ways ≡ 4 }
{
    let right = ways.lead(0, 2) && ways.lead(1, 2) && ways.lead(2, 2) && !ways.lead(3, 2);
    drop(ways);
    right
}

/// Makes a call, and says whether it answers what it is to answer.
fn is_right(
    alloc: Global,
    growth: u16,
    call: Call,
    chain: &Graph,
    circle: &Graph,
) -> Result<bool, NoMemory>
    requires { nodes_of circle.now ≡ 4 }
{
    match call {
        Call::New | Call::FirstArrow | Call::FifthArrow => is_right_of_new(alloc, growth, call),
        Call::Order => has_order(alloc, chain, (true, &[3, 2, 1, 0][..])),
        Call::Circle => has_order(alloc, circle, (false, &[0, 1, 2][..])),
        Call::Path => Ok(is_path(path(alloc, circle, 0, 2)?, Some(&[0, 1, 2][..]))),
        Call::NoPath => Ok(is_path(path(alloc, circle, 0, 3)?, None)),
        Call::Ways => Ok(are_due(Ways::of(alloc, circle)?)),
    }
}

/// Fails where a call isn't right with one of its allocations refused, or has no last allocation.
fn shows_right(rt: &impl Abort, alloc: Global, call: Call, chain: &Graph, circle: &Graph)
    requires { nodes_of circle.now ≡ 4 }
{
    let mut answered = false;
    for growth in 1..1_000u16 {
        refuse(alloc, growth);
        let right = is_right(alloc, growth, call, chain, circle);
        let refused = was_refused(alloc);
        // Memory may be wanting only where an allocation was refused.
        assert!(rt; right.unwrap_or(refused), "{call:?}, at growth {growth}");
        if !refused {
            answered = true;
            break;
        }
    }
    assert!(rt; answered, "{call:?}");
}

static CALLS: [Call; 8] = [
    Call::New,
    Call::FirstArrow,
    Call::FifthArrow,
    Call::Order,
    Call::Circle,
    Call::Path,
    Call::NoPath,
    Call::Ways,
];

#[test]
fn calls_that_are_refused_memory_answer_so(rt: HostRuntime) -> Result<(), Fail> {
    let chain = graph_of(rt.alloc(), 4, &[(3, 2), (2, 1), (1, 0)])?;
    let Ok(circle) = graph_of(rt.alloc(), 4, &[(0, 1), (1, 2), (2, 0)]) else {
        drop(chain);
        return Err(Fail::from("a circle"));
    };
    for call in &CALLS {
        shows_right(&rt, rt.alloc(), *call, &chain, &circle);
    }
    drop(chain);
    drop(circle);
    Ok(())
}
