//! The read-only anomaly.

ghost use Rattle.std.specs.Prelude.{◌≡◌, ◌<◌, ◌≤◌, ◌==◌, ◌&&◌, nat_lt, length, slice_index, IfOk};
ghost use Rattle.std.specs.List.{All, list_any};
ghost use Rattle.lab_history.specs.Limits.{max_transactions};
ghost use Rattle.lab_order.specs.Arrows.{nodes_of};
ghost use Rattle.lab_drawing.specs.Dependence.{committed};
ghost use Rattle.lab_drawing.specs.Readers.{is_nothing, wrote_nothing, is_read_only, some_read_only, is_g2, may_be, comes_before, is_before, is_led, count_of, leads, Grows, IsGraphOf, is_order, can_order, stands_in_the_way, some_stand_in_the_way, is_in_run, is_read_only_anomaly};

use crate::cycles::walk_phenomenon;
use crate::dependence::Dependence;
use crate::states::ops_of;
use lab_deps::Edge;
use lab_history::{History, Op, Writes};
use lab_order::{Graph, Ordered, order};
use lab_reports::Phenomenon;
use lab_table::{NoMemory, TxnNo};
use std::alloc::Global;

/// What is to be put in an order.
#[derive(Clone, Copy, Debug)]
pub enum Nodes {
    /// The starts and commits of transactions: the p-th one starts at the node 2p and commits at the node 2p + 1.
    Points,
    /// The transactions.
    All,
    /// The transactions but this one.
    Without(TxnNo),
}

/// Whether nothing is written.
fn is_nothing(writes: &Writes) -> bool
    ensures { result ≡ is_nothing writes.now }
{
    writes.entries().is_empty()
}

/// Whether an operation wrote no row.
fn wrote_nothing(op: &Op) -> bool
    ensures { result ≡ wrote_nothing op.now }
{
    is_nothing(&op.writes)
}

/// Whether none of a transaction's operations wrote a row.
fn is_read_only(history: &History, txn: TxnNo) -> bool
    ensures { result ≡ is_read_only history.now txn }
{
    ops_of(history, txn).iter().all(|op| wrote_nothing(op))
}

/// Whether some transaction of a cycle wrote no row.
fn some_read_only(history: &History, walk: &[Edge]) -> bool
    ensures { result ≡ some_read_only history.now walk.now }
{
    walk.iter().any(|edge| is_read_only(history, edge.from))
}

/// Whether a cycle of this phenomenon has two anti-dependencies at least.
fn is_g2(phenomenon: Phenomenon) -> bool
    ensures { result ≡ is_g2 phenomenon }
{
    matches!(phenomenon, Phenomenon::G2Item | Phenomenon::G2)
}

/// Whether a cycle may be a read-only anomaly. Each cycle of a snapshot run has two anti-dependencies at least.
fn may_be(history: &History, walk: &[Edge]) -> bool
    ensures { result ≡ may_be history.now walk.now }
{
    is_g2(walk_phenomenon(walk)) && some_read_only(history, walk)
}

/// Whether one transaction comes before another.
fn comes_before(ties: &Dependence<'_>, from: TxnNo, to: TxnNo) -> bool
    ensures { result ≡ comes_before ties.now from to }
{
    ties.flows(from, to) || ties.passes(from, to)
}

/// Whether one transaction comes before another, neither of which is this one.
fn is_before(ties: &Dependence<'_>, without: TxnNo, from: TxnNo, to: TxnNo) -> bool
    ensures { result ≡ is_before ties.now without from to }
{
    from != without && (to != without && comes_before(ties, from, to))
}

/// Whether the start or commit of one transaction comes before that of another.
fn is_led(ties: &Dependence<'_>, from: TxnNo, is_start: bool, to: TxnNo, to_start: bool) -> bool
    ensures { result ≡ is_led ties.now from is_start to to_start }
{
    if is_start {
        !to_start && (from == to || ties.passes(from, to))
    } else {
        to_start && ties.flows(from, to)
    }
}

/// The transaction at a position among the committed ones, counted from 0.
fn number_at(ties: &Dependence<'_>, position: u32) -> TxnNo
    requires { position < length (committed ties.now) }
    ensures { result ≡ slice_index (committed ties.now) position }
{
    ties.numbers()[position as usize]
}

/// How many transactions have committed.
fn count_committed(ties: &Dependence<'_>) -> u32
    ensures count { result ≡ length (committed ties.now) }
    ensures few { result ≤ max_transactions }
{
    ties.numbers().len() as u32
}

impl Nodes {
    /// How many nodes there are.
    fn count(&self, ties: &Dependence<'_>) -> u32
        ensures { result ≡ count_of ties.now self.now }
    {
        let numbers = count_committed(ties);
        match self {
            Nodes::Points => 2 * numbers,
            Nodes::All | Nodes::Without(_) => numbers,
        }
    }

    /// Whether one node comes before another.
    fn leads(&self, ties: &Dependence<'_>, from: u32, to: u32) -> bool
        requires from { from < count_of ties.now self.now }
        requires to { to < count_of ties.now self.now }
        ensures { result ≡ leads ties.now self.now from to }
    {
        match self {
            Nodes::Points => is_led(
                ties,
                number_at(ties, from / 2),
                from % 2 == 0,
                number_at(ties, to / 2),
                to % 2 == 0,
            ),
            Nodes::All => comes_before(ties, number_at(ties, from), number_at(ties, to)),
            Nodes::Without(txn) => {
                is_before(ties, *txn, number_at(ties, from), number_at(ties, to))
            }
        }
    }
}

/// Adds an arrow from one node to another, if the first comes before the second.
fn add_arrow(
    alloc: Global,
    graph: &mut Graph,
    nodes: &Nodes,
    ties: &Dependence<'_>,
    from: u32,
    to: u32,
) -> Result<(), NoMemory>
    requires size { nodes_of graph.old ≡ count_of ties.now nodes.now }
    requires from { from < count_of ties.now nodes.now }
    requires to { to < count_of ties.now nodes.now }
    ensures { IfOk result (λ _. Grows ties.now nodes.now (λ a b. from == a && to == b) graph.old graph.new) }
{
    if nodes.leads(ties, from, to) {
        graph.add(alloc, from, to)?;
    }
    Ok(())
}

/// Adds an arrow to this node from each of the first so many nodes that comes before it.
fn add_arrows_to(
    alloc: Global,
    graph: &mut Graph,
    nodes: &Nodes,
    ties: &Dependence<'_>,
    count: u32,
    to: u32,
) -> Result<(), NoMemory>
    requires size { nodes_of graph.old ≡ count_of ties.now nodes.now }
    requires count { count ≤ count_of ties.now nodes.now }
    requires to { to < count_of ties.now nodes.now }
    ensures { IfOk result (λ _. Grows ties.now nodes.now (λ a b. nat_lt a count && to == b) graph.old graph.new) }
{
    for from in 0..count {
        add_arrow(alloc, graph, nodes, ties, from, to)?;
    }
    Ok(())
}

/// The graph of what comes before what.
fn graph_of(alloc: Global, nodes: &Nodes, ties: &Dependence<'_>) -> Result<Graph, NoMemory>
    ensures { IfOk result (IsGraphOf ties.now nodes.now) }
{
    let count = nodes.count(ties);
    let mut graph = Graph::new(alloc, count)?;
    for to in 0..count {
        add_arrows_to(alloc, &mut graph, nodes, ties, count, to)?;
    }
    Ok(graph)
}

/// Adds an arrow to this node from each of these nodes that comes before it.
fn add_arrows_from(
    alloc: Global,
    graph: &mut Graph,
    nodes: &Nodes,
    ties: &Dependence<'_>,
    among: &[u32],
    to: u32,
) -> Result<(), NoMemory>
    requires size { nodes_of graph.old ≡ count_of ties.now nodes.now }
    requires among { All (λ n. n < count_of ties.now nodes.now) among.now }
    requires to { to < count_of ties.now nodes.now }
    ensures { IfOk result (λ _. Grows ties.now nodes.now (λ a b. list_any (λ m. m == a) among.now && to == b) graph.old graph.new) }
{
    for from in among {
        add_arrow(alloc, graph, nodes, ties, *from, to)?;
    }
    Ok(())
}

/// The graph of the transactions but one, from the graph of all: it has no other arrows.
fn graph_without(
    alloc: Global,
    ties: &Dependence<'_>,
    all: &Graph,
    txn: TxnNo,
) -> Result<Graph, NoMemory>
    requires { IsGraphOf ties.now Nodes.All all.now }
    ensures { IfOk result (IsGraphOf ties.now (Nodes.Without txn)) }
{
    let nodes = Nodes::Without(txn);
    let count = nodes.count(ties);
    let mut graph = Graph::new(alloc, count)?;
    for to in 0..count {
        let others = all.before(to);
        add_arrows_from(alloc, &mut graph, &nodes, ties, others, to)?;
    }
    Ok(graph)
}

/// Whether what was found is an order.
fn is_order(found: &Ordered) -> bool
    ensures { result ≡ is_order found.now }
{
    match found {
        Ordered::Order(_) => true,
        Ordered::Circle(_) => false,
    }
}

/// Whether the nodes of this graph can be put in an order.
fn has_order(
    alloc: Global,
    _nodes: &Nodes,
    _ties: &Dependence<'_>,
    graph: &Graph,
) -> Result<bool, NoMemory>
    requires { IsGraphOf _ties.now _nodes.now graph.now }
    ensures { IfOk result (λ has. has ≡ can_order _ties.now _nodes.now) }
{
    let found = order(alloc, graph)?;
    Ok(is_order(&found))
}

/// Whether there is an order.
fn can_order(alloc: Global, nodes: &Nodes, ties: &Dependence<'_>) -> Result<bool, NoMemory>
    ensures { IfOk result (λ can. can ≡ can_order ties.now nodes.now) }
{
    let graph = graph_of(alloc, nodes, ties)?;
    has_order(alloc, nodes, ties, &graph)
}

/// Whether there is an order of the transactions but one.
fn can_order_without(
    alloc: Global,
    ties: &Dependence<'_>,
    all: &Graph,
    txn: TxnNo,
) -> Result<bool, NoMemory>
    requires { IsGraphOf ties.now Nodes.All all.now }
    ensures { IfOk result (λ can. can ≡ can_order ties.now (Nodes.Without txn)) }
{
    let graph = graph_without(alloc, ties, all, txn)?;
    has_order(alloc, &Nodes::Without(txn), ties, &graph)
}

/// Whether a transaction wrote nothing, and the others can be ordered.
fn stands_in_the_way(
    alloc: Global,
    history: &History,
    ties: &Dependence<'_>,
    all: &Graph,
    txn: TxnNo,
) -> Result<bool, NoMemory>
    requires same { ties.now ≡ history.now }
    requires all { IsGraphOf ties.now Nodes.All all.now }
    ensures { IfOk result (λ stands. stands ≡ stands_in_the_way history.now txn) }
{
    if is_read_only(history, txn) {
        can_order_without(alloc, ties, all, txn)
    } else {
        Ok(false)
    }
}

/// The same of some transaction of a cycle.
fn some_stand_in_the_way(
    alloc: Global,
    history: &History,
    ties: &Dependence<'_>,
    all: &Graph,
    walk: &[Edge],
) -> Result<bool, NoMemory>
    requires same { ties.now ≡ history.now }
    requires all { IsGraphOf ties.now Nodes.All all.now }
    ensures { IfOk result (λ some. some ≡ some_stand_in_the_way history.now walk.now) }
{
    for edge in walk {
        let stands = stands_in_the_way(alloc, history, ties, all, edge.from)?;
        if stands {
            return Ok(true);
        }
    }
    Ok(false)
}

/// Whether the history is a snapshot run, and some transaction of a cycle stands in the way of an order.
fn is_in_run(
    alloc: Global,
    history: &History,
    ties: &Dependence<'_>,
    walk: &[Edge],
) -> Result<bool, NoMemory>
    requires { ties.now ≡ history.now }
    ensures { IfOk result (λ is_in. is_in ≡ is_in_run history.now walk.now) }
{
    let can = can_order(alloc, &Nodes::Points, ties)?;
    if can {
        let all = graph_of(alloc, &Nodes::All, ties)?;
        some_stand_in_the_way(alloc, history, ties, &all, walk)
    } else {
        Ok(false)
    }
}

/// The same, with the dependencies of the history.
fn is_in_history(alloc: Global, history: &History, walk: &[Edge]) -> Result<bool, NoMemory>
    ensures { IfOk result (λ is_in. is_in ≡ is_in_run history.now walk.now) }
{
    let ties = Dependence::of(alloc, history)?;
    is_in_run(alloc, history, &ties, walk)
}

/// Whether a cycle is a read-only anomaly.
pub fn is_read_only_anomaly(
    alloc: Global,
    history: &History,
    walk: &[Edge],
) -> Result<bool, NoMemory>
    ensures { IfOk result (λ is_one. is_one ≡ is_read_only_anomaly history.now walk.now) }
{
    let may = may_be(history, walk);
    if may {
        is_in_history(alloc, history, walk)
    } else {
        Ok(false)
    }
}
