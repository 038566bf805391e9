//! Whether a sound history is serializable.

ghost use Rattle.std.specs.Prelude.{◌≡◌, ◌<◌, length, map, slice_index, IfOk};
ghost use Rattle.std.specs.List.{All};
ghost use Rattle.lab_history.specs.History.{History};
ghost use Rattle.lab_deps.specs.KindSets.{among, is_any};
ghost use Rattle.lab_judge.specs.Due.{IsDueSerial};
ghost use Rattle.lab_judge.specs.Graphs.{IsGraphOf, IsNetOf};

use crate::serial::{Order, Serial};
use crate::walks::walk_round;
use lab_deps::{Dependencies, Kinds};
use lab_order::{Graph, NoMemory, Ordered, order};
use lab_table::TxnNo;
use std::alloc::Global;

/// The serial verdict on a sound history with these committed transactions, these dependencies and the graph of them
/// all: the least order of the transactions along which every dependency points forward, or a cycle.
pub(crate) fn serial_verdict(
    alloc: Global,
    net: &Dependencies<'_>,
    graph: &Graph,
) -> Result<Serial, NoMemory>
    requires { IsGraphOf (among Kinds.ALL) net.now graph.now }
    ensures { IfOk result (λ serial. (h : History) → IsNetOf h is_any net.now → IsDueSerial h serial) }
{
    match order(alloc, graph)? {
        Ordered::Order(order) => {
            let numbers = numbers_of(alloc, net, &order)?;
            Ok(Serial::Yes(Order::new(numbers)))
        }
        Ordered::Circle(circle) => {
            let walk = walk_round(alloc, net, Kinds::ALL, circle)?;
            Ok(Serial::NoCycle(walk))
        }
    }
}

/// The transactions of these nodes, in the same order.
fn numbers_of(alloc: Global, net: &Dependencies<'_>, order: &[u32]) -> Result<Vec<TxnNo>, NoMemory>
    requires { All (λ node. node < length net.now.numbers) order.now }
    ensures { IfOk result (λ numbers. numbers.items ≡ map (λ node. slice_index net.now.numbers node) order.now) }
{
    let mut numbers = Vec::with_capacity(alloc, order.len())?;
    for node in order {
        numbers.push(net.number(*node))?;
    }
    Ok(numbers)
}
