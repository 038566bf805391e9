//! Theorems: each kind of result is unique.

ghost use Rattle.std.specs.Prelude.{◌≡◌, ◌≤◌, ◌==◌, ℕ, List, count_by};
ghost use Rattle.lab_order.specs.Arrows.{Arrows};
ghost use Rattle.lab_order.specs.Back.{IsBackCircle};
ghost use Rattle.lab_order.specs.Least.{NotAfter, IsLeast};
ghost use Rattle.lab_order.specs.Order.{IsAnswered, AreSame};
ghost use Rattle.lab_order.specs.Path.{IsShortestPath};
ghost use Rattle.lab_order.specs.declared.ordering.Ordered.{Ordered};

/// Two lists are equal if neither comes after the other. So there is at most one least list of a kind.
pub fn least_unique()
    ensures { (ns ms : List ℕ) → NotAfter ns ms → NotAfter ms ns → ns ≡ ms }
{}

/// There is at most one least shortest path from one node to another.
pub fn least_path_unique()
    ensures { (graph : Arrows) (from to : ℕ) (ns ms : List ℕ) → IsLeast (IsShortestPath graph from to) ns → IsLeast (IsShortestPath graph from to) ms → ns ≡ ms }
{}

/// A graph has at most one cycle on the way back from its least stuck node.
pub fn back_circle_unique()
    ensures { (graph : Arrows) (ns ms : List ℕ) → IsBackCircle graph ns → IsBackCircle graph ms → ns ≡ ms }
{}

/// A cycle on the way back from the least stuck node has no node twice.
pub fn back_circle_once()
    ensures { (graph : Arrows) (circle : List ℕ) → IsBackCircle graph circle → (node : ℕ) → count_by (λ n. n == node) circle ≤ 1 }
{}

/// A graph has one result: never an order and a cycle, and never two different orders or cycles.
pub fn answered_unique()
    ensures { (graph : Arrows) (a b : Ordered) → IsAnswered graph a → IsAnswered graph b → AreSame a b }
{}
