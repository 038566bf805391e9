//! The nodes that may be placed next.

ghost use Rattle.std.specs.Prelude.{◌≡◌, ◌+◌, ◌≤◌, [], ℕ, Bool, cond, None, IfOk, IfSome};
ghost use Rattle.std.specs.List.{All, count_by};

use crate::memory::NoMemory;
use std::alloc::Global;
use std::cmp::Reverse;
use std::collections::BinaryHeap;
use std::marker::Model;

/// Nodes of which the least comes first.
#[derive(Debug, Drop)]
pub struct FreeNodes {
    heap: BinaryHeap<Reverse<u32>>,
}

impl Model for FreeNodes {
    ghost use Rattle.std.specs.Prelude.{List, ℕ, map};
    ghost use Rattle.std.specs.BinaryHeap.{IsHeap, heap_items};
    ghost use Rattle.std.specs.Ordering.{nat_cmp};

    ghost Value = { List ℕ };

    ghost view = { λ f. map (λ n. n.0) (heap_items f.heap) };

    ghost invariant = { λ f. IsHeap (λ a b. nat_cmp b.0 a.0) (heap_items f.heap) };
}

impl FreeNodes {
    /// No nodes; it takes no memory.
    pub fn new(alloc: Global) -> FreeNodes
        ensures { result ≡ [] }
    {
        FreeNodes {
            heap: BinaryHeap::new(alloc),
        }
    }

    /// Puts a node in.
    pub fn push(&mut self, node: u32) -> Result<(), NoMemory>
        ensures { IfOk result (λ _. (test : ℕ → Bool) → count_by test self.new ≡ cond (test node) 1 0 + count_by test self.old) }
    {
        self.heap.push(Reverse(node))?;
        Ok(())
    }

    /// Takes the least out, or answers None where there is none.
    pub fn pop(&mut self) -> Option<u32>
        ensures some { IfSome result (λ node. (test : ℕ → Bool) → count_by test self.old ≡ cond (test node) 1 0 + count_by test self.new) }
        ensures least { IfSome result (λ node. All (λ n. node ≤ n) self.old) }
        ensures none { result ≡ None → self.old ≡ [] }
    {
        let Reverse(node) = self.heap.pop()?;
        Some(node)
    }
}
