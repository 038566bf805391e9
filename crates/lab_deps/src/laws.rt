//! Theorems on the order of faults.

ghost use Rattle.std.specs.Prelude.{◌≡◌};
ghost use Rattle.lab_history.specs.History as history;
ghost use Rattle.lab_deps.specs.FaultOrder.{IsFirst};
ghost use Rattle.lab_deps.specs.Refusal.{IsAnswer};
ghost use Rattle.lab_deps.specs.declared.fault.LocalFault.{LocalFault as Fault};

/// A history has at most one first fault.
pub fn first_fault_is_unique()
    ensures { (h : history.History) (one other : Fault) → IsFirst h one → IsFirst h other → one ≡ other }
{}

/// The first fault of a history is an uncommitted read only if the history has no fault of another kind.
pub fn first_fault_is_answer()
    ensures { (h : history.History) (fault : Fault) → IsFirst h fault → IsAnswer h fault }
{}
