//! Conditions by a number.

ghost use Rattle.std.specs.Prelude.{◌≡◌, ◌||◌, ℕ, ℤ, IsTrue, OnOk};
ghost use Rattle.std.specs.List.{list_any};
ghost use Rattle.lab_table.specs.Predicate.{holds};
ghost use Rattle.lab_conditions.specs.Filed.{is_true_of};

use crate::same::same;
use lab_table::{NoMemory, Pred, RowId, Sequence, Value};
use std::alloc::Global;
use std::collections::HashMap;
use std::marker::Model;

/// Conditions, each of which can be true only of rows off which one and the same lens reads its number.
#[derive(Drop)]
pub(crate) struct ByNumber {
    conditions: HashMap<i64, Sequence<Pred>>,
}

impl Model for ByNumber {
    ghost use Rattle.lab_conditions.specs.Filed.{ByNumber as Plain, coded_by_number};

    ghost Value = { Plain };

    ghost coded = { coded_by_number };

    ghost view = { λ b. b.conditions.entries };
}

impl ByNumber {
    ghost use Rattle.std.specs.Prelude.{◌≡◌, ◌||◌, ◌&&◌, ℕ, ℤ, false, OnOk};
    ghost use Rattle.std.specs.Ordering.{int_eq};
    ghost use Rattle.lab_table.specs.Predicate.{holds};
    ghost use Rattle.lab_conditions.specs.Filed.{any_at};

    /// No condition. It takes no memory.
    pub(crate) fn new(alloc: Global) -> ByNumber
        ensures { (number : ℤ) (id : ℕ) (value : ℤ) → any_at result number id value ≡ false }
    {
        ByNumber {
            conditions: HashMap::new(alloc),
        }
    }

    /// Whether a condition of this number is true of the row `id` with this value.
    pub(crate) fn any_at(&self, number: i64, id: RowId, value: Value) -> bool
        ensures { result ≡ any_at self.now number id value }
    {
        match self.conditions.get(&number) {
            Some(conditions) => any_of(conditions.as_slice(), id, value),
            None => false,
        }
    }

    /// Adds a condition, unless it is at this position of those by its number. Returns its position.
    pub(crate) fn add(
        &mut self,
        alloc: Global,
        number: i64,
        pred: Pred,
        position: Option<usize>,
    ) -> Result<usize, NoMemory>
        ensures { OnOk result ((n : ℤ) (id : ℕ) (value : ℤ) → any_at self.new n id value ≡ (any_at self.old n id value || (int_eq n number && holds pred id value))) }
    {
        if let Some(conditions) = self.conditions.get_mut(&number) {
            return keep(conditions, pred, position);
        }
        let mut conditions = Sequence::new(Vec::new(alloc));
        conditions.push(pred)?;
        self.conditions.insert(number, conditions)?;
        Ok(0)
    }
}

/// Whether one of these conditions is true of the row `id` with this value.
fn any_of(conditions: &[Pred], id: RowId, value: Value) -> bool
    ensures { result ≡ list_any (is_true_of id value) conditions.now }
{
    conditions.iter().any(|pred| pred.matches(id, value))
}

/// Adds a condition, unless it is at this position. Returns its position.
fn keep(
    conditions: &mut Sequence<Pred>,
    pred: Pred,
    position: Option<usize>,
) -> Result<usize, NoMemory>
    ensures { OnOk result ((id : ℕ) (value : ℤ) → list_any (is_true_of id value) conditions.new ≡ (list_any (is_true_of id value) conditions.old || holds pred id value)) }
{
    if let Some(position) = position {
        if is_at(conditions.as_slice(), position, &pred) {
            return Ok(position);
        }
    }
    let position = conditions.as_slice().len();
    conditions.push(pred)?;
    Ok(position)
}

/// Whether a condition is at this position of others.
fn is_at(conditions: &[Pred], position: usize, pred: &Pred) -> bool
    ensures { IsTrue result → (id : ℕ) (value : ℤ) → list_any (is_true_of id value) conditions.now ≡ (list_any (is_true_of id value) conditions.now || holds pred.now id value) }
{
    match conditions.get(position) {
        Some(other) => same(other, pred),
        None => false,
    }
}
