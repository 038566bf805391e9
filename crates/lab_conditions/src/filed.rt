//! Conditions that are filed by their keys.

ghost use Rattle.std.specs.Prelude.{◌≡◌, ◌<◌, ℕ, ℤ, length, get_or, IsTrue, IfOk};
ghost use Rattle.lab_conditions.specs.Filed.{any_filed, filed_holds, ByNumber as Plain};
ghost use Rattle.lab_conditions.specs.declared.lens.Lens.{Lens as Seen};

use crate::by_number::ByNumber;
use crate::key::key_of;
use crate::lens::Lens;
use crate::same::digest;
use lab_table::{NoMemory, Pred, RowId, Value};
use std::alloc::Global;
use std::collections::HashMap;
use std::marker::Model;

/// Conditions, each of which is asked only of rows off which the lens of its key reads the key's number.
// Both maps only save time: what they say is checked before it is used.
#[derive(Drop)]
pub(crate) struct Filed {
    lists: Vec<(Lens, ByNumber)>,
    /// Where the list of a lens is, by the code of the lens.
    places: HashMap<(u32, u32, i64), usize>,
    /// Where a condition is among those of its key, by its digest.
    positions: HashMap<u64, usize>,
}

impl Model for Filed {
    ghost use Rattle.lab_conditions.specs.Filed.{Filed as Plain, coded_filed};

    ghost Value = { Plain };

    ghost coded = { coded_filed };

    ghost view = { λ f. f.lists.items };
}

impl Filed {
    ghost use Rattle.std.specs.Prelude.{◌≡◌, ◌||◌, ℕ, ℤ, [], OnOk};
    ghost use Rattle.lab_table.specs.Predicate.{holds};
    ghost use Rattle.lab_conditions.specs.Filed.{any_filed};

    /// No condition. It takes no memory.
    pub(crate) fn new(alloc: Global) -> Filed
        ensures { result ≡ [] }
    {
        Filed {
            lists: Vec::new(alloc),
            places: HashMap::new(alloc),
            positions: HashMap::new(alloc),
        }
    }

    /// Whether one of the conditions is true of the row `id` with this value.
    pub(crate) fn any_holds(&self, id: RowId, value: Value) -> bool
        ensures { result ≡ any_filed self.now id value }
    {
        self.lists.iter().any(|list| list_holds(list, id, value))
    }

    /// Adds a condition, unless it is there.
    pub(crate) fn add(&mut self, alloc: Global, pred: Pred) -> Result<(), NoMemory>
        ensures { OnOk result ((id : ℕ) (value : ℤ) → any_filed self.new id value ≡ (any_filed self.old id value || holds pred id value)) }
    {
        let key = key_of(&pred);
        let place = list_of(alloc, &mut self.lists, &mut self.places, &key.lens)?;
        let digest = digest(&pred);
        let position = self.positions.get(&digest).copied();
        let list = &mut self.lists[place];
        let position = list.1.add(alloc, key.number, pred, position)?;
        self.positions.insert(digest, position)?;
        Ok(())
    }
}

/// Whether one of a list's conditions is true of the row `id` with this value.
fn list_holds(list: &(Lens, ByNumber), id: RowId, value: Value) -> bool
    ensures { result ≡ filed_holds id value list.now }
{
    list.1.any_at(list.0.look(id, value), id, value)
}

/// Where the list of a lens is, which is made where there is none.
fn list_of(
    alloc: Global,
    lists: &mut Vec<(Lens, ByNumber)>,
    places: &mut HashMap<(u32, u32, i64), usize>,
    lens: &Lens,
) -> Result<usize, NoMemory>
    ensures same { (id : ℕ) (value : ℤ) → any_filed lists.new.items id value ≡ any_filed lists.old.items id value }
    ensures at { IfOk result (λ place. (place < length lists.new.items) × ((d : Seen × Plain) → (get_or lists.new.items place d).0 ≡ lens.now)) }
{
    let code = lens.code();
    if let Some(place) = places.get(&code) {
        if is_list_of(lists, *place, lens) {
            return Ok(*place);
        }
    }
    let place = lists.len();
    lists.push((*lens, ByNumber::new(alloc)))?;
    places.insert(code, place)?;
    Ok(place)
}

/// Whether the list of a lens is at this place.
fn is_list_of(lists: &[(Lens, ByNumber)], place: usize, lens: &Lens) -> bool
    ensures { IsTrue result → (place < length lists.now) × ((d : Seen × Plain) → (get_or lists.now place d).0 ≡ lens.now) }
{
    match lists.get(place) {
        Some(list) => list.0 == *lens,
        None => false,
    }
}
