//! Values that are found by their keys.

ghost use Rattle.std.specs.Prelude.{◌≡◌, ◌≤◌, true, false, length, IfOk};
ghost use Rattle.std.specs.Option.{option_copied};
ghost use Rattle.std.specs.Ordering.{is_lt};
ghost use Rattle.std.specs.List.Sorted.{IsSortedByKey, IsPartitionPoint};
ghost use Rattle.lab_history.specs.Keyed.{value_at};

use crate::hint::Hint;
use lab_table::NoMemory;
use std::marker::Model;

/// Values by their keys: what a key has is the first value that a list gave it. It is found by halving.
#[derive(Drop)]
pub struct Keyed<K: Ord + Copy, V: Copy> {
    entries: Vec<(K, V)>,
}

impl<K: Ord + Copy, V: Copy> Model for Keyed<K, V> {
    ghost use Rattle.std.specs.Prelude.{List};
    ghost use Rattle.std.specs.Coded.{coded×, coded_list};
    ghost use Rattle.std.specs.List.Sorted.{IsSortedByKey};

    ghost Value = { List (K × V) };

    ghost coded = { coded_list (coded× K.code V.code) };

    ghost view = { λ k. k.entries.items };

    ghost invariant = { λ k. IsSortedByKey (λ e. e.0) K.cmp k.entries.items };
}

impl<K: Ord + Copy, V: Copy> Keyed<K, V> {
    /// The values of these entries by their keys.
    pub fn new(entries: Vec<(K, V)>) -> Result<Keyed<K, V>, NoMemory>
        ensures { IfOk result (λ keyed. (key : K) → value_at K.cmp keyed key ≡ value_at K.cmp entries.items key) }
    {
        let mut entries = entries;
        entries.sort_by_key(|entry| entry.0)?;
        Ok(Keyed { entries })
    }

    /// The value of a key, if it has one.
    pub fn get(&self, key: K) -> Option<V>
        ensures { result ≡ value_at K.cmp self.now key }
    {
        value_here(&self.entries, key, place_of(&self.entries, key)).copied()
    }

    /// The same, looked for where a hint leads to first. The hint then says where the key stands.
    #[inline(always)]
    pub fn get_near(&self, key: K, hint: &mut Hint) -> Option<V>
        ensures { result ≡ value_at K.cmp self.now key }
    {
        let place = place_near(&self.entries, key, *hint);
        *hint = hint.moved_to(place);
        value_here(&self.entries, key, place).copied()
    }
}

/// The first value that entries, which are sorted by their keys, give a key, where this many of them stand below it.
#[inline(always)]
fn value_here<K: Ord + Copy, V>(entries: &[(K, V)], key: K, place: usize) -> Option<&V>
    requires sorted { IsSortedByKey (λ e. e.0) K.cmp entries.now }
    requires bound { place ≤ length entries.now }
    requires point { IsPartitionPoint (λ e. is_lt (K.cmp e.0 key) ≡ true) (λ e. is_lt (K.cmp e.0 key) ≡ false) entries.now place }
    ensures { option_copied result ≡ value_at K.cmp entries.now key }
{
    let entry = entries.get(place)?;
    if entry.0.cmp(&key).is_eq() {
        Some(&entry.1)
    } else {
        None
    }
}

/// How many entries stand below a key.
fn place_of<K: Ord + Copy, V>(entries: &[(K, V)], key: K) -> usize
    requires { IsSortedByKey (λ e. e.0) K.cmp entries.now }
    ensures bound { result ≤ length entries.now }
    ensures point { IsPartitionPoint (λ e. is_lt (K.cmp e.0 key) ≡ true) (λ e. is_lt (K.cmp e.0 key) ≡ false) entries.now result }
{
    entries.partition_point(|entry| entry.0.cmp(&key).is_lt())
}

/// The same, looked for where a hint leads to first.
#[inline(always)]
fn place_near<K: Ord + Copy, V>(entries: &[(K, V)], key: K, hint: Hint) -> usize
    requires { IsSortedByKey (λ e. e.0) K.cmp entries.now }
    ensures bound { result ≤ length entries.now }
    ensures point { IsPartitionPoint (λ e. is_lt (K.cmp e.0 key) ≡ true) (λ e. is_lt (K.cmp e.0 key) ≡ false) entries.now result }
{
    let next = hint.next();
    if is_place(entries, key, next) {
        return next;
    }
    let strided = hint.strided();
    if is_place(entries, key, strided) {
        return strided;
    }
    place_of(entries, key)
}

/// Whether this many entries are found to stand below a key: the one before is below it, and the one there isn't.
#[inline(always)]
fn is_place<K: Ord + Copy, V>(entries: &[(K, V)], key: K, place: usize) -> bool
    requires { IsSortedByKey (λ e. e.0) K.cmp entries.now }
    ensures bound { result ≡ true → place ≤ length entries.now }
    ensures point { result ≡ true → IsPartitionPoint (λ e. is_lt (K.cmp e.0 key) ≡ true) (λ e. is_lt (K.cmp e.0 key) ≡ false) entries.now place }
{
    if place > entries.len() {
        return false;
    }
    if place < entries.len() && entries[place].0.cmp(&key).is_lt() {
        return false;
    }
    place == 0 || entries[place - 1].0.cmp(&key).is_lt()
}
