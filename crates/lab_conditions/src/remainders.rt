//! Tests of what a number leaves when it is divided.

ghost use Rattle.std.specs.Prelude.{◌≡◌, ◌||◌, ℕ, ℤ, Bool, OnOk, OnErr};
ghost use Rattle.std.specs.List.{list_any};
ghost use Rattle.lab_conditions.specs.Column.{leaves_by};

use lab_table::{Modulus, NoMemory, Value};
use std::alloc::Global;
use std::collections::{BTreeSet, HashSet};
use std::marker::Model;

/// Pairs of a modulus and a rest. A number passes where it leaves the rest of a pair by the pair's modulus.
// Of all pairs with one modulus, a number can pass by a single one, which a look-up finds.
#[derive(Drop)]
pub(crate) struct Remainders {
    pairs: HashSet<(u32, i64)>,
    /// Each modulus of the pairs once.
    moduli: BTreeSet<Modulus>,
}

impl Model for Remainders {
    ghost use Rattle.std.specs.Prelude.{◌≡◌, false, ℕ, ℤ, List};
    ghost use Rattle.std.specs.HashSet.{keys};
    ghost use Rattle.std.specs.Coded.{coded×, coded_list, coded_ℕ, coded_ℤ};
    ghost use Rattle.lab_conditions.specs.Column.{lacks_a_modulus};

    ghost Value = { List (ℕ × ℤ) };

    ghost coded = { coded_list (coded× coded_ℕ coded_ℤ) };

    ghost view = { λ r. keys r.pairs };

    ghost invariant = { λ r. lacks_a_modulus r.moduli.keys (keys r.pairs) ≡ false };
}

impl Remainders {
    ghost use Rattle.std.specs.Prelude.{◌≡◌, ◌||◌, ℤ, [], OnOk};
    ghost use Rattle.std.specs.List.{list_any};
    ghost use Rattle.lab_conditions.specs.Column.{leaves};

    /// No pair. It takes no memory.
    pub(crate) fn new(alloc: Global) -> Remainders
        ensures { result ≡ [] }
    {
        Remainders {
            pairs: HashSet::new(alloc),
            moduli: BTreeSet::new(alloc),
        }
    }

    /// Whether a number leaves the rest of one of the pairs by its modulus. A rest has the sign of the number.
    pub(crate) fn any_left_by(&self, number: i64) -> bool
        ensures { result ≡ list_any (leaves number) self.now }
    {
        any_left(&self.moduli, &self.pairs, number)
    }

    /// Adds a pair, unless it is there.
    pub(crate) fn add(&mut self, modulus: Modulus, rest: Value) -> Result<(), NoMemory>
        ensures { OnOk result ((n : ℤ) → list_any (leaves n) self.new ≡ (list_any (leaves n) self.old || leaves n (modulus, rest))) }
    {
        self.moduli.insert(modulus)?;
        put(&mut self.pairs, (modulus.number(), rest.number()))?;
        Ok(())
    }
}

/// Whether a number leaves the rest of a pair by one of the moduli.
fn any_left(moduli: &BTreeSet<Modulus>, pairs: &HashSet<(u32, i64)>, number: i64) -> bool
    ensures { result ≡ list_any (leaves_by number pairs.now.keys) moduli.now.keys }
{
    moduli
        .iter()
        .any(|modulus| leaves_by(pairs, number, *modulus))
}

/// Whether a number leaves the rest of a pair by this modulus.
fn leaves_by(pairs: &HashSet<(u32, i64)>, number: i64, modulus: Modulus) -> bool
    ensures { result ≡ leaves_by number pairs.now.keys modulus }
{
    let modulus = modulus.number();
    pairs.contains(&(modulus, number % i64::from(modulus)))
}

/// Adds a pair to others, unless it is there.
fn put(pairs: &mut HashSet<(u32, i64)>, pair: (u32, i64)) -> Result<(), NoMemory>
    ensures ok { OnOk result ((test : ℕ × ℤ → Bool) → list_any test pairs.new.keys ≡ (list_any test pairs.old.keys || test pair)) }
    ensures err { OnErr result (pairs.new.keys ≡ pairs.old.keys) }
{
    pairs.insert(pair)?;
    Ok(())
}
