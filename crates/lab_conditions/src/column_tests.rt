//! Tests of one number of a row: its id or its value.

ghost use Rattle.std.specs.Prelude.{◌≡◌, ◌||◌, ℤ, int_lt};
ghost use Rattle.lab_conditions.specs.Column.{is_below, is_above};

use crate::remainders::Remainders;
use lab_table::{Cmp, Modulus, NoMemory, Value};
use std::alloc::Global;
use std::collections::HashSet;
use std::marker::Model;

/// Tests of a number, of which a number may pass one or several.
#[derive(Drop)]
pub(crate) struct ColumnTests {
    /// Each number below this one passes.
    below: Option<i64>,
    /// Each number above this one passes.
    above: Option<i64>,
    /// Each of these numbers passes.
    numbers: HashSet<i64>,
    /// Each number passes that leaves the rest of a pair.
    remainders: Remainders,
}

impl Model for ColumnTests {
    ghost use Rattle.std.specs.HashSet.{keys};
    ghost use Rattle.lab_conditions.specs.Column.{Tests, coded_tests};

    ghost Value = { Tests };

    ghost coded = { coded_tests };

    ghost view = { λ t. record { below = t.below; above = t.above; numbers = keys t.numbers; remainders = t.remainders } };
}

impl ColumnTests {
    ghost use Rattle.std.specs.Prelude.{◌≡◌, ◌||◌, ℤ, int_lt, OnOk};
    ghost use Rattle.std.specs.List.{list_any};
    ghost use Rattle.std.specs.Ordering.{int_eq};
    ghost use Rattle.lab_table.specs.Predicate.{compares};
    ghost use Rattle.lab_conditions.specs.Column.{no_tests, passes, leaves};

    /// No test. It takes no memory.
    pub(crate) fn new(alloc: Global) -> ColumnTests
        ensures { result ≡ no_tests }
    {
        ColumnTests {
            below: None,
            above: None,
            numbers: HashSet::new(alloc),
            remainders: Remainders::new(alloc),
        }
    }

    /// Whether a number passes one of the tests.
    pub(crate) fn passes(&self, number: i64) -> bool
        ensures { result ≡ passes self.now number }
    {
        is_below(self.below, number)
            || is_above(self.above, number)
            || self.numbers.contains(&number)
            || self.remainders.any_left_by(number)
    }

    /// Adds a comparison with a number.
    pub(crate) fn add_comparison(&mut self, cmp: Cmp, number: Value) -> Result<(), NoMemory>
        ensures { OnOk result ((n : ℤ) → passes self.new n ≡ (passes self.old n || compares cmp n number)) }
    {
        let number = number.number();
        match cmp {
            Cmp::Eq => return self.add_number(number),
            Cmp::Ne => {
                self.add_below(number);
                self.add_above(number);
            }
            Cmp::Lt => self.add_below(number),
            Cmp::Le => self.add_below(number + 1),
            Cmp::Gt => self.add_above(number),
            Cmp::Ge => self.add_above(number - 1),
        }
        Ok(())
    }

    /// Lets each number pass that is below this one.
    fn add_below(&mut self, number: i64)
        ensures { (n : ℤ) → passes self.new n ≡ (passes self.old n || int_lt n number) }
    {
        self.below = Some(highest(self.below, number));
    }

    /// Lets each number pass that is above this one.
    fn add_above(&mut self, number: i64)
        ensures { (n : ℤ) → passes self.new n ≡ (passes self.old n || int_lt number n) }
    {
        self.above = Some(lowest(self.above, number));
    }

    /// Lets a number pass.
    pub(crate) fn add_number(&mut self, number: i64) -> Result<(), NoMemory>
        ensures { OnOk result ((n : ℤ) → passes self.new n ≡ (passes self.old n || int_eq n number)) }
    {
        self.numbers.insert(number)?;
        Ok(())
    }

    /// Lets each of these numbers pass.
    pub(crate) fn add_numbers(&mut self, numbers: &[Value]) -> Result<(), NoMemory>
        ensures { OnOk result ((n : ℤ) → passes self.new n ≡ (passes self.old n || list_any (int_eq n) numbers.now)) }
    {
        for number in numbers {
            self.add_number(number.number())?;
        }
        Ok(())
    }

    /// Lets each number pass that leaves this rest by this modulus.
    pub(crate) fn add_remainder(&mut self, modulus: Modulus, rest: Value) -> Result<(), NoMemory>
        ensures { OnOk result ((n : ℤ) → passes self.new n ≡ (passes self.old n || leaves n (modulus, rest))) }
    {
        self.remainders.add(modulus, rest)
    }
}

/// Whether a number is below a bound, if there is one.
fn is_below(bound: Option<i64>, number: i64) -> bool
    ensures { result ≡ is_below bound number }
{
    match bound {
        Some(bound) => number < bound,
        None => false,
    }
}

/// Whether a number is above a bound, if there is one.
fn is_above(bound: Option<i64>, number: i64) -> bool
    ensures { result ≡ is_above bound number }
{
    match bound {
        Some(bound) => number > bound,
        None => false,
    }
}

/// The higher one of a bound, if there is one, and a number.
fn highest(bound: Option<i64>, number: i64) -> i64
    ensures { (n : ℤ) → int_lt n result ≡ (is_below bound n || int_lt n number) }
{
    match bound {
        Some(bound) => bound.max(number),
        None => number,
    }
}

/// The lower one of a bound, if there is one, and a number.
fn lowest(bound: Option<i64>, number: i64) -> i64
    ensures { (n : ℤ) → int_lt result n ≡ (is_above bound n || int_lt number n) }
{
    match bound {
        Some(bound) => bound.min(number),
        None => number,
    }
}
