//! What a condition is filed by: one number of a row that the condition determines.

ghost use Rattle.std.specs.Prelude.{◌≡◌, ◌≤◌};
ghost use Rattle.lab_table.specs.Predicate.{column};

use lab_table::{Col, Modulus, RowId, Value};

/// How a number is read off a row.
#[derive(Clone, Copy, PartialEq, Eq)]
pub(crate) enum Lens {
    /// 0 for every row.
    Anything,
    /// What the column has.
    Number(Col),
    /// What the column leaves when it is divided by the modulus.
    Remainder(Col, Modulus),
    /// The value divided by one more than this number, rounded toward 0.
    Quotient(u32),
    /// 1 if the column leaves another rest than this one by the modulus, else 0.
    Misses(Col, Modulus, Value),
}

impl Lens {
    ghost use Rattle.std.specs.Prelude.{◌≡◌};
    ghost use Rattle.lab_conditions.specs.Filed.{looked};

    /// The number that is read off the row `id` with this value.
    pub(crate) fn look(&self, id: RowId, value: Value) -> i64
        ensures { result ≡ looked self.now id value }
    {
        match self {
            Lens::Anything => 0,
            Lens::Number(col) => column(*col, id, value),
            Lens::Remainder(col, modulus) => column(*col, id, value) % i64::from(modulus.number()),
            Lens::Quotient(last) => value.number() / (i64::from(*last) + 1),
            Lens::Misses(col, modulus, rest) => {
                i64::from(column(*col, id, value) % i64::from(modulus.number()) != rest.number())
            }
        }
    }

    /// Numbers that differ for different lenses.
    pub(crate) fn code(&self) -> (u32, u32, i64) {
        match self {
            Lens::Anything => (0, 0, 0),
            Lens::Number(col) => (1, column_code(*col), 0),
            Lens::Remainder(col, modulus) => (2 + column_code(*col), modulus.number(), 0),
            Lens::Quotient(last) => (4, *last, 0),
            Lens::Misses(col, modulus, rest) => {
                (5 + column_code(*col), modulus.number(), rest.number())
            }
        }
    }

    /// Of two lenses that a condition can be filed by, the one that is worth more lets fewer rows pass. Tests of the value
    /// come first: a value is one of two billion, an id one of a million.
    // Any choice is right; it decides how many conditions are asked of a row.
    pub(crate) fn worth(&self) -> u64 {
        match self {
            Lens::Anything => 0,
            Lens::Number(Col::Value) => 5_000_000_000_000_000,
            Lens::Number(Col::Id) => 1_000_000,
            Lens::Remainder(Col::Value, modulus) => 1_000_000 * u64::from(modulus.number()),
            Lens::Remainder(Col::Id, modulus) => u64::from(modulus.number()),
            Lens::Quotient(last) => 2_000_000_000_000_000 / (u64::from(*last) + 1),
            Lens::Misses(..) => 1,
        }
    }
}

/// What the row `id` with this value has in a column.
fn column(col: Col, id: RowId, value: Value) -> i64
    ensures { result ≡ column col id value }
{
    match col {
        Col::Id => i64::from(id.number()),
        Col::Value => value.number(),
    }
}

/// 0 for the id, 1 for the value.
fn column_code(col: Col) -> u32
    ensures { result ≤ 1 }
{
    match col {
        Col::Id => 0,
        Col::Value => 1,
    }
}
