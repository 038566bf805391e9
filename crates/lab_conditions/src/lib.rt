//! An index of conditions: whether one of many statements matches a row.
//!
//! A [`ConditionIndex`] covers a list of statements that grows. `matches_any` returns whether one of them matches a row in
//! a state, as if each statement were asked in turn, in a time that hardly grows with their number.
//!
//! A statement matches a row if the row is one of its table and its condition is true of the row. A condition that joins
//! others by `or` is true where one of them is, so the conditions of all statements on a table are one long list of
//! alternatives. The index keeps that list by what the alternatives test:
//!
//! | alternative | kept as | asked by |
//! | --- | --- | --- |
//! | no `where` | a flag of the table | a look at the flag |
//! | `<`, `<=`, `>`, `>=`, `<>` of a column | the widest bound of each side | one comparison for each side |
//! | `=` and `in` of a column, an insert's id | a hash set of numbers | one look-up |
//! | `column % m = r` | a hash set of pairs of m and r, and the different m | one division and one look-up for each m |
//! | any other | a copy, filed by its key | a look-up for each lens, and a test of each condition that it finds |
//!
//! A `not` of a comparison is the opposite comparison, and a `not` of an `and` is an `or` of two `not`s.
//!
//! An alternative that joins tests by `and` is true only of rows of which each test is true. So it is filed by one test: a
//! lens reads a number off a row, and the key of the alternative is a lens and the number that the lens has to read. The
//! lens that lets the fewest rows pass is chosen:
//!
//! | part of the alternative | lens |
//! | --- | --- |
//! | `=` of a column | what the column has |
//! | a lower and an upper bound of the value | the block of the value, where the values are cut into blocks of equal size: the smallest block that has both bounds |
//! | `column % m = r` | what the column leaves by m |
//! | `not column % m = r` | whether the column leaves another rest than r by m |
//! | none of these | 0 for every row |
//!
//! Equal alternatives are kept once.
//!
//! The index takes memory as it grows. If an allocation fails, the index gives up: it frees what it has, and from then on
//! `matches_any` asks each statement. Results stay the same.
#![tactic(auto)]

mod bounds;
mod by_number;
mod column_tests;
mod comparison;
mod condition_index;
mod conditions;
mod filed;
mod key;
mod lens;
mod remainders;
mod same;

pub use condition_index::ConditionIndex;
