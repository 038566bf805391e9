//! What all plays have installed.

ghost use Rattle.std.specs.Prelude.{◌≡◌, ◌≤◌, [], ◌∷◌, List, ℕ, Some, true, map, slice_get, take, IfSome};
ghost use Rattle.std.specs.List.{All};
ghost use Rattle.lab_compare.specs.Alike.{differing_text};
ghost use Rattle.lab_compare.specs.Behind.{installed_at, rows_told};
ghost use Rattle.lab_compare.specs.Shared.{BeginSame, Share};
ghost use Rattle.lab_compare.specs.declared.side.Side.{Side as SideOf};

use crate::behind::installed_at;
use crate::side::Side;
use crate::telling::are_same as are_same_rows;
use lab_table::{RowName, Value};

/// Whether two rows are put into the same state.
fn is_same_state(one: Option<Value>, other: Option<Value>) -> bool
    ensures { result ≡ true → one ≡ other }
{
    match one {
        Some(value) => match other {
            Some(again) => value == again,
            None => false,
        },
        None => match other {
            Some(_) => false,
            None => true,
        },
    }
}

/// Whether two writes are the same.
fn is_same(one: &(RowName, Option<Value>), other: &(RowName, Option<Value>)) -> bool
    ensures { result ≡ true → one.now ≡ other.now }
{
    one.0 == other.0 && is_same_state(one.1, other.1)
}

/// Whether a write stands in a list at a place.
fn stands_at(
    installs: &[(RowName, Option<Value>)],
    place: usize,
    install: &(RowName, Option<Value>),
) -> bool
    ensures { result ≡ true → slice_get installs.now place ≡ Some install.now }
{
    match installs.get(place) {
        Some(other) => is_same(other, install),
        None => false,
    }
}

/// How many writes two lists have in common from the front.
fn common(one: &[(RowName, Option<Value>)], other: &[(RowName, Option<Value>)]) -> usize
    ensures { take result one.now ≡ take result other.now }
{
    for (place, install) in one.iter().enumerate() {
        if !stands_at(other, place, install) {
            return place;
        }
    }
    one.len()
}

/// Whether two plays begin with the same rows.
fn begin_same(one: &Side, other: &Side) -> bool
    ensures { result ≡ true → one.now.commits.first ≡ other.now.commits.first }
{
    are_same_rows(one.commits.first.entries(), other.commits.first.entries())
}

/// How many writes two plays have in common from the front, if they begin with the same rows.
fn common_of(one: &Side, other: &Side) -> Option<usize>
    ensures { IfSome result (λ count. BeginSame count one.now other.now) }
{
    if !begin_same(one, other) {
        return None;
    }
    Some(common(
        one.commits.installs.as_slice(),
        other.commits.installs.as_slice(),
    ))
}

/// How many writes all plays have in common from the front, if they begin with the same rows.
pub fn shared(sides: &[Side]) -> Option<usize>
    ensures { Share result sides.now }
{
    let (first, others) = sides.split_first()?;
    let mut count = first.commits.installs.as_slice().len();
    for other in others {
        count = count.min(common_of(first, other)?);
    }
    Some(count)
}

/// How many writes are installed behind the line at a place, if it is answered.
fn count_at(side: &Side, place: usize) -> Option<usize>
    ensures { result ≡ installed_at side.now.commits (slice_get side.now.summary.cells place) }
{
    installed_at(&side.commits, side.summary.cells.as_slice().get(place))
}

/// Whether that is a given number.
fn is_at(side: &Side, place: usize, count: Option<usize>) -> bool
    ensures { result ≡ true → installed_at side.now.commits (slice_get side.now.summary.cells place) ≡ count }
{
    count_at(side, place) == count
}

/// Whether lines of all sides at a place have so many writes installed behind them, if any.
fn are_at(sides: &[Side], place: usize, count: Option<usize>) -> bool
    ensures { result ≡ true → All (λ (side : SideOf). installed_at side.commits (slice_get side.summary.cells place) ≡ count) sides.now }
{
    for side in sides {
        if !is_at(side, place, count) {
            return false;
        }
    }
    true
}

/// Whether a number is one of those up to another, if it is given.
fn is_within(count: Option<usize>, most: usize) -> bool
    ensures { result ≡ true → IfSome count (λ count. count ≤ most) }
{
    match count {
        Some(count) => count <= most,
        None => true,
    }
}

/// Whether all others have installed the same as the first behind the line at a place, where they have so many writes in
/// common from the front.
fn are_as_first(first: &Side, others: &[Side], most: usize, place: usize) -> bool
    requires { All (BeginSame most first.now) others.now }
    ensures { result ≡ true → (mark : List ℕ) → differing_text mark (map (rows_told place) (first.now ∷ others.now)) ≡ [] }
{
    let count = count_at(first, place);
    is_within(count, most) && are_at(others, place, count)
}

/// Whether all engines have installed the same behind the line at a place, where they have so many writes in common.
pub fn are_same(sides: &[Side], shared: Option<usize>, place: usize) -> bool
    requires { Share shared sides.now }
    ensures { result ≡ true → (mark : List ℕ) → differing_text mark (map (rows_told place) sides.now) ≡ [] }
{
    let Some(most) = shared else {
        return false;
    };
    match sides.split_first() {
        Some((first, others)) => are_as_first(first, others, most, place),
        None => false,
    }
}
