//! Whether a tuple stands in two operations of a write.
ghost use Rattle.std.specs.Prelude.{◌≡◌, ◌≤◌, length, Some};
ghost use Rattle.std.specs.List.{IsAllAdjacentAnswer};
ghost use Rattle.std.specs.List.Sorted.{IsBinarySearchResult, IsSearchInRange};
ghost use Rattle.std.specs.Option.{option_cmp};
ghost use Rattle.std.specs.Ordering.{is_lt};
ghost use Rattle.names.specs.Order.{tuple_cmp};
ghost use Rattle.meaning.specs.Verdict.{is_twice};
ghost use Rattle.rows.specs.inside.Places.{tuple_at};

use arrayvec::ArrayVec;
use names::limits::MAX_OPS;
use names::{Op, Tuple};
use std::cmp::Ordering;

/// Whether a tuple stands in two operations. Where the tuples rise, none does.
pub(crate) fn is_twice(ops: &[Op]) -> bool
    requires few { length ops.now ≤ MAX_OPS }
    ensures { result ≡ is_twice ops.now }
{
    !are_rising(ops) && some_again(ops)
}

/// Whether each operation's tuple is below the next one's.
fn are_rising(ops: &[Op]) -> bool
    ensures { IsAllAdjacentAnswer (λ o p b. b ≡ is_lt (tuple_cmp o.tuple p.tuple)) ops.now result }
{
    ops.is_sorted_by(|op, next| op.tuple.cmp(&next.tuple).is_lt())
}

/// Whether some operation's tuple stands in one before it. The places of those before it are kept in the
/// order of their tuples.
fn some_again(ops: &[Op]) -> bool
    requires few { length ops.now ≤ MAX_OPS }
    ensures { result ≡ is_twice ops.now }
{
    let mut places = ArrayVec::<usize, MAX_OPS>::new();
    for i in 0..ops.len() {
        match place_of(ops, places.as_slice(), &ops[i].tuple) {
            Ok(_) => return true,
            Err(at) => places.insert(at, i),
        }
    }
    false
}

/// Where the tuple stands among those at the places, or where it would.
fn place_of(ops: &[Op], places: &[usize], tuple: &Tuple) -> Result<usize, usize>
    ensures bound { IsSearchInRange result (length places.now) }
    ensures position { IsBinarySearchResult (λ p. option_cmp tuple_cmp (tuple_at ops.now p) (Some tuple.now)) places.now result }
{
    places.binary_search_by(|place| compare_at(ops, *place, tuple))
}

/// How the tuple at the place compares with another. Where there is none, it is below.
fn compare_at(ops: &[Op], place: usize, tuple: &Tuple) -> Ordering
    ensures { result ≡ option_cmp tuple_cmp (tuple_at ops.now place) (Some tuple.now) }
{
    match ops.get(place) {
        Some(op) => op.tuple.cmp(tuple),
        None => Ordering::Less,
    }
}
