//! What two sets of ids give.
ghost use Rattle.std.specs.Prelude.{◌≡◌, ◌≤◌, ◌+◌, ◌&&◌, ◌||◌, ℕ, true, false, length, not, IfOk, IfSome, IfNone};
ghost use Rattle.std.specs.List.Sorted.{IsStrictlyIncreasing};
ghost use Rattle.idsets.specs.Sets.{has, SetsAreOne};

use crate::{IdSet, Seek};
use std::alloc::{AllocError, Global};

/// The ids of either set, by one walk over both.
pub fn union(alloc: Global, a: &IdSet, b: &IdSet) -> Result<IdSet, AllocError>
    ensures members { IfOk result (λ all. (id : ℕ) → has all id ≡ (has a.now id || has b.now id)) }
    ensures ascending { IfOk result (λ all. IsStrictlyIncreasing all) }
{
    let left = a.as_slice();
    let right = b.as_slice();
    let most = left.len().saturating_add(right.len());
    let mut merged = Vec::with_capacity(alloc, most)?;
    let mut i = 0;
    let mut j = 0;
    'walk: while i < left.len() && j < right.len() {
        if left[i] < right[j] {
            merged.push(left[i])?;
            i += 1;
        } else if right[j] < left[i] {
            merged.push(right[j])?;
            j += 1;
        } else {
            merged.push(left[i])?;
            i += 1;
            j += 1;
        }
    }
    merged.extend_from_slice(&left[i..])?;
    merged.extend_from_slice(&right[j..])?;
    Ok(IdSet::of_ascending(merged))
}

/// The ids of the first set that the second does not have, by one walk over both.
pub fn exclude(alloc: Global, a: &IdSet, b: &IdSet) -> Result<IdSet, AllocError>
    ensures members { IfOk result (λ rest. (id : ℕ) → has rest id ≡ (has a.now id && not (has b.now id))) }
    ensures ascending { IfOk result (λ rest. IsStrictlyIncreasing rest) }
{
    let left = a.as_slice();
    let right = b.as_slice();
    let mut rest = Vec::new(alloc);
    let mut i = 0;
    let mut j = 0;
    'walk: while i < left.len() && j < right.len() {
        if left[i] < right[j] {
            rest.push(left[i])?;
            i += 1;
        } else if right[j] < left[i] {
            j += 1;
        } else {
            i += 1;
            j += 1;
        }
    }
    rest.extend_from_slice(&left[i..])?;
    Ok(IdSet::of_ascending(rest))
}

/// The ids of a set that are in the other too. That one is searched at most as often as the set has ids.
pub fn intersect<S: Seek>(alloc: Global, few: &IdSet, many: &mut S) -> Result<IdSet, AllocError>
    ensures members { IfOk result (λ both. (id : ℕ) → has both id ≡ (has few.now id && has (S.ids many.old) id)) }
    ensures ascending { IfOk result (λ both. IsStrictlyIncreasing both) }
    ensures same { S.ids many.new ≡ S.ids many.old }
    ensures seeks { S.seeks many.new ≤ S.seeks many.old + length few.now }
{
    let ids = few.as_slice();
    let mut both = Vec::new(alloc);
    for id in ids {
        if is_in(many, *id) {
            both.push(*id)?;
        }
    }
    Ok(IdSet::of_ascending(both))
}

/// An id of a set that is not in the other, if there is one. That one is searched at most as often as the set has ids.
pub fn first_missing<S: Seek>(few: &IdSet, many: &mut S) -> Option<u64>
    ensures found { IfSome result (λ id. (has few.now id ≡ true) × (has (S.ids many.old) id ≡ false)) }
    ensures none { IfNone result ((id : ℕ) → has few.now id ≡ true → has (S.ids many.old) id ≡ true) }
    ensures same { S.ids many.new ≡ S.ids many.old }
    ensures seeks { S.seeks many.new ≤ S.seeks many.old + length few.now }
{
    let ids = few.as_slice();
    for id in ids {
        if !is_in(many, *id) {
            return Some(*id);
        }
    }
    None
}

/// The law that a set is told by the ids that it has.
pub fn sets_of_the_same_ids_are_one()
    ensures { SetsAreOne }
{}

/// Whether the id is one of a set that is searched once for it.
fn is_in<S: Seek>(many: &mut S, id: u64) -> bool
    ensures is { result ≡ has (S.ids many.old) id }
    ensures same { S.ids many.new ≡ S.ids many.old }
    ensures once { S.seeks many.new ≤ S.seeks many.old + 1 }
{
    match many.seek(id) {
        Some(first) => first == id,
        None => false,
    }
}
