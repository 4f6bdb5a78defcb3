//! Walks over the arcs of groups, as ids.

ghost use Rattle.std.specs.Prelude.{◌≡◌, ◌↔◌, ◌<◌, ℕ, [], true, length, Any, IfOk, slice_index_or};
ghost use Rattle.std.specs.List.Sorted.{IsStrictlyIncreasing};
ghost use Rattle.idsets.specs.Sets.{has};
ghost use Rattle.leopard.specs.inside.Closing.{IsIdArc, IsWalkSet, AreWalkSets};

use idsets::{IdSet, exclude, union};
use rayon::prelude::*;
use std::alloc::{AllocError, Global};
use std::thread::Threads;

/// The ids of the set at a place.
fn set_at(sets: &[IdSet], at: u64) -> &[u64]
    ensures { result.now ≡ slice_index_or sets.now at [] }
{
    match sets.get(at as usize) {
        Some(set) => set.as_slice(),
        None => &[],
    }
}

/// The ends of the arcs from some ids.
fn ends_of_ids(alloc: Global, arcs: &[IdSet], ids: &[u64]) -> Result<IdSet, AllocError>
    ensures { IfOk result (λ ends. (j : ℕ) → (has ends j ≡ true) ↔ Any (λ i. IsIdArc arcs.now i j) ids.now) }
{
    let mut ends = Vec::new(alloc);
    for id in ids {
        ends.extend_from_slice(set_at(arcs, *id))?;
    }
    Ok(IdSet::of_runs(ends)?)
}

/// A set of one id.
fn one(alloc: Global, id: u64) -> Result<IdSet, AllocError>
    ensures { IfOk result (λ set. (other : ℕ) → (has set other ≡ true) ↔ (other ≡ id)) }
{
    let mut ids = Vec::new(alloc);
    ids.push(id)?;
    Ok(IdSet::of(ids))
}

/// The ids to which walks of arcs lead from one, itself among them. In each round the arcs from those that were found in
/// the last one are followed, so the arcs from each are read once.
pub(crate) fn walk_set(alloc: Global, arcs: &[IdSet], from: u64) -> Result<IdSet, AllocError>
    ensures { IfOk result (IsWalkSet arcs.now from) }
{
    let mut all = one(alloc, from)?;
    let mut fresh = one(alloc, from)?;
    for _ in 0..u64::MAX {
        let ids = fresh.as_slice();
        if ids.is_empty() {
            // They are in order, as this call says.
            all.as_slice();
            return Ok(all);
        }
        let ends = ends_of_ids(alloc, arcs, ids)?;
        fresh = exclude(alloc, &ends, &all)?;
        all = union(alloc, &all, &fresh)?;
    }
    // Never taken: so many ids have no room in memory.
    Err(AllocError)
}

/// The ids to which walks lead from each id.
pub(crate) fn closures_of(alloc: Global, arcs: &[IdSet]) -> Result<Vec<IdSet>, AllocError>
    ensures { IfOk result (λ sets. AreWalkSets arcs.now sets.items) }
{
    let mut sets = Vec::new(alloc);
    for at in 0..arcs.len() {
        let ids = walk_set(alloc, arcs, at as u64)?;
        sets.push(ids)?;
    }
    Ok(sets)
}

/// The same, in pieces of so many ids: each piece has a thread of its own.
pub(crate) fn closures_in_pieces(
    rt: &(impl Threads + Sync),
    alloc: Global,
    arcs: &[IdSet],
    piece: usize,
) -> Result<Vec<IdSet>, AllocError>
    ensures { IfOk result (λ sets. AreWalkSets arcs.now sets.items) }
{
    let sets: Result<Vec<IdSet>, AllocError> = (0..arcs.len())
        .into_par_iter()
        .with_min_len(piece)
        .map(
            |at: usize| -> Result<IdSet, AllocError>
                requires { at < length arcs.now }
                ensures { IfOk result (λ set. IsWalkSet arcs.entry.now at set) }
            { walk_set(alloc, arcs, at as u64) },
        )
        .collect(rt, alloc)?;
    sets
}
