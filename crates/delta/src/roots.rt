//! Ids that are put into a set in its place, and taken out again.
ghost use Rattle.std.specs.Prelude.{◌≡◌, ◌||◌, ◌&&◌, ℕ, List, nat_eq, not, IfOk, OnOk, OnErr};
ghost use Rattle.std.specs.List.Sorted.{IsStrictlyIncreasing};
ghost use Rattle.least_sets.specs.World.{has};
ghost use Rattle.delta.specs.inside.Putting.{IsWithout};

use idsets::{IdSet, sets_of_the_same_ids_are_one};
use std::alloc::{AllocError, Global};

/// Puts some ids into a set, in its place, and gives those that were not there. For want of memory the set is what it
/// was.
pub(crate) fn put_each(alloc: Global, ids: &mut IdSet, more: &[u64]) -> Result<Vec<u64>, AllocError>
    ensures all { OnOk result ((i : ℕ) → has ids.new i ≡ (has ids.old i || has more.now i)) }
    ensures added { IfOk result (λ added. IsWithout ids.old ids.new added.items) }
    ensures ascending { IsStrictlyIncreasing ids.old }
    ensures err { OnErr result (ids.new ≡ ids.old) }
{
    let _ = ids.as_slice();
    let mut added = Vec::new(alloc);
    for id in more {
        if let Err(e) = put_one(ids, &mut added, *id) {
            take_each(ids, &added);
            return Err(e);
        }
    }
    Ok(added)
}

/// Puts an id in, and adds it to those that were not there.
fn put_one(ids: &mut IdSet, added: &mut Vec<u64>, id: u64) -> Result<(), AllocError>
    ensures all { OnOk result ((i : ℕ) → has ids.new i ≡ (has ids.old i || nat_eq i id)) }
    ensures added { (was : List ℕ) → IsWithout was ids.old added.old.items → IsWithout was ids.new added.new.items }
{
    if ids.contains(id) {
        return Ok(());
    }
    added.push(id)?;
    ids.insert(id)?;
    Ok(())
}

/// Takes some ids out of a set. It takes no memory.
pub(crate) fn take_each(ids: &mut IdSet, less: &[u64])
    ensures { (left : List ℕ) → IsStrictlyIncreasing left → IsWithout left ids.old less.now → ids.new ≡ left }
{
    sets_of_the_same_ids_are_one();
    for id in less {
        ids.remove(*id);
    }
    let _ = ids.as_slice();
}
