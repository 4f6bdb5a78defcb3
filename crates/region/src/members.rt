//! Members that are lent, or were made.
ghost use Rattle.std.specs.Prelude.{◌≡◌, ℕ, ◌||◌, false, IfOk};
ghost use Rattle.least_sets.specs.World.{has};
ghost use Rattle.region.specs.Members.{ids_of};

use idsets::{IdSet, union};
use std::alloc::{AllocError, Global};

/// Members that are kept somewhere, or were made.
#[derive(Drop)]
pub(crate) enum Members<'a> {
    Lent(&'a IdSet),
    Made(IdSet),
}

impl<'a> Members<'a> {
    pub(crate) fn none(alloc: Global) -> Members<'a>
        ensures { (u : ℕ) → has (ids_of result) u ≡ false }
    {
        Members::Made(IdSet::new(alloc))
    }

    pub(crate) fn set(&self) -> &IdSet
        ensures { result.now ≡ ids_of self.now }
    {
        match self {
            Members::Lent(ids) => ids,
            Members::Made(ids) => ids,
        }
    }

    /// The same as a set of their own. What was made takes no memory.
    pub(crate) fn into_set(self) -> Result<IdSet, AllocError>
        ensures { IfOk result (λ set. set ≡ ids_of self.entry) }
    {
        match self {
            Members::Lent(ids) => ids.again(),
            Members::Made(ids) => Ok(ids),
        }
    }
}

/// What either has. Where one of them has nothing it is the other.
pub(crate) fn either<'a>(
    alloc: Global,
    first: Members<'a>,
    second: Members<'a>,
) -> Result<Members<'a>, AllocError>
    ensures { IfOk result (λ all. (u : ℕ) → has (ids_of all) u ≡ (has (ids_of first.entry) u || has (ids_of second.entry) u)) }
{
    if second.set().is_empty() {
        return Ok(first);
    }
    if first.set().is_empty() {
        return Ok(second);
    }
    Ok(Members::Made(union(alloc, first.set(), second.set())?))
}
