//! Sets of ids.
ghost use Rattle.std.specs.Prelude.{◌≡◌, ◌==◌, ◌&&◌, ◌||◌, ℕ, [], length, not, IfOk, OnOk, OnErr};
ghost use Rattle.std.specs.List.Sorted.{IsStrictlyIncreasing};
ghost use Rattle.idsets.specs.Sets.{has};

use crate::place::{is_at, place_of};
use std::alloc::{AllocError, Global};
use std::marker::Model;

/// Ids in ascending order, each once.
#[derive(Drop)]
pub struct IdSet {
    ids: Vec<u64>,
}

impl Model for IdSet {
    ghost use Rattle.std.specs.Prelude.{List, ℕ};
    ghost use Rattle.std.specs.List.Sorted.{IsStrictlyIncreasing};

    ghost Value = { List ℕ };

    ghost view = { λ s. s.ids.items };

    ghost invariant = { λ s. IsStrictlyIncreasing s.ids.items };
}

impl IdSet {
    /// No id. It takes no memory.
    pub fn new(alloc: Global) -> IdSet
        ensures { result ≡ [] }
    {
        IdSet {
            ids: Vec::new(alloc),
        }
    }

    /// The ids of a list, each once. It takes no memory.
    pub fn of(mut ids: Vec<u64>) -> IdSet
        ensures members { (id : ℕ) → has result id ≡ has ids.items id }
        ensures ascending { IsStrictlyIncreasing result }
    {
        ids.sort_unstable();
        ids.dedup();
        IdSet { ids }
    }

    /// The ids of a list, each once, where the list is of few runs in ascending order, one behind the other: these are merged.
    pub fn of_runs(mut ids: Vec<u64>) -> Result<IdSet, AllocError>
        ensures members { IfOk result (λ set. (id : ℕ) → has set id ≡ has ids.items id) }
        ensures ascending { IfOk result (λ set. IsStrictlyIncreasing set) }
    {
        ids.sort()?;
        ids.dedup();
        Ok(IdSet { ids })
    }

    /// The ids of a list that is in ascending order.
    pub(crate) fn of_ascending(ids: Vec<u64>) -> IdSet
        requires { IsStrictlyIncreasing ids.items }
        ensures { result ≡ ids.items }
    {
        IdSet { ids }
    }

    pub fn len(&self) -> usize
        ensures { result ≡ length self.now }
    {
        self.ids.len()
    }

    pub fn is_empty(&self) -> bool
        ensures { result ≡ (length self.now == 0) }
    {
        self.ids.is_empty()
    }

    /// The ids in order.
    pub fn as_slice(&self) -> &[u64]
        ensures ids { result.now ≡ self.now }
        ensures ascending { IsStrictlyIncreasing result.now }
    {
        self.ids.as_slice()
    }

    /// Whether the id is one of them. It takes no memory, and searches by halves.
    pub fn contains(&self, id: u64) -> bool
        ensures { result ≡ has self.now id }
    {
        let ids = self.as_slice();
        is_at(ids, place_of(ids, id), id)
    }

    /// Puts an id in, and says whether it was not there. For want of memory nothing changes.
    pub fn insert(&mut self, id: u64) -> Result<bool, AllocError>
        ensures members { OnOk result ((other : ℕ) → has self.new other ≡ (other == id || has self.old other)) }
        ensures added { IfOk result (λ added. added ≡ not (has self.old id)) }
        ensures ascending { IsStrictlyIncreasing self.new }
        ensures err { OnErr result (self.new ≡ self.old) }
    {
        let ids = self.ids.as_slice();
        let at = place_of(ids, id);
        if is_at(ids, at, id) {
            return Ok(false);
        }
        self.ids.insert(at, id)?;
        Ok(true)
    }

    /// Takes an id out, and says whether it was there. It takes no memory.
    pub fn remove(&mut self, id: u64) -> bool
        ensures members { (other : ℕ) → has self.new other ≡ (has self.old other && not (other == id)) }
        ensures removed { result ≡ has self.old id }
        ensures ascending { IsStrictlyIncreasing self.new }
    {
        let ids = self.ids.as_slice();
        let at = place_of(ids, id);
        if is_at(ids, at, id) {
            self.ids.remove(at);
            return true;
        }
        false
    }

    /// A copy.
    pub fn again(&self) -> Result<IdSet, AllocError>
        ensures { IfOk result (λ copy. copy ≡ self.now) }
    {
        Ok(IdSet {
            ids: self.ids.clone()?,
        })
    }
}
