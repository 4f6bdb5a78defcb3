//! Nodes in the order in which they were found.
ghost use Rattle.std.specs.Prelude.{◌≡◌, ◌<◌, ◌^◌, ◌&&◌, ℕ, [], length, true, nat_eq, slice_index_or, OnOk, OnErr};
ghost use Rattle.std.specs.List.{IsDistinct};
ghost use Rattle.least_sets.specs.World.{has};
ghost use Rattle.least_sets.specs.Walks.{Adds};

use std::alloc::{AllocError, Global};
use std::collections::BTreeSet;
use std::marker::Model;

/// Nodes, each once, in the order in which they were found.
#[derive(Drop)]
pub(crate) struct Found {
    list: Vec<u64>,
    seen: BTreeSet<u64>,
}

impl Model for Found {
    ghost use Rattle.std.specs.Prelude.{List, ℕ};
    ghost use Rattle.region.specs.Nodes.{IsListOf};

    ghost Value = { List ℕ };

    ghost view = { λ s. s.list.items };

    ghost invariant = { λ s. IsListOf s.list.items s.seen };
}

impl Found {
    pub(crate) fn new(alloc: Global) -> Found
        ensures { result ≡ [] }
    {
        Found {
            list: Vec::new(alloc),
            seen: BTreeSet::new(alloc),
        }
    }

    pub(crate) fn len(&self) -> usize
        ensures len { result ≡ length self.now }
        ensures distinct { IsDistinct nat_eq self.now }
        ensures small { (u : ℕ) → has self.now u ≡ true → u < 2 ^ 64 }
    {
        are_small(&self.list);
        self.list.len()
    }

    pub(crate) fn get(&self, at: usize) -> u64
        requires { at < length self.now }
        ensures { result ≡ slice_index_or self.now at result }
    {
        self.list[at]
    }

    pub(crate) fn contains(&self, id: u64) -> bool
        ensures { result ≡ has self.now id }
    {
        self.seen.contains(&id)
    }

    /// Adds a node at the end if it is not there yet.
    pub(crate) fn add(&mut self, id: u64) -> Result<(), AllocError>
        ensures adds { OnOk result (Adds self.old self.new (λ u. nat_eq u id)) }
        ensures err { OnErr result (self.new ≡ self.old) }
    {
        self.list.reserve(1)?;
        if self.seen.insert(id)? {
            self.list.push(id)?;
        }
        Ok(())
    }

    /// The same, only if it is needed.
    pub(crate) fn add_if(&mut self, id: u64, needed: bool) -> Result<(), AllocError>
        ensures { OnOk result (Adds self.old self.new (λ u. nat_eq u id && needed)) }
    {
        let _ = &self.list;
        if !needed {
            return Ok(());
        }
        self.add(id)
    }

    /// It has no node twice.
    pub(crate) fn is_distinct(&self)
        ensures { IsDistinct nat_eq self.now }
    {
        let _ = &self.list;
    }

    /// The nodes, in order.
    pub(crate) fn as_slice(&self) -> &[u64]
        ensures { result.now ≡ self.now }
    {
        self.list.as_slice()
    }

    /// The nodes.
    pub(crate) fn into_list(self) -> Vec<u64>
        ensures { result.items ≡ self }
    {
        self.list
    }

    /// Adds at the end what is not there yet.
    pub(crate) fn add_all(&mut self, more: &[u64]) -> Result<(), AllocError>
        ensures { OnOk result (Adds self.old self.new (has more.now)) }
    {
        let _ = &self.list;
        for id in more {
            self.add(*id)?;
        }
        Ok(())
    }
}

// Ids have 64 bits.
fn are_small(_ids: &[u64])
    ensures { (u : ℕ) → has _ids.now u ≡ true → u < 2 ^ 64 }
{}
