//! What is kept.
ghost use Rattle.std.specs.Prelude.{◌≡◌, ℕ, None};
ghost use Rattle.std.specs.Option.{option_map};
ghost use Rattle.least_sets.specs.World.{has};
ghost use Rattle.region.specs.Tables.{kept, arc_in, row_of, ids_or_none, listed};
ghost use Rattle.region.specs.Sets.{IsWhole};

use idsets::IdSet;
use std::alloc::Global;
use std::collections::BTreeMap;

/// What is kept of a node: the nodes that its rule names, and its members.
#[derive(Drop)]
pub struct Row {
    pub arcs: IdSet,
    pub members: IdSet,
}

/// The members of some nodes and of all that they depend on.
#[derive(Drop)]
pub struct Sets {
    /// What is kept of each node. A place without a row is as none.
    pub rows: BTreeMap<u64, Option<Row>>,
    /// From each node those that name it, and maybe others.
    pub back: BTreeMap<u64, IdSet>,
}

impl Sets {
    /// No node. It takes no memory.
    pub fn new(alloc: Global) -> Sets
        ensures none { (n : ℕ) → row_of result.rows n ≡ None }
        ensures whole { IsWhole result }
    {
        Sets {
            rows: BTreeMap::new(alloc),
            back: BTreeMap::new(alloc),
        }
    }

    /// Whether the node is kept.
    pub fn is_kept(&self, node: u64) -> bool
        ensures { result ≡ kept self.now.rows node }
    {
        match self.rows.get(&node) {
            Some(row) => row.is_some(),
            None => false,
        }
    }

    /// The members of a kept node.
    pub fn members(&self, node: u64) -> Option<&IdSet>
        ensures { option_map (λ ids. ids.now) result ≡ option_map (λ row. row.members) (row_of self.now.rows node) }
    {
        match self.rows.get(&node) {
            Some(Some(row)) => Some(&row.members),
            _ => None,
        }
    }

    /// The nodes that a kept node names.
    pub(crate) fn arcs(&self, node: u64) -> Option<&IdSet>
        ensures { option_map (λ ids. ids.now) result ≡ option_map (λ row. row.arcs) (row_of self.now.rows node) }
    {
        match self.rows.get(&node) {
            Some(Some(row)) => Some(&row.arcs),
            _ => None,
        }
    }

    /// Whether a kept node names another.
    pub(crate) fn names(&self, node: u64, other: u64) -> bool
        ensures { result ≡ arc_in self.now.rows node other }
    {
        match self.rows.get(&node) {
            Some(Some(row)) => row.arcs.contains(other),
            _ => false,
        }
    }

    /// The kept nodes that name a node, and maybe others.
    pub(crate) fn namers(&self, node: u64) -> Option<&IdSet>
        ensures { (n : ℕ) → has (ids_or_none (option_map (λ ids. ids.now) result)) n ≡ listed self.now.back node n }
    {
        self.back.get(&node)
    }
}
