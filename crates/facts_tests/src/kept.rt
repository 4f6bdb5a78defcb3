//! What is kept of a few nodes, as a table tells of them.
ghost use Rattle.region.specs.Sets.{IsWhole};

use crate::table::{Known, Table, refresh_by};
use idsets::IdSet;
use region::{Sets, sweep};
use std::alloc::{AllocError, Global};

/// The roots, what is kept of them, and the table. A test lends it to its steps, so that one function drops it.
#[derive(Drop)]
pub(crate) struct Kept {
    pub(crate) roots: IdSet,
    pub(crate) sets: Sets,
    pub(crate) table: Table,
    ghost whole: { IsWhole sets },
}

impl Kept {
    /// Nothing is known, nobody was asked, and nothing is kept.
    pub(crate) fn new(alloc: Global, roots: IdSet) -> Kept {
        Kept {
            roots,
            sets: Sets::new(alloc),
            table: Table {
                known: Vec::new(alloc),
                asked: Vec::new(alloc),
            },
        }
    }

    /// From here on this is what is known of its node.
    pub(crate) fn learn(&mut self, known: Known) -> Result<(), AllocError> {
        self.table.known.insert(0, known)?;
        Ok(())
    }

    /// From here on a node holds some users, and the members of some nodes.
    pub(crate) fn know(
        &mut self,
        alloc: Global,
        node: u64,
        own: &[u64],
        any: &[u64],
    ) -> Result<(), AllocError> {
        let known = known(alloc, node, own, any)?;
        self.learn(known)
    }

    /// Refreshes what is kept. Only those count as asked who were asked for it.
    pub(crate) fn refresh(
        &mut self,
        alloc: Global,
        turned: &[u64],
        changed: &[u64],
    ) -> Result<(), AllocError> {
        self.table.asked.clear();
        refresh_by(
            alloc,
            &mut self.sets,
            &self.roots,
            turned,
            changed,
            &mut self.table,
        )
    }

    /// Some are no roots any more, and others are left. Nobody was asked before it.
    pub(crate) fn leave(
        &mut self,
        alloc: Global,
        roots: IdSet,
        turned: &[u64],
    ) -> Result<(), AllocError> {
        self.table.asked.clear();
        self.roots = roots;
        sweep(alloc, &mut self.sets, &self.roots, turned)?;
        Ok(())
    }

    /// Whether these were asked, in this order.
    pub(crate) fn has_asked(&self, nodes: &[u64]) -> bool {
        self.table.asked.as_slice() == nodes
    }

    pub(crate) fn is_kept(&self, node: u64) -> bool {
        self.sets.is_kept(node)
    }

    /// Whether a kept node has a user.
    pub(crate) fn has(&self, node: u64, user: u64) -> bool {
        match self.sets.members(node) {
            Some(members) => members.contains(user),
            None => false,
        }
    }
}

fn known(alloc: Global, node: u64, own: &[u64], any: &[u64]) -> Result<Known, AllocError> {
    let own = own.to_vec(alloc)?;
    let any = any.to_vec(alloc)?;
    Ok(Known {
        node,
        own: IdSet::of(own),
        any,
        reads: Vec::new(alloc),
        less: Vec::new(alloc),
    })
}
