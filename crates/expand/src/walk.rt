//! What is known while a tree is made.
ghost use Rattle.std.specs.Prelude.{◌≡◌, ◌+◌, ◌-◌, ◌++◌, ◌∷◌, [], take, length, OnOk, IfErr};
ghost use Rattle.names.specs.declared.refusal.Refusal.TheVariants.{TooLarge};
ghost use Rattle.expand.specs.declared.limits.TheConstants.{MAX_TREE_NODES};
ghost use Rattle.expand.specs.Tree.{is_among};

use crate::limits::MAX_TREE_NODES;
use config::Config;
use names::{Node, Refusal};
use rows::View;
use std::alloc::{AllocError, Global};

/// A view, with its configuration.
#[derive(Clone, Copy)]
pub(crate) struct Source<'a> {
    pub(crate) alloc: Global,
    pub(crate) view: &'a View<'a>,
    pub(crate) config: &'a Config,
}

/// The nodes that are open, from the root on, and how many nodes the tree can still get.
#[derive(Drop)]
pub(crate) struct Walk {
    pub(crate) path: Vec<Node>,
    pub(crate) room: usize,
}

impl Walk {
    /// No node is open, and the tree can get as many nodes as a tree may have.
    pub(crate) fn new(alloc: Global) -> Walk
        ensures path { result.path.items ≡ [] }
        ensures room { result.room ≡ MAX_TREE_NODES }
    {
        Walk {
            path: Vec::new(alloc),
            room: MAX_TREE_NODES,
        }
    }

    /// One node more.
    pub(crate) fn take(&mut self) -> Result<(), Refusal>
        ensures ok { OnOk result (self.old.room ≡ self.new.room + 1) }
        ensures err { IfErr result (λ why. (why ≡ TooLarge) × (self.old.room ≡ 0)) }
        ensures path { self.new.path ≡ self.old.path }
    {
        if self.room == 0 {
            return Err(Refusal::TooLarge);
        }
        self.room -= 1;
        Ok(())
    }

    /// The node is open from now on.
    pub(crate) fn enter(&mut self, node: &Node) -> Result<(), AllocError>
        ensures path { OnOk result (self.new.path.items ≡ self.old.path.items ++ node.now ∷ []) }
        ensures room { OnOk result (self.new.room ≡ self.old.room) }
    {
        self.path.push(node.clone()?)?;
        Ok(())
    }

    /// The last node that was entered is open no more.
    pub(crate) fn leave(&mut self)
        ensures path { self.new.path.items ≡ take (length self.old.path.items - 1) self.old.path.items }
        ensures room { self.new.room ≡ self.old.room }
    {
        let _ = self.path.pop();
    }

    /// Whether the node is open.
    pub(crate) fn is_open(&self, node: &Node) -> bool
        ensures { result ≡ is_among self.now.path.items node.now }
    {
        for open in &self.path {
            if open == node {
                return true;
            }
        }
        false
    }
}
