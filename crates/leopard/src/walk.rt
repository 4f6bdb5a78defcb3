//! Walks over the arcs of groups.
ghost use Rattle.std.specs.Prelude.{[], ◌∷◌, Contains, IfOk, OnOk};
ghost use Rattle.graphs.specs.Groups.{IsGroupArc, GroupWalk};
ghost use Rattle.leopard.specs.inside.Asking.{AreAll, Sees};

use crate::computed::push_computed;
use crate::sets::put;
use config::Config;
use names::Node;
use rows::View;
use std::alloc::{AllocError, Global};
use std::collections::BTreeSet;

/// What tells where the arcs of groups lead.
pub(crate) trait Arcs {
    ghost use Rattle.meaning.specs.Snap.{Snap};

    /// The snapshot that has the arcs.
    ghost snap: { Self → Snap };

    /// The nodes to which arcs lead from the node.
    fn ends_of(&self, alloc: Global, node: &Node) -> Result<Vec<Node>, AllocError>
        ensures { IfOk result (λ v. AreAll (IsGroupArc (snap self.now) node.now) v.items) };
}

impl<'a> Arcs for View<'a> {
    ghost snap = { λ v. v };

    fn ends_of(&self, alloc: Global, node: &Node) -> Result<Vec<Node>, AllocError> {
        let config = self.config();
        let relations = config.relations();
        let mut ends = self.usersets_of(alloc, node)?;
        let Some(place) = config.place_of(node) else {
            return Ok(ends);
        };
        push_computed(&mut ends, &node.object, &relations[place].rewrite)?;
        Ok(ends)
    }
}

/// A configuration by itself has the arcs to computed usersets.
impl Arcs for Config {
    ghost use Rattle.leopard.specs.Index.{bare};

    ghost snap = { bare };

    fn ends_of(&self, alloc: Global, node: &Node) -> Result<Vec<Node>, AllocError> {
        let relations = self.relations();
        let mut computed = Vec::new(alloc);
        let Some(place) = self.place_of(node) else {
            return Ok(computed);
        };
        push_computed(&mut computed, &node.object, &relations[place].rewrite)?;
        Ok(computed)
    }
}

/// Notes the end of an arc. One that is new is left to be looked at.
fn see(seen: &mut BTreeSet<Node>, left: &mut Vec<Node>, end: Node) -> Result<(), AllocError>
    ensures { OnOk result (Sees (end ∷ []) seen.old.keys left.old.items seen.new.keys left.new.items) }
{
    if !put(seen, end.clone()?)? {
        return Ok(());
    }
    left.push(end)?;
    Ok(())
}

/// Notes the ends of arcs.
fn see_all(seen: &mut BTreeSet<Node>, left: &mut Vec<Node>, ends: &[Node]) -> Result<(), AllocError>
    ensures { OnOk result (Sees ends.now seen.old.keys left.old.items seen.new.keys left.new.items) }
{
    for end in ends {
        see(seen, left, end.clone()?)?;
    }
    Ok(())
}

/// The groups to which walks of arcs lead from the group, itself among them. Each is looked at once.
pub(crate) fn reached<A: Arcs>(
    alloc: Global,
    arcs: &A,
    group: &Node,
) -> Result<BTreeSet<Node>, AllocError>
    ensures { IfOk result (λ seen. AreAll (GroupWalk (A.snap arcs.now) group.now) seen.keys) }
{
    let mut seen = BTreeSet::new(alloc);
    let mut left = Vec::new(alloc);
    see(&mut seen, &mut left, group.clone()?)?;
    for _ in 0..u64::MAX {
        let Some(node) = left.pop() else {
            return Ok(seen);
        };
        let ends = arcs.ends_of(alloc, &node)?;
        see_all(&mut seen, &mut left, &ends)?;
    }
    // Never taken: so many nodes have no room in memory.
    Err(AllocError)
}
