//! What has the arcs of groups, and counts nobody.
ghost use Rattle.std.specs.Prelude.{IfOk};
ghost use Rattle.graphs.specs.Groups.{IsGroupArc};
ghost use Rattle.leopard.specs.inside.Asking.{AreAll};

use crate::computed::push_computed;
use config::Config;
use leopard::Input;
use names::Node;
use rows::View;
use std::alloc::{AllocError, Global};

/// What tells where the arcs of groups lead.
pub(crate) trait HasArcs {
    ghost use Rattle.meaning.specs.Snap.{Snap};

    /// The snapshot that has the arcs.
    ghost snap: { Self → Snap };

    /// The nodes to which arcs lead from the node.
    fn arc_ends(&self, alloc: Global, node: &Node) -> Result<Vec<Node>, AllocError>
        ensures { IfOk result (λ v. AreAll (IsGroupArc (snap self.now) node.now) v.items) };
}

impl<'a> HasArcs for View<'a> {
    ghost snap = { λ v. v };

    fn arc_ends(&self, alloc: Global, node: &Node) -> Result<Vec<Node>, AllocError> {
        let config = self.config();
        let relations = config.relations();
        let mut ends = self.usersets_of(alloc, node)?;
        let Some(place) = config.place_of(node) else {
            return Ok(ends);
        };
        push_computed(&mut ends, &node.object, &relations[place].rewrite)?;
        Ok(ends)
    }
}

impl HasArcs for Input {
    ghost snap = { λ s. s };

    fn arc_ends(&self, alloc: Global, node: &Node) -> Result<Vec<Node>, AllocError> {
        let config = self.config();
        let relations = config.relations();
        let mut ends = self.usersets_of(alloc, node)?;
        let Some(place) = config.place_of(node) else {
            return Ok(ends);
        };
        push_computed(&mut ends, &node.object, &relations[place].rewrite)?;
        Ok(ends)
    }
}

/// A configuration by itself has the arcs to computed usersets.
impl HasArcs for Config {
    ghost use Rattle.leopard.specs.Index.{bare};

    ghost snap = { bare };

    fn arc_ends(&self, alloc: Global, node: &Node) -> Result<Vec<Node>, AllocError> {
        let relations = self.relations();
        let mut computed = Vec::new(alloc);
        let Some(place) = self.place_of(node) else {
            return Ok(computed);
        };
        push_computed(&mut computed, &node.object, &relations[place].rewrite)?;
        Ok(computed)
    }
}
