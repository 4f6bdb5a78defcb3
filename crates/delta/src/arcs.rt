//! The arcs of groups, and who is asked for them.
ghost use Rattle.std.specs.Prelude.{◌≡◌, []};
ghost use Rattle.delta.specs.Arcs.{asked_of, snap_of};

use crate::has_arcs::HasArcs;
use names::Node;
use rows::View;
use std::alloc::{AllocError, Global};

/// What tells where the arcs of groups lead, and counts whom it was asked for.
pub trait CountedArcs {
    ghost use Rattle.std.specs.Prelude.{◌≡◌, ◌++◌, ◌∷◌, [], List, IfOk, OnOk, OnErr};
    ghost use Rattle.names.specs.declared.node.Node.{Node as NodeValue};
    ghost use Rattle.meaning.specs.Snap.{Snap};
    ghost use Rattle.delta.specs.Arcs.{AreEndsOf};

    /// The snapshot that has the arcs.
    ghost snap: { Self → Snap };

    /// The groups that it was asked for, in order.
    ghost asked: { Self → List NodeValue };

    /// The nodes to which arcs lead from the group.
    fn ends_of(&mut self, alloc: Global, group: &Node) -> Result<Vec<Node>, AllocError>
        ensures ends { IfOk result (λ v. AreEndsOf (snap self.old) group.now v.items) }
        ensures stays { snap self.new ≡ snap self.old }
        ensures counted { OnOk result (asked self.new ≡ asked self.old ++ group.now ∷ []) }
        ensures refused { OnErr result (asked self.new ≡ asked self.old) };
}

/// A view that is asked, and the groups that it was asked for.
#[derive(Drop)]
pub struct ViewArcs<'a> {
    view: &'a View<'a>,
    asked: Vec<Node>,
}

impl<'a> ViewArcs<'a> {
    /// Nobody was asked. It takes no memory.
    pub fn of(alloc: Global, view: &'a View<'a>) -> ViewArcs<'a>
        ensures snap { snap_of result ≡ view.now }
        ensures asked { asked_of result ≡ [] }
    {
        ViewArcs {
            view,
            asked: Vec::new(alloc),
        }
    }

    /// The groups that it was asked for, in order.
    pub fn asked(&self) -> &[Node]
        ensures { result.now ≡ asked_of self.now }
    {
        &self.asked
    }
}

impl<'a> CountedArcs for ViewArcs<'a> {
    ghost use Rattle.delta.specs.Arcs.{asked_of, snap_of};

    ghost snap = { snap_of };

    ghost asked = { asked_of };

    fn ends_of(&mut self, alloc: Global, group: &Node) -> Result<Vec<Node>, AllocError> {
        let ends = self.view.arc_ends(alloc, group)?;
        self.asked.push(group.clone()?)?;
        Ok(ends)
    }
}
