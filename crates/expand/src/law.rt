//! What a tree means.
ghost use Rattle.std.specs.Prelude.{ℕ, ◌↔◌};
ghost use Rattle.names.specs.declared.object.Object.{Object};
ghost use Rattle.names.specs.declared.node.Node.{Node};
ghost use Rattle.meaning.specs.Snap.{Snap};
ghost use Rattle.meaning.specs.Membership.{IsMember};
ghost use Rattle.meaning.specs.Reads.{IsValid};
ghost use Rattle.expand.specs.Tree.{tree};
ghost use Rattle.expand.specs.Meaning.{Means};

/// However deep it is, a node's tree means the users that are members of the node: what was left out changes
/// nothing.
pub fn a_tree_means_its_members()
    ensures { (S : Snap) (u : Object) (n : Node) (depth : ℕ) → IsValid S
        → Means S u (tree S n depth) ↔ IsMember S u n }
{}
