//! What the parts of the service mean: configurations and how their relations depend on each other,
//! levels, what a rewrite gives, membership as the least sets, histories and their snapshots, and why a
//! change is refused. The definitions stand in `specs/`, one to a file, as plain data of the logic; every
//! crate above cites them. Here is no code: the public functions carry the laws.
#![tactic(auto)]

ghost use Rattle.std.specs.Prelude.{ℕ, ◌↔◌};
ghost use Rattle.names.specs.declared.object.Object.{Object};
ghost use Rattle.names.specs.declared.node.Node.{Node};
ghost use Rattle.meaning.specs.Config.{IsAt};
ghost use Rattle.meaning.specs.Least.{IsLeast};
ghost use Rattle.meaning.specs.Snap.{Snap};
ghost use Rattle.meaning.specs.Membership.{RelationGives, IsMember};
ghost use Rattle.meaning.specs.Reads.{IsValid};

/// The nodes that a user is a member of, up to a level, are closed under the rewrites, and are in
/// every set that is closed: they are the least.
pub fn membership_is_least()
    ensures { (S : Snap) (u : Object) (k : ℕ) → IsLeast (IsAt S.config) (RelationGives S u) k }
{}

/// In a valid snapshot a user is a member of a node exactly where the node's rewrite gives the user
/// from the memberships of the nodes that it looks up.
pub fn membership_unfolds()
    ensures { (S : Snap) (u : Object) (n : Node) → IsValid S
        → IsMember S u n ↔ RelationGives S u n (IsMember S u) (IsMember S u) }
{}
