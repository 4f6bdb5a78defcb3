//! Where the two kinds of group sets come from.
ghost use Rattle.std.specs.Prelude.{IfOk};
ghost use Rattle.meaning.specs.Snap.{Snap};
ghost use Rattle.idsets.specs.Naming.{AreDistinct};
ghost use Rattle.leopard.specs.Finding.{AreFound};
ghost use Rattle.leopard.specs.Groups.{IsGroup, GroupToGroup, MemberToGroup};

use crate::found::Found;
use names::{Node, Object};
use std::alloc::{AllocError, Global};

/// What tells the two kinds of group sets of a snapshot (Zanzibar, section 3.2.4), such as its tuples, or an index of it.
/// A group that has an id here is found by its id, and any other one by itself.
pub trait GroupSets {
    ghost use Rattle.std.specs.Prelude.{List};
    ghost use Rattle.names.specs.declared.node.Node.{Node};

    /// The groups that have an id, each at its id.
    ghost names: { Self → List Node };

    /// The snapshot's sets are told.
    ghost tells: { Self → Snap → Type 0 };

    /// The groups that name the user by a tuple of their own.
    fn direct(&self, alloc: Global, user: &Object) -> Result<Found, AllocError>
        ensures { IfOk result (λ f. (S : Snap) → tells self.now S
            → AreFound (names self.now) (MemberToGroup S user.now) f.ids f.others.keys) };

    /// The groups to which a group leads, itself among them.
    fn closure(&self, alloc: Global, group: &Node) -> Result<Found, AllocError>
        ensures { IfOk result (λ f. (S : Snap) → tells self.now S → IsGroup S.config group.now
            → AreFound (names self.now) (GroupToGroup S group.now) f.ids f.others.keys) };

    ghost distinct: { (s : Self) (S : Snap) → tells s S → AreDistinct (names s) };
}
