//! Who is kept.
ghost use Rattle.std.specs.Prelude.{◌≡◌, ℕ, ◌↔◌, ◌++◌, ◌∷◌, [], List, Contains, IfOk, OnOk, IfSome, IsTrue, false, is_some};
ghost use Rattle.std.specs.List.Sorted.{IsStrictlyIncreasing};
ghost use Rattle.idsets.specs.Naming.{AreDistinct};
ghost use Rattle.least_sets.specs.World.{has};
ghost use Rattle.hot.specs.inside.Named.{AreNamed};

use crate::hot::Hot;
use idsets::Ids;
use names::{Node, Object};
use std::alloc::{AllocError, Global};

impl Hot {
    ghost use Rattle.std.specs.List.{IsDistinct};
    ghost use Rattle.std.specs.Ordering.{eq_by_cmp};
    ghost use Rattle.names.specs.Order.{object_cmp};
    ghost use Rattle.names.specs.declared.object.Object.{Object};
    ghost use Rattle.names.specs.declared.node.Node.{Node};
    ghost use Rattle.meaning.specs.Snap.{Snap};
    ghost use Rattle.meaning.specs.Membership.{IsMember};
    ghost use Rattle.hot.specs.Kept.{IsHot, IsUnderMark};

    /// Whether the node is kept: it is marked, or a marked node depends on it.
    pub fn is_kept(&self, node: &Node) -> bool
        ensures { (S : Snap) → IsHot self.now S → IsTrue result ↔ IsUnderMark self.now S node.now }
    {
        match self.numbers.nodes.id_of(node) {
            Some(id) => self.sets.is_kept(id),
            None => false,
        }
    }

    /// The members of a node that is kept. No order is promised.
    pub fn members(&self, alloc: Global, node: &Node) -> Result<Option<Vec<Object>>, AllocError>
        ensures exactly { IfOk result (λ found. (S : Snap) → IsHot self.now S
            → IsTrue (is_some found) ↔ IsUnderMark self.now S node.now) }
        ensures members { IfOk result (λ found. IfSome found (λ users. (S : Snap) → IsHot self.now S
            → (u : Object) → Contains users.items u ↔ IsMember S u node.now)) }
        ensures once { IfOk result (λ found. IfSome found (λ users. IsDistinct (eq_by_cmp object_cmp) users.items)) }
    {
        let Some(id) = self.numbers.nodes.id_of(node) else {
            return Ok(None);
        };
        let Some(ids) = self.sets.members(id) else {
            return Ok(None);
        };
        let users = named(alloc, &self.numbers.users, ids.as_slice())?;
        Ok(Some(users))
    }

    /// Whether the user is a member of the node, where it is kept. It takes no memory.
    pub fn has(&self, node: &Node, user: &Object) -> Option<bool>
        ensures exactly { (S : Snap) → IsHot self.now S → IsTrue (is_some result) ↔ IsUnderMark self.now S node.now }
        ensures has { IfSome result (λ answer. (S : Snap) → IsHot self.now S → IsTrue answer ↔ IsMember S user.now node.now) }
    {
        let id = self.numbers.nodes.id_of(node)?;
        let ids = self.sets.members(id)?;
        match self.numbers.users.id_of(user) {
            Some(number) => Some(ids.contains(number)),
            None => Some(false),
        }
    }
}

/// The users with some numbers, each once.
fn named(alloc: Global, users: &Ids<Object>, ids: &[u64]) -> Result<Vec<Object>, AllocError>
    requires { IsStrictlyIncreasing ids.now }
    ensures { IfOk result (λ v. AreNamed users.now ids.now v.items) }
{
    let _ = users.len();
    let mut found = Vec::new(alloc);
    for id in ids {
        push_named(users, &mut found, *id)?;
    }
    Ok(found)
}

/// Adds the user with a number, where there is one.
fn push_named(users: &Ids<Object>, found: &mut Vec<Object>, id: u64) -> Result<(), AllocError>
    requires { AreDistinct users.now }
    ensures { OnOk result ((ids : List ℕ) → has ids id ≡ false → AreNamed users.now ids found.old.items
        → AreNamed users.now (ids ++ id ∷ []) found.new.items) }
{
    match users.name(id) {
        Some(user) => {
            let copy = user.clone()?;
            found.push(copy)?;
            Ok(())
        }
        None => Ok(()),
    }
}
