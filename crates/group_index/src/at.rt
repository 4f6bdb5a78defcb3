//! The index at one revision.

use crate::index::GroupIndex;
use crate::meeting::{meet, some_among};
use crate::numbered::{found_among, found_named};
use decide::Oracle;
use idsets::IdSet;
use leopard::{
    Expr, Found, GroupSets, closures_meet_where_members, first_named, found_of, is_group,
    refusal_of,
};
use names::{Node, Object, Refusal};
use std::alloc::{AllocError, Global};
use std::collections::BTreeSet;

/// The group index at a revision of which it tells. A user's direct groups have other numbers in it than the groups to
/// which a group leads, so each is looked up by its name where the two meet.
#[derive(Drop)]
pub struct At<'a> {
    pub(crate) index: &'a GroupIndex,
    pub(crate) alloc: Global,
    pub(crate) rev: u64,
}

impl<'a> GroupSets for At<'a> {
    ghost use Rattle.group_index.specs.Indices.{TellsOf, nodes_of};

    ghost names = { nodes_of };

    ghost tells = { TellsOf };

    fn direct(&self, alloc: Global, user: &Object) -> Result<Found, AllocError> {
        let (layer, direct) = (&self.index.layer, &self.index.direct);
        match direct.kept_at(user, self.rev) {
            Some(ids) => found_named(alloc, layer.nodes(), direct.groups(), ids.as_slice()),
            None => Ok(Found {
                ids: IdSet::new(alloc),
                others: BTreeSet::new(alloc),
            }),
        }
    }

    fn closure(&self, alloc: Global, group: &Node) -> Result<Found, AllocError> {
        let layer = &self.index.layer;
        match layer.kept_at(group, self.rev) {
            Some(ids) => {
                let ids = ids.again()?;
                let others = BTreeSet::new(alloc);
                Ok(Found { ids, others })
            }
            None => {
                let groups = layer.closure_at(alloc, group, self.rev)?;
                found_among(alloc, layer.nodes(), &groups)
            }
        }
    }

    ghost distinct = { λ at S told. told.index_of.closures.distinct };
}

/// The members of groups.
impl<'a> Oracle for At<'a> {
    ghost use Rattle.meaning.specs.Reads.{IsValid};
    ghost use Rattle.group_index.specs.Indices.{TellsOf};

    ghost tells = { λ at S. TellsOf at S × IsValid S };

    fn knows(&mut self, node: &Node, user: &Object) -> Option<bool> {
        self.has(node, user)
    }
}

impl<'a> At<'a> {
    ghost use Rattle.std.specs.Prelude.{◌↔◌, IsTrue, IfOk, IfErr, IfSome, IfNone};
    ghost use Rattle.meaning.specs.Membership.{IsMember};
    ghost use Rattle.meaning.specs.Reads.{IsValid};
    ghost use Rattle.meaning.specs.Snap.{Snap};
    ghost use Rattle.leopard.specs.Answers.{AreFirst};
    ghost use Rattle.leopard.specs.Causes.{IsAnswerable, AskCause};
    ghost use Rattle.leopard.specs.Exprs.{query_of};
    ghost use Rattle.leopard.specs.Groups.{IsGroup, Means};
    ghost use Rattle.group_index.specs.Indices.{TellsOf, IsKept};

    /// The first groups of an expression, in the order of nodes, as `leopard::groups_at` gives them from the tuples of the
    /// revision. It takes memory for the names of all groups of the expression, however few are asked for.
    pub fn first_groups(&self, expr: &Expr, limit: u32) -> Result<Vec<Node>, Refusal>
        ensures ok { IfOk result (λ v. (S : Snap) → TellsOf self.now S → IsAnswerable S.config (query_of expr.now) limit) }
        ensures groups { IfOk result (λ v. (S : Snap) → TellsOf self.now S → AreFirst limit (Means S (query_of expr.now)) v.items) }
        ensures err { IfErr result (λ why. (S : Snap) → TellsOf self.now S → AskCause S.config (query_of expr.now) limit why) }
    {
        let layer = &self.index.layer;
        if let Some(why) = refusal_of(layer.config(), expr, limit) {
            return Err(why);
        }
        let found = found_of(self.alloc, self, expr)?;
        Ok(first_named(self.alloc, layer.nodes(), found, limit as usize)?)
    }

    /// Whether the user is a member of a group: then the groups to which it leads meet those that name the user. Of these
    /// two the smaller is gone over. It takes no memory for a group of which something is kept, and else for those that
    /// computed usersets alone give it. Nothing where the node is no group, or where there is no memory.
    pub fn has(&self, node: &Node, user: &Object) -> Option<bool>
        ensures has { IfSome result (λ has. (S : Snap) → TellsOf self.now S → IsValid S → IsTrue has ↔ IsMember S user.now node.now) }
        ensures group { IfSome result (λ has. (S : Snap) → TellsOf self.now S → IsGroup S.config node.now) }
        ensures kept { IfNone result ((S : Snap) → TellsOf self.now S → IsGroup S.config node.now → IsKept self.now node.now → ⊥) }
    {
        closures_meet_where_members();
        let (layer, direct) = (&self.index.layer, &self.index.direct);
        // Each configuration is valid, as this call says.
        layer.config().relations();
        if !is_group(layer.config(), node) {
            return None;
        }
        let Some(named) = direct.kept_at(user, self.rev) else {
            return Some(false);
        };
        match layer.kept_at(node, self.rev) {
            Some(led) => Some(meet(layer.nodes(), led, direct.groups(), named)),
            None => {
                let led = layer.closure_at(self.alloc, node, self.rev).ok()?;
                Some(some_among(direct.groups(), named, &led))
            }
        }
    }
}
