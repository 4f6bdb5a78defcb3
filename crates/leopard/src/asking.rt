//! The answers of questions about groups, read from the tuples.
ghost use Rattle.std.specs.Prelude.{IfOk, IfErr};
ghost use Rattle.leopard.specs.Answers.{AreFirst};
ghost use Rattle.leopard.specs.Causes.{IsAnswerable, AskCause};
ghost use Rattle.leopard.specs.Exprs.{query_of};
ghost use Rattle.leopard.specs.Groups.{Means};

use crate::Expr;
use crate::direct::direct;
use crate::evaluating::found_of;
use crate::found::{Found, unnamed};
use crate::refusing::refusal_of;
use crate::sets::first_of;
use crate::source::GroupSets;
use crate::walk::reached;
use by_subject::ViewBySubject;
use names::{Node, Object, Refusal};
use std::alloc::{AllocError, Global};

/// The tuples give no id to any group.
impl<'a> GroupSets for ViewBySubject<'a> {
    ghost use Rattle.std.specs.Prelude.{◌≡◌, []};
    ghost use Rattle.leopard.specs.inside.Unnamed.{distinct_none};

    ghost names = { λ _. [] };

    ghost tells = { λ v S. v ≡ S };

    fn direct(&self, alloc: Global, user: &Object) -> Result<Found, AllocError> {
        let groups = direct(alloc, self, user)?;
        Ok(unnamed(alloc, groups))
    }

    fn closure(&self, alloc: Global, group: &Node) -> Result<Found, AllocError> {
        let groups = reached(alloc, self.view(), group)?;
        Ok(unnamed(alloc, groups))
    }

    ghost distinct = { λ v S told. distinct_none };
}

/// The first groups of an expression at the view's revision, in the order of nodes, read from its tuples (Zanzibar,
/// section 3.2.4). Of a user's direct groups the tuples that name the user are gone over once for each relation that is
/// indexed, for each place where they are asked for, or else those of its namespace, as a read of the view does; of a group the
/// tuples of each group to which it leads, once, however cycles of groups run. It takes memory for a page of tuples, or for one
/// group's, and for all groups of the expression, however few are asked for.
pub fn groups_at(
    alloc: Global,
    view: &ViewBySubject,
    expr: &Expr,
    limit: u32,
) -> Result<Vec<Node>, Refusal>
    ensures ok { IfOk result (λ v. IsAnswerable view.now.config (query_of expr.now) limit) }
    ensures groups { IfOk result (λ v. AreFirst limit (Means view.now (query_of expr.now)) v.items) }
    ensures err { IfErr result (λ why. AskCause view.now.config (query_of expr.now) limit why) }
{
    if let Some(why) = refusal_of(view.view().config(), expr, limit) {
        return Err(why);
    }
    let found = found_of(alloc, view, expr)?;
    Ok(first_of(alloc, found.others, limit as usize)?)
}
