//! What an index is put together from.

ghost use Rattle.std.specs.Prelude.{IfOk};
ghost use Rattle.leopard.specs.inside.Parts.{AreParts};

use crate::building::{arcs_of, groups_of};
use crate::input::Input;
use crate::members::{direct_of, users_of};
use crate::sorted::Sorted;
use idsets::IdSet;
use names::{Node, Object};
use std::alloc::{AllocError, Global};

/// All that an index has but its closures, and the arcs from which these are found.
#[derive(Drop)]
pub(crate) struct Parts {
    pub(crate) groups: Sorted<Node>,
    pub(crate) arcs: Vec<IdSet>,
    pub(crate) users: Sorted<Object>,
    pub(crate) direct: Vec<IdSet>,
}

pub(crate) fn parts_of(alloc: Global, input: &Input) -> Result<Parts, AllocError>
    ensures { IfOk result (λ p. AreParts input.now p.groups p.arcs.items p.users p.direct.items) }
{
    let config = input.config();
    let tuples = input.tuples();
    let groups = groups_of(alloc, input)?;
    let arcs = arcs_of(alloc, input, &groups)?;
    let users = users_of(alloc, config, tuples)?;
    // Both are in order, as these calls say.
    groups.as_slice();
    users.as_slice();
    let direct = direct_of(alloc, config, tuples, &groups, &users)?;
    Ok(Parts {
        groups,
        arcs,
        users,
        direct,
    })
}
