//! The answers of questions about groups, by an index.
ghost use Rattle.std.specs.Prelude.{◌≡◌, ◌⊎◌, ◌↔◌, [], Any, Some, IfOk, OnOk, slice_index_or};
ghost use Rattle.std.specs.List.{slice_get};
ghost use Rattle.names.specs.declared.node.Node.{Node};
ghost use Rattle.idsets.specs.Naming.{AreDistinct};
ghost use Rattle.leopard.specs.Answers.{AreFirst};
ghost use Rattle.leopard.specs.Finding.{Finds, AreUnnamed, AreFound};
ghost use Rattle.leopard.specs.Index.{IsKeptOf, LeadsTo, NamesUser};
ghost use Rattle.leopard.specs.inside.Asking.{Gains};

use crate::built::Built;
use crate::found::{Found, nothing};
use crate::sets::{first_of, put};
use crate::sorted::Sorted;
use crate::source::GroupSets;
use crate::walk::reached;
use idsets::{IdSet, Ids, union};
use names::{Node, Object};
use std::alloc::{AllocError, Global};
use std::collections::BTreeSet;

/// The set at a place, or else none.
fn kept_at(alloc: Global, sets: &[IdSet], at: u64) -> Result<IdSet, AllocError>
    ensures { IfOk result (λ ids. ids ≡ slice_index_or sets.now at []) }
{
    match sets.get(at as usize) {
        Some(set) => set.again(),
        None => Ok(IdSet::new(alloc)),
    }
}

/// The groups that name the user.
fn direct_of(alloc: Global, built: &Built, user: &Object) -> Result<Found, AllocError>
    ensures { IfOk result (λ f. AreFound built.now.groups (NamesUser built.now user.now) f.ids f.others.keys) }
{
    built.users.len();
    let Some(at) = built.users.id_of(user) else {
        return Ok(nothing(alloc));
    };
    let ids = kept_at(alloc, &built.direct, at)?;
    Ok(Found {
        ids,
        others: BTreeSet::new(alloc),
    })
}

/// Adds a group and those that are kept of it.
fn with_kept(alloc: Global, built: &Built, found: Found, node: Node) -> Result<Found, AllocError>
    requires { AreDistinct built.now.groups }
    ensures more { IfOk result (λ f. (n : Node) → Finds built.now.groups f.ids f.others.keys n
        ↔ (Finds built.now.groups found.ids found.others.keys n ⊎ IsKeptOf built.now node n)) }
    ensures unnamed { IfOk result (λ f. AreUnnamed built.now.groups found.others.keys → AreUnnamed built.now.groups f.others.keys) }
{
    let Some(at) = built.groups.id_of(&node) else {
        let mut others = found.others;
        put(&mut others, node)?;
        return Ok(Found {
            ids: found.ids,
            others,
        });
    };
    let kept = kept_at(alloc, &built.closures, at)?;
    let mut ids = union(alloc, &found.ids, &kept)?;
    ids.insert(at)?;
    Ok(Found {
        ids,
        others: found.others,
    })
}

/// The groups to which the group leads.
fn closure_of(alloc: Global, built: &Built, group: &Node) -> Result<Found, AllocError>
    ensures { IfOk result (λ f. AreFound built.now.groups (LeadsTo built.now group.now) f.ids f.others.keys) }
{
    built.groups.len();
    let nodes = reached(alloc, built.config(), group)?;
    let mut found = nothing(alloc);
    for node in nodes {
        found = with_kept(alloc, built, found, node)?;
    }
    Ok(found)
}

impl GroupSets for Built {
    ghost use Rattle.idsets.specs.Naming.{AreDistinct};
    ghost use Rattle.leopard.specs.Index.{IsIndexOf};

    ghost names = { λ x. x.groups };

    ghost tells = { λ x S. IsIndexOf S x × AreDistinct x.groups };

    fn direct(&self, alloc: Global, user: &Object) -> Result<Found, AllocError> {
        direct_of(alloc, self, user)
    }

    fn closure(&self, alloc: Global, group: &Node) -> Result<Found, AllocError> {
        closure_of(alloc, self, group)
    }

    ghost distinct = { λ x S told. told.1 };
}

/// Puts in the groups that have the ids.
fn put_named(nodes: &mut BTreeSet<Node>, names: &Ids<Node>, ids: &[u64]) -> Result<(), AllocError>
    ensures { OnOk result (Gains (λ n. Any (λ id. slice_get names.now id ≡ Some n) ids.now) nodes.old.keys nodes.new.keys) }
{
    for id in ids {
        if let Some(node) = names.name(*id) {
            put(nodes, node.clone()?)?;
        }
    }
    Ok(())
}

/// The same, where a group's id is its place.
fn put_listed(
    nodes: &mut BTreeSet<Node>,
    groups: &Sorted<Node>,
    ids: &[u64],
) -> Result<(), AllocError>
    ensures { OnOk result (Gains (λ n. Any (λ id. slice_get groups.now id ≡ Some n) ids.now) nodes.old.keys nodes.new.keys) }
{
    for id in ids {
        if let Some(node) = groups.name(*id) {
            put(nodes, node.clone()?)?;
        }
    }
    Ok(())
}

/// The first so many of what was found, in the order of nodes. As many names are copied at most, and those of the groups
/// that have no id.
pub(crate) fn answer_of(
    alloc: Global,
    built: &Built,
    found: Found,
    limit: usize,
) -> Result<Vec<Node>, AllocError>
    ensures { IfOk result (λ v. AreFirst limit (Finds built.now.groups found.ids found.others.keys) v.items) }
{
    let Found { ids, others } = found;
    let mut nodes = others;
    let ids = ids.as_slice();
    let count = limit.min(ids.len());
    put_listed(&mut nodes, &built.groups, &ids[..count])?;
    first_of(alloc, nodes, limit)
}

/// The same, whatever the order of ids. The names of all are copied.
pub fn first_named(
    alloc: Global,
    names: &Ids<Node>,
    found: Found,
    limit: usize,
) -> Result<Vec<Node>, AllocError>
    ensures { IfOk result (λ v. AreFirst limit (Finds names.now found.ids found.others.keys) v.items) }
{
    let Found { ids, others } = found;
    let mut nodes = others;
    put_named(&mut nodes, names, ids.as_slice())?;
    first_of(alloc, nodes, limit)
}
