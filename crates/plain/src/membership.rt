//! Who is a member.
ghost use Rattle.std.specs.Prelude.{◌≡◌, ◌↔◌, Any, Contains, IfOk, IfErr, IsTrue, OnOk, true};
ghost use Rattle.std.specs.List.Sorted.{IsStrictlySortedBy};
ghost use Rattle.names.specs.Order.{object_cmp};
ghost use Rattle.names.specs.declared.object.Object.{Object};
ghost use Rattle.meaning.specs.Admits.{has_relation};
ghost use Rattle.meaning.specs.Causes.{CheckCause};
ghost use Rattle.meaning.specs.Config.{rel_of};
ghost use Rattle.meaning.specs.Membership.{IsMember};
ghost use Rattle.plain.specs.inside.Members.{GainsObject, AreMembersAmong};
ghost use Rattle.plain.specs.inside.Source.{snap_of, IsReady, Names};

use crate::levels::nodes_of;
use crate::source::{Source, has_relation, holds, source_of};
use names::{Node, Object, Refusal, Tuple};
use snapshots::Snapshot;
use std::alloc::{AllocError, Global};
use std::collections::BTreeSet;

/// Whether the user is a member of the node.
pub fn check(
    alloc: Global,
    snapshot: &Snapshot,
    node: &Node,
    user: &Object,
) -> Result<bool, Refusal>
    ensures ok { IfOk result (λ answer. IsTrue answer ↔ IsMember snapshot.now user.now node.now) }
    ensures known { OnOk result (has_relation snapshot.now.config (rel_of node.now) ≡ true) }
    ensures err { IfErr result (CheckCause snapshot.now node.now) }
{
    require_relation(snapshot, node)?;
    let source = source_of(snapshot);
    Ok(is_member(alloc, &source, node, user)?)
}

/// The members of the node, in the order of objects.
pub fn members(alloc: Global, snapshot: &Snapshot, node: &Node) -> Result<Vec<Object>, Refusal>
    ensures ok { IfOk result (λ v. (u : Object) → Contains v.items u ↔ IsMember snapshot.now u node.now) }
    ensures sorted { IfOk result (λ v. IsStrictlySortedBy object_cmp v.items) }
    ensures known { OnOk result (has_relation snapshot.now.config (rel_of node.now) ≡ true) }
    ensures err { IfErr result (CheckCause snapshot.now node.now) }
{
    require_relation(snapshot, node)?;
    let source = source_of(snapshot);
    let users = users_of(alloc, source.tuples)?;
    let members = members_among(alloc, &source, node, &users)?;
    Ok(in_order(alloc, members)?)
}

/// Refuses a node whose relation is not in the configuration.
fn require_relation(snapshot: &Snapshot, node: &Node) -> Result<(), Refusal>
    ensures known { OnOk result (has_relation snapshot.now.config (rel_of node.now) ≡ true) }
    ensures err { IfErr result (CheckCause snapshot.now node.now) }
{
    let source = source_of(snapshot);
    if !has_relation(source.relations, &node.object.namespace, &node.relation) {
        return Err(Refusal::UnknownRelation);
    }
    Ok(())
}

fn is_member(alloc: Global, source: &Source, node: &Node, user: &Object) -> Result<bool, AllocError>
    requires { IsReady source.now }
    ensures { IfOk result (λ answer. IsTrue answer ↔ IsMember (snap_of source.now) user.now node.now) }
{
    let held = nodes_of(alloc, source, user)?;
    Ok(holds(&held, &node.object, &node.relation))
}

/// The objects that are subjects of tuples.
fn users_of(alloc: Global, tuples: &BTreeSet<Tuple>) -> Result<BTreeSet<Object>, AllocError>
    ensures { IfOk result (λ v. (u : Object) → Contains v.keys u ↔ Any (Names u) tuples.now.keys) }
{
    let mut users = BTreeSet::new(alloc);
    for tuple in tuples {
        if tuple.subject.relation.is_none() {
            add_object(&mut users, &tuple.subject.object)?;
        }
    }
    Ok(users)
}

fn add_object(objects: &mut BTreeSet<Object>, object: &Object) -> Result<(), AllocError>
    ensures { OnOk result (GainsObject objects.old.keys objects.new.keys object.now) }
{
    if !objects.contains(object) {
        objects.insert(object.clone()?)?;
    }
    Ok(())
}

/// Those of the users that are members of the node.
fn members_among(
    alloc: Global,
    source: &Source,
    node: &Node,
    users: &BTreeSet<Object>,
) -> Result<BTreeSet<Object>, AllocError>
    requires { IsReady source.now }
    ensures { IfOk result (λ v. AreMembersAmong (snap_of source.now) node.now users.now.keys v.keys) }
{
    let mut members = BTreeSet::new(alloc);
    for user in users {
        if is_member(alloc, source, node, user)? {
            add_object(&mut members, user)?;
        }
    }
    Ok(members)
}

fn in_order(alloc: Global, objects: BTreeSet<Object>) -> Result<Vec<Object>, AllocError>
    ensures items { IfOk result (λ v. v.items ≡ objects.keys) }
    ensures sorted { IsStrictlySortedBy object_cmp objects.keys }
{
    objects.into_iter().collect(alloc)
}
