//! All levels, from the lowest.
ghost use Rattle.std.specs.Prelude.{◌≡◌, ◌++◌, ◌∷◌, [], ◌↔◌, ◌<◌, ◌^◌, All, Any, Contains, EachIndex, IfOk, OnOk, length, slice_index};
ghost use Rattle.std.specs.Bool.{OnTrue};
ghost use Rattle.names.specs.declared.node.Node.{Node};
ghost use Rattle.names.specs.declared.object.Object.{Object};
ghost use Rattle.meaning.specs.Membership.{IsMember};
ghost use Rattle.plain.specs.inside.Source.{snap_of, node_of, IsReady, IsOf};
ghost use Rattle.plain.specs.inside.Candidates.{GainsLevel, HasLevel};

use crate::rounds::filled;
use crate::source::Source;
use names::{Name, Node, Object, Tuple};
use std::alloc::{AllocError, Global};
use std::collections::BTreeSet;

/// The objects of the tuples' nodes. Those that stand next to each other are listed once, and in the
/// order of tuples that is each of them.
fn objects_of(alloc: Global, tuples: &BTreeSet<Tuple>) -> Result<Vec<Object>, AllocError>
    ensures { IfOk result (λ v. (o : Object) → Contains v.items o ↔ Any (IsOf o) tuples.now.keys) }
{
    let mut objects = Vec::new(alloc);
    for tuple in tuples {
        if !ends_in(&objects, &tuple.node.object) {
            push_object(&mut objects, &tuple.node.object)?;
        }
    }
    Ok(objects)
}

/// Whether the object stands last.
fn ends_in(objects: &[Object], object: &Object) -> bool
    ensures { OnTrue result (Contains objects.now object.now) }
{
    match objects.last() {
        Some(last) => *last == *object,
        None => false,
    }
}

fn push_object(objects: &mut Vec<Object>, object: &Object) -> Result<(), AllocError>
    ensures { OnOk result (objects.new.items ≡ objects.old.items ++ object.now ∷ []) }
{
    objects.push(object.clone()?)?;
    Ok(())
}

fn push_node(nodes: &mut Vec<Node>, object: &Object, relation: &Name) -> Result<(), AllocError>
    ensures { OnOk result (nodes.new.items ≡ nodes.old.items ++ node_of object.now relation.now ∷ []) }
{
    let node = Node {
        object: object.clone()?,
        relation: relation.clone()?,
    };
    nodes.push(node)?;
    Ok(())
}

/// Adds the object's nodes whose relations have the level.
fn push_nodes(
    nodes: &mut Vec<Node>,
    source: &Source,
    object: &Object,
    level: usize,
) -> Result<(), AllocError>
    requires { length source.now.relations.now ≡ length source.now.levels.now }
    ensures { OnOk result (GainsLevel source.now object.now level nodes.old.items nodes.new.items) }
{
    let levels = source.levels;
    for (i, relation) in source.relations.iter().enumerate() {
        if levels[i] == level {
            if relation.name.namespace == object.namespace {
                push_node(nodes, object, &relation.name.relation)?;
            }
        }
    }
    Ok(())
}

/// The objects' nodes whose relations have the level.
fn nodes_at(
    alloc: Global,
    source: &Source,
    objects: &[Object],
    level: usize,
) -> Result<Vec<Node>, AllocError>
    requires { length source.now.relations.now ≡ length source.now.levels.now }
    ensures { IfOk result (λ v. HasLevel source.now objects.now level v.items) }
{
    let mut nodes = Vec::new(alloc);
    for object in objects {
        push_nodes(&mut nodes, source, object, level)?;
    }
    Ok(nodes)
}

/// A number above each of the levels.
fn count_of(levels: &[usize]) -> usize
    requires { All (λ l. l < 2 ^ 32) levels.now }
    ensures { EachIndex levels.now (λ i. slice_index levels.now i < result) }
{
    let mut count = 0;
    for level in levels {
        if *level >= count {
            count = *level + 1;
        }
    }
    count
}

/// The nodes that the user is a member of.
pub(crate) fn nodes_of(
    alloc: Global,
    source: &Source,
    user: &Object,
) -> Result<Vec<Node>, AllocError>
    requires { IsReady source.now }
    ensures { IfOk result (λ v. (m : Node) → Contains v.items m ↔ IsMember (snap_of source.now) user.now m) }
{
    let objects = objects_of(alloc, source.tuples)?;
    let count = count_of(source.levels);
    let mut held = Vec::new(alloc);
    for level in 0..count {
        let nodes = nodes_at(alloc, source, &objects, level)?;
        held = filled(alloc, source, user, &nodes, &held)?;
    }
    Ok(held)
}
