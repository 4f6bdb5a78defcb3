//! What a node's tuples name, and those of its tuplesets.
ghost use Rattle.std.specs.Prelude.{◌≡◌, ◌++◌, ◌∷◌, [], List, Contains, IfOk, OnOk};
ghost use Rattle.names.specs.declared.object.Object.{Object as ObjectValue};
ghost use Rattle.names.specs.declared.tuple.Tuple.{Tuple as TupleValue};
ghost use Rattle.versions.specs.Named.{objects_in, nodes_in};
ghost use Rattle.graphs.specs.Graph.{IsTupleTo};
ghost use Rattle.facts.specs.Numbers.{Grew, AreNumbersOf};
ghost use Rattle.facts.specs.Telling.{IsComputedOf};

use crate::numbering::number_of;
use config::Config;
use idsets::Ids;
use names::{Name, Node, Object, Tuple};
use rows::View;
use std::alloc::{AllocError, Global};

/// The numbers of the users that some tuples name.
pub(crate) fn users_in(
    alloc: Global,
    users: &mut Ids<Object>,
    tuples: &[Tuple],
) -> Result<Vec<u64>, AllocError>
    ensures grew { Grew users.old users.new }
    ensures numbers { IfOk result (λ ids. AreNumbersOf users.new ids.items (Contains (objects_in tuples.now))) }
{
    let mut ids = Vec::new(alloc);
    for tuple in tuples {
        push_user(users, &mut ids, tuple)?;
    }
    Ok(ids)
}

/// Adds the number of the user that the tuple names, where it names one.
fn push_user(users: &mut Ids<Object>, ids: &mut Vec<u64>, tuple: &Tuple) -> Result<(), AllocError>
    ensures grew { Grew users.old users.new }
    ensures numbers { OnOk result ((ts : List TupleValue) → AreNumbersOf users.old ids.old.items (Contains (objects_in ts))
        → AreNumbersOf users.new ids.new.items (Contains (objects_in (ts ++ tuple.now ∷ [])))) }
{
    match &tuple.subject.relation {
        None => {
            let id = number_of(users, &tuple.subject.object)?;
            ids.push(id)?;
            Ok(())
        }
        Some(_) => Ok(()),
    }
}

/// The numbers of the nodes whose members some tuples name.
pub(crate) fn sets_in(
    alloc: Global,
    nodes: &mut Ids<Node>,
    tuples: &[Tuple],
) -> Result<Vec<u64>, AllocError>
    ensures grew { Grew nodes.old nodes.new }
    ensures numbers { IfOk result (λ ids. AreNumbersOf nodes.new ids.items (Contains (nodes_in tuples.now))) }
{
    let mut ids = Vec::new(alloc);
    for tuple in tuples {
        push_set(nodes, &mut ids, tuple)?;
    }
    Ok(ids)
}

/// Adds the number of the node whose members the tuple names, where it names those of one.
fn push_set(nodes: &mut Ids<Node>, ids: &mut Vec<u64>, tuple: &Tuple) -> Result<(), AllocError>
    ensures grew { Grew nodes.old nodes.new }
    ensures numbers { OnOk result ((ts : List TupleValue) → AreNumbersOf nodes.old ids.old.items (Contains (nodes_in ts))
        → AreNumbersOf nodes.new ids.new.items (Contains (nodes_in (ts ++ tuple.now ∷ [])))) }
{
    match &tuple.subject.relation {
        None => Ok(()),
        Some(relation) => {
            let node = node_of(&tuple.subject.object, relation)?;
            let id = number_of(nodes, &node)?;
            ids.push(id)?;
            Ok(())
        }
    }
}

/// The number of the relation of an object, as a list.
pub(crate) fn relation_of(
    alloc: Global,
    nodes: &mut Ids<Node>,
    object: &Object,
    relation: &Name,
) -> Result<Vec<u64>, AllocError>
    ensures grew { Grew nodes.old nodes.new }
    ensures numbers { IfOk result (λ ids. AreNumbersOf nodes.new ids.items (λ m. m ≡ record { object = object.now; relation = relation.now })) }
{
    let node = node_of(object, relation)?;
    let id = number_of(nodes, &node)?;
    let ids = vec![in alloc; id]?;
    Ok(ids)
}

/// The numbers of a relation of the objects that the tuples of a node's tupleset name, as far as they have it.
pub(crate) fn parents_of(
    alloc: Global,
    view: &View,
    nodes: &mut Ids<Node>,
    node: &Node,
    tupleset: &Name,
    relation: &Name,
) -> Result<Vec<u64>, AllocError>
    ensures grew { Grew nodes.old nodes.new }
    ensures numbers { IfOk result (λ ids. AreNumbersOf nodes.new ids.items (IsTupleTo view.now node.now tupleset.now relation.now)) }
{
    let from = node_of(&node.object, tupleset)?;
    let objects = view.objects_of(alloc, &from)?;
    computed_of(alloc, view.config(), nodes, &objects, relation)
}

/// The numbers of a relation of some objects, as far as they have it.
fn computed_of(
    alloc: Global,
    config: &Config,
    nodes: &mut Ids<Node>,
    objects: &[Object],
    relation: &Name,
) -> Result<Vec<u64>, AllocError>
    ensures grew { Grew nodes.old nodes.new }
    ensures numbers { IfOk result (λ ids. AreNumbersOf nodes.new ids.items (IsComputedOf config.now objects.now relation.now)) }
{
    let mut ids = Vec::new(alloc);
    for object in objects {
        push_computed(config, nodes, &mut ids, object, relation)?;
    }
    Ok(ids)
}

/// Adds the number of a relation of the object, where it has it.
fn push_computed(
    config: &Config,
    nodes: &mut Ids<Node>,
    ids: &mut Vec<u64>,
    object: &Object,
    relation: &Name,
) -> Result<(), AllocError>
    ensures grew { Grew nodes.old nodes.new }
    ensures numbers { OnOk result ((os : List ObjectValue) → AreNumbersOf nodes.old ids.old.items (IsComputedOf config.now os relation.now)
        → AreNumbersOf nodes.new ids.new.items (IsComputedOf config.now (os ++ object.now ∷ []) relation.now)) }
{
    let node = node_of(object, relation)?;
    match config.place_of(&node) {
        None => Ok(()),
        Some(_) => {
            let id = number_of(nodes, &node)?;
            ids.push(id)?;
            Ok(())
        }
    }
}

pub(crate) fn node_of(object: &Object, relation: &Name) -> Result<Node, AllocError>
    ensures { IfOk result (λ n. n ≡ record { object = object.now; relation = relation.now }) }
{
    Ok(Node {
        object: object.clone()?,
        relation: relation.clone()?,
    })
}
