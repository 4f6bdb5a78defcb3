//! What the rounds read.
ghost use Rattle.std.specs.Prelude.{◌≡◌, ◌↔◌, Contains, IsTrue};
ghost use Rattle.plain.specs.inside.Given.{TupleGives, TuplesetGives};
ghost use Rattle.plain.specs.inside.Source.{node_of, defines, Grants, IsSourceOf, LeadsOn};

use config::Relation;
use names::{Name, Node, Object, Tuple};
use snapshots::Snapshot;
use std::collections::BTreeSet;

/// The relations of a configuration, with the level of each, and tuples.
#[derive(Clone, Copy)]
pub(crate) struct Source<'a> {
    pub(crate) relations: &'a [Relation],
    pub(crate) levels: &'a [usize],
    pub(crate) tuples: &'a BTreeSet<Tuple>,
}

/// What the rounds read of a snapshot.
pub(crate) fn source_of(snapshot: &Snapshot) -> Source<'_>
    ensures { IsSourceOf snapshot.now result }
{
    let config = snapshot.config();
    Source {
        relations: config.relations(),
        levels: config.levels(),
        tuples: snapshot.tuples(),
    }
}

/// Whether the namespace has the relation.
pub(crate) fn has_relation(relations: &[Relation], namespace: &Name, name: &Name) -> bool
    ensures { result ≡ defines relations.now namespace.now name.now }
{
    for relation in relations {
        if relation.name.namespace == *namespace && relation.name.relation == *name {
            return true;
        }
    }
    false
}

/// Whether the node with these parts is held.
pub(crate) fn holds(held: &[Node], object: &Object, relation: &Name) -> bool
    ensures { IsTrue result ↔ Contains held.now (node_of object.now relation.now) }
{
    held.iter()
        .any(|m| m.object == *object && m.relation == *relation)
}

/// Whether the tuple gives the node the user, by itself or by a node that is held.
fn grants(tuple: &Tuple, node: &Node, user: &Object, held: &[Node]) -> bool
    ensures { IsTrue result ↔ Grants node.now user.now held.now tuple.now }
{
    if tuple.node == *node {
        match &tuple.subject.relation {
            None => tuple.subject.object == *user,
            Some(relation) => holds(held, &tuple.subject.object, relation),
        }
    } else {
        false
    }
}

/// Whether a tuple of the node gives it the user.
pub(crate) fn is_direct(source: &Source, node: &Node, user: &Object, held: &[Node]) -> bool
    ensures { IsTrue result ↔ TupleGives source.now user.now node.now held.now }
{
    let tuples = source.tuples;
    tuples.iter().any(|t| grants(t, node, user, held))
}

/// Whether the tuple leads from the tupleset's node to an object whose relation is held.
fn leads_on(
    relations: &[Relation],
    tuple: &Tuple,
    object: &Object,
    tupleset: &Name,
    relation: &Name,
    held: &[Node],
) -> bool
    ensures { IsTrue result ↔ LeadsOn relations.now object.now tupleset.now relation.now held.now tuple.now }
{
    if tuple.node.object == *object && tuple.node.relation == *tupleset {
        match &tuple.subject.relation {
            None => {
                has_relation(relations, &tuple.subject.object.namespace, relation)
                    && holds(held, &tuple.subject.object, relation)
            }
            Some(_) => false,
        }
    } else {
        false
    }
}

/// Whether a tuple of the tupleset's node leads to an object whose relation is held.
pub(crate) fn is_through(
    source: &Source,
    node: &Node,
    user: &Object,
    tupleset: &Name,
    relation: &Name,
    held: &[Node],
) -> bool
    ensures { IsTrue result ↔ TuplesetGives source.now user.now node.now tupleset.now relation.now held.now }
{
    let tuples = source.tuples;
    tuples.iter().any(|t| leads_on(source.relations, t, &node.object, tupleset, relation, held))
}
