//! Where walks lead, from node to node, by tuples and rewrites.

use config::Rewrite;
use names::{Name, Node, Object, Tuple};
use snapshots::Snapshot;
use std::alloc::{AllocError, Global};
use std::collections::BTreeSet;

/// More than there are nodes.
const ROUNDS: u64 = 64;

fn add(nodes: &mut BTreeSet<Node>, object: &Object, relation: &Name) -> Result<(), AllocError> {
    nodes.insert(Node {
        object: object.clone()?,
        relation: relation.clone()?,
    })?;
    Ok(())
}

// The usersets that the node's tuples name.
fn add_usersets(
    nodes: &mut BTreeSet<Node>,
    tuples: &BTreeSet<Tuple>,
    node: &Node,
) -> Result<(), AllocError> {
    for tuple in tuples {
        if tuple.node == *node {
            if let Some(relation) = &tuple.subject.relation {
                add(nodes, &tuple.subject.object, relation)?;
            }
        }
    }
    Ok(())
}

fn has_relation(snapshot: &Snapshot, object: &Object, relation: &Name) -> bool {
    snapshot.config().relations().iter().any(|known| known.name.namespace == object.namespace
        && known.name.relation == *relation)
}

// The tupleset's node, and the relation of each object that its tuples name.
fn add_through(
    nodes: &mut BTreeSet<Node>,
    snapshot: &Snapshot,
    object: &Object,
    tupleset: &Name,
    relation: &Name,
) -> Result<(), AllocError> {
    add(nodes, object, tupleset)?;
    for tuple in snapshot.tuples() {
        if tuple.node.object == *object && tuple.node.relation == *tupleset {
            let parent = &tuple.subject.object;
            if tuple.subject.relation.is_none() && has_relation(snapshot, parent, relation) {
                add(nodes, parent, relation)?;
            }
        }
    }
    Ok(())
}

#[cycle(looked_up)]
fn add_looked_up(
    nodes: &mut BTreeSet<Node>,
    snapshot: &Snapshot,
    node: &Node,
    rewrite: &Rewrite,
) -> Result<(), AllocError> {
    match rewrite {
        Rewrite::This => add_usersets(nodes, snapshot.tuples(), node),
        Rewrite::Computed(relation) => add(nodes, &node.object, relation),
        Rewrite::TupleTo { tupleset, relation } => {
            add_through(nodes, snapshot, &node.object, tupleset, relation)
        }
        Rewrite::Union(parts) => add_all_looked_up(nodes, snapshot, node, parts),
        Rewrite::Intersection(parts) => add_all_looked_up(nodes, snapshot, node, parts),
        Rewrite::Exclusion(base, less) => {
            add_looked_up(nodes, snapshot, node, base)?;
            add_looked_up(nodes, snapshot, node, less)
        }
    }
}

#[cycle(looked_up)]
fn add_all_looked_up(
    nodes: &mut BTreeSet<Node>,
    snapshot: &Snapshot,
    node: &Node,
    parts: &[Rewrite],
) -> Result<(), AllocError> {
    for part in parts {
        add_looked_up(nodes, snapshot, node, part)?;
    }
    Ok(())
}

fn add_next(
    nodes: &mut BTreeSet<Node>,
    snapshot: &Snapshot,
    node: &Node,
) -> Result<(), AllocError> {
    let config = snapshot.config();
    let Some(place) = config.place_of(node) else {
        return Ok(());
    };
    match config.relations().get(place) {
        Some(relation) => add_looked_up(nodes, snapshot, node, &relation.rewrite),
        None => Ok(()),
    }
}

/// The node, and all that it depends on: what its rewrite looks up, and so on. Of a group they are those to which it
/// leads.
pub(crate) fn led_to(
    alloc: Global,
    snapshot: &Snapshot,
    from: &Node,
) -> Result<BTreeSet<Node>, AllocError> {
    let mut found = BTreeSet::new(alloc);
    found.insert(from.clone()?)?;
    let mut last = BTreeSet::new(alloc);
    last.insert(from.clone()?)?;
    for _ in 0..ROUNDS {
        last = next(alloc, snapshot, &mut found, &last)?;
        if last.is_empty() {
            return Ok(found);
        }
    }
    Ok(found)
}

// Those that the last ones look up, and that are not found yet; they are found then.
fn next(
    alloc: Global,
    snapshot: &Snapshot,
    found: &mut BTreeSet<Node>,
    last: &BTreeSet<Node>,
) -> Result<BTreeSet<Node>, AllocError> {
    let mut reached = BTreeSet::new(alloc);
    for node in last {
        add_next(&mut reached, snapshot, node)?;
    }
    let mut new = BTreeSet::new(alloc);
    for node in &reached {
        if !found.contains(node) {
            found.insert(node.clone()?)?;
            new.insert(node.clone()?)?;
        }
    }
    Ok(new)
}
