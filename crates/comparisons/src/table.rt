//! What one revision holds, by the definitions.

use crate::leading::led_to;
use crate::universe::Universe;
use names::{Node, Object, Refusal, Subject, Tuple};
use plain::check;
use snapshots::Snapshot;
use std::alloc::{AllocError, Global};
use std::collections::BTreeSet;

/// What a revision holds of a node.
#[derive(Drop)]
pub(crate) struct OfNode {
    pub(crate) node: Node,
    /// Whether the table's user is a member, where the relation is there.
    pub(crate) answer: Option<bool>,
    /// The node, and those on which it depends; of a group they are those to which it leads.
    pub(crate) led: BTreeSet<Node>,
    /// Whether it is a group: its relation is indexed.
    pub(crate) indexed: bool,
}

/// What a revision holds of a user.
#[derive(Drop)]
pub(crate) struct OfUser {
    pub(crate) user: Object,
    /// The groups that name the user.
    pub(crate) direct: BTreeSet<Node>,
}

/// What a revision holds of each node and of each user of a universe.
#[derive(Drop)]
pub(crate) struct Table {
    pub(crate) user: Object,
    pub(crate) nodes: Vec<OfNode>,
    pub(crate) users: Vec<OfUser>,
}

impl Table {
    /// The table of one user.
    pub(crate) fn of(
        alloc: Global,
        snapshot: &Snapshot,
        universe: &Universe,
        user: Object,
    ) -> Result<Table, Refusal> {
        let mut nodes = Vec::new(alloc);
        for node in &universe.nodes {
            nodes.push(of_node(alloc, snapshot, node, &user)?)?;
        }
        let mut users = Vec::new(alloc);
        for user in &universe.users {
            let direct = direct_of(alloc, snapshot, &universe.nodes, user)?;
            let user = user.clone()?;
            users.push(OfUser { user, direct })?;
        }
        Ok(Table { user, nodes, users })
    }
}

fn of_node(
    alloc: Global,
    snapshot: &Snapshot,
    node: &Node,
    user: &Object,
) -> Result<OfNode, Refusal> {
    Ok(OfNode {
        node: node.clone()?,
        answer: answer_of(alloc, snapshot, node, user)?,
        led: led_to(alloc, snapshot, node)?,
        indexed: is_indexed(snapshot, node),
    })
}

/// Whether the user is a member of the node by the definition, where the relation is there.
pub(crate) fn answer_of(
    alloc: Global,
    snapshot: &Snapshot,
    node: &Node,
    user: &Object,
) -> Result<Option<bool>, Refusal> {
    match check(alloc, snapshot, node, user) {
        Ok(answer) => Ok(Some(answer)),
        Err(Refusal::UnknownRelation) => Ok(None),
        Err(why) => Err(why),
    }
}

fn is_indexed(snapshot: &Snapshot, node: &Node) -> bool {
    let config = snapshot.config();
    let Some(place) = config.place_of(node) else {
        return false;
    };
    match config.relations().get(place) {
        Some(relation) => relation.indexed,
        None => false,
    }
}

fn direct_of(
    alloc: Global,
    snapshot: &Snapshot,
    nodes: &[Node],
    user: &Object,
) -> Result<BTreeSet<Node>, AllocError> {
    let mut direct = BTreeSet::new(alloc);
    for node in nodes {
        let tuple = Tuple {
            node: node.clone()?,
            subject: Subject::one(user.clone()?),
        };
        if is_indexed(snapshot, node) && snapshot.contains(&tuple) {
            direct.insert(tuple.node)?;
        }
    }
    Ok(direct)
}
