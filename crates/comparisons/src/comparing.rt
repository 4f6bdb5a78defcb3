//! What is kept, beside the definitions.

use crate::followed::Followed;
use crate::score::{Asked, Score};
use crate::table::{OfNode, Table, answer_of};
use crate::universe::Universe;
use group_index::At;
use hot::Hot;
use leopard::Expr;
use names::{Node, Object, Refusal};
use snapshots::Snapshot;
use std::alloc::{AllocError, Global};
use std::collections::BTreeSet;

/// More groups than there are.
const MOST: u32 = 100;

// Whether a marked node is this one, or depends on it.
fn is_under_mark(table: &Table, marks: &[Node], node: &Node) -> bool {
    table.nodes.iter().any(|root| root.led.contains(node) && marks.contains(&root.node))
}

// Whether each user is told to be a member by itself where it is among those that are told.
fn are_alike(hot: &Hot, table: &Table, node: &Node, members: &Option<Vec<Object>>) -> bool {
    for of_user in &table.users {
        let user = &of_user.user;
        let among = members.as_ref().map(|members| members.contains(user));
        if hot.has(node, user) != among {
            return false;
        }
    }
    true
}

// Whether what is kept of the node is right: nothing, unless it is to be kept, and then who is a member.
fn is_right(
    alloc: Global,
    hot: &Hot,
    table: &Table,
    of_node: &OfNode,
    is_kept: bool,
) -> Result<bool, AllocError> {
    let node = &of_node.node;
    let wanted = if is_kept {
        Some(of_node.answer.unwrap_or(false))
    } else {
        None
    };
    let members = hot.members(alloc, node)?;
    Ok(
        hot.is_kept(node) == is_kept
            && hot.has(node, &table.user) == wanted
            && are_alike(hot, table, node, &members),
    )
}

/// Compares the members that are kept of all nodes, at their revision.
pub(crate) fn compare_members(
    alloc: Global,
    followed: &Followed,
    table: &Table,
    marks: &[Node],
    score: &mut Score,
) -> Result<(), AllocError> {
    let hot = followed.hot();
    let asked = Asked {
        part: "number of marks",
        rev: followed.cursor(),
        node: None,
        user: None,
    };
    score.compare(alloc, hot.marked() == marks.len(), asked)?;
    for of_node in &table.nodes {
        let is_kept = is_under_mark(table, marks, &of_node.node);
        let same = is_right(alloc, hot, table, of_node, is_kept)?;
        let asked = Asked {
            part: "members",
            rev: followed.cursor(),
            node: Some(&of_node.node),
            user: Some(&table.user),
        };
        score.compare(alloc, same, asked)?;
    }
    Ok(())
}

/// Compares checks at a retained revision: those that ask what is kept, and those that ask nothing.
pub(crate) fn compare_checks(
    alloc: Global,
    followed: &Followed,
    rev: u64,
    table: &Table,
    score: &mut Score,
) -> Result<(), Refusal> {
    for of_node in &table.nodes {
        let (node, user) = (&of_node.node, &table.user);
        let mut asked = Asked {
            part: "check",
            rev,
            node: Some(node),
            user: Some(user),
        };
        let found = followed.check(rev, node, user)?;
        score.compare(alloc, found == of_node.answer, asked)?;
        asked.part = "check that asks nothing";
        let found = followed.check_alone(rev, node, user)?;
        score.compare(alloc, found == of_node.answer, asked)?;
    }
    Ok(())
}

/// Compares checks of each node and each user at the newest revision, of which the snapshot is given, by searches that ask
/// nothing.
pub(crate) fn compare_all_checks(
    alloc: Global,
    followed: &Followed,
    snapshot: &Snapshot,
    universe: &Universe,
    score: &mut Score,
) -> Result<(), Refusal> {
    let rev = followed.newest();
    for node in &universe.nodes {
        for user in &universe.users {
            let wanted = answer_of(alloc, snapshot, node, user)?;
            let found = followed.check_alone(rev, node, user)?;
            let asked = Asked {
                part: "check of each user",
                rev,
                node: Some(node),
                user: Some(user),
            };
            score.count_check(wanted);
            score.judge(alloc, found == wanted, asked)?;
        }
    }
    Ok(())
}

// The index's groups for an expression, or nothing where it has an answer for none.
fn groups_of(at: &At<'_>, expr: Expr) -> Result<Option<Vec<Node>>, Refusal> {
    match at.first_groups(&expr, MOST) {
        Ok(groups) => Ok(Some(groups)),
        Err(Refusal::NotIndexed) | Err(Refusal::UnknownRelation) => Ok(None),
        Err(why) => Err(why),
    }
}

// Whether they are the same, in order.
fn are_same(found: &[Node], wanted: &BTreeSet<Node>) -> bool {
    found.len() == wanted.len()
        && found
            .iter()
            .zip(wanted.iter())
            .all(|(one, other)| one == other)
}

// Whether the group leads where it is to, and has the user where it is to.
fn is_node_right(at: &At<'_>, of_node: &OfNode, user: &Object) -> Result<bool, Refusal> {
    let node = &of_node.node;
    let found = groups_of(at, Expr::Group2Group(node.clone()?))?;
    let has = at.has(node, user);
    match found {
        Some(found) => {
            Ok(of_node.indexed && has == of_node.answer && are_same(&found, &of_node.led))
        }
        None => Ok(!of_node.indexed && has.is_none()),
    }
}

/// Compares what the group index tells of a revision.
fn compare_index(
    alloc: Global,
    at: &At<'_>,
    rev: u64,
    table: &Table,
    score: &mut Score,
) -> Result<(), Refusal> {
    for of_node in &table.nodes {
        let asked = Asked {
            part: "closure",
            rev,
            node: Some(&of_node.node),
            user: Some(&table.user),
        };
        let same = is_node_right(at, of_node, &table.user)?;
        score.compare(alloc, same, asked)?;
    }
    for of_user in &table.users {
        let asked = Asked {
            part: "direct groups",
            rev,
            node: None,
            user: Some(&of_user.user),
        };
        let found = groups_of(at, Expr::Member2Group(of_user.user.clone()?))?;
        let same = found.is_some_and(|found| are_same(&found, &of_user.direct));
        score.compare(alloc, same, asked)?;
    }
    Ok(())
}

/// Compares what the group index tells of the revisions of which tables are given, the first of them that of revision 0.
pub(crate) fn compare_groups(
    alloc: Global,
    followed: &Followed,
    tables: &[Table],
    score: &mut Score,
) -> Result<(), Refusal> {
    let Some(index) = followed.groups() else {
        return Ok(());
    };
    for (place, table) in tables.iter().enumerate() {
        let rev = place as u64;
        if let Some(at) = index.at(alloc, rev) {
            compare_index(alloc, &at, rev, table, score)?;
        }
    }
    Ok(())
}
