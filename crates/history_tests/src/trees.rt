//! Userset trees.

use crate::histories::history;
use expand::{MAX_DEPTH, Tree, a_tree_means_its_members, expand_at};
use names::{Node, Refusal};
use rows::Rows;
use std::alloc::Global;
use std::test::Fail;

// A group that holds itself.
const LINES: [&str; 2] = [
    r#"{"namespaces":{"user":{},"group":{"member":{"types":["user","group#member"]}}}}"#,
    "group:a#member@group:a#member",
];

fn is_only(tree: &Tree, node: &Node) -> bool {
    match tree {
        Tree::Union(parts) => match parts.as_slice() {
            [Tree::Closed(only)] => *only == *node,
            _ => false,
        },
        _ => false,
    }
}

fn holds_only(tree: &Tree, node: &Node) -> bool {
    match tree {
        Tree::Opened(opened, below) => *opened == *node && is_only(below, node),
        _ => false,
    }
}

fn is_closed_in_itself(alloc: Global) -> Result<bool, Refusal> {
    let node = Node::parse("group:a#member")?;
    let rows = history(alloc, &LINES)?;
    let tree = expand_at(alloc, &rows.at(rows.newest()), &node, MAX_DEPTH)?;
    Ok(holds_only(&tree, &node))
}

#[test]
fn a_group_that_holds_itself_stays_closed_in_itself(rt: HostRuntime) -> Result<(), Fail> {
    a_tree_means_its_members();
    assert!(rt; is_closed_in_itself(rt.alloc())?);
    Ok(())
}

// Whether the node's relation is refused as unknown.
fn is_unknown(alloc: Global, rows: &Rows, node: &str) -> Result<bool, Refusal> {
    let node = Node::parse(node)?;
    match expand_at(alloc, &rows.at(rows.newest()), &node, 1) {
        Ok(_) => Ok(false),
        Err(Refusal::UnknownRelation) => Ok(true),
        Err(why) => Err(why),
    }
}

fn are_unknown(alloc: Global, rows: &Rows) -> Result<bool, Refusal> {
    let other = is_unknown(alloc, rows, "group:a#viewer")?;
    let none = is_unknown(alloc, rows, "user:a#member")?;
    Ok(other && none && !is_unknown(alloc, rows, "group:c#member")?)
}

fn refuses_unknown(alloc: Global) -> Result<bool, Refusal> {
    let rows = history(alloc, &LINES)?;
    are_unknown(alloc, &rows)
}

#[test]
fn an_unknown_relation_is_refused(rt: HostRuntime) -> Result<(), Fail> {
    assert!(rt; refuses_unknown(rt.alloc())?);
    Ok(())
}
