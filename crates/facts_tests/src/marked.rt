//! Members of a marked document: when it is marked, after a commit and a configuration, and when its mark is taken off.

use crate::groups::{are_nodes, events_of};
use crate::history::{add, configure, fill};
use hot::{Hot, ViewNodes};
use names::{Commit, Event, Node, Object, Refusal};
use rows::Rows;
use std::alloc::Global;
use std::hash::RandomState;
use std::test::Fail;

// All that the viewers of the document depend on.
const ALL: &str = "doc:1#viewer doc:1#owner doc:1#parent doc:1#banned folder:f#viewer \
    group:v#member group:b#member";

// Ann leaves the group of the folder; then all of another group, in which she is, join it.
const LEAVES: &str = "-group:v#member@user:ann";

const JOINS: &str = "group:v#member@group:c#member";

// The viewers of a document are those who are named, and its owners, and nobody is kept out.
const OWNERS: &str = r#"{"namespaces":{"doc":{"banned":{"types":["user","group#member"]},
"owner":{"types":["user"]},"parent":{"types":["folder"]},
"viewer":{"rewrite":{"union":["this",{"computed":"owner"}]},"types":["user"]}},
"folder":{"viewer":{"types":["user","group#member"]}},
"group":{"member":{"indexed":true,"types":["user","group#member"]}},
"user":{}}}"#;

// What is kept of a node, if anything is.
fn members(alloc: Global, hot: &Hot, node: &str) -> Result<Option<Vec<Object>>, Refusal> {
    let node = Node::parse(node)?;
    Ok(hot.members(alloc, &node)?)
}

fn has(users: &[Object], word: &str) -> Result<bool, Refusal> {
    let user = Object::parse(word)?;
    Ok(users.contains(&user))
}

fn are_users(users: &[Object], words: &str) -> Result<bool, Refusal> {
    for word in words.split_ascii_whitespace() {
        if !has(users, word)? {
            return Ok(false);
        }
    }
    Ok(users.len() == words.split_ascii_whitespace().count())
}

// Whether these are the members that are kept of a node, in any order.
fn are_kept(alloc: Global, hot: &Hot, node: &str, users: &str) -> Result<bool, Refusal> {
    match members(alloc, hot, node)? {
        Some(found) => are_users(&found, users),
        None => Ok(false),
    }
}

fn none_are_kept(alloc: Global, hot: &Hot, node: &str) -> Result<bool, Refusal> {
    Ok(members(alloc, hot, node)?.is_none())
}

// Whether one of the numbers is that of the word's node.
fn has_number(hot: &Hot, numbers: &[u64], word: &str) -> Result<bool, Refusal> {
    let node = Node::parse(word)?;
    for number in numbers {
        if hot.node(*number) == Some(&node) {
            return Ok(true);
        }
    }
    Ok(false)
}

// Whether the numbers are those of the words' nodes, in any order.
fn are_numbered(hot: &Hot, numbers: &[u64], words: &str) -> Result<bool, Refusal> {
    for word in words.split_ascii_whitespace() {
        if !has_number(hot, numbers, word)? {
            return Ok(false);
        }
    }
    Ok(numbers.len() == words.split_ascii_whitespace().count())
}

// Marks the document by asking for all that it depends on.
fn mark(alloc: Global, hot: &mut Hot, rows: &Rows) -> Result<bool, Refusal> {
    let node = Node::parse("doc:1#viewer")?;
    let asked = hot.mark(alloc, &rows.at(rows.newest()), &node)?;
    are_numbered(hot, &asked, ALL)
}

fn is_marked(alloc: Global, hot: &mut Hot, rows: &Rows) -> Result<bool, Refusal> {
    let all = mark(alloc, hot, rows)?;
    let viewers = are_kept(alloc, hot, "doc:1#viewer", "user:ann user:bob")?;
    let members = are_kept(alloc, hot, "group:v#member", "user:ann user:zoe")?;
    Ok(all && viewers && members && none_are_kept(alloc, hot, "group:c#member")?)
}

// Whether it takes the events by asking for these nodes and no others.
fn takes(
    alloc: Global,
    hot: &mut Hot,
    rows: &Rows,
    events: &[Event],
    asked: &str,
) -> Result<bool, Refusal> {
    let view = rows.at(rows.newest());
    let mut nodes = ViewNodes::of(alloc, &view);
    hot.take(alloc, events, &mut nodes)?;
    are_nodes(nodes.asked(), asked)
}

// The history takes a commit of these words, and then what is kept of the document.
fn take(
    alloc: Global,
    hot: &mut Hot,
    rows: &mut Rows,
    words: &str,
    asked: &str,
) -> Result<bool, Refusal> {
    let tuples = Commit::Tuples(events_of(alloc, words)?);
    add(rows, &tuples)?;
    let events = events_of(alloc, words)?;
    takes(alloc, hot, rows, events.as_slice(), asked)
}

// A user who leaves is taken out of what was told, and nobody is asked.
fn leaves(alloc: Global, hot: &mut Hot, rows: &mut Rows) -> Result<bool, Refusal> {
    let few = take(alloc, hot, rows, LEAVES, "")?;
    Ok(few && are_kept(alloc, hot, "doc:1#viewer", "user:bob")?)
}

// Of the nodes on the ways from the document only the group that others join is asked, and the one that is new.
fn joins(alloc: Global, hot: &mut Hot, rows: &mut Rows) -> Result<bool, Refusal> {
    let few = take(alloc, hot, rows, JOINS, "group:v#member group:c#member")?;
    Ok(few && are_kept(alloc, hot, "doc:1#viewer", "user:ann user:bob")?)
}

fn follows(alloc: Global, hot: &mut Hot, rows: &mut Rows) -> Result<bool, Refusal> {
    Ok(leaves(alloc, hot, rows)? && joins(alloc, hot, rows)?)
}

// The viewers are then the owner alone, and the folder is nothing to them.
fn begins_anew(alloc: Global, hot: &mut Hot, rows: &mut Rows) -> Result<bool, Refusal> {
    configure(alloc, rows, OWNERS)?;
    hot.restart(alloc, &rows.at(rows.newest()))?;
    let viewers = are_kept(alloc, hot, "doc:1#viewer", "user:bob")?;
    Ok(viewers && none_are_kept(alloc, hot, "folder:f#viewer")?)
}

fn is_unmarked(alloc: Global, hot: &mut Hot) -> Result<bool, Refusal> {
    let node = Node::parse("doc:1#viewer")?;
    hot.unmark(alloc, &node)?;
    Ok(hot.marked() == 0 && none_are_kept(alloc, hot, "doc:1#viewer")?)
}

fn is_kept(alloc: Global, hot: &mut Hot, rows: &mut Rows) -> Result<bool, Refusal> {
    fill(alloc, rows)?;
    let followed = is_marked(alloc, hot, rows)? && follows(alloc, hot, rows)?;
    let anew = followed && begins_anew(alloc, hot, rows)?;
    Ok(anew && is_unmarked(alloc, hot)?)
}

fn is_kept_till_unmarked(alloc: Global, keys: RandomState) -> Result<bool, Refusal> {
    let mut rows = Rows::empty(alloc);
    let mut hot = Hot::new(alloc, keys);
    is_kept(alloc, &mut hot, &mut rows)
}

#[test]
fn a_marked_document_has_its_viewers(rt: HostRuntime) -> Result<(), Fail> {
    let keys = RandomState::new(&rt)?;
    assert!(rt; is_kept_till_unmarked(rt.alloc(), keys)?);
    Ok(())
}
