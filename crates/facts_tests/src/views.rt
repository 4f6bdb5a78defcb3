//! What a view tells: members that are kept of a document whose viewers come from a folder's group, less a banned one.
ghost use Rattle.region.specs.Sets.{IsWhole};

use crate::history::fill;
use facts::{Numbers, ViewFacts, number_of};
use idsets::IdSet;
use names::{Node, Object, Refusal};
use region::{Sets, refresh};
use rows::{Rows, View};
use std::alloc::{AllocError, Global};
use std::hash::RandomState;
use std::test::Fail;

// Whether a node has a user; nothing, where it is not kept.
fn has(numbers: &Numbers, sets: &Sets, node: &Node, user: &Object) -> Option<bool> {
    let id = numbers.nodes.id_of(node)?;
    let members = sets.members(id)?;
    match numbers.users.id_of(user) {
        Some(number) => Some(members.contains(number)),
        None => Some(false),
    }
}

fn is_kept_so(
    numbers: &Numbers,
    sets: &Sets,
    node: &str,
    user: &str,
    expected: Option<bool>,
) -> Result<bool, Refusal> {
    let node = Node::parse(node)?;
    let user = Object::parse(user)?;
    Ok(has(numbers, sets, &node, &user) == expected)
}

// Whether the members that are kept are those that the tuples and rewrites give by hand.
fn are_by_hand(numbers: &Numbers, sets: &Sets) -> Result<bool, Refusal> {
    for (node, user, expected) in [
        ("doc:1#viewer", "user:ann", Some(true)),
        ("doc:1#viewer", "user:bob", Some(true)),
        ("doc:1#viewer", "user:zoe", Some(false)),
        ("folder:f#viewer", "user:zoe", Some(true)),
        ("group:b#member", "user:ann", Some(false)),
        ("group:c#member", "user:ann", None),
    ] {
        if !is_kept_so(numbers, sets, node, user, expected)? {
            return Ok(false);
        }
    }
    Ok(true)
}

// How many nodes the view was asked for.
fn asked(
    alloc: Global,
    view: &View<'_>,
    numbers: &mut Numbers,
    sets: &mut Sets,
    root: u64,
) -> Result<usize, AllocError>
    requires { IsWhole sets.old }
{
    let roots = IdSet::of(vec![in alloc; root]?);
    let mut facts = ViewFacts::of(alloc, numbers.nodes.keys(), view);
    facts.exchange(numbers);
    refresh(alloc, sets, &roots, &[root], &[], &mut facts)?;
    facts.exchange(numbers);
    Ok(facts.asked().len())
}

// Keeps what the document's viewers depend on, which are seven nodes.
fn keeps(
    alloc: Global,
    rows: &Rows,
    numbers: &mut Numbers,
    sets: &mut Sets,
) -> Result<bool, Refusal>
    requires { IsWhole sets.old }
{
    let viewers = Node::parse("doc:1#viewer")?;
    let root = number_of(&mut numbers.nodes, &viewers)?;
    Ok(asked(alloc, &rows.at(rows.newest()), numbers, sets, root)? == 7)
}

fn tells(
    alloc: Global,
    rows: &mut Rows,
    numbers: &mut Numbers,
    sets: &mut Sets,
) -> Result<bool, Refusal>
    requires { IsWhole sets.old }
{
    fill(alloc, rows)?;
    Ok(keeps(alloc, rows, numbers, sets)? && are_by_hand(numbers, sets)?)
}

fn is_told(alloc: Global, keys: RandomState) -> Result<bool, Refusal> {
    let mut rows = Rows::empty(alloc);
    let mut numbers = Numbers::new(alloc, keys);
    let mut sets = Sets::new(alloc);
    tells(alloc, &mut rows, &mut numbers, &mut sets)
}

#[test]
fn a_view_tells_who_views_a_document(rt: HostRuntime) -> Result<(), Fail> {
    let keys = RandomState::new(&rt)?;
    assert!(rt; is_told(rt.alloc(), keys)?);
    Ok(())
}
