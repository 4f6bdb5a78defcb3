//! The members of nodes, and the changes of snapshots that the program does not make yet.

use config::Config;
use names::{Node, Object, Refusal, Tuple};
use plain::members;
use snapshots::Snapshot;
use std::alloc::Global;
use std::test::Fail;

const CONFIG: &str =
    r#"{"namespaces":{"group":{"member":{"types":["user","group#member"]}},"user":{}}}"#;

const USERS_ALONE: &str = r#"{"namespaces":{"group":{"member":{"types":["user"]}},"user":{}}}"#;

fn insert(snapshot: &mut Snapshot, tuples: &str) -> Result<(), Refusal> {
    for tuple in tuples.split_ascii_whitespace() {
        snapshot.insert(Tuple::parse(tuple)?)?;
    }
    Ok(())
}

// Adds the configuration and these tuples. Whoever owns the snapshot lends it, so that one function drops it.
fn fill(alloc: Global, snapshot: &mut Snapshot, tuples: &str) -> Result<(), Refusal> {
    snapshot.set_config(Config::from_json(alloc, CONFIG.as_bytes())?);
    insert(snapshot, tuples)
}

fn is_at(objects: &[Object], place: usize, word: &str) -> Result<bool, Refusal> {
    let object = Object::parse(word)?;
    Ok(objects.get(place) == Some(&object))
}

// Whether these are the words' objects, in this order.
fn are_objects(objects: &[Object], words: &str) -> Result<bool, Refusal> {
    for (place, word) in words.split_ascii_whitespace().enumerate() {
        if !is_at(objects, place, word)? {
            return Ok(false);
        }
    }
    Ok(objects.len() == words.split_ascii_whitespace().count())
}

fn are_members(
    alloc: Global,
    snapshot: &Snapshot,
    node: &str,
    wanted: &str,
) -> Result<bool, Refusal> {
    let node = Node::parse(node)?;
    let found = members(alloc, snapshot, &node)?;
    are_objects(&found, wanted)
}

const GROUPS: &str =
    "group:a#member@user:cy group:a#member@user:ann group:a#member@group:b#member group:b#member@user:bob group:b#member@user:ann group:c#member@user:dan";

fn groups_are_listed(alloc: Global, snapshot: &mut Snapshot) -> Result<bool, Refusal> {
    fill(alloc, snapshot, GROUPS)?;
    let first = are_members(
        alloc,
        snapshot,
        "group:a#member",
        "user:ann user:bob user:cy",
    )?;
    Ok(first && are_members(alloc, snapshot, "group:b#member", "user:ann user:bob")?)
}

fn a_cycle_has_none(alloc: Global, snapshot: &mut Snapshot) -> Result<bool, Refusal> {
    fill(alloc, snapshot, "group:a#member@group:a#member")?;
    are_members(alloc, snapshot, "group:a#member", "")
}

fn are_listed(alloc: Global) -> Result<bool, Refusal> {
    let mut snapshot = Snapshot::empty(alloc);
    groups_are_listed(alloc, &mut snapshot)
}

fn is_empty(alloc: Global) -> Result<bool, Refusal> {
    let mut snapshot = Snapshot::empty(alloc);
    a_cycle_has_none(alloc, &mut snapshot)
}

#[test]
fn members_are_listed_once_and_in_order(rt: HostRuntime) -> Result<(), Fail> {
    assert!(rt; are_listed(rt.alloc())? && is_empty(rt.alloc())?);
    Ok(())
}

// The number of the refusal, or 0.
fn number_of(alloc: Global, snapshot: &Snapshot, node: &Node) -> u8 {
    match members(alloc, snapshot, node) {
        Ok(_) => 0,
        Err(why) => why.number(),
    }
}

fn refusal_of(alloc: Global, snapshot: &Snapshot, node: &str) -> Result<u8, Refusal> {
    let node = Node::parse(node)?;
    Ok(number_of(alloc, snapshot, &node))
}

fn have_none(alloc: Global, snapshot: &mut Snapshot) -> Result<bool, Refusal> {
    fill(alloc, snapshot, "group:a#member@user:ann")?;
    for (node, number) in [
        ("group:a#member", 0),
        ("group:a#owner", 2),
        ("user:ann#member", 2),
        ("doc:1#viewer", 2),
    ] {
        if refusal_of(alloc, snapshot, node)? != number {
            return Ok(false);
        }
    }
    Ok(true)
}

fn others_have_none(alloc: Global) -> Result<bool, Refusal> {
    let mut snapshot = Snapshot::empty(alloc);
    have_none(alloc, &mut snapshot)
}

#[test]
fn relations_that_are_not_there_have_no_members(rt: HostRuntime) -> Result<(), Fail> {
    assert!(rt; others_have_none(rt.alloc())?);
    Ok(())
}

fn leaves_bob(alloc: Global, snapshot: &mut Snapshot, ann: &Tuple) -> Result<bool, Refusal> {
    let both = snapshot.len() == 2 && snapshot.contains(ann);
    snapshot.remove(ann);
    let one = snapshot.len() == 1 && !snapshot.contains(ann);
    Ok(both && one && are_members(alloc, snapshot, "group:a#member", "user:bob")?)
}

fn takes_away(alloc: Global, snapshot: &mut Snapshot) -> Result<bool, Refusal> {
    fill(
        alloc,
        snapshot,
        "group:a#member@user:ann group:a#member@user:bob",
    )?;
    let ann = Tuple::parse("group:a#member@user:ann")?;
    leaves_bob(alloc, snapshot, &ann)
}

fn is_taken_away(alloc: Global) -> Result<bool, Refusal> {
    let mut snapshot = Snapshot::empty(alloc);
    takes_away(alloc, &mut snapshot)
}

#[test]
fn a_tuple_is_taken_away(rt: HostRuntime) -> Result<(), Fail> {
    assert!(rt; is_taken_away(rt.alloc())?);
    Ok(())
}

fn is_first(snapshot: &Snapshot, users_alone: &Config) -> Result<bool, Refusal> {
    let first = Tuple::parse("group:a#member@group:b#member")?;
    let none = snapshot.first_not_admitted(snapshot.config()).is_none();
    Ok(none && snapshot.first_not_admitted(users_alone) == Some(&first))
}

fn finds_the_first(alloc: Global, snapshot: &mut Snapshot) -> Result<bool, Refusal> {
    fill(alloc, snapshot, GROUPS)?;
    let users_alone = Config::from_json(alloc, USERS_ALONE.as_bytes())?;
    is_first(snapshot, &users_alone)
}

fn the_first_is_found(alloc: Global) -> Result<bool, Refusal> {
    let mut snapshot = Snapshot::empty(alloc);
    finds_the_first(alloc, &mut snapshot)
}

#[test]
fn the_first_tuple_that_is_not_admitted_is_found(rt: HostRuntime) -> Result<(), Fail> {
    assert!(rt; the_first_is_found(rt.alloc())?);
    Ok(())
}
