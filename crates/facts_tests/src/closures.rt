//! To which groups a group leads, before commits and after them, and from a new base on, and who is asked in a commit.

use crate::groups::{add, are_nodes, events_of, fill};
use delta::{Layer, ViewArcs};
use leopard::Input;
use names::{Event, Node, Refusal};
use rows::{Rows, View};
use std::alloc::{AllocError, Global};
use std::hash::RandomState;
use std::test::Fail;

// A chain of three groups, with a user at its end.
const CHAIN: &str =
    "group:a#member@group:b#member group:b#member@group:c#member group:c#member@user:ann";

const ALL: &str = "group:a#member group:b#member group:c#member";

const FIRST_TWO: &str = "group:a#member group:b#member";

// Whether the group leads to these, in any order.
fn leads_to(
    alloc: Global,
    layer: &Layer,
    group: &str,
    rev: u64,
    groups: &str,
) -> Result<bool, Refusal> {
    let group = Node::parse(group)?;
    let found = layer.closure_at(alloc, &group, rev)?;
    are_nodes(&found, groups)
}

// Whether it takes the events by asking for these groups and no others.
fn takes(
    alloc: Global,
    rows: &Rows,
    layer: &mut Layer,
    events: &[Event],
    asked: &str,
) -> Result<bool, Refusal> {
    if layer.cursor() < u64::MAX {
        let view = rows.at(rows.newest());
        let mut arcs = ViewArcs::of(alloc, &view);
        layer.take(alloc, events, &mut arcs)?;
        return are_nodes(arcs.asked(), asked);
    }
    Err(Refusal::Malformed)
}

// The history and the layer take a commit of these words.
fn take(
    alloc: Global,
    rows: &mut Rows,
    layer: &mut Layer,
    words: &str,
    asked: &str,
) -> Result<bool, Refusal> {
    add(alloc, rows, words)?;
    let events = events_of(alloc, words)?;
    takes(alloc, rows, layer, events.as_slice(), asked)
}

// The chain is cut in its middle, and then its end is put before its beginning. Of the groups that lead there none but the
// one with the event is asked for.
fn follow(alloc: Global, rows: &mut Rows, layer: &mut Layer) -> Result<bool, Refusal> {
    let (cut, put) = (
        "-group:b#member@group:c#member",
        "group:c#member@group:a#member",
    );
    let first = take(alloc, rows, layer, cut, "group:b#member")?;
    let second = take(alloc, rows, layer, put, "group:c#member")?;
    Ok(first && second)
}

fn tells_each_revision(alloc: Global, layer: &Layer) -> Result<bool, Refusal> {
    for (group, rev, groups) in [
        ("group:a#member", 2, ALL),
        ("group:c#member", 2, "group:c#member"),
        ("group:a#member", 3, FIRST_TWO),
        ("group:c#member", 4, ALL),
    ] {
        if !leads_to(alloc, layer, group, rev, groups)? {
            return Ok(false);
        }
    }
    Ok(layer.base() == 2 && layer.cursor() == 4)
}

// What was noted later than a new base is kept.
fn begins_later(alloc: Global, rows: &Rows, layer: &mut Layer) -> Result<bool, Refusal> {
    layer.rebase(alloc, &rows.at(rows.newest()), 3)?;
    let kept = leads_to(alloc, layer, "group:a#member", 3, FIRST_TWO)?;
    Ok(kept && layer.base() == 3 && layer.cursor() == 4)
}

fn keeps_closures(alloc: Global, rows: &mut Rows, layer: &mut Layer) -> Result<bool, Refusal> {
    let asked = follow(alloc, rows, layer)?;
    Ok(asked && tells_each_revision(alloc, layer)? && begins_later(alloc, rows, layer)?)
}

fn has_a_layer(alloc: Global, keys: RandomState, rows: &mut Rows) -> Result<bool, Refusal> {
    fill(alloc, rows, CHAIN)?;
    let mut layer = Layer::restart(alloc, keys, &rows.at(rows.newest()), 2)?;
    keeps_closures(alloc, rows, &mut layer)
}

fn closures_are_kept(alloc: Global, keys: RandomState) -> Result<bool, Refusal> {
    let mut rows = Rows::empty(alloc);
    has_a_layer(alloc, keys, &mut rows)
}

#[test]
fn closures_are_told_at_each_revision(rt: HostRuntime) -> Result<(), Fail> {
    let keys = RandomState::new(&rt)?;
    assert!(rt; closures_are_kept(rt.alloc(), keys)?);
    Ok(())
}

// The layer of what the view holds, copied.
fn copied(alloc: Global, keys: RandomState, view: &View<'_>) -> Result<Layer, AllocError> {
    let input = Input::copy(alloc, view)?;
    Layer::of(alloc, keys, &input, 2)
}

fn has_a_copied_layer(alloc: Global, keys: RandomState, rows: &mut Rows) -> Result<bool, Refusal> {
    fill(alloc, rows, CHAIN)?;
    let mut layer = copied(alloc, keys, &rows.at(rows.newest()))?;
    keeps_closures(alloc, rows, &mut layer)
}

fn copied_closures_are_kept(alloc: Global, keys: RandomState) -> Result<bool, Refusal> {
    let mut rows = Rows::empty(alloc);
    has_a_copied_layer(alloc, keys, &mut rows)
}

#[test]
fn closures_of_a_copy_are_told_as_those_of_the_view(rt: HostRuntime) -> Result<(), Fail> {
    let keys = RandomState::new(&rt)?;
    assert!(rt; copied_closures_are_kept(rt.alloc(), keys)?);
    Ok(())
}
