//! Questions about groups, answered by an index and from the tuples.

use crate::histories::fill;
use by_subject::ViewBySubject;
use idsets::{IdSet, Ids};
use leopard::{
    Built, Expr, Found, Input, answers_are_one, first_named, found_of, groups_at,
    indexes_mean_what_their_snapshots_do, there_is_one_build,
};
use names::{Node, Object, Refusal};
use rows::{Rows, View};
use std::alloc::{AllocError, Global};
use std::hash::RandomState;
use std::test::Fail;

// Groups, and a relation that is not indexed.
const CONFIG: &str = r#"{"namespaces":{"user":{},"doc":{"owner":{"types":["user"]}},
"group":{"member":{"types":["user","group#member"],"indexed":true}}}}"#;

const CHAIN: &str = "group:a#member@group:b#member group:b#member@user:ann group:c#member@user:ann";

// Groups whose guests are their members.
const GUESTS: &str = r#"{"namespaces":{"user":{},
"group":{"member":{"types":["user","group#member"],"indexed":true},
"guest":{"types":[],"rewrite":{"computed":"member"},"indexed":true}}}}"#;

const CYCLE: &str =
    "group:a#member@group:b#member group:b#member@group:a#member group:b#member@user:ann";

fn groups_of(user: &str) -> Result<Expr, Refusal> {
    Ok(Expr::Member2Group(Object::parse(user)?))
}

fn led_from(group: &str) -> Result<Expr, Refusal> {
    Ok(Expr::Group2Group(Node::parse(group)?))
}

fn both(alloc: Global) -> Result<Vec<Expr>, Refusal> {
    let direct = groups_of("user:ann")?;
    let closure = led_from("group:a#member")?;
    Ok(vec![in alloc; direct, closure]?)
}

fn is_at(nodes: &[Node], place: usize, word: &str) -> Result<bool, Refusal> {
    let node = Node::parse(word)?;
    Ok(nodes.get(place) == Some(&node))
}

// Whether these are the words' nodes, in this order.
fn are_nodes(nodes: &[Node], words: &str) -> Result<bool, Refusal> {
    for (place, word) in words.split_ascii_whitespace().enumerate() {
        if !is_at(nodes, place, word)? {
            return Ok(false);
        }
    }
    Ok(nodes.len() == words.split_ascii_whitespace().count())
}

fn by_index(
    alloc: Global,
    built: &Built,
    expr: &Expr,
    limit: u32,
    wanted: &str,
) -> Result<bool, Refusal> {
    let found = built.groups(alloc, expr, limit)?;
    are_nodes(&found, wanted)
}

fn by_tuples(
    alloc: Global,
    rows: &Rows,
    expr: &Expr,
    limit: u32,
    wanted: &str,
) -> Result<bool, Refusal> {
    let view = rows.at(rows.newest());
    let found = groups_at(alloc, &ViewBySubject::of(&view, None), expr, limit)?;
    are_nodes(&found, wanted)
}

/// A history and its index.
#[derive(Clone, Copy)]
struct Asked<'a> {
    rows: &'a Rows,
    built: &'a Built,
}

/// Whether the index and the tuples give these.
fn give(
    alloc: Global,
    asked: &Asked<'_>,
    expr: &Expr,
    limit: u32,
    wanted: &str,
) -> Result<bool, Refusal> {
    Ok(
        by_index(alloc, asked.built, expr, limit, wanted)?
            && by_tuples(alloc, asked.rows, expr, limit, wanted)?,
    )
}

fn are_met(alloc: Global, asked: &Asked<'_>) -> Result<bool, Refusal> {
    let met = Expr::Intersection(both(alloc)?);
    let none = give(alloc, asked, &met, 0, "")?;
    Ok(none && give(alloc, asked, &met, 1, "group:b#member")?)
}

fn are_united(alloc: Global, asked: &Asked<'_>) -> Result<bool, Refusal> {
    let united = Expr::Union(both(alloc)?);
    give(alloc, asked, &united, 2, "group:a#member group:b#member")
}

fn without(alloc: Global, base: Expr, less: Expr) -> Result<Expr, AllocError> {
    let base = Box::new(alloc, base)?;
    let less = Box::new(alloc, less)?;
    Ok(Expr::Exclusion(base, less))
}

fn are_lessened(alloc: Global, asked: &Asked<'_>) -> Result<bool, Refusal> {
    let base = groups_of("user:ann")?;
    let less = led_from("group:a#member")?;
    let left = without(alloc, base, less)?;
    give(alloc, asked, &left, 2, "group:c#member")
}

fn are_answered(alloc: Global, asked: &Asked<'_>) -> Result<bool, Refusal> {
    let met = are_met(alloc, asked)?;
    let united = are_united(alloc, asked)?;
    Ok(met && united && are_lessened(alloc, asked)?)
}

fn chains_have_an_index(alloc: Global, rows: &mut Rows) -> Result<bool, Refusal> {
    fill(alloc, rows, &[CONFIG, CHAIN])?;
    let input = Input::copy(alloc, &rows.at(rows.newest()))?;
    let built = Built::of(alloc, input, rows.newest())?;
    are_answered(
        alloc,
        &Asked {
            rows,
            built: &built,
        },
    )
}

fn chains_are_answered(alloc: Global) -> Result<bool, Refusal> {
    let mut rows = Rows::empty(alloc);
    chains_have_an_index(alloc, &mut rows)
}

#[test]
fn an_index_answers_as_the_tuples_do(rt: HostRuntime) -> Result<(), Fail> {
    answers_are_one();
    there_is_one_build();
    indexes_mean_what_their_snapshots_do();
    assert!(rt; chains_are_answered(rt.alloc())?);
    Ok(())
}

fn are_led_to(
    alloc: Global,
    asked: &Asked<'_>,
    group: &str,
    wanted: &str,
) -> Result<bool, Refusal> {
    let led = led_from(group)?;
    give(alloc, asked, &led, 9, wanted)
}

fn nobody_is_named(alloc: Global, asked: &Asked<'_>) -> Result<bool, Refusal> {
    let nobody = groups_of("user:bob")?;
    give(alloc, asked, &nobody, 9, "")
}

// A cycle ends, and what no tuple names leads to its computed usersets.
fn cycles_end(alloc: Global, asked: &Asked<'_>) -> Result<bool, Refusal> {
    let cycle = "group:a#member group:b#guest group:b#member";
    let ends = are_led_to(alloc, asked, "group:b#guest", cycle)?;
    let leads = are_led_to(
        alloc,
        asked,
        "group:z#guest",
        "group:z#guest group:z#member",
    )?;
    Ok(ends && leads && nobody_is_named(alloc, asked)?)
}

fn cycles_have_an_index(alloc: Global, rows: &mut Rows) -> Result<bool, Refusal> {
    fill(alloc, rows, &[GUESTS, CYCLE])?;
    let input = Input::copy(alloc, &rows.at(rows.newest()))?;
    let built = Built::of(alloc, input, rows.newest())?;
    cycles_end(
        alloc,
        &Asked {
            rows,
            built: &built,
        },
    )
}

fn cycles_and_strangers_are_answered(alloc: Global) -> Result<bool, Refusal> {
    let mut rows = Rows::empty(alloc);
    cycles_have_an_index(alloc, &mut rows)
}

#[test]
fn an_index_has_cycles_and_what_no_tuple_names(rt: HostRuntime) -> Result<(), Fail> {
    assert!(rt; cycles_and_strangers_are_answered(rt.alloc())?);
    Ok(())
}

/// The number of the index's refusal, or 0.
fn refusal_of(alloc: Global, built: &Built, expr: &Expr) -> u8 {
    match built.groups(alloc, expr, 9) {
        Ok(_) => 0,
        Err(why) => why.number(),
    }
}

fn causes_come_in_order(alloc: Global, built: &Built) -> Result<bool, Refusal> {
    let unindexed = led_from("doc:1#owner")?;
    let unknown = led_from("doc:1#none")?;
    let each = refusal_of(alloc, built, &unindexed) == 16
        && refusal_of(alloc, built, &unknown) == 2;
    let all = Expr::Union(vec![in alloc; unindexed, unknown]?);
    Ok(each && refusal_of(alloc, built, &all) == 2)
}

fn refuses(alloc: Global, rows: &mut Rows) -> Result<bool, Refusal> {
    fill(alloc, rows, &[CONFIG, CHAIN])?;
    let input = Input::copy(alloc, &rows.at(rows.newest()))?;
    let built = Built::of(alloc, input, rows.newest())?;
    Ok(causes_come_in_order(alloc, &built)? && built.rev() == rows.newest())
}

fn an_index_refuses(alloc: Global) -> Result<bool, Refusal> {
    let mut rows = Rows::empty(alloc);
    refuses(alloc, &mut rows)
}

#[test]
fn an_index_refuses_as_the_tuples_do(rt: HostRuntime) -> Result<(), Fail> {
    assert!(rt; an_index_refuses(rt.alloc())?);
    Ok(())
}

// What the tuples give without numbers, beside the first group, which has one.
fn found(alloc: Global, view: &View<'_>, id: u64) -> Result<Found, Refusal> {
    let expr = Expr::Member2Group(Object::parse("user:ann")?);
    let ids = IdSet::of(vec![in alloc; id]?);
    let Found { others, .. } = found_of(alloc, &ViewBySubject::of(view, None), &expr)?;
    Ok(Found { ids, others })
}

/// Whether a group that has an id and groups that have none are given in the order of nodes.
fn are_named(alloc: Global, rows: &Rows, names: &mut Ids<Node>) -> Result<bool, Refusal> {
    let id = names.see(Node::parse("group:a#member")?)?;
    let found = found(alloc, &rows.at(rows.newest()), id)?;
    let nodes = first_named(alloc, names, found, 2)?;
    are_nodes(&nodes, "group:a#member group:b#member")
}

fn names_ids(alloc: Global, keys: RandomState, rows: &mut Rows) -> Result<bool, Refusal> {
    fill(alloc, rows, &[CONFIG, CHAIN])?;
    let mut names = Ids::new(alloc, keys);
    are_named(alloc, rows, &mut names)
}

fn ids_are_named(alloc: Global, keys: RandomState) -> Result<bool, Refusal> {
    let mut rows = Rows::empty(alloc);
    names_ids(alloc, keys, &mut rows)
}

#[test]
fn groups_with_and_without_ids_are_named(rt: HostRuntime) -> Result<(), Fail> {
    let keys = RandomState::new(&rt)?;
    assert!(rt; ids_are_named(rt.alloc(), keys)?);
    Ok(())
}
