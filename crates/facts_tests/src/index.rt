//! Questions about groups and their members, answered by the index of each revision as its tuples answer them.

use crate::groups::{add, are_nodes, events_of, fill};
use by_subject::ViewBySubject;
use decide::check_at;
use delta::ViewArcs;
use facts::each_view_is_valid;
use group_index::{At, GroupIndex};
use leopard::{Expr, Input, groups_at};
use names::{Event, Node, Object, Refusal};
use rows::{Rows, View};
use std::alloc::{AllocError, Global};
use std::hash::RandomState;
use std::test::Fail;
use std::thread::Threads;

// A group leads to one that names a user, whom a third one names too.
const TUPLES: &str =
    "group:a#member@group:b#member group:b#member@user:ann group:c#member@user:ann";

// The user leaves the second group, which then leads to the third.
const LEAVES: &str = "-group:b#member@user:ann";

const LEADS: &str = "group:b#member@group:c#member";

// The groups that name the user, among those to which the group leads.
fn both(alloc: Global, user: &str, group: &str) -> Result<Expr, Refusal> {
    let direct = Expr::Member2Group(Object::parse(user)?);
    let closure = Expr::Group2Group(Node::parse(group)?);
    Ok(Expr::Intersection(vec![in alloc; direct, closure]?))
}

// Whether the first so many groups of the expression are these by the index.
fn by_index(at: &At<'_>, expr: &Expr, limit: u32, wanted: &str) -> Result<bool, Refusal> {
    let found = at.first_groups(expr, limit)?;
    are_nodes(&found, wanted)
}

// And by the tuples.
fn by_tuples(
    alloc: Global,
    view: &View<'_>,
    expr: &Expr,
    limit: u32,
    wanted: &str,
) -> Result<bool, Refusal> {
    let found = groups_at(alloc, &ViewBySubject::of(view, None), expr, limit)?;
    are_nodes(&found, wanted)
}

fn give(
    alloc: Global,
    at: &At<'_>,
    view: &View<'_>,
    expr: &Expr,
    limit: u32,
    wanted: &str,
) -> Result<bool, Refusal> {
    Ok(by_index(at, expr, limit, wanted)? && by_tuples(alloc, view, expr, limit, wanted)?)
}

// Whether the groups are these, by the index and by the tuples, and none where none are asked for.
fn gives(alloc: Global, at: &At<'_>, view: &View<'_>, wanted: &str) -> Result<bool, Refusal> {
    let expr = both(alloc, "user:ann", "group:a#member")?;
    let found = give(alloc, at, view, &expr, 9, wanted)?;
    Ok(found && give(alloc, at, view, &expr, 0, "")?)
}

// Whether ann is a member of the node, as far as the index knows.
fn has(at: &At<'_>, node: &str) -> Result<Option<bool>, Refusal> {
    let node = Node::parse(node)?;
    let user = Object::parse("user:ann")?;
    Ok(at.has(&node, &user))
}

// Whether ann is a member of the first group, as is said, and of the third: of the first something is kept by the
// index, and of the other nothing is. Of an owner nothing is known.
fn is_member(at: &At<'_>, of_first: bool) -> Result<bool, Refusal> {
    let first = has(at, "group:a#member")? == Some(of_first);
    let other = has(at, "group:c#member")? == Some(true);
    Ok(first && other && has(at, "doc:d#owner")? == None)
}

// The view of a revision, where there is one.
fn view_at(rows: &Rows, rev: u64) -> Option<View<'_>> {
    if rows.floor() <= rev && rev <= rows.newest() {
        Some(rows.at(rev))
    } else {
        None
    }
}

fn tells(
    alloc: Global,
    index: &GroupIndex,
    rows: &Rows,
    rev: u64,
    wanted: &str,
    member: bool,
) -> Result<bool, Refusal> {
    let Some(view) = view_at(rows, rev) else {
        return Ok(false);
    };
    let Some(at) = index.at(alloc, rev) else {
        return Ok(false);
    };
    Ok(gives(alloc, &at, &view, wanted)? && is_member(&at, member)?)
}

fn tells_each(alloc: Global, index: &GroupIndex, rows: &Rows) -> Result<bool, Refusal> {
    for (rev, wanted, member) in [
        (2, "group:b#member", true),
        (3, "", false),
        (4, "group:c#member", true),
    ] {
        if !tells(alloc, index, rows, rev, wanted, member)? {
            return Ok(false);
        }
    }
    Ok(true)
}

// A raised index tells of no revision below.
fn is_raised(alloc: Global, index: &mut GroupIndex, rows: &Rows) -> Result<bool, Refusal> {
    if index.cursor() < 3 {
        return Ok(false);
    }
    index.raise(3);
    Ok(index.at(alloc, 2).is_none() && tells(alloc, index, rows, 3, "", false)?)
}

fn is_told(alloc: Global, index: &mut GroupIndex, rows: &Rows) -> Result<bool, Refusal> {
    Ok(tells_each(alloc, index, rows)? && is_raised(alloc, index, rows)?)
}

// The index after the commit that gave a revision.
fn take(
    alloc: Global,
    rows: &Rows,
    index: GroupIndex,
    events: &[Event],
    rev: u64,
) -> Result<GroupIndex, AllocError> {
    match view_at(rows, rev) {
        Some(view) if index.cursor() < u64::MAX => {
            let mut arcs = ViewArcs::of(alloc, &view);
            index.take(alloc, events, &mut arcs)
        }
        _ => Err(AllocError),
    }
}

fn restart(
    alloc: Global,
    keys: RandomState,
    rows: &Rows,
    rev: u64,
) -> Result<GroupIndex, AllocError> {
    match view_at(rows, rev) {
        Some(view) => GroupIndex::restart(alloc, keys, &view, rev),
        None => Err(AllocError),
    }
}

// The index of the first tuples, after the two commits that came then.
fn followed(
    alloc: Global,
    rows: &Rows,
    first: GroupIndex,
    leaves: &[Event],
    leads: &[Event],
) -> Result<GroupIndex, AllocError> {
    let second = take(alloc, rows, first, leaves, 3)?;
    take(alloc, rows, second, leads, 4)
}

fn follows(alloc: Global, rows: &Rows, first: GroupIndex) -> Result<bool, Refusal> {
    let leaves = events_of(alloc, LEAVES)?;
    let leads = events_of(alloc, LEADS)?;
    let mut index = followed(alloc, rows, first, leaves.as_slice(), leads.as_slice())?;
    is_told(alloc, &mut index, rows)
}

fn fill_all(alloc: Global, rows: &mut Rows) -> Result<(), Refusal> {
    fill(alloc, rows, TUPLES)?;
    add(alloc, rows, LEAVES)?;
    add(alloc, rows, LEADS)
}

fn has_an_index(alloc: Global, keys: RandomState, rows: &mut Rows) -> Result<bool, Refusal> {
    fill_all(alloc, rows)?;
    let first = restart(alloc, keys, rows, 2)?;
    follows(alloc, rows, first)
}

fn each_revision_is_told(alloc: Global, keys: RandomState) -> Result<bool, Refusal> {
    let mut rows = Rows::empty(alloc);
    has_an_index(alloc, keys, &mut rows)
}

#[test]
fn an_index_answers_at_each_revision(rt: HostRuntime) -> Result<(), Fail> {
    let keys = RandomState::new(&rt)?;
    assert!(rt; each_revision_is_told(rt.alloc(), keys)?);
    Ok(())
}

// What a revision holds, copied.
fn copied(alloc: Global, rows: &Rows, rev: u64) -> Result<Input, AllocError> {
    match view_at(rows, rev) {
        Some(view) => Input::copy(alloc, &view),
        None => Err(AllocError),
    }
}

// Whether the indexes of the first tuples, copied, answer as the one of their view, by one thread and by two.
fn follow_a_copy(
    rt: &(impl Threads + Sync),
    alloc: Global,
    keys: RandomState,
    rows: &Rows,
) -> Result<bool, Refusal> {
    let input = copied(alloc, rows, 2)?;
    let first = GroupIndex::of(alloc, keys, &input, 2)?;
    let by_one = follows(alloc, rows, first)?;
    let first = GroupIndex::of_parallel(rt, alloc, keys, &input, 2)?;
    Ok(by_one && follows(alloc, rows, first)?)
}

fn has_copied_indexes(
    rt: &(impl Threads + Sync),
    alloc: Global,
    keys: RandomState,
    rows: &mut Rows,
) -> Result<bool, Refusal> {
    fill_all(alloc, rows)?;
    follow_a_copy(rt, alloc, keys, rows)
}

fn copies_are_told(
    rt: &(impl Threads + Sync),
    alloc: Global,
    keys: RandomState,
) -> Result<bool, Refusal> {
    let mut rows = Rows::empty(alloc);
    has_copied_indexes(rt, alloc, keys, &mut rows)
}

#[test]
fn an_index_of_a_copy_answers_as_that_of_the_view(rt: HostRuntime) -> Result<(), Fail> {
    let keys = RandomState::new(&rt)?;
    assert!(rt; copies_are_told(&rt, rt.alloc(), keys)?);
    Ok(())
}

fn is_asked(
    alloc: Global,
    keys: RandomState,
    rows: &Rows,
    group: &Node,
    user: &Object,
) -> Result<bool, Refusal> {
    let view = rows.at(rows.newest());
    each_view_is_valid(&view);
    let mut index = GroupIndex::restart(alloc, keys, &view, 2)?;
    index.rebase(alloc, &view, 2)?;
    match index.at(alloc, 2) {
        Some(mut at) => check_at(alloc, keys, &view, &mut at, group, user),
        None => Ok(false),
    }
}

fn asks_the_index(alloc: Global, keys: RandomState, rows: &mut Rows) -> Result<bool, Refusal> {
    fill(alloc, rows, TUPLES)?;
    let group = Node::parse("group:a#member")?;
    let user = Object::parse("user:ann")?;
    is_asked(alloc, keys, rows, &group, &user)
}

fn a_check_is_told(alloc: Global, keys: RandomState) -> Result<bool, Refusal> {
    let mut rows = Rows::empty(alloc);
    asks_the_index(alloc, keys, &mut rows)
}

#[test]
fn a_check_asks_the_index(rt: HostRuntime) -> Result<(), Fail> {
    let keys = RandomState::new(&rt)?;
    assert!(rt; a_check_is_told(rt.alloc(), keys)?);
    Ok(())
}
