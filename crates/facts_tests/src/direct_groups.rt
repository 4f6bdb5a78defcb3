//! Which groups name a user, before commits and after them, and from a new base on.

use crate::groups::{are_nodes, events_of, fill};
use direct::Direct;
use leopard::Input;
use names::{Event, Object, Refusal};
use rows::{Rows, View};
use std::alloc::{AllocError, Global};
use std::hash::RandomState;
use std::test::Fail;

// A userset is no user, and an owner is in no group.
const TUPLES: &str = "doc:d#owner@user:ann group:a#member@user:ann group:b#member@group:a#member";

// Ann moves from one group to another, where Zoe comes too.
const MOVES: &str = "-group:a#member@user:ann group:c#member@user:ann group:c#member@user:zoe \
    group:c#member@group:b#member";

// Whether these are the groups that name the user, in any order.
fn are_groups(
    alloc: Global,
    direct: &Direct,
    user: &str,
    rev: u64,
    groups: &str,
) -> Result<bool, Refusal> {
    let user = Object::parse(user)?;
    let found = direct.groups_at(alloc, &user, rev)?;
    are_nodes(&found, groups)
}

fn takes(alloc: Global, direct: &mut Direct, events: &[Event]) -> Result<(), AllocError> {
    if direct.cursor() < u64::MAX {
        direct.take(alloc, events)
    } else {
        Err(AllocError)
    }
}

fn take(alloc: Global, direct: &mut Direct, words: &str) -> Result<(), Refusal> {
    let events = events_of(alloc, words)?;
    Ok(takes(alloc, direct, events.as_slice())?)
}

// Ann moves, and then comes back.
fn follow(alloc: Global, direct: &mut Direct) -> Result<(), Refusal> {
    take(alloc, direct, MOVES)?;
    take(alloc, direct, "group:a#member@user:ann")
}

fn tells_each_revision(alloc: Global, direct: &Direct) -> Result<bool, Refusal> {
    for (user, rev, groups) in [
        ("user:ann", 2, "group:a#member"),
        ("user:zoe", 2, ""),
        ("user:ann", 3, "group:c#member"),
        ("user:zoe", 3, "group:c#member"),
        ("user:ann", 4, "group:a#member group:c#member"),
    ] {
        if !are_groups(alloc, direct, user, rev, groups)? {
            return Ok(false);
        }
    }
    Ok(direct.base() == 2 && direct.cursor() == 4)
}

// What was noted later than a new base is kept.
fn begins_later(alloc: Global, rows: &Rows, direct: &mut Direct) -> Result<bool, Refusal> {
    direct.rebase(alloc, &rows.at(rows.newest()), 3)?;
    let kept = are_groups(alloc, direct, "user:ann", 3, "group:c#member")?;
    Ok(kept && direct.base() == 3 && direct.cursor() == 4)
}

// Above the cursor nothing is kept.
fn begins_anew(alloc: Global, rows: &Rows, direct: &mut Direct) -> Result<bool, Refusal> {
    direct.rebase(alloc, &rows.at(rows.newest()), 9)?;
    let anew = are_groups(alloc, direct, "user:ann", 9, "group:a#member")?;
    Ok(anew && direct.base() == 9 && direct.cursor() == 9)
}

fn keeps_groups(alloc: Global, rows: &Rows, direct: &mut Direct) -> Result<bool, Refusal> {
    follow(alloc, direct)?;
    let told = tells_each_revision(alloc, direct)?;
    let later = told && begins_later(alloc, rows, direct)?;
    Ok(later && begins_anew(alloc, rows, direct)?)
}

fn has_direct_groups(alloc: Global, keys: RandomState, rows: &mut Rows) -> Result<bool, Refusal> {
    fill(alloc, rows, TUPLES)?;
    let mut direct = Direct::restart(alloc, keys, &rows.at(rows.newest()), 2)?;
    keeps_groups(alloc, rows, &mut direct)
}

fn direct_groups_are_kept(alloc: Global, keys: RandomState) -> Result<bool, Refusal> {
    let mut rows = Rows::empty(alloc);
    has_direct_groups(alloc, keys, &mut rows)
}

#[test]
fn direct_groups_are_told_at_each_revision(rt: HostRuntime) -> Result<(), Fail> {
    let keys = RandomState::new(&rt)?;
    assert!(rt; direct_groups_are_kept(rt.alloc(), keys)?);
    Ok(())
}

// The direct groups of what the view holds, copied.
fn copied(alloc: Global, keys: RandomState, view: &View<'_>) -> Result<Direct, AllocError> {
    let input = Input::copy(alloc, view)?;
    Direct::of(alloc, keys, &input, 2)
}

fn has_copied_groups(alloc: Global, keys: RandomState, rows: &mut Rows) -> Result<bool, Refusal> {
    fill(alloc, rows, TUPLES)?;
    let mut direct = copied(alloc, keys, &rows.at(rows.newest()))?;
    keeps_groups(alloc, rows, &mut direct)
}

fn copied_groups_are_kept(alloc: Global, keys: RandomState) -> Result<bool, Refusal> {
    let mut rows = Rows::empty(alloc);
    has_copied_groups(alloc, keys, &mut rows)
}

#[test]
fn direct_groups_of_a_copy_are_told_as_those_of_the_view(rt: HostRuntime) -> Result<(), Fail> {
    let keys = RandomState::new(&rt)?;
    assert!(rt; copied_groups_are_kept(rt.alloc(), keys)?);
    Ok(())
}
