//! The index of a random history, built by so many workers.
ghost use Rattle.std.specs.Prelude.{◌≤◌};

use crate::histories::fill;
use leopard::{Built, Expr, Input};
use names::{Node, Object, Refusal};
use rows::Rows;
use std::alloc::{AllocError, Global};
use std::test::Fail;
use std::thread::Threads;

const CONFIG: &str = r#"{"namespaces":{"user":{},
"group":{"member":{"types":["user","group#member"],"indexed":true}}}}"#;

/// How many groups there may be, and as many users.
const NAMES: u64 = 16;

// The number after another, in no order that shows: each below 512 comes before one comes again.
fn next_of(number: u64) -> u64 {
    number.wrapping_mul(141).wrapping_add(77) % 512
}

// A tuple by which a group has a user or another group.
fn word_of(alloc: Global, number: u64) -> Result<String, AllocError> {
    let group = number % NAMES;
    let named = number / NAMES % NAMES;
    if number / (NAMES * NAMES) % 2 == 0 {
        format!(in alloc; "group:{group}#member@user:{named} ")
    } else {
        format!(in alloc; "group:{group}#member@group:{named}#member ")
    }
}

fn drawn(alloc: Global, count: u32) -> Result<String, AllocError> {
    let mut line = String::new(alloc);
    let mut number = 1;
    for _ in 0..count {
        number = next_of(number);
        let word = word_of(alloc, number)?;
        line.push_str(word.as_str())?;
    }
    Ok(line)
}

fn give_the_same(alloc: Global, one: &Built, other: &Built, expr: &Expr) -> Result<bool, Refusal> {
    let first = one.groups(alloc, expr, 99)?;
    let second = other.groups(alloc, expr, 99)?;
    Ok(first.as_slice() == second.as_slice())
}

fn agree_on(alloc: Global, one: &Built, other: &Built, id: u64) -> Result<bool, Refusal> {
    let user = format!(in alloc; "user:{id}")?;
    let group = format!(in alloc; "group:{id}#member")?;
    let direct = Expr::Member2Group(Object::parse(user.as_str())?);
    let closure = Expr::Group2Group(Node::parse(group.as_str())?);
    Ok(give_the_same(alloc, one, other, &direct)? && give_the_same(alloc, one, other, &closure)?)
}

fn agree(alloc: Global, one: &Built, other: &Built) -> Result<bool, Refusal> {
    for id in 0..NAMES {
        if !agree_on(alloc, one, other, id)? {
            return Ok(false);
        }
    }
    Ok(true)
}

/// Whether so many workers give the same index.
fn agrees(
    rt: &(impl Threads + Sync),
    alloc: Global,
    rows: &Rows,
    one: &Built,
    workers: u32,
) -> Result<bool, Refusal>
    requires some { 1 ≤ workers }
    requires few { workers ≤ 64 }
{
    let input = Input::copy(alloc, &rows.at(rows.newest()))?;
    let other = Built::of_parallel(rt, alloc, input, rows.newest(), workers)?;
    agree(alloc, one, &other)
}

fn all_agree(rt: &(impl Threads + Sync), alloc: Global, rows: &mut Rows) -> Result<bool, Refusal> {
    let line = drawn(alloc, 60)?;
    fill(alloc, rows, &[CONFIG, line.as_str()])?;
    let input = Input::copy(alloc, &rows.at(rows.newest()))?;
    let one = Built::of(alloc, input, rows.newest())?;
    let few = agrees(rt, alloc, rows, &one, 1)? && agrees(rt, alloc, rows, &one, 2)?;
    let more = agrees(rt, alloc, rows, &one, 3)? && agrees(rt, alloc, rows, &one, 7)?;
    Ok(few && more && agrees(rt, alloc, rows, &one, 64)?)
}

fn builds_agree(rt: &(impl Threads + Sync), alloc: Global) -> Result<bool, Refusal> {
    let mut rows = Rows::empty(alloc);
    all_agree(rt, alloc, &mut rows)
}

#[test]
fn any_number_of_workers_builds_the_same_index(rt: HostRuntime) -> Result<(), Fail> {
    let alloc = rt.alloc();
    assert!(rt; builds_agree(&rt, alloc)?);
    Ok(())
}
