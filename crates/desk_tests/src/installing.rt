//! Indexes that are made of a session's copy, and installed at the revision of which they are.
ghost use Rattle.std.specs.Prelude.{◌≡◌};

use crate::changes::{insert_of, number_of, open};
use config::Config;
use desk::{Desk, Posted};
use leopard::{Expr, Input};
use names::{Node, Object, Part, Refusal, State, Tuple};
use published::{MadeIndexes, Naming, Opened, Session};
use std::alloc::Global;
use std::hash::RandomState;
use std::marker::Brand;
use std::process::Abort;
use std::sync::Wait;
use std::test::*;
use std::thread::Threads;
use tables::{Listed, Tables};
use zookie::{Consistency, Zookie};

const NESTED: &str =
    r#"{"namespaces":{"group":{"member":{"indexed":true,"types":["user","group#member"]}},"user":{}}}"#;

fn at(rev: u64) -> Consistency {
    Consistency::Exactly(Zookie { store: 7, rev })
}

// A configuration at revision 1, and a tuple at each revision after it.
fn fill<T: Tables + Drop, J: Naming, H: Wait + Drop>(
    alloc: Global,
    desk: &mut Desk<T, J, H>,
    tuples: &[&str],
) -> Result<Posted, Refusal> {
    let config = Config::from_json(alloc, NESTED.as_bytes())?;
    desk.configure(config)?;
    for tuple in tuples {
        desk.write(insert_of(alloc, tuple)?)?;
    }
    desk.catch_up(Part::Hot, 65_536)?;
    desk.catch_up(Part::Index, 65_536)
}

// Indexes of the revision, made of the session's copy.
fn made<R: Threads, J: Naming>(
    rt: &R,
    alloc: Global,
    session: &mut Session<J>,
    rev: u64,
) -> Option<MadeIndexes<J>> {
    let copied = session.copy_snapshot(&at(rev)).ok()?;
    copied.index(rt, alloc).ok()
}

// Whether this is the one group of the expression at the revision, or there is none.
fn are_groups<J: Naming>(
    session: &mut Session<J>,
    rev: u64,
    expr: Expr,
    wanted: Option<&str>,
) -> bool {
    let Ok(found) = session.groups(at(rev), expr, 9) else {
        return false;
    };
    let found = found.value.as_slice();
    let Some(wanted) = wanted else {
        return found.is_empty();
    };
    match Node::parse(wanted) {
        Ok(node) => found.len() == 1 && found[0] == node,
        Err(_) => false,
    }
}

fn from_a() -> Result<Expr, Refusal> {
    Ok(Expr::Group2Group(Node::parse("group:a#member")?))
}

// The groups to which group a leads, as far as they name ann.
fn of_ann_from_a(alloc: Global) -> Result<Expr, Refusal> {
    let mut parts = Vec::new(alloc);
    parts.push(Expr::Member2Group(Object::parse("user:ann")?))?;
    parts.push(from_a()?)?;
    Ok(Expr::Intersection(parts))
}

fn is_at(state: &State, base: u64, index: u64) -> bool {
    state.base == base && state.index == index
}

// By an index of revision 2, which then took the commit after it, each revision from 2 on is answered; before it the tuples are
// asked.
fn answers<A: Abort, J: Naming>(rt: &A, alloc: Global, session: &mut Session<J>) {
    let state = session.state().expect(rt, "a state");
    assert!(rt; is_at(&state, 2, 3));
    let both = of_ann_from_a(alloc).expect(rt, "an expression");
    assert!(rt; are_groups(session, 3, both, Some("group:b#member")));
    let both = of_ann_from_a(alloc).expect(rt, "an expression");
    assert!(rt; are_groups(session, 2, both, None));
    let from_a = from_a().expect(rt, "an expression");
    assert!(rt; are_groups(session, 1, from_a, Some("group:a#member")));
}

fn installs<A: Abort + Threads, T: Tables + Drop, J: Naming, H: Wait + Drop>(
    rt: &A,
    alloc: Global,
    desk: &mut Desk<T, J, H>,
) {
    let tuples = ["group:a#member@group:b#member", "group:b#member@user:ann"];
    let filled = fill(alloc, desk, &tuples).expect(rt, "a cursor");
    let mut session = desk.session().expect(rt, "a session");
    let made = made(rt, alloc, &mut session, 2).expect(rt, "indexes");
    let installed = desk.install(2, made).expect(rt, "a base");
    assert!(rt; filled.value == 3 && installed.value == 2);
    let mut later = desk.session().expect(rt, "a session");
    answers(rt, alloc, &mut later);
}

fn given(alloc: Global, tuples: &[&str]) -> Result<Input, Refusal> {
    let config = Config::from_json(alloc, NESTED.as_bytes())?;
    let mut parsed = Vec::new(alloc);
    for tuple in tuples {
        parsed.push(Tuple::parse(tuple)?)?;
    }
    Input::of(config, parsed).ok_or(Refusal::Malformed)
}

// The number of what refuses the tuples as those of revision 2, or 0.
fn vouched<A: Abort, J: Naming>(
    rt: &A,
    alloc: Global,
    session: &mut Session<J>,
    tuples: &[&str],
) -> u8 {
    let given = given(alloc, tuples).expect(rt, "an input");
    match session.vouch(alloc, &Zookie { store: 7, rev: 2 }, &given) {
        Ok(_) => 0,
        Err(refused) => refused.why.number(),
    }
}

// A base below the floor is refused with 18, and one above the newest revision with 19; so are tuples that are not those of the
// revision, of which no index is made then.
fn refuses<A: Abort + Threads, T: Tables + Drop, J: Naming, H: Wait + Drop>(
    rt: &A,
    alloc: Global,
    desk: &mut Desk<T, J, H>,
) {
    fill(alloc, desk, &["group:a#member@user:ann"]).expect(rt, "a cursor");
    let mut session = desk.session().expect(rt, "a session");
    let early = made(rt, alloc, &mut session, 1).expect(rt, "indexes");
    let ahead = made(rt, alloc, &mut session, 2).expect(rt, "indexes");
    let fitting = made(rt, alloc, &mut session, 2).expect(rt, "indexes");
    desk.trim(Zookie { store: 7, rev: 2 }).expect(rt, "a floor");
    let others = ["group:a#member@user:ann", "group:b#member@user:ann"];
    assert!(rt; vouched(rt, alloc, &mut session, &others) == 19);
    assert!(rt; vouched(rt, alloc, &mut session, &["group:a#member@user:ann"]) == 0);
    assert!(rt; number_of(desk.install(1, early)) == 18);
    assert!(rt; number_of(desk.install(3, ahead)) == 19);
    assert!(rt; desk.install(2, fitting).expect(rt, "a base").value == 2);
}

fn with_desk<A: Abort + Threads, J: Naming, H: Wait + Drop>(
    rt: &A,
    alloc: Global,
    handle: H,
    opened: Opened,
    has_floor: bool,
)
    requires { opened.book ≡ J.book }
{
    let tables = Listed::new(alloc, 7);
    let mut desk = open::<A, Listed, J, H>(rt, alloc, handle, opened, tables);
    if has_floor {
        refuses(rt, alloc, &mut desk);
    } else {
        installs(rt, alloc, &mut desk);
    }
}

#[test]
fn an_index_is_installed_at_its_revision(rt: HostRuntime) {
    let keys = RandomState::new(&rt).expect(&rt, "a key");
    with_desk::<_, Brand, _>(&rt, rt.alloc(), &rt, Opened::new(keys), false);
}

#[test]
fn an_index_is_installed_where_it_can_be(rt: HostRuntime) {
    let keys = RandomState::new(&rt).expect(&rt, "a key");
    with_desk::<_, Brand, _>(&rt, rt.alloc(), &rt, Opened::new(keys), true);
}
