//! The stored script of the program, and what else its lines can ask.
ghost use Rattle.std.specs.Prelude.{◌≡◌};
ghost use Rattle.desk.specs.Posts.{Posts};

use crate::lent;
use crate::workers::keeper_of;
use answers::Answers;
use keeper::{Front, Keeper, KeeperName, Opening};
use names::{Call, Reply};
use published::{Naming, Opened};
use std::alloc::{AllocError, Global};
use std::hash::RandomState;
use std::marker::Brand;
use std::process::Abort;
use std::sync::Wait;
use std::test::*;
use std::thread::Threads;
use tables::{Listed, Tables};

// The calls of the stored script, and calls that are refused.
const CALLS: [(Call, &str); 39] = [
    (
        Call::Config,
        r#"{"namespaces":{"group":{"member":{"types":["user","group#member"]}},"user":{}}}"#,
    ),
    (
        Call::Write,
        r#"{"ops":[{"op":"insert","tuple":"group:a#member@group:b#member"},{"op":"insert","tuple":"group:b#member@group:a#member"},{"op":"insert","tuple":"group:b#member@user:ann"}]}"#,
    ),
    (
        Call::Check,
        r#"{"node":"group:a#member","user":"user:ann"}"#,
    ),
    (
        Call::Write,
        r#"{"ops":[{"op":"delete","tuple":"group:b#member@user:ann"}]}"#,
    ),
    (
        Call::Check,
        r#"{"node":"group:a#member","user":"user:ann"}"#,
    ),
    (Call::State, ""),
    (
        Call::Write,
        r#"{"ops":[{"op":"delete","tuple":"group:b#member@user:ann"}]}"#,
    ),
    (Call::Write, r#"{"ops":[]}"#),
    (Call::Config, "{}"),
    (Call::CatchUp, r#"{"part":"index","commits":2}"#),
    (Call::CatchUp, r#"{"part":"index","commits":65537}"#),
    (
        Call::Check,
        r#"{"at":{"exactly":"AgAAAAAAAAABAAAAAAAAAAI"},"node":"group:a#member","user":"user:ann"}"#,
    ),
    (
        Call::Check,
        r#"{"at":{"at_least":"AgAAAAAAAAABAAAAAAAAAAk"},"node":"group:a#member","user":"user:ann"}"#,
    ),
    (Call::Expand, r#"{"depth":3,"node":"group:a#member"}"#),
    (Call::Expand, r#"{"depth":9,"node":"group:a#member"}"#),
    (
        Call::Expand,
        r#"{"at":{"at_least":"AgAAAAAAAAABAAAAAAAAAAk"},"depth":1,"node":"group:a#member"}"#,
    ),
    (Call::Read, "{}"),
    (
        Call::Read,
        r#"{"limit":2,"namespace":"group","object":"b"}"#,
    ),
    (
        Call::Read,
        r#"{"at":{"exactly":"AgAAAAAAAAABAAAAAAAAAAk"},"namespace":"group"}"#,
    ),
    (Call::Lookup, "{}"),
    (
        Call::Lookup,
        r#"{"limit":1,"namespace":"group","relation":"member","user":"user:ann"}"#,
    ),
    (Call::Watch, "{}"),
    (
        Call::Watch,
        r#"{"commits":256,"cursor":"AgAAAAAAAAABAAAAAAAAAAA"}"#,
    ),
    (
        Call::Watch,
        r#"{"commits":1,"cursor":"AgAAAAAAAAABAAAAAAAAAAk","namespaces":["group"]}"#,
    ),
    (Call::Leopard, "{}"),
    (Call::Leopard, r#"{"expr":{"m2g":"user:ann"},"limit":2}"#),
    (
        Call::Leopard,
        r#"{"at":{"exactly":"AgAAAAAAAAABAAAAAAAAAAI"},"expr":{"g2g":"group:a#member"},"limit":2}"#,
    ),
    (
        Call::Leopard,
        r#"{"at":{"exactly":"AgAAAAAAAAABAAAAAAAAAAk"},"expr":{"m2g":"user:ann"},"limit":1}"#,
    ),
    (Call::Trim, "{}"),
    (Call::Trim, r#"{"floor":"AgAAAAAAAAABAAAAAAAAAAI"}"#),
    (Call::CatchUp, r#"{"part":"hot","commits":2}"#),
    (Call::Trim, r#"{"floor":"AgAAAAAAAAABAAAAAAAAAAI"}"#),
    (Call::Hot, "{}"),
    (Call::Hot, r#"{"mark":"group:a#member"}"#),
    (Call::Hot, r#"{"mark":"group:a#owner"}"#),
    (Call::Rebuild, "[]"),
    (Call::Rebuild, "{}"),
    (Call::Hot, r#"{"unmark":"group:a#member"}"#),
    (Call::Hot, r#"{"unmark":"group:a#member"}"#),
];

// What the program answers to the stored script.
const STORED: &str = r#"200 {"shown":true,"zookie":"AgAAAAAAAAABAAAAAAAAAAE"}
200 {"shown":true,"zookie":"AgAAAAAAAAABAAAAAAAAAAI"}
200 {"allowed":true,"zookie":"AgAAAAAAAAABAAAAAAAAAAI"}
200 {"shown":true,"zookie":"AgAAAAAAAAABAAAAAAAAAAM"}
200 {"allowed":false,"zookie":"AgAAAAAAAAABAAAAAAAAAAM"}
"#;

// What the calls that mark nodes and rebuild the index are answered, which are the last ones.
const MARKED: &str = r#"400 {"error":{"code":1,"name":"Malformed"}}
200 {"marked":1,"shown":true}
400 {"error":{"code":2,"name":"UnknownRelation"}}
400 {"error":{"code":1,"name":"Malformed"}}
200 {"base":"AgAAAAAAAAABAAAAAAAAAAM","shown":true}
200 {"marked":0,"shown":true}
200 {"marked":0,"shown":true}
"#;

fn digits_of(status: u16) -> &'static str {
    match status {
        200 => "200 ",
        400 => "400 ",
        404 => "404 ",
        409 => "409 ",
        _ => "??? ",
    }
}

fn put(text: &mut Vec<u8>, reply: &Reply) -> Result<(), AllocError> {
    match reply {
        Reply::Said { status, body } => {
            text.extend_from_slice(digits_of(*status).as_bytes())?;
            text.extend_from_slice(body.as_slice())?;
            text.extend_from_slice(b"\n".as_slice())
        }
        Reply::NoMemory => Err(AllocError),
    }
}

/// The replies to the calls, a line each.
fn replies_of<A: Answers>(alloc: Global, machine: &mut A) -> Result<Vec<u8>, AllocError> {
    let mut text = Vec::new(alloc);
    for (call, body) in CALLS {
        put(&mut text, &machine.answer(call, body.as_bytes()))?;
    }
    Ok(text)
}

fn by_lent<A: Abort, T: Tables + Drop, J: Naming, H: Wait + Drop>(
    rt: &A,
    handle: H,
    alloc: Global,
    opened: Opened,
    tables: T,
) -> Vec<u8>
    requires { opened.book ≡ J.book }
{
    let mut machine = lent::open::<A, T, J, H>(rt, handle, alloc, opened, tables);
    replies_of(alloc, &mut machine).expect(rt, "replies")
}

// A front with what it waits by, as a machine that answers.
#[derive(Drop)]
struct ByFront<'k, T: Tables + Drop, J: KeeperName<T>, H: Wait + Drop, W: Wait> {
    rt: &'k W,
    front: Front<'k, T, J, H>,
}

impl<'k, T: Tables + Drop, J: KeeperName<T>, H: Wait + Drop, W: Wait + Threads> Answers
    for ByFront<'k, T, J, H, W> {
    // What a front may answer is in its own contract.
    ghost step = { λ _ _ _ _ _. Unit {0} };

    fn answer(&mut self, call: Call, body: &[u8]) -> Reply {
        self.front.answer(self.rt, &(), call, body)
    }
}

fn by_front<J: KeeperName<T>, H: Wait + Drop, W: Abort + Wait + Threads, T: Tables + Drop>(
    rt: &W,
    alloc: Global,
    keeper: &Keeper<T, J, H>,
) -> Vec<u8> {
    let front = Front::new(alloc, rt, keeper).expect(rt, "a front");
    let mut machine = ByFront { rt, front };
    replies_of(alloc, &mut machine).expect(rt, "replies")
}

fn by_locked<J: KeeperName<T>, H: Wait + Drop, W: Abort + Wait + Threads, T: Tables + Drop>(
    rt: &W,
    handle: H,
    alloc: Global,
    opening: Opening,
    tables: T,
) -> Vec<u8>
    requires book { opening.opened.book ≡ J.book }
    requires history { opening.history ≡ J.table }
    requires starts { (desk : Posts T) → J.starts desk }
{
    let keeper = keeper_of::<J, H, W, T>(rt, handle, alloc, opening, tables);
    by_front(rt, alloc, &keeper)
}

#[test]
fn a_worker_is_answered_as_one_who_holds_the_desk(rt: HostRuntime) {
    let keys = RandomState::new(&rt).expect(&rt, "a key");
    let alloc = rt.alloc();
    let own = Listed::new(alloc, 1);
    let lent = by_lent::<_, _, Brand, _>(&rt, &rt, alloc, Opened::new(keys), own);
    let tables = Listed::new(alloc, 1);
    let locked = by_locked::<Brand, _, _, _>(
        &rt,
        &rt,
        alloc,
        Opening::new(rt.alloc(), keys).expect(&rt, "memory"),
        tables,
    );
    assert!(rt; locked.as_slice().starts_with(STORED.as_bytes()));
    assert!(rt; locked.as_slice().ends_with(MARKED.as_bytes()));
    assert!(rt; locked.as_slice() == lent.as_slice());
}
