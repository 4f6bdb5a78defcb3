//! Bodies that mark nodes and that ask for a new base of the index, and the replies to them.

use bodies::marking::{hot_body, rebuild_body};
use bodies::replies::{base, marked};
use names::{Marking, Refusal, Reply};
use std::alloc::Global;
use std::test::Fail;
use zookie::Zookie;

/// Whether the body asks for this, written as a word and a node.
fn asks(alloc: Global, body: &str, wanted: &str) -> Result<bool, Fail> {
    let marking = hot_body(alloc, body.as_bytes())?;
    let text = match marking {
        Marking::Mark(node) => format!(in alloc; "mark {node}")?,
        Marking::Unmark(node) => format!(in alloc; "unmark {node}")?,
    };
    Ok(text.as_str() == wanted)
}

#[test]
fn a_node_is_marked_and_its_mark_is_taken_away(rt: HostRuntime) -> Result<(), Fail> {
    let alloc = rt.alloc();
    for (body, wanted) in [
        (r#"{"mark":"group:a#member"}"#, "mark group:a#member"),
        (r#"{"unmark":"group:a#member"}"#, "unmark group:a#member"),
        (
            r#" { "mark" : "doc:readme#viewer" } "#,
            "mark doc:readme#viewer",
        ),
        (r#"{"unmark":"doc:\u0061#viewer"}"#, "unmark doc:a#viewer"),
    ] {
        assert!(rt; asks(alloc, body, wanted)?, "at {body}");
    }
    Ok(())
}

fn is_no_marking(alloc: Global, body: &[u8]) -> bool {
    match hot_body(alloc, body) {
        Ok(_) => false,
        Err(why) => why.number() == Refusal::Malformed.number(),
    }
}

#[test]
fn what_is_no_marking_is_malformed(rt: HostRuntime) {
    let alloc = rt.alloc();
    for body in [
        "",
        "{",
        "{}",
        "[]",
        "1",
        "null",
        r#""group:a#member""#,
        r#"["mark","group:a#member"]"#,
        r#"[{"mark":"group:a#member"}]"#,
        r#"{"mark":"group:a#member"}{}"#,
        r#"{"mark":null}"#,
        r#"{"mark":1}"#,
        r#"{"mark":true}"#,
        r#"{"mark":["group:a#member"]}"#,
        r#"{"mark":{"node":"group:a#member"}}"#,
        r#"{"mark":""}"#,
        r#"{"mark":"group:a"}"#,
        r#"{"mark":"group:a#"}"#,
        r#"{"mark":"group#member"}"#,
        r#"{"mark":"group:a#member@user:ann"}"#,
        r#"{"mark":" group:a#member"}"#,
        r#"{"Mark":"group:a#member"}"#,
        r#"{"marks":"group:a#member"}"#,
        r#"{"hot":"group:a#member"}"#,
        r#"{"mark":"group:a#member","unmark":"group:b#member"}"#,
        r#"{"mark":"group:a#member","unmark":null}"#,
        r#"{"at":"latest","mark":"group:a#member"}"#,
        r#"{"unmark":null}"#,
        r#"{"unmark":"group:a"}"#,
        r#"{"unmark":["group:a#member"]}"#,
        r#"{"unmark":"group:a#member@user:ann"}"#,
        r#"{"mark":null,"unmark":"group:a#member"}"#,
        r#"{"at":"latest","unmark":"group:a#member"}"#,
    ] {
        assert!(rt; is_no_marking(alloc, body.as_bytes()), "at {body}");
    }
    assert!(rt; is_no_marking(alloc, b"{\"mark\":\"group:\xff#member\"}"));
}

fn is_rebuild(alloc: Global, body: &str) -> Result<bool, Fail> {
    rebuild_body(alloc, body.as_bytes())?;
    Ok(true)
}

#[test]
fn a_rebuild_is_the_empty_object(rt: HostRuntime) -> Result<(), Fail> {
    let alloc = rt.alloc();
    for body in ["{}", " { } ", "\n{\t}\r\n"] {
        assert!(rt; is_rebuild(alloc, body)?, "at {body}");
    }
    Ok(())
}

fn is_no_rebuild(alloc: Global, body: &[u8]) -> bool {
    match rebuild_body(alloc, body) {
        Ok(()) => false,
        Err(why) => why.number() == Refusal::Malformed.number(),
    }
}

#[test]
fn what_is_no_rebuild_is_malformed(rt: HostRuntime) {
    let alloc = rt.alloc();
    for body in [
        "",
        "{",
        "null",
        "0",
        "true",
        r#""""#,
        "[]",
        "[{}]",
        "{}{}",
        "{},",
        r#"{"":null}"#,
        r#"{"base":null}"#,
        r#"{"at":"latest"}"#,
        r#"{"at":{"exactly":"1"}}"#,
    ] {
        assert!(rt; is_no_rebuild(alloc, body.as_bytes()), "at {body}");
    }
    assert!(rt; is_no_rebuild(alloc, b"{}\xff"));
}

fn says(reply: &Reply, text: &str) -> bool {
    match reply {
        Reply::Said { status, body } => *status == 200 && body.as_slice() == text.as_bytes(),
        Reply::NoMemory => false,
    }
}

fn are_counted(alloc: Global) -> bool {
    says(&marked(alloc, 0, true), r#"{"marked":0,"shown":true}"#)
        && says(
            &marked(alloc, 256, false),
            r#"{"marked":256,"shown":false}"#,
        )
}

#[test]
fn marked_nodes_are_counted(rt: HostRuntime) {
    assert!(rt; are_counted(rt.alloc()));
}

fn are_bases(alloc: Global) -> bool {
    let first = Zookie { store: 1, rev: 1 };
    let later = Zookie { store: 1, rev: 9 };
    let shown = r#"{"base":"AgAAAAAAAAABAAAAAAAAAAE","shown":true}"#;
    let waits = r#"{"base":"AgAAAAAAAAABAAAAAAAAAAk","shown":false}"#;
    says(&base(alloc, &first, true), shown) && says(&base(alloc, &later, false), waits)
}

#[test]
fn a_base_is_told_by_its_zookie(rt: HostRuntime) {
    assert!(rt; are_bases(rt.alloc()));
}
