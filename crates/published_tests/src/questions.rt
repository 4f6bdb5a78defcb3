//! Trees, pages, objects and groups that a session answers: the program asks for the same beside the number of the store.
ghost use Rattle.std.specs.Prelude.{◌≡◌};

use crate::desk::{Desk, configure, insert, open};
use expand::Tree;
use leopard::Expr;
use lookup::Lookup;
use names::{EventKind, Name, Node, Object, Refusal, RelationName, Tuple};
use published::{Naming, Opened, Session};
use rows::Tupleset;
use shown::{Depth, Objects};
use std::alloc::Global;
use std::hash::RandomState;
use std::marker::Brand;
use std::process::Abort;
use std::sync::Wait;
use std::test::*;
use watch::{Namespaces, WatchedEvent};
use zookie::{Consistency, Zookie};

const INDEXED: &str =
    r#"{"namespaces":{"group":{"member":{"types":["user"],"indexed":true}},"user":{}}}"#;

const ANN: &str = "group:a#member@user:ann";

// A session of a desk where Ann is a member of the group at revision 2, which is shown.
fn filled<A: Abort, J: Naming, R: Wait + Drop>(
    rt: &A,
    alloc: Global,
    desk: &mut Desk<J, R>,
) -> Session<J> {
    configure(alloc, desk, INDEXED).expect(rt, "a configuration");
    insert(alloc, desk, ANN).expect(rt, "a tuple");
    desk.publication.publish();
    desk.publication.session().expect(rt, "a session")
}

fn has_only(tree: &Tree, user: &Object) -> bool {
    match tree {
        Tree::Union(parts) => match parts.as_slice() {
            [Tree::One(only)] => *only == *user,
            _ => false,
        },
        _ => false,
    }
}

fn opens_to(tree: &Tree, node: &Node, user: &Object) -> bool {
    match tree {
        Tree::Opened(opened, below) => *opened == *node && has_only(below, user),
        _ => false,
    }
}

fn has_tree<J: Naming>(session: &mut Session<J>) -> Result<bool, Refusal> {
    let node = Node::parse("group:a#member")?;
    let user = Object::parse("user:ann")?;
    let asked = Node::parse("group:a#member")?;
    match session.expand(Consistency::Latest, asked, Depth { nodes: 1 }) {
        Ok(found) => Ok(found.rev == 2 && opens_to(&found.value, &node, &user)),
        Err(refused) => Err(refused.why),
    }
}

fn is_tuple(found: &[Tuple], wanted: &Tuple) -> bool {
    match found {
        [only] => *only == *wanted,
        _ => false,
    }
}

fn has_page<J: Naming>(session: &mut Session<J>) -> Result<bool, Refusal> {
    let tuple = Tuple::parse(ANN)?;
    let asked = Tupleset {
        namespace: Name::parse("group")?,
        object: None,
        relation: None,
        subject: None,
        after: None,
        limit: 9,
    };
    match session.read(Consistency::Latest, asked) {
        Ok(page) => Ok(page.rev == 2 && is_tuple(page.value.as_slice(), &tuple)),
        Err(refused) => Err(refused.why),
    }
}

fn is_object(found: &Objects, wanted: &str) -> bool {
    match found.ids.as_slice() {
        [only] => found.namespace.as_str() == "group" && only.as_str() == wanted,
        _ => false,
    }
}

fn has_objects<J: Naming>(session: &mut Session<J>) -> Result<bool, Refusal> {
    let relation = RelationName {
        namespace: Name::parse("group")?,
        relation: Name::parse("member")?,
    };
    let asked = Lookup {
        relation,
        user: Object::parse("user:ann")?,
        after: None,
        limit: 9,
    };
    match session.lookup(Consistency::Latest, asked) {
        Ok(found) => Ok(found.rev == 2 && is_object(&found.value, "a")),
        Err(refused) => Err(refused.why),
    }
}

fn is_group(found: &[Node], wanted: &Node) -> bool {
    match found {
        [only] => *only == *wanted,
        _ => false,
    }
}

fn has_groups<J: Naming>(session: &mut Session<J>) -> Result<bool, Refusal> {
    let node = Node::parse("group:a#member")?;
    let asked = Expr::Member2Group(Object::parse("user:ann")?);
    match session.groups(Consistency::Latest, asked, 9) {
        Ok(groups) => Ok(groups.rev == 2 && is_group(groups.value.as_slice(), &node)),
        Err(refused) => Err(refused.why),
    }
}

fn is_put(events: &[WatchedEvent], tuple: &Tuple) -> bool {
    match events {
        [one] => one.rev == 2 && one.event.kind == EventKind::Put && one.event.tuple == *tuple,
        _ => false,
    }
}

fn has_events<J: Naming>(session: &mut Session<J>) -> Result<bool, Refusal> {
    let tuple = Tuple::parse(ANN)?;
    let cursor = Zookie { store: 7, rev: 1 };
    let page = session.watch(cursor, Namespaces::All, 9)?;
    Ok(page.heartbeat == 2 && is_put(page.events.as_slice(), &tuple))
}

fn answers<A: Abort, J: Naming, R: Wait + Drop>(rt: &A, handle: R, alloc: Global, opened: Opened)
    requires { opened.book ≡ J.book }
{
    let mut desk = open::<A, J, R>(rt, handle, alloc, opened);
    let mut session = filled(rt, alloc, &mut desk);
    assert!(rt; has_tree(&mut session).expect(rt, "a tree"));
    assert!(rt; has_page(&mut session).expect(rt, "a page"));
    assert!(rt; has_objects(&mut session).expect(rt, "objects"));
    assert!(rt; has_groups(&mut session).expect(rt, "groups"));
    assert!(rt; has_events(&mut session).expect(rt, "events"));
}

#[test]
fn a_session_answers_each_question(rt: HostRuntime) {
    let keys = RandomState::new(&rt).expect(&rt, "a key");
    answers::<_, Brand, _>(&rt, &rt, rt.alloc(), Opened::new(keys));
}
