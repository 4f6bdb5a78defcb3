//! Lookups.
ghost use Rattle.std.specs.Prelude.{IfOk, IfSome};
ghost use Rattle.by_subject.specs.Complete.{Covers};

use crate::histories::history;
use by_subject::{BySubject, ViewBySubject};
use decide::Nothing;
use lookup::{Lookup, an_object_that_no_tuple_names_has_no_users, lookup_at, lookups_are_one};
use names::{Items, Name, Object, ObjectId, Refusal, RelationName};
use rows::{Loaded, Rows, View};
use std::alloc::{AllocError, Global};
use std::hash::RandomState;
use std::test::Fail;

// Two groups that hold each other, and documents whose readers are their viewers, but for who is blocked. A document in a
// folder is found by those who see the folder, too.
const CONFIG: &str =
    r#"{"namespaces":{"user":{},"group":{"member":{"types":["user","group#member"]}},
"folder":{"viewer":{"types":["group#member"]}},
"doc":{"viewer":{"types":["user","group#member"]},"blocked":{"types":["user"]},"parent":{"types":["folder"]},
"reader":{"rewrite":{"exclusion":[{"computed":"viewer"},{"computed":"blocked"}]}},
"finder":{"rewrite":{"union":[{"computed":"reader"},{"tuple_to":{"tupleset":"parent","relation":"viewer"}}]}}}}}"#;

const LINES: [&str; 5] = [
    CONFIG,
    "group:a#member@group:b#member group:b#member@group:a#member group:b#member@user:ann",
    "doc:1#viewer@group:a#member doc:10#viewer@user:ann doc:2#viewer@user:ann doc:2#blocked@user:ann",
    "doc:3#viewer@group:b#member doc:4#viewer@user:bob doc:5#viewer@group:a#member doc:5#viewer@user:ann",
    "folder:f#viewer@group:a#member doc:2#parent@folder:f doc:6#parent@folder:f doc:7#parent@folder:g",
];

fn id_of(text: &str) -> Result<Option<ObjectId>, Refusal> {
    if text.is_empty() {
        return Ok(None);
    }
    Ok(Some(ObjectId::parse(text)?))
}

// What is asked for of documents: for whom, the id that the others come after, if any, and how many.
fn asked(relation: &str, user: &str, after: &str, limit: u16) -> Result<Lookup, Refusal> {
    let namespace = Name::parse("doc")?;
    let relation = Name::parse(relation)?;
    Ok(Lookup {
        relation: RelationName {
            namespace,
            relation,
        },
        user: Object::parse(user)?,
        after: id_of(after)?,
        limit,
    })
}

// Whether these are the words, in this order.
fn are_ids(ids: &[ObjectId], words: &str) -> bool {
    for (place, word) in words.split_ascii_whitespace().enumerate() {
        let is = match ids.get(place) {
            Some(id) => id.as_str() == word,
            None => false,
        };
        if !is {
            return false;
        }
    }
    ids.len() == words.split_ascii_whitespace().count()
}

// The view's tuples, found by whom they name.
fn index_of(alloc: Global, view: &View) -> Result<BySubject, AllocError>
    ensures { IfOk result (λ found. Covers found view.now.tuples) }
{
    let config = view.config().again(alloc)?;
    let tuples = view.tuples(alloc)?;
    let loaded = Loaded {
        number: 0,
        floor: 0,
        config,
        tuples: Items::of(tuples),
        commits: Items::of(Vec::new(alloc)),
    };
    let found = BySubject::of(alloc, &loaded)?;
    Ok(found)
}

// Whether a lookup gives these ids.
fn looks_up(
    alloc: Global,
    keys: RandomState,
    view: &View,
    found: Option<&BySubject>,
    asked: &Lookup,
    wanted: &str,
) -> Result<bool, Refusal>
    requires { IfSome found (λ found. Covers found.now view.now.tuples) }
{
    let by_subject = ViewBySubject::of(view, found);
    let ids = lookup_at(alloc, keys, &by_subject, &mut Nothing, asked)?;
    Ok(are_ids(&ids, wanted))
}

// Whether both ways give these ids: over the namespace, and up from the user.
fn gives(alloc: Global, keys: RandomState, asked: &Lookup, wanted: &str) -> Result<bool, Refusal> {
    let rows = history(alloc, &LINES)?;
    let view = rows.at(rows.newest());
    let subjects = index_of(alloc, &view)?;
    let over = looks_up(alloc, keys, &view, None, asked, wanted)?;
    Ok(over && looks_up(alloc, keys, &view, Some(&subjects), asked, wanted)?)
}

#[test]
fn the_objects_of_a_user_are_found_in_order(rt: HostRuntime) -> Result<(), Fail> {
    an_object_that_no_tuple_names_has_no_users();
    lookups_are_one();
    let keys = RandomState::new(&rt)?;
    for (relation, user, after, limit, wanted) in [
        ("reader", "user:ann", "", 1000, "1 10 3 5"),
        ("reader", "user:ann", "", 2, "1 10"),
        ("reader", "user:ann", "1", 2, "10 3"),
        ("reader", "user:ann", "2", 1000, "3 5"),
        ("reader", "user:ann", "5", 1000, ""),
        ("reader", "user:bob", "", 1000, "4"),
        ("reader", "user:cy", "", 1000, ""),
        ("finder", "user:ann", "", 1000, "1 10 2 3 5 6"),
        ("finder", "user:bob", "", 1000, "4"),
    ] {
        let asked = asked(relation, user, after, limit)?;
        let right = gives(rt.alloc(), keys, &asked, wanted)?;
        assert!(rt; right, "{relation} of {user} after {after}");
    }
    Ok(())
}

fn is_unknown(alloc: Global, keys: RandomState, rows: &Rows, asked: &Lookup) -> bool {
    let view = rows.at(rows.newest());
    let by_subject = ViewBySubject::of(&view, None);
    let found = lookup_at(alloc, keys, &by_subject, &mut Nothing, asked);
    matches!(found, Err(Refusal::UnknownRelation))
}

fn refuses_unknown(alloc: Global, keys: RandomState) -> Result<bool, Refusal> {
    let rows = history(alloc, &LINES)?;
    let member = is_unknown(alloc, keys, &rows, &asked("member", "user:ann", "", 1)?);
    Ok(member && !is_unknown(alloc, keys, &rows, &asked("blocked", "user:ann", "", 1)?))
}

#[test]
fn a_lookup_of_an_unknown_relation_is_refused(rt: HostRuntime) -> Result<(), Fail> {
    let keys = RandomState::new(&rt)?;
    assert!(rt; refuses_unknown(rt.alloc(), keys)?);
    Ok(())
}
