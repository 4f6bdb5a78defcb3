//! Reads of the tuples that name one subject.
ghost use Rattle.std.specs.Prelude.{◌≡◌, IfOk};
ghost use Rattle.rows.specs.Loads.{retained_of};
ghost use Rattle.by_subject.specs.Complete.{IsCompleteFor};

use crate::histories::{history, trims, tuples_in};
use by_subject::{BySubject, ViewBySubject, what_is_retained_is_found};
use names::{Items, Name, Object, ObjectId, Refusal, Subject, Tuple};
use rows::{Loaded, Rows, Tupleset};
use std::alloc::{AllocError, Global};
use std::test::Fail;
use tuple_keys::KeptCommit;

const CONFIG: &str =
    r#"{"namespaces":{"user":{},"group":{"member":{"types":["user","group#member"]}},"folder":{"viewer":{"types":["user"]}},
"doc":{"viewer":{"types":["user","group","group#member"]},"editor":{"types":["user"]}}}}"#;

// The first write stands at the floor, and the last puts and deletes above it.
const LINES: [&str; 3] = [
    CONFIG,
    "doc:b#viewer@user:ann doc:b#editor@user:ann doc:a#viewer@user:ann doc:c#viewer@group:g#member doc:d#viewer@user:bob folder:f#viewer@user:ann",
    "-doc:b#viewer@user:ann doc:e#viewer@user:ann doc:aa#viewer@group:g#member",
];

fn all_again(alloc: Global, commits: &[KeptCommit]) -> Result<Vec<KeptCommit>, AllocError>
    ensures { IfOk result (λ v. v.items ≡ commits.now) }
{
    let mut again = Vec::new(alloc);
    for commit in commits {
        again.push(commit.again()?)?;
    }
    Ok(again)
}

// What tables would hold of the history.
fn loaded_of(alloc: Global, rows: &Rows) -> Result<Loaded, AllocError>
    ensures { IfOk result (λ loaded. retained_of loaded ≡ rows.now) }
{
    let floor = rows.floor();
    let commits = all_again(alloc, rows.commits(floor, rows.newest()))?;
    let view = rows.at(floor);
    Ok(Loaded {
        number: rows.number(),
        floor,
        config: view.config().again(alloc)?,
        tuples: Items::of(view.tuples(alloc)?),
        commits: Items::of(commits),
    })
}

// What is asked for of a namespace: an object's id, a relation and a tuple to come after, if any, and whom they name.
fn asked(of: [&str; 4], subject: &str, limit: u16) -> Result<Tupleset, Refusal> {
    let [namespace, id, relation, after] = of;
    Ok(Tupleset {
        namespace: Name::parse(namespace)?,
        object: if id.is_empty() {
            None
        } else {
            Some(ObjectId::parse(id)?)
        },
        relation: if relation.is_empty() {
            None
        } else {
            Some(Name::parse(relation)?)
        },
        subject: Some(Subject::parse(subject)?),
        after: if after.is_empty() {
            None
        } else {
            Some(Tuple::parse(after)?)
        },
        limit,
    })
}

// Whether the page of a revision that is retained has these tuples, by both ways of reading it.
fn reads(
    alloc: Global,
    rows: &Rows,
    found: &BySubject,
    rev: u64,
    asked: &Tupleset,
    words: &str,
) -> Result<bool, Refusal>
    requires { IsCompleteFor rows.now found.now }
{
    what_is_retained_is_found();
    let Some(subject) = &asked.subject else {
        return Ok(false);
    };
    if rev < rows.floor() || rev > rows.newest() {
        return Ok(false);
    }
    let view = rows.at(rev);
    let wanted = tuples_in(alloc, words)?;
    let is_page = match found.read(alloc, &view, asked, subject, 8)? {
        Some(page) => page == wanted,
        None => false,
    };
    let page = ViewBySubject::of(&view, Some(found)).read(alloc, asked)?;
    Ok(is_page && page == wanted && view.read(alloc, asked)? == wanted)
}

fn gives(alloc: Global, rev: u64, asked: &Tupleset, words: &str) -> Result<bool, Refusal> {
    let mut rows = history(alloc, &LINES)?;
    trims(&mut rows, 2);
    let found = BySubject::of(alloc, &loaded_of(alloc, &rows)?)?;
    reads(alloc, &rows, &found, rev, asked, words)
}

const DOCS: [&str; 4] = ["doc", "", "", ""];

const A: &str = "doc:a#viewer@user:ann";

const B: &str = "doc:b#editor@user:ann";

const E: &str = "doc:e#viewer@user:ann";

const FOLDER: &str = "folder:f#viewer@user:ann";

// Of a revision: what is asked for, and a page of so many at most.
fn reads_all(
    alloc: Global,
    rev: u64,
    subject: &str,
    pages: &[([&str; 4], u16, &str)],
) -> Result<bool, Refusal> {
    for (of, limit, wanted) in pages {
        if !gives(alloc, rev, &asked(*of, subject, *limit)?, wanted)? {
            return Ok(false);
        }
    }
    Ok(true)
}

#[test]
fn tuples_are_read_by_whom_they_name(rt: HostRuntime) -> Result<(), Fail> {
    let alloc = rt.alloc();
    let before = "doc:a#viewer@user:ann doc:b#editor@user:ann doc:b#viewer@user:ann";
    assert!(rt; reads_all(alloc, 2, "user:ann", &[(DOCS, 1000, before)])?);
    let now = "doc:a#viewer@user:ann doc:b#editor@user:ann doc:e#viewer@user:ann";
    let pages = [
        (DOCS, 1000, now),
        (DOCS, 2, "doc:a#viewer@user:ann doc:b#editor@user:ann"),
        (["doc", "", "", A], 1, B),
        (["doc", "", "", E], 1000, ""),
        (
            ["doc", "", "viewer", ""],
            1000,
            "doc:a#viewer@user:ann doc:e#viewer@user:ann",
        ),
        (["doc", "b", "", ""], 1000, B),
        (["folder", "", "", ""], 1000, FOLDER),
    ];
    assert!(rt; reads_all(alloc, 3, "user:ann", &pages)?);
    Ok(())
}

#[test]
fn tuples_are_read_by_whose_members_they_name(rt: HostRuntime) -> Result<(), Fail> {
    let alloc = rt.alloc();
    let (group, before) = ("group:g#member", "doc:c#viewer@group:g#member");
    let now = "doc:aa#viewer@group:g#member doc:c#viewer@group:g#member";
    assert!(rt; reads_all(alloc, 2, group, &[(DOCS, 1000, before)])?);
    assert!(rt; reads_all(alloc, 3, group, &[(DOCS, 1000, now)])?);
    for nobody in ["group:g", "user:cy"] {
        assert!(rt;
            reads_all(alloc, 3, nobody, &[(DOCS, 1000, "")])?,
            "{nobody}"
        );
    }
    Ok(())
}

/// How many nodes have a tuple that names her, once what no revision from one on has is forgotten.
fn nodes_left(alloc: Global, floor: u64) -> Result<Option<usize>, Refusal> {
    let rows = history(alloc, &LINES)?;
    let mut found = BySubject::of(alloc, &loaded_of(alloc, &rows)?)?;
    if rows.floor() <= floor && floor <= rows.newest() {
        found.forget_below(&rows, floor);
    }
    let nodes = found.naming(alloc, &Object::parse("user:ann")?, 8)?;
    Ok(nodes.map(|nodes| nodes.len()))
}

// Of the five tuples that name her the last write deletes one.
#[test]
fn what_no_later_revision_has_is_forgotten(rt: HostRuntime) -> Result<(), Fail> {
    assert!(rt; nodes_left(rt.alloc(), 2)? == Some(5));
    assert!(rt; nodes_left(rt.alloc(), 3)? == Some(4));
    Ok(())
}
