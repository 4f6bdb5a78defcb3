//! Answers that are kept, and those that go.

use answer_cache::{At, CachedAnswers};
use decide::Oracle;
use names::{Node, Object, Refusal};
use std::alloc::Global;
use std::hash::RandomState;
use std::test::Fail;

// What is kept of the node, the user and the revision, after answers of two users at revision 7.
fn found(
    alloc: Global,
    keys: RandomState,
    node: &str,
    user: &str,
    revision: u64,
) -> Result<Option<bool>, Refusal> {
    let readme = Node::parse("document:readme#viewer")?;
    let mut kept = CachedAnswers::new(alloc, keys)?;
    kept.keep(7, &readme, &Object::parse("user:ann")?, false)?;
    kept.keep(7, &readme, &Object::parse("user:bob")?, false)?;
    kept.keep(7, &readme, &Object::parse("user:ann")?, true)?;
    Ok(kept.knows_at(revision, &Node::parse(node)?, &Object::parse(user)?))
}

#[test]
fn an_answer_is_found_again(rt: HostRuntime) -> Result<(), Fail> {
    let keys = RandomState::new(&rt)?;
    for (node, user, revision, wanted) in [
        ("document:readme#viewer", "user:ann", 7, Some(true)),
        ("document:readme#viewer", "user:bob", 7, Some(false)),
        ("document:readme#viewer", "user:ann", 8, None),
        ("document:readme#viewer", "user:cy", 7, None),
        ("document:readme#owner", "user:ann", 7, None),
    ] {
        let answer = found(rt.alloc(), keys, node, user, revision)?;
        assert!(rt; answer == wanted, "{node}@{user} at {revision}");
    }
    Ok(())
}

// What is kept of the revision, after answers of 1,025 revisions: the first was asked for again before the last came.
fn left(alloc: Global, keys: RandomState, revision: u64) -> Result<Option<bool>, Refusal> {
    let (node, user) = (Node::parse("group:a#member")?, Object::parse("user:ann")?);
    let mut kept = CachedAnswers::new(alloc, keys)?;
    for asked in 0..1024 {
        kept.keep(asked, &node, &user, asked % 2 == 0)?;
    }
    let _first = kept.knows_at(0, &node, &user);
    kept.keep(1024, &node, &user, true)?;
    Ok(kept.peek_at(revision, &node, &user))
}

#[test]
fn the_one_used_least_lately_goes(rt: HostRuntime) -> Result<(), Fail> {
    let keys = RandomState::new(&rt)?;
    for (revision, wanted) in [
        (0, Some(true)),
        (1, None),
        (2, Some(true)),
        (3, Some(false)),
        (1023, Some(false)),
        (1024, Some(true)),
    ] {
        let answer = left(rt.alloc(), keys, revision)?;
        assert!(rt; answer == wanted, "at {revision}");
    }
    Ok(())
}

fn told_at(kept: &CachedAnswers, revision: u64, node: &Node, user: &Object) -> Option<bool> {
    let mut at = At { kept, revision };
    at.knows(node, user)
}

// What a check at the revision is told, after an answer at revision 7, and after the cache was cleared.
fn told(
    alloc: Global,
    keys: RandomState,
    revision: u64,
) -> Result<(Option<bool>, Option<bool>), Refusal> {
    let (node, user) = (Node::parse("group:a#member")?, Object::parse("user:ann")?);
    let mut kept = CachedAnswers::new(alloc, keys)?;
    kept.keep(7, &node, &user, true)?;
    let before = told_at(&kept, revision, &node, &user);
    kept.clear();
    Ok((before, told_at(&kept, revision, &node, &user)))
}

#[test]
fn a_check_is_told_what_is_kept(rt: HostRuntime) -> Result<(), Fail> {
    let keys = RandomState::new(&rt)?;
    for (revision, wanted) in [(7, Some(true)), (8, None)] {
        let answers = told(rt.alloc(), keys, revision)?;
        assert!(rt; answers == (wanted, None), "at {revision}");
    }
    Ok(())
}
