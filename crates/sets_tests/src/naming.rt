//! Names in the order in which they are first seen.
use idsets::Ids;
use names::{Node, Object, Subject};
use std::hash::RandomState;
use std::test::Fail;

#[test]
fn names_keep_their_ids(rt: HostRuntime) -> Result<(), Fail> {
    let mut ids = Ids::new(rt.alloc(), RandomState::new(&rt)?);
    for (text, wanted) in [
        ("group:b#member", 0),
        ("group:a#member", 1),
        ("group:b#member", 0),
    ] {
        let seen = ids.see(Node::parse(text).map_err(|_| "no node")?)?;
        assert_eq!(rt; seen, wanted);
    }
    let other = Node::parse("group:a#owner").map_err(|_| "no node")?;
    let first = Node::parse("group:b#member").map_err(|_| "no node")?;
    assert_eq!(rt; ids.id_of(&other), None);
    assert_eq!(rt; ids.name(0), Some(&first));
    assert!(rt; ids.name(2).is_none() && ids.len() == 2);
    Ok(())
}

#[test]
fn objects_and_subjects_have_ids(rt: HostRuntime) -> Result<(), Fail> {
    let keys = RandomState::new(&rt)?;
    let mut users = Ids::new(rt.alloc(), keys);
    let ann = Object::parse("user:ann").map_err(|_| "no object")?;
    assert_eq!(rt; users.see(ann)?, 0);
    let mut subjects = Ids::new(rt.alloc(), keys);
    let one = Subject::parse("user:ann").map_err(|_| "no subject")?;
    let set = Subject::parse("user:ann#friend").map_err(|_| "no subject")?;
    assert_eq!(rt; subjects.see(one)?, 0);
    assert_eq!(rt; subjects.id_of(&set), None);
    assert_eq!(rt; subjects.see(set)?, 1);
    Ok(())
}
