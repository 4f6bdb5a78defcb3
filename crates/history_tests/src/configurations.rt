//! What a configuration admits of what an earlier one did.

use crate::histories::history;
use config::Config;
use names::{Commit, Refusal};
use std::alloc::Global;
use std::test::Fail;

const BASE: &str =
    r#"{"namespaces":{"doc":{"owner":{"types":["user"]},"reader":{"rewrite":{"computed":"viewer"}},"viewer":{"types":["user","group#member"]}},"group":{"member":{"types":["user"]}},"user":{}}}"#;

// A relation more, and a type more; the types of a viewer come the other way round. A reader, who has no types, is gone.
const MORE: &str =
    r#"{"namespaces":{"doc":{"editor":{"types":["user"]},"owner":{"types":["user","group#member"]},"viewer":{"types":["group#member","user"]}},"group":{"member":{"types":["user"]}},"user":{}}}"#;

// A viewer is no member of a group.
const USERS: &str =
    r#"{"namespaces":{"doc":{"owner":{"types":["user"]},"viewer":{"types":["user"]}},"group":{"member":{"types":["user"]}},"user":{}}}"#;

// A viewer is a group, and not its members.
const GROUPS: &str =
    r#"{"namespaces":{"doc":{"owner":{"types":["user"]},"viewer":{"types":["user","group"]}},"group":{"member":{"types":["user"]}},"user":{}}}"#;

// There is no owner.
const NO_OWNER: &str =
    r#"{"namespaces":{"doc":{"viewer":{"types":["user","group#member"]}},"group":{"member":{"types":["user"]}},"user":{}}}"#;

fn admits_all(alloc: Global, config: &str, earlier: &str) -> Result<bool, Refusal> {
    let config = Config::from_json(alloc, config.as_bytes())?;
    let earlier = Config::from_json(alloc, earlier.as_bytes())?;
    Ok(config.admits_all_of(&earlier))
}

#[test]
fn what_declares_as_much_admits_all(rt: HostRuntime) -> Result<(), Fail> {
    assert!(rt; admits_all(rt.alloc(), BASE, BASE)?);
    assert!(rt; admits_all(rt.alloc(), MORE, BASE)?);
    assert!(rt; admits_all(rt.alloc(), BASE, USERS)?);
    assert!(rt; admits_all(rt.alloc(), BASE, NO_OWNER)?);
    Ok(())
}

#[test]
fn what_declares_less_does_not(rt: HostRuntime) -> Result<(), Fail> {
    assert!(rt; !admits_all(rt.alloc(), BASE, MORE)?);
    assert!(rt; !admits_all(rt.alloc(), USERS, BASE)?);
    assert!(rt; !admits_all(rt.alloc(), GROUPS, BASE)?);
    assert!(rt; !admits_all(rt.alloc(), NO_OWNER, BASE)?);
    Ok(())
}

// The configuration is refused where one viewer is all that there is.
fn is_refused(alloc: Global, config: &str, tuple: &str) -> Result<bool, Refusal> {
    let rows = history(alloc, &[BASE, tuple])?;
    let config = Config::from_json(alloc, config.as_bytes())?;
    Ok(rows.refuses(&Commit::Config(config))?)
}

#[test]
fn a_configuration_is_refused_for_a_tuple_alone(rt: HostRuntime) -> Result<(), Fail> {
    assert!(rt; !is_refused(rt.alloc(), MORE, "doc:a#viewer@group:b#member")?);
    assert!(rt; !is_refused(rt.alloc(), NO_OWNER, "doc:a#viewer@group:b#member")?);
    assert!(rt; !is_refused(rt.alloc(), USERS, "doc:a#viewer@user:ann")?);
    assert!(rt; is_refused(rt.alloc(), USERS, "doc:a#viewer@group:b#member")?);
    assert!(rt; is_refused(rt.alloc(), GROUPS, "doc:a#viewer@group:b#member")?);
    assert!(rt; is_refused(rt.alloc(), NO_OWNER, "doc:a#owner@user:ann")?);
    Ok(())
}
