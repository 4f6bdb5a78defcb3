//! Pages of watched events.

use crate::histories::history;
use names::Refusal;
use rows::Rows;
use std::alloc::Global;
use std::test::Fail;
use watch::{
    Namespaces, page, replayed_events_give_the_tuples, replayed_events_give_what_is_watched,
};

const CONFIG: &str =
    r#"{"namespaces":{"user":{},"group":{"member":{"types":["user"]}},"doc":{"owner":{"types":["user"]}}}}"#;

// A configuration, a write of three tuples that come out of order, the configuration again, and a delete.
const LINES: [&str; 4] = [
    CONFIG,
    "group:a#member@user:ann doc:1#owner@user:ann group:b#member@user:ann",
    CONFIG,
    "-group:a#member@user:ann",
];

// Whether the page of a commit above the cursor has no events, and this heartbeat.
fn is_empty_to(alloc: Global, cursor: u64, heartbeat: u64) -> Result<bool, Refusal> {
    let rows = history(alloc, &LINES)?;
    let found = page(alloc, &rows, cursor, &Namespaces::All, 1)?;
    Ok(found.events.as_slice().is_empty() && found.heartbeat == heartbeat)
}

#[test]
fn a_configuration_counts_as_a_commit_without_events(rt: HostRuntime) -> Result<(), Fail> {
    replayed_events_give_the_tuples();
    assert!(rt; is_empty_to(rt.alloc(), 2, 3)?);
    Ok(())
}

#[test]
fn no_commits_are_an_empty_page(rt: HostRuntime) -> Result<(), Fail> {
    replayed_events_give_what_is_watched();
    assert!(rt; is_empty_to(rt.alloc(), 4, 4)?);
    Ok(())
}

// The heartbeat of the page of a commit above the cursor.
fn heartbeat_of(alloc: Global, rows: &Rows, cursor: u64) -> Result<u64, Refusal> {
    Ok(page(alloc, rows, cursor, &Namespaces::All, 1)?.heartbeat)
}

// Whether cursors above the newest revision and below the floor are refused, and the floor is not.
fn tells_its_ends(alloc: Global, rows: &Rows) -> bool {
    let future = matches!(heartbeat_of(alloc, rows, 5), Err(Refusal::Future));
    let expired = matches!(heartbeat_of(alloc, rows, 1), Err(Refusal::Expired));
    future && expired && matches!(heartbeat_of(alloc, rows, 2), Ok(3))
}

fn ends_are_told(alloc: Global) -> Result<bool, Refusal> {
    let mut rows = history(alloc, &LINES)?;
    if rows.newest() < 2 {
        return Ok(false);
    }
    rows.trim(2);
    Ok(tells_its_ends(alloc, &rows))
}

#[test]
fn cursors_that_are_not_retained_are_refused(rt: HostRuntime) -> Result<(), Fail> {
    assert!(rt; ends_are_told(rt.alloc())?);
    Ok(())
}
