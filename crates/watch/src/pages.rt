//! Pages.
ghost use Rattle.std.specs.Prelude.{◌≡◌, ◌≤◌, ◌+◌, ◌++◌, ◌∷◌, [], length, IfOk, IfErr, OnOk};
ghost use Rattle.names.specs.declared.limits.TheConstants.{MAX_REV};
ghost use Rattle.rows.specs.Retained.{IsRetained};
ghost use Rattle.watch.specs.Watched.{IsPage, PageRefused, watched, watched_in, watched_of};

use crate::watched::{Namespaces, Page, WatchedEvent};
use names::{Items, Refusal};
use rows::Rows;
use std::alloc::{AllocError, Global};
use tuple_keys::{KeptCommit, KeptEvent, KeptEvents};

/// The events of the commits above the cursor, so many at most, on tuples of the namespaces. `Future` where the
/// cursor is above the newest revision, `Expired` where it is below the floor, which may be asked for itself.
pub fn page(
    alloc: Global,
    rows: &Rows,
    cursor: u64,
    namespaces: &Namespaces,
    commits: u32,
) -> Result<Page, Refusal>
    ensures ok { IfOk result (IsPage rows.now cursor namespaces.now commits) }
    ensures retained { OnOk result (IsRetained rows.now cursor) }
    ensures err { IfErr result (PageRefused rows.now cursor) }
{
    let newest = rows.newest();
    if newest < cursor {
        return Err(Refusal::Future);
    }
    if cursor < rows.floor() {
        return Err(Refusal::Expired);
    }
    let heartbeat = (cursor + u64::from(commits)).min(newest);
    let mut events = Vec::new(alloc);
    push_commits(
        &mut events,
        namespaces,
        cursor,
        rows.commits(cursor, heartbeat),
    )?;
    Ok(Page {
        events: Items::of(events),
        heartbeat,
    })
}

// Adds the events of commits, of which the first is of the revision above this one.
fn push_commits(
    events: &mut Vec<WatchedEvent>,
    namespaces: &Namespaces,
    above: u64,
    commits: &[KeptCommit],
) -> Result<(), AllocError>
    requires { above + length commits.now ≤ MAX_REV }
    ensures { OnOk result (events.new.items ≡ events.old.items ++ watched namespaces.now above commits.now) }
{
    let mut rev = above;
    for commit in commits {
        rev += 1;
        push_commit(events, namespaces, rev, commit)?;
    }
    Ok(())
}

// Adds the events of a commit. A configuration has none.
fn push_commit(
    events: &mut Vec<WatchedEvent>,
    namespaces: &Namespaces,
    rev: u64,
    commit: &KeptCommit,
) -> Result<(), AllocError>
    ensures { OnOk result (events.new.items ≡ events.old.items ++ watched_in namespaces.now rev commit.now) }
{
    match commit.events() {
        Some(kept) => push_events(events, namespaces, rev, kept),
        None => Ok(()),
    }
}

fn push_events(
    events: &mut Vec<WatchedEvent>,
    namespaces: &Namespaces,
    rev: u64,
    kept: &KeptEvents,
) -> Result<(), AllocError>
    ensures { OnOk result (events.new.items ≡ events.old.items ++ watched_of namespaces.now rev kept.now) }
{
    for i in 0..kept.len() {
        push_event(events, namespaces, rev, &kept.event(i))?;
    }
    Ok(())
}

fn push_event(
    events: &mut Vec<WatchedEvent>,
    namespaces: &Namespaces,
    rev: u64,
    kept: &KeptEvent<'_>,
) -> Result<(), AllocError>
    ensures { OnOk result (events.new.items ≡ events.old.items ++ watched_of namespaces.now rev (kept.now ∷ [])) }
{
    let event = kept.event();
    if namespaces.have(&event.tuple) {
        events.push(WatchedEvent { rev, event })?;
    }
    Ok(())
}
