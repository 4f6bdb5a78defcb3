//! Whether what was loaded can be opened.
ghost use Rattle.std.specs.Prelude.{◌≡◌, ◌+◌, ◌<◌, IfOk, IfSome, IfNone, length, nat_le};
ghost use Rattle.std.specs.List.{list_all};
ghost use Rattle.meaning.specs.History.{puts_in, commit_rows, rows_of};
ghost use Rattle.rows.specs.Ordered.{is_in_order, is_ordered};
ghost use Rattle.publication.specs.World.{is_below, is_rising, is_limited, is_within};

use crate::admitted::are_admitted;
use names::limits::{MAX_REV, MAX_ROWS};
use names::{EventKind, Tuple};
use rows::Loaded;
use std::alloc::{AllocError, Global};
use tuple_keys::{KeptCommit, KeptEvents};

/// Whether the tuples are in order, each once, there are no more revisions and rows than a store may have, each
/// commit's events are in order, and each revision's tuples are admitted.
pub(crate) fn is_within(alloc: Global, loaded: &Loaded) -> Result<bool, AllocError>
    ensures { IfOk result (λ yes. yes ≡ is_within loaded.now) }
{
    if !is_limited(loaded) || !are_ordered(loaded.commits.as_slice()) {
        return Ok(false);
    }
    are_admitted(alloc, loaded)
}

fn is_limited(loaded: &Loaded) -> bool
    ensures { result ≡ is_limited loaded.now }
{
    let tuples = loaded.tuples.as_slice();
    let commits = loaded.commits.as_slice();
    if !is_rising(tuples) || !has_few_revisions(loaded.floor, commits) {
        return false;
    }
    has_few_rows(tuples.len() as u64, commits)
}

fn is_rising(tuples: &[Tuple]) -> bool
    ensures { result ≡ is_rising tuples.now }
{
    for i in 0..tuples.len() {
        if !is_below(&tuples[i], &tuples[i + 1..]) {
            return false;
        }
    }
    true
}

fn is_below(tuple: &Tuple, others: &[Tuple]) -> bool
    ensures { result ≡ is_below tuple.now others.now }
{
    match others.first() {
        Some(next) => tuple.cmp(next).is_lt(),
        None => true,
    }
}

fn has_few_revisions(floor: u64, commits: &[KeptCommit]) -> bool
    ensures { result ≡ nat_le (floor + length commits.now) MAX_REV }
{
    let count = commits.len() as u64;
    floor <= MAX_REV && count <= MAX_REV - floor
}

/// Whether so many rows and those of the commits are no more than a store may have.
fn has_few_rows(rows: u64, commits: &[KeptCommit]) -> bool
    ensures { result ≡ nat_le (rows + rows_of commits.now) MAX_ROWS }
{
    if rows > MAX_ROWS {
        return false;
    }
    let mut room = MAX_ROWS - rows;
    for commit in commits {
        match room_after(commit, room) {
            Some(left) => room = left,
            None => return false,
        }
    }
    true
}

/// How many more rows there is room for after the commit, if it has room.
fn room_after(commit: &KeptCommit, room: u64) -> Option<u64>
    ensures some { IfSome result (λ left. left + commit_rows commit.now ≡ room) }
    ensures none { IfNone result (room < commit_rows commit.now) }
{
    match commit.events() {
        Some(events) => room_after_events(events, room),
        None => Some(room),
    }
}

fn room_after_events(events: &KeptEvents, room: u64) -> Option<u64>
    ensures some { IfSome result (λ left. left + puts_in events.now ≡ room) }
    ensures none { IfNone result (room < puts_in events.now) }
{
    let mut left = room;
    for i in 0..events.len() {
        if events.event(i).kind() == EventKind::Put {
            if left == 0 {
                return None;
            }
            left -= 1;
        }
    }
    Some(left)
}

fn are_ordered(commits: &[KeptCommit]) -> bool
    ensures { result ≡ list_all is_ordered commits.now }
{
    for commit in commits {
        if !is_ordered(commit) {
            return false;
        }
    }
    true
}

/// Whether the commit is a configuration, or there is an event in it and all are in order.
fn is_ordered(commit: &KeptCommit) -> bool
    ensures { result ≡ is_ordered commit.now }
{
    match commit.events() {
        Some(events) => !events.is_empty() && is_in_order(events),
        None => true,
    }
}

/// Whether the events are in the order of their tuples, with no tuple twice.
fn is_in_order(events: &KeptEvents) -> bool
    ensures { result ≡ is_in_order events.now }
{
    for i in 1..events.len() {
        let last = events.event(i - 1);
        if !events.event(i).tuple_ref().is_later(last.tuple_ref()) {
            return false;
        }
    }
    true
}
