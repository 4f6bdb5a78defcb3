//! The tuples at the floor and the commits above it, from rows.
ghost use Rattle.std.specs.Prelude.{◌≡◌, ◌≤◌, ◌<◌, ◌+◌, nat_le, map, length, IfOk, IfErr, All};
ghost use Rattle.std.specs.List.Sorted.{IsStrictlySortedBy};
ghost use Rattle.names.specs.Order.{tuple_cmp};
ghost use Rattle.meaning.specs.History.{rows_of, commit_rows, puts_in};
ghost use Rattle.store.specs.Written.{IsSpan, commits_of, config_at, tuples_alive};
ghost use Rattle.store.specs.inside.Moves.{tuples_in, IsCommitAt, IsCommitOf};
ghost use Rattle.store.specs.inside.Reading.{as_written, as_span, as_config, AreInTurn, Rise};
ghost use Rattle.store.specs.Refused.{DeservedBy, IsWholeAbove, IsWholeAt};

use crate::configs::config_at;
use crate::parts::{Head, Parts, Placed, ReadConfig, ReadSpan};
use crate::placed_event::{PlacedEvent, events_in};
use crate::placing::{place_spans, take_events};
use crate::unread::Unread;
use config::Config;
use names::EventKind;
use names::limits::MAX_ROWS;
use std::alloc::Global;
use tuple_keys::{KeptCommit, KeptEvents};

fn config_commit(
    alloc: Global,
    config: &Config,
    events: &[PlacedEvent],
) -> Result<KeptCommit, Unread>
    ensures is { IfOk result (IsCommitOf (Some config.now) events.now) }
    ensures fault { IfErr result (DeservedBy (length events.now ≡ 0)) }
{
    if events.len() != 0 {
        return Err(Unread::Fault);
    }
    Ok(KeptCommit::of_config(alloc, config.again(alloc)?)?)
}

fn tuples_commit(alloc: Global, events: &[PlacedEvent]) -> Result<KeptCommit, Unread>
    requires { IsStrictlySortedBy tuple_cmp (tuples_in events.now) }
    ensures is { IfOk result (IsCommitOf None events.now) }
    ensures fault { IfErr result (DeservedBy (0 < length events.now)) }
{
    if events.len() == 0 {
        return Err(Unread::Fault);
    }
    let events = events_in(alloc, events)?;
    Ok(KeptCommit::of_events(alloc, &events)?)
}

// The commit of a revision with these events.
fn commit_at(
    alloc: Global,
    configs: &[ReadConfig],
    rev: u64,
    events: Vec<PlacedEvent>,
) -> Result<KeptCommit, Unread>
    requires sorted { IsStrictlySortedBy tuple_cmp (tuples_in events.items) }
    requires rise { Rise configs.now }
    ensures is { IfOk result (IsCommitAt rev (config_at rev (map as_config configs.now)) events.items) }
    ensures fault { IfErr result (DeservedBy (IsWholeAt rev configs.now events.items)) }
{
    match config_at(configs, rev) {
        Some(config) => config_commit(alloc, config, &events),
        None => tuples_commit(alloc, &events),
    }
}

/// The tuples at the floor, and one commit for each revision above it.
pub(crate) fn read_parts(
    alloc: Global,
    head: Head,
    configs: &[ReadConfig],
    spans: Vec<ReadSpan>,
) -> Result<Parts, Unread>
    requires order { head.floor ≤ head.newest }
    requires spans { All (λ s. IsSpan head.floor head.newest (as_span s)) spans.items }
    requires apart { AreInTurn spans.items }
    requires rise { Rise configs.now }
    ensures tuples { IfOk result (λ p. p.tuples.items ≡ tuples_alive head.floor (map as_span spans.items)) }
    ensures commits { IfOk result (λ p. p.commits.items ≡ commits_of (as_written head spans.items configs.now)) }
    ensures whole { IfOk result (λ _. IsWholeAbove (as_written head spans.items configs.now)) }
    ensures fault { IfErr result (DeservedBy (IsWholeAbove (as_written head spans.items configs.now))) }
{
    let Placed { tuples, mut slots } = place_spans(alloc, head, spans)?;
    let mut commits = Vec::new(alloc);
    for i in 0..(head.newest - head.floor) as usize {
        let events = take_events(alloc, &mut slots, i);
        let rev = head.floor + (i as u64 + 1);
        commits.push(commit_at(alloc, configs, rev, events)?)?;
    }
    Ok(Parts { tuples, commits })
}

fn puts_in(events: &KeptEvents) -> usize
    ensures { result ≡ puts_in events.now }
{
    let mut puts = 0;
    for i in 0..events.len() {
        match events.event(i).kind() {
            EventKind::Put => puts += 1,
            EventKind::Del => {}
        }
    }
    puts
}

fn commit_rows(commit: &KeptCommit) -> usize
    ensures { result ≡ commit_rows commit.now }
{
    match commit.events() {
        Some(events) => puts_in(events),
        None => 0,
    }
}

/// Whether so many tuples at the floor and the puts of the commits are within the limit.
pub(crate) fn has_room(tuples: usize, commits: &[KeptCommit]) -> bool
    ensures { result ≡ nat_le (tuples + rows_of commits.now) MAX_ROWS }
{
    let most = MAX_ROWS as usize;
    if most < tuples {
        return false;
    }
    let mut left = most - tuples;
    for commit in commits {
        let rows = commit_rows(commit);
        if left < rows {
            return false;
        }
        left -= rows;
    }
    true
}
