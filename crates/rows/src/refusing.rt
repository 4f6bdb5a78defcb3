//! Whether a commit can follow.
ghost use Rattle.std.specs.Prelude.{◌≡◌, map, is_some, IfOk};
ghost use Rattle.names.specs.declared.commit.Commit.TheVariants.{Tuples};
ghost use Rattle.meaning.specs.Verdict.{config_cause};
ghost use Rattle.rows.specs.Retained.{newest_of};
ghost use Rattle.rows.specs.Ordered.{is_in_order, is_below};
ghost use Rattle.rows.specs.Follows.{touch_of, touch_kind, commit_cause};

use crate::rows::Rows;
use config::Config;
use names::limits::MAX_REV;
use names::{Commit, Event, EventKind, Op, OpKind};
use std::alloc::{AllocError, Global};

impl Rows {
    /// Whether no write and no configuration that is accepted at the newest revision gives the commit.
    pub fn refuses(&self, commit: &Commit<Config>) -> Result<bool, AllocError>
        ensures { IfOk result (λ yes. yes ≡ is_some (commit_cause (newest_of self.now) commit.now)) }
    {
        match commit {
            Commit::Tuples(events) => self.refuses_events(events.as_slice()),
            Commit::Config(config) => Ok(self.refuses_config(config)),
        }
    }

    fn refuses_events(&self, events: &[Event]) -> Result<bool, AllocError>
        ensures { IfOk result (λ yes. yes ≡ is_some (commit_cause (newest_of self.now) (Tuples events.now))) }
    {
        if !is_in_order(events) {
            return Ok(true);
        }
        let ops = touches_of(self.alloc(), events)?;
        Ok(self.write_cause(&ops).is_some())
    }

    fn refuses_config(&self, config: &Config) -> bool
        ensures { result ≡ is_some (config_cause (newest_of self.now) config.now) }
    {
        let tuple = self.tuple_in_the_way(config);
        tuple.is_some() || self.newest() + 1 > MAX_REV
    }
}

/// Whether the events are in the order of their tuples, with no tuple twice.
fn is_in_order(events: &[Event]) -> bool
    ensures { result ≡ is_in_order events.now }
{
    for i in 0..events.len() {
        if !is_below(&events[i], &events[i + 1..]) {
            return false;
        }
    }
    true
}

fn is_below(event: &Event, others: &[Event]) -> bool
    ensures { result ≡ is_below event.now others.now }
{
    match others.first() {
        Some(next) => event.tuple.cmp(&next.tuple).is_lt(),
        None => true,
    }
}

/// The operations that give the events and ask least.
fn touches_of(alloc: Global, events: &[Event]) -> Result<Vec<Op>, AllocError>
    ensures { IfOk result (λ ops. ops.items ≡ map touch_of events.now) }
{
    let mut ops = Vec::with_capacity(alloc, events.len())?;
    for event in events {
        ops.push(touch_of(event)?)?;
    }
    Ok(ops)
}

fn touch_of(event: &Event) -> Result<Op, AllocError>
    ensures { IfOk result (λ op. op ≡ touch_of event.now) }
{
    Ok(Op {
        kind: touch_kind(event.kind),
        tuple: event.tuple.clone()?,
    })
}

fn touch_kind(kind: EventKind) -> OpKind
    ensures { result ≡ touch_kind kind }
{
    match kind {
        EventKind::Put => OpKind::Touch,
        EventKind::Del => OpKind::Delete,
    }
}
