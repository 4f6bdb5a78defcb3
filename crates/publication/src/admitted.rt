//! Whether what was loaded has at each revision only tuples that its configuration admits.
ghost use Rattle.std.specs.Prelude.{◌≡◌, IfOk, OnOk};
ghost use Rattle.meaning.specs.TupleSet as set;
ghost use Rattle.meaning.specs.History.{after_event, replay, after_commit};
ghost use Rattle.rows.specs.Loads.{retained_of};
ghost use Rattle.publication.specs.World.{is_admitted, are_admitted};

use crate::copies::snapshot_of;
use config::Config;
use names::{Commit, Event, EventKind};
use rows::Loaded;
use snapshots::Snapshot;
use std::alloc::{AllocError, Global};

/// Whether each retained revision's tuples are admitted. It looks at all of them again after each commit.
pub(crate) fn are_admitted(alloc: Global, loaded: &Loaded) -> Result<bool, AllocError>
    ensures { IfOk result (λ yes. yes ≡ are_admitted (retained_of loaded.now).base loaded.now.commits) }
{
    let commits = loaded.commits.as_slice();
    let config = loaded.config.again(alloc)?;
    let mut snapshot = snapshot_of(alloc, config, loaded.tuples.as_slice())?;
    for commit in commits {
        if !is_admitted(&snapshot) {
            return Ok(false);
        }
        do_commit(alloc, &mut snapshot, &commit.commit(alloc)?)?;
    }
    Ok(is_admitted(&snapshot))
}

fn is_admitted(snapshot: &Snapshot) -> bool
    ensures { result ≡ is_admitted snapshot.now }
{
    snapshot.first_not_admitted(snapshot.config()).is_none()
}

fn do_commit(
    alloc: Global,
    snapshot: &mut Snapshot,
    commit: &Commit<Config>,
) -> Result<(), AllocError>
    ensures { OnOk result (snapshot.new ≡ after_commit snapshot.old commit.now) }
{
    match commit {
        Commit::Tuples(events) => do_events(snapshot, events.as_slice()),
        Commit::Config(config) => {
            snapshot.set_config(config.again(alloc)?);
            Ok(())
        }
    }
}

fn do_events(snapshot: &mut Snapshot, events: &[Event]) -> Result<(), AllocError>
    ensures { OnOk result (snapshot.new ≡ record snapshot.old { tuples = replay snapshot.old.tuples events.now }) }
{
    for event in events {
        do_event(snapshot, event)?;
    }
    Ok(())
}

fn do_event(snapshot: &mut Snapshot, event: &Event) -> Result<(), AllocError>
    ensures { OnOk result (snapshot.new ≡ record snapshot.old { tuples = after_event snapshot.old.tuples event.now }) }
{
    match event.kind {
        EventKind::Put => snapshot.insert(event.tuple.clone()?),
        EventKind::Del => {
            snapshot.remove(&event.tuple);
            Ok(())
        }
    }
}
