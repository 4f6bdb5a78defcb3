//! Snapshots of retained revisions.
ghost use Rattle.std.specs.Prelude.{◌≡◌, IfOk};
ghost use Rattle.meaning.specs.TupleSet as set;

use config::Config;
use names::Tuple;
use snapshots::Snapshot;
use std::alloc::{AllocError, Global};

/// The snapshot of a configuration and copies of tuples.
pub(crate) fn snapshot_of(
    alloc: Global,
    config: Config,
    tuples: &[Tuple],
) -> Result<Snapshot, AllocError>
    ensures { IfOk result (λ s. s ≡ record { config = config; tuples = set.from_list tuples.now }) }
{
    let mut snapshot = Snapshot::empty(alloc);
    snapshot.set_config(config);
    for tuple in tuples {
        snapshot.insert(copy_of(tuple)?)?;
    }
    Ok(snapshot)
}

fn copy_of(tuple: &Tuple) -> Result<Tuple, AllocError>
    ensures { IfOk result (λ t. t ≡ tuple.now) }
{
    tuple.clone()
}
