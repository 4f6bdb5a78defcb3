//! Snapshots: a configuration and the tuples of one revision, and their changes.
#![tactic(auto)]

mod snapshot;

pub use snapshot::Snapshot;
