//! Rows, read.

use crate::placed_event::PlacedEvent;
use crate::tuple_key::TupleKey;
use config::Config;
use names::Tuple;
use tuple_keys::KeptCommit;

/// The revisions from which and before which a tuple is there; `removed` is 0 while it still is.
#[derive(Debug, PartialEq, Eq, PartialOrd, Ord, Drop)]
pub(crate) struct ReadSpan {
    pub(crate) tuple: TupleKey,
    pub(crate) added: u64,
    pub(crate) removed: u64,
}

/// Spans, taken apart: the tuples at the floor, and the events of each revision above it, oldest first.
#[derive(Debug, Drop)]
pub(crate) struct Placed {
    pub(crate) tuples: Vec<Tuple>,
    pub(crate) slots: Vec<Vec<PlacedEvent>>,
}

/// The tuples at the floor, and the commits above it, oldest first.
#[derive(Debug, Drop)]
pub(crate) struct Parts {
    pub(crate) tuples: Vec<Tuple>,
    pub(crate) commits: Vec<KeptCommit>,
}

/// A configuration, and the revision that it has been in force from.
#[derive(Debug, Drop)]
pub(crate) struct ReadConfig {
    pub(crate) rev: u64,
    pub(crate) config: Config,
}

/// The store's number, and the least and the greatest revision that are retained.
#[derive(Clone, Copy, Debug)]
pub(crate) struct Head {
    pub(crate) number: u64,
    pub(crate) floor: u64,
    pub(crate) newest: u64,
}
