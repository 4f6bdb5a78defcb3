//! What a history is made from, and how large it is.

use config::Config;
use names::{Items, Tuple};
use tuple_keys::KeptCommit;

/// What tables held when they were opened.
#[derive(Debug, Drop)]
pub struct Loaded {
    /// The store's number.
    pub number: u64,
    /// The least revision that is retained.
    pub floor: u64,
    /// The configuration at the floor.
    pub config: Config,
    /// The tuples at the floor, in order.
    pub tuples: Items<Tuple>,
    /// The commits above the floor, oldest first.
    pub commits: Items<KeptCommit>,
}

/// How large a history is.
#[derive(Clone, Copy, Debug, PartialEq, Eq)]
pub struct Counts {
    /// The retained spans of revisions, each of one tuple.
    pub rows: u64,
    /// The tuples at the newest revision.
    pub tuples: u64,
}
