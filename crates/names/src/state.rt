//! The numbers of a state.

/// Revisions, and how large the history is.
#[derive(Clone, Copy, Debug, PartialEq, Eq)]
pub struct State {
    /// The revision of the group index's base.
    pub base: u64,
    /// The least revision that is retained.
    pub floor: u64,
    /// The revision up to which the hot table has read.
    pub hot: u64,
    /// The revision up to which the group index has read.
    pub index: u64,
    /// The nodes that are marked.
    pub marked: u64,
    /// The newest revision.
    pub newest: u64,
    /// The retained spans of revisions, each of one tuple.
    pub rows: u64,
    /// The tuples at the newest revision.
    pub tuples: u64,
}
