//! Parts.

/// One of the two parts that follow the history by cursors of their own.
#[derive(Clone, Copy, Debug, PartialEq, Eq)]
pub enum Part {
    /// The index of groups.
    Index,
    /// The table of marked nodes.
    Hot,
}
