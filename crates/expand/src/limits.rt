//! The limits of a tree.

/// The greatest depth: so many nodes may be open on a path. The least is 1.
pub const MAX_DEPTH: u8 = 8;
/// The most nodes of a tree.
pub const MAX_TREE_NODES: usize = 4_096;
