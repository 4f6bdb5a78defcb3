//! Userset trees.
use names::{Node, Object};

/// A userset tree (Zanzibar, section 2.4). Contracts see it through `tree_of`, as plain data.
#[derive(Drop)]
pub enum Tree {
    /// A userset, with the tree of its rewrite.
    Opened(Node, Box<Tree>),
    /// An object.
    One(Object),
    /// A userset whose tree is left out.
    Closed(Node),
    /// Some part.
    Union(Vec<Tree>),
    /// Each part.
    Intersection(Vec<Tree>),
    /// The first, and not the second.
    Exclusion(Box<Tree>, Box<Tree>),
}
