//! Marks.

use crate::Node;

/// What is asked of the table of hot nodes.
#[derive(Debug, Drop)]
pub enum Marking {
    /// The node is marked: its members are to be kept.
    Mark(Node),
    /// The node is marked no longer.
    Unmark(Node),
}
