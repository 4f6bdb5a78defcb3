//! The userset tree of a node (Zanzibar, section 2.4): its rewrite, with the leaves filled from the tuples, as far as its depth lets
//! usersets be opened.
#![tactic(auto)]

mod expanding;
mod law;
mod limits;
mod tree;
mod valid;
mod walk;

pub use expanding::expand_at;
pub use law::a_tree_means_its_members;
pub use limits::{MAX_DEPTH, MAX_TREE_NODES};
pub use tree::Tree;
