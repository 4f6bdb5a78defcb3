//! Member sets of marked nodes, kept up to their cursor: of each marked node and all that it depends on, who is a
//! member of it at one revision. After a commit only what it touches is asked for and solved anew. What was told of a node is
//! remembered and follows each event on a user, so that few nodes are read again. No tuple is kept.
#![tactic(auto)]

mod changed;
mod following;
mod hot;
mod known;
mod members;
mod nodes;
mod numbering;
mod recalling;
mod remembering;
mod renewing;

pub use hot::Hot;
pub use known::Known;
pub use nodes::{CountedNodes, ViewNodes};
