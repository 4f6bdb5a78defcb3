//! What the snapshot of a revision tells of its nodes: for each node asked its level, its rule over the nodes that
//! its rewrite looks up, and the users of its own tuples, by numbers that nodes and users get when they are first seen.
//! It is the graph whose least sets are the memberships.
#![tactic(auto)]

mod asking;
mod joining;
mod numbering;
mod numbers;
mod reading;
mod rules;
mod telling;
mod valid;

pub use asking::ViewFacts;
pub use numbering::number_of;
pub use numbers::Numbers;
pub use valid::each_view_is_valid;
