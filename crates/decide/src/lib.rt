//! Whether a user is a member of a node, at the cost of what the question reaches: a local least fixed
//! point (Liu and Smolka, "Simple linear-time algorithms for minimal fixed points", ICALP 1998), level by
//! level. A node is opened once, waits for nodes that are open, and is looked at again when one of them has
//! the user.
#![tactic(auto)]

mod asker;
mod asking;
mod cuts;
mod deciding;
mod facts;
mod law;
mod numbers;
mod oracle;
mod read_tuple;
mod reads;
mod rewrites;
mod search;
mod waiting;

pub use asker::Asker;
pub use deciding::check_at;
pub use law::there_is_one_answer;
pub use oracle::{Nothing, Oracle};
