//! Tuples, found by whom they name: the nodes that have a tuple with an object as its subject, or with the members
//! of a node.
#![tactic(auto)]

mod by_subject;
mod forgetting;
mod law;
mod limits;
mod reading;
mod turning;
mod view_by_subject;

pub use by_subject::BySubject;
pub use law::{it_is_complete_without_the_newest_commit, what_is_retained_is_found};
pub use limits::most_for;
pub use view_by_subject::ViewBySubject;
