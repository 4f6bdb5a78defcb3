//! A session's answers of checks: at most 1,024, kept by revision, node and user. What is kept of a revision
//! stays right, since no later step changes its snapshot.
#![tactic(auto)]

mod at;
mod cached;
mod law;
mod marks;
mod question;

pub use at::At;
pub use cached::{CAPACITY, CachedAnswers};
pub use law::answers_stay;
pub use question::Question;
