//! The published state: the standing of the steps that are shown, in two copies, which sessions ask with no
//! lock while the next steps are published.
#![tactic(auto)]

mod book;
mod copy;
mod hand;
mod law;
mod made;
mod post;
mod publication;
mod publisher;
mod receipt;
mod remembered;
mod rule;
mod session;

pub use book::{Book, Naming, Opened, StepPrefix};
pub use law::revisions_rise;
pub use made::{Copied, MadeIndexes};
pub use publication::{MAX_SESSIONS, Publication};
pub use receipt::{Receipt, ShownSteps};
pub use session::Session;
