//! The desk of one store: changes are judged, stored, posted and published, and sessions are given out that are
//! answered by what is published of the posted steps.
#![tactic(auto)]

mod change;
mod desk;
mod latched_tables;
mod opening;
mod storing;

pub use change::{Change, Changed, Made};
pub use desk::{Desk, Posted};
