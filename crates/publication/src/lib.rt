//! Publication as a pure machine: which events can come, what each does and answers, and what holds after any of them. It is
//! what a desk and its sessions do, told in one place without tables, locks or threads; no program runs it.
#![tactic(auto)]

mod admitted;
mod copies;
mod event;
mod law;
mod within;
mod world;

pub use event::{Event, Outcome, Posting};
pub use law::{answers_rise, opens_what_is_within, posts_stored, trims_keep_what_they_retain};
pub use world::World;
