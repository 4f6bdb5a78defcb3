//! Calls by bytes: what a desk and a session of it do for each, and what is answered.
#![tactic(auto)]

mod answer;
mod answering_desk;
mod asking;
mod changes;
mod law;
mod questions;
mod steps;

pub use answer::answer_on;
pub use answering_desk::Answering;
pub use asking::is_of_the_future;
pub use changes::{change_of, is_change, made_reply};
pub use law::failed_desks_make_no_change;
pub use questions::{question_of, told_reply};
pub use steps::changing::change_on;
