//! The state that questions are asked of: what a list of steps leaves, how a step changes it, and how a
//! change is judged on it.
#![tactic(auto)]

mod answer;
mod asking;
mod groups;
mod index_at;
mod known;
mod marks;
mod members;
mod question;
mod shown;
mod step;
mod subjects;

pub use answer::{Answer, Refused};
pub use index_at::IndexAt;
pub use question::{Depth, Objects, Question, Told};
pub use shown::Shown;
pub use step::Step;
