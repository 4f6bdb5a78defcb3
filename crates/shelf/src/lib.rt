//! Texts in order, each with a value, packed in blocks.
#![tactic(auto)]

mod block;
mod filling;
mod finding;
mod removing;
mod texts;
mod walk;

pub use texts::Shelf;
pub use walk::Walk;
