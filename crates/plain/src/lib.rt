//! Memberships by their definition: a slow and plain program, which decides each node of a level until
//! nothing is gained, level by level. Tests alone ask it.
#![tactic(auto)]

mod levels;
mod membership;
mod rewrites;
mod rounds;
mod source;

pub use membership::{check, members};
