//! The program `zanz` but for its `main`: what its words ask for is done, and what went wrong is told.
#![tactic(auto)]

mod command;
mod host;
mod listening;
mod place;
mod process;
mod serving;
mod sharing;
mod telling;

pub use host::Host;
pub use process::{Closed, program};
