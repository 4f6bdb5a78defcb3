//! Where a store's history is stored: what tables hold, what a change may leave of it, also after a crash, that they
//! fail only where the device below them does, and how often; and tables in memory.
#![tactic(auto)]

mod change;
mod copy;
mod listed;
mod puts;
mod tables;

pub use change::TableChange;
pub use listed::Listed;
pub use puts::{Puts, puts_of};
pub use tables::{Tables, TablesError};
