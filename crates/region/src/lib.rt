//! Members of nodes that are kept, and refreshed after a change: what the change touches is asked for and
//! solved anew, and nothing else is.
#![tactic(auto)]

mod eval;
mod filling;
mod found;
mod gathering;
mod members;
mod refreshing;
mod rule;
mod sets;
mod solve;
mod sweeping;
mod touched;

pub use gathering::{Facts, Region, gather};
pub use refreshing::{fill, refresh, sweep};
pub use rule::{Rule, Told};
pub use sets::{Row, Sets};
