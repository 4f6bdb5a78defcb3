//! Runs over lines, and desks that serve connections: what is answered from the tables of a store, over any tables, over a
//! database connection and so over a file; and what one run leaves to the next.
#![tactic(auto)]

mod files;
mod in_files;
mod law;
mod over;
mod running;
mod talking;

pub use files::{Left, close, find, leave};
pub use in_files::{find_blank, open_in, run_in, tables_in};
pub use law::next_run_goes_on;
pub use over::{open_over, run_over};
pub use running::run;
pub use talking::talk;
