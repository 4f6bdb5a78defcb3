//! A desk under a lock, and one worker of many: it asks a session with no lock, and holds the desk for its changes alone.
#![tactic(auto)]

mod builds;
mod deeds;
mod front;
mod law;
mod lock;
mod questions;

pub use builds::{ToldOfBuilds, make_indexes};
pub use deeds::{Deed, KeeperName, Place};
pub use front::Front;
pub use law::{what_is_shown_is_stored, what_was_shown_is_not_of_the_future};
pub use lock::{ChangeAsked, Closed, Keeper, KeptDesk, Opening};
pub use questions::{Asked, ask_again, ask_from};
