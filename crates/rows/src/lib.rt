//! The history of a store: the versions of each tuple, and the commits above the floor. It is asked at any
//! retained revision.
#![tactic(auto)]

mod committed;
mod config_at;
mod events;
mod law;
mod loaded;
mod page;
mod refusing;
mod rows;
mod tupleset;
mod twice;
mod verdict;
mod view;

pub use events::events_of;
pub use law::{
    refuses_what_no_write_gives, revisions_hold_what_their_commits_give, what_follows_has_room,
};
pub use loaded::{Counts, Loaded};
pub use rows::Rows;
pub use tupleset::{MAX_PAGE, Tupleset};
pub use view::View;
