//! What changed between two revisions, in whole commits, so that a search index or an audit log can be kept
//! beside the store (Zanzibar, section 2.4.3).
#![tactic(auto)]

mod law;
mod limits;
mod pages;
mod watched;

pub use law::{replayed_events_give_the_tuples, replayed_events_give_what_is_watched};
pub use limits::{MAX_COMMITS, MAX_NAMES};
pub use pages::page;
pub use watched::{Namespaces, Page, WatchedEvent};
