//! The tables of a store over `sqlite`: each commit is one transaction, and what they hold is read as a history.
//!
//! The rows keep spans of revisions of tuples, configurations with their revisions, and four numbers. Which rows
//! are a history, and which history they are, is said in `specs/Written`.
#![tactic(auto)]

mod committing;
mod configs;
mod head;
mod history;
mod kinds;
mod parts;
mod placed_event;
mod placing;
mod reading;
mod spans;
mod store;
mod texts;
mod tuple_key;
mod unread;

pub use reading::read;
pub use store::Store;
