//! The tables of a store over `sqlite`: three tables, what each fixed statement does to them, and the
//! transactions that create, write, configure and trim a store.
//!
//! A connection's tables are seen as their contents: spans of revisions of tuples, configurations with their
//! revisions, and the values of the state. Which contents are the history of a store is not decided here.
#![tactic(auto)]

mod commit;
mod format;
mod loading;
mod parameters;
mod probe;
mod statement;
mod stored;

pub use commit::{configure, create, trim, write};
pub use format::{is_blank, is_format};
pub use loading::load;
pub use probe::{Probe, ask};
pub use stored::{
    SpanChange, Stored, StoredConfig, StoredEntry, StoredEvent, StoredSpan, TupleText,
};
