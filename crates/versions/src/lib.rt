//! The versions of each tuple, and the events and commits that make them, with each tuple as one text.
#![tactic(auto)]

mod change;
mod few;
mod lists;
mod named;
mod places;
mod tuples;
mod version;
mod version_map;
mod versioning;

pub use change::Change;
pub use tuples::Tuples;
pub use version::Version;
pub use version_map::VersionMap;
