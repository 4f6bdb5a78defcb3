//! Steps.

use names::{Marking, Part};
use rows::Loaded;
use tuple_keys::KeptCommit;

/// One change of the state.
#[derive(Debug, Drop)]
pub enum Step {
    /// The tables were opened. It is the first step, and comes once.
    Open(Loaded),
    /// A commit was stored.
    Commit(KeptCommit),
    /// A part took so many commits more, or as many as there were.
    Take(Part, u32),
    /// The floor was raised to a revision above it that no cursor is below.
    Trim(u64),
    /// A node was marked, or its mark was taken away.
    Marking(Marking),
    /// The base of the group index was made anew, of a revision that is not below it.
    Rebase(u64),
}
