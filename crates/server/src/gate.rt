//! What the owner of a server is asked and told.

use keeper::ToldOfBuilds;

/// The owner's view of a server that runs. Its methods are called from many threads. It is told of group indexes that are made
/// with no lock, for a call or for the indexer.
pub trait Gate: ToldOfBuilds {
    /// Whether one more connection is to be accepted, after so many. It is asked before the first accept and after each;
    /// a server that waits for a connection asks once that one has come.
    fn more(&self, accepted: u64) -> bool;

    /// A call begins to be answered.
    fn enter(&self, call: u64);

    /// Its answer is made.
    fn leave(&self, call: u64);
}
