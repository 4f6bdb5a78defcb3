//! Changes of the history that tables hold.

use crate::puts::Puts;
use tuple_keys::KeptCommit;

/// One change of the history that tables hold, and what they would otherwise have to look up for it.
#[derive(Drop)]
pub enum TableChange {
    /// A commit more, at the next revision.
    Commit {
        rev: u64,
        commit: KeptCommit,
        puts: Puts,
    },
    /// The floor raised to a revision that is retained: what no revision from it on looks at goes. `first` is the
    /// revision of the last configuration that comes to be below or at the floor, or 0 where none does.
    Trim {
        floor: u64,
        first: u64,
    },
}
