//! What a desk is asked to change, and what is told of it.

use config::Config;
use names::{Marking, Part, Write};
use published::Receipt;
use zookie::Zookie;

/// A change that a desk is asked to make.
#[derive(Drop)]
pub enum Change {
    /// These operations, if the conditions hold.
    Write(Write<Zookie>),
    /// This configuration in the place of the one before.
    Config(Config),
    /// The floor at this revision, where it is lower.
    Trim(Zookie),
    /// So many commits more for a part, or as many as there are.
    CatchUp(Part, u64),
    /// A node marked, or its mark taken away.
    Mark(Marking),
    /// The base of the group index at the newest posted revision.
    Rebuild,
}

/// What is told of a change that was made, beside its receipt.
#[derive(Drop)]
pub enum Made {
    /// Nothing: the receipt names the revision that a write or a configuration made.
    Commit,
    /// The floor's revision.
    Floor(u64),
    /// The revision up to which a part has read the commits, once all that is posted is shown.
    Cursor(u64),
    /// How many nodes are marked.
    Marked(u64),
    /// The revision of the base.
    Base(u64),
}

/// A change that was made. The receipt of one that makes no revision names the newest shown one.
#[derive(Drop)]
pub struct Changed {
    pub made: Made,
    pub receipt: Receipt,
}
