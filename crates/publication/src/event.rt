//! What can happen to a published state, and what comes of it.

use config::Config;
use names::{Commit, Marking, Part};
use rows::Loaded;
use shown::{Question, Refused, Told};

/// One atomic action. A seat is the number of a session.
#[derive(Drop)]
pub enum Event {
    /// A commit is stored.
    Stored(Commit<Config>),
    /// A step is posted: it waits from then on to be published.
    Posted(Posting),
    /// So many of the posted steps that wait are published, the oldest first.
    Published(u32),
    /// The seat's session asks a question of what is published.
    Entered(u64, Question),
    /// The seat's session is told that so many steps are published.
    Notified(u64, u64),
}

/// Which step is posted. A commit's step has no commit of its own here: it is that of the oldest stored
/// commit whose step is not posted.
#[derive(Drop)]
pub enum Posting {
    /// The tables were opened.
    Opening(Loaded),
    /// The next stored commit.
    NextCommit,
    /// A part takes so many commits. It can be posted for 65,536 commits at most.
    Taking(Part, u32),
    /// The floor is raised to a revision above it that no cursor is below, in what is stored too.
    Trimming(u64),
    /// A node is marked, or its mark is taken away.
    Marking(Marking),
    /// The base of the group index is made anew, of a revision that is not below it.
    Rebasing(u64),
}

/// What comes of an event.
#[derive(Drop)]
pub enum Outcome {
    /// It cannot come now. Nothing has changed.
    No,
    /// It came.
    Done,
    /// The question was answered or refused by the standing of so many posted steps.
    Answered(u64, Result<Told, Refused>),
}
