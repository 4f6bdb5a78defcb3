//! What a commit adds to the history.

use crate::{Items, Tuple};

/// Whether an event puts its tuple or takes it away.
#[derive(Clone, Copy, Debug, PartialEq, Eq, PartialOrd, Ord)]
pub enum EventKind {
    Put,
    Del,
}

/// What happened to one tuple at one revision. Events are ordered by tuple.
#[derive(Clone, Debug, PartialEq, Eq, PartialOrd, Ord, Drop)]
pub struct Event {
    pub tuple: Tuple,
    pub kind: EventKind,
}

/// One step of the history: events on distinct tuples, in the order of the tuples, or a configuration.
/// `C` is a configuration.
#[derive(Debug, Drop)]
pub enum Commit<C> {
    Tuples(Items<Event>),
    Config(C),
}
