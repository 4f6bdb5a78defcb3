//! What is watched, and what a watcher is told.
ghost use Rattle.std.specs.Prelude.{◌≡◌};
ghost use Rattle.watch.specs.Watched.{is_watched, is_among};

use names::{Event, Items, Name, Tuple};

/// Whose tuples are watched.
#[derive(Debug, Drop)]
pub enum Namespaces {
    All,
    /// The objects of these namespaces. A name that stands twice means no more than one that stands once.
    These(Items<Name>),
}

/// What happened to one tuple, and the revision of its commit.
#[derive(Debug, Drop)]
pub struct WatchedEvent {
    pub rev: u64,
    pub event: Event,
}

/// The events of some whole commits: by revision, and those of one revision by tuple.
#[derive(Debug, Drop)]
pub struct Page {
    pub events: Items<WatchedEvent>,
    /// The revision of the last of the commits: the cursor of the next page.
    pub heartbeat: u64,
}

impl Namespaces {
    /// Whether the tuple's object is of one of the namespaces.
    pub fn have(&self, tuple: &Tuple) -> bool
        ensures { result ≡ is_watched self.now tuple.now }
    {
        match self {
            Namespaces::All => true,
            Namespaces::These(names) => is_among(names.as_slice(), &tuple.node.object.namespace),
        }
    }
}

fn is_among(names: &[Name], namespace: &Name) -> bool
    ensures { result ≡ is_among names.now namespace.now }
{
    names.contains(namespace)
}
