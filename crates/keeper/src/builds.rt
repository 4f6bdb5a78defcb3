//! Indexes that are made with no lock, and who is told of them.

use published::{Copied, MadeIndexes, Naming};
use std::alloc::Global;
use std::thread::Threads;

/// Who is told of group indexes that are made with no lock.
pub trait ToldOfBuilds {
    /// Indexes of this revision were made, and the lock is taken next.
    fn built(&self, rev: u64);
}

/// Nobody is told.
impl ToldOfBuilds for () {
    fn built(&self, _rev: u64) {}
}

/// Indexes of a snapshot that was copied, as far as there is memory for them. Who is to be told of them is.
pub fn make_indexes<J: Naming, W: Threads, B: ToldOfBuilds>(
    rt: &W,
    alloc: Global,
    builds: &B,
    copied: &Copied<J>,
) -> Option<MadeIndexes<J>> {
    let made = copied.index(rt, alloc).ok()?;
    builds.built(copied.rev());
    Some(made)
}
