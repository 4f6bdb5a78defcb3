//! What a writer took, which only proofs see.
ghost use Rattle.std.specs.Prelude.{◌≡◌};
ghost use Rattle.std.specs.Borrow.{ftrue};
ghost use Rattle.tracked_io.specs.Wrote.{Taken, Took, nothing_taken};

use std::io::Write;
use std::marker::Model;

/// What the writer took so far. It takes no memory, and its methods do nothing when they run.
#[derive(Drop)]
pub struct WriteLog {
    pub ghost taken: { Taken },
}

impl Model for WriteLog {
    ghost also_owns = { λ _. ftrue };
}

impl WriteLog {
    /// Nothing, by this writer.
    pub fn new<W: Write>(_inner: &W) -> WriteLog
        ensures { result.taken ≡ nothing_taken (W.contents _inner.now) }
    {
        WriteLog {}
    }

    /// What was taken, and then these bytes.
    pub fn with(&self, _bytes: &[u8]) -> WriteLog
        ensures { Took self.now.taken result.taken _bytes.now }
    {
        WriteLog {}
    }
}
