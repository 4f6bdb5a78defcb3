//! The reads of a reader, which only proofs see.
ghost use Rattle.std.specs.Prelude.{◌≡◌, List, []};
ghost use Rattle.std.specs.Borrow.{ftrue};
ghost use Rattle.tracked_io.specs.Waiting.{OneRead, with_read};

use crate::write_log::WriteLog;
use std::marker::Model;

/// Each read so far. It takes no memory, and its methods do nothing when they run.
#[derive(Drop)]
pub struct ReadLog {
    pub ghost reads: { List OneRead },
}

impl Model for ReadLog {
    ghost also_owns = { λ _. ftrue };
}

impl ReadLog {
    /// No reads.
    pub fn new() -> ReadLog
        ensures { result.reads ≡ [] }
    {
        ReadLog {}
    }

    /// These reads, and then one that was lent a writer that had taken this, and gave the bytes.
    pub fn with(&self, _held: &WriteLog, _gave: &[u8]) -> ReadLog
        ensures { result.reads ≡ with_read self.now.reads _held.now.taken _gave.now }
    {
        ReadLog {}
    }
}
