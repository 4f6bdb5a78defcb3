//! A reader of which it is known whether it failed, and what had been handed on at each read.
ghost use Rattle.std.specs.Prelude.{◌≡◌, ◌≢◌, ◌^◌, ◌<◌, [], false, true, IfErr, OnOk};
ghost use Rattle.std.specs.IoError.{error_kind};
ghost use Rattle.std.specs.Io.{ReadsAtMost};
ghost use Rattle.std.specs.Io.KnownBytes.{ReadConsumes};
ghost use Rattle.tracked_io.specs.Tracking.{FailsWith};
ghost use Rattle.tracked_io.specs.Waiting.{with_read, given_by};

use crate::read_log::ReadLog;
use crate::tracked_writer::TrackedWriter;
use std::io;
use std::io::{ErrorKind, Read, Write};
use std::marker::Model;

/// A reader that remembers whether a read failed. In proofs alone it has each read of it so far, with what the writer
/// that it was lent had taken: only [`read`](TrackedReader::read) adds to these.
#[derive(Drop)]
pub struct TrackedReader<R> {
    inner: R,
    failed: bool,
    turns: u64,
    log: ReadLog,
}

impl<R> Model for TrackedReader<R> {
    ghost use Rattle.tracked_io.specs.Tracking.{TrackedReading};

    ghost Value = { TrackedReading R };

    ghost view = { λ w. record { inner = w.inner; failed = w.failed; turns = w.turns; reads = w.log.reads } };
}

impl<R> TrackedReader<R> {
    /// A reader that has not failed.
    pub fn new(inner: R) -> TrackedReader<R>
        ensures inner { result.inner ≡ inner }
        ensures failed { result.failed ≡ false }
        ensures reads { result.reads ≡ [] }
    {
        TrackedReader {
            inner,
            failed: false,
            turns: 0,
            log: ReadLog::new(),
        }
    }

    /// Whether a read failed.
    pub fn has_failed(&self) -> bool
        ensures { result ≡ self.now.failed }
    {
        self.failed
    }
}

impl<R: Read> TrackedReader<R> {
    /// One read, while no answer is held back: what was written to the writer that it is lent was handed on. A read
    /// that is interrupted is tried again; after 2^64 - 1 tries in all it fails.
    pub fn read<W: Write>(
        &mut self,
        answered: &TrackedWriter<W>,
        buf: &mut [u8],
    ) -> io::Result<usize>
        requires { answered.now.flushed ≡ true }
        ensures bound { ReadsAtMost result buf.new }
        ensures bytes { ReadConsumes (R.remaining self.old.inner) (R.remaining self.new.inner) result buf.new }
        ensures reads { self.new.reads ≡ with_read self.old.reads answered.now.taken (given_by result buf.new) }
        ensures failed { FailsWith result self.old.failed self.new.failed }
        ensures retried { IfErr result (λ e. error_kind e ≢ ErrorKind.Interrupted) }
        ensures turns { OnOk result (self.old.turns < self.new.turns) }
        ensures room { OnOk result (self.new.turns < 2 ^ 64) }
    {
        match self.try_to_read(buf) {
            Ok(n) => {
                self.log = self.log.with(answered.log(), &buf[..n]);
                Ok(n)
            }
            Err(e) => {
                self.log = self.log.with(answered.log(), &[]);
                Err(e)
            }
        }
    }

    // The same, of which nothing is noted.
    fn try_to_read(&mut self, buf: &mut [u8]) -> io::Result<usize>
        ensures bound { ReadsAtMost result buf.new }
        ensures bytes { ReadConsumes (R.remaining self.old.inner) (R.remaining self.new.inner) result buf.new }
        ensures reads { self.new.reads ≡ self.old.reads }
        ensures failed { FailsWith result self.old.failed self.new.failed }
        ensures retried { IfErr result (λ e. error_kind e ≢ ErrorKind.Interrupted) }
        ensures turns { OnOk result (self.old.turns < self.new.turns) }
        ensures room { OnOk result (self.new.turns < 2 ^ 64) }
    {
        while self.turns < u64::MAX {
            self.turns += 1;
            match self.inner.read(buf) {
                Ok(n) => return Ok(n),
                Err(e) => {
                    if e.kind() != ErrorKind::Interrupted {
                        self.failed = true;
                        return Err(e);
                    }
                }
            }
        }
        self.failed = true;
        Err(io::Error::from(ErrorKind::TimedOut))
    }
}
