//! A writer of which it is known whether it failed, and whether it holds anything back.
ghost use Rattle.std.specs.Prelude.{◌≡◌, ◌≢◌, ◌<◌, length, false, true, IfOk, IfErr, OnOk};
ghost use Rattle.std.specs.IoError.{error_kind};
ghost use Rattle.std.specs.Io.{WritesAtMost};
ghost use Rattle.std.specs.Io.KnownBytes.{WriteAppends, Keeps};
ghost use Rattle.tracked_io.specs.Tracking.{FailsWith};
ghost use Rattle.tracked_io.specs.Wrote.{nothing_taken, TookFirst, IsHeld};

use crate::write_log::WriteLog;
use std::io;
use std::io::{ErrorKind, Write};
use std::marker::Model;

/// A writer that remembers whether a write failed, and whether it was flushed after the last one. In proofs alone it
/// has the bytes that it took so far: only [`write`](TrackedWriter::write) adds to these. A writer of which it was known
/// what it holds is always known to hold that and these.
#[derive(Drop)]
pub struct TrackedWriter<W: Write> {
    inner: W,
    failed: bool,
    flushed: bool,
    log: WriteLog,
}

impl<W: Write> Model for TrackedWriter<W> {
    ghost use Rattle.tracked_io.specs.Tracking.{TrackedWriting};
    ghost use Rattle.tracked_io.specs.Wrote.{IsHeld};

    ghost Value = { TrackedWriting W };

    ghost view = { λ w. record { inner = w.inner; failed = w.failed; flushed = w.flushed; taken = w.log.taken } };

    ghost invariant = { λ w. IsHeld (W.contents w.inner) w.log.taken };
}

impl<W: Write> TrackedWriter<W> {
    /// A writer that has not failed, and has taken nothing. It holds nothing back.
    pub fn new(inner: W) -> TrackedWriter<W>
        ensures inner { result.inner ≡ inner }
        ensures failed { result.failed ≡ false }
        ensures flushed { result.flushed ≡ true }
        ensures taken { result.taken ≡ nothing_taken (W.contents inner) }
    {
        let log = WriteLog::new(&inner);
        TrackedWriter {
            inner,
            failed: false,
            flushed: true,
            log,
        }
    }

    /// Whether a write or a flush failed.
    pub fn has_failed(&self) -> bool
        ensures { result ≡ self.now.failed }
    {
        self.failed
    }

    /// The writer that is tracked. Where it was known what it holds, it holds what it took since too.
    pub fn inner(&self) -> &W
        ensures same { result.now ≡ self.now.inner }
        ensures held { IsHeld (W.contents self.now.inner) self.now.taken }
    {
        &self.inner
    }

    /// What it took.
    pub fn log(&self) -> &WriteLog
        ensures { result.now.taken ≡ self.now.taken }
    {
        &self.log
    }

    /// One write. It fails where the writer takes nothing. A write that is interrupted is tried again; after
    /// 2^64 - 1 tries it fails.
    pub fn write(&mut self, bytes: &[u8]) -> io::Result<usize>
        ensures bound { WritesAtMost result bytes.now }
        ensures taken { TookFirst result self.old.taken self.new.taken bytes.now }
        ensures bytes { WriteAppends (W.contents self.old.inner) (W.contents self.new.inner) result bytes.now }
        ensures failed { FailsWith result self.old.failed self.new.failed }
        ensures retried { IfErr result (λ e. error_kind e ≢ ErrorKind.Interrupted) }
        ensures held { self.new.flushed ≡ false }
        ensures some { IfOk result (λ n. 0 < length bytes.now → 0 < n) }
    {
        self.flushed = false;
        for _ in 0..u64::MAX {
            match self.inner.write(bytes) {
                Ok(n) => {
                    if n == 0 && !bytes.is_empty() {
                        self.failed = true;
                        return Err(io::Error::from(ErrorKind::WriteZero));
                    }
                    self.log = self.log.with(&bytes[..n]);
                    return Ok(n);
                }
                Err(e) => {
                    if e.kind() != ErrorKind::Interrupted {
                        self.failed = true;
                        return Err(e);
                    }
                }
            }
        }
        self.failed = true;
        Err(io::Error::from(ErrorKind::TimedOut))
    }

    /// Hands on what was written. A flush that is interrupted is tried again; after 2^64 - 1 tries it fails.
    pub fn flush(&mut self) -> io::Result<()>
        ensures taken { self.new.taken ≡ self.old.taken }
        ensures bytes { Keeps (W.contents self.old.inner) (W.contents self.new.inner) }
        ensures failed { FailsWith result self.old.failed self.new.failed }
        ensures retried { IfErr result (λ e. error_kind e ≢ ErrorKind.Interrupted) }
        ensures flushed { OnOk result (self.new.flushed ≡ true) }
    {
        for _ in 0..u64::MAX {
            match self.inner.flush() {
                Ok(()) => {
                    self.flushed = true;
                    return Ok(());
                }
                Err(e) => {
                    if e.kind() != ErrorKind::Interrupted {
                        self.failed = true;
                        return Err(e);
                    }
                }
            }
        }
        self.failed = true;
        Err(io::Error::from(ErrorKind::TimedOut))
    }
}
