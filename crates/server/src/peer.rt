//! A peer, for which a worker waits no longer than it may.
ghost use Rattle.std.specs.Prelude.{IfSome};
ghost use Rattle.std.specs.Io.{ReadsAtMost, WritesAtMost};

use crate::waited::Waited;
use crate::waiting::Patience;
use std::cell::Cell;
use std::io;
use std::io::{ErrorKind, Read, Write};
use std::net::TcpStream;
use std::time::Duration;

/// For how many milliseconds a read waits before it is looked whether another peer waits.
const LOOK: u64 = 100;

/// For how many seconds a write waits for a peer that takes nothing of it.
const STUCK: u64 = 10;

/// A connection, and how long a worker has waited for who is at its other end.
#[derive(Drop)]
pub struct Peer<'a, P> {
    stream: &'a TcpStream,
    patience: &'a P,
    waited: Cell<Waited>,
    came: Cell<u64>,
    is_stuck: Cell<bool>,
}

impl<'a, P> Peer<'a, P> {
    /// One that has just come. What is written goes out at once.
    pub fn new(stream: &'a TcpStream, patience: &'a P) -> Peer<'a, P> {
        let _ = stream.set_nodelay(true);
        let _ = stream.set_read_timeout(Some(Duration::from_millis(LOOK)));
        let _ = stream.set_write_timeout(Some(Duration::from_secs(1)));
        Peer {
            stream,
            patience,
            waited: Cell::new(Waited::new()),
            came: Cell::new(0),
            is_stuck: Cell::new(false),
        }
    }

    // Writes for a second. Where nothing was taken, there is no answer.
    fn try_to_write(&self, buf: &[u8]) -> Option<io::Result<usize>>
        ensures { IfSome result (λ wrote. WritesAtMost wrote buf.now) }
    {
        let mut stream = self.stream;
        match stream.write(buf) {
            Ok(count) => {
                self.waited.set(self.waited.get().after_reply());
                Some(Ok(count))
            }
            Err(e) if e.kind() == ErrorKind::WouldBlock => None,
            Err(e) => Some(Err(e)),
        }
    }
}

impl<'a, P: Patience> Peer<'a, P> {
    // Whether it had its time, and one who waited when this was last asked waits still: that a worker is free, and about to
    // take one, is no wait.
    fn is_given_up(&self) -> bool {
        if !self.waited.get().is_enough() {
            return false;
        }
        let waits = self.patience.taken() < self.came.get();
        self.came.set(self.patience.came());
        waits
    }

    // Reads for a while. Where nothing came, there is no answer.
    fn try_to_read(&self, buf: &mut [u8]) -> Option<io::Result<usize>>
        ensures { IfSome result (λ read. ReadsAtMost read buf.new) }
    {
        let waited = self.waited.get();
        // (a request mostly comes whole, and then no clock is asked)
        let is_timed = waited.is_for_a_request();
        let began = if is_timed { self.patience.now() } else { 0 };
        let mut stream = self.stream;
        let read = stream.read(buf);
        let took = if is_timed {
            self.patience.now().saturating_sub(began)
        } else {
            LOOK
        };
        match read {
            Ok(count) => {
                self.waited.set(waited.after_bytes(took, count as u64));
                Some(Ok(count))
            }
            Err(e) if e.kind() == ErrorKind::WouldBlock => {
                self.waited.set(waited.after_silence(took));
                None
            }
            Err(e) => Some(Err(e)),
        }
    }
}

impl<'a, P: Patience> Read for &Peer<'a, P> {
    fn read(&mut self, buf: &mut [u8]) -> io::Result<usize> {
        for _ in 0..u64::MAX {
            if self.is_given_up() {
                break;
            }
            if let Some(read) = self.try_to_read(buf) {
                return read;
            }
        }
        Err(io::Error::from(ErrorKind::TimedOut))
    }
}

impl<'a, P> Write for &Peer<'a, P> {
    fn write(&mut self, buf: &[u8]) -> io::Result<usize> {
        for _ in 0..STUCK {
            if self.is_stuck.get() {
                break;
            }
            if let Some(wrote) = self.try_to_write(buf) {
                return wrote;
            }
        }
        // (so that what is left in a buffer is not waited for once more)
        self.is_stuck.set(true);
        Err(io::Error::from(ErrorKind::TimedOut))
    }

    fn flush(&mut self) -> io::Result<()> {
        let mut stream = self.stream;
        stream.flush()
    }
}
