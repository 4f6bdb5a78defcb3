//! What tells a worker that another peer waits for one.

use crossbeam_channel::Receiver;
use std::cell::{Cell, RefCell};
use std::io;
use std::net::{TcpListener, TcpStream};
use std::sync::atomic::{AtomicU64, Ordering};
use std::time::Clock;

/// What tells how many connections have come, how many of them a worker has taken, and the time.
pub trait Patience {
    /// How many have been taken so far, in the order in which they came.
    fn taken(&self) -> u64;

    /// How many have come so far, at least: those that were taken and those that wait.
    fn came(&self) -> u64;

    /// The milliseconds of a clock. They mean something only beside others of it.
    fn now(&self) -> u64;
}

// The milliseconds of a clock, and 0 where it cannot be read.
fn milliseconds<C: Clock>(clock: &C) -> u64 {
    match clock.monotonic() {
        Ok(time) => time
            .as_secs()
            .saturating_mul(1_000)
            .saturating_add(u64::from(time.subsec_millis())),
        Err(_) => 0,
    }
}

/// The connections that wait in a queue.
#[derive(Drop)]
pub(crate) struct Queued<'a, C> {
    clock: &'a C,
    queue: &'a Receiver<TcpStream>,
    taken: AtomicU64,
}

impl<'a, C> Queued<'a, C> {
    /// A queue of which none was taken.
    pub(crate) fn new(clock: &'a C, queue: &'a Receiver<TcpStream>) -> Queued<'a, C> {
        Queued {
            clock,
            queue,
            taken: AtomicU64::new(0),
        }
    }

    /// Counts one that was taken.
    pub(crate) fn count(&self) {
        self.taken.fetch_add(1, Ordering::SeqCst);
    }
}

impl<'a, C: Clock> Patience for Queued<'a, C> {
    fn taken(&self) -> u64 {
        self.taken.load(Ordering::SeqCst)
    }

    fn came(&self) -> u64 {
        // (in this order: one that is taken meanwhile is not counted twice)
        let taken = self.taken();
        taken.saturating_add(self.queue.len() as u64)
    }

    fn now(&self) -> u64 {
        milliseconds(self.clock)
    }
}

/// The connections of a listener, for a worker that is alone. One may have been accepted while another was served.
#[derive(Drop)]
pub struct Arrivals<'a, C> {
    clock: &'a C,
    listener: &'a TcpListener,
    taken: Cell<u64>,
    next: RefCell<Option<TcpStream>>,
}

impl<'a, C> Arrivals<'a, C> {
    /// Those that come from now on.
    pub fn new(clock: &'a C, listener: &'a TcpListener) -> Arrivals<'a, C> {
        Arrivals {
            clock,
            listener,
            taken: Cell::new(0),
            next: RefCell::new(None),
        }
    }

    /// The next one, which is waited for.
    pub fn next(&self) -> io::Result<TcpStream> {
        let next = match self.next.try_take() {
            Ok(Some(stream)) => stream,
            _ => self.listener.accept()?.0,
        };
        self.taken.set(self.taken.get().saturating_add(1));
        Ok(next)
    }

    // The next one, if it has come.
    fn look(&self) -> Option<TcpStream> {
        if self.listener.set_nonblocking(true).is_err() {
            return None;
        }
        let came = self.listener.accept();
        let _ = self.listener.set_nonblocking(false);
        match came {
            Ok((stream, _)) => Some(stream),
            Err(_) => None,
        }
    }
}

impl<'a, C: Clock> Patience for Arrivals<'a, C> {
    fn taken(&self) -> u64 {
        self.taken.get()
    }

    fn came(&self) -> u64 {
        let next = match self.next.try_take() {
            Ok(Some(stream)) => Some(stream),
            _ => self.look(),
        };
        let more = u64::from(next.is_some());
        let _ = self.next.try_replace(next);
        self.taken.get().saturating_add(more)
    }

    fn now(&self) -> u64 {
        milliseconds(self.clock)
    }
}
