//! What the program stands on.
use published::Opened;
use std::hash::RandomState;
use std::io;

/// The process: its system, how a worker waits for another, and the network; and the book in which the steps of its desk will
/// stand, with the key under which names are hashed.
#[derive(Drop)]
pub struct Host<'a, H, N> {
    pub rt: &'a HostRuntime,
    pub wait: H,
    pub net: &'a N,
    pub opened: Opened,
}

impl<'a, H: Drop, N> Host<'a, H, N> {
    /// The process, with a new book. Its key is of the system's random source: an error says that there is none to be had.
    pub fn new(rt: &'a HostRuntime, wait: H, net: &'a N) -> io::Result<Host<'a, H, N>> {
        let keys = RandomState::new(rt)?;
        Ok(Host {
            rt,
            wait,
            net,
            opened: Opened::new(keys),
        })
    }
}
