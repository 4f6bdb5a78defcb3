//! Two connections, of which the call of one waits in the gate for the call of the other.
ghost use Rattle.std.specs.Prelude.{◌≡◌};
ghost use Rattle.desk.specs.Posts.{Posts};

use keeper::{Keeper, KeeperName, Opening, ToldOfBuilds};
use server::{Gate, run};
use std::alloc::Global;
use std::hash::RandomState;
use std::io::{Read, Write};
use std::marker::Brand;
use std::net::{Ipv4Addr, Net, SocketAddr, TcpListener, TcpStream};
use std::sync::Wait;
use std::sync::atomic::{AtomicBool, Ordering};
use std::test::*;
use std::thread;
use std::thread::{Threads, join};
use std::time::{Clock, Duration};
use tables::{Listed, Tables};

const STATE: &[u8] = b"GET /v1/state HTTP/1.1\r\nConnection: close\r\n\r\n";

// Takes two connections. Call 1 waits until call 2 is answered, for so many milliseconds at most.
#[derive(Drop)]
struct InTurn<'a, R: Clock> {
    rt: &'a R,
    second_left: AtomicBool,
    gave_up: AtomicBool,
}

impl<'a, R: Clock> ToldOfBuilds for InTurn<'a, R> {
    fn built(&self, _rev: u64) {}
}

impl<'a, R: Clock> Gate for InTurn<'a, R> {
    fn more(&self, accepted: u64) -> bool {
        accepted < 2
    }

    fn enter(&self, call: u64) {
        if call != 1 {
            return;
        }
        for _ in 0..10_000 {
            if self.second_left.load(Ordering::SeqCst) {
                return;
            }
            thread::sleep(self.rt, Duration::from_millis(1));
        }
        self.gave_up.store(true, Ordering::SeqCst);
    }

    fn leave(&self, call: u64) {
        if call == 2 {
            self.second_left.store(true, Ordering::SeqCst);
        }
    }
}

// A connection that has asked for the state.
fn asks<R: Net<Stream = TcpStream>>(rt: &R, address: SocketAddr) -> Option<TcpStream> {
    let stream = TcpStream::connect(rt, address).ok()?;
    stream.set_read_timeout(Some(Duration::from_secs(30))).ok()?;
    let mut to = &stream;
    to.write_all(STATE).ok()?;
    Some(stream)
}

// Whether the connection is answered with 200.
pub(crate) fn is_answered(alloc: Global, stream: &TcpStream) -> bool {
    let mut from = stream;
    let mut text = Vec::new(alloc);
    if from.read_to_end(&mut text).is_err() {
        return false;
    }
    text.as_slice().starts_with(b"HTTP/1.1 200 OK\r\n")
}

fn two_are_answered<R: Net<Stream = TcpStream>>(
    rt: &R,
    alloc: Global,
    address: SocketAddr,
) -> bool {
    let one = asks(rt, address);
    let two = asks(rt, address);
    match (one, two) {
        (Some(one), Some(two)) => is_answered(alloc, &one) && is_answered(alloc, &two),
        _ => false,
    }
}

// A port that is free, listened on, and its address.
pub(crate) fn listen<R: Net<Listener = TcpListener, Stream = TcpStream>>(
    rt: &R,
) -> Option<(TcpListener, SocketAddr)> {
    let listener = TcpListener::bind(rt, (Ipv4Addr::LOCALHOST, 0)).ok()?;
    let address = listener.local_addr().ok()?;
    Some((listener, address))
}

// Whether both connections are answered, and call 1 had not given up when call 2 left.
fn serve_in_turn<
    T: Tables + Drop + Send,
    J: KeeperName<T> + Send + Sync,
    H: Wait + Drop + Send,
    W: Threads + Wait + Clock + Net<Listener = TcpListener, Stream = TcpStream> + Sync,
>(
    rt: &W,
    alloc: Global,
    listener: &TcpListener,
    address: SocketAddr,
    keeper: &Keeper<T, J, H>,
) -> bool {
    let gate = InTurn {
        rt,
        second_left: AtomicBool::new(false),
        gave_up: AtomicBool::new(false),
    };
    let (answered, ended) = join(
        rt,
        || two_are_answered(rt, alloc, address),
        || run(rt, alloc, listener, keeper, 2, &gate).is_ok(),
    );
    answered && ended && !gate.gave_up.load(Ordering::SeqCst)
}

fn serve_both<
    T: Tables + Drop + Send,
    J: KeeperName<T> + Send + Sync,
    H: Wait + Drop + Send,
    W: Threads + Wait + Clock + Net<Listener = TcpListener, Stream = TcpStream> + Sync,
>(rt: &W, handle: H, alloc: Global, opening: Opening, tables: T) -> bool
    requires book { opening.opened.book ≡ J.book }
    requires history { opening.history ≡ J.table }
    requires starts { (desk : Posts T) → J.starts desk }
{
    let Ok(keeper) = Keeper::<T, J, H>::open(alloc, handle, opening, tables) else {
        return false;
    };
    match listen(rt) {
        Some((listener, address)) => serve_in_turn(rt, alloc, &listener, address, &keeper),
        None => false,
    }
}

#[test]
fn a_call_may_wait_for_one_of_another_worker(rt: HostRuntime) {
    let keys = RandomState::new(&rt).expect(&rt, "a key");
    let tables = Listed::new(rt.alloc(), 1);
    let both = serve_both::<Listed, Brand, _, _>(
        &rt,
        &rt,
        rt.alloc(),
        Opening::new(rt.alloc(), keys).expect(&rt, "memory"),
        tables,
    );
    assert!(rt; both);
}
