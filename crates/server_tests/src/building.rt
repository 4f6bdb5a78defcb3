//! A write that is answered while an index is made with no lock.
ghost use Rattle.std.specs.Prelude.{◌≡◌};
ghost use Rattle.desk.specs.Posts.{Posts};

use crate::gate::{is_answered, listen};
use keeper::{Front, Keeper, KeeperName, Opening, ToldOfBuilds};
use names::Call;
use server::{Gate, run};
use std::alloc::Global;
use std::hash::RandomState;
use std::io::Write;
use std::marker::Brand;
use std::net::{Net, SocketAddr, TcpListener, TcpStream};
use std::sync::Wait;
use std::sync::atomic::{AtomicBool, Ordering};
use std::test::*;
use std::thread;
use std::thread::{Threads, join};
use std::time::{Clock, Duration};
use tables::{Listed, Tables};

const CONFIG: &[u8] =
    b"{\"namespaces\":{\"group\":{\"member\":{\"types\":[\"user\",\"group#member\"]}},\"user\":{}}}";

const WRITE: &[u8] = b"POST /v1/write HTTP/1.1\r\nContent-Length: 58\r\n\
Connection: close\r\n\r\n{\"ops\":[{\"op\":\"touch\",\"tuple\":\"group:a#member@user:ann\"}]}";

const REBUILD: &[u8] = b"POST /v1/rebuild HTTP/1.1\r\nContent-Length: 2\r\n\
Connection: close\r\n\r\n{}";

const TRIES: u32 = 10_000;

// Takes two connections. Call 1 waits until an index was made, and who made it until call 1 is answered.
#[derive(Drop)]
struct WhileBuilt<'a, R: Clock> {
    rt: &'a R,
    entered: AtomicBool,
    built: AtomicBool,
    left: AtomicBool,
    gave_up: AtomicBool,
}

impl<'a, R: Clock> WhileBuilt<'a, R> {
    fn new(rt: &'a R) -> WhileBuilt<'a, R> {
        WhileBuilt {
            rt,
            entered: AtomicBool::new(false),
            built: AtomicBool::new(false),
            left: AtomicBool::new(false),
            gave_up: AtomicBool::new(false),
        }
    }

    // Waits for this, for so many milliseconds at most.
    fn wait_for(&self, what: &AtomicBool) {
        for _ in 0..TRIES {
            if what.load(Ordering::SeqCst) {
                return;
            }
            thread::sleep(self.rt, Duration::from_millis(1));
        }
        self.gave_up.store(true, Ordering::SeqCst);
    }
}

impl<'a, R: Clock> ToldOfBuilds for WhileBuilt<'a, R> {
    fn built(&self, _rev: u64) {
        self.built.store(true, Ordering::SeqCst);
        self.wait_for(&self.left);
    }
}

impl<'a, R: Clock> Gate for WhileBuilt<'a, R> {
    fn more(&self, accepted: u64) -> bool {
        accepted < 2
    }

    fn enter(&self, call: u64) {
        if call == 1 {
            self.entered.store(true, Ordering::SeqCst);
            self.wait_for(&self.built);
        }
    }

    fn leave(&self, call: u64) {
        if call == 1 {
            self.left.store(true, Ordering::SeqCst);
        }
    }
}

// A connection that has sent a request.
fn sent<R: Net<Stream = TcpStream>>(
    rt: &R,
    address: SocketAddr,
    request: &[u8],
) -> Option<TcpStream> {
    let stream = TcpStream::connect(rt, address).ok()?;
    stream.set_read_timeout(Some(Duration::from_secs(30))).ok()?;
    let mut to = &stream;
    to.write_all(request).ok()?;
    Some(stream)
}

// Whether a write is answered, and then a rebuild that was asked for while the write waited.
fn both_are_answered<R: Clock + Net<Stream = TcpStream>>(
    rt: &R,
    alloc: Global,
    address: SocketAddr,
    gate: &WhileBuilt<'_, R>,
) -> bool {
    let write = sent(rt, address, WRITE);
    gate.wait_for(&gate.entered);
    let rebuild = sent(rt, address, REBUILD);
    match (write, rebuild) {
        (Some(write), Some(rebuild)) => is_answered(alloc, &write) && is_answered(alloc, &rebuild),
        _ => false,
    }
}

fn serve<
    T: Tables + Drop + Send,
    J: KeeperName<T> + Send + Sync,
    H: Wait + Drop + Send,
    W: Threads + Wait + Clock + Net<Listener = TcpListener, Stream = TcpStream> + Sync,
>(
    rt: &W,
    alloc: Global,
    listener: &TcpListener,
    address: SocketAddr,
    keeper: &Keeper<T, J, H>,
) -> bool {
    let gate = WhileBuilt::new(rt);
    let (answered, ended) = join(
        rt,
        || both_are_answered(rt, alloc, address, &gate),
        || run(rt, alloc, listener, keeper, 2, &gate).is_ok(),
    );
    answered && ended && !gate.gave_up.load(Ordering::SeqCst)
}

// The keeper takes a configuration before it is served.
fn configured_and_served<
    T: Tables + Drop + Send,
    J: KeeperName<T> + Send + Sync,
    H: Wait + Drop + Send,
    W: Threads + Wait + Clock + Net<Listener = TcpListener, Stream = TcpStream> + Sync,
>(rt: &W, handle: H, alloc: Global, opening: Opening, tables: T) -> bool
    requires book { opening.opened.book ≡ J.book }
    requires history { opening.history ≡ J.table }
    requires starts { (desk : Posts T) → J.starts desk }
{
    let Ok(keeper) = Keeper::<T, J, H>::open(alloc, handle, opening, tables) else {
        return false;
    };
    let Ok(mut front) = Front::new(alloc, rt, &keeper) else {
        return false;
    };
    front.answer(rt, &(), Call::Config, CONFIG);
    match listen(rt) {
        Some((listener, address)) => serve(rt, alloc, &listener, address, &keeper),
        None => false,
    }
}

#[test]
fn a_write_is_answered_while_an_index_is_made(rt: HostRuntime) {
    let keys = RandomState::new(&rt).expect(&rt, "a key");
    let tables = Listed::new(rt.alloc(), 1);
    let served = configured_and_served::<Listed, Brand, _, _>(
        &rt,
        &rt,
        rt.alloc(),
        Opening::new(rt.alloc(), keys).expect(&rt, "memory"),
        tables,
    );
    assert!(rt; served);
}
