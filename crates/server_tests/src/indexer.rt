//! What is written over a connection is read by the index and the hot table, and nobody asks them to.
ghost use Rattle.std.specs.Prelude.{◌≡◌};
ghost use Rattle.desk.specs.Posts.{Posts};

use crate::gate::listen;
use keeper::{Keeper, KeeperName, Opening, ToldOfBuilds};
use server::{Gate, run};
use std::alloc::Global;
use std::hash::RandomState;
use std::io::{Read, Write};
use std::marker::Brand;
use std::net::{Net, SocketAddr, TcpListener, TcpStream};
use std::sync::Wait;
use std::sync::atomic::{AtomicBool, Ordering};
use std::test::*;
use std::thread;
use std::thread::{Threads, join};
use std::time::{Clock, Duration};
use tables::{Listed, Tables};

// With the configurations they are revision 42.
const WRITES: usize = 40;

const TRIES: u32 = 10_000;

const CONFIG: &[u8] = b"POST /v1/config HTTP/1.1\r\nContent-Length: 79\r\n\r\n\
{\"namespaces\":{\"group\":{\"member\":{\"types\":[\"user\",\"group#member\"]}},\"user\":{}}}";

// With it the index has to be made anew.
const NEXT: &[u8] = b"POST /v1/config HTTP/1.1\r\nContent-Length: 88\r\n\r\n\
{\"namespaces\":{\"group\":{\"member\":{\"types\":[\"user\",\"group#member\"]}},\"org\":{},\"user\":{}}}";

const REBUILD: &[u8] = b"POST /v1/rebuild HTTP/1.1\r\nContent-Length: 2\r\n\r\n{}";

const WRITE: &[u8] = b"POST /v1/write HTTP/1.1\r\nContent-Length: 58\r\n\r\n\
{\"ops\":[{\"op\":\"touch\",\"tuple\":\"group:a#member@user:ann\"}]}";

const STATE: &[u8] = b"GET /v1/state HTTP/1.1\r\nConnection: close\r\n\r\n";

const TRIM: &[u8] = b"POST /v1/trim HTTP/1.1\r\nContent-Length: 35\r\nConnection: close\r\n\r\n\
{\"floor\":\"AgAAAAAAAAABAAAAAAAAACo\"}";

const CAUGHT_UP: &[u8] =
    b"\"hot\":\"AgAAAAAAAAABAAAAAAAAACo\",\"index\":\"AgAAAAAAAAABAAAAAAAAACo\",\
\"marked\":0,\"newest\":\"AgAAAAAAAAABAAAAAAAAACo\"";

// Takes connections until its owner is done.
#[derive(Drop)]
struct UntilDone {
    done: AtomicBool,
}

impl ToldOfBuilds for UntilDone {
    fn built(&self, _rev: u64) {}
}

impl Gate for UntilDone {
    fn more(&self, _accepted: u64) -> bool {
        !self.done.load(Ordering::SeqCst)
    }

    fn enter(&self, _call: u64) {}

    fn leave(&self, _call: u64) {}
}

fn connected<R: Net<Stream = TcpStream>>(rt: &R, address: SocketAddr) -> Option<TcpStream> {
    let stream = TcpStream::connect(rt, address).ok()?;
    stream.set_read_timeout(Some(Duration::from_secs(30))).ok()?;
    Some(stream)
}

// What a connection is sent until it ends.
fn rest(alloc: Global, stream: &TcpStream) -> Option<Vec<u8>> {
    let mut from = stream;
    let mut text = Vec::new(alloc);
    from.read_to_end(&mut text).ok()?;
    Some(text)
}

// The reply to a request that closes its connection.
fn ask<R: Net<Stream = TcpStream>>(
    rt: &R,
    alloc: Global,
    address: SocketAddr,
    request: &[u8],
) -> Option<Vec<u8>> {
    let stream = connected(rt, address)?;
    let mut to = &stream;
    to.write_all(request).ok()?;
    rest(alloc, &stream)
}

// Whether all could be written, over one connection.
fn writes<R: Net<Stream = TcpStream>>(rt: &R, alloc: Global, address: SocketAddr) -> Option<()> {
    let stream = connected(rt, address)?;
    let mut to = &stream;
    to.write_all(CONFIG).ok()?;
    to.write_all(REBUILD).ok()?;
    for number in 0..WRITES {
        if number == WRITES / 2 {
            to.write_all(NEXT).ok()?;
        }
        to.write_all(WRITE).ok()?;
    }
    to.write_all(STATE).ok()?;
    rest(alloc, &stream)?;
    Some(())
}

fn contains(text: &[u8], part: &[u8]) -> bool {
    for at in 0..text.len() {
        if text[at..].starts_with(part) {
            return true;
        }
    }
    false
}

// Whether both cursors come to the newest revision, which is then the floor.
fn is_caught_up<R: Clock + Net<Stream = TcpStream>>(
    rt: &R,
    alloc: Global,
    address: SocketAddr,
) -> Option<bool> {
    writes(rt, alloc, address)?;
    for _ in 0..TRIES {
        let state = ask(rt, alloc, address, STATE)?;
        if contains(state.as_slice(), CAUGHT_UP) {
            let trimmed = ask(rt, alloc, address, TRIM)?;
            return Some(trimmed.as_slice().starts_with(b"HTTP/1.1 200 OK\r\n"));
        }
        thread::sleep(rt, Duration::from_millis(1));
    }
    None
}

// The same; then one more connection is made, after which the gate is asked and takes no more.
fn is_caught_up_in_the_end<R: Clock + Net<Stream = TcpStream>>(
    rt: &R,
    alloc: Global,
    address: SocketAddr,
    gate: &UntilDone,
) -> bool {
    let caught_up = is_caught_up(rt, alloc, address);
    gate.done.store(true, Ordering::SeqCst);
    let _ = TcpStream::connect(rt, address);
    caught_up == Some(true)
}

fn serve<
    T: Tables + Drop + Send,
    J: KeeperName<T> + Send + Sync,
    H: Wait + Drop + Send,
    W: Threads + Wait + Clock + Net<Listener = TcpListener, Stream = TcpStream> + Sync,
>(
    rt: &W,
    alloc: Global,
    listener: &TcpListener,
    address: SocketAddr,
    keeper: &Keeper<T, J, H>,
) -> bool {
    let gate = UntilDone {
        done: AtomicBool::new(false),
    };
    let (caught_up, ended) = join(
        rt,
        || is_caught_up_in_the_end(rt, alloc, address, &gate),
        || run(rt, alloc, listener, keeper, 2, &gate).is_ok(),
    );
    caught_up && ended
}

fn serve_and_write<
    T: Tables + Drop + Send,
    J: KeeperName<T> + Send + Sync,
    H: Wait + Drop + Send,
    W: Threads + Wait + Clock + Net<Listener = TcpListener, Stream = TcpStream> + Sync,
>(rt: &W, handle: H, alloc: Global, opening: Opening, tables: T) -> bool
    requires book { opening.opened.book ≡ J.book }
    requires history { opening.history ≡ J.table }
    requires starts { (desk : Posts T) → J.starts desk }
{
    let Ok(keeper) = Keeper::<T, J, H>::open(alloc, handle, opening, tables) else {
        return false;
    };
    match listen(rt) {
        Some((listener, address)) => serve(rt, alloc, &listener, address, &keeper),
        None => false,
    }
}

#[test]
fn the_parts_read_what_is_written(rt: HostRuntime) {
    let keys = RandomState::new(&rt).expect(&rt, "a key");
    let tables = Listed::new(rt.alloc(), 1);
    let caught_up = serve_and_write::<Listed, Brand, _, _>(
        &rt,
        &rt,
        rt.alloc(),
        Opening::new(rt.alloc(), keys).expect(&rt, "memory"),
        tables,
    );
    assert!(rt; caught_up);
}
