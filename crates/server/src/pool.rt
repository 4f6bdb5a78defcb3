//! The threads of a server, and what hands connections to them.
ghost use Rattle.std.specs.Prelude.{◌≡◌, [], IfSome};
ghost use Rattle.std.specs.Iterator.{IsFinite};
ghost use Rattle.answers.specs.declared.end.End.{End};
ghost use Rattle.server.specs.Attending.{Pairs, ServedUntil, ServesEach};

use crate::gate::Gate;
use crate::stream::take_leave;
use crate::waiting::{Patience, Queued};
use answers::End;
use crossbeam_channel::{Receiver, Sender};
use std::alloc::Global;
use std::net::{TcpListener, TcpStream};
use std::snapshot::Snapshot;
use std::sync::Wait;
use std::thread;
use std::thread::{Promise, PromisedHandle, Scope, Threads};
use std::time::{Clock, Duration};

/// For how many milliseconds nothing is done after a failed accept: where no descriptors are left the next fails at once.
const PAUSE: u64 = 1;

/// What serves connections.
pub(crate) trait Serves {
    /// A connection that ended so took it from the first state to the second.
    ghost served: { Self → End → Self → Type 0 };

    fn serve<P: Patience>(&mut self, alloc: Global, stream: &TcpStream, patience: &P) -> End
        ensures { served self.old result self.new };
}

/// What follows the changes that are made.
pub(crate) trait Follows {
    /// What following them did took it from the first state to the second.
    ghost followed: { Self → Self → Type 0 };

    /// Follows them until nobody is left who makes any.
    fn follow<R: Threads + Wait>(&mut self, rt: &R)
        ensures { followed self.old self.new };
}

/// What leaves something once it serves no more.
pub(crate) trait Leaves<L> {
    /// What is left of it.
    ghost left: { Self → L → Type 0 };

    fn leave(self) -> L
        ensures { left self result };
}

/// Serves each connection that the queue gives, one after another, until it gives no more. However one of them ends, the
/// next is served. One of which nothing comes is given up once another waits.
pub(crate) fn serve_each<Q: Iterator<Item = TcpStream>, S: Serves, C: Clock>(
    alloc: Global,
    queue: Q,
    waiting: &Queued<'_, C>,
    server: &mut S,
)
    requires { Q.can_next queue × IsFinite (Q.remaining queue) }
    ensures { ServesEach Q.next_gives S.served queue server.old server.new }
{
    for stream in queue {
        waiting.count();
        let end = server.serve(alloc, &stream, waiting);
        take_leave(&stream, end, waiting);
    }
}

// Hands on connections while the gate says so. One that finds no memory in the queue is dropped.
fn accept<R: Wait + Clock, G: Gate>(
    rt: &R,
    listener: &TcpListener,
    queue: &Sender<TcpStream>,
    gate: &G,
) {
    let mut accepted: u64 = 0;
    if !gate.more(accepted) {
        return;
    }
    for stream in listener.incoming() {
        match stream {
            Ok(stream) => {
                accepted = accepted.saturating_add(1);
                let _ = queue.send(rt, stream);
            }
            Err(_) => thread::sleep(rt, Duration::from_millis(PAUSE)),
        }
        if !gate.more(accepted) {
            return;
        }
    }
}

/// What connections are taken from, for as long as its owner says.
#[derive(Drop)]
pub(crate) struct Entrance<'a, R, G> {
    pub(crate) rt: &'a R,
    pub(crate) alloc: Global,
    pub(crate) listener: &'a TcpListener,
    pub(crate) gate: &'a G,
}

/// That what a thread gave was left by one that served from this state on.
#[derive(Drop)]
struct ServedFrom<S> {
    began: Snapshot<S>,
}

impl<S> ServedFrom<S> {
    fn from_now(server: &S) -> ServedFrom<S>
        ensures { result.began.value ≡ server.now }
    {
        ServedFrom {
            began: Snapshot::of(server),
        }
    }
}

impl<S: Serves + Leaves<L>, L> Promise<L> for ServedFrom<S> {
    ghost use Rattle.server.specs.Attending.{ServedUntil};

    ghost kept_by = { λ p l. ServedUntil S.served S.left p.began.value l };
}

/// That what a thread gave has followed from this state on.
#[derive(Drop)]
struct FollowedFrom<F> {
    began: Snapshot<F>,
}

impl<F: Follows> Promise<F> for FollowedFrom<F> {
    ghost kept_by = { λ p f. F.followed p.began.value f };
}

// Serves what the queue gives until it gives no more, and leaves.
fn serve_to_the_end<R: Wait + Clock, S: Serves + Leaves<L>, L>(
    alloc: Global,
    rt: &R,
    queue: &Receiver<TcpStream>,
    waiting: &Queued<'_, R>,
    server: S,
) -> L
    ensures { ServedUntil S.served S.left server result }
{
    let mut server = server;
    serve_each(alloc, queue.iter(rt), waiting, &mut server);
    server.leave()
}

// Has a thread follow what is changed, if one can be made.
fn start_following<'s, E, R: Threads + Wait + Sync, F: Follows + Send + Drop + 's>(
    scope: &Scope<'s, E>,
    rt: &'s R,
    follower: F,
) -> Option<PromisedHandle<F, FollowedFrom<F>>>
    ensures { IfSome result (λ thread. thread.promise.began.value ≡ follower) }
{
    let promise = FollowedFrom {
        began: Snapshot::of(&follower),
    };
    let started: Result<_, _> = scope.spawn_with(
        promise,
        move || -> F
            ensures { F.followed follower result }
        {
            let mut it = follower;
            it.follow(rt);
            it
        },
    );
    match started {
        Ok(thread) => Some(thread),
        Err(_) => None,
    }
}

// Room for what is started, and for as much that ends, and one more.
fn room_for_both<A: Drop, B: Drop>(alloc: Global, len: usize) -> Option<(Vec<A>, Vec<B>)>
    ensures { IfSome result (λ room. (room.0.items ≡ []) × (room.1.items ≡ [])) }
{
    let Ok(first) = Vec::with_capacity(alloc, len) else {
        return None;
    };
    let Ok(second) = Vec::with_capacity(alloc, len.saturating_add(1)) else {
        return None;
    };
    Some((first, second))
}

// Serves by a thread for each server that one can be made for, while the gate takes more; then those that wait. A server for
// which none could be made has its turn once the queue is empty. Where there was none for the follower, or for no server, it
// accepts nothing. Room for all that is started and ends is asked for first.
fn serve_in<
    's,
    E,
    R: Threads + Wait + Clock + Sync,
    F: Follows + Send + Drop + 's,
    S: Serves + Leaves<L> + Send + Drop + 's,
    L: Send + Drop + 's,
    G: Gate,
>(
    scope: &Scope<'s, E>,
    entrance: &Entrance<'s, R, G>,
    queue: (Sender<TcpStream>, &'s Receiver<TcpStream>),
    waiting: &'s Queued<'s, R>,
    follower: F,
    servers: Vec<S>,
) -> Option<(F, Vec<L>)>
    ensures followed { IfSome result (λ ended. F.followed follower ended.0) }
    ensures served { IfSome result (λ ended. Pairs (ServedUntil S.served S.left) servers.items ended.1.items) }
{
    let rt = entrance.rt;
    let alloc = entrance.alloc;
    let (to, queue) = queue;
    let (mut started, mut ended) = room_for_both(alloc, servers.len())?;
    let following = start_following(scope, rt, follower)?;
    let mut made = false;
    for server in servers {
        let promise = ServedFrom::from_now(&server);
        let one: Result<_, _> = scope.spawn_with(
            promise,
            move || -> L
                ensures { ServedUntil S.served S.left server result }
            { serve_to_the_end(alloc, rt, queue, waiting, server) },
        );
        made = made || one.is_ok();
        let Ok(()) = started.push(one) else {
            return None;
        };
    }
    if made {
        accept(rt, entrance.listener, &to, entrance.gate);
    }
    drop(to);
    for one in started {
        let left = match one {
            Ok(thread) => thread.join(rt),
            Err(refused) => (refused.value)(),
        };
        let Ok(()) = ended.push(left) else {
            return None;
        };
    }
    if !made {
        return None;
    }
    Some((following.join(rt), ended))
}

/// Serves the connections of an entrance while a thread follows what they change, and tells what became of the follower and, in
/// their order, of all servers. Where no thread could be made for the follower, or for no server, it accepts nothing.
pub(crate) fn serve_and_follow<
    R: Threads + Wait + Clock + Sync,
    F: Follows + Send + Drop,
    S: Serves + Leaves<L> + Send + Drop,
    L: Send + Drop,
    G: Gate,
>(
    entrance: &Entrance<'_, R, G>,
    queue: (Sender<TcpStream>, Receiver<TcpStream>),
    follower: F,
    servers: Vec<S>,
) -> Option<(F, Vec<L>)>
    ensures followed { IfSome result (λ ended. F.followed follower ended.0) }
    ensures served { IfSome result (λ ended. Pairs (ServedUntil S.served S.left) servers.items ended.1.items) }
{
    let (to, from) = queue;
    let queue = &from;
    let waiting = &Queued::new(entrance.rt, queue);
    thread::scope(
        thread::scope_env(),
        entrance.rt,
        move |scope| -> Option<(F, Vec<L>)>
            ensures followed { IfSome result (λ ended. F.followed follower ended.0) }
            ensures served { IfSome result (λ ended. Pairs (ServedUntil S.served S.left) servers.items ended.1.items) }
        { serve_in(scope, entrance, (to, queue), waiting, follower, servers) },
    )
}
