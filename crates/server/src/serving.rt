//! A server over a keeper.
ghost use Rattle.std.specs.Prelude.{◌≡◌, ◌⊎◌, IfOk, IfErr, vec_len};
ghost use Rattle.names.specs.declared.refusal.Refusal.TheVariants.{Memory, NoSeat};
ghost use Rattle.keeper.specs.Fronts.{IsSeated};
ghost use Rattle.server.specs.Served.{AllSeated, AllServed};

use crate::counted::Counted;
use crate::gate::Gate;
use crate::indexer::Indexer;
use crate::locked::Locked;
use crate::pool::{Entrance, serve_and_follow};
use crate::waking::Waking;
use crate::worker::{Machine, Worker};
use crossbeam_channel::{Receiver, Sender};
use http_api::routes;
use keeper::{Front, Keeper, KeeperName};
use names::Refusal;
use std::alloc::Global;
use std::net::{TcpListener, TcpStream};
use std::sync::Wait;
use std::sync::atomic::AtomicU64;
use std::thread::Threads;
use std::time::Clock;
use tables::Tables;

/// Serves the connections of a listener over HTTP/1.1 by so many workers, each with a front of its own, until the gate takes
/// no more; then serves those that wait, and returns once each connection has ended. Beside them the indexer, with a session of
/// its own, has the index and the hot table read what was changed, in turns of up to 16 commits for each.
///
/// All that can be refused is asked for first, before any thread is made and any connection accepted: a session for each
/// worker and one for the indexer, and memory. Where no thread can be made for the indexer, or for no worker, it accepts
/// nothing, and is refused as for want of memory.
pub fn run<
    'k,
    R: Threads + Wait + Clock + Sync,
    T: Tables + Drop + Send,
    J: KeeperName<T> + Send + Sync,
    H: Wait + Drop + Send,
    G: Gate + Sync,
>(
    rt: &'k R,
    alloc: Global,
    listener: &'k TcpListener,
    keeper: &'k Keeper<T, J, H>,
    workers: usize,
    gate: &'k G,
) -> Result<(), Refusal>
    ensures served { IfOk result (λ _. AllServed T.Tables J.book J.starts workers) }
    ensures err { IfErr result (λ why. (why ≡ NoSeat) ⊎ (why ≡ Memory)) }
{
    let Ok(routes) = routes(alloc) else {
        return Err(Refusal::Memory);
    };
    let calls = AtomicU64::new(0);
    let queue = crossbeam_channel::unbounded(alloc)?;
    let (wakes, woken) = crossbeam_channel::bounded(alloc, 1)?;
    let indexer = Indexer::new(alloc, rt, gate, keeper, woken)?;
    let mut machines = Vec::with_capacity(alloc, workers)?;
    for _ in 0..workers {
        let answers = Counted {
            answers: Waking::new(
                Locked::new(rt, gate, Front::new(alloc, rt, keeper)?),
                rt,
                wakes.clone()?,
            ),
            calls: &calls,
            gate,
        };
        machines.push(Worker::new(answers, &routes))?;
    }
    // The indexer ends once no worker is left.
    drop(wakes);
    let entrance = Entrance {
        rt,
        alloc,
        listener,
        gate,
    };
    serve_seated(&entrance, keeper, queue, indexer, machines)
}

// Serves by these workers, beside the indexer, and then lets all see what was done under the lock.
fn serve_seated<
    'k,
    R: Threads + Wait + Clock + Sync,
    T: Tables + Drop + Send,
    J: KeeperName<T> + Send + Sync,
    H: Wait + Drop + Send,
    G: Gate + Sync,
>(
    entrance: &Entrance<'k, R, G>,
    keeper: &'k Keeper<T, J, H>,
    queue: (Sender<TcpStream>, Receiver<TcpStream>),
    indexer: Indexer<'k, T, J, H, G>,
    machines: Vec<Worker<'k, Machine<'k, T, J, H, R, G>>>,
) -> Result<(), Refusal>
    requires indexer { IsSeated T.Tables J.book J.starts indexer }
    requires machines { AllSeated T.Tables J.book J.starts (λ w. w.answers.answers.answers) machines.items }
    ensures served { IfOk result (λ _. AllServed T.Tables J.book J.starts (vec_len machines.entry)) }
    ensures err { IfErr result (λ why. (why ≡ NoSeat) ⊎ (why ≡ Memory)) }
{
    match serve_and_follow(entrance, queue, indexer, machines) {
        Some((indexer, mut places)) => {
            places.push(indexer.leave())?;
            keeper.hold(entrance.rt).look(entrance.rt, places);
            Ok(())
        }
        None => Err(Refusal::Memory),
    }
}
