//! Listening for connections, and serving them by many workers.
ghost use Rattle.std.specs.Prelude.{◌≡◌, ◌≢◌, true, false, IfErr, OnOk};
ghost use Rattle.desk.specs.Posts.{OpensWith, Posts};
ghost use Rattle.program.specs.Listening.{Announced, StoppedServing};

use crate::host::Host;
use crate::listening::listen;
use crate::serving::Offer;
use command_line::Fault;
use keeper::{Keeper, KeeperName, Opening, ToldOfBuilds};
use names::Refusal;
use server::{Gate, run};
use sqlite::Alter;
use std::io::Write;
use std::marker::Brand;
use std::net::{Net, TcpListener, TcpStream};
use std::sync::Wait;
use std::thread::Threads;
use std::time::Clock;
use store::Store;
use tables::Tables;
use tracked_io::TrackedWriter;

// A gate that takes each connection, until the process is stopped.
struct AlwaysOpen;

impl ToldOfBuilds for AlwaysOpen {
    fn built(&self, _rev: u64) {}
}

impl Gate for AlwaysOpen {
    fn more(&self, _accepted: u64) -> bool
        ensures { result ≡ true }
    {
        true
    }

    fn enter(&self, _call: u64) {}

    fn leave(&self, _call: u64) {}
}

// Serves as `share` does, by a desk of the book that `J` names.
fn serve_by_many<
    N: Net<Listener = TcpListener, Stream = TcpStream> + Threads + Wait + Clock + Sync,
    T: Tables + Drop + Send,
    J: KeeperName<T> + Send + Sync,
    H: Wait + Drop + Send,
    W: Write,
>(
    host: Host<'_, H, N>,
    opening: Opening,
    tables: T,
    offer: Offer,
    writer: &mut TrackedWriter<W>,
) -> Result<(), Fault>
    requires book { opening.opened.book ≡ J.book }
    requires history { opening.history ≡ J.table }
    requires starts { (desk : Posts T) → OpensWith T.Tables tables desk → J.starts desk }
    requires unbroken_writer { writer.old.failed ≡ false }
    ensures ok { OnOk result (Announced offer.port writer.old writer.new) }
    ensures whole { OnOk result ((writer.new.failed ≡ false) × (writer.new.flushed ≡ true)) }
    ensures line { IfErr result (λ fault. fault ≢ Fault.CommandLine) }
    ensures failed { IfErr result (λ fault. StoppedServing offer.port fault writer.old writer.new) }
{
    let alloc = host.rt.alloc();
    let workers = offer.workers as usize;
    let keeper = match Keeper::<T, J, H>::open(alloc, host.wait, opening, tables) {
        Ok(keeper) => keeper,
        Err((why, _)) => return Err(Fault::Refused(why)),
    };
    let listener = listen(alloc, host.net, offer.port, writer)?;
    match run(host.net, alloc, &listener, &keeper, workers, &AlwaysOpen) {
        Ok(()) => Ok(()),
        Err(why) => Err(Fault::Refused(why)),
    }
}

/// Listens on a port, says so, and serves connections by so many workers, from tables that they share.
pub(crate) fn share<
    N: Net<Listener = TcpListener, Stream = TcpStream> + Threads + Wait + Clock + Sync,
    T: Tables + Drop + Send,
    H: Wait + Drop + Send,
    W: Write,
>(host: Host<'_, H, N>, tables: T, offer: Offer, writer: &mut TrackedWriter<W>) -> Result<(), Fault>
    requires unbroken_writer { writer.old.failed ≡ false }
    ensures ok { OnOk result (Announced offer.port writer.old writer.new) }
    ensures whole { OnOk result ((writer.new.failed ≡ false) × (writer.new.flushed ≡ true)) }
    ensures line { IfErr result (λ fault. fault ≢ Fault.CommandLine) }
    ensures failed { IfErr result (λ fault. StoppedServing offer.port fault writer.old writer.new) }
{
    let Ok(opening) = Opening::new(host.rt.alloc(), host.opened.keys) else {
        return Err(Fault::Refused(Refusal::Memory));
    };
    serve_by_many::<N, T, Brand, H, W>(host, opening, tables, offer, writer)
}

/// The same from tables over a database connection.
pub(crate) fn share_over<
    S: Alter + Drop + Send,
    H: Wait + Drop + Send,
    N: Net<Listener = TcpListener, Stream = TcpStream> + Threads + Wait + Clock + Sync,
    W: Write,
>(
    host: Host<'_, H, N>,
    tables: Store<S>,
    offer: Offer,
    writer: &mut TrackedWriter<W>,
) -> Result<(), Fault>
    requires unbroken_writer { writer.old.failed ≡ false }
    ensures ok { OnOk result (Announced offer.port writer.old writer.new) }
    ensures whole { OnOk result ((writer.new.failed ≡ false) × (writer.new.flushed ≡ true)) }
    ensures line { IfErr result (λ fault. fault ≢ Fault.CommandLine) }
    ensures failed { IfErr result (λ fault. StoppedServing offer.port fault writer.old writer.new) }
{
    share(host, tables, offer, writer)
}
