//! Serving connections from the store at a place.
ghost use Rattle.std.specs.Prelude.{◌≡◌, ◌≢◌, ◌≤◌, ◌<◌, ◌^◌, true, false, IfOk, IfErr, IfSome, OnOk};
ghost use Rattle.program.specs.Listening.{Announced, IsStartFault, NotAnnounced, StoppedServing};

use crate::host::Host;
use crate::listening::{see_port, serve};
use crate::place::{is_number, is_there};
use crate::sharing::{share, share_over};
use calls::Answering;
use command_line::{Fault, Place};
use names::Refusal;
use published::Naming;
use runs::{find_blank, open_in, tables_in};
use sqlite::Start;
use std::fs;
use std::io::Write;
use std::marker::Brand;
use std::net::{Net, TcpListener, TcpStream};
use std::sync::Wait;
use std::thread::Threads;
use std::time::Clock;
use tables::Listed;
use tracked_io::TrackedWriter;

/// On which port a store is served, 0 for one that is free, and by how many workers.
#[derive(Clone, Copy)]
pub(crate) struct Offer {
    pub port: u16,
    pub workers: u64,
}

// Sees that a new store can be made in a file and served on a port, and gives back what says what the file holds. Where the
// port cannot be had, what stands in the way of the store is still told first; it is not made, so that another port can be tried.
fn see_new<P: Start, N: Net<Listener = TcpListener, Stream = TcpStream>>(
    rt: &HostRuntime,
    net: &N,
    file: &str,
    store: u64,
    port: u16,
    start: P,
) -> Result<P, Fault>
    ensures number { OnOk result ((1 ≤ store) × (store < 2 ^ 63)) }
    ensures same { IfOk result (λ given. given ≡ start) }
    ensures err { IfErr result IsStartFault }
{
    if !is_number(store) {
        return Err(Fault::Refused(Refusal::StoreFault));
    }
    if see_port(net, port).is_ok() {
        return Ok(start);
    }
    match find_blank(rt, file, start) {
        Ok(_) => Err(Fault::CannotListen),
        Err((fault, _)) => Err(fault),
    }
}

// Serves connections from a store in memory.
fn serve_listed<
    J: Naming,
    H: Wait + Drop + Send,
    N: Net<Listener = TcpListener, Stream = TcpStream> + Threads + Wait + Clock + Sync,
    W: Write,
>(
    host: Host<'_, H, N>,
    store: u64,
    offer: Offer,
    writer: &mut TrackedWriter<W>,
) -> Result<(), Fault>
    requires named { host.opened.book ≡ J.book }
    requires unbroken_writer { writer.old.failed ≡ false }
    ensures ok { OnOk result (Announced offer.port writer.old writer.new) }
    ensures whole { OnOk result ((writer.new.failed ≡ false) × (writer.new.flushed ≡ true)) }
    ensures line { IfErr result (λ fault. fault ≢ Fault.CommandLine) }
    ensures failed { IfErr result (λ fault. StoppedServing offer.port fault writer.old writer.new) }
{
    let tables = Listed::new(host.rt.alloc(), store);
    if offer.workers != 1 {
        return share(host, tables, offer, writer);
    }
    match Answering::<Listed, J, H>::open(host.rt.alloc(), host.wait, host.opened, tables) {
        Ok(mut answering) => {
            match serve(host.rt, host.net, offer.port, &mut answering, writer) {
                Ok(()) => Ok(()),
                Err(fault) => Err(fault),
            }
        }
        Err((why, _)) => Err(Fault::Refused(why)),
    }
}

// Serves connections from the store in a file, one after the other, from a desk of its own. `start` says what the file holds.
fn serve_alone_in<
    P: Start,
    J: Naming,
    H: Wait + Drop,
    N: Net<Listener = TcpListener, Stream = TcpStream>,
    W: Write,
>(
    host: Host<'_, H, N>,
    file: &String,
    store: Option<u64>,
    port: u16,
    start: P,
    writer: &mut TrackedWriter<W>,
) -> Result<(), Fault>
    requires number { IfSome store (λ number. (1 ≤ number) × (number < 2 ^ 63)) }
    requires named { host.opened.book ≡ J.book }
    requires unbroken_writer { writer.old.failed ≡ false }
    ensures ok { OnOk result (Announced port writer.old writer.new) }
    ensures whole { OnOk result ((writer.new.failed ≡ false) × (writer.new.flushed ≡ true)) }
    ensures line { IfErr result (λ fault. fault ≢ Fault.CommandLine) }
    ensures failed { IfErr result (λ fault. NotAnnounced port fault writer.old writer.new) }
{
    match open_in::<P, J, H>(host.rt, host.wait, host.opened, file.as_str(), store, start) {
        Ok(mut answering) => serve(host.rt, host.net, port, &mut answering, writer),
        Err((fault, _)) => Err(fault),
    }
}

// The same, by as many workers as are wanted.
fn serve_in<
    P: Start + Send,
    H: Wait + Drop + Send,
    N: Net<Listener = TcpListener, Stream = TcpStream> + Threads + Wait + Clock + Sync,
    W: Write,
>(
    host: Host<'_, H, N>,
    file: &String,
    store: Option<u64>,
    offer: Offer,
    start: P,
    writer: &mut TrackedWriter<W>,
) -> Result<(), Fault>
    requires number { IfSome store (λ number. (1 ≤ number) × (number < 2 ^ 63)) }
    requires unbroken_writer { writer.old.failed ≡ false }
    ensures ok { OnOk result (Announced offer.port writer.old writer.new) }
    ensures whole { OnOk result ((writer.new.failed ≡ false) × (writer.new.flushed ≡ true)) }
    ensures line { IfErr result (λ fault. fault ≢ Fault.CommandLine) }
    ensures failed { IfErr result (λ fault. StoppedServing offer.port fault writer.old writer.new) }
{
    if offer.workers == 1 {
        return match serve_alone_in::<P, Brand, H, N, W>(
            host, file, store, offer.port, start, writer,
        ) {
            Ok(()) => Ok(()),
            Err(fault) => Err(fault),
        };
    }
    match tables_in(host.rt, file.as_str(), store, start) {
        Ok(tables) => share_over(host, tables, offer, writer),
        Err((fault, _)) => Err(fault),
    }
}

/// Serves connections from the store at a place. `start` says what its file holds.
pub(crate) fn serve_at<
    P: Start + Send,
    H: Wait + Drop + Send,
    N: Net<Listener = TcpListener, Stream = TcpStream> + Threads + Wait + Clock + Sync,
    W: Write,
>(
    host: Host<'_, H, N>,
    place: &Place,
    offer: Offer,
    start: P,
    writer: &mut TrackedWriter<W>,
) -> Result<(), Fault>
    requires unbroken_writer { writer.old.failed ≡ false }
    ensures ok { OnOk result (Announced offer.port writer.old writer.new) }
    ensures whole { OnOk result ((writer.new.failed ≡ false) × (writer.new.flushed ≡ true)) }
    ensures line { IfErr result (λ fault. fault ≢ Fault.CommandLine) }
    ensures failed { IfErr result (λ fault. StoppedServing offer.port fault writer.old writer.new) }
{
    match place {
        Place::Memory { store } => { serve_listed::<Brand, H, N, W>(host, *store, offer, writer) }
        Place::New { file, store } => {
            let start = see_new(host.rt, host.net, file.as_str(), *store, offer.port, start)?;
            serve_in(host, file, Some(*store), offer, start, writer)
        }
        Place::There { file } => {
            is_there(fs::open(host.rt, file.as_str()))?;
            serve_in(host, file, None, offer, start, writer)
        }
    }
}
