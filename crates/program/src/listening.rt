//! Listening for connections, and serving them.
ghost use Rattle.std.specs.Prelude.{◌≡◌, ◌≢◌, ◌⊎◌, ◌↔◌, true, false, IsTrue, IfOk, IfErr, IfSome, IfNone, OnOk, string_bytes};
ghost use Rattle.std.specs.Net.Socket.{socket_port};
ghost use Rattle.tracked_io.specs.Wrote.{WroteSome, nothing_taken};
ghost use Rattle.answers.specs.Ends.{is_read_fault, is_write_fault};
ghost use Rattle.http_api.specs.Routes.{table};
ghost use Rattle.http_api.specs.Talks.{TalkedAtEachRead};
ghost use Rattle.calls.specs.Rules.{DeskStep};
ghost use Rattle.server.specs.Sides.{unread, TalkedOver};
ghost use Rattle.runs.specs.Connections.{StaysServing};
ghost use Rattle.program.specs.Listening.{Announced, IsOwnAddress, IsPortFor, IsStartFault, NotAnnounced, listening_line};

use answers::End;
use calls::Answering;
use command_line::Fault;
use http_api::routes;
use matchit::Router;
use names::{Call, Refusal};
use published::Naming;
use runs::talk;
use server::{Arrivals, Patience, Peer, Sides, sides_of, take_leave};
use std::alloc::{AllocError, Global};
use std::io::{Read, Write};
use std::net::{IpAddr, Ipv4Addr, Net, SocketAddr, TcpListener, TcpStream};
use std::sync::Wait;
use std::thread;
use std::time::Duration;
use tables::Tables;
use tracked_io::{TrackedWriter, say};

// For how many milliseconds nothing is done after a failed accept: where no descriptors are left the next fails at once.
const PAUSE: u64 = 1;

fn line_of(alloc: Global, port: u16) -> Result<String, AllocError>
    ensures { IfOk result (λ line. string_bytes line ≡ listening_line port) }
{
    format!(in alloc; "listening 127.0.0.1:{port}\n")
}

// Whether it is this machine's own address.
fn is_own(address: &SocketAddr) -> bool
    ensures { IsTrue result ↔ IsOwnAddress address.now }
{
    match address.ip() {
        IpAddr::V4(ip) => matches!(ip.octets(), [127, 0, 0, 1]),
        IpAddr::V6(_) => false,
    }
}

// Whether it is a port that is had where `asked` is asked for.
fn is_port_for(asked: u16, port: u16) -> bool
    ensures { IsTrue result ↔ IsPortFor asked port }
{
    port != 0 && (asked == 0 || port == asked)
}

// Listens on this machine's own address, and tells where the system says that this is.
fn bind<N: Net<Listener = TcpListener, Stream = TcpStream>>(
    net: &N,
    asked: u16,
) -> Result<(TcpListener, SocketAddr), Fault>
    ensures address { IfOk result (λ bound. IsOwnAddress bound.1) }
    ensures port { IfOk result (λ bound. IsPortFor asked (socket_port bound.1)) }
    ensures cause { IfErr result (λ fault. fault ≡ Fault.CannotListen) }
    ensures start { IfErr result IsStartFault }
{
    let Ok(listener) = TcpListener::bind(net, (Ipv4Addr::LOCALHOST, asked)) else {
        return Err(Fault::CannotListen);
    };
    match listener.local_addr() {
        Ok(address) if is_own(&address) && is_port_for(asked, address.port()) => {
            Ok((listener, address))
        }
        _ => Err(Fault::CannotListen),
    }
}

/// Sees that a port of this machine's own address can be listened on.
pub(crate) fn see_port<N: Net<Listener = TcpListener, Stream = TcpStream>>(
    net: &N,
    port: u16,
) -> Result<(), Fault>
    ensures cause { IfErr result (λ fault. fault ≡ Fault.CannotListen) }
{
    match bind(net, port) {
        Ok(_) => Ok(()),
        Err(fault) => Err(fault),
    }
}

/// Listens on a port of this machine's own address, 0 for one that is free, and says so.
pub(crate) fn listen<N: Net<Listener = TcpListener, Stream = TcpStream>, W: Write>(
    alloc: Global,
    net: &N,
    port: u16,
    writer: &mut TrackedWriter<W>,
) -> Result<TcpListener, Fault>
    requires unbroken_writer { writer.old.failed ≡ false }
    ensures ok { OnOk result (Announced port writer.old writer.new) }
    ensures whole { OnOk result ((writer.new.failed ≡ false) × (writer.new.flushed ≡ true)) }
    ensures line { IfErr result (λ fault. fault ≢ Fault.CommandLine) }

    // A beginning of it was written where the writer failed, and else nothing.
    ensures failed { IfErr result (λ fault. NotAnnounced port fault writer.old writer.new) }
{
    let (listener, bound) = bind(net, port)?;
    let line = line_of(alloc, bound.port())?;
    let Ok(()) = say(writer, line.as_bytes()) else {
        return Err(Fault::CannotWrite);
    };
    Ok(listener)
}

// Serves one connection from a desk, that is read from this reader and written to this writer, and gives back its two sides.
// Where there is no memory for the buffer of what is written, there are none.
fn talk_over<T: Tables + Drop, J: Naming, H: Wait + Drop, R: Read + Drop, W: Write + Drop>(
    alloc: Global,
    routes: &Router<Call>,
    answering: &mut Answering<T, J, H>,
    reader: R,
    writer: W,
) -> (End, Option<Sides<R, W>>)
    requires { routes.now ≡ table }

    // The calls are those that were read of this reader, and this writer took the replies.
    ensures talked { IfSome result.1 (λ sides. TalkedOver (DeskStep T.Tables) R.remaining reader (nothing_taken (W.contents writer))
        answering.old result.0 answering.new sides.0 sides.1.taken) }

    // At each read, also of one that failed, each whole request of what was read before had its reply, handed on.
    ensures each_read { IfSome result.1 (λ sides.
        TalkedAtEachRead (DeskStep T.Tables) answering.old (nothing_taken (W.contents writer)) (unread reader) sides.0) }
    ensures read_failed { IfSome result.1 (λ sides. sides.0.failed ≡ is_read_fault result.0) }
    ensures write_failed { IfSome result.1 (λ sides. sides.1.failed ≡ is_write_fault result.0) }
    ensures flushed { IfSome result.1 (λ sides. sides.1.failed ≡ false → sides.1.flushed ≡ true) }
    ensures unserved { IfNone result.1 ((result.0 ≡ End.Memory) × (answering.new ≡ answering.old)) }
    ensures goes_on { StaysServing T.Tables answering.old answering.new }
{
    match sides_of(alloc, reader, writer) {
        Some((mut read, mut written)) => {
            let end = talk(alloc, routes, answering, &mut read, &mut written);
            (end, Some((read, written)))
        }
        None => (End::Memory, None),
    }
}

// Serves one connection, as patiently as it may.
fn serve_stream<T: Tables + Drop, J: Naming, H: Wait + Drop, P: Patience>(
    alloc: Global,
    routes: &Router<Call>,
    answering: &mut Answering<T, J, H>,
    stream: &TcpStream,
    patience: &P,
) -> End
    requires { routes.now ≡ table }
    ensures { StaysServing T.Tables answering.old answering.new }
{
    let peer = Peer::new(stream, patience);
    let (end, _sides) = talk_over(alloc, routes, answering, &peer, &peer);
    end
}

// Serves the next connection, as patiently as it may. Where none can be had there is a pause.
fn serve_next<T: Tables + Drop, J: Naming, H: Wait + Drop>(
    rt: &HostRuntime,
    arrivals: &Arrivals<'_, HostRuntime>,
    routes: &Router<Call>,
    answering: &mut Answering<T, J, H>,
)
    requires { routes.now ≡ table }
    ensures { StaysServing T.Tables answering.old answering.new }
{
    let Ok(stream) = arrivals.next() else {
        thread::sleep(rt, Duration::from_millis(PAUSE));
        return;
    };
    let end = serve_stream(rt.alloc(), routes, answering, &stream, arrivals);
    take_leave(&stream, end, arrivals);
}

// Serves one connection after another. However one of them ends, the next is served. One of which nothing comes is given up
// once another waits.
fn serve_each<'a, T: Tables + Drop, J: Naming, H: Wait + Drop>(
    rt: &'a HostRuntime,
    listener: &'a TcpListener,
    routes: &Router<Call>,
    answering: &mut Answering<T, J, H>,
)
    requires { routes.now ≡ table }
    ensures { StaysServing T.Tables answering.old answering.new }
{
    let arrivals = Arrivals::new(rt, listener);
    for _ in 0..u64::MAX {
        serve_next(rt, &arrivals, routes, answering);
    }
}

/// Listens on a port, 0 for one that is free, says so, and serves one connection after another from a desk.
pub fn serve<
    N: Net<Listener = TcpListener, Stream = TcpStream>,
    T: Tables + Drop,
    J: Naming,
    H: Wait + Drop,
    W: Write,
>(
    rt: &HostRuntime,
    net: &N,
    port: u16,
    answering: &mut Answering<T, J, H>,
    writer: &mut TrackedWriter<W>,
) -> Result<(), Fault>
    requires unbroken_writer { writer.old.failed ≡ false }
    ensures ok { OnOk result (Announced port writer.old writer.new) }
    ensures whole { OnOk result ((writer.new.failed ≡ false) × (writer.new.flushed ≡ true)) }
    ensures line { IfErr result (λ fault. fault ≢ Fault.CommandLine) }
    ensures failed { IfErr result (λ fault. NotAnnounced port fault writer.old writer.new) }
    ensures goes_on { StaysServing T.Tables answering.old answering.new }
{
    let Ok(routes) = routes(rt.alloc()) else {
        return Err(Fault::Refused(Refusal::Memory));
    };
    let listener = listen(rt.alloc(), net, port, writer)?;
    serve_each(rt, &listener, &routes, answering);
    Ok(())
}
