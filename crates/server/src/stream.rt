//! One connection over TCP.
ghost use Rattle.std.specs.Prelude.{◌≡◌, ◌≤◌, ◌*◌, ◌⊎◌, [], false, true, IfSome, IfNone};
ghost use Rattle.std.specs.Io.Buffered.{writer_buffer, writer_inner};
ghost use Rattle.tracked_io.specs.Wrote.{nothing_taken};
ghost use Rattle.answers.specs.Ends.{is_read_fault, is_write_fault};
ghost use Rattle.http_api.specs.Routes.{table};
ghost use Rattle.http_api.specs.Talks.{TalkedAtEachRead};
ghost use Rattle.server.specs.Attending.{Attended};
ghost use Rattle.server.specs.Sides.{unread, TalkedOver};

use crate::peer::Peer;
use crate::waited::PATIENCE;
use crate::waiting::Patience;
use answers::{Answers, End};
use http_api::serve_by;
use matchit::Router;
use names::Call;
use std::alloc::Global;
use std::io::{BufWriter, Read, Write};
use std::net::{Shutdown, TcpStream};
use std::time::Duration;
use tracked_io::{TrackedReader, TrackedWriter};

/// For how many milliseconds a read waits for a peer that was refused to end its side.
const LINGER: u64 = 100;

/// How many pieces are read of what such a peer still sends.
const PIECES: u64 = 256;

/// How many bytes a piece has at most.
const PIECE_LEN: usize = 4_096;

/// What a connection is read and written by.
pub type Sides<R, W> = (TrackedReader<R>, TrackedWriter<BufWriter<W>>);

/// The sides of a connection that is read from this reader and written to this writer, of which what is written goes out
/// at each flush. There are none where there is no memory for the buffer of what is written.
pub fn sides_of<R: Read + Drop, W: Write + Drop>(
    alloc: Global,
    reader: R,
    writer: W,
) -> Option<Sides<R, W>>
    ensures reader { IfSome result (λ sides. sides.0.failed ≡ false) }
    ensures read_from { IfSome result (λ sides. sides.0.inner ≡ reader) }
    ensures unread { IfSome result (λ sides. sides.0.reads ≡ []) }
    ensures writer { IfSome result (λ sides. sides.1.failed ≡ false) }
    ensures written_to { IfSome result (λ sides. writer_inner sides.1.inner ≡ writer) }
    ensures flushed { IfSome result (λ sides. sides.1.flushed ≡ true) }
    ensures unwritten { IfSome result (λ sides. sides.1.taken ≡ nothing_taken (W.contents writer)) }
    ensures empty { IfSome result (λ sides. writer_buffer sides.1.inner ≡ []) }
{
    let Ok(out) = BufWriter::new(alloc, writer) else {
        return None;
    };
    Some((TrackedReader::new(reader), TrackedWriter::new(out)))
}

/// Serves one connection that is read from this reader and written to this writer, and gives back its two sides. Where there
/// is no memory for the buffer of what is written, there are none. The routes are those that
/// [`routes`](http_api::routes) made.
pub fn serve_sides<R: Read + Drop, W: Write + Drop, A: Answers>(
    alloc: Global,
    routes: &Router<Call>,
    reader: R,
    writer: W,
    answers: &mut A,
) -> (End, Option<Sides<R, W>>)
    requires { routes.now ≡ table }

    // The calls are those that were read of this reader, and this writer took the replies.
    ensures talked { IfSome result.1 (λ sides. TalkedOver A.step R.remaining reader (nothing_taken (W.contents writer))
        answers.old result.0 answers.new sides.0 sides.1.taken) }

    // At each read, also of one that failed, each whole request of what was read before had its reply, handed on.
    ensures each_read { IfSome result.1 (λ sides.
        TalkedAtEachRead A.step answers.old (nothing_taken (W.contents writer)) (unread reader) sides.0) }

    // A fault is told exactly where the flag of the reader or writer is set. Where the writer's is not, nothing is held back.
    ensures read_failed { IfSome result.1 (λ sides. sides.0.failed ≡ is_read_fault result.0) }
    ensures write_failed { IfSome result.1 (λ sides. sides.1.failed ≡ is_write_fault result.0) }
    ensures flushed { IfSome result.1 (λ sides. sides.1.failed ≡ false → sides.1.flushed ≡ true) }
    ensures unserved { IfNone result.1 ((result.0 ≡ End.Memory) × (answers.new ≡ answers.old)) }
{
    match sides_of(alloc, reader, writer) {
        Some((mut read, mut written)) => {
            let end = serve_by(alloc, routes, &mut read, &mut written, answers);
            (end, Some((read, written)))
        }
        None => (End::Memory, None),
    }
}

/// Serves one connection, as patiently as it may. The routes are those that [`routes`](http_api::routes) made.
pub fn serve_stream<A: Answers, P: Patience>(
    alloc: Global,
    routes: &Router<Call>,
    stream: &TcpStream,
    patience: &P,
    answers: &mut A,
) -> End
    requires { routes.now ≡ table }
    ensures { Attended A.step answers.old result answers.new }
{
    let peer = Peer::new(stream, patience);
    let (end, _sides) = serve_sides(alloc, routes, &peer, &peer, answers);
    end
}

/// Before a connection is closed that ended so: where its peer was refused, it ends the sending side, and reads for a
/// while what the peer had sent before it knew. A socket that is closed with bytes unread resets the connection, and the
/// peer may lose the reply that it was just sent (RFC 9112, section 9.6). It answers how many bytes it has thrown away.
pub fn take_leave<P: Patience>(stream: &TcpStream, end: End, patience: &P) -> u64
    ensures refused { (result ≡ 0) ⊎ ((end ≡ End.Asked) ⊎ (end ≡ End.Memory)) }
    ensures bounded { result ≤ PIECES * PIECE_LEN }
{
    if end != End::Asked && end != End::Memory {
        return 0;
    }
    let told = stream.shutdown(Shutdown::Write);
    let bounded = stream.set_read_timeout(Some(Duration::from_millis(LINGER)));
    if told.is_err() || bounded.is_err() {
        return 0;
    }
    let mut from = stream;
    throw_away(&mut from, patience)
}

// Reads what comes until it ends or fails, for as long as a worker waits for a peer, and so many pieces of it at most.
fn throw_away<R: Read, P: Patience>(from: &mut R, patience: &P) -> u64
    ensures { result ≤ PIECES * PIECE_LEN }
{
    let began = patience.now();
    let mut piece = [0u8; PIECE_LEN];
    let mut thrown = 0u64;
    for _ in 0..PIECES {
        if patience.now().saturating_sub(began) > PATIENCE {
            return thrown;
        }
        match from.read(&mut piece) {
            Ok(0) => return thrown,
            Ok(n) => thrown += n as u64,
            Err(_) => return thrown,
        }
    }
    thrown
}
