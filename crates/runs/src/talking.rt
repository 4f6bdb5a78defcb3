//! A desk that serves a connection over HTTP.
ghost use Rattle.std.specs.Prelude.{ℕ, ◌≡◌, ◌⊎◌, List, true, false};
ghost use Rattle.tracked_io.specs.Tracking.{Reads, ReadsAll};
ghost use Rattle.calls.specs.Rules.{DeskStep};
ghost use Rattle.answers.specs.Ends.{is_read_fault, is_write_fault};
ghost use Rattle.http_api.specs.Routes.{table};
ghost use Rattle.http_api.specs.Talks.{TalkedAtEachRead};
ghost use Rattle.runs.specs.Connections.{Serves, TalkedBy, TalkedSoFarBy, TalkCutBy, StaysServing};

use answers::End;
use calls::Answering;
use http_api::serve_by;
use matchit::Router;
use names::Call;
use published::Naming;
use std::alloc::Global;
use std::io::{Read, Write};
use std::sync::Wait;
use tables::Tables;
use tracked_io::{TrackedReader, TrackedWriter};

/// Serves one connection over HTTP/1.1 (RFC 9110, RFC 9112) until it ends, from where the desk was left. The next
/// connection goes on from where it leaves the desk.
///
/// The routes are those that [`routes`](http_api::routes) made. However it ends, the desk can serve another.
pub fn talk<T: Tables + Drop, J: Naming, H: Wait + Drop, R: Read, W: Write>(
    alloc: Global,
    routes: &Router<Call>,
    answering: &mut Answering<T, J, H>,
    reader: &mut TrackedReader<R>,
    writer: &mut TrackedWriter<W>,
) -> End
    requires routes { routes.now ≡ table }
    requires unbroken { (reader.old.failed ≡ false) × (writer.old.failed ≡ false) }

    // All that was there was read, and each request answered; or the last one breaks off.
    ensures closed { result ≡ End.Closed → (input : List ℕ) × ReadsAll R.remaining reader.old reader.new input
        × Serves T.Tables input (TalkedBy T.Tables writer.old input writer.new End.Closed) answering.old answering.new }
    ensures broken { result ≡ End.Broken → (input : List ℕ) × ReadsAll R.remaining reader.old reader.new input
        × Serves T.Tables input (TalkedBy T.Tables writer.old input writer.new End.Broken) answering.old answering.new }

    // The last reply says that the connection is closed.
    ensures asked { result ≡ End.Asked → (input : List ℕ) × Reads R.remaining reader.old reader.new input
        × Serves T.Tables input (TalkedBy T.Tables writer.old input writer.new End.Asked) answering.old answering.new }

    // There was no memory for the buffer, and nothing was read, answered or written; or none for a reply.
    ensures memory { result ≡ End.Memory → ((reader.new ≡ reader.old) × (writer.new ≡ writer.old) × (answering.new ≡ answering.old))
        ⊎ ((input : List ℕ) × Reads R.remaining reader.old reader.new input
        × Serves T.Tables input (TalkedBy T.Tables writer.old input writer.new End.Memory) answering.old answering.new) }

    // Each whole request of what was read was answered.
    ensures read_fault { result ≡ End.ReadFault → (input : List ℕ) × Reads R.remaining reader.old reader.new input
        × Serves T.Tables input (TalkedSoFarBy T.Tables writer.old input writer.new) answering.old answering.new }

    // Some first requests of what was read were answered, and a beginning of the text was written.
    ensures write_fault { result ≡ End.WriteFault → (input : List ℕ) × Reads R.remaining reader.old reader.new input
        × Serves T.Tables input (TalkCutBy T.Tables writer.old input writer.new) answering.old answering.new }

    // At each read, also of one that failed, each whole request of what was read before had its reply, handed on.
    ensures each_read { TalkedAtEachRead (DeskStep T.Tables) answering.old writer.old.taken reader.old reader.new }

    // A fault is told exactly where the flag of the tracked reader or writer is set in the call. Where the writer's is not, one
    // that held nothing back before holds nothing back.
    ensures failed { (reader.new.failed ≡ is_read_fault result) × (writer.new.failed ≡ is_write_fault result) }
    ensures flushed { writer.new.failed ≡ false → writer.old.flushed ≡ true → writer.new.flushed ≡ true }

    // However it ended, what is known of a desk that has served connections is still known.
    ensures goes_on { StaysServing T.Tables answering.old answering.new }
{
    serve_by(alloc, routes, reader, writer, answering)
}
