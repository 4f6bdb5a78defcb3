//! One connection.
ghost use Rattle.std.specs.Prelude.{ℕ, ◌≡◌, ◌⊎◌, List, [], true, false};
ghost use Rattle.tracked_io.specs.Tracking.{Reads, ReadsAll};
ghost use Rattle.answers.specs.Ends.{is_read_fault, is_write_fault};
ghost use Rattle.http_api.specs.Routes.{table};
ghost use Rattle.http_api.specs.Talks.{Talked, TalkedSoFar, TalkCut, TalkedAtEachRead};
ghost use Rattle.http_api.specs.inside.Held.{held};
ghost use Rattle.http_api.specs.inside.Receiving.{HandedOn};
ghost use Rattle.http_api.specs.inside.Going.{Finished};

use crate::inbox::Inbox;
use crate::receive::receive;
use crate::routing::routes;
use crate::settle::settle;
use answers::{Answers, End};
use matchit::Router;
use names::Call;
use std::alloc::Global;
use std::io::{Read, Write};
use tracked_io::{TrackedReader, TrackedWriter};

/// Reads requests and writes a reply for each, until the connection ends. It makes its own router; [`serve_by`] takes
/// one, so that many connections share it.
pub fn serve<R: Read, W: Write, A: Answers>(
    alloc: Global,
    reader: &mut TrackedReader<R>,
    writer: &mut TrackedWriter<W>,
    answers: &mut A,
) -> End
    requires unbroken_reader { reader.old.failed ≡ false }
    requires unbroken_writer { writer.old.failed ≡ false }

    // All that was there was read, and each request answered; or the last one breaks off.
    ensures closed { result ≡ End.Closed → (input : List ℕ) × ReadsAll R.remaining reader.old reader.new input
        × Talked A.step answers.old writer.old.taken input answers.new writer.new.taken End.Closed }
    ensures broken { result ≡ End.Broken → (input : List ℕ) × ReadsAll R.remaining reader.old reader.new input
        × Talked A.step answers.old writer.old.taken input answers.new writer.new.taken End.Broken }

    // The last reply says that the connection is closed.
    ensures asked { result ≡ End.Asked → (input : List ℕ) × Reads R.remaining reader.old reader.new input
        × Talked A.step answers.old writer.old.taken input answers.new writer.new.taken End.Asked }

    // There was no memory for the router or the buffer, and nothing was read, answered or written; or none for a reply.
    ensures memory { result ≡ End.Memory → ((reader.new ≡ reader.old) × (writer.new ≡ writer.old) × (answers.new ≡ answers.old))
        ⊎ ((input : List ℕ) × Reads R.remaining reader.old reader.new input
        × Talked A.step answers.old writer.old.taken input answers.new writer.new.taken End.Memory) }

    // Each whole request of what was read was answered.
    ensures read_fault { result ≡ End.ReadFault → (input : List ℕ) × Reads R.remaining reader.old reader.new input
        × TalkedSoFar A.step answers.old writer.old.taken input answers.new writer.new.taken }

    // Some first requests of what was read were answered, and a beginning of the text was written.
    ensures write_fault { result ≡ End.WriteFault → (input : List ℕ) × Reads R.remaining reader.old reader.new input
        × TalkCut A.step answers.old writer.old.taken input answers.new writer.new.taken }

    // At each read, also of one that failed, each whole request of what was read before had its reply, handed on.
    ensures each_read { TalkedAtEachRead A.step answers.old writer.old.taken reader.old reader.new }

    // A fault is told exactly where the flag of the tracked reader or writer is set in the call.
    ensures read_failed { reader.new.failed ≡ is_read_fault result }
    ensures write_failed { writer.new.failed ≡ is_write_fault result }
    ensures flushed { writer.new.failed ≡ false → writer.old.flushed ≡ true → writer.new.flushed ≡ true }
{
    match routes(alloc) {
        Ok(routes) => serve_by(alloc, &routes, reader, writer, answers),
        Err(_) => End::Memory,
    }
}

/// Reads requests and writes a reply for each, until the connection ends, over a router that [`routes`](crate::routes)
/// made. Each reply is handed on before more is read for.
///
/// The buffer is made first and does not grow: it has room for a head of 8,192 bytes and a body of 65,536. No body that
/// is refused is read. A request costs no memory but what the machine takes.
pub fn serve_by<R: Read, W: Write, A: Answers>(
    alloc: Global,
    routes: &Router<Call>,
    reader: &mut TrackedReader<R>,
    writer: &mut TrackedWriter<W>,
    answers: &mut A,
) -> End
    requires routes { routes.now ≡ table }
    requires unbroken_reader { reader.old.failed ≡ false }
    requires unbroken_writer { writer.old.failed ≡ false }

    // All that was there was read, and each request answered; or the last one breaks off.
    ensures closed { result ≡ End.Closed → (input : List ℕ) × ReadsAll R.remaining reader.old reader.new input
        × Talked A.step answers.old writer.old.taken input answers.new writer.new.taken End.Closed }
    ensures broken { result ≡ End.Broken → (input : List ℕ) × ReadsAll R.remaining reader.old reader.new input
        × Talked A.step answers.old writer.old.taken input answers.new writer.new.taken End.Broken }

    // The last reply says that the connection is closed.
    ensures asked { result ≡ End.Asked → (input : List ℕ) × Reads R.remaining reader.old reader.new input
        × Talked A.step answers.old writer.old.taken input answers.new writer.new.taken End.Asked }

    // There was no memory for the buffer, and nothing was read, answered or written; or none for a reply.
    ensures memory { result ≡ End.Memory → ((reader.new ≡ reader.old) × (writer.new ≡ writer.old) × (answers.new ≡ answers.old))
        ⊎ ((input : List ℕ) × Reads R.remaining reader.old reader.new input
        × Talked A.step answers.old writer.old.taken input answers.new writer.new.taken End.Memory) }

    // Each whole request of what was read was answered.
    ensures read_fault { result ≡ End.ReadFault → (input : List ℕ) × Reads R.remaining reader.old reader.new input
        × TalkedSoFar A.step answers.old writer.old.taken input answers.new writer.new.taken }

    // Some first requests of what was read were answered, and a beginning of the text was written.
    ensures write_fault { result ≡ End.WriteFault → (input : List ℕ) × Reads R.remaining reader.old reader.new input
        × TalkCut A.step answers.old writer.old.taken input answers.new writer.new.taken }

    // At each read, also of one that failed, each whole request of what was read before had its reply, handed on.
    ensures each_read { TalkedAtEachRead A.step answers.old writer.old.taken reader.old reader.new }

    // A fault is told exactly where the flag of the tracked reader or writer is set in the call.
    ensures read_failed { reader.new.failed ≡ is_read_fault result }
    ensures write_failed { writer.new.failed ≡ is_write_fault result }
    ensures flushed { writer.new.failed ≡ false → writer.old.flushed ≡ true → writer.new.flushed ≡ true }
{
    match Inbox::new(alloc) {
        Ok(mut inbox) => serve_on(routes, reader, writer, answers, &mut inbox),
        Err(_) => End::Memory,
    }
}

// The same, with a buffer that is there, and empty.
fn serve_on<R: Read, W: Write, A: Answers>(
    routes: &Router<Call>,
    reader: &mut TrackedReader<R>,
    writer: &mut TrackedWriter<W>,
    answers: &mut A,
    inbox: &mut Inbox,
) -> End
    requires empty { held inbox.old ≡ [] }
    requires routes { routes.now ≡ table }
    requires unbroken_reader { reader.old.failed ≡ false }
    requires unbroken_writer { writer.old.failed ≡ false }
    ensures finished { Finished A.step R.remaining (answers.old, reader.old, writer.old) (answers.new, reader.new, writer.new) result }
    ensures each_read { TalkedAtEachRead A.step answers.old writer.old.taken reader.old reader.new }
    ensures read_failed { reader.new.failed ≡ is_read_fault result }
    ensures handed_on { HandedOn writer.new result }
{
    let mut number: u64 = 0;
    loop {
        number += 1;
        let heading = match receive(routes, reader, writer, inbox) {
            Ok(heading) => heading,
            Err(end) => return end,
        };
        let whole = heading.head + heading.body;
        let body = &inbox.bytes()[heading.head..whole];
        match settle(writer, answers, heading, body, number) {
            Ok(()) => inbox.use_up(whole),
            Err(end) => return end,
        }
    }
}
