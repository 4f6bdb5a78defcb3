//! The loop.
ghost use Rattle.std.specs.Prelude.{ℕ, ◌≡◌, ◌≢◌, List, true, false};
ghost use Rattle.lines.specs.Served.{Served, Paused, Cut, PausedAtEachRead};
ghost use Rattle.answers.specs.Ends.{is_read_fault, is_write_fault};
ghost use Rattle.tracked_io.specs.Tracking.{Reads, ReadsAll};

use crate::feed::{feed_all, finish};
use crate::pending::Pending;
use answers::{Answers, End};
use std::alloc::Global;
use std::io::{Read, Write};
use tracked_io::{TrackedReader, TrackedWriter};

/// Reads calls as lines, and writes a line for each. Each answer is handed on before the next is read for.
///
/// A line ends at an LF or at the end of the input; what precedes its first space is the word of a call,
/// what follows it the body. A body of over 65,536 bytes and then a word that names no call are answered
/// without the machine. The buffers are made first, and do not grow.
pub fn lines<R: Read, W: Write, A: Answers>(
    alloc: Global,
    reader: &mut TrackedReader<R>,
    writer: &mut TrackedWriter<W>,
    answers: &mut A,
) -> End
    requires unbroken_reader { reader.old.failed ≡ false }
    requires unbroken_writer { writer.old.failed ≡ false }

    // All that was there was read, each line answered, and the answers handed on.
    ensures closed { result ≡ End.Closed → (input : List ℕ) × ReadsAll R.remaining reader.old reader.new input
        × Served A.step answers.old writer.old.taken input answers.new writer.new.taken }
    ensures handed_on { result ≡ End.Closed → writer.new.flushed ≡ true }

    // Each whole line of what was read was answered.
    ensures read_fault { result ≡ End.ReadFault → (input : List ℕ) × Reads R.remaining reader.old reader.new input
        × Paused A.step answers.old writer.old.taken input answers.new writer.new.taken }

    // Some first lines of what was read were answered, and a beginning of the answers was written. A line without an LF is one
    // of them only where the last read said that there is no more.
    ensures write_fault { result ≡ End.WriteFault → (input : List ℕ) × Reads R.remaining reader.old reader.new input
        × Cut A.step answers.old writer.old.taken reader.new.reads input answers.new writer.new.taken }

    // At each read, also of one that failed, each whole line of what was read before was answered, and the answers
    // handed on.
    ensures each_read { PausedAtEachRead A.step answers.old writer.old.taken reader.old reader.new }

    // A fault is told exactly where the flag of the tracked reader or writer is set in the call.
    ensures read_failed { reader.new.failed ≡ is_read_fault result }
    ensures write_failed { writer.new.failed ≡ is_write_fault result }
    ensures flushed { writer.new.failed ≡ false → writer.old.flushed ≡ true → writer.new.flushed ≡ true }

    ensures memory { result ≡ End.Memory → (reader.new ≡ reader.old)
        × (writer.new ≡ writer.old) × (answers.new ≡ answers.old) }
    ensures never_asked { result ≢ End.Asked }
    ensures never_broken { result ≢ End.Broken }
{
    let Ok(mut line) = Pending::new(alloc) else {
        return End::Memory;
    };
    let mut chunk = [0u8; 4096];
    loop {
        if writer.flush().is_err() {
            return End::WriteFault;
        }
        let Ok(n) = reader.read(writer, &mut chunk) else {
            return End::ReadFault;
        };
        if n == 0 {
            return match finish(writer, answers, &line) {
                Ok(()) => End::Closed,
                Err(_) => End::WriteFault,
            };
        }
        if feed_all(writer, answers, &mut line, &chunk[..n]).is_err() {
            return End::WriteFault;
        }
    }
}
