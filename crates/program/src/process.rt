//! The whole of the program, from what its process was given to what is left at its end.
ghost use Rattle.std.specs.Prelude.{◌≡◌, ◌≢◌, ◌≤◌, false, map, None, Err, IfOk, IfErr, IfSome, IsOkAnd, IsSomeAnd, true, string_bytes};
ghost use Rattle.std.specs.IoError.{error_kind};
ghost use Rattle.std.specs.Vec.Iter.{into_iter_items};
ghost use Rattle.sqlite_wal.specs.Files.{image_at};
ghost use Rattle.command_line.specs.declared.fault.Fault.TheVariants.{Refused};
ghost use Rattle.command_line.specs.Faults.{fault_status};
ghost use Rattle.command_line.specs.Words.{asks_to_serve};
ghost use Rattle.program.specs.Ends.{EndsWith, IsUnbegun, unbroken, untouched};
ghost use Rattle.program.specs.Ran.{AreWhole, Obeyed, Stopped};
ghost use Rattle.program.specs.Telling.{Tells};

use crate::command::command;
use crate::host::Host;
use crate::telling::tell;
use command_line::Fault;
use names::Refusal;
use runs::{Left, close};
use sqlite::{FileFrom, FileStore, Start};
use sqlite_disk::Files;
use std::env::Args;
use std::io;
use std::io::{ErrorKind, Read, Write};
use std::net::{Net, TcpListener, TcpStream};
use std::sync::Wait;
use std::thread::Threads;
use std::time::Clock;
use tracked_io::{TrackedReader, TrackedWriter};

/// What is left of the files of a run: what closing them left; or what the work left, where they are not closed.
pub type Closed<P> = Result<Result<Files<FileFrom<P>>, FileStore<FileFrom<P>>>, Left<P>>;

// Closes a file over which all went well, so that its log is copied. Any other is left as it is, for the next opening to
// recover. A refusal to close loses nothing.
fn closed<P: Start>(status: u8, left: Left<P>) -> Closed<P>
    ensures { EndsWith status left result }
{
    if status != 0 {
        return Err(left);
    }
    match left {
        Ok(conn) => Ok(close(conn)),
        Err(left) => Err(Err(left)),
    }
}

// Why there are no words. Words that are no text are on no command line of the program's.
fn told_of(e: io::Error) -> Fault
    ensures memory { error_kind e ≡ ErrorKind.OutOfMemory → result ≡ Refused Refusal.Memory }
    ensures no_text { error_kind e ≢ ErrorKind.OutOfMemory → result ≡ Fault.CommandLine }
{
    if e.kind() == ErrorKind::OutOfMemory {
        Fault::Refused(Refusal::Memory)
    } else {
        Fault::CommandLine
    }
}

// The writer, in which nothing is written yet.
fn untouched<W: Write>(output: io::Result<W>) -> Option<TrackedWriter<W>>
    ensures { result ≡ untouched W.contents output }
{
    match output {
        Ok(output) => Some(TrackedWriter::new(output)),
        Err(_) => None,
    }
}

// Tells of a fault for which nothing is begun.
fn unbegun<P: Start, W: Write, E: Write>(
    errors: &mut TrackedWriter<E>,
    fault: Fault,
    output: io::Result<W>,
) -> (u8, Closed<P>, Option<TrackedWriter<W>>)
    requires unbroken_errors { errors.old.failed ≡ false }
    ensures status { result.0 ≡ fault_status fault }
    ensures no_files { result.1 ≡ Err (Err None) }
    ensures unwritten { result.2 ≡ untouched W.contents output }
    ensures told { Tells errors.old errors.new fault }
{
    tell(errors, &fault);
    (fault.status(), Err(Err(None)), untouched(output))
}

/// Does what its process was given to do: what it stands on, or why the system gives it no key, which is told as a fault of
/// reading; these words, or why there are none; where to read; where to write, or why there is no such place, which is for
/// want of memory; where to tell of a fault. `start` says what the files held. It answers the status that the process ends
/// with, what is left of the files, and the writer.
pub fn program<
    P: Start + Send,
    H: Wait + Drop + Send,
    N: Net<Listener = TcpListener, Stream = TcpStream> + Threads + Wait + Clock + Sync,
    R: Read,
    W: Write,
    E: Write,
>(
    host: io::Result<Host<'_, H, N>>,
    words: io::Result<Args>,
    start: P,
    reader: &mut TrackedReader<R>,
    output: io::Result<W>,
    errors: &mut TrackedWriter<E>,
) -> (u8, Closed<P>, Option<TrackedWriter<W>>)
    requires unbroken_reader { reader.old.failed ≡ false }
    requires unbroken_errors { errors.old.failed ≡ false }

    // A task was done, all that it wrote was handed on, its file was closed, and nothing was told.
    ensures done { result.0 ≡ 0 → IsOkAnd words (λ words. IsOkAnd output (λ output. IsSomeAnd result.2 (λ writer. (left : _)
        × Obeyed (image_at P.Start) (asks_to_serve (map string_bytes (into_iter_items words)))
        R.remaining (reader.old, unbroken (W.contents output) output) (reader.new, writer) left
        × AreWhole reader.new writer × EndsWith 0 left result.1))) }
    ensures quiet { result.0 ≡ 0 → errors.new ≡ errors.old }

    // A task was stopped, and its file is as that left it.
    ensures stopped { result.0 ≡ 1 → IfOk words (λ words. IfOk output (λ output. IfOk host.entry (λ _. IsSomeAnd result.2 (λ writer. (left : _)
        × Stopped (image_at P.Start) (asks_to_serve (map string_bytes (into_iter_items words)))
        R.remaining (reader.old, unbroken (W.contents output) output) (reader.new, writer) left
        (Tells errors.old errors.new) (errors.new ≡ errors.old)
        × EndsWith 1 left result.1)))) }

    // The words were none of the program's. Nothing was begun.
    ensures refused { result.0 ≡ 2 → IfOk words (λ _. IfOk output (λ _.
        IsUnbegun W.contents Fault.CommandLine output result.0 result.1 result.2 reader.old reader.new errors.old errors.new)) }

    // There were no words, or there was no memory for the writer, or the system gave no key. Nothing was begun.
    ensures unread { IfErr words (λ e. error_kind e ≡ ErrorKind.OutOfMemory
        → IsUnbegun W.contents (Refused Refusal.Memory) output result.0 result.1 result.2 reader.old reader.new errors.old errors.new) }
    ensures no_text { IfErr words (λ e. error_kind e ≢ ErrorKind.OutOfMemory
        → IsUnbegun W.contents Fault.CommandLine output result.0 result.1 result.2 reader.old reader.new errors.old errors.new) }
    ensures no_writer { IfOk words (λ _. IfErr output (λ _.
        IsUnbegun W.contents (Refused Refusal.Memory) output result.0 result.1 result.2 reader.old reader.new errors.old errors.new)) }
    ensures no_key { IfOk words (λ _. IfOk output (λ _. IfErr host.entry (λ _.
        IsUnbegun W.contents Fault.CannotRead output result.0 result.1 result.2 reader.old reader.new errors.old errors.new))) }
    ensures status { result.0 ≤ 2 }

    // Whatever the status, all that was written was handed on, where no write failed.
    ensures flushed { IfSome result.2 (λ writer. writer.failed ≡ false → writer.flushed ≡ true) }
{
    let words = match words {
        Ok(words) => words,
        Err(e) => return unbegun(errors, told_of(e), output),
    };
    let output = match output {
        Ok(output) => output,
        Err(e) => return unbegun(errors, Fault::Refused(Refusal::Memory), Err(e)),
    };
    let host = match host {
        Ok(host) => host,
        Err(_) => return unbegun(errors, Fault::CannotRead, Ok(output)),
    };
    let mut writer = TrackedWriter::new(output);
    let (status, left) = command(host, words, start, reader, &mut writer, errors);
    (status, closed(status, left), Some(writer))
}
