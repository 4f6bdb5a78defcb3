//! The program, but for its process.
ghost use Rattle.std.specs.Prelude.{◌≡◌, ◌≢◌, ◌≤◌, ◌<◌, ◌^◌, ◌⊎◌, true, false, None, Err, IfOk, IfErr, IfSome, IsTrue, OnOk, map, string_bytes};
ghost use Rattle.std.specs.Vec.Iter.{into_iter_items};
ghost use Rattle.sqlite_wal.specs.Files.{image_at};
ghost use Rattle.command_line.specs.declared.fault.Fault.TheVariants.{Refused};
ghost use Rattle.command_line.specs.Faults.{IsRunFault, IsLineFault};
ghost use Rattle.command_line.specs.Words.{asks_to_serve, OnServe};
ghost use Rattle.runs.specs.Runs.{is_read_fault, is_write_fault};
ghost use Rattle.program.specs.Ran.{AreWhole, RanAt, RefusedAt, Reported, StoppedReport, IsReport, DoneOf, StoppedOf, Obeyed, Stopped, all_lines, whole_lines, first_lines};
ghost use Rattle.program.specs.Telling.{Tells};

use crate::host::Host;
use crate::place::{is_number, is_there};
use crate::serving::{Offer, serve_at};
use crate::telling::tell;
use command_line::{Fault, Place, Task, read_file, report_of, task_of};
use names::Refusal;
use published::Opened;
use runs::{Left, run, run_in};
use sqlite::Start;
use std::alloc::Global;
use std::env::Args;
use std::fs;
use std::hash::RandomState;
use std::io::{Read, Write};
use std::marker::Brand;
use std::net::{Net, TcpListener, TcpStream};
use std::rt::Files;
use std::sync::Wait;
use std::thread::Threads;
use std::time::Clock;
use tables::Listed;
use tracked_io::{TrackedReader, TrackedWriter, say};

// Prints what there is to say of a file's configuration, and answers the status that the process ends with.
fn report<F: Files, W: Write>(
    alloc: Global,
    files: &F,
    path: &str,
    writer: &mut TrackedWriter<W>,
) -> Result<u8, Fault>
    requires unbroken_writer { writer.old.failed ≡ false }
    ensures accepted { IfOk result (λ status. status ≡ 0 → Reported true writer.old writer.new) }
    ensures refused { IfOk result (λ status. status ≡ 1 → Reported false writer.old writer.new) }
    ensures whole { IfOk result (λ _. (writer.new.failed ≡ false) × (writer.new.flushed ≡ true)) }
    ensures status { IfOk result (λ status. status ≤ 1) }
    ensures line { IfErr result (λ fault. fault ≢ Fault.CommandLine) }

    // A beginning of it was written where the writer failed, and else nothing.
    ensures failed { IfErr result (λ fault. StoppedReport fault writer.old writer.new) }
{
    let bytes = read_file(alloc, files, path)?;
    let report = report_of(alloc, &bytes)?;
    let Ok(()) = say(writer, report.text.as_bytes()) else {
        return Err(Fault::CannotWrite);
    };
    if report.accepted { Ok(0) } else { Ok(1) }
}

// Answers lines from the store at a place. `start` says what its file holds. Names are hashed under this key.
fn run_at<P: Start, H: Wait + Drop, R: Read, W: Write>(
    rt: &HostRuntime,
    keys: RandomState,
    wait: H,
    place: &Place,
    start: P,
    reader: &mut TrackedReader<R>,
    writer: &mut TrackedWriter<W>,
) -> (Result<(), Fault>, Left<P>)
    requires unbroken_reader { reader.old.failed ≡ false }
    requires unbroken_writer { writer.old.failed ≡ false }
    ensures ok { OnOk result.0 (RanAt (image_at P.Start) all_lines place.now R.remaining (reader.old, writer.old) (reader.new, writer.new) result.1) }
    ensures handed_on { OnOk result.0 (writer.new.flushed ≡ true) }
    ensures cannot_read { IfErr result.0 (λ fault. fault ≡ Fault.CannotRead
        → RanAt (image_at P.Start) whole_lines place.now R.remaining (reader.old, writer.old) (reader.new, writer.new) result.1) }
    ensures cannot_write { IfErr result.0 (λ fault. fault ≡ Fault.CannotWrite
        → RanAt (image_at P.Start) first_lines place.now R.remaining (reader.old, writer.old) (reader.new, writer.new) result.1) }
    ensures read_failed { reader.new.failed ≡ is_read_fault result.0 }
    ensures write_failed { writer.new.failed ≡ is_write_fault result.0 }
    ensures flushed { writer.new.failed ≡ false → writer.old.flushed ≡ true → writer.new.flushed ≡ true }
    ensures refused { IfErr result.0 (λ fault. (why : Refusal) → fault ≡ Refused why
        → (reader.new ≡ reader.old) × (writer.new ≡ writer.old) × RefusedAt (image_at P.Start) place.now fault result.1) }
    ensures cause { IfErr result.0 IsRunFault }
{
    match place {
        Place::Memory { store } => {
            let alloc = rt.alloc();
            let tables = Listed::new(alloc, *store);
            let ended = run::<Listed, Brand, H, R, W>(
                alloc,
                wait,
                Opened::new(keys),
                tables,
                reader,
                writer,
            );
            (ended.0, Err(None))
        }
        Place::New { file, store } => {
            if !is_number(*store) {
                return (Err(Fault::Refused(Refusal::StoreFault)), Err(None));
            }
            let file = file.as_str();
            run_in(rt, keys, wait, file, Some(*store), start, reader, writer)
        }
        Place::There { file } => {
            if let Err(fault) = is_there(fs::open(rt, file.as_str())) {
                return (Err(fault), Err(None));
            }
            run_in(rt, keys, wait, file.as_str(), None, start, reader, writer)
        }
    }
}

/// Does a task, and answers the status that the process ends with, and what is left of the file of a run, of which
/// `start` says what it held.
pub fn obey<
    P: Start + Send,
    H: Wait + Drop + Send,
    N: Net<Listener = TcpListener, Stream = TcpStream> + Threads + Wait + Clock + Sync,
    R: Read,
    W: Write,
>(
    host: Host<'_, H, N>,
    task: Task,
    start: P,
    reader: &mut TrackedReader<R>,
    writer: &mut TrackedWriter<W>,
) -> (Result<u8, Fault>, Left<P>)
    requires unbroken_reader { reader.old.failed ≡ false }
    requires unbroken_writer { writer.old.failed ≡ false }

    // A run is over the place that the task names.
    ensures done { IfOk result.0 (λ status. status ≡ 0
        → DoneOf (image_at P.Start) task R.remaining (reader.old, writer.old) (reader.new, writer.new) result.1) }
    ensures told { IfOk result.0 (λ status. status ≡ 1
        → IsReport task × (reader.new ≡ reader.old) × Reported false writer.old writer.new × (result.1 ≡ Err None)) }
    ensures whole { IfOk result.0 (λ _. AreWhole reader.new writer.new) }
    ensures status { IfOk result.0 (λ status. status ≤ 1) }
    ensures stopped { IfErr result.0 (λ fault.
        StoppedOf (image_at P.Start) task fault R.remaining (reader.old, writer.old) (reader.new, writer.new) result.1) }

    // However it ends, where no write failed, a writer that held nothing back before holds nothing back.
    ensures flushed { writer.new.failed ≡ false → writer.old.flushed ≡ true → writer.new.flushed ≡ true }
    ensures line { IfErr result.0 (λ fault. fault ≢ Fault.CommandLine) }
{
    match task {
        Task::Run { place } => {
            let keys = host.opened.keys;
            let (ended, left) = run_at(host.rt, keys, host.wait, &place, start, reader, writer);
            match ended {
                Ok(()) => (Ok(0), left),
                Err(fault) => (Err(fault), left),
            }
        }
        Task::Serve {
            place,
            port,
            workers,
        } => {
            let offer = Offer { port, workers };
            match serve_at(host, &place, offer, start, writer) {
                Ok(()) => (Ok(0), Err(None)),
                Err(fault) => (Err(fault), Err(None)),
            }
        }
        Task::Config { file } => {
            let rt = host.rt;
            (report(rt.alloc(), rt, file.as_str(), writer), Err(None))
        }
    }
}

// The words, in a list.
fn list_of(alloc: Global, words: Args) -> Result<Vec<String>, Fault>
    ensures items { IfOk result (λ all. all.items ≡ into_iter_items words) }
    ensures err { IfErr result IsLineFault }
{
    Ok(words.collect(alloc)?)
}

// What the words ask for.
fn task_named(alloc: Global, words: Args) -> Result<Task, Fault>
    ensures serves { IfOk result (λ task. OnServe task (IsTrue (asks_to_serve (map string_bytes (into_iter_items words))))) }
    ensures err { IfErr result IsLineFault }
{
    let listed = list_of(alloc, words)?;
    task_of(alloc, listed.as_slice())
}

/// Does what the words say, tells of a fault on `errors`, and answers the status that the process ends with, and
/// what is left of the file that it ran over, of which `start` says what it held.
pub fn command<
    P: Start + Send,
    H: Wait + Drop + Send,
    N: Net<Listener = TcpListener, Stream = TcpStream> + Threads + Wait + Clock + Sync,
    R: Read,
    W: Write,
    E: Write,
>(
    host: Host<'_, H, N>,
    words: Args,
    start: P,
    reader: &mut TrackedReader<R>,
    writer: &mut TrackedWriter<W>,
    errors: &mut TrackedWriter<E>,
) -> (u8, Left<P>)
    requires unbroken_reader { reader.old.failed ≡ false }
    requires unbroken_writer { writer.old.failed ≡ false }
    requires unbroken_errors { errors.old.failed ≡ false }

    // A task was done; which one, the words say, and of that a contract knows whether it is to serve.
    ensures done { result.0 ≡ 0 → Obeyed (image_at P.Start) (asks_to_serve (map string_bytes (into_iter_items words)))
        R.remaining (reader.old, writer.old) (reader.new, writer.new) result.1 }
    ensures whole { result.0 ≡ 0 → AreWhole reader.new writer.new }
    ensures quiet { result.0 ≡ 0 → errors.new ≡ errors.old }
    ensures stopped { result.0 ≡ 1 → Stopped (image_at P.Start) (asks_to_serve (map string_bytes (into_iter_items words)))
        R.remaining (reader.old, writer.old) (reader.new, writer.new) result.1
        (Tells errors.old errors.new) (errors.new ≡ errors.old) }

    // Nothing was read or written, and of files nothing is handed back.
    ensures refused { result.0 ≡ 2 → (reader.new ≡ reader.old) × (writer.new ≡ writer.old) × (result.1 ≡ Err None)
        × Tells errors.old errors.new Fault.CommandLine }
    ensures status { result.0 ≤ 2 }

    // Whatever the status, where no write failed, a writer that held nothing back before holds nothing back.
    ensures flushed { writer.new.failed ≡ false → writer.old.flushed ≡ true → writer.new.flushed ≡ true }
{
    match task_named(host.rt.alloc(), words) {
        Ok(task) => {
            let (obeyed, left) = obey(host, task, start, reader, writer);
            match obeyed {
                Ok(status) => (status, left),
                Err(fault) => {
                    tell(errors, &fault);
                    (fault.status(), left)
                }
            }
        }
        Err(fault) => {
            tell(errors, &fault);
            (fault.status(), Err(None))
        }
    }
}
