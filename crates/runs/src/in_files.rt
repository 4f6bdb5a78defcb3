//! A run over a database file.
ghost use Rattle.std.specs.Prelude.{ℕ, ◌≡◌, ◌≤◌, ◌<◌, ◌^◌, List, true, false, None, IfErr, IfOk, IfSome, IsOkAnd, OnOk, Err};
ghost use Rattle.sqlite_wal.specs.Files.{image_at};
ghost use Rattle.sqlite.specs.State.{HasCleanDisk};
ghost use Rattle.sqlite.specs.Files.{file_state, over_files};
ghost use Rattle.names.specs.declared.refusal.Refusal.TheVariants.{StoreFault};
ghost use Rattle.tables.specs.Device.{Lasts, sound_device};
ghost use Rattle.command_line.specs.declared.fault.Fault.TheVariants.{Refused};
ghost use Rattle.command_line.specs.Faults.{IsRunFault};
ghost use Rattle.tracked_io.specs.Tracking.{Reads, ReadsAll};
ghost use Rattle.sqlite_tables.specs.Leaves.{IsBlank};
ghost use Rattle.store.specs.History.{device_below};
ghost use Rattle.store.specs.StoreParts.{connection};
ghost use Rattle.runs.specs.Files.{FindsHistories, IsFoundIn, IsUnopened, IsRefusedFor};
ghost use Rattle.runs.specs.Runs.{ServedBy, PausedBy, CutBy, is_read_fault, is_write_fault};
ghost use Rattle.runs.specs.Over.{over, BeginsIn, EndedOver, OpenedOver, TablesOver, CannotBeginIn, LeavesRefusedIn, IsDeservedIn};

use crate::files::{Left, find};
use crate::over::{fault_of, open_over, run_over, start as tables_over};
use calls::Answering;
use command_line::Fault;
use names::Refusal;
use published::{Naming, Opened};
use sqlite::{Connection, Error, ErrorCode, FileFrom, FileStore, Leftover, Start};
use sqlite_tables::is_blank;
use std::hash::RandomState;
use std::io::{Read, Write};
use std::sync::Wait;
use store::Store;
use tracked_io::{TrackedReader, TrackedWriter};

/// Answers lines from the store in the files at a path, of which `start` says what they hold, and hands on what
/// is left of them. With a number the tables of a new store are made. Names are hashed under this key.
pub fn run_in<P: Start, H: Wait + Drop, R: Read, W: Write>(
    rt: &HostRuntime,
    keys: RandomState,
    wait: H,
    path: &str,
    store: Option<u64>,
    start: P,
    reader: &mut TrackedReader<R>,
    writer: &mut TrackedWriter<W>,
) -> (Result<(), Fault>, Left<P>)
    requires number { IfSome store (λ number. (1 ≤ number) × (number < 2 ^ 63)) }
    requires unbroken { (reader.old.failed ≡ false) × (writer.old.failed ≡ false) }

    // All that was there was read, each line answered, and the answers handed on. Here and below none was held back: at
    // each read, also of one that failed, each whole line of what was read before had its answer, handed on.
    ensures ok { OnOk result.0 ((writer.new.flushed ≡ true) × ((input : List ℕ) × ReadsAll R.remaining reader.old reader.new input × IsOkAnd result.1
        (EndedOver over_files (BeginsIn (image_at P.Start) store) input
        (ServedBy (over over_files) (reader.old, writer.old) input (reader.new, writer.new))))) }

    // Each whole line of what was read was answered.
    ensures cannot_read { IfErr result.0 (λ fault. fault ≡ Fault.CannotRead → (input : List ℕ)
        × Reads R.remaining reader.old reader.new input × IsOkAnd result.1
        (EndedOver over_files (BeginsIn (image_at P.Start) store) input
        (PausedBy (over over_files) (reader.old, writer.old) input (reader.new, writer.new)))) }

    // Some first lines of what was read were answered, and a beginning of the answers was written.
    ensures cannot_write { IfErr result.0 (λ fault. fault ≡ Fault.CannotWrite → (input : List ℕ)
        × Reads R.remaining reader.old reader.new input × IsOkAnd result.1
        (EndedOver over_files (BeginsIn (image_at P.Start) store) input
        (CutBy (over over_files) (reader.old, writer.old) input (reader.new, writer.new)))) }

    // A fault is told exactly where the flag of the tracked reader or writer is set in the call. Where the writer's is not, one
    // that held nothing back before holds nothing back.
    ensures failed { (reader.new.failed ≡ is_read_fault result.0) × (writer.new.failed ≡ is_write_fault result.0) }
    ensures flushed { writer.new.failed ≡ false → writer.old.flushed ≡ true → writer.new.flushed ≡ true }

    // Nothing was read or written.
    ensures refused { IfErr result.0 (λ fault. (why : Refusal) → fault ≡ Refused why
        → (reader.new ≡ reader.old) × (writer.new ≡ writer.old) × LeavesRefusedIn (image_at P.Start) store result.1) }

    // Files in which there is another thing than is asked for are refused and left as they were, as far as the device
    // has returned what was written.
    ensures taken { CannotBeginIn (image_at P.Start) store → IfOk result.1 (λ conn. HasCleanDisk (file_state conn)
        → (result.0 ≡ Err (Refused StoreFault)) × IsFoundIn (image_at P.Start) (file_state conn)) }
    ensures unopened { IfErr result.1 (λ _. (why : Refusal) × (result.0 ≡ Err (Refused why))) }
    ensures cause { IfErr result.0 (λ fault. IsRunFault fault
        × (fault ≡ Refused StoreFault → IsDeservedIn (image_at P.Start) store result.1)) }
    ensures lasts { IfOk result.1 (λ conn. Lasts sound_device (device_below over_files conn)) }
{
    match connect(rt, path, start) {
        Ok(conn) => {
            let ended = run_over(rt.alloc(), keys, wait, conn, store, reader, writer);
            (ended.0, Ok(ended.1))
        }
        Err((fault, left)) => (Err(fault), Err(left)),
    }
}

/// Opens a desk on the store in the files at a path, of which `start` says what they hold. With a number the tables
/// of a new store are made. A refusal comes with what is left of them.
pub fn open_in<P: Start, J: Naming, H: Wait + Drop>(
    rt: &HostRuntime,
    wait: H,
    opened: Opened,
    path: &str,
    store: Option<u64>,
    start: P,
) -> Result<Answering<Store<FileStore<FileFrom<P>>>, J, H>, (Fault, Left<P>)>
    requires named { opened.book ≡ J.book }
    requires number { IfSome store (λ number. (1 ≤ number) × (number < 2 ^ 63)) }
    ensures ok { IfOk result (λ answering. OpenedOver over_files (BeginsIn (image_at P.Start) store) answering) }
    ensures refused { IfErr result (λ e. (why : Refusal) × (e.0 ≡ Refused why)) }
    ensures left { IfErr result (λ e. LeavesRefusedIn (image_at P.Start) store e.1) }

    // Files in which there is another thing than is asked for are refused and left as they were, as far as the device
    // has returned what was written.
    ensures begun { CannotBeginIn (image_at P.Start) store
        → IfOk result (λ answering. ¬ (HasCleanDisk (file_state (connection answering.tables)))) }
    ensures taken { CannotBeginIn (image_at P.Start) store → IfErr result (λ e. IfOk e.1 (λ conn. HasCleanDisk (file_state conn)
        → (e.0 ≡ Refused StoreFault) × IsFoundIn (image_at P.Start) (file_state conn))) }
    ensures caused { IfErr result (λ e. e.0 ≡ Refused StoreFault → IsDeservedIn (image_at P.Start) store e.1) }
    ensures cause { IfErr result (λ e. IsRunFault e.0) }
    ensures lasts { IfOk result (λ answering. Lasts sound_device (device_below over_files (connection answering.tables))) }
    ensures back { IfErr result (λ e. IfOk e.1 (λ conn. Lasts sound_device (device_below over_files conn))) }
{
    match connect(rt, path, start) {
        Ok(conn) => match open_over(rt.alloc(), wait, opened, conn, store) {
            Ok(answering) => Ok(answering),
            Err((fault, conn)) => Err((fault, Ok(conn))),
        },
        Err((fault, left)) => Err((fault, Err(left))),
    }
}

/// The tables of the store in the files at a path, of which `start` says what they hold, for many to share. With a number
/// those of a new store are made. A refusal comes with what is left of them.
pub fn tables_in<P: Start>(
    rt: &HostRuntime,
    path: &str,
    store: Option<u64>,
    start: P,
) -> Result<Store<FileStore<FileFrom<P>>>, (Fault, Left<P>)>
    requires number { IfSome store (λ number. (1 ≤ number) × (number < 2 ^ 63)) }
    ensures ok { IfOk result (λ tables. TablesOver over_files (BeginsIn (image_at P.Start) store) tables) }
    ensures refused { IfErr result (λ e. (why : Refusal) × (e.0 ≡ Refused why)) }
    ensures left { IfErr result (λ e. LeavesRefusedIn (image_at P.Start) store e.1) }

    // Files in which there is another thing than is asked for are refused and left as they were, as far as the device
    // has returned what was written.
    ensures begun { CannotBeginIn (image_at P.Start) store
        → IfOk result (λ tables. ¬ (HasCleanDisk (file_state (connection tables)))) }
    ensures taken { CannotBeginIn (image_at P.Start) store → IfErr result (λ e. IfOk e.1 (λ conn. HasCleanDisk (file_state conn)
        → (e.0 ≡ Refused StoreFault) × IsFoundIn (image_at P.Start) (file_state conn))) }
    ensures caused { IfErr result (λ e. e.0 ≡ Refused StoreFault → IsDeservedIn (image_at P.Start) store e.1) }
    ensures cause { IfErr result (λ e. IsRunFault e.0) }
    ensures lasts { IfOk result (λ tables. Lasts sound_device (device_below over_files (connection tables))) }
    ensures back { IfErr result (λ e. IfOk e.1 (λ conn. Lasts sound_device (device_below over_files conn))) }
{
    match connect(rt, path, start) {
        Ok(conn) => match tables_over(rt.alloc(), conn, store) {
            Ok(tables) => Ok(tables),
            Err((why, conn)) => Err((fault_of(why), Ok(conn))),
        },
        Err((fault, left)) => Err((fault, Err(left))),
    }
}

/// Opens the files at a path, of which `start` says what they hold, and sees that the tables of a new store can be made in
/// them. None are made.
pub fn find_blank<P: Start>(
    rt: &HostRuntime,
    path: &str,
    start: P,
) -> Result<Connection<FileStore<FileFrom<P>>>, (Fault, Left<P>)>
    ensures blank { IfOk result (IsBlank over_files) }
    ensures sees { IfOk result (λ conn. HasCleanDisk (file_state conn) → IsFoundIn (image_at P.Start) (file_state conn)) }
    ensures refused { IfErr result (λ e. (why : Refusal) × (e.0 ≡ Refused why)) }

    // Files that were opened are refused where there is a table, an index or a view.
    ensures taken { IfErr result (λ e. IfOk e.1 (λ conn. (e.0 ≡ Refused StoreFault) × (¬ (IsBlank over_files conn))
        × (HasCleanDisk (file_state conn) → IsFoundIn (image_at P.Start) (file_state conn)))) }
    ensures cause { IfErr result (λ e. IsRunFault e.0) }
{
    match connect(rt, path, start) {
        Ok(conn) if is_blank(&conn) => Ok(conn),
        Ok(conn) => Err((Fault::Refused(Refusal::StoreFault), Ok(conn))),
        Err((fault, left)) => Err((fault, Err(left))),
    }
}

// The files, opened.
fn connect<P: Start>(
    rt: &HostRuntime,
    path: &str,
    start: P,
) -> Result<Connection<FileStore<FileFrom<P>>>, (Fault, Option<Leftover<FileFrom<P>>>)>
    ensures idle { IfOk result (λ c. c.in_transaction ≡ false) }
    ensures unlimited { IfOk result (λ c. c.step_limit ≡ None) }
    ensures found { IfOk result (FindsHistories (image_at P.Start)) }
    ensures sees { IfOk result (λ c. HasCleanDisk (file_state c) → IsFoundIn (image_at P.Start) (file_state c)) }
    ensures refused { IfErr result (λ e. (why : Refusal) × (e.0 ≡ Refused why)) }
    ensures left { IfErr result (λ e. IfSome e.1 (λ left. (error : _) × IsUnopened (image_at P.Start) left error)) }
    ensures caused { IfErr result (λ e. e.0 ≡ Refused StoreFault → IfSome e.1 (IsRefusedFor (image_at P.Start))) }
    ensures cause { IfErr result (λ e. IsRunFault e.0) }
{
    match find(rt, path, start) {
        Ok(conn) => Ok(conn),
        Err((error, left)) => Err((told_of(error), left)),
    }
}

// What is told of files that could not be opened.
fn told_of(error: Error) -> Fault
    ensures memory { error ≡ Error.SqliteFailure ErrorCode.OutOfMemory → result ≡ Refused Refusal.Memory }
    ensures refused { (why : Refusal) × (result ≡ Refused why) }
    ensures cause { IsRunFault result }
{
    match error {
        Error::SqliteFailure(ErrorCode::OutOfMemory) => Fault::Refused(Refusal::Memory),
        _ => Fault::Refused(Refusal::StoreFault),
    }
}
