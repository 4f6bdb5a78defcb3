//! A run over a connection.
ghost use Rattle.std.specs.Prelude.{ℕ, ◌≡◌, ◌≤◌, ◌<◌, ◌^◌, List, true, false, None, IfErr, IfOk, IfSome, IsErrAnd, OnOk, Err};
ghost use Rattle.names.specs.declared.refusal.Refusal.TheVariants.{StoreFault};
ghost use Rattle.tables.specs.Device.{IsOpen, Lasts};
ghost use Rattle.command_line.specs.declared.fault.Fault.TheVariants.{Refused};
ghost use Rattle.command_line.specs.Faults.{IsRunFault};
ghost use Rattle.tracked_io.specs.Tracking.{Reads, ReadsAll};
ghost use Rattle.store.specs.History.{device_below};
ghost use Rattle.store.specs.StoreParts.{connection};
ghost use Rattle.runs.specs.Runs.{ServedBy, PausedBy, CutBy, is_read_fault, is_write_fault};
ghost use Rattle.runs.specs.inside.Starting.{StartsFrom, FailsToStart};
ghost use Rattle.runs.specs.Over.{over, Begins, EndedOver, OpenedOver, LeavesRefused, CannotBegin, IsDeserved};

use crate::running::run;
use calls::Answering;
use command_line::Fault;
use names::Refusal;
use published::{Naming, Opened};
use sqlite::{Alter, Connection};
use std::alloc::Global;
use std::hash::RandomState;
use std::io::{Read, Write};
use std::marker::Brand;
use std::sync::Wait;
use store::Store;
use tables::TablesError;
use tracked_io::{TrackedReader, TrackedWriter};

/// Answers lines from the store over a connection, and gives the connection back. With a number the tables of a
/// new store are made, where there are none; else those that are there are opened. Names are hashed under this key.
pub fn run_over<S: Alter + Drop, H: Wait + Drop, R: Read, W: Write>(
    alloc: Global,
    keys: RandomState,
    rt: H,
    conn: Connection<S>,
    store: Option<u64>,
    reader: &mut TrackedReader<R>,
    writer: &mut TrackedWriter<W>,
) -> (Result<(), Fault>, Connection<S>)
    requires idle { (conn.in_transaction ≡ false) × (conn.step_limit ≡ None) }
    requires number { IfSome store (λ number. (1 ≤ number) × (number < 2 ^ 63)) }
    requires unbroken { (reader.old.failed ≡ false) × (writer.old.failed ≡ false) }

    // All that was there was read, each line answered, and the answers handed on. Here and below none was held back: at
    // each read, also of one that failed, each whole line of what was read before had its answer, handed on.
    ensures ok { OnOk result.0 ((writer.new.flushed ≡ true) × ((input : List ℕ) × ReadsAll R.remaining reader.old reader.new input
        × EndedOver S.Store (Begins S.Store conn store) input
        (ServedBy (over S.Store) (reader.old, writer.old) input (reader.new, writer.new)) result.1)) }

    // Each whole line of what was read was answered.
    ensures cannot_read { IfErr result.0 (λ fault. fault ≡ Fault.CannotRead → (input : List ℕ)
        × Reads R.remaining reader.old reader.new input
        × EndedOver S.Store (Begins S.Store conn store) input
        (PausedBy (over S.Store) (reader.old, writer.old) input (reader.new, writer.new)) result.1) }

    // Some first lines of what was read were answered, and a beginning of the answers was written.
    ensures cannot_write { IfErr result.0 (λ fault. fault ≡ Fault.CannotWrite → (input : List ℕ)
        × Reads R.remaining reader.old reader.new input
        × EndedOver S.Store (Begins S.Store conn store) input
        (CutBy (over S.Store) (reader.old, writer.old) input (reader.new, writer.new)) result.1) }

    // A fault is told exactly where the flag of the tracked reader or writer is set in the call. Where the writer's is not, one
    // that held nothing back before holds nothing back.
    ensures failed { (reader.new.failed ≡ is_read_fault result.0) × (writer.new.failed ≡ is_write_fault result.0) }
    ensures flushed { writer.new.failed ≡ false → writer.old.flushed ≡ true → writer.new.flushed ≡ true }

    // Nothing was read or written.
    ensures refused { IfErr result.0 (λ fault. (why : Refusal) → fault ≡ Refused why
        → (reader.new ≡ reader.old) × (writer.new ≡ writer.old) × LeavesRefused S.Store conn store result.1) }

    // A database in which there is another thing than is asked for is left alone.
    ensures taken { CannotBegin S.Store conn store
        → (result.0 ≡ Err (Refused StoreFault)) × (result.1 ≡ conn) × (reader.new ≡ reader.old) × (writer.new ≡ writer.old) }
    ensures cause { IfErr result.0 (λ fault. IsRunFault fault
        × (fault ≡ Refused StoreFault → IsOpen (device_below S.Store conn) → IsDeserved S.Store conn store result.1)) }
    ensures lasts { Lasts (device_below S.Store conn) (device_below S.Store result.1) }
{
    match start(alloc, conn, store) {
        Ok(tables) => {
            let opened = Opened::new(keys);
            let ended = run::<Store<S>, Brand, H, R, W>(alloc, rt, opened, tables, reader, writer);
            (ended.0, ended.1.into_connection())
        }
        Err((why, conn)) => (Err(fault_of(why)), conn),
    }
}

/// Opens a desk on the store over a connection, to answer as [`run_over`] does. Where it cannot be opened it gives the
/// connection back.
pub fn open_over<S: Alter + Drop, J: Naming, H: Wait + Drop>(
    alloc: Global,
    rt: H,
    opened: Opened,
    conn: Connection<S>,
    store: Option<u64>,
) -> Result<Answering<Store<S>, J, H>, (Fault, Connection<S>)>
    requires named { opened.book ≡ J.book }
    requires idle { (conn.in_transaction ≡ false) × (conn.step_limit ≡ None) }
    requires number { IfSome store (λ number. (1 ≤ number) × (number < 2 ^ 63)) }
    ensures ok { IfOk result (λ answering. OpenedOver S.Store (Begins S.Store conn store) answering) }
    ensures refused { IfErr result (λ e. (why : Refusal) × (e.0 ≡ Refused why)) }
    ensures left { IfErr result (λ e. LeavesRefused S.Store conn store e.1) }

    // A database in which there is another thing than is asked for is left alone.
    ensures taken { CannotBegin S.Store conn store → IsErrAnd result (λ e. (e.0 ≡ Refused StoreFault) × (e.1 ≡ conn)) }
    ensures caused { IfErr result (λ e. e.0 ≡ Refused StoreFault → IsOpen (device_below S.Store conn)
        → IsDeserved S.Store conn store e.1) }
    ensures cause { IfErr result (λ e. IsRunFault e.0) }
    ensures lasts { IfOk result (λ answering. Lasts (device_below S.Store conn) (device_below S.Store (connection answering.tables))) }
    ensures back { IfErr result (λ e. Lasts (device_below S.Store conn) (device_below S.Store e.1)) }
{
    match start(alloc, conn, store) {
        Ok(tables) => match Answering::open(alloc, rt, opened, tables) {
            Ok(answering) => Ok(answering),
            Err((why, tables)) => Err((Fault::Refused(why), tables.into_connection())),
        },
        Err((why, conn)) => Err((fault_of(why), conn)),
    }
}

/// The tables of a new store, or those that are there.
pub(crate) fn start<S: Alter + Drop>(
    alloc: Global,
    conn: Connection<S>,
    store: Option<u64>,
) -> Result<Store<S>, (TablesError, Connection<S>)>
    requires idle { (conn.in_transaction ≡ false) × (conn.step_limit ≡ None) }
    requires number { IfSome store (λ number. (1 ≤ number) × (number < 2 ^ 63)) }
    ensures ok { IfOk result (λ s. StartsFrom S.Store conn store (connection s)) }
    ensures err { IfErr result (λ e. FailsToStart S.Store conn store e.0 e.1) }
    ensures taken { CannotBegin S.Store conn store
        → IsErrAnd result (λ e. (e.0 ≡ TablesError.Fault) × (e.1 ≡ conn)) }
{
    match store {
        Some(number) => Store::create(alloc, conn, number),
        None => Store::open(alloc, conn),
    }
}

/// What is told of a refusal.
pub(crate) fn fault_of(why: TablesError) -> Fault
    ensures memory { why ≡ TablesError.Memory → result ≡ Refused Refusal.Memory }
    ensures fault { why ≡ TablesError.Fault → result ≡ Refused StoreFault }
    ensures refused { (cause : Refusal) × (result ≡ Refused cause) }
    ensures cause { IsRunFault result }
{
    match why {
        TablesError::Memory => Fault::Refused(Refusal::Memory),
        TablesError::Fault => Fault::Refused(Refusal::StoreFault),
    }
}
