//! A run over lines.
ghost use Rattle.std.specs.Prelude.{ℕ, ◌≡◌, List, true, false, IfErr, OnOk};
ghost use Rattle.names.specs.declared.refusal.Refusal.TheVariants.{StoreFault};
ghost use Rattle.tables.specs.Device.{IsOpen, Lasts};
ghost use Rattle.desk.specs.Posts.{ComesBack, FailsToLoad};
ghost use Rattle.command_line.specs.declared.fault.Fault.TheVariants.{Refused};
ghost use Rattle.command_line.specs.Faults.{IsRunFault};
ghost use Rattle.tracked_io.specs.Tracking.{Reads, ReadsAll};
ghost use Rattle.runs.specs.inside.Leaving.{Answered};
ghost use Rattle.runs.specs.Runs.{ServedBy, PausedBy, CutBy, Ended, is_read_fault, is_write_fault};

use answers::End;
use calls::Answering;
use command_line::Fault;
use lines::lines;
use names::Refusal;
use published::{Naming, Opened};
use std::alloc::Global;
use std::io::{Read, Write};
use std::sync::Wait;
use tables::Tables;
use tracked_io::{TrackedReader, TrackedWriter};

/// Answers lines from the store that these tables keep, and gives the tables back.
pub fn run<T: Tables + Drop, J: Naming, H: Wait + Drop, R: Read, W: Write>(
    alloc: Global,
    rt: H,
    opened: Opened,
    tables: T,
    reader: &mut TrackedReader<R>,
    writer: &mut TrackedWriter<W>,
) -> (Result<(), Fault>, T)
    requires named { opened.book ≡ J.book }
    requires unbroken { (reader.old.failed ≡ false) × (writer.old.failed ≡ false) }

    // All that was there was read, each line answered, and the answers handed on. Here and below none was held back: at
    // each read, also of one that failed, each whole line of what was read before had its answer, handed on.
    ensures ok { OnOk result.0 ((input : List ℕ) × ReadsAll R.remaining reader.old reader.new input
        × Ended T.Tables tables input (ServedBy T.Tables (reader.old, writer.old) input (reader.new, writer.new)) result.1) }
    ensures handed_on { OnOk result.0 (writer.new.flushed ≡ true) }

    // Each whole line of what was read was answered.
    ensures cannot_read { IfErr result.0 (λ fault. fault ≡ Fault.CannotRead → (input : List ℕ)
        × Reads R.remaining reader.old reader.new input
        × Ended T.Tables tables input (PausedBy T.Tables (reader.old, writer.old) input (reader.new, writer.new)) result.1) }

    // Some first lines of what was read were answered, and a beginning of the answers was written.
    ensures cannot_write { IfErr result.0 (λ fault. fault ≡ Fault.CannotWrite → (input : List ℕ)
        × Reads R.remaining reader.old reader.new input
        × Ended T.Tables tables input (CutBy T.Tables (reader.old, writer.old) input (reader.new, writer.new)) result.1) }

    // A fault is told exactly where the flag of the tracked reader or writer is set in the call. Where the writer's is not, one
    // that held nothing back before holds nothing back.
    ensures failed { (reader.new.failed ≡ is_read_fault result.0) × (writer.new.failed ≡ is_write_fault result.0) }
    ensures flushed { writer.new.failed ≡ false → writer.old.flushed ≡ true → writer.new.flushed ≡ true }

    // Nothing was read or written, and the tables hold and leave what they did, and hold nothing else. They are at fault only
    // where the device failed, or where they hold no history.
    ensures refused { IfErr result.0 (λ fault. (why : Refusal) → fault ≡ Refused why
        → (reader.new ≡ reader.old) × (writer.new ≡ writer.old) × ComesBack T.Tables tables result.1) }
    ensures caused { IfErr result.0 (λ fault. fault ≡ Refused StoreFault → IsOpen (T.device tables)
        → FailsToLoad T.Tables tables result.1) }
    ensures cause { IfErr result.0 IsRunFault }
    ensures lasts { Lasts (T.device tables) (T.device result.1) }
{
    match Answering::<T, J, H>::open(alloc, rt, opened, tables) {
        Ok(mut answering) => {
            let ended = serve(alloc, &mut answering, reader, writer);
            (ended, answering.close())
        }
        Err((why, tables)) => (Err(Fault::Refused(why)), tables),
    }
}

// Answers lines from a desk.
fn serve<T: Tables + Drop, J: Naming, H: Wait + Drop, R: Read, W: Write>(
    alloc: Global,
    answering: &mut Answering<T, J, H>,
    reader: &mut TrackedReader<R>,
    writer: &mut TrackedWriter<W>,
) -> Result<(), Fault>
    requires unbroken { (reader.old.failed ≡ false) × (writer.old.failed ≡ false) }

    // All that was there was read, each line answered, and the answers handed on. Here and below none was held back: at
    // each read, also of one that failed, each whole line of what was read before had its answer, handed on.
    ensures ok { OnOk result ((input : List ℕ) × ReadsAll R.remaining reader.old reader.new input
        × ServedBy T.Tables (reader.old, writer.old) input (reader.new, writer.new) answering.old answering.new) }
    ensures handed_on { OnOk result (writer.new.flushed ≡ true) }

    // Each whole line of what was read was answered.
    ensures cannot_read { IfErr result (λ fault. fault ≡ Fault.CannotRead → (input : List ℕ)
        × Reads R.remaining reader.old reader.new input
        × PausedBy T.Tables (reader.old, writer.old) input (reader.new, writer.new) answering.old answering.new) }

    // Some first lines of what was read were answered, and a beginning of the answers was written.
    ensures cannot_write { IfErr result (λ fault. fault ≡ Fault.CannotWrite → (input : List ℕ)
        × Reads R.remaining reader.old reader.new input
        × CutBy T.Tables (reader.old, writer.old) input (reader.new, writer.new) answering.old answering.new) }

    // A fault is told exactly where the flag of the tracked reader or writer is set in the call. Where the writer's is not, one
    // that held nothing back before holds nothing back.
    ensures failed { (reader.new.failed ≡ is_read_fault result) × (writer.new.failed ≡ is_write_fault result) }
    ensures flushed { writer.new.failed ≡ false → writer.old.flushed ≡ true → writer.new.flushed ≡ true }

    // Nothing was read or written, for want of memory.
    ensures memory { IfErr result (λ fault. (why : Refusal) → fault ≡ Refused why → (why ≡ Refusal.Memory)
        × (reader.new ≡ reader.old) × (writer.new ≡ writer.old) × (answering.new ≡ answering.old)) }
    ensures cause { IfErr result IsRunFault }
    ensures answered { Answered T.Tables answering.old answering.new }
{
    match lines(alloc, reader, writer, answering) {
        End::Closed => Ok(()),
        End::ReadFault => Err(Fault::CannotRead),
        End::WriteFault => Err(Fault::CannotWrite),
        End::Memory => Err(Fault::Refused(Refusal::Memory)),
        End::Asked | End::Broken => unreachable!(),
    }
}
