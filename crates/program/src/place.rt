//! What is asked of a place before its file is opened.
ghost use Rattle.std.specs.Prelude.{◌≡◌, ◌≢◌, ◌≤◌, ◌<◌, ◌^◌, ◌↔◌, IsTrue, IsOk, IfOk, IfErr, Err};
ghost use Rattle.std.specs.IoError.{error_kind};
ghost use Rattle.names.specs.declared.refusal.Refusal.{Refusal};
ghost use Rattle.command_line.specs.declared.fault.Fault.TheVariants.{Refused};
ghost use Rattle.command_line.specs.Faults.{IsRunFault};
ghost use Rattle.program.specs.Listening.{IsStartFault};

use command_line::Fault;
use names::Refusal;
use std::io;
use std::io::ErrorKind;

/// Whether a store can have this number. The command line gives no other.
pub fn is_number(store: u64) -> bool
    ensures { IsTrue result ↔ ((1 ≤ store) × (store < 2 ^ 63)) }
{
    1 <= store && store <= i64::MAX as u64
}

/// Refuses a file that could not be opened to be read, so that it is not made: with 21 for want of memory, else with 22.
pub fn is_there<F: Drop>(opened: io::Result<F>) -> Result<(), Fault>
    ensures there { IfOk opened (λ _. IsOk result) }
    ensures memory { IfErr opened (λ e. error_kind e ≡ ErrorKind.OutOfMemory → result ≡ Err (Refused Refusal.Memory)) }
    ensures missing { IfErr opened (λ e. error_kind e ≢ ErrorKind.OutOfMemory → result ≡ Err (Refused Refusal.StoreFault)) }
    ensures cause { IfErr result IsRunFault }
    ensures refused { IfErr result (λ fault. (why : Refusal) × (fault ≡ Refused why)) }
    ensures start { IfErr result IsStartFault }
{
    match opened {
        Ok(_) => Ok(()),
        Err(e) => Err(if e.kind() == ErrorKind::OutOfMemory {
            Fault::Refused(Refusal::Memory)
        } else {
            Fault::Refused(Refusal::StoreFault)
        }),
    }
}
