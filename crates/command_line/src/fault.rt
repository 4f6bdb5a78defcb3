//! Why the program ends before its work is done.
ghost use Rattle.std.specs.Prelude.{◌≡◌};
ghost use Rattle.command_line.specs.Faults.{fault_status};

use names::Refusal;
use std::alloc::AllocError;

/// Why the program ends before its work is done.
#[derive(Debug, Drop)]
pub enum Fault {
    /// The command line is none of the program's.
    CommandLine,
    /// The store refused to open, or memory was refused.
    Refused(Refusal),
    /// The reader failed.
    CannotRead,
    /// The writer failed.
    CannotWrite,
    /// There is no listening on the port that was given.
    CannotListen,
}

impl Fault {
    /// The exit status.
    pub fn status(&self) -> u8
        ensures { result ≡ fault_status self.now }
    {
        match self {
            Fault::CommandLine => 2,
            Fault::Refused(_) => 1,
            Fault::CannotRead => 1,
            Fault::CannotWrite => 1,
            Fault::CannotListen => 1,
        }
    }
}

impl From<AllocError> for Fault {
    ghost use Rattle.std.specs.Prelude.{◌≡◌};
    ghost use Rattle.names.specs.declared.refusal.Refusal.TheVariants.{Memory};
    ghost use Rattle.command_line.specs.declared.fault.Fault.TheVariants.{Refused};

    ghost from_gives = { λ _ f. f ≡ Refused Memory };

    fn from(_e: AllocError) -> Fault {
        Fault::Refused(Refusal::Memory)
    }
}
