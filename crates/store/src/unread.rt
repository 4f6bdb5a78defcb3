//! Why rows are not read.
ghost use Rattle.std.specs.Prelude.{◌≡◌};
ghost use Rattle.store.specs.declared.unread.Unread.TheVariants.{Memory};
ghost use Rattle.store.specs.Refused.{unread_of};

use names::Refusal;
use std::alloc::{AllocError, AllocFailed};

/// Memory was refused, or the rows are no history.
#[derive(Clone, Copy, Debug, PartialEq, Eq)]
pub(crate) enum Unread {
    Memory,
    Fault,
}

impl From<AllocError> for Unread {
    ghost from_gives = { λ _ u. u ≡ Memory };

    fn from(_: AllocError) -> Unread {
        Unread::Memory
    }
}

impl<T: Drop> From<AllocFailed<T>> for Unread {
    ghost from_gives = { λ _ u. u ≡ Memory };

    fn from(_: AllocFailed<T>) -> Unread {
        Unread::Memory
    }
}

impl From<Refusal> for Unread {
    ghost from_gives = { λ refusal u. u ≡ unread_of refusal };

    fn from(refusal: Refusal) -> Unread {
        match refusal {
            Refusal::Memory => Unread::Memory,
            _ => Unread::Fault,
        }
    }
}
