//! Why a call is refused.
ghost use Rattle.std.specs.Prelude.{◌≡◌};
ghost use Rattle.names.specs.Refusals.{number_of, name_of, status_of};

use crate::{Cause, Tuple};
use std::alloc::{AllocError, AllocFailed};

/// Why a call is refused. What each leaves behind is said where it is answered.
#[derive(Debug, Drop)]
pub enum Refusal {
    /// A text or a body is not of its form, or a number is out of its range.
    Malformed,
    /// The node's relation is not in the configuration that is used.
    UnknownRelation,
    /// The subject is of no type that the relation declares.
    TypeRefused,
    /// A tuple stands in two operations of one write.
    TwiceInOneWrite,
    /// The condition at this index, from 0, does not hold.
    ConditionFailed(u64),
    /// The operation at this index, from 0, inserts a tuple that is there.
    AlreadyThere(u64),
    /// The operation at this index, from 0, deletes a tuple that is not there.
    NotThere(u64),
    /// A limit of the store would be passed.
    Full,
    /// The configuration is not a valid one.
    ConfigRefused(Cause),
    /// This current tuple, the first in order, would be invalid under the configuration.
    TupleInTheWay(Tuple),
    /// The text is no zookie's.
    BadZookie,
    /// The zookie is another store's.
    ForeignZookie,
    /// The revision is above the newest.
    Future,
    /// The revision is below the floor.
    Expired,
    /// The expanded tree has over 4,096 nodes.
    TooLarge,
    /// The group's relation is not indexed.
    NotIndexed,
    /// The floor would be above a cursor.
    InUse,
    /// The build is below the floor or the base.
    StaleBuild,
    /// The build is not of what the store held at its revision.
    WrongBuild,
    /// All 32 sessions were given out.
    NoSeat,
    /// A growth was refused.
    Memory,
    /// The tables failed for another cause than memory.
    StoreFault,
    /// The tables failed before: the store has to be opened again.
    Reopen,
}

impl Refusal {
    /// Its number, which replies and messages give as `code`.
    pub fn number(&self) -> u8
        ensures { result ≡ number_of self.now }
    {
        match self {
            Refusal::Malformed => 1,
            Refusal::UnknownRelation => 2,
            Refusal::TypeRefused => 3,
            Refusal::TwiceInOneWrite => 4,
            Refusal::ConditionFailed(_) => 5,
            Refusal::AlreadyThere(_) => 6,
            Refusal::NotThere(_) => 7,
            Refusal::Full => 8,
            Refusal::ConfigRefused(_) => 9,
            Refusal::TupleInTheWay(_) => 10,
            Refusal::BadZookie => 11,
            Refusal::ForeignZookie => 12,
            Refusal::Future => 13,
            Refusal::Expired => 14,
            Refusal::TooLarge => 15,
            Refusal::NotIndexed => 16,
            Refusal::InUse => 17,
            Refusal::StaleBuild => 18,
            Refusal::WrongBuild => 19,
            Refusal::NoSeat => 20,
            Refusal::Memory => 21,
            Refusal::StoreFault => 22,
            Refusal::Reopen => 23,
        }
    }

    /// Its name in replies and messages.
    pub fn name(&self) -> &'static str
        ensures { result.now ≡ name_of self.now }
    {
        match self {
            Refusal::Malformed => "Malformed",
            Refusal::UnknownRelation => "UnknownRelation",
            Refusal::TypeRefused => "TypeRefused",
            Refusal::TwiceInOneWrite => "TwiceInOneWrite",
            Refusal::ConditionFailed(_) => "ConditionFailed",
            Refusal::AlreadyThere(_) => "AlreadyThere",
            Refusal::NotThere(_) => "NotThere",
            Refusal::Full => "Full",
            Refusal::ConfigRefused(_) => "ConfigRefused",
            Refusal::TupleInTheWay(_) => "TupleInTheWay",
            Refusal::BadZookie => "BadZookie",
            Refusal::ForeignZookie => "ForeignZookie",
            Refusal::Future => "Future",
            Refusal::Expired => "Expired",
            Refusal::TooLarge => "TooLarge",
            Refusal::NotIndexed => "NotIndexed",
            Refusal::InUse => "InUse",
            Refusal::StaleBuild => "StaleBuild",
            Refusal::WrongBuild => "WrongBuild",
            Refusal::NoSeat => "NoSeat",
            Refusal::Memory => "Memory",
            Refusal::StoreFault => "StoreFault",
            Refusal::Reopen => "Reopen",
        }
    }

    /// The HTTP status of its reply.
    pub fn status(&self) -> u16
        ensures { result ≡ status_of self.now }
    {
        match self {
            Refusal::Malformed => 400,
            Refusal::UnknownRelation => 400,
            Refusal::TypeRefused => 400,
            Refusal::TwiceInOneWrite => 400,
            Refusal::ConditionFailed(_) => 409,
            Refusal::AlreadyThere(_) => 409,
            Refusal::NotThere(_) => 409,
            Refusal::Full => 503,
            Refusal::ConfigRefused(_) => 400,
            Refusal::TupleInTheWay(_) => 409,
            Refusal::BadZookie => 400,
            Refusal::ForeignZookie => 400,
            Refusal::Future => 409,
            Refusal::Expired => 410,
            Refusal::TooLarge => 413,
            Refusal::NotIndexed => 400,
            Refusal::InUse => 409,
            Refusal::StaleBuild => 409,
            Refusal::WrongBuild => 409,
            Refusal::NoSeat => 503,
            Refusal::Memory => 503,
            Refusal::StoreFault => 503,
            Refusal::Reopen => 503,
        }
    }
}

impl From<AllocError> for Refusal {
    ghost use Rattle.std.specs.Prelude.{◌≡◌};
    ghost use Rattle.names.specs.declared.refusal.Refusal.TheVariants.{Memory};

    ghost from_gives = { λ _ e. e ≡ Memory };

    fn from(_e: AllocError) -> Refusal {
        Refusal::Memory
    }
}

impl<T: Drop> From<AllocFailed<T>> for Refusal {
    ghost use Rattle.std.specs.Prelude.{◌≡◌};
    ghost use Rattle.names.specs.declared.refusal.Refusal.TheVariants.{Memory};

    ghost from_gives = { λ _ e. e ≡ Memory };

    fn from(_e: AllocFailed<T>) -> Refusal {
        Refusal::Memory
    }
}
