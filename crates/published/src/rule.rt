//! The rule over the published copy.
use crate::book::{Naming, StepPrefix};
use crate::copy::ShownCopy;
use crate::post::Post;
use crate::publisher::Publisher;
use atomic_table::{Join, Split};
use crossbeam_utils::rule::{Outcome, Protocol};
use left_right::reader::Reader;

/// A view is a prefix that its owner knows, or none yet.
pub struct Published;

impl<J: Naming> Protocol<ShownCopy<J>, Option<StepPrefix>> for Published {
    ghost use Rattle.std.specs.Prelude.{None};
    ghost use Rattle.published.specs.Copies.{Keeps};

    ghost holds = { Keeps };

    ghost first = { None };
}

/// What both steps tell: a publication, and an entry.
pub struct Seeing;

impl<J: Naming> Outcome<ShownCopy<J>, Option<StepPrefix>> for Seeing {
    ghost use Rattle.published.specs.Copies.{Sees};

    ghost then = { Sees };
}

/// The writer tells all that it knows.
pub struct TellsAll;

impl Split<Option<StepPrefix>> for TellsAll {
    ghost left = { λ v. v };

    ghost right = { λ v. v };
}

impl Join<Option<StepPrefix>> for TellsAll {
    ghost use Rattle.std.specs.Prelude.{None};

    ghost both = { λ v w. w };

    ghost spent = { None };
}

pub type CopyReader<J> = Reader<ShownCopy<J>, Option<StepPrefix>, Published>;

pub type CopyPublisher<J> = Publisher<ShownCopy<J>, Post<J>, Published>;
