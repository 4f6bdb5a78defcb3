//! One event, as it is kept.
ghost use Rattle.std.specs.Prelude.{◌≡◌};
ghost use Rattle.tuple_keys.specs.Spelled.{tuple_of, IsSpelling};

use crate::tuple_ref::TupleRef;
use names::{Event, EventKind};
use std::marker::Model;

/// An event, whose tuple is a borrowed text.
#[derive(Drop)]
pub struct KeptEvent<'a> {
    kind: EventKind,
    tuple: TupleRef<'a>,
}

impl<'a> Model for KeptEvent<'a> {
    ghost use Rattle.names.specs.declared.commit.Event.{Event as EventValue};
    ghost use Rattle.meaning.specs.inside.Codes.{coded_event};

    ghost Value = { EventValue };

    ghost coded = { coded_event };

    ghost view = { λ e. record { tuple = e.tuple; kind = e.kind } };
}

impl<'a> KeptEvent<'a> {
    pub(crate) fn of(kind: EventKind, text: &'a str) -> KeptEvent<'a>
        requires { IsSpelling text.now }
        ensures { result ≡ record { tuple = tuple_of text.now; kind = kind } }
    {
        let tuple = TupleRef::of(text);
        KeptEvent { kind, tuple }
    }

    pub fn kind(&self) -> EventKind
        ensures { result ≡ self.now.kind }
    {
        self.kind
    }

    pub fn tuple_ref(&self) -> &TupleRef<'a>
        ensures { result.now ≡ self.now.tuple }
    {
        &self.tuple
    }

    /// The event, with its tuple read from the text.
    pub fn event(&self) -> Event
        ensures { result ≡ self.now }
    {
        Event {
            tuple: self.tuple.tuple(),
            kind: self.kind,
        }
    }
}
