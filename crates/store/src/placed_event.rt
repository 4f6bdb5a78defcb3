//! Events as they are held while rows are read.
ghost use Rattle.std.specs.Prelude.{◌≡◌, IfOk};

use crate::tuple_key::TupleKey;
use names::{Event, EventKind};
use std::alloc::{AllocError, Global};
use std::marker::Model;

/// An event, whose tuple is a text.
#[derive(Debug, Drop)]
pub(crate) struct PlacedEvent {
    tuple: TupleKey,
    kind: EventKind,
}

impl Model for PlacedEvent {
    ghost use Rattle.names.specs.declared.commit.Event.{Event as EventValue};
    ghost use Rattle.meaning.specs.inside.Codes.{coded_event};

    ghost Value = { EventValue };

    ghost coded = { coded_event };

    ghost view = { λ e. record { tuple = e.tuple; kind = e.kind } };
}

impl PlacedEvent {
    pub(crate) fn of(tuple: TupleKey, kind: EventKind) -> PlacedEvent
        ensures { result ≡ record { tuple = tuple; kind = kind } }
    {
        PlacedEvent { tuple, kind }
    }

    /// The event, with its tuple read from the text.
    pub(crate) fn event(&self) -> Event
        ensures { result ≡ self.now }
    {
        Event {
            tuple: self.tuple.tuple(),
            kind: self.kind,
        }
    }
}

/// The events, with their tuples read from the texts.
pub(crate) fn events_in(alloc: Global, placed: &[PlacedEvent]) -> Result<Vec<Event>, AllocError>
    ensures { IfOk result (λ events. events.items ≡ placed.now) }
{
    let mut events = Vec::with_capacity(alloc, placed.len())?;
    for one in placed {
        events.push(one.event())?;
    }
    Ok(events)
}
