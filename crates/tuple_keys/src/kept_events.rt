//! The events of a commit, as they are kept.
ghost use Rattle.std.specs.Prelude.{◌≡◌, ◌<◌, ◌≤◌, ◌-◌, ◌^◌, ◌++◌, ◌∷◌, [], ◌==◌, length, min, slice_index, slice_index_or, string_bytes, IfOk, OnOk};
ghost use Rattle.names.specs.Spelling.{IsTuple};
ghost use Rattle.tuple_keys.specs.Packed.{sign_of, kind_of, event_text, text_of};

use crate::kept_event::KeptEvent;
use crate::lens::tuple_len;
use crate::scratch::Scratch;
use names::{Event, EventKind};
use std::alloc::{AllocError, Global};
use std::marker::Model;

/// Events, packed: for each `+` for a put or `-` for a del and then its tuple's text, one after another, and
/// where each ends.
#[derive(Debug, Drop)]
pub struct KeptEvents {
    text: String,
    ends: Vec<u32>,
}

impl Model for KeptEvents {
    ghost use Rattle.std.specs.Prelude.{List, string_bytes};
    ghost use Rattle.std.specs.Coded.{coded_list};
    ghost use Rattle.names.specs.declared.commit.Event.{Event as EventValue};
    ghost use Rattle.meaning.specs.inside.Codes.{coded_event};
    ghost use Rattle.tuple_keys.specs.Packed.{events_in, ArePacked};

    ghost Value = { List EventValue };

    ghost coded = { coded_list coded_event };

    ghost view = { λ k. events_in 0 (string_bytes k.text) k.ends.items };

    ghost invariant = { λ k. ArePacked (string_bytes k.text) k.ends.items (events_in 0 (string_bytes k.text) k.ends.items) };
}

impl KeptEvents {
    /// The events, packed with no room to spare. Texts of 4 GiB or more in all are refused as for want of memory.
    pub fn of(alloc: Global, events: &[Event]) -> Result<KeptEvents, AllocError>
        ensures { IfOk result (λ k. k ≡ events.now) }
    {
        let mut text = String::with_capacity(alloc, room_of(events))?;
        let mut ends = Vec::with_capacity(alloc, events.len())?;
        for event in events {
            push_event(&mut text, event)?;
            ends.push(end_of(&text)?)?;
        }
        Ok(KeptEvents { text, ends })
    }

    pub fn len(&self) -> usize
        ensures len { result ≡ length self.now }
        ensures small { result < 2 ^ 63 }
    {
        self.ends.len()
    }

    pub fn is_empty(&self) -> bool
        ensures { result ≡ (length self.now == 0) }
    {
        self.ends.is_empty()
    }

    /// The event at a place, from 0. The last is as near as the first.
    pub fn event(&self, i: usize) -> KeptEvent<'_>
        requires { i < length self.now }
        ensures { result ≡ slice_index_or self.now i result }
    {
        let text = self.text.as_str();
        let start = start_of(&self.ends, i) as usize;
        let end = self.ends[i] as usize;
        let kind = kind_of(text.as_bytes()[start]);
        KeptEvent::of(kind, &text[start + 1..end])
    }

    /// All events, in order, with their tuples read from the text.
    pub fn events(&self, alloc: Global) -> Result<Vec<Event>, AllocError>
        ensures { IfOk result (λ v. v.items ≡ self.now) }
    {
        let count = self.len();
        let mut events = Vec::with_capacity(alloc, count)?;
        for i in 0..count {
            events.push(self.event(i).event())?;
        }
        Ok(events)
    }
}

/// As many bytes as the events' texts have.
fn room_of(events: &[Event]) -> usize
    ensures { result ≡ min (length (text_of events.now)) (2 ^ 64 - 1) }
{
    let mut room: usize = 0;
    for one in events {
        room = room.saturating_add(1 + tuple_len(&one.tuple));
    }
    room
}

fn push_event(text: &mut String, event: &Event) -> Result<(), AllocError>
    ensures text { OnOk result (string_bytes text.new ≡ string_bytes text.old ++ event_text event.now) }
    ensures tuple { IsTuple event.now.tuple }
{
    let scratch = Scratch::of(&event.tuple);
    let tuple = scratch.tuple_ref();
    text.push_str(sign_of(event.kind))?;
    text.push_str(tuple.as_str())
}

/// Where the text ends, if that is a `u32`.
fn end_of(text: &String) -> Result<u32, AllocError>
    ensures { IfOk result (λ end. end ≡ length (string_bytes text.now)) }
{
    match u32::try_from(text.len()) {
        Ok(end) => Ok(end),
        Err(_) => Err(AllocError),
    }
}

/// Where an event starts.
fn start_of(ends: &[u32], i: usize) -> u32
    requires { i ≤ length ends.now }
    ensures { result ≡ slice_index (0 ∷ ends.now) i }
{
    if i == 0 { 0 } else { ends[i - 1] }
}

fn sign_of(kind: EventKind) -> &'static str
    ensures { result.now ≡ sign_of kind ∷ [] }
{
    match kind {
        EventKind::Put => "+",
        EventKind::Del => "-",
    }
}

fn kind_of(sign: u8) -> EventKind
    ensures { result ≡ kind_of sign }
{
    if sign == 43 {
        EventKind::Put
    } else {
        EventKind::Del
    }
}
