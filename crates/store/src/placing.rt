//! The tuples at the floor, and the events of each revision above it.
ghost use Rattle.std.specs.Prelude.{◌≡◌, ◌≤◌, ◌<◌, ◌≢◌, ◌-◌, ◌==◌, ◌++◌, ◌∷◌, [], ℕ, Some, None, cond, not, ◌&&◌, nat_lt, map, length, IfOk, IfErr, OnOk};
ghost use Rattle.std.specs.Option.{option_copied, option_to_list};
ghost use Rattle.names.specs.declared.commit.EventKind.TheVariants.{Put};
ghost use Rattle.store.specs.Written.{is_alive, tuples_alive};
ghost use Rattle.store.specs.inside.Moves.{slot, event_if, event_at_place, goes_on, Adds, AddsSpan, HasMoves};
ghost use Rattle.store.specs.inside.Reading.{as_span};
ghost use Rattle.store.specs.declared.unread.Unread.TheVariants.{Memory};

use crate::parts::{Head, Placed, ReadSpan};
use crate::placed_event::PlacedEvent;
use crate::tuple_key::TupleKey;
use crate::unread::Unread;
use names::{EventKind, Tuple};
use std::alloc::Global;
use std::collections::VecDeque;
use std::mem;

fn no_events(alloc: Global, count: usize) -> Result<Vec<Vec<PlacedEvent>>, Unread>
    ensures len { IfOk result (λ v. length v.items ≡ count) }
    ensures none { IfOk result (λ v. (k : ℕ) → slot v.items k ≡ []) }
    ensures fault { IfErr result (λ e. e ≡ Memory) }
{
    let mut slots = Vec::with_capacity(alloc, count)?;
    for i in 0..count {
        slots.push(Vec::new(alloc))?;
    }
    Ok(slots)
}

fn add(events: &mut Vec<PlacedEvent>, event: PlacedEvent) -> Result<(), Unread>
    ensures pushed { OnOk result (events.new.items ≡ events.old.items ++ event ∷ []) }
    ensures fault { IfErr result (λ e. e ≡ Memory) }
{
    events.push(event)?;
    Ok(())
}

fn push_at(slots: &mut Vec<Vec<PlacedEvent>>, at: usize, event: PlacedEvent) -> Result<(), Unread>
    ensures len { OnOk result (length slots.new.items ≡ length slots.old.items) }
    ensures placed { OnOk result (Adds slots.old.items slots.new.items (λ k. event_if (at == k) event)) }
    ensures fault { IfErr result (λ e. e ≡ Memory) }
{
    if at < slots.len() {
        add(&mut slots[at], event)?;
        return Ok(());
    }
    Ok(())
}

// Above the floor, the event goes to its revision.
fn place(
    slots: &mut Vec<Vec<PlacedEvent>>,
    floor: u64,
    rev: u64,
    event: PlacedEvent,
) -> Result<(), Unread>
    ensures len { OnOk result (length slots.new.items ≡ length slots.old.items) }
    ensures placed { OnOk result (Adds slots.old.items slots.new.items (event_at_place floor rev event.tuple event.kind)) }
    ensures fault { IfErr result (λ e. e ≡ Memory) }
{
    if rev <= floor {
        return Ok(());
    }
    push_at(slots, (rev - floor - 1) as usize, event)?;
    Ok(())
}

fn is_alive(span: &ReadSpan, rev: u64) -> bool
    ensures { result ≡ is_alive rev (as_span span.now) }
{
    span.added <= rev && (span.removed == 0 || rev < span.removed)
}

// Its tuple once more, where the span ends above the floor and the tuple does not go on.
fn copy_ended(floor: u64, span: &ReadSpan, on: bool) -> Result<Option<TupleKey>, Unread>
    ensures copied { IfOk result (λ o. o ≡ cond (not on && nat_lt floor span.now.removed) (Some span.now.tuple) None) }
    ensures fault { IfErr result (λ e. e ≡ Memory) }
{
    if on || span.removed <= floor {
        return Ok(None);
    }
    let tuple = span.tuple.clone()?;
    Ok(Some(tuple))
}

fn keep(tuples: &mut Vec<Tuple>, tuple: Tuple) -> Result<(), Unread>
    ensures pushed { OnOk result (tuples.new.items ≡ tuples.old.items ++ tuple ∷ []) }
    ensures fault { IfErr result (λ e. e ≡ Memory) }
{
    tuples.push(tuple)?;
    Ok(())
}

// The tuple is there at the floor, or is put above it.
fn begin(
    tuples: &mut Vec<Tuple>,
    slots: &mut Vec<Vec<PlacedEvent>>,
    floor: u64,
    span: ReadSpan,
) -> Result<(), Unread>
    ensures alive { OnOk result (tuples.new.items ≡ tuples.old.items ++ tuples_alive floor (as_span span ∷ [])) }
    ensures len { OnOk result (length slots.new.items ≡ length slots.old.items) }
    ensures placed { OnOk result (Adds slots.old.items slots.new.items (event_at_place floor span.added span.tuple Put)) }
    ensures fault { IfErr result (λ e. e ≡ Memory) }
{
    if is_alive(&span, floor) {
        return keep(tuples, span.tuple.tuple());
    }
    let event = PlacedEvent::of(span.tuple, EventKind::Put);
    place(slots, floor, span.added, event)
}

// A tuple is copied only where its span ends above the floor.
fn place_span(
    tuples: &mut Vec<Tuple>,
    slots: &mut Vec<Vec<PlacedEvent>>,
    floor: u64,
    span: ReadSpan,
    on: bool,
) -> Result<(), Unread>
    ensures alive { OnOk result (tuples.new.items ≡ tuples.old.items ++ tuples_alive floor (as_span span ∷ [])) }
    ensures len { OnOk result (length slots.new.items ≡ length slots.old.items) }
    ensures placed { OnOk result (AddsSpan slots.old.items slots.new.items floor (as_span span) on) }
    ensures fault { IfErr result (λ e. e ≡ Memory) }
{
    let removed = span.removed;
    let ended = copy_ended(floor, &span, on)?;
    begin(tuples, slots, floor, span)?;
    let Some(tuple) = ended else {
        return Ok(());
    };
    let event = PlacedEvent::of(tuple, EventKind::Del);
    place(slots, floor, removed, event)?;
    Ok(())
}

// Whether the next span is of the same tuple, and begins where this one ends.
fn goes_on(span: &ReadSpan, next: Option<&ReadSpan>) -> bool
    ensures { result ≡ goes_on (as_span span.now) (map as_span (option_to_list (option_copied next.entry))) }
{
    match next {
        Some(next) => span.tuple.cmp(&next.tuple).is_eq() && next.added == span.removed,
        None => false,
    }
}

/// The tuples that are there at the floor, and the events of each revision above it, oldest first.
pub(crate) fn place_spans(alloc: Global, head: Head, spans: Vec<ReadSpan>) -> Result<Placed, Unread>
    requires { head.floor ≤ head.newest }
    ensures alive { IfOk result (λ p. p.tuples.items ≡ tuples_alive head.floor (map as_span spans.items)) }
    ensures len { IfOk result (λ p. length p.slots.items ≡ head.newest - head.floor) }
    ensures placed { IfOk result (λ p. HasMoves head.floor (map as_span spans.items) p.slots.items) }
    ensures fault { IfErr result (λ e. e ≡ Memory) }
{
    let mut tuples = Vec::new(alloc);
    let mut slots = no_events(alloc, (head.newest - head.floor) as usize)?;
    let mut rest = VecDeque::from(spans);
    while let Some(span) = rest.pop_front() {
        let on = goes_on(&span, rest.front());
        place_span(&mut tuples, &mut slots, head.floor, span, on)?;
    }
    Ok(Placed { tuples, slots })
}

/// Takes the events of one revision out.
pub(crate) fn take_events(
    alloc: Global,
    slots: &mut Vec<Vec<PlacedEvent>>,
    at: usize,
) -> Vec<PlacedEvent>
    requires { at < length slots.old.items }
    ensures taken { result.items ≡ slot slots.old.items at }
    ensures rest { (k : ℕ) → k ≢ at → slot slots.new.items k ≡ slot slots.old.items k }
    ensures len { length slots.new.items ≡ length slots.old.items }
{
    mem::replace(&mut slots[at], Vec::new(alloc))
}
