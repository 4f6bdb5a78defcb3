//! Pages of watched events, as JSON.
ghost use Rattle.std.specs.Prelude.{◌≡◌, IfOk, map};
ghost use Rattle.serde_json.specs.View.{view};
ghost use Rattle.names.specs.Calls.{told};
ghost use Rattle.bodies.specs.Replies.{Says};
ghost use Rattle.bodies.specs.Pages.{event_word, event_data, page_data};

use crate::replies::{rev_value, say};
use names::{EventKind, Reply};
use serde_json::{Value, json};
use std::alloc::{AllocError, Global};
use watch::{Page, WatchedEvent};

/// The word of what happened to a tuple.
fn word_of(kind: EventKind) -> &'static str
    ensures { result.now ≡ event_word kind }
{
    match kind {
        EventKind::Put => "put",
        EventKind::Del => "del",
    }
}

/// An event as a value.
fn event_value(alloc: Global, store: u64, watched: &WatchedEvent) -> Result<Value, AllocError>
    ensures { IfOk result (λ v. view v ≡ event_data store watched.now) }
{
    let word = word_of(watched.event.kind);
    let tuple = &watched.event.tuple;
    let text = format!(in alloc; "{tuple}")?;
    let zookie = rev_value(alloc, store, watched.rev)?;
    json!(in alloc; {"event": word, "tuple": text.as_str(), "zookie": zookie})
}

/// Events as values, in their order.
fn event_values(
    alloc: Global,
    store: u64,
    events: &[WatchedEvent],
) -> Result<Vec<Value>, AllocError>
    ensures { IfOk result (λ v. map view v.items ≡ map (event_data store) events.now) }
{
    let mut values = Vec::new(alloc);
    for event in events {
        values.push(event_value(alloc, store, event)?)?;
    }
    Ok(values)
}

/// A page as a value.
fn page_value(alloc: Global, store: u64, page: &Page) -> Result<Value, AllocError>
    ensures { IfOk result (λ v. view v ≡ page_data store page.now) }
{
    let events = Value::Array(event_values(alloc, store, page.events.as_slice())?);
    let heartbeat = rev_value(alloc, store, page.heartbeat)?;
    json!(in alloc; {"events": events, "heartbeat": heartbeat})
}

/// What a `watch` is answered: the events, each with the zookie of its commit, and the zookie of the revision that the page
/// reaches.
pub fn watched(alloc: Global, store: u64, page: &Page) -> Reply
    ensures { Says (told result) 200 (page_data store page.now) }
{
    say(alloc, 200, page_value(alloc, store, page))
}
