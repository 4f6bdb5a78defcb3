//! Events as the tables are told of them.
ghost use Rattle.std.specs.Prelude.{◌≡◌, map, string_bytes, All, IfOk};
ghost use Rattle.names.specs.Spelling.{IsSubject, IsTuple, subject_text};
ghost use Rattle.store.specs.inside.EventTexts.{change_of, event_texts, event_texts_in};

use names::{Event, EventKind, Subject, Tuple};
use sqlite_tables::{SpanChange, StoredEvent, TupleText};
use std::alloc::{AllocError, Global};
use tables::Puts;
use tuple_keys::KeptEvents;

// The subject's text.
fn subject_of(alloc: Global, subject: &Subject) -> Result<String, AllocError>
    ensures text { IfOk result (λ s. string_bytes s ≡ subject_text subject.now) }
{
    format!(in alloc; "{subject}")
}

// Its names are names, and its id is one.
fn see_subject(subject: &Subject)
    ensures { IsSubject subject.now }
{
    let _namespace = subject.object.namespace.as_str();
    let _id = subject.object.id.as_str();
    if let Some(relation) = &subject.relation {
        let _relation = relation.as_str();
    }
}

// The same of a tuple.
fn see_tuple(tuple: &Tuple)
    ensures { IsTuple tuple.now }
{
    let _namespace = tuple.node.object.namespace.as_str();
    let _id = tuple.node.object.id.as_str();
    let _relation = tuple.node.relation.as_str();
    see_subject(&tuple.subject);
}

// What an event does to the spans of its tuple.
fn change_of(puts: Puts, kind: EventKind) -> SpanChange
    ensures { result ≡ change_of puts kind }
{
    match kind {
        EventKind::Put => match puts {
            Puts::Absent => SpanChange::Begins,
            Puts::Any => SpanChange::BeginsAnew,
        },
        EventKind::Del => SpanChange::Ends,
    }
}

// The event's texts.
fn event_of(alloc: Global, event: &Event, puts: Puts) -> Result<StoredEvent, AllocError>
    ensures { IfOk result (λ e. event_texts_in e ≡ event_texts puts event.now) }
{
    let node = &event.tuple.node;
    Ok(StoredEvent {
        tuple: TupleText {
            namespace: String::from_str(alloc, node.object.namespace.as_str())?,
            object: String::from_str(alloc, node.object.id.as_str())?,
            relation: String::from_str(alloc, node.relation.as_str())?,
            subject: subject_of(alloc, &event.tuple.subject)?,
        },
        change: change_of(puts, event.kind),
    })
}

/// The texts of each event.
pub(crate) fn events_of(
    alloc: Global,
    events: &KeptEvents,
    puts: Puts,
) -> Result<Vec<StoredEvent>, AllocError>
    ensures texts { IfOk result (λ texts. map event_texts_in texts.items ≡ map (event_texts puts) events.now) }
    ensures spelled { IfOk result (λ _. All (λ e. IsTuple e.tuple) events.now) }
{
    let mut texts = Vec::with_capacity(alloc, events.len())?;
    for i in 0..events.len() {
        let event = events.event(i).event();
        see_tuple(&event.tuple);
        texts.push(event_of(alloc, &event, puts)?)?;
    }
    Ok(texts)
}
