//! A small history, and its events.

use config::Config;
use names::{Commit, Event, EventKind, Items, Node, Refusal, Tuple};
use rows::Rows;
use std::alloc::{AllocError, Global};

// Groups, and a relation that is not indexed.
const CONFIG: &str = r#"{"namespaces":{"user":{},"doc":{"owner":{"types":["user"]}},
"group":{"member":{"types":["user","group#member"],"indexed":true}}}}"#;

fn is_committed(rows: &mut Rows, commit: &Commit<Config>) -> Result<bool, AllocError> {
    if rows.refuses(commit)? {
        return Ok(false);
    }
    rows.admits_its_tuples();
    rows.commit(commit)?;
    Ok(true)
}

fn apply(rows: &mut Rows, commit: &Commit<Config>) -> Result<(), Refusal> {
    if is_committed(rows, commit)? {
        Ok(())
    } else {
        Err(Refusal::Malformed)
    }
}

fn event(kind: EventKind, tuple: &str) -> Result<Event, Refusal> {
    let tuple = Tuple::parse(tuple)?;
    Ok(Event { tuple, kind })
}

// A word that begins with a minus deletes its tuple, and another puts it.
fn event_of(word: &str) -> Result<Event, Refusal> {
    match word.strip_prefix('-') {
        Some(tuple) => event(EventKind::Del, tuple),
        None => event(EventKind::Put, word),
    }
}

pub(crate) fn events_of(alloc: Global, words: &str) -> Result<Items<Event>, Refusal> {
    let mut events = Vec::new(alloc);
    for word in words.split_ascii_whitespace() {
        events.push(event_of(word)?)?;
    }
    Ok(Items::of(events))
}

// Adds a commit of these words' events, which are in the order of their tuples.
pub(crate) fn add(alloc: Global, rows: &mut Rows, words: &str) -> Result<(), Refusal> {
    let tuples = Commit::Tuples(events_of(alloc, words)?);
    apply(rows, &tuples)
}

fn configure(alloc: Global, rows: &mut Rows) -> Result<(), Refusal> {
    let config = Commit::Config(Config::from_json(alloc, CONFIG.as_bytes())?);
    apply(rows, &config)
}

// Adds the configuration and then these tuples. Whoever owns the history lends it, so that one function drops it.
pub(crate) fn fill(alloc: Global, rows: &mut Rows, tuples: &str) -> Result<(), Refusal> {
    configure(alloc, rows)?;
    add(alloc, rows, tuples)
}

fn has(nodes: &[Node], word: &str) -> Result<bool, Refusal> {
    let node = Node::parse(word)?;
    Ok(nodes.contains(&node))
}

// Whether these are the words' nodes, in any order.
pub(crate) fn are_nodes(nodes: &[Node], words: &str) -> Result<bool, Refusal> {
    for word in words.split_ascii_whitespace() {
        if !has(nodes, word)? {
            return Ok(false);
        }
    }
    Ok(nodes.len() == words.split_ascii_whitespace().count())
}
