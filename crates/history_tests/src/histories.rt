//! Small histories, as lines of words.

use config::Config;
use names::{Commit, Items, Op, OpKind, Refusal, Tuple};
use rows::{Rows, events_of};
use std::alloc::{AllocError, Global};

fn is_committed(rows: &mut Rows, commit: &Commit<Config>) -> Result<bool, AllocError> {
    if rows.refuses(commit)? {
        return Ok(false);
    }
    rows.admits_its_tuples();
    rows.commit(commit)?;
    Ok(true)
}

// A word that begins with a minus deletes its tuple, and another touches it.
fn op_of(word: &str) -> Result<Op, Refusal> {
    let (kind, text) = match word.strip_prefix('-') {
        Some(text) => (OpKind::Delete, text),
        None => (OpKind::Touch, word),
    };
    let tuple = Tuple::parse(text)?;
    Ok(Op { kind, tuple })
}

/// A commit of the words' operations.
pub(crate) fn written(alloc: Global, words: &str) -> Result<Commit<Config>, Refusal> {
    let mut ops = Vec::new(alloc);
    for word in words.split_ascii_whitespace() {
        ops.push(op_of(word)?)?;
    }
    Ok(Commit::Tuples(events_of(Items::of(ops))?))
}

// A line that begins with a brace is a configuration, and another has words.
fn commit_of(alloc: Global, line: &str) -> Result<Commit<Config>, Refusal> {
    if line.starts_with('{') {
        return Ok(Commit::Config(Config::from_json(alloc, line.as_bytes())?));
    }
    written(alloc, line)
}

fn add(alloc: Global, rows: &mut Rows, line: &str) -> Result<(), Refusal> {
    let commit = commit_of(alloc, line)?;
    if is_committed(rows, &commit)? {
        Ok(())
    } else {
        Err(Refusal::Malformed)
    }
}

/// Adds a commit for each line. Whoever owns the history lends it, so that one function drops it.
pub(crate) fn fill(alloc: Global, rows: &mut Rows, lines: &[&str]) -> Result<(), Refusal> {
    for line in lines {
        add(alloc, rows, line)?;
    }
    Ok(())
}

/// A history with a commit for each line.
pub(crate) fn history(alloc: Global, lines: &[&str]) -> Result<Rows, Refusal> {
    let mut rows = Rows::empty(alloc);
    fill(alloc, &mut rows, lines)?;
    Ok(rows)
}

/// The words' tuples.
pub(crate) fn tuples_in(alloc: Global, words: &str) -> Result<Vec<Tuple>, Refusal> {
    let mut tuples = Vec::new(alloc);
    for word in words.split_ascii_whitespace() {
        tuples.push(Tuple::parse(word)?)?;
    }
    Ok(tuples)
}

/// Trims the history up to the floor, where it goes so far.
pub(crate) fn trims(rows: &mut Rows, floor: u64) {
    if floor <= rows.newest() {
        rows.trim(floor);
    }
}
