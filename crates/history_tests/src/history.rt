//! Calls of a history that the program does not make yet.

use crate::histories::{history, trims, tuples_in, written};
use config::Config;
use names::{Commit, EventKind, Node, Object, Refusal, Tuple};
use rows::Rows;
use std::alloc::{AllocError, Global};
use std::test::Fail;
use tuple_keys::TupleRef;

const CONFIG: &str =
    r#"{"namespaces":{"a":{"r":{"types":["u","u#m"]}},"a0":{"r":{"types":["u"]}},"doc":{"view":{"types":["u"]},"viewer":{"types":["u","u#m"]},"viewer_":{"types":["u"]}},"u":{"m":{"types":["u"]}}}}"#;

const ANN: &str = "doc:a#viewer@u:ann";

const NO_ANN: &str = "-doc:a#viewer@u:ann";

// The configuration, a put of ann, and a delete.
const THREE: [&str; 3] = [CONFIG, ANN, NO_ANN];

// And a write.
const FOUR: [&str; 4] = [CONFIG, ANN, NO_ANN, PLACES];

fn refuses(alloc: Global, rows: &Rows, words: &str) -> Result<bool, Refusal> {
    Ok(rows.refuses(&written(alloc, words)?)?)
}

fn refuses_two(alloc: Global, rows: &Rows) -> Result<bool, Refusal> {
    let gone = refuses(alloc, rows, NO_ANN)?;
    let twice = refuses(alloc, rows, "doc:b#viewer@u:b doc:b#viewer@u:b")?;
    Ok(gone && twice && !refuses(alloc, rows, ANN)?)
}

fn refuses_both(alloc: Global) -> Result<bool, Refusal> {
    let rows = history(alloc, &THREE)?;
    refuses_two(alloc, &rows)
}

#[test]
fn what_no_write_gives_is_refused(rt: HostRuntime) -> Result<(), Fail> {
    assert!(rt; refuses_both(rt.alloc())?);
    Ok(())
}

const PLACES: &str =
    "doc:c#viewer@u:a doc:b#viewer@u:b doc:b#viewer@u:a#m doc:b#viewer@u:a doc:b#view@u:a doc:b#viewer_@u:a doc:b-#viewer@u:a doc:a#viewer@u:a a0:x#r@u:v a:x-#r@u:v a:x#r@u:v#m a:x#r@u:v";

const IN_ORDER: &str =
    "a:x#r@u:v a:x#r@u:v#m a:x-#r@u:v a0:x#r@u:v doc:a#viewer@u:a doc:b#view@u:a doc:b#viewer@u:a doc:b#viewer@u:a#m doc:b#viewer@u:b doc:b#viewer_@u:a doc:b-#viewer@u:a doc:c#viewer@u:a";

const OF_B: &str = "doc:b#viewer@u:a doc:b#viewer@u:a#m doc:b#viewer@u:b";

fn lists(alloc: Global, rows: &Rows, words: &str) -> Result<bool, Refusal> {
    let found = rows.at(rows.newest()).tuples(alloc)?;
    Ok(found == tuples_in(alloc, words)?)
}

fn lists_of(alloc: Global, rows: &Rows, node: &str, words: &str) -> Result<bool, Refusal> {
    let node = Node::parse(node)?;
    let found = rows.at(rows.newest()).tuples_of(alloc, &node)?;
    Ok(found == tuples_in(alloc, words)?)
}

// Whether all of them, and those of two nodes, are listed so.
fn lists_both(alloc: Global, rows: &Rows, all: &str, of_b: &str) -> Result<bool, Refusal> {
    let found = lists(alloc, rows, all)? && lists_of(alloc, rows, "doc:b#viewer", of_b)?;
    Ok(found && lists_of(alloc, rows, "doc:b#owner", "")?)
}

fn lists_none(alloc: Global) -> Result<bool, Refusal> {
    let rows = history(alloc, &THREE)?;
    lists_both(alloc, &rows, "", "")
}

fn lists_places(alloc: Global) -> Result<bool, Refusal> {
    let rows = history(alloc, &FOUR)?;
    lists_both(alloc, &rows, IN_ORDER, OF_B)
}

#[test]
fn tuples_are_listed_in_order(rt: HostRuntime) -> Result<(), Fail> {
    assert!(rt; lists_none(rt.alloc())? && lists_places(rt.alloc())?);
    Ok(())
}

const AT_B: &str =
    "doc:b#view@u:a doc:b#viewer@u:a doc:b#viewer@u:a#m doc:b#viewer@u:b doc:b#viewer_@u:a";

fn read_of(alloc: Global, found: &[TupleRef<'_>]) -> Result<Vec<Tuple>, AllocError> {
    let mut tuples = Vec::new(alloc);
    for one in found {
        tuples.push(one.tuple())?;
    }
    Ok(tuples)
}

// What the newest revision says of an object's few tuples.
fn few_are(
    alloc: Global,
    rows: &Rows,
    object: &str,
    most: usize,
    words: Option<&str>,
) -> Result<bool, Refusal> {
    let object = Object::parse(object)?;
    let found = rows.at(rows.newest()).few_of(alloc, &object, most)?;
    Ok(match (found, words) {
        (Some(found), Some(words)) => read_of(alloc, &found)? == tuples_in(alloc, words)?,
        (None, None) => true,
        _ => false,
    })
}

fn lists_few(alloc: Global, rows: &Rows) -> Result<bool, Refusal> {
    let five = few_are(alloc, rows, "doc:b", 5, Some(AT_B))?;
    let four = few_are(alloc, rows, "doc:b", 4, None)?;
    let next = few_are(alloc, rows, "doc:b-", 1, Some("doc:b-#viewer@u:a"))?;
    let last = few_are(alloc, rows, "doc:c", 1, Some("doc:c#viewer@u:a"))?;
    Ok(five && four && next && last && few_are(alloc, rows, "doc:d", 0, Some(""))?)
}

// The tuple of ann was deleted, and is gone over with the other.
fn goes_over_deleted(alloc: Global, rows: &Rows) -> Result<bool, Refusal> {
    let two = few_are(alloc, rows, "doc:a", 2, Some("doc:a#viewer@u:a"))?;
    Ok(two && few_are(alloc, rows, "doc:a", 1, None)?)
}

fn goes_over_none(alloc: Global) -> Result<bool, Refusal> {
    let rows = history(alloc, &THREE)?;
    few_are(alloc, &rows, "doc:a", 1, Some(""))
}

fn goes_over_few(alloc: Global) -> Result<bool, Refusal> {
    let rows = history(alloc, &FOUR)?;
    Ok(lists_few(alloc, &rows)? && goes_over_deleted(alloc, &rows)?)
}

#[test]
fn the_tuples_of_an_object_are_listed_where_they_are_few(rt: HostRuntime) -> Result<(), Fail> {
    assert!(rt; goes_over_none(rt.alloc())? && goes_over_few(rt.alloc())?);
    Ok(())
}

fn holds_at(rows: &Rows, rev: u64, tuple: &Tuple) -> bool {
    rev >= rows.floor() && rev <= rows.newest() && rows.at(rev).contains(tuple)
}

fn is_unchanged(rows: &Rows, tuple: &Tuple, rev: u64) -> bool {
    rev >= rows.floor() && rows.is_unchanged(tuple, rev)
}

fn changes_last_at(rows: &Rows, word: &str, rev: u64) -> Result<bool, Refusal> {
    let tuple = Tuple::parse(word)?;
    let before = rev > 0 && is_unchanged(rows, &tuple, rev - 1);
    Ok(!before && is_unchanged(rows, &tuple, rev))
}

fn change_last(alloc: Global) -> Result<bool, Refusal> {
    let rows = history(alloc, &THREE)?;
    Ok(changes_last_at(&rows, ANN, 3)? && changes_last_at(&rows, "doc:a#viewer@u:bob", 0)?)
}

#[test]
fn a_tuple_is_unchanged_since_its_last_event(rt: HostRuntime) -> Result<(), Fail> {
    assert!(rt; change_last(rt.alloc())?);
    Ok(())
}

fn has(rows: &Rows, floor: u64, newest: u64, spans: u64, tuples: u64) -> bool {
    let counts = rows.counts();
    rows.floor() == floor
        && rows.newest() == newest
        && counts.rows == spans
        && counts.tuples == tuples
}

fn is_trimmed(alloc: Global) -> Result<bool, Refusal> {
    let ann = Tuple::parse(ANN)?;
    let mut rows = history(alloc, &THREE)?;
    let whole = has(&rows, 0, 3, 1, 0);
    trims(&mut rows, 2);
    let kept = has(&rows, 2, 3, 1, 0) && holds_at(&rows, 2, &ann) && !holds_at(&rows, 3, &ann);
    trims(&mut rows, 3);
    Ok(whole && kept && has(&rows, 3, 3, 0, 0))
}

#[test]
fn a_trim_keeps_what_stands(rt: HostRuntime) -> Result<(), Fail> {
    assert!(rt; is_trimmed(rt.alloc())?);
    Ok(())
}

fn goes_back(rows: &mut Rows) {
    if rows.newest() > rows.floor() {
        rows.back();
    }
}

fn is_taken_back(alloc: Global) -> Result<bool, Refusal> {
    let ann = Tuple::parse(ANN)?;
    let mut rows = history(alloc, &THREE)?;
    goes_back(&mut rows);
    let there = has(&rows, 0, 2, 1, 1) && holds_at(&rows, 2, &ann);
    goes_back(&mut rows);
    Ok(there && has(&rows, 0, 1, 0, 0) && !holds_at(&rows, 1, &ann))
}

#[test]
fn commits_are_taken_back(rt: HostRuntime) -> Result<(), Fail> {
    assert!(rt; is_taken_back(rt.alloc())?);
    Ok(())
}

// The one event of a commit is on ann, and of this kind.
fn is_on_ann(commit: &Commit<Config>, ann: &Tuple, kind: EventKind) -> bool {
    match commit {
        Commit::Tuples(events) => match events.as_slice() {
            [event] => event.tuple == *ann && event.kind == kind,
            _ => false,
        },
        Commit::Config(_) => false,
    }
}

fn is_configuration(commit: &Commit<Config>) -> bool {
    match commit {
        Commit::Tuples(_) => false,
        Commit::Config(config) => config.relations().len() == 6,
    }
}

// The commits of the revisions above one, up to another.
fn brought(
    alloc: Global,
    rows: &Rows,
    from: u64,
    to: u64,
) -> Result<Vec<Commit<Config>>, AllocError> {
    if from < rows.floor() || to < from || to > rows.newest() {
        return Ok(Vec::new(alloc));
    }
    rows.events(alloc, from, to)
}

fn brings_all(alloc: Global, rows: &Rows, ann: &Tuple) -> Result<bool, AllocError> {
    let all = brought(alloc, rows, 0, 3)?;
    Ok(match all.as_slice() {
        [config, put, _] => is_configuration(config) && is_on_ann(put, ann, EventKind::Put),
        _ => false,
    })
}

fn brings_last(alloc: Global, rows: &Rows, ann: &Tuple) -> Result<bool, AllocError> {
    let last = brought(alloc, rows, 2, 3)?;
    Ok(match last.as_slice() {
        [del] => is_on_ann(del, ann, EventKind::Del),
        _ => false,
    })
}

fn brings_back(alloc: Global) -> Result<bool, Refusal> {
    let ann = Tuple::parse(ANN)?;
    let rows = history(alloc, &THREE)?;
    Ok(brings_all(alloc, &rows, &ann)? && brings_last(alloc, &rows, &ann)?)
}

#[test]
fn commits_are_brought_as_they_came(rt: HostRuntime) -> Result<(), Fail> {
    assert!(rt; brings_back(rt.alloc())?);
    Ok(())
}

// The revision of the last configuration among those that the revisions bring, or else 99.
fn last_between(rows: &Rows, from: u64, to: u64) -> u64 {
    if from < rows.floor() || to < from || to > rows.newest() {
        return 0;
    }
    rows.last_config(99, from, to)
}

fn finds_the_first(alloc: Global) -> Result<bool, Refusal> {
    let rows = history(alloc, &THREE)?;
    Ok(last_between(&rows, 0, 3) == 1 && last_between(&rows, 1, 3) == 99)
}

fn finds_the_last(alloc: Global) -> Result<bool, Refusal> {
    let rows = history(alloc, &[CONFIG, ANN, NO_ANN, CONFIG])?;
    Ok(last_between(&rows, 0, 4) == 4 && last_between(&rows, 2, 3) == 99)
}

#[test]
fn the_last_configuration_is_found(rt: HostRuntime) -> Result<(), Fail> {
    assert!(rt; finds_the_first(rt.alloc())? && finds_the_last(rt.alloc())?);
    Ok(())
}
