//! A document whose viewers come from a folder's group, less a banned one.

use config::Config;
use names::{Commit, Items, Op, OpKind, Refusal, Tuple};
use rows::{Rows, events_of};
use std::alloc::{AllocError, Global};

const CONFIG: &str = r#"{"namespaces":{"doc":{"banned":{"types":["user","group#member"]},
"owner":{"types":["user"]},"parent":{"types":["folder"]},
"viewer":{"rewrite":{"exclusion":[{"union":["this",{"computed":"owner"},
{"tuple_to":{"relation":"viewer","tupleset":"parent"}}]},
{"computed":"banned"}]},"types":["user"]}},
"folder":{"viewer":{"types":["user","group#member"]}},
"group":{"member":{"indexed":true,"types":["user","group#member"]}},
"user":{}}}"#;

const TUPLES: &str = "doc:1#parent@folder:f folder:f#viewer@group:v#member group:v#member@user:ann \
    group:v#member@user:zoe doc:1#owner@user:bob doc:1#banned@group:b#member group:b#member@user:zoe \
    group:c#member@user:ann";

fn is_committed(rows: &mut Rows, commit: &Commit<Config>) -> Result<bool, AllocError> {
    if rows.refuses(commit)? {
        return Ok(false);
    }
    rows.admits_its_tuples();
    rows.commit(commit)?;
    Ok(true)
}

pub(crate) fn add(rows: &mut Rows, commit: &Commit<Config>) -> Result<(), Refusal> {
    if is_committed(rows, commit)? {
        Ok(())
    } else {
        Err(Refusal::Malformed)
    }
}

pub(crate) fn configure(alloc: Global, rows: &mut Rows, config: &str) -> Result<(), Refusal> {
    let config = Commit::Config(Config::from_json(alloc, config.as_bytes())?);
    add(rows, &config)
}

fn touch(word: &str) -> Result<Op, Refusal> {
    let tuple = Tuple::parse(word)?;
    Ok(Op {
        kind: OpKind::Touch,
        tuple,
    })
}

fn touches(alloc: Global, words: &str) -> Result<Items<Op>, Refusal> {
    let mut ops = Vec::new(alloc);
    for word in words.split_ascii_whitespace() {
        ops.push(touch(word)?)?;
    }
    Ok(Items::of(ops))
}

fn write(alloc: Global, rows: &mut Rows, words: &str) -> Result<(), Refusal> {
    let ops = touches(alloc, words)?;
    let tuples = Commit::Tuples(events_of(ops)?);
    add(rows, &tuples)
}

// Adds the configuration and then the tuples. Whoever owns the history lends it, so that one function drops it.
pub(crate) fn fill(alloc: Global, rows: &mut Rows) -> Result<(), Refusal> {
    configure(alloc, rows, CONFIG)?;
    write(alloc, rows, TUPLES)
}
