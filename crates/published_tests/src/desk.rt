//! A small desk: it judges changes on a history of its own, posts them, and publishes them when it is told to.
ghost use Rattle.std.specs.Prelude.{◌≡◌, OnOk};
ghost use Rattle.rows.specs.Retained.{newest_of};
ghost use Rattle.rows.specs.Follows.{IsAccepted};
ghost use Rattle.shown.specs.Standing.{standing, HasRoom};
ghost use Rattle.published.specs.Posts.{IsLater};

use config::Config;
use names::{Items, Op, OpKind, Refusal, Tuple};
use published::{Naming, Opened, Publication};
use rows::{events_of, refuses_what_no_write_gives};
use shown::{Shown, Step};
use std::alloc::Global;
use std::process::Abort;
use std::sync::Wait;
use tables::{Listed, Tables};
use tuple_keys::KeptCommit;

/// The history, and the publication of all that was done to it.
#[derive(Drop)]
pub struct Desk<J: Naming, R: Wait + Drop> {
    pub own: Shown,
    pub publication: Publication<J, R>,
    pub ghost agrees: { own ≡ standing publication.posted },
}

/// A desk over a store that holds nothing.
pub(crate) fn open<A: Abort, J: Naming, R: Wait + Drop>(
    rt: &A,
    handle: R,
    alloc: Global,
    opened: Opened,
) -> Desk<J, R>
    requires { opened.book ≡ J.book }
{
    let loaded = Listed::new(alloc, 7).load(alloc).expect(rt, "tables");
    let first = Step::Open(loaded);
    let mut own = Shown::new(alloc, opened.keys);
    own.apply(&first).expect(rt, "a history");
    let publication = Publication::open(alloc, handle, opened, first);
    let publication = publication.expect(rt, "a publication");
    Desk { own, publication }
}

/// Posts a configuration.
pub(crate) fn configure<J: Naming, R: Wait + Drop>(
    alloc: Global,
    desk: &mut Desk<J, R>,
    text: &str,
) -> Result<(), Refusal>
    ensures { desk.new.publication.book ≡ desk.old.publication.book }
{
    let config = Config::from_json(alloc, text.as_bytes())?;
    desk.own.judge_config(&config)?;
    let commit = KeptCommit::of_config(alloc, config)?;
    post(desk, Step::Commit(commit))
}

/// Posts that a tuple is inserted.
pub(crate) fn insert<J: Naming, R: Wait + Drop>(
    alloc: Global,
    desk: &mut Desk<J, R>,
    text: &str,
) -> Result<(), Refusal>
    ensures { desk.new.publication.book ≡ desk.old.publication.book }
{
    let tuple = Tuple::parse(text)?;
    let mut ops = Vec::new(alloc);
    ops.push(Op {
        kind: OpKind::Insert,
        tuple,
    })?;
    let ops = Items::of(ops);
    judge(&desk.own, &ops)?;
    let events = events_of(ops)?;
    refuses_what_no_write_gives();
    let commit = KeptCommit::of_events(alloc, events.as_slice())?;
    post(desk, Step::Commit(commit))
}

fn judge(own: &Shown, ops: &Items<Op>) -> Result<(), Refusal>
    ensures { OnOk result (IsAccepted (newest_of own.now.kept) ops.now) }
{
    own.judge(ops.as_slice())
}

fn post<J: Naming, R: Wait + Drop>(desk: &mut Desk<J, R>, step: Step) -> Result<(), Refusal>
    requires later { IsLater step }
    requires follows { HasRoom desk.old.own step }
    ensures { desk.new.publication.book ≡ desk.old.publication.book }
{
    desk.publication.reserve()?;
    desk.own.apply(&step)?;
    desk.publication.post(step);
    Ok(())
}
