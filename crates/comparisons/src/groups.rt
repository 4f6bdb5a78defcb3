//! The group index of retained revisions.
ghost use Rattle.std.specs.Prelude.{◌≡◌, ◌≤◌, ◌+◌, IfOk, IfSome, OnOk, OnErr};
ghost use Rattle.meaning.specs.History.{after_commit};
ghost use Rattle.rows.specs.Retained.{Retained, newest, snap_at};
ghost use Rattle.group_index.specs.Indices.{base_of, cursor_of};
ghost use Rattle.comparisons.specs.Following.{IsIndexIn};

use delta::ViewArcs;
use group_index::GroupIndex;
use rows::{Rows, View};
use std::alloc::{AllocError, Global};
use std::hash::RandomState;
use tuple_keys::KeptCommit;

/// The index after the next commit, where there is one.
pub(crate) fn next(
    alloc: Global,
    keys: RandomState,
    index: GroupIndex,
    rows: &Rows,
) -> Result<GroupIndex, AllocError>
    requires { IsIndexIn rows.now index }
    ensures { IfOk result (IsIndexIn rows.now) }
{
    let from = index.cursor();
    if rows.newest() <= from {
        return Ok(index);
    }
    let view = rows.at(from + 1);
    let commits = rows.commits(from, from + 1);
    after(alloc, keys, index, &commits[0], &view, from + 1)
}

/// The index after the commit of the next revision, of which the view has the snapshot. With a configuration it is begun
/// anew.
fn after(
    alloc: Global,
    keys: RandomState,
    index: GroupIndex,
    commit: &KeptCommit,
    view: &View<'_>,
    rev: u64,
) -> Result<GroupIndex, AllocError>
    requires { rev ≡ cursor_of index + 1 }
    ensures { IfOk result (λ next. (r : Retained) → IsIndexIn r index → rev ≤ newest r → snap_at r rev ≡ view.now
        → view.now ≡ after_commit (snap_at r (cursor_of index)) commit.now → IsIndexIn r next) }
{
    match commit.events() {
        Some(events) => {
            let events = events.events(alloc)?;
            let mut arcs = ViewArcs::of(alloc, view);
            index.take(alloc, &events, &mut arcs)
        }
        None => GroupIndex::restart(alloc, keys, view, rev),
    }
}

/// Moves the base up to a revision, where it is below it. What has not come so far begins anew there.
pub(crate) fn rebase(
    alloc: Global,
    index: &mut GroupIndex,
    rows: &Rows,
    rev: u64,
) -> Result<(), AllocError>
    requires retained { rows.now.floor ≤ rev }
    requires there { rev ≤ newest rows.now }
    ensures ok { OnOk result (IsIndexIn rows.now index.old → IsIndexIn rows.now index.new) }
    ensures err { OnErr result (index.new ≡ index.old) }
{
    if rev < index.base() {
        return Ok(());
    }
    index.rebase(alloc, &rows.at(rev), rev)
}

/// Moves the base up to a revision that is not above the cursor, where it is below it.
pub(crate) fn raise(index: &mut GroupIndex, rev: u64)
    requires { rev ≤ cursor_of index.old }
    ensures index { (r : Retained) → IsIndexIn r index.old → IsIndexIn r index.new }
    ensures base { rev ≤ base_of index.new }
{
    if rev <= index.base() {
        return;
    }
    index.raise(rev);
}
