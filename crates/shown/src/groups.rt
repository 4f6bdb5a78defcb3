//! The group index, as far as there is memory for it.
ghost use Rattle.std.specs.Prelude.{◌≡◌, ◌≤◌, ◌+◌, ℕ, max, IfOk, IfSome, OnOk, OnErr};
ghost use Rattle.meaning.specs.History.{after_commit};
ghost use Rattle.meaning.specs.Snap.{Snap};
ghost use Rattle.rows.specs.Retained.{newest, snap_at};
ghost use Rattle.group_index.specs.Indices.{cursor_of};
ghost use Rattle.shown.specs.Adopting.{IsReady};
ghost use Rattle.shown.specs.inside.Basing.{IsIndexIn};

use crate::index_at::IndexAt;
use delta::ViewArcs;
use group_index::GroupIndex;
use rows::{Rows, View};
use std::alloc::{AllocError, Global};
use std::hash::RandomState;
use tuple_keys::KeptCommit;

/// The index with a new base. Where there is none and one is to be kept, it is begun there, and takes the commits up to the
/// cursor. One whose base is above the revision stays as it is. For want of memory nothing changes.
pub(crate) fn rebase(
    alloc: Global,
    keys: RandomState,
    index: &mut Option<GroupIndex>,
    rows: &Rows,
    rev: u64,
    cursor: u64,
    is_kept: bool,
) -> Result<(), AllocError>
    requires retained { rows.now.floor ≤ rev }
    requires there { rev ≤ newest rows.now }
    requires cursor_there { cursor ≤ newest rows.now }
    requires index { IfSome index.old (IsIndexIn (snap_at rows.now) rows.now.floor cursor) }
    ensures ok { OnOk result (IfSome index.new (IsIndexIn (snap_at rows.now) rows.now.floor (max cursor rev))) }
    ensures err { OnErr result (index.new ≡ index.old) }
{
    match index {
        Some(index) => rebased(alloc, index, rows, rev),
        None => {
            if !is_kept {
                return Ok(());
            }
            let begun = begun(alloc, keys, rows, rev, cursor.max(rev))?;
            *index = Some(begun);
            Ok(())
        }
    }
}

/// The same, where there is an index.
fn rebased(alloc: Global, index: &mut GroupIndex, rows: &Rows, rev: u64) -> Result<(), AllocError>
    requires retained { rows.now.floor ≤ rev }
    requires there { rev ≤ newest rows.now }
    ensures ok { OnOk result ((cursor : ℕ) → IsIndexIn (snap_at rows.now) rows.now.floor cursor index.old
        → IsIndexIn (snap_at rows.now) rows.now.floor (max cursor rev) index.new) }
    ensures err { OnErr result (index.new ≡ index.old) }
{
    if rev < index.base() {
        return Ok(());
    }
    index.rebase(alloc, &rows.at(rev), rev)
}

/// The index from one revision to another.
fn begun(
    alloc: Global,
    keys: RandomState,
    rows: &Rows,
    from: u64,
    to: u64,
) -> Result<GroupIndex, AllocError>
    requires retained { rows.now.floor ≤ from }
    requires order { from ≤ to }
    requires to { to ≤ newest rows.now }
    ensures { IfOk result (IsIndexIn (snap_at rows.now) rows.now.floor to) }
{
    let index = GroupIndex::restart(alloc, keys, &rows.at(from), from)?;
    index_later(alloc, keys, index, rows, from, to)
}

/// The index with a new base, or one in its place that was made of a revision at or below that, with the commits up to the cursor.
/// For want of memory nothing changes.
pub(crate) fn adopt(
    alloc: Global,
    keys: RandomState,
    index: &mut Option<GroupIndex>,
    ready: IndexAt,
    rows: &Rows,
    rev: u64,
    cursor: u64,
) -> Result<(), AllocError>
    requires ready { IsReady rows.now ready }
    requires order { ready.rev ≤ rev }
    requires there { rev ≤ newest rows.now }
    requires cursor_there { cursor ≤ newest rows.now }
    ensures ok { OnOk result (IfSome index.new (IsIndexIn (snap_at rows.now) rows.now.floor (max cursor rev))) }
    ensures err { OnErr result (index.new ≡ index.old) }
{
    let later = made_later(alloc, keys, ready, rows, cursor.max(rev))?;
    *index = Some(later);
    Ok(())
}

/// The index after the commits up to a revision. Where one is ready that was made on the way there, it goes on from that.
pub(crate) fn index_by(
    alloc: Global,
    keys: RandomState,
    index: GroupIndex,
    ready: Option<IndexAt>,
    rows: &Rows,
    from: u64,
    to: u64,
) -> Result<GroupIndex, AllocError>
    requires from { rows.now.floor ≤ from }
    requires order { from ≤ to }
    requires to { to ≤ newest rows.now }
    requires index { IsIndexIn (snap_at rows.now) rows.now.floor from index }
    requires ready { IfSome ready (IsReady rows.now) }
    ensures { IfOk result (IsIndexIn (snap_at rows.now) rows.now.floor to) }
{
    let Some(ready) = ready else {
        return index_later(alloc, keys, index, rows, from, to);
    };
    if ready.rev <= from || to < ready.rev {
        return index_later(alloc, keys, index, rows, from, to);
    }
    made_later(alloc, keys, ready, rows, to)
}

/// An index that was made of one revision, after the commits up to another.
fn made_later(
    alloc: Global,
    keys: RandomState,
    ready: IndexAt,
    rows: &Rows,
    to: u64,
) -> Result<GroupIndex, AllocError>
    requires ready { IsReady rows.now ready }
    requires order { ready.rev ≤ to }
    requires to { to ≤ newest rows.now }
    ensures { IfOk result (IsIndexIn (snap_at rows.now) rows.now.floor to) }
{
    let IndexAt { rev, index } = ready;
    index_later(alloc, keys, index, rows, rev, to)
}

/// The index at a later revision, after the commits up to it. It costs what they touch, unless one is of a configuration.
fn index_later(
    alloc: Global,
    keys: RandomState,
    mut index: GroupIndex,
    rows: &Rows,
    from: u64,
    to: u64,
) -> Result<GroupIndex, AllocError>
    requires from { rows.now.floor ≤ from }
    requires order { from ≤ to }
    requires to { to ≤ newest rows.now }
    requires index { IsIndexIn (snap_at rows.now) rows.now.floor from index }
    ensures { IfOk result (IsIndexIn (snap_at rows.now) rows.now.floor to) }
{
    let commits = rows.commits(from, to);
    for i in 0..commits.len() {
        let rev = from + i as u64 + 1;
        index = after(alloc, keys, index, &commits[i], &rows.at(rev), rev)?;
    }
    Ok(index)
}

/// The index after the commit of the next revision, of which the view has the snapshot. With a configuration it is begun
/// anew.
fn after(
    alloc: Global,
    keys: RandomState,
    index: GroupIndex,
    commit: &KeptCommit,
    view: &View<'_>,
    rev: u64,
) -> Result<GroupIndex, AllocError>
    requires { rev ≡ cursor_of index + 1 }
    ensures { IfOk result (λ next. (snaps : ℕ → Snap) (floor cursor : ℕ) → IsIndexIn snaps floor cursor index
        → snaps rev ≡ view.now → view.now ≡ after_commit (snaps cursor) commit.now → IsIndexIn snaps floor rev next) }
{
    match commit.events() {
        Some(events) => {
            let events = events.events(alloc)?;
            let mut arcs = ViewArcs::of(alloc, view);
            index.take(alloc, &events, &mut arcs)
        }
        None => GroupIndex::restart(alloc, keys, view, rev),
    }
}

/// Moves the base up to a higher floor. It takes no memory.
pub(crate) fn raise(index: &mut Option<GroupIndex>, floor: u64)
    requires { IfSome index.old (λ i. floor ≤ cursor_of i) }
    ensures { (snaps : ℕ → Snap) (from cursor : ℕ) → IfSome index.old (IsIndexIn snaps from cursor)
        → IfSome index.new (IsIndexIn snaps floor cursor) }
{
    match index {
        Some(index) => raised(index, floor),
        None => {}
    }
}

fn raised(index: &mut GroupIndex, floor: u64)
    requires { floor ≤ cursor_of index.old }
    ensures { (snaps : ℕ → Snap) (from cursor : ℕ) → IsIndexIn snaps from cursor index.old → IsIndexIn snaps floor cursor index.new }
{
    if floor <= index.base() {
        return;
    }
    index.raise(floor);
}
