//! Members of the marked nodes, as far as there is memory for them.
ghost use Rattle.std.specs.Prelude.{◌≡◌, ◌≤◌, List, IfSome, OnOk};
ghost use Rattle.std.specs.List.{IsDistinct};
ghost use Rattle.names.specs.Order.{is_same_node};
ghost use Rattle.names.specs.declared.node.Node.{Node as NodeValue};
ghost use Rattle.meaning.specs.History.{after_commit};
ghost use Rattle.meaning.specs.Snap.{Snap};
ghost use Rattle.hot.specs.Kept.{IsHot, HasSameMarks};
ghost use Rattle.rows.specs.Retained.{newest, snap_at};
ghost use Rattle.shown.specs.Marks.{after_marking};
ghost use Rattle.shown.specs.inside.Basing.{AreMarked};

use facts::each_view_is_valid;
use hot::{Hot, ViewNodes};
use names::{Marking, Node};
use rows::{Rows, View};
use std::alloc::{AllocError, Global};
use std::hash::RandomState;
use tuple_keys::KeptCommit;

/// The members of the marked nodes, solved anew. Nothing where no node is marked, or where there is no memory.
pub(crate) fn members_of(
    alloc: Global,
    keys: RandomState,
    view: &View<'_>,
    marks: &[Node],
) -> Option<Hot>
    ensures hot { IfSome result (λ hot. IsHot hot view.now) }
    ensures marked { IfSome result (λ hot. AreMarked marks.now hot) }
{
    if marks.is_empty() {
        return None;
    }
    each_view_is_valid(view);
    let mut hot = Hot::new(alloc, keys);
    for mark in marks {
        hot.mark(alloc, view, mark).ok()?;
    }
    Some(hot)
}

/// The members after a marking, with these marks after it: those that were kept, with the one mark, or else solved anew.
/// Nothing where there is no memory.
pub(crate) fn members_after(
    alloc: Global,
    keys: RandomState,
    kept: Option<Hot>,
    view: &View<'_>,
    marks: &[Node],
    marking: &Marking,
) -> Option<Hot>
    requires { IfSome kept (λ hot. IsHot hot view.now) }
    ensures hot { IfSome result (λ hot. IsHot hot view.now) }
    ensures marked { (before : List NodeValue) → IsDistinct is_same_node before
        → IfSome kept (λ hot. AreMarked before hot) → marks.now ≡ after_marking before marking.now
        → IfSome result (λ hot. AreMarked marks.now hot) }
{
    match kept {
        Some(hot) => remarked(alloc, hot, view, marking),
        None => members_of(alloc, keys, view, marks),
    }
}

/// The members that were kept, after a marking. Nothing where there is no memory.
fn remarked(alloc: Global, mut hot: Hot, view: &View<'_>, marking: &Marking) -> Option<Hot>
    requires { IsHot hot view.now }
    ensures hot { IfSome result (λ hot. IsHot hot view.now) }
    ensures marked { (before : List NodeValue) → IsDistinct is_same_node before → AreMarked before hot
        → IfSome result (λ hot. AreMarked (after_marking before marking.now) hot) }
{
    match marking {
        Marking::Mark(node) => {
            hot.mark(alloc, view, node).ok()?;
            Some(hot)
        }
        Marking::Unmark(node) => {
            hot.unmark(alloc, node).ok()?;
            Some(hot)
        }
    }
}

/// The members at a later revision, after the commits up to it. Nothing where there is no memory.
pub(crate) fn members_later(
    alloc: Global,
    mut hot: Hot,
    rows: &Rows,
    from: u64,
    to: u64,
) -> Option<Hot>
    requires from { rows.now.floor ≤ from }
    requires order { from ≤ to }
    requires to { to ≤ newest rows.now }
    requires hot { IsHot hot (snap_at rows.now from) }
    ensures hot { IfSome result (λ hot. IsHot hot (snap_at rows.now to)) }
    ensures marked { IfSome result (λ later. HasSameMarks hot later) }
{
    let commits = rows.commits(from, to);
    for i in 0..commits.len() {
        let view = rows.at(from + i as u64 + 1);
        take_commit(alloc, &mut hot, &commits[i], &view).ok()?;
    }
    Some(hot)
}

/// Takes a commit, of which the view has the snapshot after it.
fn take_commit(
    alloc: Global,
    hot: &mut Hot,
    commit: &KeptCommit,
    view: &View<'_>,
) -> Result<(), AllocError>
    ensures hot { OnOk result ((S : Snap) → IsHot hot.old S → view.now ≡ after_commit S commit.now
        → IsHot hot.new view.now) }
    ensures marked { OnOk result ((S : Snap) → IsHot hot.old S → HasSameMarks hot.old hot.new) }
{
    match commit.events() {
        Some(events) => {
            let events = events.events(alloc)?;
            hot.take(alloc, &events, &mut ViewNodes::of(alloc, view))?;
        }
        None => {
            hot.restart(alloc, view)?;
        }
    }
    Ok(())
}
