//! A history, and what is kept of it.
ghost use Rattle.std.specs.Prelude.{◌≡◌, true, IfSome, OnOk, OnErr};
ghost use Rattle.meaning.specs.History.{after_commit};
ghost use Rattle.meaning.specs.Snap.{Snap};
ghost use Rattle.hot.specs.Kept.{IsHot};
ghost use Rattle.group_index.specs.Indices.{TellsOf};
ghost use Rattle.rows.specs.Retained.{IsRetained, snap_at};

use crate::groups::{next, raise, rebase};
use crate::known::Known;
use config::Config;
use decide::{Nothing, check_at};
use facts::each_view_is_valid;
use group_index::{At, GroupIndex};
use hot::{Hot, ViewNodes};
use names::{Commit, Node, Object, Refusal};
use rows::{Rows, View};
use std::alloc::{AllocError, Global};
use std::hash::RandomState;
use std::marker::Model;
use tuple_keys::KeptCommit;

/// A history, the members of marked nodes at one of its revisions, the cursor, and the group index from a base to a
/// cursor of its own.
#[derive(Drop)]
pub(crate) struct Followed {
    alloc: Global,
    keys: RandomState,
    rows: Rows,
    hot: Hot,
    cursor: u64,
    groups: Option<GroupIndex>,
}

impl Model for Followed {
    ghost use Rattle.rows.specs.Retained.{Retained};
    ghost use Rattle.rows.specs.inside.Codes.{coded_retained};
    ghost use Rattle.comparisons.specs.Following.{IsFollowing};

    ghost Value = { Retained };

    ghost coded = { coded_retained };

    ghost view = { λ s. s.rows };

    ghost invariant = { λ s. IsFollowing s.rows s.hot s.cursor s.groups };
}

impl Followed {
    pub(crate) fn new(alloc: Global, keys: RandomState) -> Result<Followed, AllocError> {
        let rows = Rows::empty(alloc);
        let groups = GroupIndex::restart(alloc, keys, &rows.at(0), 0)?;
        each_view_is_valid(&rows.at(0));
        Ok(Followed {
            alloc,
            keys,
            rows,
            hot: Hot::new(alloc, keys),
            cursor: 0,
            groups: Some(groups),
        })
    }

    pub(crate) fn newest(&self) -> u64 {
        self.rows.newest()
    }

    /// The revision of the members.
    pub(crate) fn cursor(&self) -> u64 {
        self.cursor
    }

    /// The members of marked nodes.
    pub(crate) fn hot(&self) -> &Hot {
        &self.hot
    }

    pub(crate) fn groups(&self) -> Option<&GroupIndex> {
        self.groups.as_ref()
    }

    /// The base of the group index.
    pub(crate) fn base(&self) -> u64 {
        match &self.groups {
            Some(index) => index.base(),
            None => 0,
        }
    }

    fn is_retained(&self, rev: u64) -> bool
        ensures { result ≡ true → IsRetained self.now rev }
    {
        self.rows.floor() <= rev && rev <= self.rows.newest()
    }

    /// Adds the commit where it can follow, and says whether it does.
    pub(crate) fn add(&mut self, commit: &Commit<Config>) -> Result<bool, AllocError> {
        if self.rows.refuses(commit)? {
            return Ok(false);
        }
        self.rows.admits_its_tuples();
        self.rows.commit(commit)?;
        Ok(true)
    }

    /// The members take the next commit, where there is one.
    pub(crate) fn take_for_members(&mut self) -> Result<(), AllocError> {
        let from = self.cursor;
        if self.rows.newest() <= from {
            return Ok(());
        }
        let view = self.rows.at(from + 1);
        let commits = self.rows.commits(from, from + 1);
        take_commit(self.alloc, &mut self.hot, &commits[0], &view)?;
        self.cursor = from + 1;
        Ok(())
    }

    /// The group index takes the next commit, where there is one.
    pub(crate) fn take_for_groups(&mut self) -> Result<(), AllocError> {
        if let Some(index) = self.groups.take() {
            self.groups = Some(next(self.alloc, self.keys, index, &self.rows)?);
        }
        Ok(())
    }

    /// The members begin anew, with the same marks, at the newest revision.
    pub(crate) fn begin_anew(&mut self) -> Result<(), AllocError> {
        let newest = self.rows.newest();
        self.hot.restart(self.alloc, &self.rows.at(newest))?;
        self.cursor = newest;
        Ok(())
    }

    /// Moves the base of the group index up to a revision, where that is retained and not below the base.
    pub(crate) fn rebase(&mut self, rev: u64) -> Result<(), AllocError> {
        if !self.is_retained(rev) {
            return Ok(());
        }
        match &mut self.groups {
            Some(index) => rebase(self.alloc, index, &self.rows, rev),
            None => Ok(()),
        }
    }

    /// Raises the floor, though not above a cursor.
    pub(crate) fn trim(&mut self, floor: u64) {
        let Some(index) = &mut self.groups else {
            return;
        };
        if floor < self.rows.floor() || self.cursor < floor || index.cursor() < floor {
            return;
        }
        raise(index, floor);
        self.rows.trim(floor);
    }

    pub(crate) fn mark(&mut self, node: &Node) -> Result<(), Refusal> {
        self.hot.mark(self.alloc, &self.rows.at(self.cursor), node)?;
        Ok(())
    }

    pub(crate) fn unmark(&mut self, node: &Node) -> Result<(), AllocError> {
        self.hot.unmark(self.alloc, node)
    }

    /// The group index at a retained revision, where it tells of that.
    fn groups_at(&self, rev: u64) -> Option<At<'_>>
        requires { IsRetained self.now rev }
        ensures { IfSome result (λ at. TellsOf at (snap_at self.now rev)) }
    {
        match &self.groups {
            Some(index) => index.at(self.alloc, rev),
            None => None,
        }
    }

    /// The members, where they are those of a retained revision.
    fn members_at(&self, rev: u64) -> Option<&Hot>
        ensures { IfSome result (λ hot. IsHot hot.now (snap_at self.now rev)) }
    {
        if rev == self.cursor {
            Some(&self.hot)
        } else {
            None
        }
    }

    /// Whether the user is a member of the node at a revision, by a search that asks what is kept; nothing where the relation is
    /// not there, or the revision is not retained.
    pub(crate) fn check(
        &self,
        rev: u64,
        node: &Node,
        user: &Object,
    ) -> Result<Option<bool>, Refusal> {
        if !self.is_retained(rev) {
            return Ok(None);
        }
        let view = self.rows.at(rev);
        each_view_is_valid(&view);
        let (hot, groups) = (self.members_at(rev), self.groups_at(rev));
        told(check_at(
            self.alloc,
            self.keys,
            &view,
            &mut Known { hot, groups },
            node,
            user,
        ))
    }

    /// The same by a search that asks nothing.
    pub(crate) fn check_alone(
        &self,
        rev: u64,
        node: &Node,
        user: &Object,
    ) -> Result<Option<bool>, Refusal> {
        if !self.is_retained(rev) {
            return Ok(None);
        }
        let view = self.rows.at(rev);
        told(check_at(self.alloc, self.keys, &view, &mut Nothing, node, user))
    }
}

/// Takes a commit, of which the view has the snapshot after it.
fn take_commit(
    alloc: Global,
    hot: &mut Hot,
    commit: &KeptCommit,
    view: &View<'_>,
) -> Result<(), AllocError>
    ensures ok { OnOk result ((S : Snap) → IsHot hot.old S → view.now ≡ after_commit S commit.now
        → IsHot hot.new view.now) }
    ensures err { OnErr result ((S : Snap) → IsHot hot.old S → IsHot hot.new S) }
{
    match commit.events() {
        Some(events) => {
            let events = events.events(alloc)?;
            hot.take(alloc, &events, &mut ViewNodes::of(alloc, view))?;
        }
        None => {
            hot.restart(alloc, view)?;
        }
    }
    Ok(())
}

fn told(answer: Result<bool, Refusal>) -> Result<Option<bool>, Refusal> {
    match answer {
        Ok(answer) => Ok(Some(answer)),
        Err(Refusal::UnknownRelation) => Ok(None),
        Err(why) => Err(why),
    }
}
