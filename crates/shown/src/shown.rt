//! The published state.
ghost use Rattle.std.specs.Prelude.{◌≡◌, ◌<◌, ◌≤◌, ◌↔◌, min, None, Some, true, false, IsTrue, IfOk, IfErr, IfSome, OnOk, OnErr};
ghost use Rattle.names.specs.declared.limits.TheConstants.{MAX_REV};
ghost use Rattle.names.specs.declared.marking.Marking.TheVariants.{Mark};
ghost use Rattle.meaning.specs.Admits.{has_relation};
ghost use Rattle.meaning.specs.Causes.{CheckCause};
ghost use Rattle.meaning.specs.Config.{rel_of};
ghost use Rattle.meaning.specs.Membership.{IsMember};
ghost use Rattle.meaning.specs.Verdict.{config_cause};
ghost use Rattle.rows.specs.Follows.{IsAccepted};
ghost use Rattle.rows.specs.Judging.{WriteRefused, ConfigRefused};
ghost use Rattle.verdict.specs.Verdict.{AcceptsWrite, RefusesWrite};
ghost use Rattle.rows.specs.Retained.{IsRetained, newest, newest_of, snap_at, commits_between, last_config};
ghost use Rattle.shown.specs.Standing.{nothing, after_step, after_take, base_cause, before_commit, cursor_after, state_of, CanGoBack, CanRaise, HasRoom, IsSteady};
ghost use Rattle.shown.specs.Marks.{marking_cause};
ghost use Rattle.shown.specs.Raising.{is_in_use, floor_cause, RefusesMarking, RefusesBase};
ghost use Rattle.hot.specs.Kept.{IsHot};
ghost use Rattle.expand.specs.declared.limits.TheConstants.{MAX_DEPTH};
ghost use Rattle.expand.specs.Causes.{ExpandCause};
ghost use Rattle.expand.specs.Viewed.{tree_of};
ghost use Rattle.zookie.specs.Fits.{IsFirstCause};
ghost use Rattle.shown.specs.Answers.{IsAnswer, IsAskedAt, IsRefusal};
ghost use Rattle.shown.specs.KeptAnswers.{AreRetainedAnswers};
ghost use Rattle.shown.specs.Expanding.{IsTreeOf, IsTree, IsTreeRefusal};
ghost use Rattle.shown.specs.Watching.{IsWatched, WatchRefused};
ghost use Rattle.shown.specs.Adopting.{IsReady};
ghost use Rattle.shown.specs.Copying.{IsCopied};
ghost use Rattle.shown.specs.Paging.{IsPage, IsPageRefusal};
ghost use Rattle.lookup.specs.Causes.{LookupCause};
ghost use Rattle.lookup.specs.Found.{IsLookup};
ghost use Rattle.shown.specs.Looking.{AreObjects, IsLookupRefusal};
ghost use Rattle.leopard.specs.Answers.{AreFirst};
ghost use Rattle.leopard.specs.Causes.{IsAnswerable, AskCause};
ghost use Rattle.leopard.specs.Exprs.{query_of};
ghost use Rattle.leopard.specs.Groups.{Means};
ghost use Rattle.leopard.specs.Query.{is_allowed};
ghost use Rattle.group_index.specs.Indices.{TellsOf};
ghost use Rattle.shown.specs.Grouping.{AreGroups, IsGroupsRefusal};
ghost use Rattle.by_subject.specs.Complete.{Covers};
ghost use Rattle.rows.specs.Tuplesets.{page};
ghost use Rattle.shown.specs.inside.Basing.{AreMarked, IsIndexIn};

use crate::answer::{Answer, Refused};
use crate::groups;
use crate::index_at::IndexAt;
use crate::known::{Known, answers_at};
use crate::marks::{count_with, remark};
use crate::members::{members_after, members_later, members_of};
use crate::question::Objects;
use crate::step::Step;
use crate::subjects::{subjects_from, subjects_of, subjects_with};
use answer_cache::CachedAnswers;
use by_subject::{
    BySubject, ViewBySubject, it_is_complete_without_the_newest_commit, what_is_retained_is_found,
};
use config::Config;
use expand::Tree;
use facts::each_view_is_valid;
use group_index::{At, GroupIndex};
use hot::Hot;
use leopard::{Expr, Input};
use lookup::Lookup;
use names::limits::MAX_MARKS;
use names::{Items, Marking, Node, Object, ObjectId, Op, Part, Refusal, State, Tuple, Write};
use rows::{Loaded, Rows, Tupleset, what_follows_has_room};
use std::alloc::{AllocError, Global};
use std::hash::RandomState;
use std::marker::Model;
use tuple_keys::KeptCommit;
use watch::{Namespaces, Page};
use zookie::{Consistency, Zookie};

/// The state that questions are asked of, at any retained revision.
#[derive(Drop)]
pub struct Shown {
    alloc: Global,
    keys: RandomState,
    rows: Rows,
    base: u64,
    index: u64,
    hot: u64,
    marks: Vec<Node>,
    keeps_parts: bool,
    groups: Option<GroupIndex>,
    members: Option<Hot>,
    subjects: Option<BySubject>,
}

impl Model for Shown {
    ghost use Rattle.shown.specs.Standing.{Standing};
    ghost use Rattle.shown.specs.inside.Codes.{coded_standing};
    ghost use Rattle.shown.specs.inside.Basing.{IsSound, AreKeptSubjects};

    ghost Value = { Standing };

    ghost coded = { coded_standing };

    ghost view = { λ s. record { kept = s.rows; base = s.base; index = s.index; hot = s.hot; marks = s.marks.items } };

    ghost invariant = { λ s.
        IsSound (record { kept = s.rows; base = s.base; index = s.index; hot = s.hot; marks = s.marks.items })
        s.groups s.members × AreKeptSubjects s.rows s.subjects };
}

impl Shown {
    /// The state before the first step. From the first step on tuples are kept by their subjects too, as far as there is memory.
    /// Once a base is asked for, the group index is kept from it up to the index cursor, and once a node is marked, who is a
    /// member of it at the revision of the hot table. Names are hashed under this key.
    pub fn new(alloc: Global, keys: RandomState) -> Shown
        ensures { result ≡ nothing }
    {
        Shown::before_all(alloc, keys, true)
    }

    /// The state before the first step, for one who judges changes alone: none of these are kept. Names are hashed under
    /// this key.
    pub fn without_parts(alloc: Global, keys: RandomState) -> Shown
        ensures { result ≡ nothing }
    {
        Shown::before_all(alloc, keys, false)
    }

    fn before_all(alloc: Global, keys: RandomState, keeps_parts: bool) -> Shown
        ensures { result ≡ nothing }
    {
        Shown {
            alloc,
            keys,
            rows: Rows::empty(alloc),
            base: 0,
            index: 0,
            hot: 0,
            marks: Vec::new(alloc),
            keeps_parts,
            groups: None,
            members: None,
            subjects: None,
        }
    }

    /// Adds a step to the standing. For want of memory it changes nothing.
    pub fn apply(&mut self, step: &Step) -> Result<(), AllocError>
        requires { HasRoom self.old step.now }
        ensures ok { OnOk result (self.new ≡ after_step self.old step.now) }
        ensures err { OnErr result (self.new ≡ self.old) }
    {
        match step {
            Step::Open(loaded) => self.open(loaded),
            Step::Commit(commit) => self.commit(commit),
            Step::Take(part, commits) => {
                self.take(*part, *commits, None);
                Ok(())
            }
            Step::Trim(floor) => {
                self.raise(*floor);
                Ok(())
            }
            Step::Marking(marking) => self.mark(marking),
            Step::Rebase(rev) => self.build(*rev),
        }
    }

    /// Adds a step in the same way, beside an index that was made of a retained revision. Where the step has the index made anew,
    /// and comes to that revision, this one takes its place, at the cost of what later commits touch.
    pub fn apply_with(&mut self, step: &Step, ready: IndexAt) -> Result<(), AllocError>
        requires room { HasRoom self.old step.now }
        requires ready { IsReady self.old.kept ready }
        ensures ok { OnOk result (self.new ≡ after_step self.old step.now) }
        ensures err { OnErr result (self.new ≡ self.old) }
    {
        match step {
            Step::Take(part, commits) => {
                self.take(*part, *commits, Some(ready));
                Ok(())
            }
            Step::Rebase(rev) => {
                if *rev < ready.rev {
                    return self.build(*rev);
                }
                self.adopt(*rev, ready)
            }
            _ => self.apply(step),
        }
    }

    /// Raises the floor. It takes no memory.
    pub fn raise(&mut self, floor: u64)
        requires { CanRaise self.old floor }
        ensures { self.new ≡ after_step self.old (Step.Trim floor) }
    {
        groups::raise(&mut self.groups, floor);
        self.subjects = subjects_from(self.subjects.take(), &self.rows, floor);
        self.rows.trim(floor);
    }

    /// Why the floor cannot be raised to a zookie's revision, if it cannot: the zookie is another store's, its revision
    /// is above the newest, or above a cursor. One at or below the floor is no cause. It takes no memory.
    pub fn judge_floor(&self, floor: &Zookie) -> Result<(), Refusal>
        ensures ok { OnOk result (floor_cause self.now floor.now ≡ None) }
        ensures err { IfErr result (λ why. floor_cause self.now floor.now ≡ Some why) }
        ensures within { OnOk result (floor.now.rev ≤ MAX_REV) }
        ensures can { OnOk result (self.now.kept.floor < floor.now.rev → CanRaise self.now floor.now.rev) }
    {
        if floor.store != self.rows.number() {
            return Err(Refusal::ForeignZookie);
        }
        if floor.rev > self.rows.newest() {
            return Err(Refusal::Future);
        }
        if self.is_in_use(floor.rev) {
            return Err(Refusal::InUse);
        }
        Ok(())
    }

    fn is_in_use(&self, rev: u64) -> bool
        ensures { result ≡ is_in_use self.now rev }
    {
        self.index < rev || self.hot < rev
    }

    /// Whether the floor can be raised to the revision: it is above the floor, and no cursor is below it.
    pub fn can_raise(&self, floor: u64) -> bool
        ensures { IsTrue result ↔ CanRaise self.now floor }
    {
        self.rows.floor() < floor && floor <= self.index && floor <= self.hot
    }

    /// Why a node is not marked, if it is not: its relation is not there at the newest revision, or 256 others are marked. A
    /// mark is taken away whatever it is. It takes no memory.
    pub fn judge_marking(&self, marking: &Marking) -> Result<(), Refusal>
        ensures ok { OnOk result
            (marking_cause (newest_of self.now.kept).held.config self.now.marks marking.now ≡ None) }
        ensures err { IfErr result (RefusesMarking self.now marking.now) }
    {
        match marking {
            Marking::Mark(node) => self.judge_mark(node),
            Marking::Unmark(_) => Ok(()),
        }
    }

    fn judge_mark(&self, node: &Node) -> Result<(), Refusal>
        ensures ok { OnOk result
            (marking_cause (newest_of self.now.kept).held.config self.now.marks (Mark node.now) ≡ None) }
        ensures err { IfErr result (RefusesMarking self.now (Mark node.now)) }
    {
        if !has_relation(self.rows.at(self.rows.newest()).config(), node) {
            return Err(Refusal::UnknownRelation);
        }
        if count_with(&self.marks, node) > MAX_MARKS {
            return Err(Refusal::Full);
        }
        Ok(())
    }

    /// Why the base of the index cannot be made of a revision, if it cannot: it is below the floor or the base, or above the
    /// newest revision. It takes no memory.
    pub fn judge_base(&self, rev: u64) -> Result<(), Refusal>
        ensures ok { OnOk result (base_cause self.now rev ≡ None) }
        ensures err { IfErr result (RefusesBase self.now rev) }
    {
        if rev < self.rows.floor() || rev < self.base {
            return Err(Refusal::StaleBuild);
        }
        if rev > self.rows.newest() {
            return Err(Refusal::WrongBuild);
        }
        Ok(())
    }

    /// Marks a node, or takes its mark away. What there is no memory to keep of its members is solved anew at the next
    /// marking or taking.
    fn mark(&mut self, marking: &Marking) -> Result<(), AllocError>
        ensures ok { OnOk result (self.new ≡ after_step self.old (Step.Marking marking.now)) }
        ensures err { OnErr result (self.new ≡ self.old) }
    {
        remark(&mut self.marks, marking)?;
        let kept = self.members.take();
        if !self.keeps_parts {
            return Ok(());
        }
        let view = self.rows.at(self.hot);
        self.members = members_after(self.alloc, self.keys, kept, &view, &self.marks, marking);
        Ok(())
    }

    /// Moves the base of the index up to a revision, or begins the index there.
    fn build(&mut self, rev: u64) -> Result<(), AllocError>
        requires { base_cause self.old rev ≡ None }
        ensures ok { OnOk result (self.new ≡ after_step self.old (Step.Rebase rev)) }
        ensures err { OnErr result (self.new ≡ self.old) }
    {
        let (rows, is_kept) = (&self.rows, self.keeps_parts);
        groups::rebase(
            self.alloc,
            self.keys,
            &mut self.groups,
            rows,
            rev,
            self.index,
            is_kept,
        )?;
        self.base = rev;
        self.index = self.index.max(rev);
        Ok(())
    }

    /// The same by an index of a revision that is not above it.
    fn adopt(&mut self, rev: u64, ready: IndexAt) -> Result<(), AllocError>
        requires base { base_cause self.old rev ≡ None }
        requires ready { IsReady self.old.kept ready }
        requires order { ready.rev ≤ rev }
        ensures ok { OnOk result (self.new ≡ after_step self.old (Step.Rebase rev)) }
        ensures err { OnErr result (self.new ≡ self.old) }
    {
        let (rows, to) = (&self.rows, self.index.max(rev));
        groups::adopt(
            self.alloc,
            self.keys,
            &mut self.groups,
            ready,
            rows,
            rev,
            self.index,
        )?;
        self.base = rev;
        self.index = to;
        Ok(())
    }

    /// The revision to which so many commits more bring a group index that is kept, where that is made anew on the way, since
    /// there is a configuration among them.
    pub fn remade_index(&self, commits: u32) -> Option<u64>
        ensures { IfSome result (IsRetained self.now.kept) }
    {
        self.groups.as_ref()?;
        let to = self.cursor_after(self.index, commits);
        if self.rows.last_config(self.index, self.index, to) <= self.index {
            return None;
        }
        Some(to)
    }

    /// The revision of the last configuration that comes to lie at or below a higher floor, or 0.
    pub fn last_config_below(&self, floor: u64) -> u64
        requires { CanRaise self.now floor }
        ensures { result ≡ last_config 0 self.now.kept.floor
            (commits_between self.now.kept self.now.kept.floor floor) }
    {
        self.rows.last_config(0, self.rows.floor(), floor)
    }

    /// Takes the newest commit off again, which no part has taken. It takes no memory.
    pub fn back(&mut self)
        requires { CanGoBack self.old }
        ensures { self.new ≡ before_commit self.old }
    {
        it_is_complete_without_the_newest_commit();
        self.rows.back();
    }

    /// The store's number.
    pub fn number(&self) -> u64
        ensures { result ≡ self.now.kept.number }
    {
        self.rows.number()
    }

    /// The newest revision.
    pub fn newest(&self) -> u64
        ensures newest { result ≡ newest self.now.kept }
        ensures within { result ≤ MAX_REV }
        ensures steady { IsSteady self.now }
    {
        self.rows.newest()
    }

    /// The floor.
    pub fn floor(&self) -> u64
        ensures { result ≡ self.now.kept.floor }
    {
        self.rows.floor()
    }

    /// The key under which names are hashed.
    pub fn keys(&self) -> RandomState {
        self.keys
    }

    /// Revisions, and how large the history is.
    pub fn state(&self) -> State
        ensures { result ≡ state_of self.now }
    {
        let counts = self.rows.counts();
        State {
            base: self.base,
            floor: self.rows.floor(),
            hot: self.hot,
            index: self.index,
            marked: self.marks.len() as u64,
            newest: self.rows.newest(),
            rows: counts.rows,
            tuples: counts.tuples,
        }
    }

    /// The revision at which a question is answered.
    fn choose(&self, consistency: &Consistency) -> Result<u64, Refusal>
        ensures asked { IfOk result (IsAskedAt self.now consistency.now) }
        ensures retained { IfOk result (IsRetained self.now.kept) }
        ensures err { IfErr result
            (IsFirstCause consistency.now self.now.kept.number self.now.kept.floor (newest self.now.kept)) }
    {
        let newest = self.rows.newest();
        consistency.judge(self.rows.number(), self.rows.floor(), newest)?;
        Ok(consistency.choose(newest, self.index))
    }

    /// Whether the user is a member of the node, at the revision that the consistency chooses.
    pub fn check(
        &self,
        consistency: &Consistency,
        node: &Node,
        user: &Object,
    ) -> Result<Answer<bool>, Refused>
        ensures ok { IfOk result (IsAnswer self.now consistency.now node.now user.now) }
        ensures err { IfErr result (IsRefusal self.now consistency.now node.now) }
    {
        self.check_by(None, consistency, node, user)
    }

    /// The same, asked by one who keeps answers of checks: at a retained revision they are what the check would answer, and it
    /// asks them where it comes to a question of theirs.
    pub fn check_knowing(
        &self,
        kept: &CachedAnswers,
        consistency: &Consistency,
        node: &Node,
        user: &Object,
    ) -> Result<Answer<bool>, Refused>
        requires { AreRetainedAnswers self.now.kept kept.now }
        ensures ok { IfOk result (IsAnswer self.now consistency.now node.now user.now) }
        ensures err { IfErr result (IsRefusal self.now consistency.now node.now) }
    {
        self.check_by(Some(kept), consistency, node, user)
    }

    fn check_by(
        &self,
        kept: Option<&CachedAnswers>,
        consistency: &Consistency,
        node: &Node,
        user: &Object,
    ) -> Result<Answer<bool>, Refused>
        requires { IfSome kept (λ kept. AreRetainedAnswers self.now.kept kept.now) }
        ensures ok { IfOk result (IsAnswer self.now consistency.now node.now user.now) }
        ensures err { IfErr result (IsRefusal self.now consistency.now node.now) }
    {
        let rev = match self.choose(consistency) {
            Ok(rev) => rev,
            Err(why) => return Err(Refused { why, at: None }),
        };
        match self.check_at(kept, rev, node, user) {
            Ok(value) => Ok(Answer { rev, value }),
            Err(why) => {
                let at = match &why {
                    Refusal::Memory => None,
                    _ => Some(rev),
                };
                Err(Refused { why, at })
            }
        }
    }

    /// Whether the user is a member of the node at a retained revision.
    fn check_at(
        &self,
        kept: Option<&CachedAnswers>,
        rev: u64,
        node: &Node,
        user: &Object,
    ) -> Result<bool, Refusal>
        requires retained { IsRetained self.now.kept rev }
        requires kept { IfSome kept (λ kept. AreRetainedAnswers self.now.kept kept.now) }
        ensures ok { IfOk result (λ answer.
            IsTrue answer ↔ IsMember (snap_at self.now.kept rev) user.now node.now) }
        ensures known { OnOk result
            (has_relation (snap_at self.now.kept rev).config (rel_of node.now) ≡ true) }
        ensures err { IfErr result (CheckCause (snap_at self.now.kept rev) node.now) }
    {
        let view = self.rows.at(rev);
        each_view_is_valid(&view);
        let (hot, groups) = (self.members_at(rev), self.index_at(rev));
        let answers = answers_at(kept, rev);
        let mut known = Known {
            hot,
            groups,
            answers,
        };
        decide::check_at(self.alloc, self.keys, &view, &mut known, node, user)
    }

    /// The members of the marked nodes, where they are those at a retained revision.
    fn members_at(&self, rev: u64) -> Option<&Hot>
        ensures { IfSome result (λ hot. IsHot hot.now (snap_at self.now.kept rev)) }
    {
        if rev == self.hot {
            self.members.as_ref()
        } else {
            None
        }
    }

    /// The userset tree of the node, at the revision that the consistency chooses. At most `depth` nodes are open on a
    /// path of it, 1 to 8.
    pub fn expand(
        &self,
        consistency: &Consistency,
        node: &Node,
        depth: u8,
    ) -> Result<Answer<Tree>, Refused>
        requires opens { 1 ≤ depth }
        requires bounded { depth ≤ MAX_DEPTH }
        ensures ok { IfOk result (IsTree self.now consistency.now node.now depth) }
        ensures err { IfErr result (IsTreeRefusal self.now consistency.now node.now depth) }
    {
        let rev = match self.choose(consistency) {
            Ok(rev) => rev,
            Err(why) => return Err(Refused { why, at: None }),
        };
        match self.expand_at(rev, node, depth) {
            Ok(value) => Ok(Answer { rev, value }),
            Err(why) => {
                let at = match &why {
                    Refusal::Memory => None,
                    _ => Some(rev),
                };
                Err(Refused { why, at })
            }
        }
    }

    /// The userset tree of the node at a retained revision.
    fn expand_at(&self, rev: u64, node: &Node, depth: u8) -> Result<Tree, Refusal>
        requires retained { IsRetained self.now.kept rev }
        requires opens { 1 ≤ depth }
        requires bounded { depth ≤ MAX_DEPTH }
        ensures ok { IfOk result (λ t. IsTreeOf (snap_at self.now.kept rev) node.now depth (tree_of t)) }
        ensures err { IfErr result (ExpandCause (snap_at self.now.kept rev) node.now depth) }
    {
        let view = self.rows.at(rev);
        expand::expand_at(self.alloc, &view, node, depth)
    }

    /// The events on tuples of the namespaces, of so many commits above the cursor's revision, or of as many as there are. The
    /// cursor may be at the floor.
    pub fn watch(
        &self,
        cursor: &Zookie,
        namespaces: &Namespaces,
        commits: u32,
    ) -> Result<Page, Refusal>
        ensures ok { IfOk result (IsWatched self.now cursor.now namespaces.now commits) }
        ensures err { IfErr result (WatchRefused self.now cursor.now) }
    {
        if cursor.store != self.rows.number() {
            return Err(Refusal::ForeignZookie);
        }
        watch::page(self.alloc, &self.rows, cursor.rev, namespaces, commits)
    }

    /// The page of a tupleset, at the revision that the consistency chooses. A relation that the configuration there lacks has
    /// no tuples.
    pub fn read(
        &self,
        consistency: &Consistency,
        asked: &Tupleset,
    ) -> Result<Answer<Items<Tuple>>, Refused>
        ensures ok { IfOk result (IsPage self.now consistency.now asked.now) }
        ensures err { IfErr result (IsPageRefusal self.now consistency.now) }
    {
        let rev = match self.choose(consistency) {
            Ok(rev) => rev,
            Err(why) => return Err(Refused { why, at: None }),
        };
        match self.read_at(rev, asked) {
            Ok(tuples) => Ok(Answer {
                rev,
                value: Items::of(tuples),
            }),
            Err(_) => Err(Refused {
                why: Refusal::Memory,
                at: None,
            }),
        }
    }

    /// The page of a tupleset at a retained revision.
    fn read_at(&self, rev: u64, asked: &Tupleset) -> Result<Vec<Tuple>, AllocError>
        requires { IsRetained self.now.kept rev }
        ensures { IfOk result (λ v. v.items ≡ page asked.now (snap_at self.now.kept rev).tuples) }
    {
        let view = self.rows.at(rev);
        ViewBySubject::of(&view, self.subjects_at(rev)).read(self.alloc, asked)
    }

    /// The configuration and the tuples of the revision that the consistency chooses, copied.
    pub fn copy_snapshot(&self, consistency: &Consistency) -> Result<Answer<Input>, Refused>
        ensures ok { IfOk result (IsCopied self.now consistency.now) }
        ensures err { IfErr result (IsPageRefusal self.now consistency.now) }
    {
        let rev = match self.choose(consistency) {
            Ok(rev) => rev,
            Err(why) => return Err(Refused { why, at: None }),
        };
        match Input::copy(self.alloc, &self.rows.at(rev)) {
            Ok(value) => Ok(Answer { rev, value }),
            Err(_) => Err(Refused {
                why: Refusal::Memory,
                at: None,
            }),
        }
    }

    /// The objects to which the user has the relation, at the revision that the consistency chooses: the first so many of those
    /// asked for, in the order of their ids' bytes.
    pub fn lookup(
        &self,
        consistency: &Consistency,
        asked: &Lookup,
    ) -> Result<Answer<Objects>, Refused>
        ensures ok { IfOk result (AreObjects self.now consistency.now asked.now) }
        ensures err { IfErr result (IsLookupRefusal self.now consistency.now asked.now) }
    {
        let rev = match self.choose(consistency) {
            Ok(rev) => rev,
            Err(why) => return Err(Refused { why, at: None }),
        };
        match self.lookup_at(rev, asked) {
            Ok(ids) => {
                let namespace = asked.relation.namespace.again();
                let ids = Items::of(ids);
                Ok(Answer {
                    rev,
                    value: Objects { namespace, ids },
                })
            }
            Err(why) => {
                let at = match &why {
                    Refusal::Memory => None,
                    _ => Some(rev),
                };
                Err(Refused { why, at })
            }
        }
    }

    /// The ids of the objects at a retained revision.
    fn lookup_at(&self, rev: u64, asked: &Lookup) -> Result<Vec<ObjectId>, Refusal>
        requires { IsRetained self.now.kept rev }
        ensures ok { IfOk result (λ ids. IsLookup (snap_at self.now.kept rev) asked.now ids.items) }
        ensures known { OnOk result
            (has_relation (snap_at self.now.kept rev).config asked.now.relation ≡ true) }
        ensures err { IfErr result (LookupCause (snap_at self.now.kept rev) asked.now) }
    {
        let view = self.rows.at(rev);
        each_view_is_valid(&view);
        let (hot, groups) = (self.members_at(rev), self.index_at(rev));
        let mut known = Known {
            hot,
            groups,
            answers: None,
        };
        let view = ViewBySubject::of(&view, self.subjects_at(rev));
        lookup::lookup_at(self.alloc, self.keys, &view, &mut known, asked)
    }

    /// The tuples by their subjects, where they are kept: all of a retained revision are among them.
    fn subjects_at(&self, rev: u64) -> Option<&BySubject>
        requires { IsRetained self.now.kept rev }
        ensures { IfSome result (λ found. Covers found.now (snap_at self.now.kept rev).tuples) }
    {
        what_is_retained_is_found();
        self.subjects.as_ref()
    }

    /// The first so many groups that the expression means, in the order of nodes, at the revision that the consistency
    /// chooses. It is `Malformed` where the expression or the limit is larger than allowed or a union or an intersection has no
    /// part, which is looked at first, and `UnknownRelation` or `NotIndexed` where the closure of a group is asked for whose
    /// relation is not there, or is not indexed.
    pub fn groups(
        &self,
        consistency: &Consistency,
        expr: &Expr,
        limit: u32,
    ) -> Result<Answer<Items<Node>>, Refused>
        ensures ok { IfOk result (AreGroups self.now consistency.now (query_of expr.now) limit) }
        ensures err { IfErr result
            (IsGroupsRefusal self.now consistency.now (query_of expr.now) limit) }
    {
        if !expr.is_allowed(limit) {
            return Err(Refused {
                why: Refusal::Malformed,
                at: None,
            });
        }
        let rev = match self.choose(consistency) {
            Ok(rev) => rev,
            Err(why) => return Err(Refused { why, at: None }),
        };
        match self.groups_at(rev, expr, limit) {
            Ok(groups) => Ok(Answer {
                rev,
                value: Items::of(groups),
            }),
            Err(why) => {
                let at = match &why {
                    Refusal::Memory => None,
                    _ => Some(rev),
                };
                Err(Refused { why, at })
            }
        }
    }

    /// The first so many groups of the expression at a retained revision.
    fn groups_at(&self, rev: u64, expr: &Expr, limit: u32) -> Result<Vec<Node>, Refusal>
        requires { IsRetained self.now.kept rev }
        ensures ok { OnOk result
            (IsAnswerable (snap_at self.now.kept rev).config (query_of expr.now) limit) }
        ensures groups { IfOk result (λ v.
            AreFirst limit (Means (snap_at self.now.kept rev) (query_of expr.now)) v.items) }
        ensures err { IfErr result
            (AskCause (snap_at self.now.kept rev).config (query_of expr.now) limit) }
    {
        if let Some(at) = self.index_at(rev) {
            return at.first_groups(expr, limit);
        }
        let view = self.rows.at(rev);
        let view = ViewBySubject::of(&view, self.subjects_at(rev));
        leopard::groups_at(self.alloc, &view, expr, limit)
    }

    /// The group index at a retained revision, where it tells of that.
    fn index_at(&self, rev: u64) -> Option<At<'_>>
        requires { IsRetained self.now.kept rev }
        ensures { IfSome result (λ at. TellsOf at (snap_at self.now.kept rev)) }
    {
        match &self.groups {
            Some(index) => index.at(self.alloc, rev),
            None => None,
        }
    }

    /// Why a write is refused at the newest revision, if it is. It takes no memory.
    pub fn judge_write(&self, write: &Write<Zookie>) -> Result<(), Refusal>
        ensures ok { OnOk result (AcceptsWrite self.now.kept write.now) }
        ensures accepted { OnOk result (IsAccepted (newest_of self.now.kept) write.now.ops) }
        ensures err { IfErr result (RefusesWrite self.now.kept write.now) }
    {
        verdict::judge(&self.rows, write)
    }

    /// Why operations are refused at the newest revision, if they are. It takes no memory.
    pub fn judge(&self, ops: &[Op]) -> Result<(), Refusal>
        ensures ok { OnOk result (IsAccepted (newest_of self.now.kept) ops.now) }
        ensures err { IfErr result (WriteRefused (newest_of self.now.kept) ops.now) }
    {
        self.rows.verdict(ops)
    }

    /// Why a configuration is refused, if it is. It takes no memory.
    pub fn judge_config(&self, config: &Config) -> Result<(), Refusal>
        ensures ok { OnOk result (config_cause (newest_of self.now.kept) config.now ≡ None) }
        ensures err { IfErr result (ConfigRefused (newest_of self.now.kept) config.now) }
    {
        self.rows.config_verdict(config)
    }

    fn open(&mut self, loaded: &Loaded) -> Result<(), AllocError>
        requires { HasRoom self.old (Step.Open loaded.now) }
        ensures ok { OnOk result (self.new ≡ after_step self.old (Step.Open loaded.now)) }
        ensures err { OnErr result (self.new ≡ self.old) }
    {
        let rows = Rows::new(self.alloc, loaded)?;
        let newest = rows.newest();
        self.groups = None;
        self.members = None;
        self.subjects = subjects_of(self.alloc, loaded, self.keeps_parts);
        self.rows = rows;
        self.base = newest;
        self.index = newest;
        self.hot = newest;
        self.marks.clear();
        Ok(())
    }

    fn commit(&mut self, commit: &KeptCommit) -> Result<(), AllocError>
        requires { HasRoom self.old (Step.Commit commit.now) }
        ensures ok { OnOk result (self.new ≡ after_step self.old (Step.Commit commit.now)) }
        ensures err { OnErr result (self.new ≡ self.old) }
    {
        self.rows.admits_its_tuples();
        what_follows_has_room();
        self.subjects = subjects_with(self.subjects.take(), commit);
        self.rows.absorb(commit)
    }

    fn take(&mut self, part: Part, commits: u32, ready: Option<IndexAt>)
        requires { IfSome ready (IsReady self.old.kept) }
        ensures { self.new ≡ after_take self.old part commits }
    {
        match part {
            Part::Index => self.take_index(commits, ready),
            Part::Hot => self.take_hot(commits),
        }
    }

    fn take_index(&mut self, commits: u32, ready: Option<IndexAt>)
        requires { IfSome ready (IsReady self.old.kept) }
        ensures { self.new ≡ after_take self.old Part.Index commits }
    {
        let to = self.cursor_after(self.index, commits);
        self.groups = self.groups_up_to(to, ready);
        self.base = self.rows.last_config(self.base, self.index, to);
        self.index = to;
    }

    /// The group index with the commits up to a revision, as far as it is kept. Where one is ready that was made on the way there,
    /// it goes on from that.
    fn groups_up_to(&mut self, to: u64, ready: Option<IndexAt>) -> Option<GroupIndex>
        requires later { self.old.index ≤ to }
        requires there { to ≤ newest self.old.kept }
        requires ready { IfSome ready (IsReady self.old.kept) }
        ensures index { IfSome result (IsIndexIn (snap_at self.old.kept) self.old.kept.floor to) }
        ensures same { self.new ≡ self.old }
    {
        let index = self.groups.take()?;
        let (rows, from) = (&self.rows, self.index);
        match groups::index_by(self.alloc, self.keys, index, ready, rows, from, to) {
            Ok(later) => Some(later),
            Err(_) => None,
        }
    }

    fn take_hot(&mut self, commits: u32)
        ensures { self.new ≡ after_take self.old Part.Hot commits }
    {
        let to = self.cursor_after(self.hot, commits);
        self.members = self.members_up_to(to);
        self.hot = to;
    }

    /// The members of the marked nodes at a revision, which is not below that of the hot table, as far as they are kept.
    fn members_up_to(&mut self, to: u64) -> Option<Hot>
        requires later { self.old.hot ≤ to }
        requires there { to ≤ newest self.old.kept }
        ensures members { IfSome result (λ hot. IsHot hot (snap_at self.old.kept to)) }
        ensures marked { IfSome result (λ hot. AreMarked self.old.marks hot) }
        ensures same { self.new ≡ self.old }
    {
        let kept = self.members.take();
        if !self.keeps_parts {
            return None;
        }
        match kept {
            Some(hot) => members_later(self.alloc, hot, &self.rows, self.hot, to),
            None => members_of(self.alloc, self.keys, &self.rows.at(to), &self.marks),
        }
    }

    /// So many commits further, and no further than the newest.
    fn cursor_after(&self, cursor: u64, commits: u32) -> u64
        requires { cursor ≤ newest self.now.kept }
        ensures cursor_after { result ≡ cursor_after self.now.kept cursor commits }
        ensures within { result ≤ MAX_REV }
    {
        let newest = self.rows.newest();
        (cursor + commits as u64).min(newest)
    }
}

fn has_relation(config: &Config, node: &Node) -> bool
    ensures { result ≡ has_relation config.now (rel_of node.now) }
{
    match config.place_of(node) {
        Some(_place) => true,
        None => false,
    }
}
