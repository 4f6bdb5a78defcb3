//! Histories.
ghost use Rattle.std.specs.Prelude.{◌≡◌, ℕ, ◌+◌, ◌-◌, ◌<◌, ◌≤◌, List, [], ◌∷◌, ◌++◌, length, take, drop, filter, IfOk, IfSome, OnOk, OnErr, not};
ghost use Rattle.std.specs.List.{find};
ghost use Rattle.names.specs.declared.limits.TheConstants.{MAX_REV, MAX_ROWS};
ghost use Rattle.names.specs.declared.tuple.Tuple.{Tuple};
ghost use Rattle.meaning.specs.TupleSet as set;
ghost use Rattle.rows.specs.Retained.{newest, empty_store, IsRetained, snap_at, spans_of, newest_of, with_commit, without_newest, after_trim, HasRoom, AreAdmitted, IsAdmitted, commits_between, is_touched_after, last_config};
ghost use Rattle.versions.specs.Named.{objects_in, nodes_in};
ghost use Rattle.tuple_keys.specs.Named.{user_tuple, is_within};
ghost use Rattle.versions.specs.Versions.{refuses};
ghost use Rattle.tuple_keys.specs.Named.{is_at, is_of};
ghost use Rattle.rows.specs.Ordered.{AreOrdered};
ghost use Rattle.rows.specs.Tuplesets.{page};
ghost use Rattle.rows.specs.Loads.{retained_of, loaded_to, IsWithin};

use crate::committed::{copies, drop_commits, drop_newest, last_config, push_commit, puts_in};
use crate::config_at::{ConfigAt, config_up_to, drop_config, push_config, settle_configs};
use crate::loaded::{Counts, Loaded};
use crate::page::{page_of, start_of};
use crate::tupleset::Tupleset;
use crate::view::View;
use config::Config;
use names::{Commit, Event, Name, Node, Object, Tuple};
use std::alloc::{AllocError, Global};
use std::marker::Model;
use tuple_keys::{KeptCommit, KeptEvents, TupleRef};
use versions::VersionMap;

/// The history from the floor on.
#[derive(Drop)]
pub struct Rows {
    alloc: Global,
    number: u64,
    floor: u64,
    config: Config,
    configs: Vec<ConfigAt>,
    tuples: VersionMap,
    commits: Vec<KeptCommit>,
    counts: Counts,
}

impl Model for Rows {
    ghost use Rattle.rows.specs.Retained.{Retained};
    ghost use Rattle.rows.specs.inside.Codes.{coded_retained};
    ghost use Rattle.rows.specs.Representation.{as_retained, IsConsistent};

    ghost Value = { Retained };

    ghost coded = { coded_retained };

    ghost view = { λ s. as_retained s.number s.floor s.config s.tuples s.commits.items };

    ghost invariant = { λ s. IsConsistent (as_retained s.number s.floor s.config s.tuples s.commits.items) s.tuples s.configs.items s.counts };
}

impl Rows {
    /// No commit, in a store that has no number yet. It takes no memory.
    pub fn empty(alloc: Global) -> Rows
        ensures { result ≡ empty_store 0 }
    {
        Rows {
            alloc,
            number: 0,
            floor: 0,
            config: Config::empty(alloc),
            configs: Vec::new(alloc),
            tuples: VersionMap::new(alloc),
            commits: Vec::new(alloc),
            counts: Counts { rows: 0, tuples: 0 },
        }
    }

    /// The history that tables held.
    pub fn new(alloc: Global, loaded: &Loaded) -> Result<Rows, AllocError>
        requires { IsWithin loaded.now }
        ensures { IfOk result (λ rows. rows ≡ retained_of loaded.now) }
    {
        let commits = loaded.commits.as_slice();
        let mut rows = Rows::with_base(alloc, loaded)?;
        for i in 0..commits.len() {
            rows.absorb(&commits[i])?;
        }
        Ok(rows)
    }

    /// The history with no commit above the floor.
    fn with_base(alloc: Global, loaded: &Loaded) -> Result<Rows, AllocError>
        requires { IsWithin loaded.now }
        ensures { IfOk result (λ rows. rows ≡ loaded_to loaded.now 0) }
    {
        let tuples = loaded.tuples.as_slice();
        let count = tuples.len() as u64;
        Ok(Rows {
            alloc,
            number: loaded.number,
            floor: loaded.floor,
            config: loaded.config.again(alloc)?,
            configs: Vec::new(alloc),
            tuples: VersionMap::of_base(alloc, tuples)?,
            commits: Vec::new(alloc),
            counts: Counts {
                rows: count,
                tuples: count,
            },
        })
    }

    /// Where the history has its memory from.
    pub(crate) fn alloc(&self) -> Global {
        self.alloc
    }

    /// The store's number.
    pub fn number(&self) -> u64
        ensures { result ≡ self.now.number }
    {
        self.number
    }

    /// The least revision that is retained.
    pub fn floor(&self) -> u64
        ensures { result ≡ self.now.floor }
    {
        self.floor
    }

    /// The newest revision.
    pub fn newest(&self) -> u64
        ensures newest { result ≡ newest self.now }
        ensures within { result ≤ MAX_REV }
    {
        self.floor + self.commits.len() as u64
    }

    /// Each retained revision's tuples are admitted by its configuration.
    pub fn admits_its_tuples(&self)
        ensures each { IsAdmitted self.now }
        ensures newest { AreAdmitted (newest_of self.now).held }
    {
        // A proof knows the invariant where a field is used.
        let _ = &self.alloc;
    }

    /// How large the history is.
    pub fn counts(&self) -> Counts
        ensures rows { result.rows ≡ spans_of self.now }
        ensures tuples { result.tuples ≡ set.len (newest_of self.now).held.tuples }
        ensures within { result.rows ≤ MAX_ROWS }
    {
        self.counts
    }

    /// What a retained revision holds.
    pub fn at(&self, rev: u64) -> View<'_>
        requires { IsRetained self.now rev }
        ensures { result ≡ snap_at self.now rev }
    {
        View::of(self, rev)
    }

    /// Whether a tuple is there at a revision.
    pub(crate) fn has(&self, rev: u64, tuple: &Tuple) -> bool
        requires { IsRetained self.now rev }
        ensures { result ≡ set.contains (snap_at self.now rev).tuples tuple.now }
    {
        self.tuples.stands_at(tuple, rev)
    }

    /// Whether the user has the node by a tuple of its own at a revision.
    pub(crate) fn has_user(&self, rev: u64, node: &Node, user: &Object) -> bool
        requires { IsRetained self.now rev }
        ensures { result ≡ set.contains (snap_at self.now rev).tuples (user_tuple node.now user.now) }
    {
        self.tuples.has_user(node, user, rev)
    }

    /// The tuples at a revision.
    pub(crate) fn tuples_at(&self, alloc: Global, rev: u64) -> Result<Vec<Tuple>, AllocError>
        requires { IsRetained self.now rev }
        ensures { IfOk result (λ v. v.items ≡ set.items (snap_at self.now rev).tuples) }
    {
        self.tuples.tuples_at(alloc, rev)
    }

    /// The tuples of the node at a revision.
    pub(crate) fn tuples_of(
        &self,
        alloc: Global,
        rev: u64,
        node: &Node,
    ) -> Result<Vec<Tuple>, AllocError>
        requires { IsRetained self.now rev }
        ensures { IfOk result (λ v. v.items ≡ filter (is_of node.now) (set.items (snap_at self.now rev).tuples)) }
    {
        self.tuples.tuples_of(alloc, rev, node)
    }

    /// The first of the node's tuples at a revision, at most so many.
    pub(crate) fn first_of(
        &self,
        alloc: Global,
        rev: u64,
        node: &Node,
        most: usize,
    ) -> Result<Vec<Tuple>, AllocError>
        requires { IsRetained self.now rev }
        ensures { IfOk result
            (λ v. v.items ≡ take most (filter (is_of node.now) (set.items (snap_at self.now rev).tuples))) }
    {
        self.tuples.first_of(alloc, rev, node, most)
    }

    /// The object's tuples at a revision, where the map has no more than `most` of them. Otherwise `None`.
    pub(crate) fn tuples_at_object(
        &self,
        alloc: Global,
        rev: u64,
        object: &Object,
        most: usize,
    ) -> Result<Option<Vec<TupleRef<'_>>>, AllocError>
        requires { IsRetained self.now rev }
        ensures { IfOk result
            (λ o. IfSome o (λ v. v.items ≡ filter (is_at object.now) (set.items (snap_at self.now rev).tuples))) }
    {
        self.tuples.tuples_at_object(alloc, rev, object, most)
    }

    /// The page of the tupleset's tuples at a revision.
    pub(crate) fn read(
        &self,
        alloc: Global,
        rev: u64,
        asked: &Tupleset,
    ) -> Result<Vec<Tuple>, AllocError>
        requires { IsRetained self.now rev }
        ensures { IfOk result (λ v. v.items ≡ page asked.now (snap_at self.now rev).tuples) }
    {
        let start = start_of(asked)?;
        let tuples = self.tuples.range(start, rev);
        page_of(alloc, tuples, asked)
    }

    /// The objects that the node's tuples name at a revision.
    pub(crate) fn objects_of(
        &self,
        alloc: Global,
        rev: u64,
        node: &Node,
    ) -> Result<Vec<Object>, AllocError>
        requires { IsRetained self.now rev }
        ensures { IfOk result
            (λ v. v.items ≡ objects_in (filter (is_of node.now) (set.items (snap_at self.now rev).tuples))) }
    {
        self.tuples.objects_of(alloc, rev, node)
    }

    /// Adds the nodes of the namespace whose members the node's tuples name at a revision.
    pub(crate) fn usersets_in(
        &self,
        alloc: Global,
        rev: u64,
        node: &Node,
        namespace: &Name,
        nodes: &mut Vec<Node>,
    ) -> Result<(), AllocError>
        requires { IsRetained self.now rev }
        ensures { OnOk result (nodes.new.items ≡ nodes.old.items
            ++ nodes_in (filter (is_within node.now namespace.now) (set.items (snap_at self.now rev).tuples))) }
    {
        self.tuples.usersets_in(alloc, rev, node, namespace, nodes)
    }

    /// The first current tuple that the configuration does not admit. Where it admits all that the newest one does, no
    /// tuple is gone over.
    pub(crate) fn tuple_in_the_way(&self, config: &Config) -> Option<Tuple>
        ensures { result ≡ find (refuses config.now) (set.items (newest_of self.now).held.tuples) }
    {
        if config.admits_all_of(self.config_at(self.newest())) {
            return None;
        }
        self.tuples.first_refused(config)
    }

    /// The configuration at a revision.
    pub(crate) fn config_at(&self, rev: u64) -> &Config
        requires { IsRetained self.now rev }
        ensures config { result.now ≡ (snap_at self.now rev).config }
        ensures admitted { AreAdmitted (snap_at self.now rev) }
    {
        config_up_to(&self.config, &self.configs, rev)
    }

    /// The commits of the revisions above one, up to another.
    pub fn events(
        &self,
        alloc: Global,
        from: u64,
        to: u64,
    ) -> Result<Vec<Commit<Config>>, AllocError>
        requires from { self.now.floor ≤ from }
        requires order { from ≤ to }
        requires to { to ≤ newest self.now }
        ensures { IfOk result (λ v. v.items ≡ commits_between self.now from to) }
    {
        let start = (from - self.floor) as usize;
        let end = (to - self.floor) as usize;
        copies(alloc, &self.commits[start..end])
    }

    /// The commits of the revisions above one, up to another, lent. The events of each are in the order of their
    /// tuples, no tuple twice; a commit without events is a configuration.
    pub fn commits(&self, from: u64, to: u64) -> &[KeptCommit]
        requires from { self.now.floor ≤ from }
        requires order { from ≤ to }
        requires to { to ≤ newest self.now }
        ensures commits { result.now ≡ commits_between self.now from to }
        ensures ordered { AreOrdered result.now }
    {
        let start = (from - self.floor) as usize;
        let end = (to - self.floor) as usize;
        let commits = self.commits.as_slice();
        &commits[start..end]
    }

    /// The revision of the last configuration among the commits above `from`, up to `to`, or else `base`.
    pub fn last_config(&self, base: u64, from: u64, to: u64) -> u64
        requires from { self.now.floor ≤ from }
        requires order { from ≤ to }
        requires to { to ≤ newest self.now }
        ensures { result ≡ last_config base from (commits_between self.now from to) }
    {
        let start = (from - self.floor) as usize;
        let end = (to - self.floor) as usize;
        last_config(base, from, &self.commits[start..end])
    }

    /// Whether no commit above the revision has an event on the tuple.
    pub fn is_unchanged(&self, tuple: &Tuple, rev: u64) -> bool
        requires { self.now.floor ≤ rev }
        ensures { result ≡ not (is_touched_after self.now tuple.now rev) }
    {
        self.tuples.last_rev(tuple) <= rev
    }

    /// Adds a commit. For want of memory it changes nothing.
    pub fn commit(&mut self, commit: &Commit<Config>) -> Result<(), AllocError>
        requires { HasRoom self.old commit.now }
        ensures ok { OnOk result (self.new ≡ with_commit self.old commit.now) }
        ensures err { OnErr result (self.new ≡ self.old) }
    {
        let kept = KeptCommit::of(self.alloc, commit)?;
        self.absorb(&kept)
    }

    /// Adds a commit, which is shared: nothing of it is copied but the texts of new tuples. For want of memory
    /// it changes nothing.
    pub fn absorb(&mut self, commit: &KeptCommit) -> Result<(), AllocError>
        requires { HasRoom self.old commit.now }
        ensures ok { OnOk result (self.new ≡ with_commit self.old commit.now) }
        ensures err { OnErr result (self.new ≡ self.old) }
    {
        match commit.events() {
            Some(events) => self.absorb_events(commit, events),
            None => match commit.config() {
                Some(config) => self.absorb_config(commit, config),
                None => unreachable!(),
            },
        }
    }

    fn absorb_events(&mut self, commit: &KeptCommit, events: &KeptEvents) -> Result<(), AllocError>
        requires are { commit.now ≡ Commit.Tuples events.now }
        requires room { HasRoom self.old commit.now }
        ensures ok { OnOk result (self.new ≡ with_commit self.old commit.now) }
        ensures err { OnErr result (self.new ≡ self.old) }
    {
        let rev = self.newest() + 1;
        push_commit(&mut self.commits, commit.again()?)?;
        match self.tuples.put_all(events, rev) {
            Ok(change) => {
                self.counts.rows += puts_in(events);
                self.counts.tuples += change.come as u64;
                self.counts.tuples -= change.gone as u64;
                Ok(())
            }
            Err(e) => {
                drop_newest(&mut self.commits);
                Err(e)
            }
        }
    }

    fn absorb_config(&mut self, commit: &KeptCommit, config: &Config) -> Result<(), AllocError>
        requires is { commit.now ≡ Commit.Config config.now }
        requires room { HasRoom self.old commit.now }
        ensures ok { OnOk result (self.new ≡ with_commit self.old commit.now) }
        ensures err { OnErr result (self.new ≡ self.old) }
    {
        let rev = self.newest() + 1;
        let config_at = ConfigAt {
            rev,
            config: config.again(self.alloc)?,
        };
        let kept = commit.again()?;
        push_config(&mut self.configs, config_at)?;
        match push_commit(&mut self.commits, kept) {
            Ok(()) => Ok(()),
            Err(e) => {
                drop_config(&mut self.configs);
                Err(e)
            }
        }
    }

    /// Takes the newest commit off again. It takes no memory.
    pub fn back(&mut self)
        requires { 0 < length self.old.commits }
        ensures { self.new ≡ without_newest self.old }
    {
        let Some(commit) = self.commits.pop() else {
            return;
        };
        match commit.events() {
            Some(events) => {
                let change = self.tuples.undo(events);
                self.counts.rows -= puts_in(events);
                self.counts.tuples += change.gone as u64;
                self.counts.tuples -= change.come as u64;
            }
            None => drop_config(&mut self.configs),
        }
    }

    /// Raises the floor: what lies below it goes. It takes no memory.
    pub fn trim(&mut self, floor: u64)
        requires { floor ≤ newest self.old }
        ensures raised { self.old.floor ≤ floor → self.new ≡ after_trim self.old floor }
        ensures unchanged { floor ≤ self.old.floor → self.new ≡ self.old }
    {
        if floor <= self.floor {
            return;
        }
        let count = (floor - self.floor) as usize;
        let below = &self.commits[..count];
        self.counts.rows = self.tuples.settle(below, self.counts.rows);
        drop_commits(&mut self.commits, count);
        settle_configs(&mut self.config, &mut self.configs, floor);
        self.floor = floor;
    }
}
