//! The layer.
ghost use Rattle.region.specs.Sets.{IsWhole};
ghost use Rattle.delta.specs.Noted.{AreUpTo};

use crate::arcs::CountedArcs;
use crate::closing::{led_to, named};
use crate::earlier::{Earlier, led_at};
use crate::has_arcs::HasArcs;
use crate::leading::{above_events, above_tuples, changed_by};
use crate::renewing::renew;
use crate::roots::{put_each, take_each};
use crate::telling::GroupFacts;
use config::Config;
use idsets::{IdSet, Ids};
use least_sets::groups_are_walks;
use leopard::Input;
use names::{Event, Node, Tuple};
use region::{Sets, refresh};
use rows::View;
use std::alloc::{AllocError, Global};
use std::hash::RandomState;

/// Which groups each group leads to (GROUP2GROUP of Zanzibar, section 3.2.4), at each revision from a base to a cursor,
/// under one configuration. Kept are that configuration and, for the cursor, the groups from which a tuple leads to
/// another and those to which these lead, with their closures; from the others computed usersets alone lead on. For
/// earlier revisions is kept what a commit replaced: of each group whose closure it changed the one before. No tuple is kept.
#[derive(Drop)]
pub struct Layer {
    pub(crate) config: Config,
    pub(crate) base: u64,
    pub(crate) cursor: u64,
    pub(crate) nodes: Ids<Node>,
    pub(crate) roots: IdSet,
    pub(crate) sets: Sets,
    pub(crate) earlier: Vec<Earlier>,
    ghost whole: { IsWhole sets },
    ghost noted: { AreUpTo cursor earlier.items },
}

impl Layer {
    ghost use Rattle.std.specs.Prelude.{◌≡◌, ◌<◌, ◌≤◌, ◌+◌, ◌-◌, ◌^◌, ◌↔◌, ℕ, List, Contains, max, OnOk, OnErr, IfOk, IfSome, IfNone};
    ghost use Rattle.names.specs.declared.node.Node.{Node as NodeValue};
    ghost use Rattle.meaning.specs.Snap.{Snap};
    ghost use Rattle.meaning.specs.TupleSet as set;
    ghost use Rattle.leopard.specs.Groups.{IsGroup, GroupToGroup};
    ghost use Rattle.leopard.specs.Finding.{IsNamedBy};
    ghost use Rattle.delta.specs.Layers.{IsLayerOf, IsNext, KeepsAt};
    ghost use Rattle.delta.specs.Asked.{WereAskedFew};
    ghost use Rattle.delta.specs.Noted.{IsNoted};

    /// The layer of one revision, whose view this is: base and cursor are that revision, and nothing is noted. All
    /// tuples are gone over, and each group from which a tuple leads on, or to which one leads, is asked for once. Names
    /// are hashed under this key.
    pub fn restart(
        alloc: Global,
        keys: RandomState,
        view: &View,
        rev: u64,
    ) -> Result<Layer, AllocError>
        ensures layer { IfOk result (λ layer. (snaps : ℕ → Snap) → snaps rev ≡ view.now → IsLayerOf layer snaps) }
        ensures base { IfOk result (λ layer. layer.base ≡ rev) }
        ensures cursor { IfOk result (λ layer. layer.cursor ≡ rev) }
    {
        let tuples = view.tuples(alloc)?;
        Layer::begun(alloc, keys, view.config(), &tuples, view, rev)
    }

    /// The same of a snapshot that was copied, whose revision this is. No view is read, so it may be made beside whoever
    /// takes commits.
    pub fn of(
        alloc: Global,
        keys: RandomState,
        input: &Input,
        rev: u64,
    ) -> Result<Layer, AllocError>
        ensures layer { IfOk result (λ layer. (snaps : ℕ → Snap) → snaps rev ≡ input.now → IsLayerOf layer snaps) }
        ensures base { IfOk result (λ layer. layer.base ≡ rev) }
        ensures cursor { IfOk result (λ layer. layer.cursor ≡ rev) }
    {
        Layer::begun(alloc, keys, input.config(), input.tuples(), input, rev)
    }

    /// The layer of one revision, of whose snapshot these are the configuration, the tuples and what has the arcs.
    fn begun<A: HasArcs>(
        alloc: Global,
        keys: RandomState,
        config: &Config,
        tuples: &[Tuple],
        arcs: &A,
        rev: u64,
    ) -> Result<Layer, AllocError>
        requires config { config.now ≡ (A.snap arcs.now).config }
        requires tuples { tuples.now ≡ set.items (A.snap arcs.now).tuples }
        ensures layer { IfOk result (λ layer. (snaps : ℕ → Snap) → snaps rev ≡ A.snap arcs.now → IsLayerOf layer snaps) }
        ensures base { IfOk result (λ layer. layer.base ≡ rev) }
        ensures cursor { IfOk result (λ layer. layer.cursor ≡ rev) }
    {
        groups_are_walks();
        let config = config.again(alloc)?;
        let mut nodes = Ids::new(alloc, keys);
        let turned = above_tuples(alloc, &config, &mut nodes, tuples)?;
        let roots = IdSet::of(turned);
        let mut facts = GroupFacts {
            arcs,
            nodes,
            asked: Vec::new(alloc),
        };
        let mut sets = Sets::new(alloc);
        refresh(alloc, &mut sets, &roots, roots.as_slice(), &[], &mut facts)?;
        let GroupFacts { nodes, .. } = facts;
        Ok(Layer {
            config,
            base: rev,
            cursor: rev,
            nodes,
            roots,
            sets,
            earlier: Vec::new(alloc),
        })
    }

    /// The first revision that is told of.
    pub fn base(&self) -> u64
        ensures { result ≡ self.now.base }
    {
        self.base
    }

    /// The last revision that is told of.
    pub fn cursor(&self) -> u64
        ensures { result ≡ self.now.cursor }
    {
        self.cursor
    }

    /// Takes the next commit, one of events. The arcs are those of the snapshot after it, and nothing else is read: they are
    /// asked for groups that have an event or were not kept. Of the others what is kept is told. For want of memory what is
    /// told is what it was.
    pub fn take<A: CountedArcs>(
        &mut self,
        alloc: Global,
        events: &[Event],
        arcs: &mut A,
    ) -> Result<(), AllocError>
        requires { self.old.cursor < 2 ^ 64 - 1 }
        ensures layer { OnOk result ((snaps : ℕ → Snap) → IsLayerOf self.old snaps
            → IsNext snaps self.old.cursor events.now (A.snap arcs.old) → IsLayerOf self.new snaps) }
        ensures asked { OnOk result ((snaps : ℕ → Snap) → IsLayerOf self.old snaps
            → IsNext snaps self.old.cursor events.now (A.snap arcs.old)
            → WereAskedFew (snaps self.old.cursor) (A.snap arcs.old) events.now (A.asked arcs.old) (A.asked arcs.new)) }
        ensures snap { A.snap arcs.new ≡ A.snap arcs.old }
        ensures noted { OnOk result (IsNoted self.new.cursor self.old.sets.rows self.new.sets.rows self.old.earlier.items self.new.earlier.items) }
        ensures base { self.new.base ≡ self.old.base }
        ensures cursor { OnOk result (self.new.cursor ≡ self.old.cursor + 1) }
        ensures err { OnErr result ((snaps : ℕ → Snap) → IsLayerOf self.old snaps → IsLayerOf self.new snaps) }
        ensures err_cursor { OnErr result (self.new.cursor ≡ self.old.cursor) }
    {
        groups_are_walks();
        let turned = above_events(alloc, &self.config, &mut self.nodes, events)?;
        let changed = changed_by(alloc, &self.nodes, events)?;
        let turned = IdSet::of(turned);
        let turned = turned.as_slice();
        let changed = IdSet::of(changed);
        let added = put_each(alloc, &mut self.roots, turned)?;
        let rev = self.cursor + 1;
        let (nodes, sets, roots) = (&mut self.nodes, &mut self.sets, &self.roots);
        let earlier = &mut self.earlier;
        let done = renew(
            alloc, arcs, rev, nodes, sets, earlier, roots, turned, &changed,
        );
        match done {
            Ok(()) => {
                self.cursor = rev;
                Ok(())
            }
            Err(e) => {
                take_each(&mut self.roots, &added);
                Err(e)
            }
        }
    }

    /// The configuration.
    pub fn config(&self) -> &Config
        ensures { result.now ≡ self.now.config }
    {
        &self.config
    }

    /// The groups that have a number, each at its number.
    pub fn nodes(&self) -> &Ids<Node>
        ensures { result.now ≡ self.now.nodes }
    {
        &self.nodes
    }

    /// The numbers of the groups to which the group leads at a revision from the base to the cursor, itself among them,
    /// where they are kept. From a group of which nothing is kept computed usersets alone lead on. It takes no memory.
    pub fn kept_at(&self, group: &Node, rev: u64) -> Option<&IdSet>
        ensures kept { IfSome result (λ ids. (snaps : ℕ → Snap) → IsLayerOf self.now snaps → self.now.base ≤ rev → rev ≤ self.now.cursor
            → IsGroup (snaps rev).config group.now → (n : NodeValue) → IsNamedBy self.now.nodes ids.now n ↔ GroupToGroup (snaps rev) group.now n) }
        ensures none { IfNone result ((ids : List ℕ) → KeepsAt self.now rev group.now ids → ⊥) }
    {
        let _ = self.nodes.len();
        let id = self.nodes.id_of(group)?;
        led_at(&self.earlier, &self.sets, id, rev)
    }

    /// The groups to which the group leads at a revision from the base to the cursor, itself among them. No order is
    /// promised.
    pub fn closure_at(&self, alloc: Global, group: &Node, rev: u64) -> Result<Vec<Node>, AllocError>
        ensures { IfOk result (λ v. (snaps : ℕ → Snap) → IsLayerOf self.now snaps → self.now.base ≤ rev → rev ≤ self.now.cursor
            → IsGroup (snaps rev).config group.now → (n : NodeValue) → Contains v.items n ↔ GroupToGroup (snaps rev) group.now n) }
    {
        match self.kept_at(group, rev) {
            Some(ids) => named(alloc, &self.nodes, ids.as_slice()),
            None => led_to(alloc, self.nodes.keys(), &self.config, group),
        }
    }

    /// Moves the base up to a revision, whose view this is. What was noted up to it is dropped, and the later rest is
    /// kept. Where it is above the cursor, the layer is begun anew there; for want of memory nothing changes.
    pub fn rebase(&mut self, alloc: Global, view: &View, rev: u64) -> Result<(), AllocError>
        ensures layer { OnOk result ((snaps : ℕ → Snap) → IsLayerOf self.old snaps → self.old.base ≤ rev
            → snaps rev ≡ view.now → IsLayerOf self.new snaps) }
        ensures base { OnOk result (self.new.base ≡ rev) }
        ensures cursor { OnOk result (self.new.cursor ≡ max self.old.cursor rev) }
        ensures err { OnErr result (self.new ≡ self.old) }
    {
        if self.cursor < rev {
            *self = Layer::restart(alloc, self.nodes.keys(), view, rev)?;
            return Ok(());
        }
        self.raise(rev);
        Ok(())
    }

    /// Moves the base up to a revision that is not above the cursor. What was noted up to it is dropped, and the later
    /// rest is kept. It takes no memory.
    pub fn raise(&mut self, rev: u64)
        requires { rev ≤ self.old.cursor }
        ensures layer { (snaps : ℕ → Snap) → IsLayerOf self.old snaps → self.old.base ≤ rev → IsLayerOf self.new snaps }
        ensures base { self.new.base ≡ rev }
        ensures cursor { self.new.cursor ≡ self.old.cursor }
    {
        self.earlier.retain(|e| rev < e.rev);
        self.base = rev;
    }
}
