//! The index.
ghost use Rattle.std.specs.Prelude.{◌≡◌};

use crate::at::At;
use delta::{CountedArcs, Layer};
use direct::Direct;
use leopard::Input;
use names::Event;
use rows::View;
use std::alloc::{AllocError, Global};
use std::hash::RandomState;
use std::thread::{Threads, join};

/// Which groups each group leads to (GROUP2GROUP of Zanzibar, section 3.2.4) and which groups name each user by a tuple
/// of their own (MEMBER2GROUP), at each revision from a base to a cursor, under one configuration. With another
/// configuration it is begun anew. No tuple is kept.
#[derive(Drop)]
pub struct GroupIndex {
    pub(crate) layer: Layer,
    pub(crate) direct: Direct,
    ghost one_base: { direct.base ≡ layer.base },
    ghost one_cursor: { direct.cursor ≡ layer.cursor },
}

impl GroupIndex {
    ghost use Rattle.std.specs.Prelude.{◌≡◌, ◌<◌, ◌≤◌, ◌+◌, ◌-◌, ◌^◌, ◌⊎◌, ℕ, max, OnOk, OnErr, IfOk, IfSome, IfNone};
    ghost use Rattle.meaning.specs.Snap.{Snap};
    ghost use Rattle.delta.specs.Layers.{IsLayerOf, IsNext};
    ghost use Rattle.delta.specs.Asked.{WereAskedFew};
    ghost use Rattle.direct.specs.Revisions.{IsDirectOf};
    ghost use Rattle.group_index.specs.Indices.{IsGroupIndexOf, TellsOf, base_of, cursor_of};

    /// The index of one revision, whose view this is: base and cursor are that revision. All tuples are gone over twice.
    /// Names are hashed under this key.
    pub fn restart(
        alloc: Global,
        keys: RandomState,
        view: &View,
        rev: u64,
    ) -> Result<GroupIndex, AllocError>
        ensures index { IfOk result (λ index. (snaps : ℕ → Snap) → snaps rev ≡ view.now → IsGroupIndexOf index snaps) }
        ensures base { IfOk result (λ index. base_of index ≡ rev) }
        ensures cursor { IfOk result (λ index. cursor_of index ≡ rev) }
    {
        let layer = Layer::restart(alloc, keys, view, rev)?;
        let direct = Direct::restart(alloc, keys, view, rev)?;
        Ok(GroupIndex { layer, direct })
    }

    /// The same of a snapshot that was copied, whose revision this is. No view is read, so it may be made beside whoever
    /// takes commits.
    pub fn of(
        alloc: Global,
        keys: RandomState,
        input: &Input,
        rev: u64,
    ) -> Result<GroupIndex, AllocError>
        ensures index { IfOk result (λ index. (snaps : ℕ → Snap) → snaps rev ≡ input.now → IsGroupIndexOf index snaps) }
        ensures base { IfOk result (λ index. base_of index ≡ rev) }
        ensures cursor { IfOk result (λ index. cursor_of index ≡ rev) }
    {
        let layer = Layer::of(alloc, keys, input, rev)?;
        let direct = Direct::of(alloc, keys, input, rev)?;
        Ok(GroupIndex { layer, direct })
    }

    /// The same, where closures and direct groups are each worked out by a thread of their own.
    pub fn of_parallel<R: Threads>(
        rt: &R,
        alloc: Global,
        keys: RandomState,
        input: &Input,
        rev: u64,
    ) -> Result<GroupIndex, AllocError>
        ensures index { IfOk result (λ index. (snaps : ℕ → Snap) → snaps rev ≡ input.now → IsGroupIndexOf index snaps) }
        ensures base { IfOk result (λ index. base_of index ≡ rev) }
        ensures cursor { IfOk result (λ index. cursor_of index ≡ rev) }
    {
        let (direct, layer) = join(
            rt,
            move || -> Result<Direct, AllocError>
                ensures direct { IfOk result (λ direct. (snaps : ℕ → Snap) → snaps rev ≡ input.entry.now → IsDirectOf direct snaps) }
                ensures base { IfOk result (λ direct. direct.base ≡ rev) }
                ensures cursor { IfOk result (λ direct. direct.cursor ≡ rev) }
            { Direct::of(alloc, keys, input, rev) },
            move || -> Result<Layer, AllocError>
                ensures layer { IfOk result (λ layer. (snaps : ℕ → Snap) → snaps rev ≡ input.entry.now → IsLayerOf layer snaps) }
                ensures base { IfOk result (λ layer. layer.base ≡ rev) }
                ensures cursor { IfOk result (λ layer. layer.cursor ≡ rev) }
            { Layer::of(alloc, keys, input, rev) },
        );
        let layer = layer?;
        let direct = direct?;
        Ok(GroupIndex { layer, direct })
    }

    /// The first revision that is told of.
    pub fn base(&self) -> u64
        ensures { result ≡ base_of self.now }
    {
        self.layer.base()
    }

    /// The last revision that is told of.
    pub fn cursor(&self) -> u64
        ensures { result ≡ cursor_of self.now }
    {
        self.layer.cursor()
    }

    /// The index after the next commit, one of events. The arcs are those of the snapshot after it, and nothing else is
    /// read. It costs what the commit touches. For want of memory there is no index any more.
    pub fn take<A: CountedArcs>(
        self,
        alloc: Global,
        events: &[Event],
        arcs: &mut A,
    ) -> Result<GroupIndex, AllocError>
        requires { cursor_of self < 2 ^ 64 - 1 }
        ensures index { IfOk result (λ index. (snaps : ℕ → Snap) → IsGroupIndexOf self snaps
            → IsNext snaps (cursor_of self) events.now (A.snap arcs.old) → IsGroupIndexOf index snaps) }
        ensures asked { OnOk result ((snaps : ℕ → Snap) → IsGroupIndexOf self snaps
            → IsNext snaps (cursor_of self) events.now (A.snap arcs.old)
            → WereAskedFew (snaps (cursor_of self)) (A.snap arcs.old) events.now (A.asked arcs.old) (A.asked arcs.new)) }
        ensures snap { A.snap arcs.new ≡ A.snap arcs.old }
        ensures base { IfOk result (λ index. base_of index ≡ base_of self) }
        ensures cursor { IfOk result (λ index. cursor_of index ≡ cursor_of self + 1) }
    {
        let GroupIndex {
            mut layer,
            mut direct,
        } = self;
        layer.take(alloc, events, arcs)?;
        direct.take(alloc, events)?;
        Ok(GroupIndex { layer, direct })
    }

    /// Moves the base up to a revision that is not above the cursor. It takes no memory.
    pub fn raise(&mut self, rev: u64)
        requires { rev ≤ cursor_of self.old }
        ensures index { (snaps : ℕ → Snap) → IsGroupIndexOf self.old snaps → base_of self.old ≤ rev → IsGroupIndexOf self.new snaps }
        ensures base { base_of self.new ≡ rev }
        ensures cursor { cursor_of self.new ≡ cursor_of self.old }
    {
        self.layer.raise(rev);
        self.direct.raise(rev);
    }

    /// Moves the base up to a revision, whose view this is. Where it is above the cursor, the index is begun anew there;
    /// for want of memory nothing changes.
    pub fn rebase(&mut self, alloc: Global, view: &View, rev: u64) -> Result<(), AllocError>
        ensures index { OnOk result ((snaps : ℕ → Snap) → IsGroupIndexOf self.old snaps → base_of self.old ≤ rev
            → snaps rev ≡ view.now → IsGroupIndexOf self.new snaps) }
        ensures base { OnOk result (base_of self.new ≡ rev) }
        ensures cursor { OnOk result (cursor_of self.new ≡ max (cursor_of self.old) rev) }
        ensures err { OnErr result (self.new ≡ self.old) }
    {
        if self.cursor() < rev {
            *self = GroupIndex::restart(alloc, self.layer.nodes().keys(), view, rev)?;
            return Ok(());
        }
        self.raise(rev);
        Ok(())
    }

    /// The index at a revision, where it tells of that. What takes memory takes it from here.
    pub fn at(&self, alloc: Global, rev: u64) -> Option<At<'_>>
        ensures told { IfSome result (λ at. (snaps : ℕ → Snap) → IsGroupIndexOf self.now snaps → TellsOf at (snaps rev)) }
        ensures untold { IfNone result ((rev < base_of self.now) ⊎ (cursor_of self.now < rev)) }
    {
        if rev < self.base() || self.cursor() < rev {
            return None;
        }
        Some(At {
            index: self,
            alloc,
            rev,
        })
    }
}
