//! Group indexes that are made beside the desk, of snapshots that sessions copied.
ghost use Rattle.std.specs.Prelude.{◌≡◌, ◌↔◌, IfOk, IfSome, IsTrue};
ghost use Rattle.shown.specs.Adopting.{IsReady};
ghost use Rattle.shown.specs.Standing.{standing};
ghost use Rattle.published.specs.Copied.{RetainIn, IsCopyIn};
ghost use Rattle.published.specs.Judged.{AreJudged};
ghost use Rattle.published.specs.Vouching.{IsSameSnap};
ghost use Rattle.rows.specs.Retained.{snap_at};

use crate::book::{Naming, StepPrefix};
use group_index::GroupIndex;
use leopard::Input;
use shown::IndexAt;
use std::alloc::{AllocError, Global};
use std::hash::RandomState;
use std::marker::{Model, PhantomData};
use std::thread::Threads;

/// A snapshot that a session copied, and the steps of the book that `J` names which retain it. Contracts see it as the steps,
/// the revision and the snapshot.
#[derive(Drop)]
pub struct Copied<J: Naming> {
    keys: RandomState,
    of: StepPrefix,
    rev: u64,
    input: Input,
    named: PhantomData<J>,
}

impl<J: Naming> Model for Copied<J> {
    ghost use Rattle.published.specs.Copied.{SnapCopy, IsCopyIn};
    ghost use Rattle.published.specs.inside.Codes.{coded_copied};

    ghost Value = { SnapCopy };

    ghost coded = { coded_copied };

    ghost view = { λ c. record { of = c.of; rev = c.rev; snap = c.input } };

    ghost invariant = { λ c. IsCopyIn J.book (record { of = c.of; rev = c.rev; snap = c.input }) };
}

impl<J: Naming> Copied<J> {
    pub(crate) fn new(keys: RandomState, of: StepPrefix, rev: u64, input: Input) -> Copied<J>
        requires kept { RetainIn J.book of rev }
        requires same { input ≡ snap_at (standing of.steps).kept rev }
        ensures { result ≡ record { of = of; rev = rev; snap = input } }
    {
        Copied {
            keys,
            of,
            rev,
            input,
            named: PhantomData,
        }
    }

    /// The revision.
    pub fn rev(&self) -> u64
        ensures { result ≡ self.now.rev }
    {
        self.rev
    }

    /// The configuration and the tuples.
    pub fn input(&self) -> &Input
        ensures same { result.now ≡ self.now.snap }
        ensures copied { IsCopyIn J.book self.now }
    {
        &self.input
    }

    /// Two group indexes of the snapshot, one for each copy that sessions ask. Two threads make each.
    pub fn index<R: Threads>(&self, rt: &R, alloc: Global) -> Result<MadeIndexes<J>, AllocError> {
        let first = self.index_once(rt, alloc)?;
        let second = self.index_once(rt, alloc)?;
        Ok(MadeIndexes { first, second })
    }

    fn index_once<R: Threads>(&self, rt: &R, alloc: Global) -> Result<MadeIndex<J>, AllocError> {
        let index = GroupIndex::of_parallel(rt, alloc, self.keys, &self.input, self.rev)?;
        Ok(MadeIndex {
            of: self.of.again(),
            rev: self.rev,
            index,
            named: PhantomData,
        })
    }
}

/// A group index of a revision that these steps of the book that `J` names retain.
#[derive(Drop)]
pub(crate) struct MadeIndex<J: Naming> {
    of: StepPrefix,
    rev: u64,
    index: GroupIndex,
    named: PhantomData<J>,
}

impl<J: Naming> Model for MadeIndex<J> {
    ghost use Rattle.published.specs.Known.{Known};
    ghost use Rattle.published.specs.Copied.{IsMadeIn};
    ghost use Rattle.published.specs.inside.Codes.{coded_known};

    ghost Value = { Known };

    ghost coded = { coded_known };

    ghost view = { λ m. m.of };

    ghost invariant = { λ m. IsMadeIn J.book m.of m.rev m.index };
}

impl<J: Naming> MadeIndex<J> {
    /// The index, where whoever has these steps retains its revision: they begin with its own, and their floor is not above it.
    pub(crate) fn for_steps(self, steps: &StepPrefix, floor: u64) -> Option<IndexAt>
        requires book { steps.now.book ≡ J.book }
        requires judged { AreJudged steps.now.steps }
        requires floor { floor ≡ (standing steps.now.steps).kept.floor }
        ensures { IfSome result (IsReady (standing steps.now.steps).kept) }
    {
        if !self.of.begins(steps) || self.rev < floor {
            return None;
        }
        let MadeIndex { rev, index, .. } = self;
        Some(IndexAt { rev, index })
    }
}

/// Group indexes of one snapshot, one for each copy that sessions ask.
#[derive(Drop)]
pub struct MadeIndexes<J: Naming> {
    pub(crate) first: MadeIndex<J>,
    pub(crate) second: MadeIndex<J>,
}

/// Whether the inputs have the same configuration, by its text, and the same tuples.
pub(crate) fn is_same(alloc: Global, one: &Input, other: &Input) -> Result<bool, AllocError>
    ensures { IfOk result (λ same. IsTrue same ↔ IsSameSnap one.now other.now) }
{
    let text = one.config().to_json(alloc)?;
    let others = other.config().to_json(alloc)?;
    Ok(text == others && one.tuples() == other.tuples())
}
