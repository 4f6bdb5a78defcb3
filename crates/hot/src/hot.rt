//! The marked nodes.
ghost use Rattle.std.specs.Prelude.{◌≤◌, length};
ghost use Rattle.std.specs.List.Sorted.{IsStrictlyIncreasing};
ghost use Rattle.names.specs.declared.limits.TheConstants.{MAX_MARKS};
ghost use Rattle.region.specs.Sets.{IsWhole};

use crate::changed::changed_by;
use crate::following::follow;
use crate::nodes::{CountedNodes, ViewNodes};
use crate::numbering::numbered;
use crate::remembering::forget_each;
use crate::renewing::renew;
use facts::{Numbers, each_view_is_valid};
use idsets::IdSet;
use names::limits::MAX_MARKS;
use names::{Event, Node, Refusal};
use region::{Sets, Told, sweep};
use rows::View;
use std::alloc::{AllocError, Global};
use std::collections::BTreeMap;
use std::hash::RandomState;

/// The marked nodes, and who is a member of them and of all that they depend on, at one revision: the cursor. What was told of
/// these nodes is remembered, as far as there was memory.
#[derive(Drop)]
pub struct Hot {
    pub(crate) numbers: Numbers,
    pub(crate) marks: IdSet,
    pub(crate) sets: Sets,
    pub(crate) told: BTreeMap<u64, Told>,
    ghost whole: { IsWhole sets },
    ghost few: { length marks ≤ MAX_MARKS },
    ghost rising: { IsStrictlyIncreasing marks },
}

impl Hot {
    ghost use Rattle.std.specs.Prelude.{◌≡◌, ◌<◌, true, false, OnOk, OnErr, IfErr, IfOk, IfSome, IfNone};
    ghost use Rattle.names.specs.declared.commit.Commit.TheVariants.{Tuples};
    ghost use Rattle.names.specs.declared.node.Node.{Node};
    ghost use Rattle.meaning.specs.History.{after_commit};
    ghost use Rattle.meaning.specs.Snap.{Snap};
    ghost use Rattle.meaning.specs.Reads.{IsValid};
    ghost use Rattle.hot.specs.Kept.{IsHot, IsMarked, marks_of, HasNumber, MarkCause};
    ghost use Rattle.hot.specs.Kept.{HasMarked, HasUnmarked, HasSameMarks, WereAsked, IsKept, IsNew, IsNewOrTouched};
    ghost use Rattle.hot.specs.Nodes.{WereAskedOnly};

    /// Nothing is marked, which is so at each revision. Names are hashed under this key. It takes no memory.
    pub fn new(alloc: Global, keys: RandomState) -> Hot
        ensures hot { (S : Snap) → IsValid S → IsHot result S }
        ensures marked { (n : Node) → IsMarked result n → ⊥ }
    {
        Hot {
            numbers: Numbers::new(alloc, keys),
            marks: IdSet::new(alloc),
            sets: Sets::new(alloc),
            told: BTreeMap::new(alloc),
        }
    }

    /// How many nodes are marked.
    pub fn marked(&self) -> usize
        ensures marked { result ≡ marks_of self.now }
        ensures few { result ≤ MAX_MARKS }
    {
        self.marks.len()
    }

    // Whether there is no room for one more mark.
    fn is_full(&self) -> bool
        ensures full { result ≡ true → MAX_MARKS ≤ marks_of self.now }
        ensures room { result ≡ false → marks_of self.now < MAX_MARKS }
    {
        MAX_MARKS <= self.marks.len()
    }

    /// The node with a number.
    pub fn node(&self, number: u64) -> Option<&Node>
        ensures found { IfSome result (λ node. HasNumber self.now node.now number) }
        ensures missing { IfNone result ((n : Node) → HasNumber self.now n number → ⊥) }
    {
        self.numbers.nodes.name(number)
    }

    /// Marks a node, at the revision that is kept, and gives the numbers of the nodes that the view was asked for, in
    /// order. It is refused with `Full` where so many are marked that there is no
    /// room for one more, and for want of memory; then what is marked and kept is what it was.
    pub fn mark(&mut self, alloc: Global, view: &View, node: &Node) -> Result<Vec<u64>, Refusal>
        ensures hot { IsHot self.old view.now → IsHot self.new view.now }
        ensures ok { OnOk result (IsHot self.old view.now → HasMarked self.old self.new node.now) }
        ensures asked { IfOk result (λ asked. IsHot self.old view.now → WereAsked self.new asked.items (IsNew self.old self.new)) }
        ensures err { OnErr result (IsHot self.old view.now → HasSameMarks self.old self.new) }
        ensures cause { IfErr result (MarkCause self.old node.now) }
    {
        let id = numbered(&mut self.numbers, node)?;
        if self.marks.contains(id) {
            return Ok(Vec::new(alloc));
        }
        if self.is_full() {
            return Err(Refusal::Full);
        }
        let mut marks = self.marks.again()?;
        marks.insert(id)?;
        let (numbers, sets, told) = (&mut self.numbers, &mut self.sets, &mut self.told);
        let mut facts = ViewNodes::of(alloc, view);
        let asked = renew(alloc, &mut facts, numbers, sets, told, &marks, &[id], &[])?;
        self.marks = marks;
        Ok(asked)
    }

    /// Takes a commit of events. What tells the facts has the snapshot after it, and nothing else is read: it is asked only for
    /// nodes that are new, or that depend on what the commit changed. Of those what is remembered is told. For want of memory
    /// what is marked and kept is what it was, at the revision at which it was.
    pub fn take<F: CountedNodes>(
        &mut self,
        alloc: Global,
        events: &[Event],
        facts: &mut F,
    ) -> Result<(), AllocError>
        ensures hot { OnOk result ((S : Snap) → IsHot self.old S → F.snap facts.old ≡ after_commit S (Tuples events.now)
            → IsHot self.new (F.snap facts.old)) }
        ensures asked { OnOk result ((S : Snap) → IsHot self.old S → F.snap facts.old ≡ after_commit S (Tuples events.now)
            → WereAskedOnly (F.asked facts.old) (F.asked facts.new) (IsNewOrTouched self.old self.new S events.now)) }
        ensures snap { F.snap facts.new ≡ F.snap facts.old }
        ensures err { OnErr result ((S : Snap) → IsHot self.old S → IsHot self.new S) }
        ensures marked { (S : Snap) → IsHot self.old S → HasSameMarks self.old self.new }
    {
        let changed = changed_by(alloc, &self.numbers.nodes, events)?;
        facts.tells_what_is_valid();
        follow(&mut self.told, &mut self.numbers, &self.sets, events);
        let (numbers, marks) = (&mut self.numbers, &self.marks);
        let (sets, told) = (&mut self.sets, &mut self.told);
        match renew(alloc, facts, numbers, sets, told, marks, &[], &changed) {
            Ok(_) => Ok(()),
            Err(e) => {
                forget_each(&mut self.told, &changed);
                Err(e)
            }
        }
    }

    /// Begins anew with a view, as after a commit of a configuration, and gives the numbers of the nodes that the view was
    /// asked for, in order. For want of memory what is marked and kept is
    /// what it was, at the revision at which it was.
    pub fn restart(&mut self, alloc: Global, view: &View) -> Result<Vec<u64>, AllocError>
        ensures hot { OnOk result ((S : Snap) → IsHot self.old S → IsHot self.new view.now) }
        ensures asked { IfOk result (λ asked. (S : Snap) → IsHot self.old S → WereAsked self.new asked.items (IsKept self.new)) }
        ensures err { OnErr result ((S : Snap) → IsHot self.old S → IsHot self.new S) }
        ensures marked { (S : Snap) → IsHot self.old S → HasSameMarks self.old self.new }
    {
        each_view_is_valid(view);
        let mut kept = Sets::new(alloc);
        let mut fresh = BTreeMap::new(alloc);
        let (sets, told) = (&mut kept, &mut fresh);
        let (numbers, marks) = (&mut self.numbers, &self.marks);
        let turned = marks.as_slice();
        let mut facts = ViewNodes::of(alloc, view);
        let asked = renew(alloc, &mut facts, numbers, sets, told, marks, turned, &[])?;
        self.sets = kept;
        self.told = fresh;
        Ok(asked)
    }

    /// Takes a mark off a node, and drops what no marked node depends on any more. For want of memory nothing changes.
    pub fn unmark(&mut self, alloc: Global, node: &Node) -> Result<(), AllocError>
        ensures hot { (S : Snap) → IsHot self.old S → IsHot self.new S }
        ensures ok { OnOk result (HasUnmarked self.old self.new node.now) }
        ensures err { OnErr result (HasSameMarks self.old self.new) }
    {
        let _ = self.numbers.nodes.len();
        let Some(id) = self.numbers.nodes.id_of(node) else {
            return Ok(());
        };
        if !self.marks.contains(id) {
            return Ok(());
        }
        let mut marks = self.marks.again()?;
        marks.remove(id);
        let gone = sweep(alloc, &mut self.sets, &marks, &[id])?;
        forget_each(&mut self.told, &gone);
        self.marks = marks;
        Ok(())
    }
}
