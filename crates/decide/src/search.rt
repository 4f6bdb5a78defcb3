//! The nodes that a question has reached.
ghost use Rattle.std.specs.Prelude.{◌≡◌, ◌≤◌, ◌<◌, ◌+◌, ◌^◌, ◌⊎◌, [], ◌∷◌, ◌++◌, ℕ, true, false, Contains, Option, Some, None, IfOk, IfSome, IfNone, IsTrue, OnOk, length, slice_index_or};
ghost use Rattle.std.proofs.Common.{suc};
ghost use Rattle.meaning.specs.Config.{IsAt, rel_of};
ghost use Rattle.meaning.specs.Snap.{Snap};
ghost use Rattle.config.specs.Places.{StandsAt};
ghost use Rattle.names.specs.declared.object.Object.{Object as ObjectValue};
ghost use Rattle.names.specs.declared.node.Node.{Node as NodeValue};
ghost use Rattle.decide.specs.declared.search.Opened.{Opened};
ghost use Rattle.decide.specs.inside.Under.{Under};
ghost use Rattle.decide.specs.inside.Searches.{Stands, IsStacked, Waits, Grew, IsNodeAt, IsNumberOf, Opens, Pushes, IsThere, Wakes, IsFrame, AreFalling, IsLowest, sures};
ghost use Rattle.decide.specs.inside.Ending.{IsUnfinished, left};
ghost use Rattle.decide.specs.inside.Reads.{AreOwn, AreParents, node_with};
ghost use Rattle.decide.specs.inside.Running.{IsRunning};

use crate::numbers::{KINDS, Numbers, kind_of};
use crate::waiting::{Askers, Waiting};
use names::{Name, Node, Object};
use std::alloc::{AllocError, Global};
use std::mem::replace;

/// So many nodes are opened before the list of them grows.
const ROOM: usize = 16;

/// A search that has opened so many is large.
const MOST: usize = 1 << 16;

/// A node that was opened: its relation's level and place, whether it is known to have the user, the numbers
/// of the nodes that wait for it, and what was read of it: the usersets of its own tuples, where none names
/// the user, and the nodes of one tupleset.
#[derive(Drop)]
pub(crate) struct Opened {
    node: Node,
    level: usize,
    place: usize,
    sure: bool,
    waiting: Waiting,
    own: Option<Vec<Node>>,
    parents: Option<Parents>,
}

/// The nodes of the relation, of the objects that the tupleset's tuples name.
#[derive(Drop)]
pub(crate) struct Parents {
    pub(crate) tupleset: Name,
    pub(crate) relation: Name,
    pub(crate) nodes: Vec<Node>,
}

/// While it stands, only nodes of lower levels are looked at, until the asker is woken.
#[derive(Clone, Copy, Drop)]
struct Frame {
    level: usize,
    asker: usize,
}

/// The nodes that were opened, in the order of their numbers, for each kind of relation the one that was opened
/// last, and for each level those to be looked at.
#[derive(Drop)]
pub(crate) struct Search {
    alloc: Global,
    opened: Vec<Opened>,
    numbers: Numbers,
    likely: [usize; KINDS],
    stacks: Vec<Vec<usize>>,
    frames: Vec<Frame>,
}

impl Search {
    /// No node, of levels up to the greatest.
    pub(crate) fn new(alloc: Global, seed: u64, level: usize) -> Result<Search, AllocError>
        requires { level < 2 ^ 32 }
        ensures opened { IfOk result (λ s. s.opened.items ≡ []) }
        ensures long { IfOk result (λ s. length s.stacks.items ≡ level + 1) }
        ensures stacked { IfOk result (λ s. (l i : ℕ) → IsStacked s l i → ⊥) }
        ensures frames { IfOk result (λ s. s.frames.items ≡ []) }
    {
        Ok(Search {
            alloc,
            opened: Vec::with_capacity(alloc, ROOM)?,
            numbers: Numbers::new(alloc, seed),
            likely: [0; KINDS],
            stacks: empty_stacks(alloc, level)?,
            frames: Vec::new(alloc),
        })
    }

    /// The number of the object's node of the relation, where it was opened, or else a key that is free for it.
    pub(crate) fn seen(&self, object: &Object, relation: &Name) -> Result<usize, u64>
        ensures { IfOk result (IsNodeAt self.now (node_with relation.now object.now)) }
    {
        let mut key = self.numbers.key_of(object, relation);
        'keys: for _ in 0..self.opened.len() {
            let Some(number) = self.numbers.get(key) else {
                return Err(key);
            };
            if self.is_number_of(number, object, relation) {
                return Ok(number);
            }
            key = key.wrapping_add(1);
        }
        Err(key)
    }

    fn is_number_of(&self, number: usize, object: &Object, relation: &Name) -> bool
        ensures { IsTrue result → IsNodeAt self.now (node_with relation.now object.now) number }
    {
        number < self.opened.len() && is_node(&self.opened[number].node, object, relation)
    }

    /// The place of the node's relation, where the node that was opened last for a relation of its kind has the
    /// same one.
    pub(crate) fn likely_place(&self, node: &Node) -> Option<usize>
        ensures { IfSome result (λ p. (S : Snap) (u : ObjectValue) (but : Option ℕ) → IsRunning S u self.now but
            → StandsAt S.config (rel_of node.now) p) }
    {
        let number = self.likely[kind_of(node)];
        if number < self.opened.len() {
            let opened = &self.opened[number];
            if has_relation_of(&opened.node, node) {
                return Some(opened.place);
            }
        }
        None
    }

    /// Opens the node, which is to be looked at, under a key that is free.
    pub(crate) fn open(
        &mut self,
        node: Node,
        level: usize,
        place: usize,
        key: u64,
    ) -> Result<usize, AllocError>
        requires { level < length self.old.stacks.items }
        ensures { IfOk result (Opens self.old self.new node level place) }
    {
        let number = self.opened.len();
        let kind = kind_of(&node);
        self.opened.push(Opened {
            node,
            level,
            place,
            sure: false,
            waiting: Waiting {
                items: Askers::none(self.alloc),
            },
            own: None,
            parents: None,
        })?;
        self.numbers.insert(key, number)?;
        self.stacks[level].push(number)?;
        self.likely[kind] = number;
        Ok(number)
    }

    /// The number of the node, which is opened where it was not.
    pub(crate) fn reach(
        &mut self,
        node: &Node,
        level: usize,
        place: usize,
    ) -> Result<usize, AllocError>
        requires { level < length self.old.stacks.items }
        ensures there { IfOk result (λ i. i < length self.new.opened.items) }
        ensures number { IfOk result (λ i. (k : ℕ) × IsNumberOf self.new i node.now k) }
        ensures running { OnOk result ((S : Snap) (u : ObjectValue) → IsAt S.config node.now level
            → StandsAt S.config (rel_of node.now) place → IsRunning S u self.old None → IsRunning S u self.new None) }
    {
        match self.seen(&node.object, &node.relation) {
            Ok(number) => Ok(number),
            Err(key) => self.open(node.again(), level, place, key),
        }
    }

    /// Whether it has a stack for the level, and few nodes were opened.
    pub(crate) fn has_room_for(&self, level: usize) -> bool
        ensures { IsTrue result → level < length self.now.stacks.items }
    {
        level < self.stacks.len() && self.opened.len() < MOST
    }

    /// How many nodes were opened.
    pub(crate) fn len(&self) -> usize
        ensures { result ≡ length self.now.opened.items }
    {
        self.opened.len()
    }

    /// Whether the node is known to have the user.
    pub(crate) fn is_sure(&self, number: usize) -> bool
        requires { number < length self.now.opened.items }
        ensures { (e : Opened) → Stands self.now number e → e.sure ≡ result }
    {
        self.opened[number].sure
    }

    pub(crate) fn node_of(&self, number: usize) -> Node
        requires { number < length self.now.opened.items }
        ensures { (e : Opened) → Stands self.now number e → e.node ≡ result }
    {
        self.opened[number].node.again()
    }

    pub(crate) fn level_of(&self, number: usize) -> usize
        requires { number < length self.now.opened.items }
        ensures { (e : Opened) → Stands self.now number e → e.level ≡ result }
    {
        self.opened[number].level
    }

    pub(crate) fn place_of(&self, number: usize) -> usize
        requires { number < length self.now.opened.items }
        ensures { (e : Opened) → Stands self.now number e → e.place ≡ result }
    {
        self.opened[number].place
    }

    /// The usersets of the node's own tuples, if they were read and kept. They are kept no more.
    pub(crate) fn take_own(&mut self, number: usize) -> Option<Vec<Node>>
        requires { number < length self.old.opened.items }
        ensures grew { Grew self.old self.new }
        ensures own { (S : Snap) (u : ObjectValue) (but : Option ℕ) → IsRunning S u self.old but
            → IfSome result (λ v. (e : Opened) → Stands self.old number e → AreOwn S u e.node v.items) }
        ensures running { (S : Snap) (u : ObjectValue) (but : Option ℕ)
            → IsRunning S u self.old but → IsRunning S u self.new but }
    {
        self.opened[number].own.take()
    }

    /// Keeps the usersets of the node's own tuples, none of which names the user.
    pub(crate) fn keep_own(&mut self, number: usize, own: Vec<Node>)
        requires { number < length self.old.opened.items }
        ensures grew { Grew self.old self.new }
        ensures running { (S : Snap) (u : ObjectValue) (but : Option ℕ)
            → ((e : Opened) → Stands self.old number e → AreOwn S u e.node own.items)
            → IsRunning S u self.old but → IsRunning S u self.new but }
    {
        self.opened[number].own = Some(own);
    }

    /// What was kept of one of the node's tuplesets. It is kept no more.
    pub(crate) fn take_parents(&mut self, number: usize) -> Option<Parents>
        requires { number < length self.old.opened.items }
        ensures grew { Grew self.old self.new }
        ensures parents { (S : Snap) (u : ObjectValue) (but : Option ℕ) → IsRunning S u self.old but
            → IfSome result (λ p. (e : Opened) → Stands self.old number e → AreParents S e.node p) }
        ensures running { (S : Snap) (u : ObjectValue) (but : Option ℕ)
            → IsRunning S u self.old but → IsRunning S u self.new but }
    {
        self.opened[number].parents.take()
    }

    /// Keeps what one of the node's tuplesets names.
    pub(crate) fn keep_parents(&mut self, number: usize, parents: Parents)
        requires { number < length self.old.opened.items }
        ensures grew { Grew self.old self.new }
        ensures running { (S : Snap) (u : ObjectValue) (but : Option ℕ)
            → ((e : Opened) → Stands self.old number e → AreParents S e.node parents)
            → IsRunning S u self.old but → IsRunning S u self.new but }
    {
        self.opened[number].parents = Some(parents);
    }

    /// Lets the asker wait for a node, where it does not already: who stood twice in a list would be woken and looked at
    /// twice, would wait twice more, and so on.
    pub(crate) fn wait(&mut self, number: usize, asker: usize) -> Result<(), AllocError>
        requires { number < length self.old.opened.items }
        ensures grew { OnOk result (Grew self.old self.new) }
        ensures waits { OnOk result ((e : Opened) → Stands self.old number e → e.sure ≡ false
            → Waits self.new e.node asker) }
        ensures running { OnOk result ((S : Snap) (u : ObjectValue) (but : Option ℕ) → asker < length self.old.opened.items
            → IsRunning S u self.old but → IsRunning S u self.new but) }
    {
        if self.opened[number].waiting.items.contains(asker) {
            return Ok(());
        }
        self.opened[number].waiting.items.add(asker)?;
        Ok(())
    }

    /// The node is to be looked at.
    fn stack(&mut self, number: usize) -> Result<(), AllocError>
        requires number { number < length self.old.opened.items }
        requires there { IsThere self.old number }
        ensures opened { OnOk result (self.new.opened.items ≡ self.old.opened.items) }
        ensures stacked { OnOk result ((e : Opened) → Stands self.old number e
            → Pushes self.old.stacks.items self.new.stacks.items e.level number) }
        ensures frames { OnOk result (self.new.frames.items ≡ self.old.frames.items) }
    {
        let level = self.opened[number].level;
        self.stacks[level].push(number)?;
        Ok(())
    }

    /// The node is to be looked at now: where it waited for lower levels, it need not any more.
    fn wake(&mut self, number: usize) -> Result<(), AllocError>
        requires number { number < length self.old.opened.items }
        requires there { IsThere self.old number }
        ensures opened { OnOk result (self.new.opened.items ≡ self.old.opened.items) }
        ensures stacked { OnOk result ((e : Opened) → Stands self.old number e
            → Pushes self.old.stacks.items self.new.stacks.items e.level number) }
        ensures falling { OnOk result (AreFalling self.old.frames.items → AreFalling self.new.frames.items) }
    {
        self.stack(number)?;
        if let Some(frame) = self.frames.last() {
            if frame.asker == number {
                let _ = self.frames.pop();
            }
        }
        Ok(())
    }

    fn wake_all(&mut self, waiting: &Askers) -> Result<(), AllocError>
        requires { (w : ℕ) → Contains waiting.now w → (w < length self.old.opened.items) × IsThere self.old w }
        ensures opened { OnOk result (self.new.opened.items ≡ self.old.opened.items) }
        ensures wakes { OnOk result (Wakes self.old self.new waiting.now) }
    {
        for i in 0..waiting.len() {
            self.wake(waiting.get(i))?;
        }
        Ok(())
    }

    /// The node has the user: the nodes that wait for it are to be looked at again.
    pub(crate) fn give(&mut self, number: usize) -> Result<(), AllocError>
        requires number { number < length self.old.opened.items }
        requires there { (w i : ℕ) (e : Opened) → Stands self.old i e → Contains e.waiting.items w
            → (w < length self.old.opened.items) × IsThere self.old w }
        ensures numbers { OnOk result
            ((i k : ℕ) (n : NodeValue) → IsNumberOf self.old i n k → IsNumberOf self.new i n k) }
        ensures running { OnOk result ((S : Snap) (u : ObjectValue)
            → ((e : Opened) → Stands self.old number e → Under S u (suc e.level) e.node)
            → IsRunning S u self.old (Some number) → IsRunning S u self.new None) }
        ensures long { OnOk result (length self.new.opened.items ≡ length self.old.opened.items) }
        ensures sures { OnOk result ((e : Opened) → Stands self.old number e → e.sure ≡ false
            → sures self.old < sures self.new) }
    {
        let waiting = replace(
            &mut self.opened[number].waiting.items,
            Askers::none(self.alloc),
        );
        self.wake_all(&waiting)?;
        self.opened[number].sure = true;
        Ok(())
    }

    /// The node is to be looked at again when the lower levels are finished, of which one is not.
    pub(crate) fn put_back(&mut self, number: usize, level: usize) -> Result<(), AllocError>
        requires number { number < length self.old.opened.items }
        requires there { IsThere self.old number }
        requires level { (e : Opened) → Stands self.old number e → e.level ≡ level }
        requires lowest { IsLowest self.old number }
        requires unfinished { IsUnfinished self.old level }
        ensures numbers { OnOk result
            ((i k : ℕ) (n : NodeValue) → IsNumberOf self.old i n k → IsNumberOf self.new i n k) }
        ensures running { OnOk result ((S : Snap) (u : ObjectValue)
            → IsRunning S u self.old (Some number) → IsRunning S u self.new None) }
        ensures opened { OnOk result (self.new.opened.items ≡ self.old.opened.items) }
        ensures ends { OnOk result (left self.new ≤ left self.old) }
    {
        self.stack(number)?;
        self.frames.push(Frame {
            level,
            asker: number,
        })?;
        Ok(())
    }

    /// Takes a number off the highest stack below the level.
    fn pop_below(&mut self, level: usize) -> Option<usize>
        ensures opened { self.new.opened.items ≡ self.old.opened.items }
        ensures frames { self.new.frames ≡ self.old.frames }
        ensures long { length self.new.stacks.items ≡ length self.old.stacks.items }
        ensures stacked { (l i : ℕ) → IsStacked self.new l i → IsStacked self.old l i }
        ensures none { IfNone result (self.new.stacks.items ≡ self.old.stacks.items) }
        ensures empty { IfNone result ((l i : ℕ) → l < level → IsStacked self.old l i → ⊥) }
        ensures some { IfSome result (λ n. ((l : ℕ) × IsStacked self.old l n)
            × ((l i : ℕ) → IsStacked self.old l i → (i ≡ n) ⊎ IsStacked self.new l i)) }
        ensures below { IfSome result (λ n. (l : ℕ) × (l < level) × IsStacked self.old l n) }
        ensures ends { IfSome result (λ _. left self.new < left self.old) }
    {
        let mut left = level.min(self.stacks.len());
        while left > 0 {
            left -= 1;
            if !self.stacks[left].is_empty() {
                return self.stacks[left].pop();
            }
        }
        None
    }

    /// The next number to look at.
    pub(crate) fn next(&mut self) -> Option<usize>
        ensures numbers { (i k : ℕ) (n : NodeValue) → IsNumberOf self.old i n k → IsNumberOf self.new i n k }
        ensures none { IfNone result ((l i : ℕ) → IsStacked self.new l i → ⊥) }
        ensures same { IfNone result ((S : Snap) (u : ObjectValue) → IsRunning S u self.old None → IsRunning S u self.new None) }
        ensures some { IfSome result (λ n. (S : Snap) (u : ObjectValue)
            → IsRunning S u self.old None → (n < length self.new.opened.items) × IsRunning S u self.new (Some n)) }
        ensures lowest { IfSome result (λ n. (S : Snap) (u : ObjectValue) → IsRunning S u self.old None → IsLowest self.new n) }
        ensures opened { self.new.opened.items ≡ self.old.opened.items }
        ensures ends { IfSome result (λ _. left self.new < left self.old) }
    {
        while !self.frames.is_empty() {
            let level = self.frames[self.frames.len() - 1].level;
            match self.pop_below(level) {
                Some(number) => return Some(number),
                None => {}
            }
            let _ = self.frames.pop();
        }
        let levels = self.stacks.len();
        self.pop_below(levels)
    }

    /// Whether no node up to the level is to be looked at.
    pub(crate) fn is_settled(&self, level: usize) -> bool
        requires { level < length self.now.stacks.items }
        ensures yes { IsTrue result → (l i : ℕ) → l ≤ level → IsStacked self.now l i → ⊥ }
        ensures no { result ≡ false → IsUnfinished self.now (suc level) }
    {
        for stack in &self.stacks[..level + 1] {
            if !stack.is_empty() {
                return false;
            }
        }
        true
    }
}

fn empty_stacks(alloc: Global, level: usize) -> Result<Vec<Vec<usize>>, AllocError>
    requires { level < 2 ^ 32 }
    ensures long { IfOk result (λ v. length v.items ≡ level + 1) }
    ensures empty { IfOk result (λ v. (w : _) → Contains v.items w → w.items ≡ []) }
{
    let mut stacks = Vec::with_capacity(alloc, level + 1)?;
    for _ in 0..level + 1 {
        stacks.push(Vec::new(alloc))?;
    }
    Ok(stacks)
}

/// Whether it is the object's node of the relation.
fn is_node(node: &Node, object: &Object, relation: &Name) -> bool
    ensures { IsTrue result → node.now ≡ node_with relation.now object.now }
{
    node.relation == *relation && node.object == *object
}

/// Whether the nodes have the same relation.
fn has_relation_of(node: &Node, other: &Node) -> bool
    ensures { IsTrue result → rel_of node.now ≡ rel_of other.now }
{
    node.relation == other.relation && node.object.namespace == other.object.namespace
}
