//! Tuples, found by whom they name.
ghost use Rattle.std.specs.Prelude.{◌≡◌, ◌↔◌, ◌++◌, ◌<◌, true, false, length, filter, Contains, IfOk, IfSome, IfNone, OnOk, OnErr};
ghost use Rattle.std.specs.Option.{option_to_list};
ghost use Rattle.names.specs.Order.{is_same_tuple};
ghost use Rattle.names.specs.declared.tuple.Tuple.{Tuple};
ghost use Rattle.names.specs.declared.node.Node.{Node};
ghost use Rattle.meaning.specs.TupleSet as set;
ghost use Rattle.meaning.specs.Snap.{one, set_of};
ghost use Rattle.tuple_keys.specs.Named.{is_at, is_of};
ghost use Rattle.rows.specs.Retained.{Retained, with_commit};
ghost use Rattle.rows.specs.Loads.{retained_of};
ghost use Rattle.by_subject.specs.Turned.{turned};
ghost use Rattle.by_subject.specs.Complete.{Covers, IsCompleteFor};
ghost use Rattle.by_subject.specs.inside.Putting.{HasPuts, Keeps, with_event};
ghost use Rattle.by_subject.specs.inside.Texts.{AreSpelled, found_in, namer_in, set_namer_in};

use crate::turning::turned;
use names::{EventKind, Name, Node, Object, Tuple};
use rows::Loaded;
use shelf::Shelf;
use std::alloc::{AllocError, Global};
use std::marker::Model;
use tuple_keys::{KeptCommit, KeptEvent, KeptEvents, Scratch, Start, TupleRef};

/// Tuples, found by whom they name. Each is kept turned round, as a text. So those that name an object stand together
/// with those that name members of its nodes, and a look-up goes over no others. Contracts see the set of the turned
/// tuples.
#[derive(Drop)]
pub struct BySubject {
    texts: Shelf<()>,
}

impl Model for BySubject {
    ghost use base.Stored.{coded_unit};
    ghost use Rattle.std.specs.FinMap as map;
    ghost use Rattle.meaning.specs.TupleSet.{Tuples};
    ghost use Rattle.meaning.specs.inside.Codes.{coded_tuple};
    ghost use Rattle.by_subject.specs.inside.Texts.{AreSpelled, found_in};

    ghost Value = { Tuples };

    ghost coded = { map.code coded_tuple coded_unit };

    ghost view = { λ s. found_in s.texts };

    ghost invariant = { λ s. AreSpelled s.texts };
}

impl BySubject {
    /// The tuples that a history was made of: those at its floor, and each that its commits put.
    pub fn of(alloc: Global, loaded: &Loaded) -> Result<BySubject, AllocError>
        ensures { IfOk result (IsCompleteFor (retained_of loaded.now)) }
    {
        let commits = loaded.commits.as_slice();
        let mut found = BySubject::of_base(alloc, loaded.tuples.as_slice())?;
        for i in 0..commits.len() {
            found.take(&commits[i])?;
        }
        Ok(found)
    }

    /// These tuples.
    fn of_base(alloc: Global, tuples: &[Tuple]) -> Result<BySubject, AllocError>
        ensures { IfOk result (λ found. Covers found (set.from_list tuples.now)) }
    {
        let mut found = BySubject {
            texts: Shelf::new(alloc),
        };
        for i in 0..tuples.len() {
            found.note(&tuples[i])?;
        }
        Ok(found)
    }

    /// Takes what a commit puts. What it deletes stays: it was there at an earlier revision. For want of memory it
    /// may have taken some.
    pub fn take(&mut self, commit: &KeptCommit) -> Result<(), AllocError>
        ensures complete { OnOk result ((r : Retained) → IsCompleteFor r self.old → IsCompleteFor (with_commit r commit.now) self.new) }
        ensures kept { (t : Tuple) → set.contains self.old t ≡ true → set.contains self.new t ≡ true }
    {
        match commit.events() {
            Some(events) => self.take_events(events),
            None => Ok(()),
        }
    }

    fn take_events(&mut self, events: &KeptEvents) -> Result<(), AllocError>
        ensures taken { OnOk result (HasPuts events.now self.new) }
        ensures kept { Keeps self.old self.new }
    {
        for i in 0..events.len() {
            self.take_event(&events.event(i))?;
        }
        Ok(())
    }

    /// Takes the event's tuple, where it puts that. For want of memory nothing changes.
    fn take_event(&mut self, event: &KeptEvent<'_>) -> Result<(), AllocError>
        ensures ok { OnOk result (self.new ≡ with_event event.now.kind event.now.tuple self.old) }
        ensures err { OnErr result (self.new ≡ self.old) }
    {
        match event.kind() {
            EventKind::Put => self.note(&event.tuple_ref().tuple()),
            EventKind::Del => Ok(()),
        }
    }

    /// Takes the tuple. For want of memory nothing changes.
    fn note(&mut self, tuple: &Tuple) -> Result<(), AllocError>
        ensures ok { OnOk result (self.new ≡ set.insert self.old (turned tuple.now)) }
        ensures err { OnErr result (self.new ≡ self.old) }
    {
        let scratch = Scratch::of(&turned(tuple));
        let key = scratch.tuple_ref();
        self.texts.insert(key.as_str(), ())?;
        Ok(())
    }

    /// Takes a tuple out that was turned round.
    pub(crate) fn take_out(&mut self, turned: &TupleRef<'_>)
        ensures { (u : Tuple) → is_same_tuple u turned.now ≡ false → set.contains self.old u ≡ true → set.contains self.new u ≡ true }
    {
        self.texts.remove(turned.as_str());
    }

    fn texts(&self) -> &Shelf<()>
        ensures found { found_in result.now ≡ self.now }
        ensures spelled { AreSpelled result.now }
    {
        &self.texts
    }

    /// The nodes with a tuple that names the object itself, or `None` where more than `most` tuples name that or the members of its nodes.
    pub fn naming(
        &self,
        alloc: Global,
        object: &Object,
        most: usize,
    ) -> Result<Option<Vec<Node>>, AllocError>
        ensures found { IfOk result (λ o. IfSome o (λ v. (n : Node) → Contains v.items n
            ↔ (set.contains self.now (turned (record { node = n; subject = one object.now })) ≡ true))) }
        ensures many { IfOk result (λ o. IfNone o (most < length (filter (is_at object.now) (set.items self.now)))) }
    {
        let texts = self.texts();
        let least = Start::of_object(object);
        let mut nodes = Vec::new(alloc);
        let mut more = most;
        for (text, _) in texts.range(least.as_str()) {
            let Some(_) = least.rest_of(text) else {
                return Ok(Some(nodes));
            };
            if more == 0 {
                return Ok(None);
            }
            more -= 1;
            push_namer(&mut nodes, &TupleRef::of(text))?;
        }
        Ok(Some(nodes))
    }

    /// The nodes with a tuple that names the members of the node, or `None` where more than `most` tuples name these.
    pub fn naming_members_of(
        &self,
        alloc: Global,
        node: &Node,
        most: usize,
    ) -> Result<Option<Vec<Node>>, AllocError>
        ensures found { IfOk result (λ o. IfSome o (λ v. (n : Node) → Contains v.items n
            ↔ (set.contains self.now (turned (record { node = n; subject = set_of node.now })) ≡ true))) }
        ensures many { IfOk result (λ o. IfNone o (most < length (filter (is_of node.now) (set.items self.now)))) }
    {
        let texts = self.texts();
        let least = Start::of_node(node);
        let mut nodes = Vec::new(alloc);
        let mut more = most;
        for (text, _) in texts.range(least.as_str()) {
            let Some(_) = least.rest_of(text) else {
                return Ok(Some(nodes));
            };
            if more == 0 {
                return Ok(None);
            }
            more -= 1;
            push_set_namer(&mut nodes, &TupleRef::of(text))?;
        }
        Ok(Some(nodes))
    }
}

/// Adds the node that has the object by the tuple that was turned round to this, where that names an object.
fn push_namer(nodes: &mut Vec<Node>, tuple: &TupleRef<'_>) -> Result<(), AllocError>
    ensures { OnOk result (nodes.new.items ≡ nodes.old.items ++ option_to_list (namer_in tuple.now)) }
{
    let subject = tuple.subject();
    if subject.relation().is_none() {
        let object = subject.object();
        let relation = Name::spelled(tuple.relation());
        nodes.push(Node { object, relation })?;
    }
    Ok(())
}

/// The same, where it names the members of a node.
fn push_set_namer(nodes: &mut Vec<Node>, tuple: &TupleRef<'_>) -> Result<(), AllocError>
    ensures { OnOk result (nodes.new.items ≡ nodes.old.items ++ option_to_list (set_namer_in tuple.now)) }
{
    if let Some(node) = tuple.subject().node() {
        nodes.push(node)?;
    }
    Ok(())
}
