//! What a question reads of a view.
ghost use Rattle.std.specs.Prelude.{◌≡◌, ◌<◌, ◌^◌, ◌↔◌, ◌++◌, ◌∷◌, [], Contains, IfOk, IfNone, IfSome, OnOk, filter, length, map};
ghost use Rattle.config.specs.Places.{StandsAt};
ghost use Rattle.meaning.specs.Config.{Has, IsAt, rel_of};
ghost use Rattle.meaning.specs.Membership.{HasOne};
ghost use Rattle.meaning.specs.TupleSet as set;
ghost use Rattle.names.specs.declared.node.Node.{Node};
ghost use Rattle.names.specs.declared.object.Object.{Object};
ghost use Rattle.names.specs.declared.tuple.Tuple.{Tuple};
ghost use Rattle.versions.specs.Named.{objects_in, nodes_in};
ghost use Rattle.tuple_keys.specs.Named.{user_tuple, is_at, is_of};
ghost use Rattle.decide.specs.inside.Reading.{IsReadOf};
ghost use Rattle.decide.specs.inside.Reads.{AreNodesOf, AreOwn, node_with};

use crate::read_tuple::{ReadTuple, read_tuples};
use crate::reads::{Read, few_in};
use config::Config;
use names::{Name, Node, Object};
use rows::View;
use std::alloc::{AllocError, Global};
use std::marker::Model;

/// A view with its configuration. Contracts see the view.
#[derive(Drop)]
pub(crate) struct Facts<'a> {
    alloc: Global,
    view: &'a View<'a>,
    config: &'a Config,
}

impl<'a> Model for Facts<'a> {
    ghost use Rattle.std.specs.Prelude.{◌≡◌};
    ghost use Rattle.meaning.specs.Snap.{Snap};
    ghost use Rattle.meaning.specs.inside.Codes.{coded_snap};

    ghost Value = { Snap };

    ghost coded = { coded_snap };

    ghost view = { λ f. f.view.now };

    ghost invariant = { λ f. f.config.now ≡ f.view.now.config };
}

impl<'a> Facts<'a> {
    pub(crate) fn of(alloc: Global, view: &'a View<'a>) -> Facts<'a>
        ensures { result ≡ view.now }
    {
        Facts {
            alloc,
            view,
            config: view.config(),
        }
    }

    pub(crate) fn config(&self) -> &'a Config
        ensures { result.now ≡ self.now.config }
    {
        self.config
    }

    /// Where a node's relation stands, if it is there.
    pub(crate) fn place_of(&self, node: &Node) -> Option<usize>
        ensures some { IfSome result (StandsAt self.now.config (rel_of node.now)) }
        ensures none { IfNone result (Has self.now.config (rel_of node.now) → ⊥) }
    {
        self.config.place_of(node)
    }

    /// The level of the relation at a place.
    pub(crate) fn level_at(&self, place: usize) -> usize
        requires { place < length self.now.config.relations }
        ensures at { (n : Node) → StandsAt self.now.config (rel_of n) place → IsAt self.now.config n result }
        ensures small { result < 2 ^ 32 }
    {
        self.config.levels()[place]
    }

    /// The object's tuples, where it has at most so many.
    pub(crate) fn few_of(
        &self,
        object: &Object,
        most: usize,
    ) -> Result<Option<Vec<ReadTuple<'a>>>, AllocError>
        ensures { IfOk result (λ o. IfSome o (λ v. v.items ≡ filter (is_at object.now) (set.items self.now.tuples))) }
    {
        match self.view.few_of(self.alloc, object, most)? {
            Some(tuples) => {
                let read = read_tuples(self.alloc, &tuples)?;
                Ok(Some(read))
            }
            None => Ok(None),
        }
    }

    /// The nodes whose members the node's tuples name, as far as the configuration has their relations, unless one of the
    /// tuples names the user.
    pub(crate) fn own_of(
        &self,
        read: Option<&Read<'_>>,
        node: &Node,
        user: &Object,
    ) -> Result<Option<Vec<Node>>, AllocError>
        requires { IsReadOf self.now node.now.object read }
        ensures some { IfOk result (λ o. IfSome o (λ v. AreOwn self.now user.now node.now v.items)) }
        ensures none { IfOk result (λ o. IfNone o (HasOne self.now node.now user.now)) }
    {
        match few_in(read) {
            Some(few) => own_among(self.alloc, few, node, user),
            None => self.own_among_many(node, user),
        }
    }

    /// The same, of an object that has many tuples.
    fn own_among_many(&self, node: &Node, user: &Object) -> Result<Option<Vec<Node>>, AllocError>
        ensures some { IfOk result (λ o. IfSome o (λ v. AreOwn self.now user.now node.now v.items)) }
        ensures none { IfOk result (λ o. IfNone o (HasOne self.now node.now user.now)) }
    {
        if self.view.has(node, user) {
            return Ok(None);
        }
        let sets = self.view.usersets_of(self.alloc, node)?;
        Ok(Some(sets))
    }

    /// The objects that the node's tuples name.
    fn objects_of(&self, read: Option<&Read<'_>>, node: &Node) -> Result<Vec<Object>, AllocError>
        requires { IsReadOf self.now node.now.object read }
        ensures { IfOk result (λ v. (p : Object) → Contains v.items p ↔ HasOne self.now node.now p) }
    {
        match few_in(read) {
            Some(few) => named_objects(self.alloc, few, node),
            None => self.view.objects_of(self.alloc, node),
        }
    }

    /// The nodes of the relation, of the objects that the tupleset's tuples name.
    pub(crate) fn parents_of(
        &self,
        read: Option<&Read<'_>>,
        node: &Node,
        tupleset: &Name,
        relation: &Name,
    ) -> Result<Vec<Node>, AllocError>
        requires { IsReadOf self.now node.now.object read }
        ensures { IfOk result (λ v. AreNodesOf self.now node.now tupleset.now relation.now v.items) }
    {
        let from = node_of(&node.object, tupleset);
        let objects = self.objects_of(read, &from)?;
        let nodes = nodes_of(self.alloc, &objects, relation)?;
        Ok(nodes)
    }
}

/// The nodes of the relation of the objects.
fn nodes_of(alloc: Global, objects: &[Object], relation: &Name) -> Result<Vec<Node>, AllocError>
    ensures { IfOk result (λ v. v.items ≡ map (node_with relation.now) objects.now) }
{
    let mut nodes = Vec::new(alloc);
    for object in objects {
        nodes.push(node_of(object, relation))?;
    }
    Ok(nodes)
}

pub(crate) fn node_of(object: &Object, relation: &Name) -> Node
    ensures { result ≡ node_with relation.now object.now }
{
    Node {
        object: object.again(),
        relation: relation.again(),
    }
}

/// The nodes whose members those of the tuples name that are the node's, unless one of these names the user.
fn own_among(
    alloc: Global,
    tuples: &[ReadTuple<'_>],
    node: &Node,
    user: &Object,
) -> Result<Option<Vec<Node>>, AllocError>
    requires { (t : Tuple) → Contains tuples.now t → t.node.object ≡ node.now.object }
    ensures some { IfOk result (λ o. IfSome o (λ v. (Contains tuples.now (user_tuple node.now user.now) → ⊥)
        × (v.items ≡ nodes_in (filter (is_of node.now) tuples.now)))) }
    ensures none { IfOk result (λ o. IfNone o (Contains tuples.now (user_tuple node.now user.now))) }
{
    let mut nodes = Vec::new(alloc);
    for tuple in tuples {
        if tuple.is_users(node, user) {
            return Ok(None);
        }
        push_node(&mut nodes, tuple, node)?;
    }
    Ok(Some(nodes))
}

/// Adds the node whose members the tuple names, where it is the node's and names those of one.
fn push_node(nodes: &mut Vec<Node>, tuple: &ReadTuple<'_>, node: &Node) -> Result<(), AllocError>
    requires { tuple.now.node.object ≡ node.now.object }
    ensures { OnOk result (nodes.new.items ≡ nodes.old.items ++ nodes_in (filter (is_of node.now) (tuple.now ∷ []))) }
{
    if tuple.is_of(node) {
        if let Some(named) = tuple.named_node() {
            nodes.push(named)?;
        }
    }
    Ok(())
}

/// The objects that those of the tuples name that are the node's.
pub(crate) fn named_objects(
    alloc: Global,
    tuples: &[ReadTuple<'_>],
    node: &Node,
) -> Result<Vec<Object>, AllocError>
    requires { (t : Tuple) → Contains tuples.now t → t.node.object ≡ node.now.object }
    ensures { IfOk result (λ v. v.items ≡ objects_in (filter (is_of node.now) tuples.now)) }
{
    let mut objects = Vec::new(alloc);
    for tuple in tuples {
        push_object(&mut objects, tuple, node)?;
    }
    Ok(objects)
}

/// Adds the object that the tuple names, where it is the node's and names one.
fn push_object(
    objects: &mut Vec<Object>,
    tuple: &ReadTuple<'_>,
    node: &Node,
) -> Result<(), AllocError>
    requires { tuple.now.node.object ≡ node.now.object }
    ensures { OnOk result (objects.new.items ≡ objects.old.items ++ objects_in (filter (is_of node.now) (tuple.now ∷ []))) }
{
    if tuple.is_of(node) {
        if let Some(named) = tuple.named_object() {
            objects.push(named)?;
        }
    }
    Ok(())
}
