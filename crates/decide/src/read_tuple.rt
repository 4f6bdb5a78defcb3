//! Tuples of objects that have few.
ghost use Rattle.std.specs.Prelude.{◌≡◌, ◌↔◌, IfOk, IsTrue};
ghost use Rattle.meaning.specs.Snap.{one};
ghost use Rattle.tuple_keys.specs.Named.{user_tuple, is_of, node_in, object_in};

use crate::cuts::{cut, cut_last, object_of};
use names::{Name, Node, Object};
use std::alloc::{AllocError, Global};
use std::marker::Model;
use tuple_keys::TupleRef;

/// A tuple, with its relation and the parts of whom it names as they stand in its text: an object's few are looked at
/// for each of its relations, and their texts are cut once.
#[derive(Drop)]
pub(crate) struct ReadTuple<'a> {
    tuple: TupleRef<'a>,
    relation: &'a str,
    namespace: &'a str,
    id: &'a str,
    members_of: Option<&'a str>,
}

impl<'a> Model for ReadTuple<'a> {
    ghost use Rattle.std.specs.Prelude.{◌≡◌};
    ghost use Rattle.std.specs.Option.{option_map};
    ghost use Rattle.names.specs.declared.tuple.Tuple.{Tuple as TupleValue};
    ghost use Rattle.meaning.specs.inside.Codes.{coded_tuple};

    ghost Value = { TupleValue };

    ghost coded = { coded_tuple };

    ghost view = { λ t. t.tuple };

    ghost invariant = { λ t. (t.relation.now ≡ t.tuple.node.relation) × (t.namespace.now ≡ t.tuple.subject.object.namespace)
        × (t.id.now ≡ t.tuple.subject.object.id) × (option_map (λ r. r.now) t.members_of ≡ t.tuple.subject.relation) };
}

impl<'a> ReadTuple<'a> {
    fn of(tuple: &TupleRef<'a>) -> ReadTuple<'a>
        ensures { result ≡ tuple.now }
    {
        let text = tuple.as_str();
        let (_, from_id) = cut(text);
        let (_, from_relation) = cut(from_id);
        let (relation, subject) = cut(from_relation);
        let (namespace, from_subject) = cut(subject);
        let (id, members_of) = cut_last(from_subject);
        ReadTuple {
            tuple: TupleRef::of(text),
            relation,
            namespace,
            id,
            members_of,
        }
    }

    /// Whether it is the node's, where it is of the node's object.
    pub(crate) fn is_of(&self, node: &Node) -> bool
        requires { self.now.node.object ≡ node.now.object }
        ensures { result ≡ is_of node.now self.now }
    {
        self.relation == node.relation.as_str()
    }

    /// Whether it is the node's of the user, where it is of the node's object.
    pub(crate) fn is_users(&self, node: &Node, user: &Object) -> bool
        requires { self.now.node.object ≡ node.now.object }
        ensures { IsTrue result ↔ (self.now ≡ user_tuple node.now user.now) }
    {
        if self.is_of(node) {
            return self.is_one(user);
        }
        false
    }

    /// Whether it names the object. Ids differ most often.
    fn is_one(&self, object: &Object) -> bool
        ensures { IsTrue result ↔ (self.now.subject ≡ one object.now) }
    {
        if self.id != object.id.as_str() {
            return false;
        }
        if self.namespace != object.namespace.as_str() {
            return false;
        }
        self.members_of.is_none()
    }

    /// The object that it names, unless it names the members of a node.
    pub(crate) fn named_object(&self) -> Option<Object>
        ensures { result ≡ object_in self.now.subject }
    {
        match self.members_of {
            Some(_) => None,
            None => Some(self.object()),
        }
    }

    /// The node whose members it names, unless it names an object.
    pub(crate) fn named_node(&self) -> Option<Node>
        ensures { result ≡ node_in self.now.subject }
    {
        // A proof knows the parts of a text that is a tuple's.
        let _ = self.tuple.as_str();
        match self.members_of {
            Some(relation) => Some(Node {
                object: self.object(),
                relation: Name::spelled(relation),
            }),
            None => None,
        }
    }

    fn object(&self) -> Object
        ensures { result ≡ self.now.subject.object }
    {
        // A proof knows the parts of a text that is a tuple's.
        let _ = self.tuple.as_str();
        object_of(self.namespace, self.id)
    }
}

/// The tuples, in the same order.
pub(crate) fn read_tuples<'a>(
    alloc: Global,
    tuples: &[TupleRef<'a>],
) -> Result<Vec<ReadTuple<'a>>, AllocError>
    ensures { IfOk result (λ v. v.items ≡ tuples.now) }
{
    let mut read = Vec::with_capacity(alloc, tuples.len())?;
    for tuple in tuples {
        read.push(ReadTuple::of(tuple))?;
    }
    Ok(read)
}
