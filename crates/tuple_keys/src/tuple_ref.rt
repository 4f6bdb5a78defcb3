//! Tuples, borrowed as texts.
ghost use Rattle.std.specs.Prelude.{◌≡◌, IsTrue};
ghost use Rattle.std.specs.Ordering.{is_lt};
ghost use Rattle.names.specs.Names.{is_name};
ghost use Rattle.names.specs.Order.{tuple_cmp};
ghost use Rattle.tuple_keys.specs.Spelled.{spelled, tuple_of, IsSpelling};

use crate::cuts::{cut, object_of};
use crate::subject_ref::SubjectRef;
use names::{Name, Node, Tuple};
use std::marker::Model;

/// A tuple, as its text.
#[derive(Drop)]
pub struct TupleRef<'a> {
    text: &'a str,
}

impl<'a> Model for TupleRef<'a> {
    ghost use Rattle.names.specs.declared.tuple.Tuple.{Tuple as TupleValue};
    ghost use Rattle.meaning.specs.inside.Codes.{coded_tuple};
    ghost use Rattle.tuple_keys.specs.Spelled.{tuple_of, IsSpelling};

    ghost Value = { TupleValue };

    ghost coded = { coded_tuple };

    ghost view = { λ s. tuple_of s.text.now };

    ghost invariant = { λ s. IsSpelling s.text.now };
}

impl<'a> TupleRef<'a> {
    /// The tuple that the text spells. It is not read here, nor copied.
    pub fn of(text: &'a str) -> TupleRef<'a>
        requires { IsSpelling text.now }
        ensures { result ≡ tuple_of text.now }
    {
        TupleRef { text }
    }

    pub fn as_str(&self) -> &'a str
        ensures text { result.now ≡ spelled self.now }
        ensures read { tuple_of result.now ≡ self.now }
        ensures spelling { IsSpelling result.now }
    {
        self.text
    }

    /// The tuple, read from its text.
    pub fn tuple(&self) -> Tuple
        ensures { result ≡ self.now }
    {
        let (namespace, from_id) = cut(self.text);
        let (id, from_relation) = cut(from_id);
        let (relation, _) = cut(from_relation);
        let object = object_of(namespace, id);
        let relation = Name::spelled(relation);
        let node = Node { object, relation };
        let subject = self.subject().subject();
        Tuple { node, subject }
    }

    /// Whether it comes later than another, in the order of tuples.
    pub fn is_later(&self, other: &TupleRef<'_>) -> bool
        ensures { result ≡ is_lt (tuple_cmp other.now self.now) }
    {
        other.text < self.text
    }

    /// The relation of the tuple's node.
    pub fn relation(&self) -> &'a str
        ensures text { result.now ≡ self.now.node.relation }
        ensures is { IsTrue (is_name result.now) }
    {
        let (_, from_id) = cut(self.text);
        let (_, from_relation) = cut(from_id);
        let (name, _) = cut(from_relation);
        name
    }

    /// Whom the tuple names.
    pub fn subject(&self) -> SubjectRef<'a>
        ensures { result ≡ self.now.subject }
    {
        let (_, from_id) = cut(self.text);
        let (_, from_relation) = cut(from_id);
        let (_, subject) = cut(from_relation);
        SubjectRef::of(subject)
    }
}
