//! Subjects, borrowed as texts.
ghost use Rattle.std.specs.Prelude.{◌≡◌, IsTrue, IfSome};
ghost use Rattle.std.specs.Ordering.{eq_by_cmp, nat_cmp};
ghost use Rattle.std.specs.Cmp.Lexicographic.{slice_cmp};
ghost use Rattle.std.specs.Option.{option_map, option_cmp};
ghost use Rattle.names.specs.Names.{is_name, is_id};
ghost use Rattle.names.specs.Order.{subject_cmp};
ghost use Rattle.tuple_keys.specs.Named.{node_in};
ghost use Rattle.tuple_keys.specs.Spelled.{spelled_subject, subject_in, IsSubjectSpelling};

use crate::cuts::{cut, cut_last, object_of};
use names::{Name, Node, Object, Subject};
use std::marker::Model;

/// Whom a tuple names, as the text that is the last part of the tuple's.
#[derive(Drop)]
pub struct SubjectRef<'a> {
    text: &'a str,
}

impl<'a> Model for SubjectRef<'a> {
    ghost use Rattle.names.specs.declared.subject.Subject.{Subject as SubjectValue};
    ghost use Rattle.tuple_keys.specs.Spelled.{subject_in, IsSubjectSpelling};

    ghost Value = { SubjectValue };

    ghost view = { λ s. subject_in s.text.now };

    ghost invariant = { λ s. IsSubjectSpelling s.text.now };
}

impl<'a> SubjectRef<'a> {
    /// The subject that the text spells. It is not read here, nor copied.
    pub fn of(text: &'a str) -> SubjectRef<'a>
        requires { IsSubjectSpelling text.now }
        ensures { result ≡ subject_in text.now }
    {
        SubjectRef { text }
    }

    pub fn as_str(&self) -> &'a str
        ensures text { result.now ≡ spelled_subject self.now }
        ensures read { subject_in result.now ≡ self.now }
        ensures spelling { IsSubjectSpelling result.now }
    {
        self.text
    }

    pub fn namespace(&self) -> &'a str
        ensures text { result.now ≡ self.now.object.namespace }
        ensures is { IsTrue (is_name result.now) }
    {
        let (namespace, _) = cut(self.text);
        namespace
    }

    pub fn id(&self) -> &'a str
        ensures text { result.now ≡ self.now.object.id }
        ensures is { IsTrue (is_id result.now) }
    {
        let (_, from_id) = cut(self.text);
        let (id, _) = cut_last(from_id);
        id
    }

    /// The relation, where the subject is the members of a node.
    pub fn relation(&self) -> Option<&'a str>
        ensures text { option_map (λ relation. relation.now) result ≡ self.now.relation }
        ensures is { IfSome result (λ relation. IsTrue (is_name relation.now)) }
    {
        let (_, from_id) = cut(self.text);
        let (_, relation) = cut_last(from_id);
        relation
    }

    /// Whether it is this subject.
    pub fn is(&self, subject: &Subject) -> bool
        ensures { result ≡ eq_by_cmp subject_cmp self.now subject.now }
    {
        let object = &subject.object;
        if self.namespace() != object.namespace.as_str() {
            return false;
        }
        if self.id() != object.id.as_str() {
            return false;
        }
        is_relation(self.relation(), &subject.relation)
    }

    /// The object, which may be that of a node.
    pub fn object(&self) -> Object
        ensures { result ≡ self.now.object }
    {
        object_of(self.namespace(), self.id())
    }

    /// The node whose members the subject is, unless it is an object.
    pub fn node(&self) -> Option<Node>
        ensures { result ≡ node_in self.now }
    {
        let relation = Name::spelled(self.relation()?);
        let object = self.object();
        Some(Node { object, relation })
    }

    /// The subject, read from its text.
    pub fn subject(&self) -> Subject
        ensures { result ≡ self.now }
    {
        let object = self.object();
        let Some(relation) = self.relation() else {
            return Subject::one(object);
        };
        Subject {
            object,
            relation: Some(Name::spelled(relation)),
        }
    }
}

/// Whether the relation is this, or none where there is none.
fn is_relation(text: Option<&str>, relation: &Option<Name>) -> bool
    ensures { result ≡ eq_by_cmp (option_cmp (slice_cmp nat_cmp)) (option_map (λ t. t.now) text.entry) relation.now }
{
    match (text, relation) {
        (Some(text), Some(relation)) => text == relation.as_str(),
        (None, None) => true,
        _ => false,
    }
}
