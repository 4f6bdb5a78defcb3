//! The text of a tuple, made without taking memory.
ghost use Rattle.std.specs.Prelude.{◌≡◌};
ghost use Rattle.tuple_keys.specs.Named.{user_tuple};

use crate::pushes::{push_node, push_object, push_subject};
use crate::tuple_ref::TupleRef;
use arrayvec::ArrayString;
use names::{Node, Object, Tuple};
use std::marker::Model;

/// A tuple, as a text that takes no memory: the longest names and ids fill its room.
#[derive(Drop)]
pub struct Scratch {
    text: ArrayString<261>,
}

impl Model for Scratch {
    ghost use Rattle.names.specs.declared.tuple.Tuple.{Tuple as TupleValue};
    ghost use Rattle.meaning.specs.inside.Codes.{coded_tuple};
    ghost use Rattle.tuple_keys.specs.Spelled.{tuple_of, IsSpelling};

    ghost Value = { TupleValue };

    ghost coded = { coded_tuple };

    ghost view = { λ s. tuple_of s.text.bytes };

    ghost invariant = { λ s. IsSpelling s.text.bytes };
}

impl Scratch {
    pub fn of(tuple: &Tuple) -> Scratch
        ensures { result ≡ tuple.now }
    {
        let mut text = ArrayString::new();
        push_node(&mut text, &tuple.node);
        push_subject(&mut text, &tuple.subject);
        Scratch { text }
    }

    /// The tuple of the node that names the user.
    pub fn of_user(node: &Node, user: &Object) -> Scratch
        ensures { result ≡ user_tuple node.now user.now }
    {
        let mut parts = ArrayString::new();
        push_node(&mut parts, node);
        push_object(&mut parts, user);
        Scratch { text: parts }
    }

    pub fn tuple_ref(&self) -> TupleRef<'_>
        ensures { result ≡ self.now }
    {
        TupleRef::of(self.text.as_str())
    }
}
