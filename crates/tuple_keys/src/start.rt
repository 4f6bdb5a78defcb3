//! What the texts of some tuples begin with.
ghost use Rattle.std.specs.Prelude.{◌≡◌, ◌++◌, false, IsTrue, IfSome, IfNone};
ghost use Rattle.names.specs.Names.{is_name};
ghost use Rattle.names.specs.Spelling.{IsNode, IsObject};
ghost use Rattle.tuple_keys.specs.Spelled.{spelled_objects, spelled_object, spelled_node, spelled_namespace};
ghost use Rattle.tuple_keys.specs.Texts.{begins};

use crate::pushes::{push_name, push_node, push_object};
use arrayvec::ArrayString;
use names::{Name, Node, Object};
use std::marker::Model;

/// What the texts of the tuples of a namespace's objects begin with, or of one object, or of a node, and no
/// others. It takes no memory.
#[derive(Drop)]
pub struct Start {
    text: ArrayString<261>,
}

impl Model for Start {
    ghost use Rattle.std.specs.Prelude.{List, ℕ};

    ghost Value = { List ℕ };

    ghost view = { λ s. s.text.bytes };
}

impl Start {
    /// What the texts of the tuples begin with whose objects are of the namespace.
    pub fn of_objects(namespace: &Name) -> Start
        ensures text { result ≡ spelled_objects namespace.now }
        ensures name { IsTrue (is_name namespace.now) }
    {
        let mut name = ArrayString::new();
        push_name(&mut name, namespace);
        name.push_str(" ");
        Start { text: name }
    }

    /// What the texts of the object's tuples begin with.
    pub fn of_object(object: &Object) -> Start
        ensures text { result ≡ spelled_object object.now }
        ensures is { IsObject object.now }
    {
        let mut text = ArrayString::new();
        push_object(&mut text, object);
        text.push_str(" ");
        Start { text }
    }

    /// What the texts of the node's tuples begin with.
    pub fn of_node(node: &Node) -> Start
        ensures text { result ≡ spelled_node node.now }
        ensures is { IsNode node.now }
    {
        let mut text = ArrayString::new();
        push_node(&mut text, node);
        Start { text }
    }

    /// What the texts of those of the node's tuples begin with whose subjects are of the namespace.
    pub fn of_namespace(node: &Node, namespace: &Name) -> Start
        ensures text { result ≡ spelled_namespace node.now namespace.now }
        ensures is { IsNode node.now }
        ensures name { IsTrue (is_name namespace.now) }
    {
        let mut parts = ArrayString::new();
        push_node(&mut parts, node);
        push_name(&mut parts, namespace);
        parts.push_str(" ");
        Start { text: parts }
    }

    pub fn as_str(&self) -> &str
        ensures { result.now ≡ self.now }
    {
        self.text.as_str()
    }

    /// What follows in a text that begins so.
    pub fn rest_of<'a>(&self, text: &'a str) -> Option<&'a str>
        ensures some { IfSome result (λ rest. text.now ≡ self.now ++ rest.now) }
        ensures none { IfNone result (begins self.now text.now ≡ false) }
    {
        text.strip_prefix(self.as_str())
    }
}
