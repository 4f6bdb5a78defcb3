//! The parts of a text, written one after another where that takes no memory.
ghost use Rattle.std.specs.Prelude.{◌≡◌, ◌≤◌, ◌+◌, ◌++◌, ◌∷◌, IsTrue};
ghost use Rattle.arrayvec.specs.ArrayString.{array_string_len};
ghost use Rattle.names.specs.Names.{is_name, is_id};
ghost use Rattle.names.specs.Spelling.{IsNode, IsObject, IsSubject};
ghost use Rattle.tuple_keys.specs.Spelled.{spelled_node, spelled_subject};

use arrayvec::ArrayString;
use names::{Name, Node, Object, ObjectId, Subject};

pub(crate) fn push_name(text: &mut ArrayString<261>, name: &Name)
    requires { array_string_len text.old + 32 ≤ 261 }
    ensures text { text.new.bytes ≡ text.old.bytes ++ name.now }
    ensures len { array_string_len text.new ≤ array_string_len text.old + 32 }
    ensures is { IsTrue (is_name name.now) }
{
    text.push_str(name.as_str());
}

fn push_id(text: &mut ArrayString<261>, id: &ObjectId)
    requires { array_string_len text.old + 64 ≤ 261 }
    ensures text { text.new.bytes ≡ text.old.bytes ++ id.now }
    ensures len { array_string_len text.new ≤ array_string_len text.old + 64 }
    ensures is { IsTrue (is_id id.now) }
{
    text.push_str(id.as_str());
}

pub(crate) fn push_object(text: &mut ArrayString<261>, object: &Object)
    requires { array_string_len text.old + 97 ≤ 261 }
    ensures text { text.new.bytes ≡ text.old.bytes ++ (object.now.namespace ++ 32 ∷ object.now.id) }
    ensures len { array_string_len text.new ≤ array_string_len text.old + 97 }
    ensures is { IsObject object.now }
{
    push_name(text, &object.namespace);
    text.push_str(" ");
    push_id(text, &object.id);
}

pub(crate) fn push_node(text: &mut ArrayString<261>, node: &Node)
    requires { array_string_len text.old + 131 ≤ 261 }
    ensures text { text.new.bytes ≡ text.old.bytes ++ spelled_node node.now }
    ensures len { array_string_len text.new ≤ array_string_len text.old + 131 }
    ensures is { IsNode node.now }
{
    push_object(text, &node.object);
    text.push_str(" ");
    push_name(text, &node.relation);
    text.push_str(" ");
}

pub(crate) fn push_subject(text: &mut ArrayString<261>, subject: &Subject)
    requires { array_string_len text.old + 130 ≤ 261 }
    ensures text { text.new.bytes ≡ text.old.bytes ++ spelled_subject subject.now }
    ensures is { IsSubject subject.now }
{
    push_object(text, &subject.object);
    if let Some(relation) = &subject.relation {
        text.push_str(" ");
        push_name(text, relation);
    }
}
