//! How many bytes texts have.
ghost use Rattle.std.specs.Prelude.{◌≡◌, ◌≤◌, ◌+◌, length};
ghost use Rattle.tuple_keys.specs.Spelled.{spelled};

use names::{Name, Object, ObjectId, Tuple};

/// The bytes of the tuple's text.
pub(crate) fn tuple_len(tuple: &Tuple) -> usize
    ensures len { result ≡ length (spelled tuple.now) }
    ensures most { result ≤ 261 }
{
    let node = &tuple.node;
    let subject = &tuple.subject;
    let relation = match &subject.relation {
        Some(relation) => 1 + name_len(relation),
        None => 0,
    };
    object_len(&node.object)
        + 1
        + name_len(&node.relation)
        + 1
        + object_len(&subject.object)
        + relation
}

fn object_len(object: &Object) -> usize
    ensures len { result ≡ length object.now.namespace + 1 + length object.now.id }
    ensures most { result ≤ 97 }
{
    name_len(&object.namespace) + 1 + id_len(&object.id)
}

fn name_len(name: &Name) -> usize
    ensures len { result ≡ length name.now }
    ensures most { result ≤ 32 }
{
    name.as_str().len()
}

fn id_len(id: &ObjectId) -> usize
    ensures len { result ≡ length id.now }
    ensures most { result ≤ 64 }
{
    id.as_str().len()
}
