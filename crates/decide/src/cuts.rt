//! The parts of a tuple's text.
ghost use Rattle.std.specs.Prelude.{◌≡◌, IsTrue};
ghost use Rattle.std.specs.Option.{option_map};
ghost use Rattle.names.specs.Names.{is_name, is_id};
ghost use Rattle.tuple_keys.specs.Spelled.{before_space, after_space, last_part};

use names::{Name, Object, ObjectId};

/// What is before the first space, and what is after it.
pub(crate) fn cut(text: &str) -> (&str, &str)
    ensures before { result.0.now ≡ before_space text.now }
    ensures after { result.1.now ≡ after_space text.now }
{
    match text.split_once(' ') {
        Some((before, after)) => (before, after),
        None => (text, ""),
    }
}

/// The same, where there may be no space.
pub(crate) fn cut_last(text: &str) -> (&str, Option<&str>)
    ensures before { result.0.now ≡ before_space text.now }
    ensures after { option_map (λ x. x.now) result.1 ≡ last_part text.now }
{
    match text.split_once(' ') {
        Some((before, after)) => (before, Some(after)),
        None => (text, None),
    }
}

pub(crate) fn object_of(namespace: &str, id: &str) -> Object
    requires namespace { IsTrue (is_name namespace.now) }
    requires id { IsTrue (is_id id.now) }
    ensures { (result.namespace ≡ namespace.now) × (result.id ≡ id.now) }
{
    Object {
        namespace: Name::spelled(namespace),
        id: ObjectId::spelled(id),
    }
}
