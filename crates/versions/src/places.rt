//! The versions at one text.
ghost use Rattle.std.specs.Prelude.{◌≡◌, [], true, IfOk, OnOk, OnErr};
ghost use Rattle.std.specs.Option.{option_map};
ghost use Rattle.versions.specs.Versions.{items_or, versions_at, is_there, is_based, with_version, drop_last, after_settle, base_versions};
ghost use Rattle.versions.specs.Texts.{entries_of, AreSpelled, TextsStay, TextsChangeAt};

use crate::version::{Version, Versions};
use names::Tuple;
use shelf::Shelf;
use std::alloc::{AllocError, Global};
use tuple_keys::{Scratch, TupleRef};

/// The tuples that have versions, as their texts, each with its versions.
pub(crate) type Texts = Shelf<Versions>;

pub(crate) fn versions_of<'a>(map: &'a Texts, key: &TupleRef<'_>) -> Option<&'a Versions>
    requires { AreSpelled map.now }
    ensures { items_or (option_map (λ vs. vs.now) result) ≡ versions_at (entries_of map.now) key.now }
{
    map.get(key.as_str())
}

/// Gives the tuple a version more. Says whether its last version before was a put. The tuple is looked up once.
pub(crate) fn push_version(
    alloc: Global,
    map: &mut Texts,
    key: &TupleRef<'_>,
    version: Version,
) -> Result<bool, AllocError>
    requires { AreSpelled map.old }
    ensures spelled { AreSpelled map.new }
    ensures ok { OnOk result (TextsChangeAt key.now (with_version version) map.old map.new) }
    ensures was_there { IfOk result (λ was_there. was_there ≡ is_there (versions_at (entries_of map.old) key.now)) }
    ensures err { OnErr result (TextsStay map.old map.new) }
{
    let versions = map.get_or_insert(key.as_str(), Versions::none(alloc))?;
    let was_there = versions.is_there();
    match versions.add(version) {
        Ok(()) => Ok(was_there),
        Err(e) => Err(e),
    }
}

pub(crate) fn pop_version(map: &mut Texts, key: &TupleRef<'_>)
    requires { AreSpelled map.old }
    ensures spelled { AreSpelled map.new }
    ensures versions { TextsChangeAt key.now drop_last map.old map.new }
{
    if let Some(versions) = map.get_mut(key.as_str()) {
        versions.drop_newest();
        if versions.is_empty() {
            forget(map, key);
        }
    }
}

pub(crate) fn settle_version(map: &mut Texts, key: &TupleRef<'_>) -> bool
    requires { AreSpelled map.old }
    ensures spelled { AreSpelled map.new }
    ensures versions { TextsChangeAt key.now after_settle map.old map.new }
    ensures was_based { result ≡ is_based (versions_at (entries_of map.old) key.now) }
{
    let Some(versions) = map.get_mut(key.as_str()) else {
        return false;
    };
    let was_based = versions.settle();
    if versions.is_empty() {
        forget(map, key);
    }
    was_based
}

/// Takes a tuple out that has no versions, so that it takes no memory.
fn forget(map: &mut Texts, key: &TupleRef<'_>)
    requires spelled { AreSpelled map.old }
    requires empty { versions_at (entries_of map.old) key.now ≡ [] }
    ensures spelled { AreSpelled map.new }
    ensures same { TextsStay map.old map.new }
{
    map.remove(key.as_str());
}

/// Puts the tuple into what the floor holds.
pub(crate) fn put_base(alloc: Global, map: &mut Texts, tuple: &Tuple) -> Result<(), AllocError>
    requires { AreSpelled map.old }
    ensures spelled { AreSpelled map.new }
    ensures ok { OnOk result (TextsChangeAt tuple.now (λ _. base_versions true) map.old map.new) }
{
    let scratch = Scratch::of(tuple);
    let key = scratch.tuple_ref();
    let version = Version { rev: 0, put: true };
    let versions = Versions::one(alloc, version);
    map.insert(key.as_str(), versions)?;
    Ok(())
}
