//! The direct groups of each user, as an index keeps them.

ghost use Rattle.std.specs.Prelude.{◌≡◌, ℕ, ◌<◌, ◌↔◌, ◌⊎◌, ◌&&◌, [], not, Any, IfOk, OnOk, Contains, is_some, length, map};
ghost use Rattle.names.specs.declared.object.Object.{Object};
ghost use Rattle.meaning.specs.Config.{rel_of};
ghost use Rattle.config.specs.Valid.{is_indexed};
ghost use Rattle.idsets.specs.Naming.{AreDistinct};
ghost use Rattle.leopard.specs.inside.Building.{HasId, Tells, NamesOne, AreAscending, PutsId};

use crate::refusing::is_group;
use crate::sorted::Sorted;
use config::Config;
use idsets::IdSet;
use names::{Node, Object, Tuple};
use std::alloc::{AllocError, Global};

/// Whether the tuple is of a group and names a user.
fn names_user(config: &Config, tuple: &Tuple) -> bool
    ensures { result ≡ (is_indexed config.now (rel_of tuple.now.node) && not (is_some tuple.now.subject.relation)) }
{
    is_group(config, &tuple.node) && tuple.subject.relation.is_none()
}

/// The users that tuples of groups name.
pub(crate) fn users_of(
    alloc: Global,
    config: &Config,
    tuples: &[Tuple],
) -> Result<Sorted<Object>, AllocError>
    ensures { IfOk result (λ users. (u : Object) → Contains users u ↔ Any (NamesOne config.now u) tuples.now) }
{
    let mut users = Vec::new(alloc);
    for tuple in tuples {
        if names_user(config, tuple) {
            users.push(tuple.subject.object.again())?;
        }
    }
    Ok(Sorted::of(users))
}

/// A set that has nothing for each user.
fn empty_sets(alloc: Global, users: &[Object]) -> Result<Vec<IdSet>, AllocError>
    ensures { IfOk result (λ sets. sets.items ≡ map (λ _. []) users.now) }
{
    users.iter().map(|_| IdSet::new(alloc)).collect(alloc)
}

/// The ids of the groups that name each user, at the user's place.
pub(crate) fn direct_of(
    alloc: Global,
    config: &Config,
    tuples: &[Tuple],
    groups: &Sorted<Node>,
    users: &Sorted<Object>,
) -> Result<Vec<IdSet>, AllocError>
    requires distinct { AreDistinct groups.now }
    requires listed { (u : Object) → Any (NamesOne config.now u) tuples.now → Contains users.now u }
    ensures even { IfOk result (λ sets. length sets.items ≡ length users.now) }
    ensures ascending { IfOk result (λ sets. AreAscending sets.items) }
    ensures told { IfOk result (λ sets. (u : Object) (id : ℕ) → HasId users.now sets.items u id ↔ Any (Tells config.now groups.now u id) tuples.now) }
{
    let mut sets = empty_sets(alloc, users.as_slice())?;
    for tuple in tuples {
        note(config, groups, users, &mut sets, tuple)?;
    }
    Ok(sets)
}

/// Notes the tuple, if it is of a group that has an id and names a user.
fn note(
    config: &Config,
    groups: &Sorted<Node>,
    users: &Sorted<Object>,
    sets: &mut Vec<IdSet>,
    tuple: &Tuple,
) -> Result<(), AllocError>
    requires distinct { AreDistinct groups.now }
    requires even { length sets.old.items ≡ length users.now }
    requires ascending { AreAscending sets.old.items }
    requires listed { (u : Object) → NamesOne config.now u tuple.now → Contains users.now u }
    ensures even { OnOk result (length sets.new.items ≡ length users.now) }
    ensures ascending { OnOk result (AreAscending sets.new.items) }
    ensures gains { OnOk result ((u : Object) (id : ℕ) → HasId users.now sets.new.items u id
        ↔ (HasId users.now sets.old.items u id ⊎ Tells config.now groups.now u id tuple.now)) }
{
    if !names_user(config, tuple) {
        return Ok(());
    }
    let Some(group) = groups.id_of(&tuple.node) else {
        return Ok(());
    };
    let Some(at) = users.id_of(&tuple.subject.object) else {
        return Ok(());
    };
    put_id(sets, at as usize, group)?;
    Ok(())
}

/// Puts an id into the set at a place.
fn put_id(sets: &mut Vec<IdSet>, at: usize, id: u64) -> Result<(), AllocError>
    requires within { at < length sets.old.items }
    requires ascending { AreAscending sets.old.items }
    ensures even { OnOk result (length sets.new.items ≡ length sets.old.items) }
    ensures ascending { OnOk result (AreAscending sets.new.items) }
    ensures gains { OnOk result (PutsId at id sets.old.items sets.new.items) }
{
    let set = &mut sets[at];
    set.insert(id)?;
    Ok(())
}
