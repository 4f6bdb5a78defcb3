//! What a commit makes of the sets of the users that it names.
ghost use Rattle.std.specs.Prelude.{◌≡◌, ◌<◌, ◌≤◌, ◌+◌, ◌++◌, ◌∷◌, ◌&&◌, ◌⊎◌, ◌↔◌, [], ℕ, IsTrue, true, cond, is_some, length, nat_eq, slice_set, vec_len, vec_capacity, Contains, IfOk, OnOk};
ghost use Rattle.std.specs.Ordering.{nat_cmp};
ghost use Rattle.std.specs.BTreeMap.{get, btree_map_len};
ghost use Rattle.names.specs.declared.commit.Event.{Event as EventValue};
ghost use Rattle.meaning.specs.Snap.{Tuples};
ghost use Rattle.meaning.specs.History.{after_event, replay};
ghost use Rattle.idsets.specs.Sets.{has};
ghost use Rattle.direct.specs.Named.{IsDirect};
ghost use Rattle.direct.specs.Before.{set_in, set_at, AreUpTo};
ghost use Rattle.direct.specs.inside.Keeping.{IsMore, HasNumbers, AreRight};
ghost use Rattle.direct.specs.inside.Renewing.{is_put, set_or, IsNumberOf, IsNoted};
ghost use Rattle.direct.specs.declared.memberships.Membership.{Membership as MembershipValue};

use crate::memberships::Memberships;
use crate::noted::EarlierGroups;
use config::Config;
use idsets::IdSet;
use names::{Event, EventKind};
use std::alloc::{AllocError, Global};
use std::collections::BTreeMap;
use std::mem::replace;

/// Gives numbers to the users whom groups name by the events' tuples, and to these groups.
pub(crate) fn number_all(
    alloc: Global,
    config: &Config,
    kept: &mut Memberships,
    events: &[Event],
) -> Result<(), AllocError>
    ensures more { IsMore kept.old kept.new }
    ensures numbers { OnOk result ((e : EventValue) → Contains events.now e → IsDirect config.now e.tuple
        → (m : MembershipValue) × HasNumbers kept.new e.tuple m) }
{
    for event in events {
        kept.number(alloc, config, &event.tuple)?;
    }
    Ok(())
}

/// The sets of the users that the events name, as they are after these. Each is copied once.
pub(crate) fn renewed(
    alloc: Global,
    config: &Config,
    kept: &Memberships,
    events: &[Event],
) -> Result<BTreeMap<u64, IdSet>, AllocError>
    ensures users { IfOk result (λ renewed. (user : ℕ) → is_some (get nat_cmp renewed user) ≡ true
        → (e : EventValue) × Contains events.now e × IsNumberOf config.now kept.now e user) }
    ensures sets { IfOk result (λ renewed. (tuples : Tuples) → AreRight config.now kept.now (set_in kept.now.sets.items) tuples
        → AreRight config.now kept.now (set_or renewed kept.now.sets.items) (replay tuples events.now)) }
{
    let mut renewed = BTreeMap::new(alloc);
    for event in events {
        renew(config, kept, &mut renewed, event)?;
    }
    Ok(renewed)
}

/// Does the event to the set of the user that it names.
fn renew(
    config: &Config,
    kept: &Memberships,
    renewed: &mut BTreeMap<u64, IdSet>,
    event: &Event,
) -> Result<(), AllocError>
    ensures users { (user : ℕ) → is_some (get nat_cmp renewed.new user) ≡ true
        → (is_some (get nat_cmp renewed.old user) ≡ true) ⊎ IsNumberOf config.now kept.now event.now user }
    ensures sets { OnOk result ((tuples : Tuples) → AreRight config.now kept.now (set_or renewed.old kept.now.sets.items) tuples
        → AreRight config.now kept.now (set_or renewed.new kept.now.sets.items) (after_event tuples event.now)) }
{
    match kept.numbers_of(config, &event.tuple) {
        Some(found) => renew_set(&kept.sets, renewed, found.user, found.group, event.kind),
        None => Ok(()),
    }
}

/// Puts a group into the renewed set of a user, or takes it out. Where there is none yet, it is a copy of what is kept.
fn renew_set(
    sets: &[IdSet],
    renewed: &mut BTreeMap<u64, IdSet>,
    user: u64,
    group: u64,
    kind: EventKind,
) -> Result<(), AllocError>
    requires { user < length sets.now }
    ensures users { (other : ℕ) → is_some (get nat_cmp renewed.new other) ≡ true
        → (is_some (get nat_cmp renewed.old other) ≡ true) ⊎ (other ≡ user) }
    ensures sets { OnOk result ((other id : ℕ) → has (set_or renewed.new sets.now other) id
        ≡ cond (nat_eq other user && nat_eq id group) (is_put kind) (has (set_or renewed.old sets.now other) id)) }
{
    if let Some(set) = renewed.get_mut(&user) {
        return change(set, group, kind);
    }
    let mut set = sets[user as usize].again()?;
    change(&mut set, group, kind)?;
    renewed.insert(user, set)?;
    Ok(())
}

/// Puts an id in or takes it out.
fn change(set: &mut IdSet, id: u64, kind: EventKind) -> Result<(), AllocError>
    ensures { OnOk result ((other : ℕ) → has set.new other ≡ cond (nat_eq other id) (is_put kind) (has set.old other)) }
{
    match kind {
        EventKind::Put => {
            set.insert(id)?;
            Ok(())
        }
        EventKind::Del => {
            set.remove(id);
            Ok(())
        }
    }
}

/// Puts the renewed sets in the place of those that are kept, where they differ, and notes these with a revision. It takes
/// no memory.
pub(crate) fn replace_all(
    rev: u64,
    mut renewed: BTreeMap<u64, IdSet>,
    sets: &mut Vec<IdSet>,
    earlier: &mut Vec<EarlierGroups>,
)
    requires room { vec_len earlier.old + btree_map_len renewed ≤ vec_capacity earlier.old }
    requires within { (user : ℕ) → is_some (get nat_cmp renewed user) ≡ true → user < length sets.old.items }
    requires up_to { AreUpTo rev earlier.old.items }
    ensures length { length sets.new.items ≡ length sets.old.items }
    ensures sets { (user : ℕ) → set_in sets.new.items user ≡ set_or renewed sets.old.items user }
    ensures up_to { AreUpTo rev earlier.new.items }
    ensures noted { IsNoted rev renewed sets.old.items sets.new.items earlier.old.items earlier.new.items }
    ensures before { (user at : ℕ) → at < rev → set_at earlier.new.items sets.new.items user at ≡ set_at earlier.old.items sets.old.items user at }
{
    while let Some((user, groups)) = renewed.pop_first() {
        if !are_same(&groups, &sets[user as usize]) {
            replace_one(rev, user, groups, sets, earlier);
        }
    }
}

/// Whether two sets have the same ids.
fn are_same(one: &IdSet, other: &IdSet) -> bool
    ensures { IsTrue result ↔ (one.now ≡ other.now) }
{
    one.as_slice() == other.as_slice()
}

fn replace_one(
    rev: u64,
    user: u64,
    groups: IdSet,
    sets: &mut Vec<IdSet>,
    earlier: &mut Vec<EarlierGroups>,
)
    requires room { vec_len earlier.old < vec_capacity earlier.old }
    requires within { user < length sets.old.items }
    ensures sets { sets.new.items ≡ slice_set sets.old.items user groups }
    ensures earlier { earlier.new.items ≡ earlier.old.items ++ record { rev = rev; user = user; groups = set_in sets.old.items user } ∷ [] }
    ensures len { vec_len earlier.new ≡ vec_len earlier.old + 1 }
    ensures capacity { vec_capacity earlier.old ≤ vec_capacity earlier.new }
{
    let before = replace(&mut sets[user as usize], groups);
    let noted = EarlierGroups {
        rev,
        user,
        groups: before,
    };
    match earlier.push(noted) {
        Ok(()) => (),
        Err(_) => (),
    }
}
