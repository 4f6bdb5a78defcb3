//! What was told of nodes follows the events of a commit.
ghost use Rattle.std.specs.Prelude.{◌≡◌, ℕ, Some, IfOk, Contains};
ghost use Rattle.std.specs.List.{slice_get};
ghost use Rattle.names.specs.declared.commit.Commit.TheVariants.{Tuples};
ghost use Rattle.names.specs.declared.commit.Event.{Event as TheEvent};
ghost use Rattle.meaning.specs.History.{after_commit};
ghost use Rattle.meaning.specs.Snap.{Snap};
ghost use Rattle.region.specs.declared.rule.Told.{Told as TheTold};
ghost use Rattle.facts.specs.Numbers.{Grew};
ghost use Rattle.facts.specs.Telling.{IsLater};
ghost use Rattle.hot.specs.Kept.{told_of};
ghost use Rattle.names.specs.declared.commit.EventKind.TheVariants.{Put, Del};
ghost use Rattle.hot.specs.inside.Following.{AreTellable, IsOwnAfter, IsToldAfter, event_after};

use crate::remembering::{forget_namers, forget_one, put_at};
use facts::{Numbers, number_of};
use idsets::{IdSet, Ids};
use names::{Event, EventKind, Object};
use region::{Sets, Told};
use std::alloc::AllocError;
use std::collections::BTreeMap;

/// Has what was told of nodes follow the events: a user that is put into a node or taken out of it is so in what was told of the
/// node, and what else may have changed is forgotten: of a node by a tuple of a userset, and of those that read a node as a
/// tupleset. For want of memory more is forgotten.
pub(crate) fn follow(
    told: &mut BTreeMap<u64, Told>,
    numbers: &mut Numbers,
    sets: &Sets,
    events: &[Event],
)
    ensures nodes { numbers.new.nodes ≡ numbers.old.nodes }
    ensures later { IsLater numbers.old.nodes numbers.new.nodes numbers.old.users numbers.new.users }
    ensures keys { (n : ℕ) (t : TheTold) → told_of told.new n ≡ Some t → (s : TheTold) × (told_of told.old n ≡ Some s) }
    ensures same { (n : ℕ) (t : TheTold) → told_of told.new n ≡ Some t
        → ((e : TheEvent) → Contains events.now e → slice_get numbers.old.nodes n ≡ Some e.tuple.node → ⊥)
        → told_of told.old n ≡ Some t }
    ensures tells { (S : Snap) → AreTellable S numbers.old.nodes numbers.old.users sets.now.back told.old
        → AreTellable (after_commit S (Tuples events.now)) numbers.old.nodes numbers.new.users sets.now.back told.new }
{
    for event in events {
        follow_one(told, numbers, sets, event);
    }
}

fn follow_one(told: &mut BTreeMap<u64, Told>, numbers: &mut Numbers, sets: &Sets, event: &Event)
    ensures nodes { numbers.new.nodes ≡ numbers.old.nodes }
    ensures later { IsLater numbers.old.nodes numbers.new.nodes numbers.old.users numbers.new.users }
    ensures keys { (n : ℕ) (t : TheTold) → told_of told.new n ≡ Some t → (s : TheTold) × (told_of told.old n ≡ Some s) }
    ensures same { (n : ℕ) (t : TheTold) → told_of told.new n ≡ Some t
        → (slice_get numbers.old.nodes n ≡ Some event.now.tuple.node → ⊥) → told_of told.old n ≡ Some t }
    ensures tells { (S : Snap) → AreTellable S numbers.old.nodes numbers.old.users sets.now.back told.old
        → AreTellable (event_after S event.now) numbers.old.nodes numbers.new.users sets.now.back told.new }
{
    let _ = (numbers.nodes.len(), numbers.users.len());
    let Some(id) = numbers.nodes.id_of(&event.tuple.node) else {
        return;
    };
    forget_namers(told, &numbers.nodes, sets, id);
    match &event.tuple.subject.relation {
        None => {
            let user = &event.tuple.subject.object;
            change_own(told, &mut numbers.users, id, event.kind, user);
            let _ = numbers.users.len();
        }
        Some(_) => forget_one(told, id),
    }
}

// Puts a user into whom a node holds by itself, or takes it out.
fn change_own(
    told: &mut BTreeMap<u64, Told>,
    users: &mut Ids<Object>,
    id: u64,
    kind: EventKind,
    user: &Object,
)
    ensures grew { Grew users.old users.new }
    ensures others { (n : ℕ) (t : TheTold) → told_of told.new n ≡ Some t → (n ≡ id → ⊥) → told_of told.old n ≡ Some t }
    ensures own { (t : TheTold) → told_of told.new id ≡ Some t
        → (s : TheTold) × (told_of told.old id ≡ Some s) × IsToldAfter kind users.new user.now s t }
{
    let Some(one) = told.remove(&id) else {
        return;
    };
    if let Ok(one) = with_event(users, one, kind, user) {
        put_at(told, id, one);
    }
}

fn with_event(
    users: &mut Ids<Object>,
    told: Told,
    kind: EventKind,
    user: &Object,
) -> Result<Told, AllocError>
    ensures grew { Grew users.old users.new }
    ensures ok { IfOk result (λ after. IsToldAfter kind users.new user.now told after) }
{
    let Told {
        node,
        level,
        rule,
        own,
    } = told;
    let own = match kind {
        EventKind::Put => with_user(users, own, user)?,
        EventKind::Del => without_user(users, own, user),
    };
    Ok(Told {
        node,
        level,
        rule,
        own,
    })
}

// The users with one more, which gets a number if it has none.
fn with_user(users: &mut Ids<Object>, own: IdSet, user: &Object) -> Result<IdSet, AllocError>
    ensures grew { Grew users.old users.new }
    ensures ok { IfOk result (λ after. IsOwnAfter Put users.new user.now own after) }
{
    let mut own = own;
    let number = number_of(users, user)?;
    own.insert(number)?;
    Ok(own)
}

// The users without one.
fn without_user(users: &Ids<Object>, own: IdSet, user: &Object) -> IdSet
    ensures { IsOwnAfter Del users.now user.now own result }
{
    let mut own = own;
    if let Some(number) = users.id_of(user) {
        own.remove(number);
    }
    own
}
