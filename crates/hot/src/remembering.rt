//! What was told of nodes is remembered as long as it holds.
ghost use Rattle.std.specs.Prelude.{◌≡◌, ◌≢◌, ℕ, true, false, ◌⊎◌, Some};
ghost use Rattle.least_sets.specs.World.{has};
ghost use Rattle.region.specs.declared.rule.Told.{Told as TheTold};
ghost use Rattle.region.specs.Tables.{kept, listed};
ghost use Rattle.hot.specs.Kept.{told_of};
ghost use Rattle.hot.specs.inside.Remembering.{AreApart, IsFresh, IsOfAnother};

use idsets::Ids;
use names::{Node, Object};
use region::{Region, Sets, Told};
use std::collections::BTreeMap;

/// Forgets what was told of some nodes. It takes no memory.
pub(crate) fn forget_each(told: &mut BTreeMap<u64, Told>, nodes: &[u64])
    ensures { (n : ℕ) (t : TheTold) → told_of told.new n ≡ Some t
        → (told_of told.old n ≡ Some t) × (has nodes.now n ≡ false) }
{
    for node in nodes {
        told.remove(node);
    }
}

/// Forgets what was told of a node. It takes no memory.
pub(crate) fn forget_one(told: &mut BTreeMap<u64, Told>, node: u64)
    ensures { (n : ℕ) (t : TheTold) → told_of told.new n ≡ Some t → (told_of told.old n ≡ Some t) × (n ≡ node → ⊥) }
{
    told.remove(&node);
}

/// Remembers what is told of a node, if there is memory.
pub(crate) fn put_at(told: &mut BTreeMap<u64, Told>, node: u64, one: Told)
    ensures { (n : ℕ) (t : TheTold) → told_of told.new n ≡ Some t
        → ((n ≡ node) × (t ≡ one)) ⊎ (told_of told.old n ≡ Some t) }
{
    match told.insert(node, one) {
        Ok(_) => (),
        Err(_) => (),
    }
}

/// Forgets what was told of those that name a node and are of the same object: what is told of a node stands on its own tuples,
/// and on those of its tuplesets, which are relations of its object. It takes no memory.
pub(crate) fn forget_namers(
    told: &mut BTreeMap<u64, Told>,
    nodes: &Ids<Node>,
    sets: &Sets,
    node: u64,
)
    ensures { (n : ℕ) (t : TheTold) → told_of told.new n ≡ Some t
        → (told_of told.old n ≡ Some t) × (listed sets.now.back node n ≡ true → AreApart nodes.now node n) }
{
    let Some(changed) = nodes.name(node) else {
        return;
    };
    if let Some(namers) = sets.back.get(&node) {
        forget_of(told, nodes, &changed.object, namers.as_slice());
    }
}

// Forgets what was told of those of some nodes that are of an object.
fn forget_of(told: &mut BTreeMap<u64, Told>, nodes: &Ids<Node>, object: &Object, ids: &[u64])
    ensures { (n : ℕ) (t : TheTold) → told_of told.new n ≡ Some t
        → (told_of told.old n ≡ Some t) × (has ids.now n ≡ true → IsOfAnother nodes.now object.now n) }
{
    for id in ids {
        forget_if(told, nodes, object, *id);
    }
}

fn forget_if(told: &mut BTreeMap<u64, Told>, nodes: &Ids<Node>, object: &Object, id: u64)
    ensures { (n : ℕ) (t : TheTold) → told_of told.new n ≡ Some t
        → (told_of told.old n ≡ Some t) × (n ≡ id → IsOfAnother nodes.now object.now n) }
{
    if is_of(nodes, object, id) {
        told.remove(&id);
    }
}

// Whether the node with a number is of an object.
fn is_of(nodes: &Ids<Node>, object: &Object, id: u64) -> bool
    ensures { result ≡ false → IsOfAnother nodes.now object.now id }
{
    match nodes.name(id) {
        Some(node) => node.object == *object,
        None => false,
    }
}

/// Remembers what was gathered, and forgets what is dropped and not kept any more. What was remembered of a node that was told
/// of is what was told: it stays. Where there is no memory for it less is remembered.
pub(crate) fn remember(told: &mut BTreeMap<u64, Told>, sets: &Sets, region: Region)
    ensures { (n : ℕ) (t : TheTold) → told_of told.new n ≡ Some t
        → IsFresh region.told.items n t
        ⊎ ((told_of told.old n ≡ Some t) × (has region.dropped.items n ≡ true → kept sets.now.rows n ≡ true)) }
{
    let Region {
        told: fresh,
        dropped,
    } = region;
    forget_lost(told, sets, &dropped);
    put_each(told, fresh);
}

// Forgets what was told of those that are not kept.
fn forget_lost(told: &mut BTreeMap<u64, Told>, sets: &Sets, nodes: &[u64])
    ensures { (n : ℕ) (t : TheTold) → told_of told.new n ≡ Some t
        → (told_of told.old n ≡ Some t) × (has nodes.now n ≡ true → kept sets.now.rows n ≡ true) }
{
    for node in nodes {
        forget_if_lost(told, sets, *node);
    }
}

fn forget_if_lost(told: &mut BTreeMap<u64, Told>, sets: &Sets, node: u64)
    ensures { (n : ℕ) (t : TheTold) → told_of told.new n ≡ Some t
        → (told_of told.old n ≡ Some t) × (n ≡ node → kept sets.now.rows n ≡ true) }
{
    if !sets.is_kept(node) {
        told.remove(&node);
    }
}

fn put_each(told: &mut BTreeMap<u64, Told>, mut fresh: Vec<Told>)
    ensures { (n : ℕ) (t : TheTold) → told_of told.new n ≡ Some t
        → IsFresh fresh.items n t ⊎ (told_of told.old n ≡ Some t) }
{
    while let Some(one) = fresh.pop() {
        put_new(told, one);
    }
}

// Remembers what is told of a node, if nothing is yet.
fn put_new(told: &mut BTreeMap<u64, Told>, one: Told)
    ensures { (n : ℕ) (t : TheTold) → told_of told.new n ≡ Some t
        → ((n ≡ one.node) × (t ≡ one)) ⊎ (told_of told.old n ≡ Some t) }
{
    if !told.contains_key(&one.node) {
        put_at(told, one.node, one);
    }
}
