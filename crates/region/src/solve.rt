//! The least members of some nodes, over those that are kept of the others: level by level, and at a level in
//! rounds over the nodes that wait. A node waits again when one that its rule names has gained a user.
ghost use Rattle.std.specs.Prelude.{◌≡◌, ℕ, ◌<◌, ◌≤◌, ◌^◌, Bool, true, false, not, ◌||◌, ◌&&◌, ◌⊎◌, nat_eq, length, Some, IfOk, OnOk, IfSome, IfNone};
ghost use Rattle.std.specs.Bool.{MatchBool};
ghost use Rattle.std.specs.List.{slice_get};
ghost use Rattle.least_sets.specs.World.{Fact, has, arcs_of};
ghost use Rattle.least_sets.specs.Least.{IsLevelled, IsLeastIn};
ghost use Rattle.least_sets.specs.Steps.{IsStepAt, StepsTo};
ghost use Rattle.region.specs.Rules.{fact_of, shape_of};
ghost use Rattle.region.specs.Tables.{holds, over, listed, list_at, ids_or_none};
ghost use Rattle.std.specs.Option.{option_map};
ghost use Rattle.region.specs.Steps.{is_told, Tells, IsSettledAt, IsSettled, Gains, IsWaiting, AreNamed, AreGrouped, IsLook, is_to_come, rooms};

use crate::eval::{members_at, missing, push_named, value};
use crate::rule::Told;
use crate::sets::Sets;
use idsets::{IdSet, union};
use std::alloc::{AllocError, Global};
use std::collections::BTreeMap;

// What is held with what is added to it.
fn joined(alloc: Global, held: Option<&IdSet>, more: IdSet) -> Result<IdSet, AllocError>
    ensures { IfOk result (λ all. (user : ℕ) → has all user ≡ (has (ids_or_none (option_map (λ ids. ids.now) held.entry)) user || has more user)) }
{
    let Some(held) = held else {
        return Ok(more);
    };
    if held.is_empty() {
        return Ok(more);
    }
    union(alloc, held, &more)
}

// Adds members to a node.
fn add_members(
    alloc: Global,
    fresh: &mut BTreeMap<u64, IdSet>,
    kept: &Sets,
    node: u64,
    more: IdSet,
) -> Result<(), AllocError>
    ensures same { OnOk result ((user m : ℕ) → nat_eq node m ≡ false → over fresh.new kept.now.rows user m ≡ over fresh.old kept.now.rows user m) }
    ensures more { OnOk result ((user : ℕ) → over fresh.new kept.now.rows user node ≡ (over fresh.old kept.now.rows user node || has more user)) }
{
    let all = joined(alloc, members_at(fresh, kept, node), more)?;
    fresh.insert(node, all)?;
    Ok(())
}

// A user of the set that the node does not hold.
fn missing_at(found: &IdSet, fresh: &BTreeMap<u64, IdSet>, kept: &Sets, node: u64) -> Option<u64>
    ensures found { IfSome result (λ user. (user < 2 ^ 64) × (has found.now user ≡ true) × (over fresh.now kept.now.rows user node ≡ false)) }
    ensures none { IfNone result ((user : ℕ) → has found.now user ≡ true → over fresh.now kept.now.rows user node ≡ true) }
{
    match members_at(fresh, kept, node) {
        None => found.as_slice().first().copied(),
        Some(before) => missing(found, before),
    }
}

// Adds to a node what its rule gives; whether that was more.
fn settle_node(
    alloc: Global,
    told: &Told,
    fresh: &mut BTreeMap<u64, IdSet>,
    kept: &Sets,
) -> Result<bool, AllocError>
    ensures step { OnOk result (IsStepAt (fact_of told.now) told.now.node (over fresh.old kept.now.rows) (over fresh.new kept.now.rows)) }
    ensures more { IfOk result (λ changed. MatchBool changed (Gains told.now.node (over fresh.old kept.now.rows) (over fresh.new kept.now.rows)) (IsSettledAt told.now (over fresh.old kept.now.rows) × (fresh.new ≡ fresh.old))) }
{
    let found = value(alloc, &told.own, fresh, kept, &told.rule)?;
    match missing_at(found.set(), fresh, kept, told.node) {
        None => Ok(false),
        Some(_user) => {
            let more = found.into_set()?;
            add_members(alloc, fresh, kept, told.node, more)?;
            Ok(true)
        }
    }
}

// Puts an id into the set at a number.
fn push_at(
    alloc: Global,
    table: &mut BTreeMap<u64, IdSet>,
    at: u64,
    id: u64,
) -> Result<(), AllocError>
    ensures same { OnOk result ((a b : ℕ) → nat_eq at a ≡ false → listed table.new a b ≡ listed table.old a b) }
    ensures more { OnOk result ((b : ℕ) → listed table.new at b ≡ (nat_eq b id || listed table.old at b)) }
{
    if let Some(ids) = table.get_mut(&at) {
        ids.insert(id)?;
        return Ok(());
    }
    let mut ids = IdSet::new(alloc);
    ids.insert(id)?;
    table.insert(at, ids)?;
    Ok(())
}

// Puts an id into the sets at some numbers.
fn push_at_each(
    alloc: Global,
    table: &mut BTreeMap<u64, IdSet>,
    places: &[u64],
    id: u64,
) -> Result<(), AllocError>
    ensures { OnOk result ((a b : ℕ) → listed table.new a b ≡ (listed table.old a b || (nat_eq b id && has places.now a))) }
{
    for at in places {
        push_at(alloc, table, *at, id)?;
    }
    Ok(())
}

// From each node the places of the rules that name it.
fn named_from(alloc: Global, told: &[Told]) -> Result<BTreeMap<u64, IdSet>, AllocError>
    ensures { IfOk result (λ back. AreNamed (length told.now) told.now (listed back)) }
{
    let mut back = BTreeMap::new(alloc);
    let mut names = Vec::new(alloc);
    for i in 0..told.len() {
        names.clear();
        push_named(&mut names, &told[i].rule)?;
        push_at_each(alloc, &mut back, &names, i as u64)?;
    }
    Ok(back)
}

// From each level the places of its nodes.
fn by_level(alloc: Global, told: &[Told]) -> Result<BTreeMap<u64, IdSet>, AllocError>
    ensures { IfOk result (λ groups. AreGrouped (length told.now) told.now (listed groups)) }
{
    let mut groups = BTreeMap::new(alloc);
    for i in 0..told.len() {
        push_at(alloc, &mut groups, u64::from(told[i].level), i as u64)?;
    }
    Ok(groups)
}

// Adds some places at the end, but for those that wait and come before a place: they are still looked at.
fn push_places(
    next: &mut Vec<u64>,
    places: &[u64],
    waiting: &IdSet,
    place: u64,
) -> Result<(), AllocError>
    ensures { OnOk result ((i : ℕ) → has next.new.items i ≡ (has next.old.items i || (has places.now i && not (is_to_come waiting.now place i)))) }
{
    for i in places {
        push_place(next, *i, waiting, place)?;
    }
    Ok(())
}

fn push_place(next: &mut Vec<u64>, i: u64, waiting: &IdSet, place: u64) -> Result<(), AllocError>
    ensures { OnOk result ((j : ℕ) → has next.new.items j ≡ (has next.old.items j || (nat_eq j i && not (is_to_come waiting.now place i)))) }
{
    if i < place && waiting.contains(i) {
        return Ok(());
    }
    next.push(i)?;
    Ok(())
}

// The same of the places at a node.
fn push_listed(
    next: &mut Vec<u64>,
    back: &BTreeMap<u64, IdSet>,
    node: u64,
    waiting: &IdSet,
    place: u64,
) -> Result<(), AllocError>
    ensures { OnOk result ((i : ℕ) → has next.new.items i ≡ (has next.old.items i || (listed back.now node i && not (is_to_come waiting.now place i)))) }
{
    match back.get(&node) {
        Some(places) => push_places(next, places.as_slice(), waiting, place),
        None => Ok(()),
    }
}

// Looks at the node of a place, if it is of the level. Where that gained a user, those that name it wait, unless they wait
// already and are still to come.
fn look(
    alloc: Global,
    told: &[Told],
    place: u64,
    level: u64,
    back: &BTreeMap<u64, IdSet>,
    waiting: &IdSet,
    fresh: &mut BTreeMap<u64, IdSet>,
    kept: &Sets,
    next: &mut Vec<u64>,
) -> Result<(), AllocError>
    ensures { OnOk result (IsLook told.now place level (listed back.now) (is_to_come waiting.now place) (over fresh.old kept.now.rows) (has next.old.items) (over fresh.new kept.now.rows) (has next.new.items)) }
{
    let t = match told.get(place as usize) {
        Some(t) => t,
        None => return Ok(()),
    };
    if u64::from(t.level) != level {
        return Ok(());
    }
    if settle_node(alloc, t, fresh, kept)? {
        push_listed(next, back, t.node, waiting, place)?;
    }
    Ok(())
}

// Looks at each place that waits, the last ones first, since a node is found before those that it names; which ones wait then.
fn round(
    alloc: Global,
    told: &[Told],
    level: u64,
    back: &BTreeMap<u64, IdSet>,
    waiting: &IdSet,
    fresh: &mut BTreeMap<u64, IdSet>,
    kept: &Sets,
) -> Result<IdSet, AllocError>
    requires named { AreNamed (length told.now) told.now (listed back.now) }
    requires waits { IsWaiting told.now level (over fresh.old kept.now.rows) (has waiting.now) }
    ensures steps { OnOk result ((world : ℕ → Fact) → Tells world told.now → StepsTo world (is_told told.now) level (over fresh.old kept.now.rows) (over fresh.new kept.now.rows)) }
    ensures waits { IfOk result (λ next. IsWaiting told.now level (over fresh.new kept.now.rows) (has next)) }
    ensures less { IfOk result (λ next. (rooms told.now (over fresh.new kept.now.rows) < rooms told.now (over fresh.old kept.now.rows)) ⊎ ((n : ℕ) → has next n ≡ false)) }
{
    let places = waiting.as_slice();
    let mut next = Vec::new(alloc);
    let mut left = places.len();
    while left > 0 {
        left -= 1;
        look(
            alloc,
            told,
            places[left],
            level,
            back,
            waiting,
            fresh,
            kept,
            &mut next,
        )?;
    }
    Ok(IdSet::of(next))
}

// The places of a level.
fn places_of(alloc: Global, groups: &BTreeMap<u64, IdSet>, level: u64) -> Result<IdSet, AllocError>
    ensures { IfOk result (λ places. places ≡ list_at groups.now level) }
{
    match groups.get(&level) {
        Some(places) => places.again(),
        None => Ok(IdSet::new(alloc)),
    }
}

// Settles the nodes of a level.
fn settle_level(
    alloc: Global,
    told: &[Told],
    level: u64,
    back: &BTreeMap<u64, IdSet>,
    first: IdSet,
    fresh: &mut BTreeMap<u64, IdSet>,
    kept: &Sets,
) -> Result<(), AllocError>
    requires named { AreNamed (length told.now) told.now (listed back.now) }
    requires waits { IsWaiting told.now level (over fresh.old kept.now.rows) (has first) }
    ensures steps { OnOk result ((world : ℕ → Fact) → Tells world told.now → StepsTo world (is_told told.now) level (over fresh.old kept.now.rows) (over fresh.new kept.now.rows)) }
    ensures settled { OnOk result (IsSettled told.now level (over fresh.new kept.now.rows)) }
{
    let mut waiting = first;
    loop {
        let next = round(alloc, told, level, back, &waiting, fresh, kept)?;
        if next.is_empty() {
            return Ok(());
        }
        waiting = next;
    }
}

// More than the level of each node.
fn level_count(told: &[Told]) -> u64
    ensures { (i : ℕ) (t : Told) → slice_get told.now i ≡ Some t → t.level < result }
{
    let mut count = 0;
    for t in told {
        count = count.max(u64::from(t.level) + 1);
    }
    count
}

// No members for each node told of.
fn emptied(alloc: Global, told: &[Told], kept: &Sets) -> Result<BTreeMap<u64, IdSet>, AllocError>
    ensures told { IfOk result (λ fresh. (user n : ℕ) → is_told told.now n ≡ true → over fresh kept.now.rows user n ≡ false) }
    ensures others { IfOk result (λ fresh. (user n : ℕ) → is_told told.now n ≡ false → over fresh kept.now.rows user n ≡ holds kept.now.rows user n) }
{
    let mut fresh = BTreeMap::new(alloc);
    for t in told {
        fresh.insert(t.node, IdSet::new(alloc))?;
    }
    Ok(fresh)
}

/// The members of the nodes told of: the least ones, where the other nodes hold what is kept of them.
pub(crate) fn solve(
    alloc: Global,
    told: &[Told],
    kept: &Sets,
) -> Result<BTreeMap<u64, IdSet>, AllocError>
    ensures least { IfOk result (λ fresh. (world : ℕ → Fact) → IsLevelled world → Tells world told.now → (user : ℕ) → IsLeastIn world (is_told told.now) user (over fresh kept.now.rows user)) }
    ensures others { IfOk result (λ fresh. (world : ℕ → Fact) → IsLevelled world → Tells world told.now → (user n : ℕ) → is_told told.now n ≡ false → over fresh kept.now.rows user n ≡ holds kept.now.rows user n) }
{
    let back = named_from(alloc, told)?;
    let groups = by_level(alloc, told)?;
    let mut fresh = emptied(alloc, told, kept)?;
    for level in 0..level_count(told) {
        let first = places_of(alloc, &groups, level)?;
        settle_level(alloc, told, level, &back, first, &mut fresh, kept)?;
    }
    Ok(fresh)
}
