//! Putting what was told of in the place of what was kept. Room is taken before anything changes.
ghost use Rattle.std.specs.Prelude.{◌≡◌, ℕ, true, false, not, ◌||◌, ◌&&◌, nat_eq, None, Some, is_some, cond, IfOk, OnOk};
ghost use Rattle.std.specs.Ordering.{nat_cmp};
ghost use Rattle.std.specs.BTreeMap.{get};
ghost use Rattle.least_sets.specs.World.{Fact, has, arcs_of};
ghost use Rattle.region.specs.Rules.{shape_of};
ghost use Rattle.region.specs.Tables.{row_of, holds, over, listed};
ghost use Rattle.region.specs.Steps.{is_told, Tells};
ghost use Rattle.region.specs.Filled.{AreReady, names_in, row_or};

use crate::eval::named;
use crate::rule::Told;
use crate::sets::{Row, Sets};
use idsets::IdSet;
use std::alloc::{AllocError, Global};
use std::collections::BTreeMap;

// What is to be kept of a node: its members are taken, not copied.
fn row_for(
    alloc: Global,
    told: &Told,
    fresh: &mut BTreeMap<u64, IdSet>,
    kept: &Sets,
) -> Result<Row, AllocError>
    ensures arcs { IfOk result (λ row. (m : ℕ) → has row.arcs m ≡ has (arcs_of (shape_of told.now.rule)) m) }
    ensures members { IfOk result (λ row. (user : ℕ) → has row.members user ≡ over fresh.old kept.now.rows user told.now.node) }
    ensures others { (user n : ℕ) → nat_eq told.now.node n ≡ false → over fresh.new kept.now.rows user n ≡ over fresh.old kept.now.rows user n }
{
    let arcs = named(alloc, &told.rule)?;
    let members = match fresh.remove(&told.node) {
        Some(ids) => ids,
        None => again_of(alloc, kept, told.node)?,
    };
    Ok(Row { arcs, members })
}

// A copy of what is kept of a node's members.
fn again_of(alloc: Global, kept: &Sets, node: u64) -> Result<IdSet, AllocError>
    ensures { IfOk result (λ ids. (user : ℕ) → has ids user ≡ holds kept.now.rows user node) }
{
    match kept.members(node) {
        Some(ids) => ids.again(),
        None => Ok(IdSet::new(alloc)),
    }
}

fn put_ready(ready: &mut BTreeMap<u64, Row>, node: u64, row: Row) -> Result<(), AllocError>
    ensures { OnOk result ((n : ℕ) → get nat_cmp ready.new n ≡ cond (nat_eq n node) (Some row) (get nat_cmp ready.old n)) }
{
    ready.insert(node, row)?;
    Ok(())
}

/// What is to be kept of the nodes told of.
pub(crate) fn ready_for(
    alloc: Global,
    told: &[Told],
    mut fresh: BTreeMap<u64, IdSet>,
    kept: &Sets,
) -> Result<BTreeMap<u64, Row>, AllocError>
    ensures nodes { IfOk result (λ ready. (n : ℕ) → is_some (get nat_cmp ready n) ≡ is_told told.now n) }
    ensures rows { IfOk result (λ ready. (world : ℕ → Fact) → Tells world told.now → AreReady world (over fresh kept.now.rows) ready) }
{
    let mut ready = BTreeMap::new(alloc);
    for t in told {
        if !ready.contains_key(&t.node) {
            let row = row_for(alloc, t, &mut fresh, kept)?;
            put_ready(&mut ready, t.node, row)?;
        }
    }
    Ok(ready)
}

// Puts an id into the set at a number.
fn add_back(
    alloc: Global,
    back: &mut BTreeMap<u64, IdSet>,
    at: u64,
    id: u64,
) -> Result<(), AllocError>
    ensures grows { (a b : ℕ) → listed back.old a b ≡ true → listed back.new a b ≡ true }
    ensures there { OnOk result (listed back.new at id ≡ true) }
{
    if let Some(ids) = back.get_mut(&at) {
        ids.insert(id)?;
        return Ok(());
    }
    let mut ids = IdSet::new(alloc);
    ids.insert(id)?;
    back.insert(at, ids)?;
    Ok(())
}

// Leads back from the ends of a node's arcs.
fn add_back_each(
    alloc: Global,
    back: &mut BTreeMap<u64, IdSet>,
    ends: &[u64],
    node: u64,
) -> Result<(), AllocError>
    ensures grows { (a b : ℕ) → listed back.old a b ≡ true → listed back.new a b ≡ true }
    ensures there { OnOk result ((m : ℕ) → has ends.now m ≡ true → listed back.new m node ≡ true) }
{
    for end in ends {
        add_back(alloc, back, *end, node)?;
    }
    Ok(())
}

// The same, of a node that is ready.
fn add_back_of(
    alloc: Global,
    back: &mut BTreeMap<u64, IdSet>,
    ready: &BTreeMap<u64, Row>,
    node: u64,
) -> Result<(), AllocError>
    ensures grows { (a b : ℕ) → listed back.old a b ≡ true → listed back.new a b ≡ true }
    ensures there { OnOk result ((m : ℕ) → names_in ready.now node m ≡ true → listed back.new m node ≡ true) }
{
    match ready.get(&node) {
        Some(row) => add_back_each(alloc, back, row.arcs.as_slice(), node),
        None => Ok(()),
    }
}

/// The same, of all nodes told of.
pub(crate) fn add_back_all(
    alloc: Global,
    back: &mut BTreeMap<u64, IdSet>,
    ready: &BTreeMap<u64, Row>,
    told: &[Told],
) -> Result<(), AllocError>
    ensures grows { (a b : ℕ) → listed back.old a b ≡ true → listed back.new a b ≡ true }
    ensures there { OnOk result ((n m : ℕ) → is_told told.now n ≡ true → names_in ready.now n m ≡ true → listed back.new m n ≡ true) }
{
    for t in told {
        add_back_of(alloc, back, ready, t.node)?;
    }
    Ok(())
}

// Takes a place for a node.
fn take_place(rows: &mut BTreeMap<u64, Option<Row>>, node: u64) -> Result<(), AllocError>
    ensures same { (n : ℕ) → row_of rows.new n ≡ row_of rows.old n }
    ensures keys { (n : ℕ) → is_some (get nat_cmp rows.old n) ≡ true → is_some (get nat_cmp rows.new n) ≡ true }
    ensures key { OnOk result (is_some (get nat_cmp rows.new node) ≡ true) }
{
    if rows.contains_key(&node) {
        return Ok(());
    }
    rows.insert(node, None)?;
    Ok(())
}

/// Takes a place for each node told of. What is kept stays the same.
pub(crate) fn take_places(
    rows: &mut BTreeMap<u64, Option<Row>>,
    told: &[Told],
) -> Result<(), AllocError>
    ensures same { (n : ℕ) → row_of rows.new n ≡ row_of rows.old n }
    ensures keys { OnOk result ((n : ℕ) → is_told told.now n ≡ true → is_some (get nat_cmp rows.new n) ≡ true) }
{
    for t in told {
        take_place(rows, t.node)?;
    }
    Ok(())
}

// Puts a row into a place that is there, which takes no memory.
fn put_row(rows: &mut BTreeMap<u64, Option<Row>>, node: u64, row: Option<Row>)
    requires { is_some (get nat_cmp rows.old node) ≡ true }
    ensures row { (n : ℕ) → row_of rows.new n ≡ cond (nat_eq n node) row (row_of rows.old n) }
    ensures keys { (n : ℕ) → is_some (get nat_cmp rows.new n) ≡ is_some (get nat_cmp rows.old n) }
{
    match rows.insert(node, row) {
        Ok(_) => (),
        Err(_) => (),
    }
}

// Drops what is kept of a node, unless a row is ready for it: that one takes its place.
fn drop_row(rows: &mut BTreeMap<u64, Option<Row>>, node: u64, ready: &BTreeMap<u64, Row>)
    ensures row { (n : ℕ) → row_of rows.new n ≡ cond (nat_eq n node && not (is_some (get nat_cmp ready.now n))) None (row_of rows.old n) }
    ensures keys { (n : ℕ) → is_some (get nat_cmp ready.now n) ≡ true → is_some (get nat_cmp rows.new n) ≡ is_some (get nat_cmp rows.old n) }
{
    if !ready.contains_key(&node) {
        rows.remove(&node);
    }
}

/// Drops what is kept of those of some nodes for which no row is ready.
pub(crate) fn drop_rows(
    rows: &mut BTreeMap<u64, Option<Row>>,
    nodes: &[u64],
    ready: &BTreeMap<u64, Row>,
)
    ensures row { (n : ℕ) → row_of rows.new n ≡ cond (has nodes.now n && not (is_some (get nat_cmp ready.now n))) None (row_of rows.old n) }
    ensures keys { (n : ℕ) → is_some (get nat_cmp ready.now n) ≡ true → is_some (get nat_cmp rows.new n) ≡ is_some (get nat_cmp rows.old n) }
{
    for node in nodes {
        drop_row(rows, *node, ready);
    }
}

/// Puts rows into places that are there.
#[tactic(auto, using(crate::proofs::AfterChange::put_one, crate::proofs::AfterChange::keys_one))]
pub(crate) fn put_rows(rows: &mut BTreeMap<u64, Option<Row>>, mut ready: BTreeMap<u64, Row>)
    requires { (n : ℕ) → is_some (get nat_cmp ready n) ≡ true → is_some (get nat_cmp rows.old n) ≡ true }
    ensures { (n : ℕ) → row_of rows.new n ≡ row_or (get nat_cmp ready n) (row_of rows.old n) }
{
    while let Some((node, row)) = ready.pop_first() {
        put_row(rows, node, Some(row));
    }
}
