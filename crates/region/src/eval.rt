//! What a rule gives, and which nodes it names.
ghost use Rattle.std.specs.Prelude.{◌≡◌, ◌<◌, ◌^◌, ℕ, true, false, ◌||◌, ◌&&◌, IfOk, OnOk, IfSome, IfNone};
ghost use Rattle.std.specs.List.{list_any};
ghost use Rattle.std.specs.Option.{option_map};
ghost use Rattle.least_sets.specs.World.{has, gives, arcs_of};
ghost use Rattle.region.specs.Rules.{shape_of};
ghost use Rattle.region.specs.Tables.{over, ids_or_none};
ghost use Rattle.region.specs.Members.{ids_of};

use crate::members::{Members, either};
use crate::rule::Rule;
use crate::sets::Sets;
use idsets::{Galloping, IdSet, exclude, first_missing, intersect};
use std::alloc::{AllocError, Global};
use std::collections::BTreeMap;

/// The members of a node: its new ones, if it has such, and else those that are kept.
pub(crate) fn members_at<'a>(
    fresh: &'a BTreeMap<u64, IdSet>,
    kept: &'a Sets,
    node: u64,
) -> Option<&'a IdSet>
    ensures { (user : ℕ) → has (ids_or_none (option_map (λ ids. ids.now) result)) user ≡ over fresh.now kept.now.rows user node }
{
    match fresh.get(&node) {
        Some(ids) => Some(ids),
        None => kept.members(node),
    }
}

// Adds the members of a node at the end.
fn push_members(
    ids: &mut Vec<u64>,
    fresh: &BTreeMap<u64, IdSet>,
    kept: &Sets,
    node: u64,
) -> Result<(), AllocError>
    ensures { OnOk result ((u : ℕ) → has ids.new.items u ≡ (has ids.old.items u || over fresh.now kept.now.rows u node)) }
{
    if let Some(more) = members_at(fresh, kept, node) {
        ids.extend_from_slice(more.as_slice())?;
    }
    Ok(())
}

// The members of a node, as they are kept.
fn members_of<'a>(
    alloc: Global,
    fresh: &'a BTreeMap<u64, IdSet>,
    kept: &'a Sets,
    node: u64,
) -> Members<'a>
    ensures { (u : ℕ) → has (ids_of result) u ≡ over fresh.now kept.now.rows u node }
{
    match members_at(fresh, kept, node) {
        Some(ids) => Members::Lent(ids),
        None => Members::none(alloc),
    }
}

// The members of any of the nodes.
fn members_of_any<'a>(
    alloc: Global,
    fresh: &'a BTreeMap<u64, IdSet>,
    kept: &'a Sets,
    nodes: &[u64],
) -> Result<Members<'a>, AllocError>
    ensures { IfOk result (λ r. (u : ℕ) → has (ids_of r) u ≡ list_any (over fresh.now kept.now.rows u) nodes.now) }
{
    if nodes.len() == 1 {
        return Ok(members_of(alloc, fresh, kept, nodes[0]));
    }
    if nodes.len() == 2 {
        let first = members_of(alloc, fresh, kept, nodes[0]);
        let second = members_of(alloc, fresh, kept, nodes[1]);
        return either(alloc, first, second);
    }
    let mut ids = Vec::new(alloc);
    for node in nodes {
        push_members(&mut ids, fresh, kept, *node)?;
    }
    Ok(Members::Made(IdSet::of_runs(ids)?))
}

// What both have. The larger one is searched.
fn in_both(alloc: Global, a: &IdSet, b: &IdSet) -> Result<IdSet, AllocError>
    ensures { IfOk result (λ r. (u : ℕ) → has r u ≡ (has a.now u && has b.now u)) }
{
    if a.len() <= b.len() {
        let mut many = Galloping::new(b);
        intersect(alloc, a, &mut many)
    } else {
        let mut many = Galloping::new(a);
        intersect(alloc, b, &mut many)
    }
}

/// Whom the rule gives.
pub(crate) fn value<'a>(
    alloc: Global,
    own: &'a IdSet,
    fresh: &'a BTreeMap<u64, IdSet>,
    kept: &'a Sets,
    rule: &Rule,
) -> Result<Members<'a>, AllocError>
    ensures { IfOk result (λ r. (u : ℕ) → has (ids_of r) u ≡ gives (has own.now u) (over fresh.now kept.now.rows u) (over fresh.now kept.now.rows u) (shape_of rule.now)) }
{
    match rule {
        Rule::Own => Ok(Members::Lent(own)),
        Rule::AnyOf(nodes) => members_of_any(alloc, fresh, kept, nodes),
        Rule::Reads(_) => Ok(Members::none(alloc)),
        Rule::Either(a, b) => {
            let first = value(alloc, own, fresh, kept, a)?;
            let second = value(alloc, own, fresh, kept, b)?;
            either(alloc, first, second)
        }
        Rule::Both(a, b) => {
            let first = value(alloc, own, fresh, kept, a)?;
            let second = value(alloc, own, fresh, kept, b)?;
            Ok(Members::Made(in_both(alloc, first.set(), second.set())?))
        }
        Rule::Except(a, b) => {
            let first = value(alloc, own, fresh, kept, a)?;
            let second = value(alloc, own, fresh, kept, b)?;
            Ok(Members::Made(exclude(alloc, first.set(), second.set())?))
        }
    }
}

/// Adds the nodes that a rule names at the end.
pub(crate) fn push_named(nodes: &mut Vec<u64>, rule: &Rule) -> Result<(), AllocError>
    ensures { OnOk result ((m : ℕ) → has nodes.new.items m ≡ (has nodes.old.items m || has (arcs_of (shape_of rule.now)) m)) }
{
    match rule {
        Rule::Own => Ok(()),
        Rule::AnyOf(more) => nodes.extend_from_slice(more),
        Rule::Reads(more) => nodes.extend_from_slice(more),
        Rule::Either(a, b) => {
            push_named(nodes, a)?;
            push_named(nodes, b)
        }
        Rule::Both(a, b) => {
            push_named(nodes, a)?;
            push_named(nodes, b)
        }
        Rule::Except(a, b) => {
            push_named(nodes, a)?;
            push_named(nodes, b)
        }
    }
}

/// The nodes that a rule names.
pub(crate) fn named(alloc: Global, rule: &Rule) -> Result<IdSet, AllocError>
    ensures { IfOk result (λ r. (m : ℕ) → has r m ≡ has (arcs_of (shape_of rule.now)) m) }
{
    let mut nodes = Vec::new(alloc);
    push_named(&mut nodes, rule)?;
    Ok(IdSet::of(nodes))
}

/// An id of the first that the second lacks.
pub(crate) fn missing(ids: &IdSet, others: &IdSet) -> Option<u64>
    ensures found { IfSome result (λ u. (u < 2 ^ 64) × (has ids.now u ≡ true) × (has others.now u ≡ false)) }
    ensures none { IfNone result ((u : ℕ) → has ids.now u ≡ true → has others.now u ≡ true) }
{
    if ids.as_slice() == others.as_slice() {
        return None;
    }
    let mut others = Galloping::new(others);
    first_missing(ids, &mut others)
}
