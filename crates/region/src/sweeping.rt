//! Which kept nodes the roots no longer reach. What is looked at is what may be cut off, and all that it leads to.
ghost use Rattle.std.specs.Prelude.{◌≡◌, ℕ, List, [], true, not, ◌&&◌, ◌||◌, IfOk, OnOk};
ghost use Rattle.std.specs.Bool.{MatchBool};
ghost use Rattle.std.specs.List.{list_any};
ghost use Rattle.least_sets.specs.World.{has};
ghost use Rattle.least_sets.specs.Walks.{Adds};
ghost use Rattle.region.specs.Tables.{arc_in};
ghost use Rattle.region.specs.Sets.{IsWhole};
ghost use Rattle.region.specs.Sweeping.{IsLedTo, AreLoose, is_loose, supports, IsSupported, IsSwept};

use crate::found::Found;
use crate::gathering::does_stay;
use crate::sets::Sets;
use idsets::IdSet;
use std::alloc::{AllocError, Global};

// Whether a node stays that none told of names, and that is no root.
fn is_loose(old: &Sets, touched: &Found, named: &IdSet, roots: &IdSet, node: u64) -> bool
    ensures { result ≡ is_loose old.now.rows touched.now named.now roots.now node }
{
    does_stay(old, touched, node) && !(named.contains(node) || roots.contains(node))
}

// Adds the loose ones of some nodes.
fn add_loose(
    found: &mut Found,
    old: &Sets,
    touched: &Found,
    named: &IdSet,
    roots: &IdSet,
    nodes: &[u64],
) -> Result<(), AllocError>
    ensures { OnOk result (Adds found.old found.new (λ u. has nodes.now u && is_loose old.now.rows touched.now named.now roots.now u)) }
{
    found.is_distinct();
    for node in nodes {
        found.add_if(*node, is_loose(old, touched, named, roots, *node))?;
    }
    Ok(())
}

// Adds the loose ones of those that a node names.
fn add_loose_of(
    found: &mut Found,
    old: &Sets,
    touched: &Found,
    named: &IdSet,
    roots: &IdSet,
    node: u64,
) -> Result<(), AllocError>
    ensures { OnOk result (Adds found.old found.new (λ u. arc_in old.now.rows node u && is_loose old.now.rows touched.now named.now roots.now u)) }
{
    match old.arcs(node) {
        Some(arcs) => add_loose(found, old, touched, named, roots, arcs.as_slice()),
        None => add_loose(found, old, touched, named, roots, &[]),
    }
}

// The same, of those that some nodes name.
fn add_loose_of_each(
    found: &mut Found,
    old: &Sets,
    touched: &Found,
    named: &IdSet,
    roots: &IdSet,
    nodes: &[u64],
) -> Result<(), AllocError>
    ensures { OnOk result ((turned : List ℕ) → AreLoose old.now.rows touched.now named.now roots.now turned [] found.old → AreLoose old.now.rows touched.now named.now roots.now turned nodes.now found.new) }
{
    for node in nodes {
        add_loose_of(found, old, touched, named, roots, *node)?;
    }
    Ok(())
}

// What may be cut off.
fn loose(
    alloc: Global,
    old: &Sets,
    touched: &Found,
    named: &IdSet,
    roots: &IdSet,
    turned: &[u64],
) -> Result<Found, AllocError>
    ensures { IfOk result (λ found. AreLoose old.now.rows touched.now named.now roots.now turned.now touched.now found) }
{
    let mut found = Found::new(alloc);
    add_loose(&mut found, old, touched, named, roots, turned)?;
    add_loose_of_each(&mut found, old, touched, named, roots, touched.as_slice())?;
    Ok(found)
}

// Adds the nodes that a kept node names.
fn add_arcs(found: &mut Found, old: &Sets, node: u64) -> Result<(), AllocError>
    ensures { OnOk result (Adds found.old found.new (arc_in old.now.rows node)) }
{
    found.is_distinct();
    match old.arcs(node) {
        Some(arcs) => found.add_all(arcs.as_slice()),
        None => Ok(()),
    }
}

// All that some nodes lead to.
fn led_to(old: &Sets, starts: Found) -> Result<Found, AllocError>
    ensures { IfOk result (λ found. IsLedTo (arc_in old.now.rows) starts found) }
{
    let mut found = starts;
    found.is_distinct();
    let mut at = 0;
    while at < found.len() {
        let node = found.get(at);
        add_arcs(&mut found, old, node)?;
        at += 1;
    }
    Ok(found)
}

// Whether a node names another, stays, and is no suspect.
fn is_support(old: &Sets, touched: &Found, suspects: &Found, node: u64, other: u64) -> bool
    ensures { result ≡ supports old.now.rows touched.now suspects.now other node }
{
    old.names(node, other) && (does_stay(old, touched, node) && !suspects.contains(node))
}

// Whether one of some nodes does.
fn has_support(old: &Sets, touched: &Found, suspects: &Found, nodes: &[u64], node: u64) -> bool
    ensures { result ≡ list_any (supports old.now.rows touched.now suspects.now node) nodes.now }
{
    for b in nodes {
        if is_support(old, touched, suspects, *b, node) {
            return true;
        }
    }
    false
}

// Whether a suspect is a root, or is named from elsewhere.
fn is_supported(
    old: &Sets,
    touched: &Found,
    named: &IdSet,
    roots: &IdSet,
    suspects: &Found,
    node: u64,
) -> bool
    requires { IsWhole old.now }
    ensures { MatchBool result (IsSupported old.now.rows touched.now named.now roots.now suspects.now node) (IsSupported old.now.rows touched.now named.now roots.now suspects.now node → ⊥) }
{
    if roots.contains(node) || named.contains(node) {
        return true;
    }
    match old.namers(node) {
        Some(namers) => has_support(old, touched, suspects, namers.as_slice(), node),
        None => has_support(old, touched, suspects, &[], node),
    }
}

// Those of some nodes that are supported.
fn supported(
    alloc: Global,
    old: &Sets,
    touched: &Found,
    named: &IdSet,
    roots: &IdSet,
    suspects: &Found,
    nodes: &[u64],
) -> Result<Found, AllocError>
    requires { IsWhole old.now }
    ensures only { IfOk result (λ found. (n : ℕ) → has found n ≡ true → (has nodes.now n ≡ true) × IsSupported old.now.rows touched.now named.now roots.now suspects.now n) }
    ensures all { IfOk result (λ found. (n : ℕ) → has nodes.now n ≡ true → IsSupported old.now.rows touched.now named.now roots.now suspects.now n → has found n ≡ true) }
{
    let mut found = Found::new(alloc);
    for node in nodes {
        found.add_if(
            *node,
            is_supported(old, touched, named, roots, suspects, *node),
        )?;
    }
    Ok(found)
}

// Those of some nodes that are not alive.
fn without(alloc: Global, nodes: &[u64], alive: &Found) -> Result<Found, AllocError>
    ensures { IfOk result (λ gone. (n : ℕ) → has gone n ≡ (has nodes.now n && not (has alive.now n))) }
{
    let mut gone = Found::new(alloc);
    for node in nodes {
        gone.add_if(*node, !alive.contains(*node))?;
    }
    Ok(gone)
}

/// The nodes that stay and that the roots no longer reach, where those told of are reached.
pub(crate) fn unreached(
    alloc: Global,
    old: &Sets,
    touched: &Found,
    named: &IdSet,
    roots: &IdSet,
    turned: &[u64],
) -> Result<Found, AllocError>
    requires { IsWhole old.now }
    ensures { IfOk result (λ gone. IsSwept old.now.rows touched.now named.now roots.now turned.now gone) }
{
    let loose = loose(alloc, old, touched, named, roots, turned)?;
    let suspects = led_to(old, loose)?;
    let starts = supported(
        alloc,
        old,
        touched,
        named,
        roots,
        &suspects,
        suspects.as_slice(),
    )?;
    let alive = led_to(old, starts)?;
    without(alloc, suspects.as_slice(), &alive)
}
