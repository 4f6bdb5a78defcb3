//! Which kept nodes a change touches. The walk goes backwards from the change, and over nothing else.
ghost use Rattle.std.specs.Prelude.{◌≡◌, ℕ, true, ◌&&◌, IfOk, OnOk};
ghost use Rattle.least_sets.specs.World.{has};
ghost use Rattle.least_sets.specs.Walks.{Adds, IsTouched};
ghost use Rattle.region.specs.Tables.{arc_in};
ghost use Rattle.region.specs.Sets.{IsWhole};

use crate::found::Found;
use crate::sets::Sets;
use std::alloc::{AllocError, Global};

// Adds those of the nodes that name a node.
fn add_those(found: &mut Found, old: &Sets, nodes: &[u64], node: u64) -> Result<(), AllocError>
    ensures { OnOk result (Adds found.old found.new (λ n. has nodes.now n && arc_in old.now.rows n node)) }
{
    found.is_distinct();
    for n in nodes {
        found.add_if(*n, old.names(*n, node))?;
    }
    Ok(())
}

// Adds the kept nodes that name a node.
fn add_namers(found: &mut Found, old: &Sets, node: u64) -> Result<(), AllocError>
    requires { IsWhole old.now }
    ensures { OnOk result (Adds found.old found.new (λ n. arc_in old.now.rows n node)) }
{
    match old.namers(node) {
        Some(namers) => add_those(found, old, namers.as_slice(), node),
        None => add_those(found, old, &[], node),
    }
}

/// The changed nodes, and the kept ones with a walk to one of them.
pub(crate) fn touched(alloc: Global, old: &Sets, changed: &[u64]) -> Result<Found, AllocError>
    requires { IsWhole old.now }
    ensures changed { IfOk result (λ found. (n : ℕ) → has changed.now n ≡ true → has found n ≡ true) }
    ensures before { IfOk result (λ found. (n m : ℕ) → arc_in old.now.rows n m ≡ true → has found m ≡ true → has found n ≡ true) }
    ensures sound { IfOk result (λ found. (n : ℕ) → has found n ≡ true → IsTouched (arc_in old.now.rows) changed.now n) }
{
    let mut found = Found::new(alloc);
    found.add_all(changed)?;
    let mut at = 0;
    while at < found.len() {
        let node = found.get(at);
        add_namers(&mut found, old, node)?;
        at += 1;
    }
    Ok(found)
}
