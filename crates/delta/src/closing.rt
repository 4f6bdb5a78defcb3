//! Where arcs lead.
ghost use Rattle.std.specs.Prelude.{ℕ, ◌++◌, ◌∷◌, [], ◌↔◌, List, IfOk, OnOk, IsTrue};
ghost use Rattle.graphs.specs.Groups.{GroupWalk};
ghost use Rattle.leopard.specs.Index.{bare};
ghost use Rattle.leopard.specs.inside.Asking.{AreAll};
ghost use Rattle.delta.specs.inside.Named.{AreNamed};

use crate::has_arcs::HasArcs;
use crate::telling::{GroupFacts, only};
use config::Config;
use idsets::Ids;
use least_sets::groups_are_walks;
use names::Node;
use region::{Sets, refresh};
use std::alloc::{AllocError, Global};
use std::hash::RandomState;

/// The nodes to which walks of arcs lead from the node, itself among them. Each is asked for once. Names are hashed
/// under this key.
pub(crate) fn led_to<A: HasArcs>(
    alloc: Global,
    keys: RandomState,
    arcs: &A,
    from: &Node,
) -> Result<Vec<Node>, AllocError>
    ensures { IfOk result (λ v. AreAll (GroupWalk (A.snap arcs.now) from.now) v.items) }
{
    groups_are_walks();
    let mut nodes = Ids::new(alloc, keys);
    let start = nodes.see(from.clone()?)?;
    let roots = only(alloc, start)?;
    let mut facts = GroupFacts {
        arcs,
        nodes,
        asked: Vec::new(alloc),
    };
    let mut sets = Sets::new(alloc);
    refresh(alloc, &mut sets, &roots, &[start], &[], &mut facts)?;
    match sets.members(start) {
        Some(ids) => named(alloc, &facts.nodes, ids.as_slice()),
        // Never taken: a root is kept.
        None => Err(AllocError),
    }
}

/// Whether computed usersets alone lead from one node to another.
pub(crate) fn computes(
    alloc: Global,
    keys: RandomState,
    config: &Config,
    from: &Node,
    to: &Node,
) -> Result<bool, AllocError>
    ensures { IfOk result (λ leads. IsTrue leads ↔ GroupWalk (bare config.now) from.now to.now) }
{
    let ends = led_to(alloc, keys, config, from)?;
    let leads = ends.contains(to);
    Ok(leads)
}

/// The nodes with some numbers.
pub(crate) fn named(alloc: Global, nodes: &Ids<Node>, ids: &[u64]) -> Result<Vec<Node>, AllocError>
    ensures { IfOk result (λ v. AreNamed nodes.now ids.now v.items) }
{
    let mut found = Vec::new(alloc);
    for id in ids {
        push_named(nodes, &mut found, *id)?;
    }
    Ok(found)
}

/// Adds the node with a number, where there is one.
fn push_named(nodes: &Ids<Node>, found: &mut Vec<Node>, id: u64) -> Result<(), AllocError>
    ensures { OnOk result ((ids : List ℕ) → AreNamed nodes.now ids found.old.items
        → AreNamed nodes.now (ids ++ id ∷ []) found.new.items) }
{
    match nodes.name(id) {
        Some(node) => {
            let copy = node.clone()?;
            found.push(copy)?;
            Ok(())
        }
        None => Ok(()),
    }
}
