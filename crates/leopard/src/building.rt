//! The groups of an index, and the arcs between them.

ghost use Rattle.std.specs.Prelude.{◌≡◌, ◌↔◌, ◌⊎◌, true, Any, Contains, IfOk, OnOk};
ghost use Rattle.names.specs.declared.node.Node.{Node};
ghost use Rattle.graphs.specs.Groups.{IsGroupArc};
ghost use Rattle.idsets.specs.Naming.{AreDistinct};
ghost use Rattle.leopard.specs.Build.{IsListed, IsSetOf, AreSetsOf};
ghost use Rattle.leopard.specs.inside.Asking.{AreAll, Gains};
ghost use Rattle.leopard.specs.inside.Building.{Owns};

use crate::input::Input;
use crate::refusing::is_group;
use crate::sorted::Sorted;
use crate::walk::Arcs;
use config::Config;
use idsets::IdSet;
use names::{Node, Tuple};
use std::alloc::{AllocError, Global};

/// Whether the node is the last one.
fn is_last(nodes: &[Node], node: &Node) -> bool
    ensures { result ≡ true → Contains nodes.now node.now }
{
    match nodes.last() {
        Some(last) => last.cmp(node).is_eq(),
        None => false,
    }
}

/// Adds a node, if it is not the last one.
fn push_next(nodes: &mut Vec<Node>, node: &Node) -> Result<(), AllocError>
    ensures { OnOk result (Gains (λ n. n ≡ node.now) nodes.old.items nodes.new.items) }
{
    if is_last(nodes, node) {
        return Ok(());
    }
    nodes.push(node.again())?;
    Ok(())
}

/// The groups that have a tuple of their own. Tuples are in the order of nodes, so those of one group stand together.
fn owners(alloc: Global, config: &Config, tuples: &[Tuple]) -> Result<Sorted<Node>, AllocError>
    ensures { IfOk result (λ groups. AreAll (λ n. Any (Owns config.now n) tuples.now) groups) }
{
    let mut groups = Vec::new(alloc);
    for tuple in tuples {
        if is_group(config, &tuple.node) {
            push_next(&mut groups, &tuple.node)?;
        }
    }
    Ok(Sorted::of(groups))
}

/// Adds nodes.
fn push_all(nodes: &mut Vec<Node>, more: &[Node]) -> Result<(), AllocError>
    ensures { OnOk result (Gains (Contains more.now) nodes.old.items nodes.new.items) }
{
    for node in more {
        nodes.push(node.again())?;
    }
    Ok(())
}

/// The ends of the arcs from some nodes.
fn ends_of_all(alloc: Global, input: &Input, nodes: &[Node]) -> Result<Vec<Node>, AllocError>
    ensures { IfOk result (λ v. AreAll (λ m. Any (λ n. IsGroupArc input.now n m) nodes.now) v.items) }
{
    let mut all = Vec::new(alloc);
    for node in nodes {
        let more = input.ends_of(alloc, node)?;
        push_all(&mut all, &more)?;
    }
    Ok(all)
}

/// The nodes that are not among the groups, in order.
fn new_ones(
    alloc: Global,
    groups: &Sorted<Node>,
    nodes: &[Node],
) -> Result<Sorted<Node>, AllocError>
    ensures only { IfOk result (λ fresh. (n : Node) → Contains fresh n → Contains nodes.now n) }
    ensures all { IfOk result (λ fresh. (n : Node) → Contains nodes.now n → Contains groups.now n ⊎ Contains fresh n) }
{
    let mut fresh = Vec::new(alloc);
    for node in nodes {
        if !groups.contains(node) {
            fresh.push(node.again())?;
        }
    }
    Ok(Sorted::of(fresh))
}

/// The nodes of both, in order.
fn joined(groups: Sorted<Node>, more: &Sorted<Node>) -> Result<Sorted<Node>, AllocError>
    ensures { IfOk result (λ all. Gains (Contains more.now) groups all) }
{
    let mut nodes = groups.into_vec();
    push_all(&mut nodes, more.as_slice())?;
    Ok(Sorted::of(nodes))
}

/// The same nodes.
fn copied(alloc: Global, groups: &Sorted<Node>) -> Result<Sorted<Node>, AllocError>
    ensures { IfOk result (λ copy. AreAll (Contains groups.now) copy) }
{
    let mut nodes = Vec::new(alloc);
    push_all(&mut nodes, groups.as_slice())?;
    Ok(Sorted::of(nodes))
}

/// The groups to which walks of arcs lead from groups that have a tuple of their own, these among them. In each round the
/// ends of arcs from those that were found in the last one are gathered, until there is none that is new.
pub(crate) fn groups_of(alloc: Global, input: &Input) -> Result<Sorted<Node>, AllocError>
    ensures { IfOk result (λ groups. AreAll (IsListed input.now) groups) }
{
    let mut groups = owners(alloc, input.config(), input.tuples())?;
    let mut fresh = copied(alloc, &groups)?;
    for _ in 0..u64::MAX {
        let nodes = fresh.as_slice();
        if nodes.is_empty() {
            return Ok(groups);
        }
        let ends = ends_of_all(alloc, input, nodes)?;
        fresh = new_ones(alloc, &groups, &ends)?;
        groups = joined(groups, &fresh)?;
    }
    // Never taken: so many rounds have no room in memory.
    Err(AllocError)
}

/// The ids of those nodes that have one.
fn ids_of(alloc: Global, groups: &Sorted<Node>, nodes: &[Node]) -> Result<IdSet, AllocError>
    requires { AreDistinct groups.now }
    ensures { IfOk result (IsSetOf groups.now (Contains nodes.now)) }
{
    let mut ids = Vec::new(alloc);
    for node in nodes {
        if let Some(id) = groups.id_of(node) {
            ids.push(id)?;
        }
    }
    Ok(IdSet::of(ids))
}

/// The arcs from each group, at its id, as the ids of their ends.
pub(crate) fn arcs_of(
    alloc: Global,
    input: &Input,
    groups: &Sorted<Node>,
) -> Result<Vec<IdSet>, AllocError>
    ensures { IfOk result (λ arcs. AreSetsOf groups.now (IsGroupArc input.now) groups.now arcs.items) }
{
    groups.len();
    let mut arcs = Vec::new(alloc);
    let nodes = groups.as_slice();
    for node in nodes {
        let ends = input.ends_of(alloc, node)?;
        let ids = ids_of(alloc, groups, &ends)?;
        arcs.push(ids)?;
    }
    Ok(arcs)
}
