//! Sets of nodes.
ghost use Rattle.std.specs.Prelude.{◌≡◌, Contains, IfOk, OnOk, take, false};
ghost use Rattle.std.specs.List.Sorted.{IsStrictlySortedBy};
ghost use Rattle.names.specs.Order.{node_cmp};
ghost use Rattle.names.specs.declared.node.Node.{Node};
ghost use Rattle.leopard.specs.inside.Asking.{AreAll, Gains};

use names::Node;
use std::alloc::{AllocError, Global};
use std::collections::BTreeSet;

/// Puts a node in. Whether it was not there.
pub(crate) fn put(nodes: &mut BTreeSet<Node>, node: Node) -> Result<bool, AllocError>
    ensures gains { OnOk result (Gains (λ n. n ≡ node) nodes.old.keys nodes.new.keys) }
    ensures there { IfOk result (λ fresh. fresh ≡ false → Contains nodes.old.keys node) }
{
    Ok(nodes.insert(node)?)
}

/// Puts in those of the other.
pub(crate) fn put_all(nodes: &mut BTreeSet<Node>, others: BTreeSet<Node>) -> Result<(), AllocError>
    ensures { OnOk result (Gains (Contains others.keys) nodes.old.keys nodes.new.keys) }
{
    for node in others {
        put(nodes, node)?;
    }
    Ok(())
}

/// Those that the other has too.
pub(crate) fn common(mut nodes: BTreeSet<Node>, others: &BTreeSet<Node>) -> BTreeSet<Node>
    ensures { AreAll (λ n. Contains nodes.keys n × Contains others.now.keys n) result.keys }
{
    nodes.retain(|node| others.contains(node));
    nodes
}

/// Those that the other lacks.
pub(crate) fn without(mut nodes: BTreeSet<Node>, others: &BTreeSet<Node>) -> BTreeSet<Node>
    ensures { AreAll (λ n. Contains nodes.keys n × ¬ (Contains others.now.keys n)) result.keys }
{
    nodes.retain(|node| !others.contains(node));
    nodes
}

/// The first so many, in order.
pub(crate) fn first_of(
    alloc: Global,
    nodes: BTreeSet<Node>,
    limit: usize,
) -> Result<Vec<Node>, AllocError>
    ensures first { IfOk result (λ v. v.items ≡ take limit nodes.keys) }
    ensures sorted { IsStrictlySortedBy node_cmp nodes.keys }
{
    let mut first: Vec<Node> = nodes.into_iter().collect(alloc)?;
    first.truncate(limit);
    Ok(first)
}
