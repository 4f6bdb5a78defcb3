//! Whether groups that have numbers in two tables meet.
ghost use Rattle.std.specs.Prelude.{◌≡◌, ◌↔◌, Some, Contains, IsTrue};
ghost use Rattle.std.specs.List.{slice_get};
ghost use Rattle.names.specs.declared.node.Node.{Node as NodeValue};
ghost use Rattle.leopard.specs.Finding.{IsNamedBy};

use idsets::{IdSet, Ids};
use names::Node;

/// Whether some group is among both. The smaller set is gone over. It takes no memory.
pub(crate) fn meet(
    names: &Ids<Node>,
    ids: &IdSet,
    other_names: &Ids<Node>,
    other_ids: &IdSet,
) -> bool
    ensures { IsTrue result ↔ ((n : NodeValue) × IsNamedBy names.now ids.now n × IsNamedBy other_names.now other_ids.now n) }
{
    if ids.len() <= other_ids.len() {
        some_named(names, ids.as_slice(), other_names, other_ids)
    } else {
        some_named(other_names, other_ids.as_slice(), names, ids)
    }
}

fn some_named(names: &Ids<Node>, ids: &[u64], other_names: &Ids<Node>, other_ids: &IdSet) -> bool
    ensures { IsTrue result ↔ ((n : NodeValue) × IsNamedBy names.now ids.now n × IsNamedBy other_names.now other_ids.now n) }
{
    for id in ids {
        if is_named(names, *id, other_names, other_ids) {
            return true;
        }
    }
    false
}

fn is_named(names: &Ids<Node>, id: u64, other_names: &Ids<Node>, other_ids: &IdSet) -> bool
    ensures { IsTrue result ↔ ((n : NodeValue) × (slice_get names.now id ≡ Some n) × IsNamedBy other_names.now other_ids.now n) }
{
    match names.name(id) {
        Some(node) => is_among(other_names, other_ids, node),
        None => false,
    }
}

/// Whether one of some groups is among those with the numbers.
pub(crate) fn some_among(names: &Ids<Node>, ids: &IdSet, nodes: &[Node]) -> bool
    ensures { IsTrue result ↔ ((n : NodeValue) × Contains nodes.now n × IsNamedBy names.now ids.now n) }
{
    for node in nodes {
        if is_among(names, ids, node) {
            return true;
        }
    }
    false
}

fn is_among(names: &Ids<Node>, ids: &IdSet, node: &Node) -> bool
    ensures { IsTrue result ↔ IsNamedBy names.now ids.now node.now }
{
    let _ = names.len();
    match names.id_of(node) {
        Some(id) => ids.contains(id),
        None => false,
    }
}
