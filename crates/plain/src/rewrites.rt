//! What a rewrite gives a node.
ghost use Rattle.std.specs.Prelude.{◌↔◌, IsTrue};
ghost use Rattle.plain.specs.inside.Given.{RewriteGives, SomePartGives, EachPartGives, IsGiven};

use crate::source::{Source, holds, is_direct, is_through};
use config::Rewrite;
use names::{Node, Object};

/// Whether the rewrite gives the node the user, where `held` are the nodes that have the user so far,
/// and `lower` those of the finished lower levels.
#[cycle(gives)]
fn gives(
    source: &Source,
    user: &Object,
    node: &Node,
    rewrite: &Rewrite,
    held: &[Node],
    lower: &[Node],
) -> bool
    ensures { IsTrue result ↔ RewriteGives source.now user.now node.now rewrite.now held.now lower.now }
{
    match rewrite {
        Rewrite::This => is_direct(source, node, user, held),
        Rewrite::Computed(relation) => holds(held, &node.object, relation),
        Rewrite::TupleTo { tupleset, relation } => {
            is_through(source, node, user, tupleset, relation, held)
        }
        Rewrite::Union(parts) => some_gives(source, user, node, parts, held, lower),
        Rewrite::Intersection(parts) => each_gives(source, user, node, parts, held, lower),
        Rewrite::Exclusion(base, less) => {
            gives(source, user, node, base, held, lower)
                && !gives(source, user, node, less, lower, lower)
        }
    }
}

/// Whether some part gives the node the user.
#[cycle(gives)]
fn some_gives(
    source: &Source,
    user: &Object,
    node: &Node,
    parts: &[Rewrite],
    held: &[Node],
    lower: &[Node],
) -> bool
    ensures { IsTrue result ↔ SomePartGives source.now user.now node.now parts.now held.now lower.now }
{
    for part in parts {
        if gives(source, user, node, part, held, lower) {
            return true;
        }
    }
    false
}

/// Whether each part gives the node the user.
#[cycle(gives)]
fn each_gives(
    source: &Source,
    user: &Object,
    node: &Node,
    parts: &[Rewrite],
    held: &[Node],
    lower: &[Node],
) -> bool
    ensures { IsTrue result ↔ EachPartGives source.now user.now node.now parts.now held.now lower.now }
{
    for part in parts {
        if !gives(source, user, node, part, held, lower) {
            return false;
        }
    }
    true
}

/// Whether the rewrite of the node's own relation gives it the user.
pub(crate) fn relation_gives(
    source: &Source,
    user: &Object,
    node: &Node,
    held: &[Node],
    lower: &[Node],
) -> bool
    ensures { IsTrue result ↔ IsGiven source.now user.now node.now held.now lower.now }
{
    for relation in source.relations {
        if relation.is_of(node) && gives(source, user, node, &relation.rewrite, held, lower) {
            return true;
        }
    }
    false
}
