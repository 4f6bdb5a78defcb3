//! How large rewrites are.
ghost use Rattle.std.specs.Prelude.{◌≡◌, ◌+◌, ◌<◌, ◌≤◌, ◌↔◌, IsTrue, IfSome, IfNone, nat_le};
ghost use Rattle.config_text.specs.Forms.{form_of, rewrite_forms};
ghost use Rattle.config_text.specs.Size.{form_nodes, forms_nodes, form_depth, forms_depth};
ghost use Rattle.config.specs.Valid.{is_small_form};

use config_text::Rewrite;
use names::limits::{MAX_REWRITE_DEPTH, MAX_REWRITE_NODES};

/// What is left of so many nodes without those of the rewrite, if it has no more.
#[cycle(nodes)]
fn nodes_left(rewrite: &Rewrite, nodes: u32) -> Option<u32>
    ensures some { IfSome result (λ left. form_nodes (form_of rewrite.now) + left ≡ nodes) }
    ensures none { IfNone result (nodes < form_nodes (form_of rewrite.now)) }
{
    if nodes == 0 {
        return None;
    }
    match rewrite {
        Rewrite::This => Some(nodes - 1),
        Rewrite::Computed(_) => Some(nodes - 1),
        Rewrite::TupleTo { .. } => Some(nodes - 1),
        Rewrite::Union(parts) => all_nodes_left(parts, nodes - 1),
        Rewrite::Intersection(parts) => all_nodes_left(parts, nodes - 1),
        Rewrite::Exclusion(base, less) => {
            let left = nodes_left(base, nodes - 1)?;
            nodes_left(less, left)
        }
    }
}

#[cycle(nodes)]
fn all_nodes_left(parts: &[Rewrite], nodes: u32) -> Option<u32>
    ensures some { IfSome result (λ left. forms_nodes (rewrite_forms parts.now) + left ≡ nodes) }
    ensures none { IfNone result (nodes < forms_nodes (rewrite_forms parts.now)) }
{
    let mut left = nodes;
    for part in parts {
        left = nodes_left(part, left)?;
    }
    Some(left)
}

#[cycle(depth)]
fn is_shallow(rewrite: &Rewrite, depth: u32) -> bool
    ensures { IsTrue result ↔ (form_depth (form_of rewrite.now) ≤ depth) }
{
    if depth == 0 {
        return false;
    }
    match rewrite {
        Rewrite::This => true,
        Rewrite::Computed(_) => true,
        Rewrite::TupleTo { .. } => true,
        Rewrite::Union(parts) => are_shallow(parts, depth - 1),
        Rewrite::Intersection(parts) => are_shallow(parts, depth - 1),
        Rewrite::Exclusion(base, less) => {
            is_shallow(base, depth - 1) && is_shallow(less, depth - 1)
        }
    }
}

#[cycle(depth)]
fn are_shallow(parts: &[Rewrite], depth: u32) -> bool
    ensures { IsTrue result ↔ (forms_depth (rewrite_forms parts.now) ≤ depth) }
{
    for part in parts {
        if !is_shallow(part, depth) {
            return false;
        }
    }
    true
}

fn has_few_nodes(rewrite: &Rewrite) -> bool
    ensures { result ≡ nat_le (form_nodes (form_of rewrite.now)) MAX_REWRITE_NODES }
{
    nodes_left(rewrite, MAX_REWRITE_NODES).is_some()
}

fn is_flat(rewrite: &Rewrite) -> bool
    ensures { result ≡ nat_le (form_depth (form_of rewrite.now)) MAX_REWRITE_DEPTH }
{
    is_shallow(rewrite, MAX_REWRITE_DEPTH)
}

/// Whether the rewrite has as few nodes as are allowed, and is no deeper.
pub(crate) fn is_small(rewrite: &Rewrite) -> bool
    ensures { result ≡ is_small_form (form_of rewrite.now) }
{
    has_few_nodes(rewrite) && is_flat(rewrite)
}
