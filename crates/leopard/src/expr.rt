//! Set expressions over groups.
ghost use Rattle.std.specs.Prelude.{◌≡◌, ◌+◌, ◌<◌, ◌≤◌, ◌↔◌, IsTrue, IfSome, IfNone, nat_le};
ghost use Rattle.leopard.specs.Exprs.{query_of, part_queries};
ghost use Rattle.leopard.specs.Query.{query_nodes, queries_nodes, query_depth, queries_depth, is_some, has_parts, all_have_parts, is_allowed};

use crate::limits::{MAX_EXPR_DEPTH, MAX_EXPR_NODES, MAX_GROUPS};
use names::{Node, Object};

/// A set of groups. A union and an intersection have one part or more.
#[derive(Debug, Drop)]
pub enum Expr {
    /// The groups that name the user by a tuple of their own.
    Member2Group(Object),
    /// The groups to which the group leads, itself among them.
    Group2Group(Node),
    /// The groups of some part.
    Union(Vec<Expr>),
    /// The groups of each part.
    Intersection(Vec<Expr>),
    /// The groups of the first, and not of the second.
    Exclusion(Box<Expr>, Box<Expr>),
}

impl Expr {
    /// Whether the first so many groups of the expression may be asked for: it has at most 64 nodes and depth 16, a
    /// part in each union and intersection, and the limit is at most 1,000.
    pub fn is_allowed(&self, limit: u32) -> bool
        ensures { result ≡ is_allowed (query_of self.now) limit }
    {
        has_parts(self) && has_few_nodes(self) && is_flat(self) && limit <= MAX_GROUPS
    }
}

fn are_some(parts: &[Expr]) -> bool
    ensures { result ≡ is_some (part_queries parts.now) }
{
    parts.len() > 0
}

#[cycle(parts)]
fn has_parts(expr: &Expr) -> bool
    ensures { result ≡ has_parts (query_of expr.now) }
{
    match expr {
        Expr::Member2Group(_) => true,
        Expr::Group2Group(_) => true,
        Expr::Union(parts) => are_some(parts) && all_have_parts(parts),
        Expr::Intersection(parts) => are_some(parts) && all_have_parts(parts),
        Expr::Exclusion(base, less) => has_parts(base) && has_parts(less),
    }
}

#[cycle(parts)]
fn all_have_parts(parts: &[Expr]) -> bool
    ensures { result ≡ all_have_parts (part_queries parts.now) }
{
    for part in parts {
        if !has_parts(part) {
            return false;
        }
    }
    true
}

// What is left of so many nodes without those of the expression, if it has no more.
#[cycle(nodes)]
fn nodes_left(expr: &Expr, nodes: u32) -> Option<u32>
    ensures some { IfSome result (λ left. query_nodes (query_of expr.now) + left ≡ nodes) }
    ensures none { IfNone result (nodes < query_nodes (query_of expr.now)) }
{
    if nodes == 0 {
        return None;
    }
    match expr {
        Expr::Member2Group(_) => Some(nodes - 1),
        Expr::Group2Group(_) => Some(nodes - 1),
        Expr::Union(parts) => all_nodes_left(parts, nodes - 1),
        Expr::Intersection(parts) => all_nodes_left(parts, nodes - 1),
        Expr::Exclusion(base, less) => {
            let left = nodes_left(base, nodes - 1)?;
            nodes_left(less, left)
        }
    }
}

#[cycle(nodes)]
fn all_nodes_left(parts: &[Expr], nodes: u32) -> Option<u32>
    ensures some { IfSome result (λ left. queries_nodes (part_queries parts.now) + left ≡ nodes) }
    ensures none { IfNone result (nodes < queries_nodes (part_queries parts.now)) }
{
    let mut left = nodes;
    for part in parts {
        left = nodes_left(part, left)?;
    }
    Some(left)
}

#[cycle(depth)]
fn is_shallow(expr: &Expr, depth: u32) -> bool
    ensures { IsTrue result ↔ (query_depth (query_of expr.now) ≤ depth) }
{
    if depth == 0 {
        return false;
    }
    match expr {
        Expr::Member2Group(_) => true,
        Expr::Group2Group(_) => true,
        Expr::Union(parts) => are_shallow(parts, depth - 1),
        Expr::Intersection(parts) => are_shallow(parts, depth - 1),
        Expr::Exclusion(base, less) => is_shallow(base, depth - 1) && is_shallow(less, depth - 1),
    }
}

#[cycle(depth)]
fn are_shallow(parts: &[Expr], depth: u32) -> bool
    ensures { IsTrue result ↔ (queries_depth (part_queries parts.now) ≤ depth) }
{
    for part in parts {
        if !is_shallow(part, depth) {
            return false;
        }
    }
    true
}

fn has_few_nodes(expr: &Expr) -> bool
    ensures { result ≡ nat_le (query_nodes (query_of expr.now)) MAX_EXPR_NODES }
{
    nodes_left(expr, MAX_EXPR_NODES).is_some()
}

fn is_flat(expr: &Expr) -> bool
    ensures { result ≡ nat_le (query_depth (query_of expr.now)) MAX_EXPR_DEPTH }
{
    is_shallow(expr, MAX_EXPR_DEPTH)
}
