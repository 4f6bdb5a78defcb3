//! Why a question about groups is refused.
ghost use Rattle.std.specs.Prelude.{◌≡◌, IfSome, IfNone, not};
ghost use Rattle.meaning.specs.Admits.{has_relation};
ghost use Rattle.meaning.specs.Config.{rel_of};
ghost use Rattle.config.specs.Valid.{is_indexed};
ghost use Rattle.leopard.specs.Exprs.{query_of, part_queries};
ghost use Rattle.leopard.specs.Causes.{names_unknown, some_name_unknown, names_unindexed, some_name_unindexed, IsAnswerable, AskCause};

use crate::Expr;
use config::Config;
use names::{Node, Refusal};

/// Why the first so many groups of an expression are not given, if it is so: `Malformed` where it is larger than
/// allowed, `UnknownRelation` where the closure of a group is asked for whose relation is not there, `NotIndexed`
/// where it is there and not indexed. Each is looked for over the whole expression before the next.
pub fn refusal_of(config: &Config, expr: &Expr, limit: u32) -> Option<Refusal>
    ensures some { IfSome result (λ why. AskCause config.now (query_of expr.now) limit why) }
    ensures none { IfNone result (IsAnswerable config.now (query_of expr.now) limit) }
{
    if !expr.is_allowed(limit) {
        return Some(Refusal::Malformed);
    }
    if names_unknown(config, expr) {
        return Some(Refusal::UnknownRelation);
    }
    if names_unindexed(config, expr) {
        return Some(Refusal::NotIndexed);
    }
    None
}

fn has_relation(config: &Config, node: &Node) -> bool
    ensures { result ≡ has_relation config.now (rel_of node.now) }
{
    match config.place_of(node) {
        Some(_place) => true,
        None => false,
    }
}

/// Whether the node's relation is there and indexed.
pub fn is_group(config: &Config, node: &Node) -> bool
    ensures { result ≡ is_indexed config.now (rel_of node.now) }
{
    match config.place_of(node) {
        Some(place) => config.relations()[place].indexed,
        None => false,
    }
}

#[cycle(unknown)]
fn names_unknown(config: &Config, expr: &Expr) -> bool
    ensures { result ≡ names_unknown config.now (query_of expr.now) }
{
    match expr {
        Expr::Member2Group(_) => false,
        Expr::Group2Group(group) => !has_relation(config, group),
        Expr::Union(parts) => some_name_unknown(config, parts),
        Expr::Intersection(parts) => some_name_unknown(config, parts),
        Expr::Exclusion(base, less) => names_unknown(config, base) || names_unknown(config, less),
    }
}

#[cycle(unknown)]
fn some_name_unknown(config: &Config, parts: &[Expr]) -> bool
    ensures { result ≡ some_name_unknown config.now (part_queries parts.now) }
{
    for part in parts {
        if names_unknown(config, part) {
            return true;
        }
    }
    false
}

#[cycle(unindexed)]
fn names_unindexed(config: &Config, expr: &Expr) -> bool
    ensures { result ≡ names_unindexed config.now (query_of expr.now) }
{
    match expr {
        Expr::Member2Group(_) => false,
        Expr::Group2Group(group) => !is_group(config, group),
        Expr::Union(parts) => some_name_unindexed(config, parts),
        Expr::Intersection(parts) => some_name_unindexed(config, parts),
        Expr::Exclusion(base, less) => {
            names_unindexed(config, base) || names_unindexed(config, less)
        }
    }
}

#[cycle(unindexed)]
fn some_name_unindexed(config: &Config, parts: &[Expr]) -> bool
    ensures { result ≡ some_name_unindexed config.now (part_queries parts.now) }
{
    for part in parts {
        if names_unindexed(config, part) {
            return true;
        }
    }
    false
}
