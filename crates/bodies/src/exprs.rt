//! Set expressions over groups, read from values.
ghost use Rattle.std.specs.Prelude.{IfOk, IfErr, codes};
ghost use Rattle.serde_json.specs.Data.{Items, string, array, object};
ghost use Rattle.serde_json.specs.View.{view, items_view, members_view};
ghost use Rattle.names.specs.Refusals.{IsMalformed, ReadCause};
ghost use Rattle.leopard.specs.Exprs.{query_of, part_queries};
ghost use Rattle.bodies.specs.Grouping.{only_member, IsExpr, AreExprs, IsNoExpr, AreNoExprs};

use leopard::Expr;
use names::{Node, Object, Refusal};
use serde_json::{Map, Value};
use std::alloc::Global;

/// The expression of one user or one group, whose one member is a text.
fn leaf_of(key: &str, text: &str) -> Result<Expr, Refusal>
    ensures ok { IfOk result (λ e. IsExpr (only_member key.now (string text.now)) (query_of e)) }
    ensures err { IfErr result (IsMalformed (IsNoExpr (only_member key.now (string text.now)))) }
{
    if key == "m2g" {
        let user = Object::parse(text)?;
        return Ok(Expr::Member2Group(user));
    }
    if key == "g2g" {
        let group = Node::parse(text)?;
        return Ok(Expr::Group2Group(group));
    }
    Err(Refusal::Malformed)
}

/// The exclusion of two parts.
fn exclusion_of(alloc: Global, parts: Vec<Expr>) -> Result<Expr, Refusal>
    ensures ok { IfOk result (λ e. (ds : Items) → AreExprs ds (part_queries parts.items)
        → IsExpr (only_member (codes "exclusion") (array ds)) (query_of e)) }
    ensures err { IfErr result (ReadCause ((ds : Items) → AreExprs ds (part_queries parts.items)
        → IsNoExpr (only_member (codes "exclusion") (array ds)))) }
{
    if parts.len() != 2 {
        return Err(Refusal::Malformed);
    }
    let mut parts = parts;
    let Some(less) = parts.pop() else {
        return Err(Refusal::Malformed);
    };
    let Some(base) = parts.pop() else {
        return Err(Refusal::Malformed);
    };
    let base = Box::new(alloc, base)?;
    let less = Box::new(alloc, less)?;
    Ok(Expr::Exclusion(base, less))
}

/// The expression of parts, whose one member is the list of them.
fn compound_of(alloc: Global, key: &str, parts: Vec<Expr>) -> Result<Expr, Refusal>
    ensures ok { IfOk result (λ e. (ds : Items) → AreExprs ds (part_queries parts.items)
        → IsExpr (only_member key.now (array ds)) (query_of e)) }
    ensures err { IfErr result (ReadCause ((ds : Items) → AreExprs ds (part_queries parts.items)
        → IsNoExpr (only_member key.now (array ds)))) }
{
    if key == "union" {
        return Ok(Expr::Union(parts));
    }
    if key == "intersection" {
        return Ok(Expr::Intersection(parts));
    }
    if key == "exclusion" {
        return exclusion_of(alloc, parts);
    }
    Err(Refusal::Malformed)
}

/// The expression that a value is, however large. The recursion goes no deeper than `serde_json` lets values nest.
#[cycle(read)]
pub(crate) fn read_expr(alloc: Global, value: &Value) -> Result<Expr, Refusal>
    ensures ok { IfOk result (λ e. IsExpr (view value.now) (query_of e)) }
    ensures err { IfErr result (ReadCause (IsNoExpr (view value.now))) }
{
    match value {
        Value::Object(members) => read_member(alloc, members),
        _ => Err(Refusal::Malformed),
    }
}

/// An object of one member.
#[cycle(read)]
fn read_member(alloc: Global, members: &Map<String, Value>) -> Result<Expr, Refusal>
    ensures ok { IfOk result (λ e. IsExpr (object (members_view members.now.entries)) (query_of e)) }
    ensures err { IfErr result (ReadCause (IsNoExpr (object (members_view members.now.entries)))) }
{
    if members.len() != 1 {
        return Err(Refusal::Malformed);
    }
    for (key, value) in members.iter() {
        return read_named(alloc, key.as_str(), value);
    }
    Err(Refusal::Malformed)
}

#[cycle(read)]
fn read_named(alloc: Global, key: &str, value: &Value) -> Result<Expr, Refusal>
    ensures ok { IfOk result (λ e. IsExpr (only_member key.now (view value.now)) (query_of e)) }
    ensures err { IfErr result (ReadCause (IsNoExpr (only_member key.now (view value.now)))) }
{
    match value {
        Value::String(text) => {
            let expr = leaf_of(key, text.as_str())?;
            Ok(expr)
        }
        Value::Array(items) => {
            let parts = read_parts(alloc, items)?;
            compound_of(alloc, key, parts)
        }
        _ => Err(Refusal::Malformed),
    }
}

#[cycle(read)]
fn read_parts(alloc: Global, items: &Vec<Value>) -> Result<Vec<Expr>, Refusal>
    ensures ok { IfOk result (λ parts. AreExprs (items_view items.now.items) (part_queries parts.items)) }
    ensures err { IfErr result (ReadCause (AreNoExprs (items_view items.now.items))) }
{
    let mut parts = Vec::new(alloc);
    for item in items {
        let part = read_expr(alloc, item)?;
        parts.push(part)?;
    }
    Ok(parts)
}
