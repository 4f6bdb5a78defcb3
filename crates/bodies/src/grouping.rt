//! What a question about groups asks, and what it is answered.
ghost use Rattle.std.specs.Prelude.{◌≡◌, Some, IfOk, IfErr, map, codes};
ghost use Rattle.serde_json.specs.Data.{string};
ghost use Rattle.serde_json.specs.View.{view};
ghost use Rattle.names.specs.Calls.{told};
ghost use Rattle.names.specs.Refusals.{ReadCause};
ghost use Rattle.names.specs.Spelling.{node_text};
ghost use Rattle.zookie.specs.Text.{zookie_text};
ghost use Rattle.leopard.specs.Exprs.{query_of};
ghost use Rattle.bodies.specs.Requests.{number_at};
ghost use Rattle.bodies.specs.Replies.{Says};
ghost use Rattle.bodies.specs.Grouping.{GroupsOf, AsksGroups, GroupsBodyCause, groups_data};
ghost use Rattle.bodies.specs.inside.Forms.{IsOfNoGroups};

use crate::exprs::read_expr;
use crate::replies::say;
use crate::requests::{consistency_of, number_of, read_value};
use config_text::has_only_members;
use leopard::Expr;
use leopard::limits::MAX_GROUPS;
use names::{Node, Refusal, Reply};
use serde_json::{Value, json};
use std::alloc::{AllocError, Global};
use zookie::{Consistency, Zookie};

/// How many groups a value asks for, as far as so many may be asked for.
fn limit_of(value: &Value) -> Result<u32, Refusal>
    ensures ok { IfOk result (λ limit. number_at (codes "limit") (view value.now) ≡ Some limit) }
    ensures err { IfErr result (ReadCause (IsOfNoGroups (view value.now))) }
{
    match number_of(value, "limit") {
        Some(limit) if limit <= u64::from(MAX_GROUPS) => Ok(limit as u32),
        _ => Err(Refusal::Malformed),
    }
}

/// The expression that a value asks about, and how many groups of it.
fn groups_of(alloc: Global, value: &Value) -> Result<(Expr, u32), Refusal>
    ensures ok { IfOk result (λ asked. GroupsOf (view value.now) (query_of asked.0) asked.1) }
    ensures err { IfErr result (ReadCause (IsOfNoGroups (view value.now))) }
{
    if !has_only_members(value, ["at", "expr", "limit"].as_slice()) {
        return Err(Refusal::Malformed);
    }
    let limit = limit_of(value)?;
    let Some(part) = value.get("expr") else {
        return Err(Refusal::Malformed);
    };
    let expr = read_expr(alloc, part)?;
    if !expr.is_allowed(limit) {
        return Err(Refusal::Malformed);
    }
    Ok((expr, limit))
}

/// What a body of `leopard` asks: how fresh a snapshot, and the first groups, 0 to 1,000 of them, that an expression means
/// there. It is of at most 64 expressions, which stand in each other to depth 16. `BadZookie` comes only where all else is
/// of the form.
pub fn groups_body(alloc: Global, body: &[u8]) -> Result<(Consistency, Expr, u32), Refusal>
    ensures ok { IfOk result (λ asked. AsksGroups body.now asked.0 (query_of asked.1) asked.2) }
    ensures err { IfErr result (GroupsBodyCause body.now) }
{
    let value = read_value(alloc, body)?;
    let (expr, limit) = groups_of(alloc, &value)?;
    let consistency = consistency_of(&value)?;
    Ok((consistency, expr, limit))
}

/// The texts of nodes, as values.
fn node_values(alloc: Global, nodes: &[Node]) -> Result<Vec<Value>, AllocError>
    ensures { IfOk result (λ v. map view v.items ≡ map (λ n. string (node_text n)) nodes.now) }
{
    let mut values = Vec::new(alloc);
    for node in nodes {
        let text = format!(in alloc; "{node}")?;
        values.push(Value::String(text))?;
    }
    Ok(values)
}

/// Nodes and a zookie, as a value.
fn groups_value(alloc: Global, nodes: &[Node], zookie: &Zookie) -> Result<Value, AllocError>
    ensures { IfOk result (λ v. view v ≡ groups_data nodes.now (zookie_text zookie.now.store zookie.now.rev)) }
{
    let list = Value::Array(node_values(alloc, nodes)?);
    let text = zookie.to_text(alloc)?;
    json!(in alloc; {"groups": list, "zookie": text.as_str()})
}

/// What a `leopard` is answered: the groups, and the zookie of the revision that they are of.
pub fn groups(alloc: Global, nodes: &[Node], zookie: &Zookie) -> Reply
    ensures { Says (told result) 200 (groups_data nodes.now (zookie_text zookie.now.store zookie.now.rev)) }
{
    say(alloc, 200, groups_value(alloc, nodes, zookie))
}
