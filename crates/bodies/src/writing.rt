//! The body of a `write`.
ghost use Rattle.std.specs.Prelude.{◌≡◌, List, IfOk, IfErr};
ghost use Rattle.serde_json.specs.View.{view};
ghost use Rattle.names.specs.Refusals.{ReadCause};
ghost use Rattle.bodies.specs.Requests.{IsZookieOf};
ghost use Rattle.bodies.specs.Writing.{WriteOf, AsksWrite, WriteBodyCause};
ghost use Rattle.bodies.specs.inside.Parts.{OpsOf};
ghost use Rattle.bodies.specs.inside.Conditions.{WriteCause};

use crate::conditions::conditions_of;
use crate::ops::read_ops;
use crate::requests::{items_of, read_value};
use config_text::has_only_members;
use names::limits::MAX_OPS;
use names::{Items, Op, Refusal, Write};
use serde_json::Value;
use std::alloc::Global;
use zookie::Zookie;

/// The operations that a value asks for.
fn ops_of(alloc: Global, value: &Value) -> Result<Items<Op>, Refusal>
    ensures ok { IfOk result (λ ops. OpsOf (view value.now) ops) }
    ensures err { IfErr result (ReadCause ((ops : List Op) → ¬ (OpsOf (view value.now) ops))) }
{
    let Some(items) = items_of(value, "ops") else {
        return Err(Refusal::Malformed);
    };
    if items.is_empty() || items.len() > MAX_OPS {
        return Err(Refusal::Malformed);
    }
    let ops = read_ops(alloc, items)?;
    Ok(Items::of(ops))
}

/// The operations and conditions that a value asks for.
fn write_of(alloc: Global, value: &Value) -> Result<Write<Zookie>, Refusal>
    ensures ok { IfOk result (λ write. WriteOf IsZookieOf (view value.now) write) }
    ensures err { IfErr result (WriteCause (view value.now)) }
{
    if !has_only_members(value, ["conditions", "ops"].as_slice()) {
        return Err(Refusal::Malformed);
    }
    let ops = ops_of(alloc, value)?;
    let conditions = conditions_of(alloc, value)?;
    Ok(Write { conditions, ops })
}

/// What a body of `write` asks: 1 to 256 operations, under 0 to 64 conditions. `BadZookie` comes only where all else is of
/// the form.
pub fn write_body(alloc: Global, body: &[u8]) -> Result<Write<Zookie>, Refusal>
    ensures ok { IfOk result (AsksWrite body.now) }
    ensures err { IfErr result (WriteBodyCause body.now) }
{
    let value = read_value(alloc, body)?;
    let write = write_of(alloc, &value)?;
    Ok(write)
}
