//! The operations of a write, as JSON.
ghost use Rattle.std.specs.Prelude.{◌≡◌, List, IfOk, IfErr, MatchOption, map};
ghost use Rattle.std.specs.List.{AllZip};
ghost use Rattle.serde_json.specs.View.{view};
ghost use Rattle.names.specs.Refusals.{IsMalformed, ReadCause};
ghost use Rattle.bodies.specs.Writing.{AsksOp};
ghost use Rattle.bodies.specs.inside.Parts.{IsKind};

use config_text::{has_only_members, text_at};
use names::{Op, OpKind, Refusal, Tuple};
use serde_json::Value;
use std::alloc::Global;

/// What the word of an operation asks to be done.
fn kind_of(word: &str) -> Option<OpKind>
    ensures { MatchOption result ((k : OpKind) → ¬ (IsKind word.now k)) (λ k. IsKind word.now k) }
{
    if word == "insert" {
        return Some(OpKind::Insert);
    }
    if word == "touch" {
        return Some(OpKind::Touch);
    }
    if word == "delete" {
        return Some(OpKind::Delete);
    }
    None
}

/// The operation that a value asks for.
fn read_op(value: &Value) -> Result<Op, Refusal>
    ensures ok { IfOk result (λ o. AsksOp (view value.now) o) }
    ensures err { IfErr result (IsMalformed ((o : Op) → ¬ (AsksOp (view value.now) o))) }
{
    if !has_only_members(value, ["op", "tuple"].as_slice()) {
        return Err(Refusal::Malformed);
    }
    let Some(word) = text_at(value, "op") else {
        return Err(Refusal::Malformed);
    };
    let Some(kind) = kind_of(word) else {
        return Err(Refusal::Malformed);
    };
    let Some(text) = text_at(value, "tuple") else {
        return Err(Refusal::Malformed);
    };
    let tuple = Tuple::parse(text)?;
    Ok(Op { kind, tuple })
}

/// The operations that values ask for, in their order.
pub(crate) fn read_ops(alloc: Global, items: &Vec<Value>) -> Result<Vec<Op>, Refusal>
    ensures ok { IfOk result (λ ops. AllZip AsksOp (map view items.now.items) ops.items) }
    ensures err { IfErr result
        (ReadCause ((ops : List Op) → ¬ (AllZip AsksOp (map view items.now.items) ops))) }
{
    let mut ops = Vec::new(alloc);
    for item in items {
        let op = read_op(item)?;
        ops.push(op)?;
    }
    Ok(ops)
}
