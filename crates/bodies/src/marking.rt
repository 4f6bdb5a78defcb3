//! The bodies of a `hot` and of a `rebuild`.
ghost use Rattle.std.specs.Prelude.{◌≡◌, IfOk, IfErr};
ghost use Rattle.serde_json.specs.View.{view};
ghost use Rattle.names.specs.Refusals.{IsMalformed, ReadCause};
ghost use Rattle.names.specs.declared.marking.Marking.{Marking};
ghost use Rattle.bodies.specs.Marking.{MarkingOf, AsksHot, AsksNoHot, AsksRebuild, AsksNoRebuild};

use crate::requests::{only_text, read_value};
use config_text::has_only_members;
use names::{Marking, Node, Refusal};
use serde_json::Value;
use std::alloc::Global;

/// What a value asks of the table of hot nodes.
fn marking_of(value: &Value) -> Result<Marking, Refusal>
    ensures ok { IfOk result (λ m. MarkingOf (view value.now) m) }
    ensures err { IfErr result (IsMalformed ((m : Marking) → ¬ (MarkingOf (view value.now) m))) }
{
    if let Some(text) = only_text(value, "mark") {
        let node = Node::parse(text)?;
        return Ok(Marking::Mark(node));
    }
    if let Some(text) = only_text(value, "unmark") {
        let node = Node::parse(text)?;
        return Ok(Marking::Unmark(node));
    }
    Err(Refusal::Malformed)
}

/// What a body of `hot` asks: that a node be marked, or that its mark be taken away.
pub fn hot_body(alloc: Global, body: &[u8]) -> Result<Marking, Refusal>
    ensures ok { IfOk result (λ m. AsksHot body.now m) }
    ensures err { IfErr result (ReadCause (AsksNoHot body.now)) }
{
    let value = read_value(alloc, body)?;
    let marking = marking_of(&value)?;
    Ok(marking)
}

/// Reads a body of `rebuild`, which is the empty object.
pub fn rebuild_body(alloc: Global, body: &[u8]) -> Result<(), Refusal>
    ensures ok { IfOk result (λ _. AsksRebuild body.now) }
    ensures err { IfErr result (ReadCause (AsksNoRebuild body.now)) }
{
    let value = read_value(alloc, body)?;
    if has_only_members(&value, [].as_slice()) {
        Ok(())
    } else {
        Err(Refusal::Malformed)
    }
}
