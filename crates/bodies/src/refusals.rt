//! Replies to calls that are refused.
ghost use Rattle.std.specs.Prelude.{◌≡◌, [], ◌∷◌, Some, IfOk, string_bytes, codes};
ghost use Rattle.names.specs.Calls.{told};
ghost use Rattle.names.specs.Refusals.{status_of};
ghost use Rattle.names.specs.Spelling.{relation_text};
ghost use Rattle.names.specs.declared.refusal.Refusal.TheVariants.{ConfigRefused, TupleInTheWay};
ghost use Rattle.names.specs.declared.cause.Cause.TheVariants.{Cycle};
ghost use Rattle.serde_json.specs.Data.{string};
ghost use Rattle.serde_json.specs.View.{view, items_view};
ghost use Rattle.zookie.specs.Text.{zookie_text};
ghost use Rattle.bodies.specs.Replies.{Says, SaysRefusal, SaysRefusalAt, error_data, indexed_data, refusal_data, cycle_items, signed_text, start_text};

use crate::replies::{say, say_text};
use names::{Cause, CycleStep, Refusal, Reply, Tuple};
use serde_json::{Value, json};
use std::alloc::{AllocError, Global};
use zookie::Zookie;

/// A refusal with the place of an operation or a condition.
fn indexed_refusal(alloc: Global, why: &Refusal, index: u64) -> Reply
    ensures { Says (told result) (status_of why.now) (indexed_data why.now index) }
{
    let code = u64::from(why.number());
    let value = json!(in alloc; {"error": {"code": code, "index": index, "name": why.name()}});
    say(alloc, why.status(), value)
}

/// A refusal with the tuple that is in the way.
fn tuple_refusal(alloc: Global, tuple: &Tuple) -> Reply
    ensures { Says (told result) 409 (refusal_data (TupleInTheWay tuple.now)) }
{
    let Ok(text) = format!(in alloc; "{tuple}") else {
        return Reply::NoMemory;
    };
    let value =
        json!(in alloc; {"error": {"code": 10u64, "name": "TupleInTheWay", "tuple": text.as_str()}});
    say(alloc, 409, value)
}

/// A relation of a cycle, after the sign of the step to it.
pub fn signed_text(alloc: Global, step: &CycleStep) -> Result<String, AllocError>
    ensures { IfOk result (λ s. string_bytes s ≡ signed_text step.now) }
{
    let to = &step.to;
    if step.subtracted {
        format!(in alloc; "-{to}")
    } else {
        format!(in alloc; "+{to}")
    }
}

/// The relation at which a cycle begins and ends.
pub fn start_of(alloc: Global, steps: &[CycleStep]) -> Result<String, AllocError>
    ensures { IfOk result (λ s. string_bytes s ≡ start_text steps.now) }
{
    match steps.last() {
        Some(step) => format!(in alloc; "{}", step.to),
        None => Ok(String::new(alloc)),
    }
}

/// The list of a cycle's relations.
fn cycle_list(alloc: Global, steps: &[CycleStep]) -> Result<Vec<Value>, AllocError>
    ensures { IfOk result (λ v. items_view v.items ≡ cycle_items steps.now) }
{
    let mut list = Vec::new(alloc);
    list.push(Value::String(start_of(alloc, steps)?))?;
    for step in steps {
        list.push(Value::String(signed_text(alloc, step)?))?;
    }
    Ok(list)
}

/// The refusal of a configuration with a cycle, as a value.
fn cycle_value(alloc: Global, steps: &[CycleStep]) -> Result<Value, AllocError>
    ensures { IfOk result (λ v. view v ≡ refusal_data (ConfigRefused (Cycle steps.now))) }
{
    let list = Value::Array(cycle_list(alloc, steps)?);
    json!(in alloc; {"error": {"cause": "cycle", "code": 9u64, "cycle": list, "name": "ConfigRefused"}})
}

/// What a configuration with a cycle is answered.
fn cycle_refusal(alloc: Global, steps: &[CycleStep]) -> Reply
    ensures { SaysRefusal (told result) (ConfigRefused (Cycle steps.now)) }
{
    say(alloc, 400, cycle_value(alloc, steps))
}

/// What a configuration is answered that is no valid one.
#[tactic(auto, unfolding(crate::proofs::Literals::texts_on_literals))]
fn config_refusal(alloc: Global, cause: &Cause) -> Reply
    ensures { SaysRefusal (told result) (ConfigRefused cause.now) }
{
    let text = match cause {
        Cause::Size => r#"{"error":{"cause":"size","code":9,"name":"ConfigRefused"}}"#,
        Cause::Json => r#"{"error":{"cause":"json","code":9,"name":"ConfigRefused"}}"#,
        Cause::Shape => r#"{"error":{"cause":"shape","code":9,"name":"ConfigRefused"}}"#,
        Cause::Name => r#"{"error":{"cause":"name","code":9,"name":"ConfigRefused"}}"#,
        Cause::Limit => r#"{"error":{"cause":"limit","code":9,"name":"ConfigRefused"}}"#,
        Cause::DeclaredType => r#"{"error":{"cause":"type","code":9,"name":"ConfigRefused"}}"#,
        Cause::This => r#"{"error":{"cause":"this","code":9,"name":"ConfigRefused"}}"#,
        Cause::Computed => r#"{"error":{"cause":"computed","code":9,"name":"ConfigRefused"}}"#,
        Cause::Tupleset => r#"{"error":{"cause":"tupleset","code":9,"name":"ConfigRefused"}}"#,
        Cause::Indexed => r#"{"error":{"cause":"indexed","code":9,"name":"ConfigRefused"}}"#,
        Cause::Cycle(steps) => return cycle_refusal(alloc, steps.as_slice()),
    };
    say_text(alloc, 400, text)
}

/// What a refused call is answered. Where the refusal has no members of its own, the reply takes the
/// room of its text alone.
#[tactic(auto, unfolding(crate::proofs::Literals::texts_on_literals))]
pub fn refusal(alloc: Global, why: &Refusal) -> Reply
    ensures { SaysRefusal (told result) why.now }
{
    let text = match why {
        Refusal::Malformed => r#"{"error":{"code":1,"name":"Malformed"}}"#,
        Refusal::UnknownRelation => r#"{"error":{"code":2,"name":"UnknownRelation"}}"#,
        Refusal::TypeRefused => r#"{"error":{"code":3,"name":"TypeRefused"}}"#,
        Refusal::TwiceInOneWrite => r#"{"error":{"code":4,"name":"TwiceInOneWrite"}}"#,
        Refusal::ConditionFailed(index) => return indexed_refusal(alloc, why, *index),
        Refusal::AlreadyThere(index) => return indexed_refusal(alloc, why, *index),
        Refusal::NotThere(index) => return indexed_refusal(alloc, why, *index),
        Refusal::Full => r#"{"error":{"code":8,"name":"Full"}}"#,
        Refusal::ConfigRefused(cause) => return config_refusal(alloc, cause),
        Refusal::TupleInTheWay(tuple) => return tuple_refusal(alloc, tuple),
        Refusal::BadZookie => r#"{"error":{"code":11,"name":"BadZookie"}}"#,
        Refusal::ForeignZookie => r#"{"error":{"code":12,"name":"ForeignZookie"}}"#,
        Refusal::Future => r#"{"error":{"code":13,"name":"Future"}}"#,
        Refusal::Expired => r#"{"error":{"code":14,"name":"Expired"}}"#,
        Refusal::TooLarge => r#"{"error":{"code":15,"name":"TooLarge"}}"#,
        Refusal::NotIndexed => r#"{"error":{"code":16,"name":"NotIndexed"}}"#,
        Refusal::InUse => r#"{"error":{"code":17,"name":"InUse"}}"#,
        Refusal::StaleBuild => r#"{"error":{"code":18,"name":"StaleBuild"}}"#,
        Refusal::WrongBuild => r#"{"error":{"code":19,"name":"WrongBuild"}}"#,
        Refusal::NoSeat => r#"{"error":{"code":20,"name":"NoSeat"}}"#,
        Refusal::Memory => return Reply::NoMemory,
        Refusal::StoreFault => r#"{"error":{"code":22,"name":"StoreFault"}}"#,
        Refusal::Reopen => r#"{"error":{"code":23,"name":"Reopen"}}"#,
    };
    say_text(alloc, why.status(), text)
}

/// A refusal at a chosen revision, as a value.
fn value_at(alloc: Global, why: &Refusal, zookie: &Zookie) -> Result<Value, AllocError>
    ensures { IfOk result (λ v. view v ≡ error_data why.now [] []
        ((codes "zookie", string (zookie_text zookie.now.store zookie.now.rev)) ∷ [])) }
{
    let text = zookie.to_text(alloc)?;
    let code = u64::from(why.number());
    json!(in alloc; {"error": {"code": code, "name": why.name(), "zookie": text.as_str()}})
}

/// What a question is answered that is refused at a chosen revision.
pub fn refusal_at(alloc: Global, why: &Refusal, zookie: &Zookie) -> Reply
    ensures { SaysRefusalAt (told result) why.now
        (Some (zookie_text zookie.now.store zookie.now.rev)) }
{
    say(alloc, why.status(), value_at(alloc, why, zookie))
}
