//! The conditions of a write, as JSON.
ghost use Rattle.std.specs.Prelude.{◌≡◌, ℕ, List, IfOk, IfErr, MatchOption, map, codes};
ghost use Rattle.std.specs.List.{AllZip};
ghost use Rattle.serde_json.specs.Find.{get};
ghost use Rattle.serde_json.specs.View.{view};
ghost use Rattle.names.specs.Refusals.{IsMalformed};
ghost use Rattle.names.specs.declared.tuple.Tuple.{Tuple as AskedTuple};
ghost use Rattle.bodies.specs.Requests.{IsZookieOf};
ghost use Rattle.bodies.specs.Writing.{AsksCondition};
ghost use Rattle.bodies.specs.inside.Conditions.{IsOfTuple, IsOfTupleSince, AsksBadly, IsNoCondition, IsConditionList, AskConditions, ConditionsCause, ListCause, MemberCause};

use crate::requests::zookie_of;
use config_text::{has_only_members, text_at};
use names::{Condition, Items, Refusal, Tuple};
use serde_json::Value;
use std::alloc::Global;
use verdict::MAX_CONDITIONS;
use zookie::Zookie;

/// The tuple of a condition without a zookie.
fn tuple_of(value: &Value) -> Result<Tuple, Refusal>
    ensures ok { IfOk result (λ t. IsOfTuple (view value.now) t) }
    ensures err { IfErr result (IsMalformed ((t : AskedTuple) → ¬ (IsOfTuple (view value.now) t))) }
{
    if !has_only_members(value, ["if", "tuple"].as_slice()) {
        return Err(Refusal::Malformed);
    }
    let Some(text) = text_at(value, "tuple") else {
        return Err(Refusal::Malformed);
    };
    let tuple = Tuple::parse(text)?;
    Ok(tuple)
}

/// The tuple of a condition with a zookie, and the text in that one's place.
fn tuple_since(value: &Value) -> Result<(Tuple, &str), Refusal>
    ensures ok { IfOk result (λ asked. IsOfTupleSince (view value.now) asked.0 asked.1.now) }
    ensures err { IfErr result (IsMalformed
        ((t : AskedTuple) (since : List ℕ) → ¬ (IsOfTupleSince (view value.now) t since))) }
{
    if !has_only_members(value, ["if", "tuple", "zookie"].as_slice()) {
        return Err(Refusal::Malformed);
    }
    let Some(text) = text_at(value, "tuple") else {
        return Err(Refusal::Malformed);
    };
    let Some(since) = text_at(value, "zookie") else {
        return Err(Refusal::Malformed);
    };
    let tuple = Tuple::parse(text)?;
    Ok((tuple, since))
}

/// The condition that a value asks for; or nothing, where it is of the form and the text in the zookie's place is none.
fn read_condition(value: &Value) -> Result<Option<Condition<Zookie>>, Refusal>
    ensures ok { IfOk result (λ read.
        MatchOption read (AsksBadly (view value.now)) (λ condition. AsksCondition IsZookieOf (view value.now) condition)) }
    ensures err { IfErr result (IsMalformed (IsNoCondition (view value.now))) }
{
    let Some(word) = text_at(value, "if") else {
        return Err(Refusal::Malformed);
    };
    if word == "exists" {
        let tuple = tuple_of(value)?;
        return Ok(Some(Condition::Exists(tuple)));
    }
    if word == "absent" {
        let tuple = tuple_of(value)?;
        return Ok(Some(Condition::Absent(tuple)));
    }
    if word == "unchanged" {
        let (tuple, since) = tuple_since(value)?;
        return match zookie_of(since) {
            Ok(zookie) => Ok(Some(Condition::Unchanged(tuple, zookie))),
            Err(_) => Ok(None),
        };
    }
    Err(Refusal::Malformed)
}

/// The conditions that values ask for, in their order. `BadZookie` comes only where all else is of the form.
fn read_conditions(alloc: Global, items: &Vec<Value>) -> Result<Vec<Condition<Zookie>>, Refusal>
    ensures ok { IfOk result (λ conditions.
        AllZip (AsksCondition IsZookieOf) (map view items.now.items) conditions.items) }
    ensures err { IfErr result (ConditionsCause (map view items.now.items)) }
{
    let mut conditions = Vec::new(alloc);
    let mut bad = false;
    for item in items {
        match read_condition(item)? {
            Some(condition) => conditions.push(condition)?,
            None => bad = true,
        }
    }
    if bad {
        return Err(Refusal::BadZookie);
    }
    Ok(conditions)
}

/// The list of conditions that a value is.
fn condition_list(alloc: Global, value: &Value) -> Result<Items<Condition<Zookie>>, Refusal>
    ensures ok { IfOk result (λ conditions. IsConditionList IsZookieOf conditions (view value.now)) }
    ensures err { IfErr result (ListCause (view value.now)) }
{
    let Some(items) = value.as_array() else {
        return Err(Refusal::Malformed);
    };
    if items.len() > MAX_CONDITIONS {
        return Err(Refusal::Malformed);
    }
    let conditions = read_conditions(alloc, items)?;
    Ok(Items::of(conditions))
}

/// The conditions that a value asks for.
pub(crate) fn conditions_of(
    alloc: Global,
    value: &Value,
) -> Result<Items<Condition<Zookie>>, Refusal>
    ensures ok { IfOk result (λ conditions.
        AskConditions IsZookieOf conditions (get (codes "conditions") (view value.now))) }
    ensures err { IfErr result (MemberCause (get (codes "conditions") (view value.now))) }
{
    match value.get("conditions") {
        None => Ok(Items::of(Vec::new(alloc))),
        Some(list) => {
            let conditions = condition_list(alloc, list)?;
            Ok(conditions)
        }
    }
}
