//! The bodies of calls.
ghost use Rattle.std.specs.Prelude.{◌≡◌, List, Some, MatchOption, IfOk, IfErr, option_map, option_and_then, codes};
ghost use Rattle.serde_json.specs.Data.{Data};
ghost use Rattle.serde_json.specs.Find.{get, as_array};
ghost use Rattle.serde_json.specs.View.{view, items_view};
ghost use Rattle.names.specs.Refusals.{IsMalformed, ReadCause};
ghost use Rattle.names.specs.declared.refusal.Refusal.TheVariants.{BadZookie};
ghost use Rattle.config_text.specs.Reading.{Reads};
ghost use Rattle.bodies.specs.Requests.{number_at, only_text, IsZookieOf, AsksAt, CheckOf, AsksCheck, CheckCause, CatchUpOf, AsksCatchUp, AsksNoCatchUp};
ghost use Rattle.bodies.specs.Expanding.{ExpandOf, AsksExpand, ExpandBodyCause};
ghost use Rattle.bodies.specs.inside.Parts.{AtCause, IsOfNoCheck, IsPart, IsOfNoCatchUp};
ghost use Rattle.bodies.specs.inside.Forms.{IsOfNoExpand};

use config_text::{has_only_members, text_at};
use expand::MAX_DEPTH;
use names::limits::MAX_CATCH_UP;
use names::{Node, Object, Part, Refusal};
use serde_json::Value;
use std::alloc::Global;
use std::str;
use zookie::{Consistency, Zookie};

/// What a body reads as.
pub(crate) fn read_value(alloc: Global, body: &[u8]) -> Result<Value, Refusal>
    ensures ok { IfOk result (λ v. Reads body.now (view v)) }
    ensures err { IfErr result (ReadCause ((d : Data) → ¬ (Reads body.now d))) }
{
    let Ok(text) = str::from_utf8(body) else {
        return Err(Refusal::Malformed);
    };
    match Value::from_str(alloc, text) {
        Ok(value) => Ok(value),
        Err(e) => {
            if e.is_memory() {
                Err(Refusal::Memory)
            } else {
                Err(Refusal::Malformed)
            }
        }
    }
}

/// The array that a member is.
pub(crate) fn items_of<'a>(value: &'a Value, name: &str) -> Option<&'a Vec<Value>>
    ensures { option_map (λ v. items_view v.now.items) result ≡ option_and_then as_array (get name.now (view value.now)) }
{
    value.get(name).and_then(Value::as_array)
}

/// The text of the one member of an object, which has this name.
pub(crate) fn only_text<'a>(value: &'a Value, name: &str) -> Option<&'a str>
    ensures { option_map (λ t. t.now) result ≡ only_text name.now (view value.now) }
{
    if has_only_members(value, [name].as_slice()) {
        text_at(value, name)
    } else {
        None
    }
}

/// The zookie that a text is.
pub(crate) fn zookie_of(text: &str) -> Result<Zookie, Refusal>
    ensures ok { IfOk result (λ z. IsZookieOf text.now z) }
    ensures err { IfErr result (λ e. (e ≡ BadZookie) × ((z : Zookie) → ¬ (IsZookieOf text.now z))) }
{
    let zookie = Zookie::read(text)?;
    Ok(zookie)
}

/// What an `at` that is there asks for.
fn read_at(at: &Value) -> Result<Consistency, Refusal>
    ensures ok { IfOk result (λ c. AsksAt IsZookieOf (Some (view at.now)) c) }
    ensures err { IfErr result (AtCause (Some (view at.now))) }
{
    if let Some(text) = at.as_str() {
        return if text == "latest" {
            Ok(Consistency::Latest)
        } else {
            Err(Refusal::Malformed)
        };
    }
    if let Some(text) = only_text(at, "at_least") {
        let zookie = zookie_of(text)?;
        return Ok(Consistency::AtLeast(zookie));
    }
    if let Some(text) = only_text(at, "exactly") {
        let zookie = zookie_of(text)?;
        return Ok(Consistency::Exactly(zookie));
    }
    Err(Refusal::Malformed)
}

/// How fresh a snapshot a value asks for.
pub(crate) fn consistency_of(value: &Value) -> Result<Consistency, Refusal>
    ensures ok { IfOk result (λ c. AsksAt IsZookieOf (get (codes "at") (view value.now)) c) }
    ensures err { IfErr result (AtCause (get (codes "at") (view value.now))) }
{
    match value.get("at") {
        None => Ok(Consistency::Latest),
        Some(at) => read_at(at),
    }
}

/// The node and the user that a value asks about.
fn check_of(value: &Value) -> Result<(Node, Object), Refusal>
    ensures ok { IfOk result (λ asked. CheckOf (view value.now) asked.0 asked.1) }
    ensures err { IfErr result (IsMalformed (IsOfNoCheck (view value.now))) }
{
    if !has_only_members(value, ["at", "node", "user"].as_slice()) {
        return Err(Refusal::Malformed);
    }
    let Some(node) = text_at(value, "node") else {
        return Err(Refusal::Malformed);
    };
    let Some(user) = text_at(value, "user") else {
        return Err(Refusal::Malformed);
    };
    let node = Node::parse(node)?;
    let user = Object::parse(user)?;
    Ok((node, user))
}

/// What a body of `check` asks: how fresh a snapshot, and whether a user is a member of a node there.
/// `BadZookie` comes only where all else is of the form.
pub fn check_body(alloc: Global, body: &[u8]) -> Result<(Consistency, Node, Object), Refusal>
    ensures ok { IfOk result (λ asked. AsksCheck body.now asked.0 asked.1 asked.2) }
    ensures err { IfErr result (CheckCause body.now) }
{
    let value = read_value(alloc, body)?;
    let (node, user) = check_of(&value)?;
    let consistency = consistency_of(&value)?;
    Ok((consistency, node, user))
}

/// The node and the depth of a tree that a value asks for.
fn expand_of(value: &Value) -> Result<(Node, u8), Refusal>
    ensures ok { IfOk result (λ asked. ExpandOf (view value.now) asked.0 asked.1) }
    ensures err { IfErr result (IsMalformed (IsOfNoExpand (view value.now))) }
{
    if !has_only_members(value, ["at", "depth", "node"].as_slice()) {
        return Err(Refusal::Malformed);
    }
    let Some(node) = text_at(value, "node") else {
        return Err(Refusal::Malformed);
    };
    let depth = match number_of(value, "depth") {
        Some(depth) if depth >= 1 && depth <= u64::from(MAX_DEPTH) => depth as u8,
        _ => return Err(Refusal::Malformed),
    };
    let node = Node::parse(node)?;
    Ok((node, depth))
}

/// What a body of `expand` asks: how fresh a snapshot, and the tree of a node there, on whose paths at most so many nodes
/// are open, 1 to 8. `BadZookie` comes only where all else is of the form.
pub fn expand_body(alloc: Global, body: &[u8]) -> Result<(Consistency, Node, u8), Refusal>
    ensures ok { IfOk result (λ asked. AsksExpand body.now asked.0 asked.1 asked.2) }
    ensures err { IfErr result (ExpandBodyCause body.now) }
{
    let value = read_value(alloc, body)?;
    let (node, depth) = expand_of(&value)?;
    let consistency = consistency_of(&value)?;
    Ok((consistency, node, depth))
}

/// The part that a word names.
fn part_of(word: &str) -> Option<Part>
    ensures { MatchOption result ((p : Part) → ¬ (IsPart word.now p)) (λ p. IsPart word.now p) }
{
    if word == "index" {
        return Some(Part::Index);
    }
    if word == "hot" {
        return Some(Part::Hot);
    }
    None
}

/// The number that a member is.
pub(crate) fn number_of(value: &Value, name: &str) -> Option<u64>
    ensures { result ≡ number_at name.now (view value.now) }
{
    value.get(name).and_then(Value::as_u64)
}

/// The part, and how many commits a value asks it to take.
fn catch_up_of(value: &Value) -> Result<(Part, u64), Refusal>
    ensures ok { IfOk result (λ asked. CatchUpOf (view value.now) asked.0 asked.1) }
    ensures err { IfErr result (ReadCause (IsOfNoCatchUp (view value.now))) }
{
    if !has_only_members(value, ["part", "commits"].as_slice()) {
        return Err(Refusal::Malformed);
    }
    let Some(word) = text_at(value, "part") else {
        return Err(Refusal::Malformed);
    };
    let Some(part) = part_of(word) else {
        return Err(Refusal::Malformed);
    };
    match number_of(value, "commits") {
        Some(commits) if commits <= MAX_CATCH_UP => Ok((part, commits)),
        _ => Err(Refusal::Malformed),
    }
}

/// What a body of `catchup` asks: that a part take so many commits more, from 0 to 65,536.
pub fn catch_up_body(alloc: Global, body: &[u8]) -> Result<(Part, u64), Refusal>
    ensures ok { IfOk result (λ asked. AsksCatchUp body.now asked.0 asked.1) }
    ensures err { IfErr result (ReadCause (AsksNoCatchUp body.now)) }
{
    let value = read_value(alloc, body)?;
    let asked = catch_up_of(&value)?;
    Ok(asked)
}
