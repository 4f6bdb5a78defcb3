//! The body of a `watch`.
ghost use Rattle.std.specs.Prelude.{◌≡◌, ◌≤◌, List, ℕ, Some, IsSomeAnd, IfOk, IfErr, length, map, codes};
ghost use Rattle.std.specs.List.{AllZip};
ghost use Rattle.serde_json.specs.Find.{get};
ghost use Rattle.serde_json.specs.View.{view};
ghost use Rattle.names.specs.Refusals.{IsMalformed, ReadCause};
ghost use Rattle.config_text.specs.Objects.{text_at as text_in};
ghost use Rattle.zookie.specs.declared.Zookie.{Zookie as AskedZookie};
ghost use Rattle.bodies.specs.Requests.{IsAnyText, IsZookieOf};
ghost use Rattle.bodies.specs.Watching.{AsksName, AsksNamespaces, WatchOf, AsksWatch, WatchBodyCause};
ghost use Rattle.bodies.specs.inside.Parts.{TextCause};
ghost use Rattle.bodies.specs.inside.Forms.{IsNameList, IsOfNoWatch};
ghost use Rattle.watch.specs.declared.watched.Namespaces.{Namespaces as AskedNamespaces};

use crate::requests::{number_of, read_value, zookie_of};
use config_text::{has_only_members, text_at};
use names::{Items, Name, Refusal};
use serde_json::Value;
use std::alloc::Global;
use watch::{MAX_COMMITS, MAX_NAMES, Namespaces};
use zookie::Zookie;

/// The name that a value is.
fn read_name(value: &Value) -> Result<Name, Refusal>
    ensures ok { IfOk result (λ name. AsksName (view value.now) name) }
    ensures err { IfErr result (IsMalformed ((name : List ℕ) → ¬ (AsksName (view value.now) name))) }
{
    let Some(text) = value.as_str() else {
        return Err(Refusal::Malformed);
    };
    let name = Name::parse(text)?;
    Ok(name)
}

/// The names that values are, in their order.
fn read_names(alloc: Global, items: &Vec<Value>) -> Result<Vec<Name>, Refusal>
    ensures ok { IfOk result (λ names. AllZip AsksName (map view items.now.items) names.items) }
    ensures err { IfErr result (ReadCause
        ((names : List (List ℕ)) → ¬ (AllZip AsksName (map view items.now.items) names))) }
{
    let mut names = Vec::new(alloc);
    for item in items {
        let name = read_name(item)?;
        names.push(name)?;
    }
    Ok(names)
}

/// The list of names that a value is.
fn name_list(alloc: Global, value: &Value) -> Result<Items<Name>, Refusal>
    ensures ok { IfOk result (λ names. IsNameList names (view value.now)) }
    ensures err { IfErr result
        (ReadCause ((names : List (List ℕ)) → ¬ (IsNameList names (view value.now)))) }
{
    let Some(items) = value.as_array() else {
        return Err(Refusal::Malformed);
    };
    if items.is_empty() || items.len() > MAX_NAMES {
        return Err(Refusal::Malformed);
    }
    let names = read_names(alloc, items)?;
    Ok(Items::of(names))
}

/// The namespaces that a value names.
fn namespaces_of(alloc: Global, value: &Value) -> Result<Namespaces, Refusal>
    ensures ok { IfOk result (λ n. AsksNamespaces (get (codes "namespaces") (view value.now)) n) }
    ensures err { IfErr result (ReadCause ((n : AskedNamespaces)
        → ¬ (AsksNamespaces (get (codes "namespaces") (view value.now)) n))) }
{
    match value.get("namespaces") {
        None => Ok(Namespaces::All),
        Some(list) => {
            let names = name_list(alloc, list)?;
            Ok(Namespaces::These(names))
        }
    }
}

/// The namespaces that a value asks to watch, and for how many commits.
fn watch_of(alloc: Global, value: &Value) -> Result<(Namespaces, u32), Refusal>
    ensures ok { IfOk result (λ asked. (cursor : AskedZookie) → WatchOf IsAnyText (view value.now) cursor asked.0 asked.1) }
    ensures err { IfErr result (ReadCause (IsOfNoWatch (view value.now))) }
{
    if !has_only_members(value, ["commits", "cursor", "namespaces"].as_slice()) {
        return Err(Refusal::Malformed);
    }
    let Some(_) = text_at(value, "cursor") else {
        return Err(Refusal::Malformed);
    };
    let commits = match number_of(value, "commits") {
        Some(commits) if commits >= 1 && commits <= u64::from(MAX_COMMITS) => commits as u32,
        _ => return Err(Refusal::Malformed),
    };
    let namespaces = namespaces_of(alloc, value)?;
    Ok((namespaces, commits))
}

/// The zookie that the cursor is.
fn cursor_of(value: &Value) -> Result<Zookie, Refusal>
    ensures ok { IfOk result (λ z. IsSomeAnd (text_in (codes "cursor") (view value.now)) (λ text. IsZookieOf text z)) }
    ensures err { IfErr result (TextCause (text_in (codes "cursor") (view value.now))) }
{
    match text_at(value, "cursor") {
        None => Err(Refusal::Malformed),
        Some(text) => {
            let zookie = zookie_of(text)?;
            Ok(zookie)
        }
    }
}

/// What a body of `watch` asks: the events on tuples of the namespaces, of so many commits above the cursor, 1 to 256.
/// There are 1 to 64 names, or all namespaces. `BadZookie` comes only where all else is of the form.
pub fn watch_body(alloc: Global, body: &[u8]) -> Result<(Zookie, Namespaces, u32), Refusal>
    ensures ok { IfOk result (λ asked. AsksWatch body.now asked.0 asked.1 asked.2) }
    ensures err { IfErr result (WatchBodyCause body.now) }
{
    let value = read_value(alloc, body)?;
    let (namespaces, commits) = watch_of(alloc, &value)?;
    let cursor = cursor_of(&value)?;
    Ok((cursor, namespaces, commits))
}
