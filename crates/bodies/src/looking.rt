//! What a `lookup` asks, and what it is answered: objects of a namespace.
ghost use Rattle.std.specs.Prelude.{◌≡◌, IfOk, IfErr, map, codes};
ghost use Rattle.serde_json.specs.Data.{string};
ghost use Rattle.serde_json.specs.View.{view};
ghost use Rattle.names.specs.Calls.{told};
ghost use Rattle.names.specs.Refusals.{IsMalformed};
ghost use Rattle.names.specs.Spelling.{object_text};
ghost use Rattle.zookie.specs.Text.{zookie_text};
ghost use Rattle.bodies.specs.Replies.{Says};
ghost use Rattle.bodies.specs.Looking.{LookupOf, AsksLookup, LookupBodyCause, object_in, objects_data};
ghost use Rattle.bodies.specs.inside.Forms.{IsOfNoLookup};

use crate::paging::{id_of, limit_of};
use crate::replies::say;
use crate::requests::{consistency_of, read_value};
use config_text::{has_only_members, text_at};
use lookup::Lookup;
use names::{Name, Object, ObjectId, Refusal, RelationName, Reply};
use serde_json::{Value, json};
use std::alloc::{AllocError, Global};
use zookie::{Consistency, Zookie};

/// The objects that a value asks for.
fn lookup_of(value: &Value) -> Result<Lookup, Refusal>
    ensures ok { IfOk result (λ asked. LookupOf (view value.now) asked) }
    ensures err { IfErr result (IsMalformed (IsOfNoLookup (view value.now))) }
{
    let members = ["at", "namespace", "relation", "user", "after", "limit"];
    if !has_only_members(value, members.as_slice()) {
        return Err(Refusal::Malformed);
    }
    let Some(namespace) = text_at(value, "namespace") else {
        return Err(Refusal::Malformed);
    };
    let Some(relation) = text_at(value, "relation") else {
        return Err(Refusal::Malformed);
    };
    let Some(user) = text_at(value, "user") else {
        return Err(Refusal::Malformed);
    };
    let namespace = Name::parse(namespace)?;
    let relation = Name::parse(relation)?;
    let user = Object::parse(user)?;
    let after = id_of(value.get("after"))?;
    let limit = limit_of(value.get("limit"))?;
    let relation = RelationName {
        namespace,
        relation,
    };
    Ok(Lookup {
        relation,
        user,
        after,
        limit,
    })
}

/// What a body of `lookup` asks: how fresh a snapshot, and to which objects of a namespace a user has a relation there: the
/// first 1 to 1,000 of them, after an id where one is given. `BadZookie` comes only where all else is of the form.
pub fn lookup_body(alloc: Global, body: &[u8]) -> Result<(Consistency, Lookup), Refusal>
    ensures ok { IfOk result (λ asked. AsksLookup body.now asked.0 asked.1) }
    ensures err { IfErr result (LookupBodyCause body.now) }
{
    let value = read_value(alloc, body)?;
    let asked = lookup_of(&value)?;
    let consistency = consistency_of(&value)?;
    Ok((consistency, asked))
}

/// The texts of a namespace's objects with these ids, as values.
fn text_values(alloc: Global, namespace: &Name, ids: &[ObjectId]) -> Result<Vec<Value>, AllocError>
    ensures { IfOk result (λ v. map view v.items ≡ map (λ id. string (object_text (object_in namespace.now id))) ids.now) }
{
    let mut values = Vec::new(alloc);
    for id in ids {
        let text = format!(in alloc; "{namespace}:{id}")?;
        values.push(Value::String(text))?;
    }
    Ok(values)
}

/// The objects and a zookie, as a value.
fn objects_value(
    alloc: Global,
    namespace: &Name,
    ids: &[ObjectId],
    zookie: &Zookie,
) -> Result<Value, AllocError>
    ensures { IfOk result (λ v. view v ≡ objects_data namespace.now ids.now (zookie_text zookie.now.store zookie.now.rev)) }
{
    let list = Value::Array(text_values(alloc, namespace, ids)?);
    let text = zookie.to_text(alloc)?;
    json!(in alloc; {"objects": list, "zookie": text.as_str()})
}

/// What a `lookup` is answered: the objects, by their namespace and their ids, and the zookie of the revision at which the user
/// has the relation.
pub fn objects(alloc: Global, namespace: &Name, ids: &[ObjectId], zookie: &Zookie) -> Reply
    ensures { Says (told result) 200 (objects_data namespace.now ids.now (zookie_text zookie.now.store zookie.now.rev)) }
{
    say(alloc, 200, objects_value(alloc, namespace, ids, zookie))
}
