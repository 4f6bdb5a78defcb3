//! What a `read` asks, and what it is answered: a page of tuples.
ghost use Rattle.std.specs.Prelude.{◌≡◌, ℕ, List, Option, Some, IfOk, IfErr, option_map, map, codes};
ghost use Rattle.serde_json.specs.Data.{Data, string};
ghost use Rattle.serde_json.specs.Find.{get};
ghost use Rattle.serde_json.specs.View.{view};
ghost use Rattle.names.specs.Calls.{told};
ghost use Rattle.names.specs.Refusals.{IsMalformed};
ghost use Rattle.names.specs.Spelling.{SpellsSubject, SpellsTuple, tuple_text};
ghost use Rattle.names.specs.declared.subject.Subject.{Subject};
ghost use Rattle.names.specs.declared.tuple.Tuple.{Tuple};
ghost use Rattle.zookie.specs.Text.{zookie_text};
ghost use Rattle.bodies.specs.Replies.{Says};
ghost use Rattle.bodies.specs.Paging.{SpellsName, SpellsId, SpellsIfThere, IsLimit, ReadOf, AsksRead, ReadBodyCause, page_data};
ghost use Rattle.bodies.specs.inside.Forms.{IsOfNoRead};

use crate::replies::say;
use crate::requests::{consistency_of, read_value};
use config_text::{has_only_members, text_at};
use names::{Name, ObjectId, Refusal, Reply, Subject, Tuple};
use rows::{MAX_PAGE, Tupleset};
use serde_json::{Value, json};
use std::alloc::{AllocError, Global};
use zookie::{Consistency, Zookie};

/// The id that a member is, if it is there.
pub(crate) fn id_of(member: Option<&Value>) -> Result<Option<ObjectId>, Refusal>
    ensures ok { IfOk result (λ id. SpellsIfThere SpellsId (option_map (λ v. view v.now) member.entry) id) }
    ensures err { IfErr result (IsMalformed
        ((id : Option (List ℕ)) → ¬ (SpellsIfThere SpellsId (option_map (λ v. view v.now) member.entry) id))) }
{
    let Some(value) = member else {
        return Ok(None);
    };
    let Some(text) = value.as_str() else {
        return Err(Refusal::Malformed);
    };
    let id = ObjectId::parse(text)?;
    Ok(Some(id))
}

/// The name that a member is, if it is there.
fn name_of(member: Option<&Value>) -> Result<Option<Name>, Refusal>
    ensures ok { IfOk result (λ name. SpellsIfThere SpellsName (option_map (λ v. view v.now) member.entry) name) }
    ensures err { IfErr result (IsMalformed
        ((name : Option (List ℕ)) → ¬ (SpellsIfThere SpellsName (option_map (λ v. view v.now) member.entry) name))) }
{
    let Some(value) = member else {
        return Ok(None);
    };
    let Some(text) = value.as_str() else {
        return Err(Refusal::Malformed);
    };
    let name = Name::parse(text)?;
    Ok(Some(name))
}

/// The subject that a member is, if it is there.
fn subject_of(member: Option<&Value>) -> Result<Option<Subject>, Refusal>
    ensures ok { IfOk result (λ s. SpellsIfThere SpellsSubject (option_map (λ v. view v.now) member.entry) s) }
    ensures err { IfErr result (IsMalformed
        ((s : Option Subject) → ¬ (SpellsIfThere SpellsSubject (option_map (λ v. view v.now) member.entry) s))) }
{
    let Some(value) = member else {
        return Ok(None);
    };
    let Some(text) = value.as_str() else {
        return Err(Refusal::Malformed);
    };
    let subject = Subject::parse(text)?;
    Ok(Some(subject))
}

/// The tuple that a member is, if it is there.
fn tuple_of(member: Option<&Value>) -> Result<Option<Tuple>, Refusal>
    ensures ok { IfOk result (λ t. SpellsIfThere SpellsTuple (option_map (λ v. view v.now) member.entry) t) }
    ensures err { IfErr result (IsMalformed
        ((t : Option Tuple) → ¬ (SpellsIfThere SpellsTuple (option_map (λ v. view v.now) member.entry) t))) }
{
    let Some(value) = member else {
        return Ok(None);
    };
    let Some(text) = value.as_str() else {
        return Err(Refusal::Malformed);
    };
    let tuple = Tuple::parse(text)?;
    Ok(Some(tuple))
}

/// The limit that a member is, or the greatest where it is not there.
pub(crate) fn limit_of(member: Option<&Value>) -> Result<u16, Refusal>
    ensures ok { IfOk result (λ limit. IsLimit (option_map (λ v. view v.now) member.entry) limit) }
    ensures err { IfErr result (IsMalformed
        ((limit : ℕ) → ¬ (IsLimit (option_map (λ v. view v.now) member.entry) limit))) }
{
    let Some(value) = member else {
        return Ok(MAX_PAGE);
    };
    match value.as_u64() {
        Some(limit) if limit >= 1 && limit <= u64::from(MAX_PAGE) => Ok(limit as u16),
        _ => Err(Refusal::Malformed),
    }
}

/// The tupleset that a value asks for.
fn read_of(value: &Value) -> Result<Tupleset, Refusal>
    ensures ok { IfOk result (λ asked. ReadOf (view value.now) asked) }
    ensures err { IfErr result (IsMalformed (IsOfNoRead (view value.now))) }
{
    let members = [
        "at",
        "namespace",
        "object",
        "relation",
        "subject",
        "after",
        "limit",
    ];
    if !has_only_members(value, members.as_slice()) {
        return Err(Refusal::Malformed);
    }
    let Some(namespace) = text_at(value, "namespace") else {
        return Err(Refusal::Malformed);
    };
    let namespace = Name::parse(namespace)?;
    let object = id_of(value.get("object"))?;
    let relation = name_of(value.get("relation"))?;
    let subject = subject_of(value.get("subject"))?;
    let after = tuple_of(value.get("after"))?;
    let limit = limit_of(value.get("limit"))?;
    Ok(Tupleset {
        namespace,
        object,
        relation,
        subject,
        after,
        limit,
    })
}

/// What a body of `read` asks: how fresh a snapshot, and the page of a tupleset there, of 1 to 1,000 tuples. `BadZookie`
/// comes only where all else is of the form.
pub fn read_body(alloc: Global, body: &[u8]) -> Result<(Consistency, Tupleset), Refusal>
    ensures ok { IfOk result (λ asked. AsksRead body.now asked.0 asked.1) }
    ensures err { IfErr result (ReadBodyCause body.now) }
{
    let value = read_value(alloc, body)?;
    let asked = read_of(&value)?;
    let consistency = consistency_of(&value)?;
    Ok((consistency, asked))
}

/// The texts of tuples, as values.
fn tuple_values(alloc: Global, tuples: &[Tuple]) -> Result<Vec<Value>, AllocError>
    ensures { IfOk result (λ v. map view v.items ≡ map (λ t. string (tuple_text t)) tuples.now) }
{
    let mut values = Vec::new(alloc);
    for tuple in tuples {
        let text = format!(in alloc; "{tuple}")?;
        values.push(Value::String(text))?;
    }
    Ok(values)
}

/// Tuples and a zookie, as a value.
fn page_value(alloc: Global, tuples: &[Tuple], zookie: &Zookie) -> Result<Value, AllocError>
    ensures { IfOk result (λ v. view v ≡ page_data tuples.now (zookie_text zookie.now.store zookie.now.rev)) }
{
    let list = Value::Array(tuple_values(alloc, tuples)?);
    let text = zookie.to_text(alloc)?;
    json!(in alloc; {"tuples": list, "zookie": text.as_str()})
}

/// What a `read` is answered: the tuples of the page, and the zookie of the revision that it is of.
pub fn page(alloc: Global, tuples: &[Tuple], zookie: &Zookie) -> Reply
    ensures { Says (told result) 200 (page_data tuples.now (zookie_text zookie.now.store zookie.now.rev)) }
{
    say(alloc, 200, page_value(alloc, tuples, zookie))
}
