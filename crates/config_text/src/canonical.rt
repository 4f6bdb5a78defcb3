//! The canonical text of a configuration.
ghost use Rattle.std.specs.Prelude.{◌≡◌, IfOk, map, string_bytes};
ghost use Rattle.serde_json.specs.Data.{no_members, put};
ghost use Rattle.serde_json.specs.View.{view, items_view, members_view};
ghost use Rattle.config_text.specs.Forms.{form_of, rewrite_forms, defined_of};
ghost use Rattle.config_text.specs.Parts.{configured};
ghost use Rattle.config_text.specs.Reading.{ReadsBack};
ghost use Rattle.config_text.specs.Canonical.{form_data, forms_data, types_data, with_types, is_this, with_rewrite, with_indexed, relation_data, relation_into, relations_into, namespaces_into, config_data, config_text};

use crate::relation::Relation;
use crate::rewrite::Rewrite;
use names::{Name, SubjectType};
use serde_json::{Map, Value, json};
use std::alloc::{AllocError, Global};

#[cycle(written)]
fn rewrite_value(alloc: Global, rewrite: &Rewrite) -> Result<Value, AllocError>
    ensures { IfOk result (λ v. view v ≡ form_data (form_of rewrite.now)) }
{
    match rewrite {
        Rewrite::This => json!(in alloc; "this"),
        Rewrite::Computed(relation) => json!(in alloc; {"computed": relation.as_str()}),
        Rewrite::TupleTo { tupleset, relation } => {
            json!(in alloc; {"tuple_to": {"relation": relation.as_str(), "tupleset": tupleset.as_str()}})
        }
        Rewrite::Union(parts) => {
            let items = rewrite_values(alloc, parts)?;
            let list = Value::Array(items);
            json!(in alloc; {"union": list})
        }
        Rewrite::Intersection(parts) => {
            let items = rewrite_values(alloc, parts)?;
            let list = Value::Array(items);
            json!(in alloc; {"intersection": list})
        }
        Rewrite::Exclusion(base, less) => {
            let first = rewrite_value(alloc, base)?;
            let second = rewrite_value(alloc, less)?;
            json!(in alloc; {"exclusion": [first, second]})
        }
    }
}

#[cycle(written)]
fn rewrite_values(alloc: Global, parts: &[Rewrite]) -> Result<Vec<Value>, AllocError>
    ensures { IfOk result (λ v. items_view v.items ≡ forms_data (rewrite_forms parts.now)) }
{
    let mut values = Vec::new(alloc);
    for part in parts {
        values.push(rewrite_value(alloc, part)?)?;
    }
    Ok(values)
}

fn type_values(alloc: Global, types: &[SubjectType]) -> Result<Vec<Value>, AllocError>
    ensures { IfOk result (λ v. items_view v.items ≡ types_data types.now) }
{
    let mut values = Vec::new(alloc);
    for declared in types {
        let text = format!(in alloc; "{declared}")?;
        values.push(Value::String(text))?;
    }
    Ok(values)
}

/// The members, with the value at the name.
fn with(
    alloc: Global,
    name: &str,
    value: Value,
    members: Map<String, Value>,
) -> Result<Map<String, Value>, AllocError>
    ensures { IfOk result (λ m. members_view m.entries
        ≡ put name.now (view value) (members_view members.entries)) }
{
    let mut members = members;
    let name = String::from_str(alloc, name)?;
    drop(members.insert(name, value)?);
    Ok(members)
}

fn with_types(
    alloc: Global,
    types: &[SubjectType],
    members: Map<String, Value>,
) -> Result<Map<String, Value>, AllocError>
    ensures { IfOk result (λ m. members_view m.entries ≡ with_types types.now (members_view members.entries)) }
{
    if types.is_empty() {
        return Ok(members);
    }
    let values = type_values(alloc, types)?;
    with(alloc, "types", Value::Array(values), members)
}

fn is_this(rewrite: &Rewrite) -> bool
    ensures { result ≡ is_this (form_of rewrite.now) }
{
    match rewrite {
        Rewrite::This => true,
        Rewrite::Computed(_) => false,
        Rewrite::TupleTo { .. } => false,
        Rewrite::Union(_) => false,
        Rewrite::Intersection(_) => false,
        Rewrite::Exclusion(_, _) => false,
    }
}

fn with_rewrite(
    alloc: Global,
    rewrite: &Rewrite,
    members: Map<String, Value>,
) -> Result<Map<String, Value>, AllocError>
    ensures { IfOk result (λ m. members_view m.entries
        ≡ with_rewrite (form_of rewrite.now) (members_view members.entries)) }
{
    if is_this(rewrite) {
        return Ok(members);
    }
    let value = rewrite_value(alloc, rewrite)?;
    with(alloc, "rewrite", value, members)
}

fn with_indexed(
    alloc: Global,
    indexed: bool,
    members: Map<String, Value>,
) -> Result<Map<String, Value>, AllocError>
    ensures { IfOk result (λ m. members_view m.entries ≡ with_indexed indexed (members_view members.entries)) }
{
    if !indexed {
        return Ok(members);
    }
    with(alloc, "indexed", Value::Bool(true), members)
}

fn relation_value(alloc: Global, relation: &Relation) -> Result<Value, AllocError>
    ensures { IfOk result (λ v. view v ≡ relation_data (defined_of relation.now)) }
{
    let members = with_types(alloc, &relation.types, Map::new(alloc))?;
    let members = with_rewrite(alloc, &relation.rewrite, members)?;
    let members = with_indexed(alloc, relation.indexed, members)?;
    Ok(Value::Object(members))
}

fn with_relation(
    alloc: Global,
    namespace: &Name,
    relation: &Relation,
    members: Map<String, Value>,
) -> Result<Map<String, Value>, AllocError>
    ensures { IfOk result (λ m. members_view m.entries
        ≡ relation_into namespace.now (members_view members.entries) (defined_of relation.now)) }
{
    if relation.name.namespace != *namespace {
        return Ok(members);
    }
    let value = relation_value(alloc, relation)?;
    with(alloc, relation.name.relation.as_str(), value, members)
}

fn relation_values(
    alloc: Global,
    namespace: &Name,
    relations: &[Relation],
) -> Result<Map<String, Value>, AllocError>
    ensures { IfOk result (λ m. members_view m.entries
        ≡ relations_into namespace.now no_members (map defined_of relations.now)) }
{
    let mut members = Map::new(alloc);
    for relation in relations {
        members = with_relation(alloc, namespace, relation, members)?;
    }
    Ok(members)
}

fn namespace_values(
    alloc: Global,
    namespaces: &[Name],
    relations: &[Relation],
) -> Result<Map<String, Value>, AllocError>
    ensures { IfOk result (λ m. members_view m.entries
        ≡ namespaces_into (map defined_of relations.now) no_members namespaces.now) }
{
    let mut members = Map::new(alloc);
    for namespace in namespaces {
        let value = Value::Object(relation_values(alloc, namespace, relations)?);
        members = with(alloc, namespace.as_str(), value, members)?;
    }
    Ok(members)
}

/// The JSON of a configuration.
fn config_value(
    alloc: Global,
    namespaces: &[Name],
    relations: &[Relation],
) -> Result<Value, AllocError>
    ensures { IfOk result (λ v. view v ≡ config_data (configured namespaces.now relations.now)) }
{
    let all = Value::Object(namespace_values(alloc, namespaces, relations)?);
    json!(in alloc; {"namespaces": all})
}

/// The canonical text of a configuration: members in byte order, types in the order given, and no
/// member that says what its absence says.
pub fn text_of(
    alloc: Global,
    namespaces: &[Name],
    relations: &[Relation],
) -> Result<String, AllocError>
    ensures text { IfOk result (λ s. string_bytes s ≡ config_text (configured namespaces.now relations.now)) }
    ensures read_back { IfOk result (λ s. ReadsBack (configured namespaces.now relations.now) (string_bytes s)) }
{
    config_value(alloc, namespaces, relations)?.to_string(alloc)
}
