//! Drafts of configurations, read from values.
ghost use Rattle.std.specs.Prelude.{◌≡◌, IfOk, IfSome, codes};
ghost use Rattle.serde_json.specs.Find.{get};
ghost use Rattle.serde_json.specs.View.{view, items_view, members_view};
ghost use Rattle.config_text.specs.Keyed.{AreInOrder, IsInOrder, AreOrdered};
ghost use Rattle.config_text.specs.Texts.{draft_form, strings_texts, relation_texts, relations_texts, config_texts, StandsFor};
ghost use Rattle.config_text.specs.Shape.{texts_read, types_read, rewrite_read, indexed_read, relation_read, relations_read, namespace_read, namespaces_read, config_read};

use crate::draft::{Draft, DraftRelation, DraftRewrite};
use crate::members::has_only_members;
use crate::rewrites::read_rewrite;
use serde_json::{Map, Value};
use std::alloc::{AllocError, Global};

fn read_texts(alloc: Global, items: &[Value]) -> Result<Option<Vec<String>>, AllocError>
    ensures { IfOk result (StandsFor strings_texts (texts_read (items_view items.now))) }
{
    let mut texts = Vec::new(alloc);
    for item in items {
        let Some(text) = item.as_str() else {
            return Ok(None);
        };
        texts.push(String::from_str(alloc, text)?)?;
    }
    Ok(Some(texts))
}

fn read_types(alloc: Global, relation: &Value) -> Result<Option<Vec<String>>, AllocError>
    ensures { IfOk result (StandsFor strings_texts (types_read (get (codes "types") (view relation.now)))) }
{
    let Some(types) = relation.get("types") else {
        return Ok(Some(Vec::new(alloc)));
    };
    let Some(items) = types.as_array() else {
        return Ok(None);
    };
    read_texts(alloc, items)
}

fn read_rewrite_of(alloc: Global, relation: &Value) -> Result<Option<DraftRewrite>, AllocError>
    ensures { IfOk result (StandsFor draft_form (rewrite_read (get (codes "rewrite") (view relation.now)))) }
{
    let Some(rewrite) = relation.get("rewrite") else {
        return Ok(Some(DraftRewrite::This));
    };
    read_rewrite(alloc, rewrite)
}

fn read_indexed(relation: &Value) -> Option<bool>
    ensures { result ≡ indexed_read (get (codes "indexed") (view relation.now)) }
{
    match relation.get("indexed") {
        None => Some(false),
        Some(indexed) => indexed.as_bool(),
    }
}

fn read_relation(
    alloc: Global,
    namespace: &str,
    relation: &str,
    value: &Value,
) -> Result<Option<DraftRelation>, AllocError>
    ensures { IfOk result (StandsFor relation_texts (relation_read namespace.now relation.now (view value.now))) }
{
    if !has_only_members(value, ["types", "rewrite", "indexed"].as_slice()) {
        return Ok(None);
    }
    let Some(types) = read_types(alloc, value)? else {
        return Ok(None);
    };
    let Some(rewrite) = read_rewrite_of(alloc, value)? else {
        return Ok(None);
    };
    let Some(indexed) = read_indexed(value) else {
        return Ok(None);
    };
    let namespace = String::from_str(alloc, namespace)?;
    let relation = String::from_str(alloc, relation)?;
    Ok(Some(DraftRelation {
        namespace,
        relation,
        types,
        rewrite,
        indexed,
    }))
}

fn read_relations(
    alloc: Global,
    namespace: &str,
    members: &Map<String, Value>,
) -> Result<Option<Vec<DraftRelation>>, AllocError>
    ensures ok { IfOk result
        (StandsFor relations_texts (relations_read namespace.now (members_view members.now.entries))) }
    ensures ordered { IfOk result (λ _. AreInOrder (members_view members.now.entries)) }
{
    let mut relations = Vec::new(alloc);
    for (key, value) in members.iter() {
        let Some(relation) = read_relation(alloc, namespace, key.as_str(), value)? else {
            return Ok(None);
        };
        relations.push(relation)?;
    }
    Ok(Some(relations))
}

fn read_namespace(
    alloc: Global,
    namespace: &str,
    value: &Value,
) -> Result<Option<Vec<DraftRelation>>, AllocError>
    ensures ordered { IfOk result (λ _. IsInOrder (view value.now)) }
    ensures ok { IfOk result (StandsFor relations_texts (namespace_read namespace.now (view value.now))) }
{
    let Some(members) = value.as_object() else {
        return Ok(None);
    };
    read_relations(alloc, namespace, members)
}

fn read_namespaces(alloc: Global, members: &Map<String, Value>) -> Result<Option<Draft>, AllocError>
    ensures ok { IfOk result (StandsFor config_texts (namespaces_read (members_view members.now.entries))) }
    ensures ordered { IfOk result (λ r. IfSome r (λ d. AreOrdered (config_texts d))) }
{
    let mut namespaces = Vec::new(alloc);
    let mut relations = Vec::new(alloc);
    for (key, value) in members.iter() {
        let Some(mut more) = read_namespace(alloc, key.as_str(), value)? else {
            return Ok(None);
        };
        namespaces.push(key.clone()?)?;
        relations.append(&mut more)?;
    }
    Ok(Some(Draft {
        namespaces,
        relations,
    }))
}

/// What a value says as a configuration, or nothing where it has not the form of one.
pub fn read_config(alloc: Global, value: &Value) -> Result<Option<Draft>, AllocError>
    ensures ok { IfOk result (StandsFor config_texts (config_read (view value.now))) }
    ensures ordered { IfOk result (λ r. IfSome r (λ d. AreOrdered (config_texts d))) }
{
    if !has_only_members(value, ["namespaces"].as_slice()) {
        return Ok(None);
    }
    let Some(namespaces) = value.get("namespaces") else {
        return Ok(None);
    };
    let Some(members) = namespaces.as_object() else {
        return Ok(None);
    };
    read_namespaces(alloc, members)
}
