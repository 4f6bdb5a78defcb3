//! Rewrites, read from values.
ghost use Rattle.std.specs.Prelude.{IfOk, map};
ghost use Rattle.serde_json.specs.Find.{as_str};
ghost use Rattle.serde_json.specs.View.{view, items_view, members_view};
ghost use Rattle.config_text.specs.Texts.{draft_form, draft_forms, StandsFor};
ghost use Rattle.config_text.specs.Shape.{this_read, computed_read, tuple_to_read, union_read, intersection_read, exclusion_read, named_read, form_read, member_read, parts_read, forms_read};

use crate::draft::DraftRewrite;
use crate::members::{has_only_members, text_at};
use serde_json::{Map, Value};
use std::alloc::{AllocError, Global};

fn this_from(text: &str) -> Option<DraftRewrite>
    ensures { StandsFor draft_form (this_read text.now) result }
{
    if text == "this" {
        Some(DraftRewrite::This)
    } else {
        None
    }
}

fn read_computed(alloc: Global, value: &Value) -> Result<Option<DraftRewrite>, AllocError>
    ensures { IfOk result (StandsFor draft_form (computed_read (as_str (view value.now)))) }
{
    let Some(relation) = value.as_str() else {
        return Ok(None);
    };
    let relation = String::from_str(alloc, relation)?;
    Ok(Some(DraftRewrite::Computed(relation)))
}

fn read_tuple_to(alloc: Global, value: &Value) -> Result<Option<DraftRewrite>, AllocError>
    ensures { IfOk result (StandsFor draft_form (tuple_to_read (view value.now))) }
{
    if !has_only_members(value, ["tupleset", "relation"].as_slice()) {
        return Ok(None);
    }
    let Some(tupleset) = text_at(value, "tupleset") else {
        return Ok(None);
    };
    let Some(relation) = text_at(value, "relation") else {
        return Ok(None);
    };
    let tupleset = String::from_str(alloc, tupleset)?;
    let relation = String::from_str(alloc, relation)?;
    Ok(Some(DraftRewrite::TupleTo { tupleset, relation }))
}

fn union_of(parts: Vec<DraftRewrite>) -> Option<DraftRewrite>
    ensures { StandsFor draft_form (union_read (Some (map draft_form parts.items))) result }
{
    if parts.is_empty() {
        return None;
    }
    Some(DraftRewrite::Union(parts))
}

fn intersection_of(parts: Vec<DraftRewrite>) -> Option<DraftRewrite>
    ensures { StandsFor draft_form (intersection_read (Some (map draft_form parts.items))) result }
{
    if parts.is_empty() {
        return None;
    }
    Some(DraftRewrite::Intersection(parts))
}

fn exclusion_of(alloc: Global, parts: Vec<DraftRewrite>) -> Result<Option<DraftRewrite>, AllocError>
    ensures { IfOk result (StandsFor draft_form (exclusion_read (Some (map draft_form parts.items)))) }
{
    if parts.len() != 2 {
        return Ok(None);
    }
    let mut parts = parts;
    let Some(less) = parts.pop() else {
        return Ok(None);
    };
    let Some(base) = parts.pop() else {
        return Ok(None);
    };
    let base = Box::new(alloc, base)?;
    let less = Box::new(alloc, less)?;
    Ok(Some(DraftRewrite::Exclusion(base, less)))
}

/// The rewrite that a value stands for, or nothing where it has not the form of one.
#[cycle(read)]
pub fn read_rewrite(alloc: Global, value: &Value) -> Result<Option<DraftRewrite>, AllocError>
    ensures { IfOk result (StandsFor draft_form (form_read (view value.now))) }
{
    match value {
        Value::String(text) => Ok(this_from(text.as_str())),
        Value::Object(members) => read_member(alloc, members),
        _ => Ok(None),
    }
}

/// An object of one member.
#[cycle(read)]
fn read_member(
    alloc: Global,
    members: &Map<String, Value>,
) -> Result<Option<DraftRewrite>, AllocError>
    ensures { IfOk result (StandsFor draft_form (member_read (members_view members.now.entries))) }
{
    if members.len() != 1 {
        return Ok(None);
    }
    for (key, value) in members.iter() {
        return read_named(alloc, key.as_str(), value);
    }
    Ok(None)
}

#[cycle(read)]
fn read_named(alloc: Global, key: &str, value: &Value) -> Result<Option<DraftRewrite>, AllocError>
    ensures { IfOk result (StandsFor draft_form (named_read key.now (view value.now) (parts_read (view value.now)))) }
{
    if key == "computed" {
        return read_computed(alloc, value);
    }
    if key == "tuple_to" {
        return read_tuple_to(alloc, value);
    }
    let Some(parts) = read_parts(alloc, value)? else {
        return Ok(None);
    };
    if key == "union" {
        return Ok(union_of(parts));
    }
    if key == "intersection" {
        return Ok(intersection_of(parts));
    }
    if key == "exclusion" {
        return exclusion_of(alloc, parts);
    }
    Ok(None)
}

#[cycle(read)]
fn read_parts(alloc: Global, value: &Value) -> Result<Option<Vec<DraftRewrite>>, AllocError>
    ensures { IfOk result (StandsFor draft_forms (parts_read (view value.now))) }
{
    match value {
        Value::Array(items) => read_items(alloc, items),
        _ => Ok(None),
    }
}

#[cycle(read)]
fn read_items(alloc: Global, items: &Vec<Value>) -> Result<Option<Vec<DraftRewrite>>, AllocError>
    ensures { IfOk result (StandsFor draft_forms (forms_read (items_view items.now.items))) }
{
    let mut parts = Vec::new(alloc);
    for item in items {
        let Some(part) = read_rewrite(alloc, item)? else {
            return Ok(None);
        };
        parts.push(part)?;
    }
    Ok(Some(parts))
}
