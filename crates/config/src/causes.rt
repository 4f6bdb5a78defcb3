//! The tests for the causes for which a configuration is refused.
ghost use Rattle.std.specs.Prelude.{◌≡◌, Option, map, nat_eq};
ghost use Rattle.std.specs.List.{list_any, list_all};
ghost use Rattle.std.specs.Cmp.Lexicographic.{pointwise};
ghost use Rattle.names.specs.declared.relation.SubjectType.{SubjectType};
ghost use Rattle.meaning.specs.Config.{relation_in};
ghost use Rattle.meaning.specs.Admits.{is_relation, is_type};
ghost use Rattle.config_text.specs.Forms.{form_of, rewrite_forms, defined_of};
ghost use Rattle.config_text.specs.Parts.{configured, parts_of};
ghost use Rattle.config.specs.Valid.{is_small, is_within, has_namespace, has_type, have_types, is_twice, types_stand, uses_this, some_use_this, types_used, is_indexed_relation, form_indexable, forms_indexable, types_indexed, is_indexable, cause_of};

use crate::rewrites::{all_compute, all_have_tuplesets};
use crate::sizes::is_small;
use config_text::{Parts, Relation, Rewrite};
use names::limits::{MAX_NAMESPACES, MAX_RELATIONS, MAX_TYPES};
use names::{Cause, Name, SubjectType};

fn are_small(relations: &[Relation]) -> bool
    ensures { result ≡ list_all is_small (map defined_of relations.now) }
{
    for relation in relations {
        if relation.types.as_slice().len() > MAX_TYPES || !is_small(&relation.rewrite) {
            return false;
        }
    }
    true
}

fn are_within(namespaces: &[Name], relations: &[Relation]) -> bool
    ensures { result ≡ is_within (configured namespaces.now relations.now) }
{
    if namespaces.len() > MAX_NAMESPACES || relations.len() > MAX_RELATIONS {
        return false;
    }
    are_small(relations)
}

fn has_namespace(namespaces: &[Name], namespace: &Name) -> bool
    ensures { result ≡ list_any (pointwise nat_eq namespace.now) namespaces.now }
{
    for other in namespaces {
        if namespace == other {
            return true;
        }
    }
    false
}

pub(crate) fn has_relation(relations: &[Relation], namespace: &Name, relation: &Name) -> bool
    ensures { result ≡ list_any (is_relation (relation_in namespace.now relation.now)) (map defined_of relations.now) }
{
    for other in relations {
        if other.name.namespace == *namespace && other.name.relation == *relation {
            return true;
        }
    }
    false
}

fn has_type(namespaces: &[Name], relations: &[Relation], declared: &SubjectType) -> bool
    ensures { result
        ≡ has_type (configured namespaces.now relations.now) declared.now.namespace declared.now.relation }
{
    match &declared.relation {
        None => has_namespace(namespaces, &declared.namespace),
        Some(relation) => has_namespace(namespaces, &declared.namespace)
            && has_relation(relations, &declared.namespace, relation),
    }
}

fn have_types(namespaces: &[Name], relations: &[Relation], types: &[SubjectType]) -> bool
    ensures { result ≡ have_types (configured namespaces.now relations.now) types.now }
{
    for declared in types {
        if !has_type(namespaces, relations, declared) {
            return false;
        }
    }
    true
}

pub(crate) fn stands_in(declared: &SubjectType, types: &[SubjectType]) -> bool
    ensures { result ≡ list_any (is_type declared.now) types.now }
{
    for other in types {
        if declared.namespace == other.namespace && declared.relation == other.relation {
            return true;
        }
    }
    false
}

fn stands_twice(types: &[SubjectType]) -> bool
    ensures { result ≡ is_twice types.now }
{
    for (i, declared) in types.iter().enumerate() {
        if stands_in(declared, &types[i + 1..]) {
            return true;
        }
    }
    false
}

fn types_stand(namespaces: &[Name], all: &[Relation], relations: &[Relation]) -> bool
    ensures { result ≡ list_all (types_stand (configured namespaces.now all.now)) (map defined_of relations.now) }
{
    for relation in relations {
        if !have_types(namespaces, all, &relation.types) || stands_twice(&relation.types) {
            return false;
        }
    }
    true
}

#[cycle(this)]
fn uses_this(rewrite: &Rewrite) -> bool
    ensures { result ≡ uses_this (form_of rewrite.now) }
{
    match rewrite {
        Rewrite::This => true,
        Rewrite::Computed(_) => false,
        Rewrite::TupleTo { .. } => false,
        Rewrite::Union(parts) => some_use_this(parts),
        Rewrite::Intersection(parts) => some_use_this(parts),
        Rewrite::Exclusion(base, less) => uses_this(base) || uses_this(less),
    }
}

#[cycle(this)]
fn some_use_this(parts: &[Rewrite]) -> bool
    ensures { result ≡ some_use_this (rewrite_forms parts.now) }
{
    for part in parts {
        if uses_this(part) {
            return true;
        }
    }
    false
}

fn types_used(relations: &[Relation]) -> bool
    ensures { result ≡ list_all types_used (map defined_of relations.now) }
{
    for relation in relations {
        let has_types = relation.types.as_slice().len() > 0;
        if uses_this(&relation.rewrite) != has_types {
            return false;
        }
    }
    true
}

fn is_indexed(relations: &[Relation], namespace: &Name, relation: &Name) -> bool
    ensures { result
        ≡ list_any (is_indexed_relation (relation_in namespace.now relation.now)) (map defined_of relations.now) }
{
    for other in relations {
        if other.name.namespace == *namespace && other.name.relation == *relation && other.indexed {
            return true;
        }
    }
    false
}

#[cycle(indexable)]
fn rewrite_is_indexable(
    namespaces: &[Name],
    relations: &[Relation],
    namespace: &Name,
    rewrite: &Rewrite,
) -> bool
    ensures { result
        ≡ form_indexable (configured namespaces.now relations.now) namespace.now (form_of rewrite.now) }
{
    match rewrite {
        Rewrite::This => true,
        Rewrite::Computed(relation) => is_indexed(relations, namespace, relation),
        Rewrite::TupleTo { .. } => false,
        Rewrite::Union(parts) => rewrites_are_indexable(namespaces, relations, namespace, parts),
        Rewrite::Intersection(_) => false,
        Rewrite::Exclusion(_, _) => false,
    }
}

#[cycle(indexable)]
fn rewrites_are_indexable(
    namespaces: &[Name],
    relations: &[Relation],
    namespace: &Name,
    parts: &[Rewrite],
) -> bool
    ensures { result
        ≡ forms_indexable (configured namespaces.now relations.now) namespace.now (rewrite_forms parts.now) }
{
    for part in parts {
        if !rewrite_is_indexable(namespaces, relations, namespace, part) {
            return false;
        }
    }
    true
}

fn types_indexed(namespaces: &[Name], relations: &[Relation], types: &[SubjectType]) -> bool
    ensures { result ≡ types_indexed (configured namespaces.now relations.now) types.now }
{
    for declared in types {
        if let Some(relation) = &declared.relation {
            if !is_indexed(relations, &declared.namespace, relation) {
                return false;
            }
        }
    }
    true
}

fn is_indexable(namespaces: &[Name], all: &[Relation], relation: &Relation) -> bool
    ensures { result ≡ is_indexable (configured namespaces.now all.now) (defined_of relation.now) }
{
    if !relation.indexed {
        return true;
    }
    rewrite_is_indexable(namespaces, all, &relation.name.namespace, &relation.rewrite)
        && types_indexed(namespaces, all, &relation.types)
}

fn are_indexable(namespaces: &[Name], all: &[Relation], relations: &[Relation]) -> bool
    ensures { result ≡ list_all (is_indexable (configured namespaces.now all.now)) (map defined_of relations.now) }
{
    for relation in relations {
        if !is_indexable(namespaces, all, relation) {
            return false;
        }
    }
    true
}

/// The first cause before `Cycle` that applies to a configuration whose names are names.
pub fn first_cause(parts: &Parts) -> Option<Cause>
    ensures { result ≡ cause_of (parts_of parts.now) }
{
    let namespaces = parts.namespaces.as_slice();
    let relations = parts.relations.as_slice();
    if !are_within(namespaces, relations) {
        return Some(Cause::Limit);
    }
    if !types_stand(namespaces, relations, relations) {
        return Some(Cause::DeclaredType);
    }
    if !types_used(relations) {
        return Some(Cause::This);
    }
    if !all_compute(namespaces, relations, relations) {
        return Some(Cause::Computed);
    }
    if !all_have_tuplesets(namespaces, relations, relations) {
        return Some(Cause::Tupleset);
    }
    if !are_indexable(namespaces, relations, relations) {
        return Some(Cause::Indexed);
    }
    None
}
