//! The tests of what rewrites name.
ghost use Rattle.std.specs.Prelude.{◌≡◌, map};
ghost use Rattle.std.specs.List.{list_all};
ghost use Rattle.meaning.specs.Config.{relation_in};
ghost use Rattle.meaning.specs.Admits.{is_relation};
ghost use Rattle.config_text.specs.Canonical.{is_this};
ghost use Rattle.config_text.specs.Forms.{form_of, rewrite_forms, defined_of};
ghost use Rattle.config_text.specs.Parts.{configured};
ghost use Rattle.config.specs.Valid.{form_computes, forms_compute, computes, names_none, some_has, is_parental, is_tupleset, tuplesets_fit, all_tuplesets_fit, has_tuplesets};

use crate::causes::has_relation;
use config_text::{Relation, Rewrite};
use names::{Name, SubjectType};

#[cycle(computes)]
fn rewrite_computes(
    namespaces: &[Name],
    relations: &[Relation],
    namespace: &Name,
    rewrite: &Rewrite,
) -> bool
    ensures { result ≡ form_computes (configured namespaces.now relations.now) namespace.now (form_of rewrite.now) }
{
    match rewrite {
        Rewrite::This => true,
        Rewrite::Computed(relation) => has_relation(relations, namespace, relation),
        Rewrite::TupleTo { .. } => true,
        Rewrite::Union(parts) => rewrites_compute(namespaces, relations, namespace, parts),
        Rewrite::Intersection(parts) => rewrites_compute(namespaces, relations, namespace, parts),
        Rewrite::Exclusion(base, less) => {
            rewrite_computes(namespaces, relations, namespace, base)
                && rewrite_computes(namespaces, relations, namespace, less)
        }
    }
}

#[cycle(computes)]
fn rewrites_compute(
    namespaces: &[Name],
    relations: &[Relation],
    namespace: &Name,
    parts: &[Rewrite],
) -> bool
    ensures { result
        ≡ forms_compute (configured namespaces.now relations.now) namespace.now (rewrite_forms parts.now) }
{
    for part in parts {
        if !rewrite_computes(namespaces, relations, namespace, part) {
            return false;
        }
    }
    true
}

/// Whether each relation that a rewrite computes is one of its namespace.
pub(crate) fn all_compute(namespaces: &[Name], all: &[Relation], relations: &[Relation]) -> bool
    ensures { result ≡ list_all (computes (configured namespaces.now all.now)) (map defined_of relations.now) }
{
    for relation in relations {
        if !rewrite_computes(namespaces, all, &relation.name.namespace, &relation.rewrite) {
            return false;
        }
    }
    true
}

fn is_this(rewrite: &Rewrite) -> bool
    ensures { result ≡ is_this (form_of rewrite.now) }
{
    matches!(rewrite, Rewrite::This)
}

fn are_of_objects(types: &[SubjectType]) -> bool
    ensures { result ≡ list_all (λ t. names_none t.relation) types.now }
{
    for declared in types {
        if declared.relation.is_some() {
            return false;
        }
    }
    true
}

fn some_has(
    namespaces: &[Name],
    relations: &[Relation],
    types: &[SubjectType],
    relation: &Name,
) -> bool
    ensures { result ≡ some_has (configured namespaces.now relations.now) relation.now types.now }
{
    for declared in types {
        if has_relation(relations, &declared.namespace, relation) {
            return true;
        }
    }
    false
}

fn is_parental(
    namespaces: &[Name],
    relations: &[Relation],
    relation: &Name,
    tupleset: &Relation,
) -> bool
    ensures { result
        ≡ is_parental (configured namespaces.now relations.now) relation.now (defined_of tupleset.now) }
{
    is_this(&tupleset.rewrite)
        && are_of_objects(&tupleset.types)
        && some_has(namespaces, relations, &tupleset.types, relation)
}

fn is_named(relation: &Relation, namespace: &Name, name: &Name) -> bool
    ensures { result ≡ is_relation (relation_in namespace.now name.now) (defined_of relation.now) }
{
    relation.name.namespace == *namespace && relation.name.relation == *name
}

fn is_tupleset(
    namespaces: &[Name],
    relations: &[Relation],
    namespace: &Name,
    tupleset: &Name,
    relation: &Name,
) -> bool
    ensures { result
        ≡ is_tupleset (configured namespaces.now relations.now) namespace.now tupleset.now relation.now }
{
    for other in relations {
        if is_named(other, namespace, tupleset)
            && is_parental(namespaces, relations, relation, other)
        {
            return true;
        }
    }
    false
}

#[cycle(tuplesets)]
fn tuplesets_fit(
    namespaces: &[Name],
    relations: &[Relation],
    namespace: &Name,
    rewrite: &Rewrite,
) -> bool
    ensures { result ≡ tuplesets_fit (configured namespaces.now relations.now) namespace.now (form_of rewrite.now) }
{
    match rewrite {
        Rewrite::This => true,
        Rewrite::Computed(_) => true,
        Rewrite::TupleTo { tupleset, relation } => {
            is_tupleset(namespaces, relations, namespace, tupleset, relation)
        }
        Rewrite::Union(parts) => all_tuplesets_fit(namespaces, relations, namespace, parts),
        Rewrite::Intersection(parts) => all_tuplesets_fit(namespaces, relations, namespace, parts),
        Rewrite::Exclusion(base, less) => {
            tuplesets_fit(namespaces, relations, namespace, base)
                && tuplesets_fit(namespaces, relations, namespace, less)
        }
    }
}

#[cycle(tuplesets)]
fn all_tuplesets_fit(
    namespaces: &[Name],
    relations: &[Relation],
    namespace: &Name,
    parts: &[Rewrite],
) -> bool
    ensures { result
        ≡ all_tuplesets_fit (configured namespaces.now relations.now) namespace.now (rewrite_forms parts.now) }
{
    for part in parts {
        if !tuplesets_fit(namespaces, relations, namespace, part) {
            return false;
        }
    }
    true
}

/// Whether each tupleset that a rewrite names can be one.
pub(crate) fn all_have_tuplesets(
    namespaces: &[Name],
    all: &[Relation],
    relations: &[Relation],
) -> bool
    ensures { result ≡ list_all (has_tuplesets (configured namespaces.now all.now)) (map defined_of relations.now) }
{
    for relation in relations {
        if !tuplesets_fit(namespaces, all, &relation.name.namespace, &relation.rewrite) {
            return false;
        }
    }
    true
}
