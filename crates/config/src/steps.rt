//! How the relations of a configuration depend on each other.
ghost use Rattle.std.specs.Prelude.{◌≡◌, ◌↔◌, IsTrue, Contains};
ghost use Rattle.names.specs.declared.relation.RelationName.{RelationName};
ghost use Rattle.meaning.specs.Config.{Has, Leads, StepsTo, SomeStepsTo, relation_in, object_type, node_type};
ghost use Rattle.config_text.specs.Forms.{form_of, rewrite_forms, defined_of};
ghost use Rattle.config_text.specs.Parts.{parts_of};

use config_text::{Parts, Relation, Rewrite};
use names::{Name, RelationName, SubjectType};

/// Whether the type is that of the relation's nodes.
fn is_set_type(declared: &SubjectType, name: &RelationName) -> bool
    ensures { IsTrue result ↔ (declared.now ≡ node_type name.now) }
{
    match &declared.relation {
        Some(relation) => declared.namespace == name.namespace && *relation == name.relation,
        None => false,
    }
}

/// Whether the type is that of the namespace's objects.
fn is_object_type(declared: &SubjectType, namespace: &Name) -> bool
    ensures { IsTrue result ↔ (declared.now ≡ object_type namespace.now) }
{
    match &declared.relation {
        Some(_) => false,
        None => declared.namespace == *namespace,
    }
}

fn declares_set(types: &[SubjectType], name: &RelationName) -> bool
    ensures { IsTrue result ↔ Contains types.now (node_type name.now) }
{
    types.iter().any(|declared| is_set_type(declared, name))
}

fn declares_objects(types: &[SubjectType], namespace: &Name) -> bool
    ensures { IsTrue result ↔ Contains types.now (object_type namespace.now) }
{
    types
        .iter()
        .any(|declared| is_object_type(declared, namespace))
}

fn is_named(name: &RelationName, namespace: &Name, relation: &Name) -> bool
    ensures { IsTrue result ↔ (name.now ≡ relation_in namespace.now relation.now) }
{
    name.namespace == *namespace && name.relation == *relation
}

/// Whether the tupleset of the relation's namespace declares the objects of another.
fn leads(parts: &Parts, relation: &Relation, tupleset: &Name, namespace: &Name) -> bool
    ensures { IsTrue result ↔ Leads (parts_of parts.now) (defined_of relation.now) tupleset.now namespace.now }
{
    for other in &parts.relations {
        if is_named(&other.name, &relation.name.namespace, tupleset) {
            if declares_objects(&other.types, namespace) {
                return true;
            }
        }
    }
    false
}

/// Whether the name is that of a relation of the objects that the tupleset declares.
fn leads_to(
    parts: &Parts,
    relation: &Relation,
    tupleset: &Name,
    computed: &Name,
    to: &RelationName,
) -> bool
    ensures { IsTrue result ↔ ((to.now.relation ≡ computed.now)
        × Leads (parts_of parts.now) (defined_of relation.now) tupleset.now to.now.namespace) }
{
    to.relation == *computed && leads(parts, relation, tupleset, &to.namespace)
}

/// Whether the rewrite of the relation has a step to another, with this sign.
#[cycle(steps)]
pub(crate) fn steps_to(
    parts: &Parts,
    relation: &Relation,
    rewrite: &Rewrite,
    subtracted: bool,
    to: &RelationName,
) -> bool
    requires there { Has (parts_of parts.now) to.now }
    ensures { IsTrue result
        ↔ StepsTo (parts_of parts.now) (defined_of relation.now) (form_of rewrite.now) subtracted to.now }
{
    match rewrite {
        Rewrite::This => !subtracted && declares_set(&relation.types, to),
        Rewrite::Computed(name) => !subtracted && is_named(to, &relation.name.namespace, name),
        Rewrite::TupleTo {
            tupleset,
            relation: computed,
        } => !subtracted && leads_to(parts, relation, tupleset, computed, to),
        Rewrite::Union(rewrites) => some_steps_to(parts, relation, rewrites, subtracted, to),
        Rewrite::Intersection(rewrites) => some_steps_to(parts, relation, rewrites, subtracted, to),
        Rewrite::Exclusion(base, less) => {
            steps_to(parts, relation, base, subtracted, to)
                || subtracted
                    && (steps_to(parts, relation, less, false, to)
                        || steps_to(parts, relation, less, true, to))
        }
    }
}

#[cycle(steps)]
fn some_steps_to(
    parts: &Parts,
    relation: &Relation,
    rewrites: &[Rewrite],
    subtracted: bool,
    to: &RelationName,
) -> bool
    requires there { Has (parts_of parts.now) to.now }
    ensures { IsTrue result
        ↔ SomeStepsTo (parts_of parts.now) (defined_of relation.now) (rewrite_forms rewrites.now) subtracted to.now }
{
    for rewrite in rewrites {
        if steps_to(parts, relation, rewrite, subtracted, to) {
            return true;
        }
    }
    false
}
