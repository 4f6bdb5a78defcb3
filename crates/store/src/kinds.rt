//! Kinds of tuples: those of one relation whose subjects have one type are admitted alike.
ghost use Rattle.std.specs.Prelude.{◌≡◌, ◌≤◌, ◌⊎◌, ◌&&◌, ◌++◌, ◌∷◌, [], true, nat_eq, length, drop, All, Contains, IfSome};
ghost use Rattle.std.specs.Cmp.Lexicographic.{pointwise};
ghost use Rattle.std.specs.Option.{option_eq, option_map};
ghost use Rattle.meaning.specs.Admits.{admits, is_type, type_of};
ghost use Rattle.meaning.specs.Config.{rel_of};
ghost use Rattle.store.specs.declared.kinds.Kind.{Kind};
ghost use Rattle.store.specs.declared.parts.ReadConfig.{ReadConfig};

use crate::parts::ReadConfig;
use crate::tuple_key::TupleKey;
use names::{Name, Tuple};
use tuple_keys::SubjectRef;

/// As many kinds as are kept: they are gone over one by one.
const MOST_KINDS: usize = 64;

/// A tuple, and the place from which on each configuration admits it.
#[derive(Drop)]
pub(crate) struct Kind {
    pub(crate) tuple: Tuple,
    pub(crate) since: usize,
}

// Whether the relation is this, or none where there is none.
fn is_relation(relation: &Option<Name>, text: Option<&str>) -> bool
    ensures { result ≡ option_eq (pointwise nat_eq) relation.now (option_map (λ t. t.now) text.entry) }
{
    match (relation, text) {
        (Some(relation), Some(text)) => relation.as_str() == text,
        (None, None) => true,
        _ => false,
    }
}

// Whether the tuple is of this relation, and its subject of the type of this one.
fn is_alike(tuple: &Tuple, namespace: &str, relation: &str, subject: &SubjectRef<'_>) -> bool
    ensures { result ≡ (pointwise nat_eq tuple.now.node.object.namespace namespace.now
        && pointwise nat_eq tuple.now.node.relation relation.now
        && is_type (type_of tuple.now.subject) (type_of subject.now)) }
{
    tuple.node.object.namespace.as_str() == namespace
        && tuple.node.relation.as_str() == relation
        && tuple.subject.object.namespace.as_str() == subject.namespace()
        && is_relation(&tuple.subject.relation, subject.relation())
}

// The place that is kept for the tuple's kind, if one is. Its text is not read whole.
fn since_kept(kinds: &[Kind], tuple: &TupleKey) -> Option<usize>
    ensures { IfSome result (λ since. (kind : Kind) × Contains kinds.now kind × (kind.since ≡ since)
        × (rel_of kind.tuple.node ≡ rel_of tuple.now.node) × (type_of kind.tuple.subject ≡ type_of tuple.now.subject)) }
{
    let (namespace, relation, subject) = tuple.parts();
    for kind in kinds {
        if is_alike(&kind.tuple, namespace, relation, &subject) {
            return Some(kind.since);
        }
    }
    None
}

// The first place from which on each configuration admits the tuple.
fn since_of(configs: &[ReadConfig], tuple: &Tuple) -> usize
    ensures within { result ≤ length configs.now }
    ensures admitted { All (λ (later : ReadConfig). admits later.config tuple.now ≡ true) (drop result configs.now) }
{
    let mut since = configs.len();
    while since > 0 {
        if !configs[since - 1].config.allows(tuple) {
            return since;
        }
        since -= 1;
    }
    since
}

// For want of memory the kind is not kept.
fn keep(kinds: &mut Vec<Kind>, kind: Kind)
    ensures { (kinds.new.items ≡ kinds.old.items) ⊎ (kinds.new.items ≡ kinds.old.items ++ kind ∷ []) }
{
    match kinds.push(kind) {
        Ok(()) => {}
        Err(_) => {}
    }
}

/// A place from which on each configuration admits the tuple. The configurations are asked for the first tuple of its
/// kind alone, while there is room for another kind.
pub(crate) fn since_in(configs: &[ReadConfig], kinds: &mut Vec<Kind>, tuple: &TupleKey) -> usize
    requires { All (λ (kind : Kind). (kind.since ≤ length configs.now)
        × All (λ (later : ReadConfig). admits later.config kind.tuple ≡ true) (drop kind.since configs.now)) kinds.old.items }
    ensures within { result ≤ length configs.now }
    ensures admitted { All (λ (later : ReadConfig). admits later.config tuple.now ≡ true) (drop result configs.now) }
    ensures kinds { All (λ (kind : Kind). (kind.since ≤ length configs.now)
        × All (λ (later : ReadConfig). admits later.config kind.tuple ≡ true) (drop kind.since configs.now)) kinds.new.items }
{
    if let Some(since) = since_kept(kinds.as_slice(), tuple) {
        return since;
    }
    let tuple = tuple.tuple();
    let since = since_of(configs, &tuple);
    if kinds.as_slice().len() >= MOST_KINDS {
        return since;
    }
    keep(kinds, Kind { tuple, since });
    since
}
