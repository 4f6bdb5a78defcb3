//! Tuples as they are held while rows are read: their texts.
ghost use Rattle.std.specs.Prelude.{◌≡◌, Some, IfOk, refl};
ghost use Rattle.std.specs.Ordering.{eq_by_cmp};
ghost use Rattle.std.specs.Cmp.{eq_by_cmp_equiv, partial_equiv_from_equiv, partial_order_from_total};
ghost use Rattle.names.specs.Order.{tuple_cmp};
ghost use Rattle.meaning.proofs.TupleSets.{tuples_total};
ghost use Rattle.tuple_keys.specs.Spelled.{before_space, after_space};

use names::Tuple;
use std::alloc::{AllocError, Global};
use std::cmp::Ordering;
use std::marker::Model;
use tuple_keys::{Scratch, SubjectRef, TupleRef, texts_are_ordered_as_tuples};

/// A tuple, as its text. Keys are ordered as the tuples are.
#[derive(Debug, Drop)]
pub(crate) struct TupleKey {
    text: String,
}

impl Model for TupleKey {
    ghost use Rattle.std.specs.Prelude.{string_bytes};
    ghost use Rattle.names.specs.declared.tuple.Tuple.{Tuple as TupleValue};
    ghost use Rattle.meaning.specs.inside.Codes.{coded_tuple};
    ghost use Rattle.tuple_keys.specs.Spelled.{tuple_of, IsSpelling};

    ghost Value = { TupleValue };

    ghost coded = { coded_tuple };

    ghost view = { λ k. tuple_of (string_bytes k.text) };

    ghost invariant = { λ k. IsSpelling (string_bytes k.text) };
}

impl TupleKey {
    pub(crate) fn of(alloc: Global, tuple: &Tuple) -> Result<TupleKey, AllocError>
        ensures { IfOk result (λ k. k ≡ tuple.now) }
    {
        let scratch = Scratch::of(tuple);
        let text = String::from_str(alloc, scratch.tuple_ref().as_str())?;
        Ok(TupleKey { text })
    }

    /// The tuple, read from the text.
    pub(crate) fn tuple(&self) -> Tuple
        ensures { result ≡ self.now }
    {
        TupleRef::of(self.text.as_str()).tuple()
    }

    /// The namespace of its object, its relation and its subject, lent from the text.
    pub(crate) fn parts(&self) -> (&str, &str, SubjectRef<'_>)
        ensures namespace { result.0.now ≡ self.now.node.object.namespace }
        ensures relation { result.1.now ≡ self.now.node.relation }
        ensures subject { result.2 ≡ self.now.subject }
    {
        let (namespace, from_id) = cut(self.text.as_str());
        let (_, from_relation) = cut(from_id);
        let (relation, subject) = cut(from_relation);
        (namespace, relation, SubjectRef::of(subject))
    }
}

// What is before the first space, and what is after it.
fn cut(text: &str) -> (&str, &str)
    ensures before { result.0.now ≡ before_space text.now }
    ensures after { result.1.now ≡ after_space text.now }
{
    match text.split_once(' ') {
        Some((before, after)) => (before, after),
        None => (text, ""),
    }
}

impl Clone for TupleKey {
    ghost is_clone = { λ x y. y ≡ x };

    fn clone(&self) -> Result<TupleKey, AllocError> {
        let text = self.text.clone()?;
        Ok(TupleKey { text })
    }
}

impl PartialEq for TupleKey {
    ghost eq = { eq_by_cmp tuple_cmp };

    ghost laws = { partial_equiv_from_equiv (eq_by_cmp_equiv tuples_total) };

    fn eq(&self, other: &TupleKey) -> bool {
        self.cmp(other).is_eq()
    }
}

impl Eq for TupleKey {
    ghost laws = { eq_by_cmp_equiv tuples_total };
}

impl PartialOrd for TupleKey {
    ghost partial_cmp = { λ x y. Some (tuple_cmp x y) };

    ghost laws = { partial_order_from_total tuples_total };

    fn partial_cmp(&self, other: &TupleKey) -> Option<Ordering> {
        Some(self.cmp(other))
    }
}

impl Ord for TupleKey {
    ghost cmp = { tuple_cmp };

    ghost total = { tuples_total };

    ghost matches_partial_cmp = { λ x y. refl };

    ghost matches_eq = { λ x y. refl };

    fn cmp(&self, other: &TupleKey) -> Ordering {
        texts_are_ordered_as_tuples();
        self.text.as_str().cmp(other.text.as_str())
    }
}
