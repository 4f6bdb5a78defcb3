//! Pages of tuples.
ghost use Rattle.std.specs.Prelude.{◌≡◌, ◌&&◌, filter, take, IfOk};
ghost use Rattle.rows.specs.Tuplesets.{has_text, has_subject, is_after};
ghost use Rattle.rows.specs.inside.Reading.{is_sought, is_wanted};
ghost use Rattle.tuple_keys.specs.Texts.{IsStartOf};

use crate::tupleset::Tupleset;
use names::{Name, Node, Object, Subject, Tuple};
use std::alloc::{AllocError, Global};
use tuple_keys::{Scratch, Start, SubjectRef, TupleRef};
use versions::Tuples;

/// What the texts of the tuples that are asked for begin with, as far as that is given.
pub(crate) fn start_of(asked: &Tupleset) -> Result<Start, AllocError>
    ensures { IfOk result (λ start. IsStartOf start (is_sought asked.now)) }
{
    let Some(id) = &asked.object else {
        return Ok(Start::of_objects(&asked.namespace));
    };
    let namespace = asked.namespace.clone()?;
    let id = id.clone()?;
    let object = Object { namespace, id };
    let Some(relation) = &asked.relation else {
        return Ok(Start::of_object(&object));
    };
    let relation = relation.clone()?;
    Ok(Start::of_node(&Node { object, relation }))
}

/// The first of the tuples that have what else is asked for. Those after them are not gone over, nor those
/// before the one that they come later than.
pub(crate) fn page_of(
    alloc: Global,
    mut tuples: Tuples<'_>,
    asked: &Tupleset,
) -> Result<Vec<Tuple>, AllocError>
    ensures { IfOk result (λ v. v.items ≡ take asked.now.limit (filter (is_wanted asked.now) tuples.entry)) }
{
    let after = text_of(&asked.after);
    if let Some(after) = &after {
        tuples.skip_to(&after.tuple_ref());
    }
    let mut page = Vec::new(alloc);
    'texts: while page.len() < asked.limit as usize {
        let Some(tuple) = tuples.next() else {
            return Ok(page);
        };
        if has_relation(&asked.relation, &tuple)
            && names_subject(&asked.subject, &tuple.subject())
            && is_after(&after, &tuple)
        {
            page.push(tuple.tuple())?;
        }
    }
    Ok(page)
}

fn text_of(after: &Option<Tuple>) -> Option<Scratch>
    ensures { result ≡ after.now }
{
    match after {
        Some(tuple) => Some(Scratch::of(tuple)),
        None => None,
    }
}

fn has_relation(asked: &Option<Name>, tuple: &TupleRef<'_>) -> bool
    ensures { result ≡ has_text asked.now tuple.now.node.relation }
{
    match asked {
        Some(relation) => tuple.relation() == relation.as_str(),
        None => true,
    }
}

fn names_subject(asked: &Option<Subject>, subject: &SubjectRef<'_>) -> bool
    ensures { result ≡ has_subject asked.now subject.now }
{
    match asked {
        Some(asked) => subject.is(asked),
        None => true,
    }
}

fn is_after(after: &Option<Scratch>, tuple: &TupleRef<'_>) -> bool
    ensures { result ≡ is_after after.now tuple.now }
{
    match after {
        Some(after) => tuple.is_later(&after.tuple_ref()),
        None => true,
    }
}
