//! The spans of tuples, read.
ghost use Rattle.std.specs.Prelude.{◌≡◌, ◌<◌, ◌≤◌, false, map, IsTrue, IfOk, IfErr, All, IsPermutation};
ghost use Rattle.names.specs.Spelling.{IsTuple};
ghost use Rattle.sqlite_tables.specs.Stored.{span_in};
ghost use Rattle.store.specs.Written.{Ends, IsSpan, span_of};
ghost use Rattle.store.specs.inside.Following.{Precedes};
ghost use Rattle.store.specs.inside.Reading.{as_span, AreInTurn, Spells};
ghost use Rattle.store.specs.Refused.{DeservedBy, IsOfTuple, IsOfSpan, SpansListed, Overlap};

use crate::parts::{Head, ReadSpan};
use crate::tuple_key::TupleKey;
use crate::unread::Unread;
use names::{Name, Node, Object, ObjectId, Subject, Tuple};
use sqlite_tables::{StoredSpan, TupleText};
use std::alloc::Global;
use std::cmp::Ordering;

fn read_tuple(text: &TupleText) -> Result<Tuple, Unread>
    ensures same { IfOk result (Spells text.now) }
    ensures is { IfOk result IsTuple }
    ensures fault { IfErr result (DeservedBy (IsOfTuple text.now)) }
{
    let namespace = Name::parse(text.namespace.as_str())?;
    let id = ObjectId::parse(text.object.as_str())?;
    let relation = Name::parse(text.relation.as_str())?;
    let subject = Subject::parse(text.subject.as_str())?;
    let object = Object { namespace, id };
    let node = Node { object, relation };
    Ok(Tuple { node, subject })
}

fn is_span(head: Head, added: u64, removed: u64) -> bool
    ensures begins { IsTrue result → 0 < added }
    ensures begun { IsTrue result → added ≤ head.newest }
    ensures ends { IsTrue result → Ends head.floor head.newest added removed }
    ensures refuses { result ≡ false → 0 < added → added ≤ head.newest → ¬ (Ends head.floor head.newest added removed) }
{
    if added == 0 || head.newest < added {
        return false;
    }
    removed == 0 || (added < removed && head.floor < removed && removed <= head.newest)
}

fn read_span(alloc: Global, head: Head, stored: &StoredSpan) -> Result<ReadSpan, Unread>
    ensures same { IfOk result (λ s. span_of (as_span s) ≡ span_in stored.now) }
    ensures is { IfOk result (λ s. IsSpan head.floor head.newest (as_span s)) }
    ensures fault { IfErr result (DeservedBy (IsOfSpan head.floor head.newest stored.now)) }
{
    if !is_span(head, stored.added, stored.removed) {
        return Err(Unread::Fault);
    }
    let tuple = TupleKey::of(alloc, &read_tuple(&stored.tuple)?)?;
    Ok(ReadSpan {
        tuple,
        added: stored.added,
        removed: stored.removed,
    })
}

// Each span's texts are let go as it has been read.
fn read_each(alloc: Global, head: Head, stored: Vec<StoredSpan>) -> Result<Vec<ReadSpan>, Unread>
    ensures same { IfOk result (λ v. map span_of (map as_span v.items) ≡ map span_in stored.items) }
    ensures are { IfOk result (λ v. All (λ s. IsSpan head.floor head.newest (as_span s)) v.items) }
    ensures fault { IfErr result (DeservedBy (All (IsOfSpan head.floor head.newest) stored.items)) }
{
    let mut spans = Vec::with_capacity(alloc, stored.len())?;
    for span in stored {
        spans.push(read_span(alloc, head, &span)?)?;
    }
    Ok(spans)
}

/// The spans in the order of their tuples, and those of one tuple in the order of revisions.
pub(crate) fn read_spans(
    alloc: Global,
    head: Head,
    stored: Vec<StoredSpan>,
) -> Result<Vec<ReadSpan>, Unread>
    ensures same { IfOk result (λ v. IsPermutation (map span_in stored.items) (map span_of (map as_span v.items))) }
    ensures are { IfOk result (λ v. All (λ s. IsSpan head.floor head.newest (as_span s)) v.items) }
    ensures listed { IfOk result (λ v. SpansListed v.items) }
    ensures fault { IfErr result (DeservedBy (All (IsOfSpan head.floor head.newest) stored.items)) }
{
    let mut spans = read_each(alloc, head, stored)?;
    spans.sort_unstable();
    Ok(spans)
}

fn precedes(a: &ReadSpan, b: &ReadSpan) -> bool
    ensures passes { IsTrue result → Precedes (as_span a.now) (as_span b.now) }
    ensures refuses { result ≡ false → ¬ (Precedes (as_span a.now) (as_span b.now)) }
{
    match a.tuple.cmp(&b.tuple) {
        Ordering::Less => true,
        Ordering::Equal => 0 < a.removed && a.removed <= b.added,
        Ordering::Greater => false,
    }
}

/// Whether no two spans of one tuple overlap. Spans in their order are enough.
pub(crate) fn are_apart(spans: &[ReadSpan]) -> bool
    ensures passes { IsTrue result → AreInTurn spans.now }
    ensures refuses { result ≡ false → SpansListed spans.now → Overlap spans.now }
{
    for i in 1..spans.len() {
        if !precedes(&spans[i - 1], &spans[i]) {
            return false;
        }
    }
    true
}
