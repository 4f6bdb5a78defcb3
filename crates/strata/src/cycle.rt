//! Cycles with a subtracted step.
ghost use Rattle.std.specs.Prelude.{◌≡◌, ◌<◌, ◌↔◌, true, All, Any, IsTrue, IfOk, IfSome, IfNone, length, slice_index_or};
ghost use Rattle.std.specs.List.Sorted.{IsNonDecreasingBy};
ghost use Rattle.strata.specs.declared.graph.Step.{Step};
ghost use Rattle.strata.specs.declared.search.Seen.{Seen};
ghost use Rattle.strata.specs.Graph.{AreBelow, IsCertificate, NoneBack, NoneBackTo};
ghost use Rattle.strata.specs.inside.Search.{HasNode, AreByEarlier, IsWayTo, IsClosing};

use crate::Step;
use crate::search::{Seen, reached};
use std::alloc::{AllocError, Global};

/// The place of the node, which was reached.
fn place_of(seen: &[Seen], node: usize) -> usize
    requires { HasNode seen.now node }
    ensures place { result < length seen.now }
    ensures node { (d : Seen) → (slice_index_or seen.now result d).node ≡ node }
{
    let mut place = 0;
    while seen[place].node != node {
        place += 1;
    }
    place
}

/// The steps by which the place was reached.
fn way_to(alloc: Global, seen: &[Seen], place: usize) -> Result<Vec<Step>, AllocError>
    requires earlier { AreByEarlier seen.now }
    requires place { place < length seen.now }
    ensures { IfOk result (λ way. IsWayTo seen.now place way.items) }
{
    let mut way = Vec::new(alloc);
    let mut at = place;
    while at > 0 {
        let x = seen[at];
        way.insert(
            0,
            Step {
                from: seen[x.by].node,
                to: x.node,
                subtracted: x.subtracted,
            },
        )?;
        at = x.by;
    }
    Ok(way)
}

/// A subtracted step to the relation from one that is marked.
fn closing(steps: &[Step], to: usize, marks: &[bool]) -> Option<Step>
    requires { All (λ s. s.from < length marks.now) steps.now }
    ensures found { IfSome result (IsClosing steps.now to marks.now) }
    ensures none { IfNone result ((s : Step) → IsClosing steps.now to marks.now s → ⊥) }
{
    for s in steps {
        if s.subtracted && s.to == to && marks[s.from] {
            return Some(*s);
        }
    }
    None
}

/// Whether a subtracted step ends at the relation.
fn is_subtracted(steps: &[Step], to: usize) -> bool
    ensures { IsTrue result ↔ Any (λ s. (s.subtracted ≡ true) × (s.to ≡ to)) steps.now }
{
    steps.iter().any(|s| s.subtracted && s.to == to)
}

/// A cycle that begins with a subtracted step to the relation, if there is one.
fn cycle_to(
    alloc: Global,
    steps: &[Step],
    count: usize,
    to: usize,
) -> Result<Option<Vec<Step>>, AllocError>
    requires in_order { IsNonDecreasingBy (λ s. s.from) steps.now }
    requires in_range { AreBelow count steps.now }
    requires to { to < count }
    ensures found { IfOk result (λ r. IfSome r (λ cycle. IsCertificate steps.now cycle.items)) }
    ensures none { IfOk result (λ r. IfNone r (NoneBackTo steps.now to)) }
{
    if !is_subtracted(steps, to) {
        return Ok(None);
    }
    let search = reached(alloc, steps, count, to)?;
    let Some(step) = closing(steps, to, &search.marks) else {
        return Ok(None);
    };
    let place = place_of(&search.seen, step.from);
    let mut cycle = way_to(alloc, &search.seen, place)?;
    cycle.insert(0, step)?;
    Ok(Some(cycle))
}

/// A cycle that begins with a subtracted step, if there is one.
pub(crate) fn first_cycle(
    alloc: Global,
    steps: &[Step],
    count: usize,
) -> Result<Option<Vec<Step>>, AllocError>
    requires in_order { IsNonDecreasingBy (λ s. s.from) steps.now }
    requires in_range { AreBelow count steps.now }
    ensures found { IfOk result (λ r. IfSome r (λ cycle. IsCertificate steps.now cycle.items)) }
    ensures none { IfOk result (λ r. IfNone r (NoneBack steps.now)) }
{
    for to in 0..count {
        if let Some(cycle) = cycle_to(alloc, steps, count, to)? {
            return Ok(Some(cycle));
        }
    }
    Ok(None)
}
