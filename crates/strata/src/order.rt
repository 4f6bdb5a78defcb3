//! Steps in the order of where they start.
ghost use Rattle.std.specs.Prelude.{◌≡◌, ◌<◌, ◌≤◌, ◌↔◌, Contains, IfOk, length};
ghost use Rattle.std.specs.List.{AllWithin};
ghost use Rattle.std.specs.List.Sorted.{IsNonDecreasingBy};
ghost use Rattle.strata.specs.declared.graph.Step.{Step};

use crate::Step;
use std::alloc::{AllocError, Global};

/// The steps without repeats, in the order of where they start.
pub(crate) fn distinct(alloc: Global, steps: &[Step]) -> Result<Vec<Step>, AllocError>
    ensures same { IfOk result (λ kept. (s : Step) → Contains kept.items s ↔ Contains steps.now s) }
    ensures in_order { IfOk result (λ kept. IsNonDecreasingBy (λ s. s.from) kept.items) }
{
    let mut kept = steps.to_vec(alloc)?;
    kept.sort_unstable();
    kept.dedup();
    Ok(kept)
}

/// The place of the first step that starts at the relation or past it, or the length.
fn place_from(steps: &[Step], from: usize) -> usize
    requires { IsNonDecreasingBy (λ s. s.from) steps.now }
    ensures within { result ≤ length steps.now }
    ensures before { AllWithin (λ s. s.from < from) steps.now 0 result }
    ensures after { AllWithin (λ s. from ≤ s.from) steps.now result (length steps.now) }
{
    steps.partition_point(|s| s.from < from)
}

/// The place of the first step that starts past the relation, or the length.
fn place_past(steps: &[Step], from: usize) -> usize
    requires { IsNonDecreasingBy (λ s. s.from) steps.now }
    ensures within { result ≤ length steps.now }
    ensures before { AllWithin (λ s. s.from ≤ from) steps.now 0 result }
    ensures after { AllWithin (λ s. from < s.from) steps.now result (length steps.now) }
{
    steps.partition_point(|s| s.from <= from)
}

/// The steps that start at the relation.
pub(crate) fn steps_from(steps: &[Step], from: usize) -> &[Step]
    requires { IsNonDecreasingBy (λ s. s.from) steps.now }
    ensures { (s : Step) → Contains result.now s ↔ (Contains steps.now s × (s.from ≡ from)) }
{
    let start = place_from(steps, from);
    let end = place_past(steps, from);
    &steps[start..end]
}
