//! Levels, where no cycle has a subtracted step.
ghost use Rattle.std.specs.Prelude.{◌≡◌, ◌<◌, ◌+◌, ◌^◌, IfOk, length, replicate, slice_index};
ghost use Rattle.strata.specs.declared.graph.Step.{Step};
ghost use Rattle.strata.specs.Graph.{AreBelow, AreLevels, NoneBack, sign_cost};
ghost use Rattle.strata.specs.inside.Raise.{IsRaising, IsPass};

use crate::Step;
use std::alloc::{AllocError, Global};

/// As many zeros.
fn zeros(alloc: Global, count: usize) -> Result<Vec<usize>, AllocError>
    ensures { IfOk result (λ v. v.items ≡ replicate count 0) }
{
    vec![in alloc; 0; count]
}

/// The level that a step asks for.
fn asked(levels: &[usize], step: Step) -> usize
    requires to { step.to < length levels.now }
    requires small { slice_index levels.now step.to < 2 ^ 63 }
    ensures { result ≡ slice_index levels.now step.to + sign_cost step.subtracted }
{
    levels[step.to] + usize::from(step.subtracted)
}

/// Raises the start of each step to what the step asks for, and says whether a level rose.
fn pass(steps: &[Step], levels: &mut [usize]) -> bool
    requires in_range { AreBelow (length levels.old) steps.now }
    requires few { length steps.now < 2 ^ 63 }
    requires none { NoneBack steps.now }
    requires raising { IsRaising steps.now (length levels.old) levels.old }
    ensures { IsPass steps.now levels.old levels.new (length steps.now) result }
{
    let mut rose = false;
    for s in steps {
        let level = asked(levels, *s);
        if levels[s.from] < level {
            levels[s.from] = level;
            rose = true;
        }
    }
    rose
}

/// The levels, where no subtracted step has a walk back.
pub(crate) fn raised(alloc: Global, steps: &[Step], count: usize) -> Result<Vec<usize>, AllocError>
    requires in_range { AreBelow count steps.now }
    requires few { length steps.now < 2 ^ 63 }
    requires none { NoneBack steps.now }
    ensures { IfOk result (λ v. AreLevels steps.now count v.items) }
{
    let mut levels = zeros(alloc, count)?;
    while pass(steps, &mut levels) {}
    Ok(levels)
}
