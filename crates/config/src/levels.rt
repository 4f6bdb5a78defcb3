//! The levels of a configuration's relations, or a cycle of them.
ghost use Rattle.std.specs.Prelude.{◌≡◌, ◌<◌, ◌^◌, All, IfOk, IfErr, None, length, map};
ghost use Rattle.config_text.specs.Order.{IsOrdered};
ghost use Rattle.config_text.specs.Parts.{parts_of};
ghost use Rattle.config_text.specs.Spelling.{AreNamed};
ghost use Rattle.config.specs.inside.Graph.{step_by_name, LevelsRefused};
ghost use Rattle.config.specs.Levels.{AreLevels};
ghost use Rattle.config.specs.Valid.{cause_of};

use crate::graph::graph_of;
use config_text::Parts;
use names::{Cause, CycleStep, Items, Refusal};
use std::alloc::{AllocError, Global};
use strata::{Answer, Step, levels};

fn by_name(parts: &Parts, step: Step) -> Result<CycleStep, AllocError>
    requires { step.to < length parts.now.relations.items }
    ensures { IfOk result (λ s. s ≡ step_by_name (parts_of parts.now) step) }
{
    let to = parts.relations[step.to].name.clone()?;
    Ok(CycleStep {
        subtracted: step.subtracted,
        to,
    })
}

fn all_by_name(alloc: Global, parts: &Parts, steps: &[Step]) -> Result<Items<CycleStep>, AllocError>
    requires { All (λ s. s.to < length parts.now.relations.items) steps.now }
    ensures { IfOk result (λ v. v ≡ map (step_by_name (parts_of parts.now)) steps.now) }
{
    let mut named = Vec::new(alloc);
    for step in steps {
        named.push(by_name(parts, *step)?)?;
    }
    Ok(Items::of(named))
}

/// The levels of the relations, in their order; or the refusal with a cycle, the first that `strata`
/// finds.
pub(crate) fn levels_of(alloc: Global, parts: &Parts) -> Result<Vec<usize>, Refusal>
    requires named { AreNamed (parts_of parts.now) }
    requires ordered { IsOrdered (parts_of parts.now) }
    requires causes { cause_of (parts_of parts.now) ≡ None }
    ensures levels { IfOk result (λ v. AreLevels (parts_of parts.now) v.items) }
    ensures small { IfOk result (λ v. All (λ l. l < 2 ^ 32) v.items) }
    ensures err { IfErr result (LevelsRefused (parts_of parts.now)) }
{
    let graph = graph_of(alloc, parts)?;
    match levels(alloc, &graph)? {
        Answer::Levels(levels) => Ok(levels),
        Answer::Cycle(steps) => {
            let cycle = all_by_name(alloc, parts, &steps)?;
            Err(Refusal::ConfigRefused(Cause::Cycle(cycle)))
        }
    }
}
