//! The graph of a configuration: its relations by their places, and their steps.
ghost use Rattle.std.specs.Prelude.{◌≡◌, ◌<◌, ◌≤◌, ◌↔◌, IsTrue, IfOk, OnOk, length};
ghost use Rattle.names.specs.declared.limits.TheConstants.{MAX_RELATIONS};
ghost use Rattle.config_text.specs.Parts.{parts_of};
ghost use Rattle.config.specs.inside.Graph.{IsStep, IsBetween, Adds, IsGraph};

use crate::steps::steps_to;
use config_text::Parts;
use std::alloc::{AllocError, Global};
use strata::{Graph, Step};

fn is_step(parts: &Parts, step: Step) -> bool
    requires from { step.from < length parts.now.relations.items }
    requires to { step.to < length parts.now.relations.items }
    ensures { IsTrue result ↔ IsStep (parts_of parts.now) step }
{
    let relations = parts.relations.as_slice();
    let from = &relations[step.from];
    let to = &relations[step.to];
    steps_to(parts, from, &from.rewrite, step.subtracted, &to.name)
}

/// Adds the step, if it is one.
fn add_step(parts: &Parts, step: Step, steps: &mut Vec<Step>) -> Result<(), AllocError>
    requires from { step.from < length parts.now.relations.items }
    requires to { step.to < length parts.now.relations.items }
    ensures { OnOk result (Adds (parts_of parts.now) steps.old.items steps.new.items (λ s. s ≡ step) 1) }
{
    if is_step(parts, step) {
        steps.push(step)?;
    }
    Ok(())
}

/// Adds the steps from one place to another.
fn add_steps(parts: &Parts, from: usize, to: usize, steps: &mut Vec<Step>) -> Result<(), AllocError>
    requires from { from < length parts.now.relations.items }
    requires to { to < length parts.now.relations.items }
    ensures { OnOk result (Adds (parts_of parts.now) steps.old.items steps.new.items (IsBetween from to) 2) }
{
    let plain = Step {
        from,
        to,
        subtracted: false,
    };
    add_step(parts, plain, steps)?;
    let subtracted = Step {
        from,
        to,
        subtracted: true,
    };
    add_step(parts, subtracted, steps)?;
    Ok(())
}

/// Adds the steps that start at the place.
fn add_steps_from(parts: &Parts, from: usize, steps: &mut Vec<Step>) -> Result<(), AllocError>
    requires from { from < length parts.now.relations.items }
    requires few { length parts.now.relations.items ≤ MAX_RELATIONS }
    ensures { OnOk result (Adds (parts_of parts.now) steps.old.items steps.new.items (λ s. s.from ≡ from) 512) }
{
    for to in 0..parts.relations.len() {
        add_steps(parts, from, to, steps)?;
    }
    Ok(())
}

/// The graph of the configuration.
pub(crate) fn graph_of(alloc: Global, parts: &Parts) -> Result<Graph, AllocError>
    requires few { length parts.now.relations.items ≤ MAX_RELATIONS }
    ensures count { IfOk result (λ g. g.count ≡ length (parts_of parts.now).relations) }
    ensures graph { IfOk result (λ g. IsGraph (parts_of parts.now) g.steps.items) }
    ensures few { IfOk result (λ g. length g.steps.items ≤ 131072) }
{
    let mut steps = Vec::new(alloc);
    let count = parts.relations.len();
    for from in 0..count {
        add_steps_from(parts, from, &mut steps)?;
    }
    Ok(Graph { count, steps })
}
