//! Levels of relations that may subtract from each other: the greatest number of subtracted steps on a
//! path that starts at the relation. They exist unless a cycle has a subtracted step; the answer is then
//! such a cycle.
#![tactic(auto)]

ghost use Rattle.std.specs.Prelude.{ℕ, List, IfOk};
ghost use Rattle.strata.specs.declared.graph.Step.{Step};
ghost use Rattle.strata.specs.Graph.{AreBelow, AreLevels, IsCertificate, IsAnswer};

use std::alloc::{AllocError, Global};

mod cycle;
mod graph;
mod order;
mod raise;
mod search;

use cycle::first_cycle;
pub use graph::{Answer, Graph, Step};
use order::distinct;
use raise::raised;

/// The level of each relation, or a cycle that begins with a subtracted step.
///
/// It looks for a cycle once from each relation at which a subtracted step ends, over the steps without
/// their repeats, and then raises the levels in passes over these.
pub fn levels(alloc: Global, graph: &Graph) -> Result<Answer, AllocError>
    requires in_range { AreBelow graph.now.count graph.now.steps.items }
    ensures { IfOk result (IsAnswer graph.now.steps.items graph.now.count) }
{
    let steps = distinct(alloc, &graph.steps)?;
    match first_cycle(alloc, &steps, graph.count)? {
        Some(cycle) => Ok(Answer::Cycle(cycle)),
        None => Ok(Answer::Levels(raised(alloc, &steps, graph.count)?)),
    }
}

/// A graph with a cycle that begins with a subtracted step has no levels: of the two answers one alone
/// can be given.
pub fn never_both()
    ensures { (steps : List Step) (count : ℕ) (levels : List ℕ) (cycle : List Step)
        → AreBelow count steps → AreLevels steps count levels → IsCertificate steps cycle → ⊥ }
{}
