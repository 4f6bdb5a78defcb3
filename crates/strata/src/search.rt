//! All that the steps lead to from one relation.
ghost use Rattle.std.specs.Prelude.{◌≡◌, ◌<◌, true, false, All, IfOk, OnOk, length, replicate, slice_set};
ghost use Rattle.std.specs.List.Sorted.{IsNonDecreasingBy};
ghost use Rattle.strata.specs.declared.graph.Step.{Step};
ghost use Rattle.strata.specs.declared.search.Seen.{Seen};
ghost use Rattle.strata.specs.inside.Search.{IsReached, IsMarked, HasSpread, LeaveFrom};

use crate::Step;
use crate::order::steps_from;
use std::alloc::{AllocError, Global};

/// A relation that was reached, by a step from the one at the place `by`.
#[derive(Clone, Copy)]
pub(crate) struct Seen {
    pub node: usize,
    pub by: usize,
    pub subtracted: bool,
}

/// What was reached, in the order of a search in breadth, and for each relation whether it was.
#[derive(Drop)]
pub(crate) struct Search {
    pub seen: Vec<Seen>,
    pub marks: Vec<bool>,
}

impl Search {
    /// Adds what the steps lead to and was not reached. They start at what stands at the place `by`.
    fn spread(&mut self, steps: &[Step], by: usize) -> Result<(), AllocError>
        requires place { by < length self.old.seen.items }
        requires in_range { All (λ s. s.to < length self.old.marks.items) steps.now }
        requires marked { IsMarked self.old.marks.items self.old.seen.items }
        requires leave { LeaveFrom self.old.seen.items by steps.now }
        ensures { OnOk result (HasSpread self.old self.new steps.now) }
    {
        for s in steps {
            if !self.marks[s.to] {
                self.marks[s.to] = true;
                self.seen.push(Seen {
                    node: s.to,
                    by,
                    subtracted: s.subtracted,
                })?;
            }
        }
        Ok(())
    }
}

/// No marks but at the start.
fn marks_at(alloc: Global, count: usize, start: usize) -> Result<Vec<bool>, AllocError>
    requires { start < count }
    ensures { IfOk result (λ marks. marks.items ≡ slice_set (replicate count false) start true) }
{
    let mut marks = vec![in alloc; false; count]?;
    marks[start] = true;
    Ok(marks)
}

/// All that can be reached from the start, by the steps.
pub(crate) fn reached(
    alloc: Global,
    steps: &[Step],
    count: usize,
    start: usize,
) -> Result<Search, AllocError>
    requires in_order { IsNonDecreasingBy (λ s. s.from) steps.now }
    requires in_range { All (λ s. s.to < count) steps.now }
    requires start { start < count }
    ensures reached { IfOk result (λ search. IsReached steps.now start search.seen.items) }
    ensures marked { IfOk result (λ search. IsMarked search.marks.items search.seen.items) }
    ensures marks { IfOk result (λ search. length search.marks.items ≡ count) }
{
    let mut seen = Vec::new(alloc);
    seen.push(Seen {
        node: start,
        by: 0,
        subtracted: false,
    })?;
    let mut search = Search {
        seen,
        marks: marks_at(alloc, count, start)?,
    };
    let mut at = 0;
    while at < search.seen.len() {
        let next = steps_from(steps, search.seen[at].node);
        search.spread(next, at)?;
        at += 1;
    }
    Ok(search)
}
