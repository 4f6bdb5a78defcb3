//! Steps on their way to the copies.
ghost use Rattle.std.specs.Prelude.{◌≡◌, IsTrue};
ghost use Rattle.published.specs.Judged.{AreJudged};
ghost use Rattle.published.specs.Known.{Known, next_of};

use crate::book::{Naming, StepPrefix};
use crate::made::{MadeIndex, MadeIndexes};
use shown::Step;
use std::cell::Cell;
use std::marker::Model;

/// A step, and the list of the book that `J` names which it ends. All steps of that were judged: a copy that has the others need
/// not judge it again. With a step that moves the index there may come an index for each copy. Contracts see it as the step and the
/// list.
#[derive(Drop)]
pub struct Post<J: Naming> {
    step: Step,
    after: StepPrefix,
    first: Cell<Option<MadeIndex<J>>>,
    second: Cell<Option<MadeIndex<J>>>,
}

impl<J: Naming> Model for Post<J> {
    ghost use Rattle.std.specs.Prelude.{◌≡◌};
    ghost use Rattle.published.specs.Copies.{Posted};
    ghost use Rattle.published.specs.Judged.{AreJudged};
    ghost use Rattle.published.specs.Known.{Known, next_of};
    ghost use Rattle.published.specs.inside.WritingCodes.{coded_posted};

    ghost Value = { Posted };

    ghost coded = { coded_posted };

    ghost view = { λ p. record { step = p.step; after = p.after } };

    ghost invariant = { λ p. (p.after.book ≡ J.book) × AreJudged p.after.steps
        × ((before : Known) × (p.after ≡ next_of before p.step)) };
}

impl<J: Naming> Post<J> {
    /// The step by which one list becomes another.
    pub(crate) fn new(step: Step, after: StepPrefix, made: Option<MadeIndexes<J>>) -> Post<J>
        requires book { after.book ≡ J.book }
        requires judged { AreJudged after.steps }
        requires ends { (before : Known) × (after ≡ next_of before step) }
        ensures { result ≡ record { step = step; after = after } }
    {
        let (first, second) = match made {
            Some(made) => (Some(made.first), Some(made.second)),
            None => (None, None),
        };
        Post {
            step,
            after,
            first: Cell::new(first),
            second: Cell::new(second),
        }
    }

    /// The step.
    pub(crate) fn step(&self) -> &Step
        ensures { result.now ≡ self.now.step }
    {
        &self.step
    }

    /// An index that came with it and that no copy has taken, if one is left.
    pub(crate) fn take_index(&self) -> Option<MadeIndex<J>> {
        match self.first.replace(None) {
            Some(made) => Some(made),
            None => self.second.replace(None),
        }
    }

    /// The list that it ends.
    pub(crate) fn after(&self) -> &StepPrefix
        ensures same { result.now ≡ self.now.after }
        ensures book { result.now.book ≡ J.book }
        ensures judged { AreJudged result.now.steps }
    {
        &self.after
    }

    /// Whether it is the next step after these. It compares two lengths: there is one list of the book.
    pub(crate) fn is_next_of(&self, steps: &StepPrefix) -> bool
        requires { steps.now.book ≡ J.book }
        ensures next { IsTrue result → self.now.after ≡ next_of steps.now self.now.step }
        ensures judged { AreJudged self.now.after.steps }
    {
        steps.begins(&self.after) && steps.len() + 1 == self.after.len()
    }
}
