//! What sessions read: the state, with the steps that it stands for.
ghost use Rattle.std.specs.Prelude.{◌≡◌, ◌∷◌, [], IfOk, IfErr, IfSome};
ghost use Rattle.shown.specs.Adopting.{IsReady};
ghost use Rattle.shown.specs.Copying.{IsCopied};
ghost use Rattle.shown.specs.Paging.{IsPageRefusal};
ghost use Rattle.shown.specs.Standing.{nothing, after_step, standing, HasRoom};
ghost use Rattle.published.specs.Copies.{Stands};
ghost use Rattle.published.specs.Judged.{AreJudged};

use crate::book::{Naming, StepPrefix};
use crate::made::Copied;
use crate::post::Post;
use left_right::Absorb;
use shown::{Answer, IndexAt, Refused, Shown, Step};
use std::alloc::{AllocError, Global};
use std::hash::RandomState;
use std::marker::{Model, PhantomData};
use zookie::Consistency;

/// One published copy: the standing of steps of the book that `J` names, all of which were judged. Contracts see it as the state
/// and the steps.
#[derive(Drop)]
pub struct ShownCopy<J: Naming> {
    shown: Shown,
    prefix: StepPrefix,
    of: PhantomData<J>,
}

impl<J: Naming> Model for ShownCopy<J> {
    ghost use Rattle.std.specs.Prelude.{◌≡◌};
    ghost use Rattle.published.specs.Copies.{Copy, Stands};
    ghost use Rattle.published.specs.inside.WritingCodes.{coded_copy};

    ghost Value = { Copy };

    ghost coded = { coded_copy };

    ghost view = { λ c. record { shown = c.shown; prefix = c.prefix } };

    ghost invariant = { λ c. (c.prefix.book ≡ J.book) × Stands (record { shown = c.shown; prefix = c.prefix }) };
}

impl<J: Naming> ShownCopy<J> {
    /// The copy after the first step.
    pub(crate) fn after_first(
        alloc: Global,
        keys: RandomState,
        step: &Step,
        prefix: &StepPrefix,
    ) -> Result<ShownCopy<J>, AllocError>
        requires room { HasRoom nothing step.now }
        requires book { prefix.now.book ≡ J.book }
        requires one { prefix.now.steps ≡ step.now ∷ [] }
        ensures copy { IfOk result (λ copy.
            copy ≡ record { shown = after_step nothing step.now; prefix = prefix.now }) }
        ensures stands { IfOk result Stands }
    {
        let mut shown = Shown::new(alloc, keys);
        shown.apply(step)?;
        Ok(ShownCopy {
            shown,
            prefix: prefix.again(),
            of: PhantomData,
        })
    }

    /// The state.
    pub(crate) fn shown(&self) -> &Shown
        ensures { result.now ≡ self.now.shown }
    {
        &self.shown
    }

    /// The snapshot of a revision that it retains, copied.
    pub(crate) fn copy_snapshot(&self, consistency: &Consistency) -> Result<Copied<J>, Refused>
        ensures ok { IfOk result (λ copied.
            IsCopied (standing self.now.prefix.steps) consistency.now (record { rev = copied.rev; value = copied.snap })) }
        ensures err { IfErr result (IsPageRefusal (standing self.now.prefix.steps) consistency.now) }
    {
        let Answer { rev, value } = self.shown.copy_snapshot(consistency)?;
        let of = self.prefix.again();
        Ok(Copied::new(self.shown.keys(), of, rev, value))
    }

    /// The steps that it stands for.
    pub(crate) fn prefix(&self) -> &StepPrefix
        ensures { result.now ≡ self.now.prefix }
    {
        &self.prefix
    }
}

impl<J: Naming> Absorb<Post<J>> for ShownCopy<J> {
    ghost use Rattle.published.specs.Copies.{absorbed};

    type State = ShownCopy<J>;

    ghost state = { λ c. c };

    ghost applied = { absorbed };

    /// A post that is not the next one of the book is not taken.
    fn absorb_first(&mut self, post: &Post<J>, _other: &ShownCopy<J>) -> Result<(), AllocError> {
        if !post.is_next_of(&self.prefix) {
            return Err(AllocError);
        }
        match index_for(post, &self.prefix, self.shown.floor()) {
            Some(ready) => self.shown.apply_with(post.step(), ready)?,
            None => self.shown.apply(post.step())?,
        }
        self.prefix = post.after().again();
        Ok(())
    }
}

// An index that came with the post, where it serves a copy of these steps.
fn index_for<J: Naming>(post: &Post<J>, steps: &StepPrefix, floor: u64) -> Option<IndexAt>
    requires book { steps.now.book ≡ J.book }
    requires judged { AreJudged steps.now.steps }
    requires floor { floor ≡ (standing steps.now.steps).kept.floor }
    ensures { IfSome result (IsReady (standing steps.now.steps).kept) }
{
    post.take_index()?.for_steps(steps, floor)
}
