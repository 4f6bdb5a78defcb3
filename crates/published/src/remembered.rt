//! What a session remembers.
ghost use Rattle.std.specs.Prelude.{◌≡◌, ◌⊎◌, IsTrue, IfOk, IfSome};
ghost use Rattle.shown.specs.Asked.{IsTold};
ghost use Rattle.shown.specs.KeptAnswers.{AreRetainedAnswers};
ghost use Rattle.shown.specs.Standing.{standing};
ghost use Rattle.published.specs.Known.{Begins};
ghost use Rattle.published.specs.Judged.{AreJudged};

use crate::book::StepPrefix;
use answer_cache::CachedAnswers;
use shown::{Question, Refused, Told};
use std::alloc::{AllocError, Global};
use std::hash::RandomState;
use std::marker::Model;

/// What one copy tells: an answer, the number of its store, and the steps that it stands for.
pub type Look<A> = (A, u64, StepPrefix);

/// The steps that a session knows, all of which were judged, and answers of its checks, which are right of what these steps
/// retain. Contracts see it as the steps, with the name of their book.
#[derive(Drop)]
pub struct Remembered {
    known: StepPrefix,
    kept: CachedAnswers,
}

impl Model for Remembered {
    ghost use Rattle.shown.specs.KeptAnswers.{AreRetainedAnswers};
    ghost use Rattle.shown.specs.Standing.{standing};
    ghost use Rattle.published.specs.Known.{Known};
    ghost use Rattle.published.specs.Judged.{AreJudged};
    ghost use Rattle.published.specs.inside.Codes.{coded_known};

    ghost Value = { Known };

    ghost coded = { coded_known };

    ghost view = { λ m. m.known };

    ghost invariant = { λ m.
        AreJudged m.known.steps × AreRetainedAnswers (standing m.known.steps).kept m.kept };
}

impl Remembered {
    /// These steps, and no answer yet.
    pub(crate) fn new(
        alloc: Global,
        keys: RandomState,
        known: StepPrefix,
    ) -> Result<Remembered, AllocError>
        requires { AreJudged known.steps }
        ensures { IfOk result (λ remembered. remembered ≡ known) }
    {
        let kept = CachedAnswers::new(alloc, keys)?;
        Ok(Remembered { known, kept })
    }

    /// All that is known was judged.
    pub(crate) fn knows_judged_steps(&self)
        ensures { AreJudged self.now.steps }
    {
        // A proof knows the invariant where a field is used.
        let _ = &self.known;
    }

    /// Whether these steps begin with what is known.
    pub(crate) fn begins(&self, steps: &StepPrefix) -> bool
        requires book { steps.now.book ≡ self.now.book }
        ensures { IsTrue result → Begins self.now steps.now }
    {
        self.known.begins(steps)
    }

    /// The answers that are kept, for a check at the standing of these steps. Nothing where they do not begin with what is
    /// known: they may then lack a revision of which an answer is kept.
    pub(crate) fn answers_for(&self, steps: &StepPrefix) -> Option<&CachedAnswers>
        requires book { steps.now.book ≡ self.now.book }
        requires judged { AreJudged steps.now.steps }
        ensures later { IfSome result (λ _. Begins self.now steps.now) }
        ensures right { IfSome result (λ kept. AreRetainedAnswers (standing steps.now.steps).kept kept.now) }
    {
        if self.known.begins(steps) {
            Some(&self.kept)
        } else {
            None
        }
    }

    /// From now on these steps are known. The answers stay.
    pub(crate) fn advance(&mut self, steps: StepPrefix)
        requires later { Begins self.old steps }
        requires judged { AreJudged steps.steps }
        ensures { self.new ≡ steps }
    {
        self.known = steps;
    }

    /// From now on no less than these steps is known. The answers stay.
    pub(crate) fn learn(&mut self, steps: &StepPrefix)
        requires book { steps.now.book ≡ self.old.book }
        requires judged { AreJudged steps.now.steps }
        ensures judged { AreJudged self.new.steps }
        ensures kept { Begins self.old self.new }
        ensures told { Begins steps.now self.new }
        ensures least { (self.new ≡ self.old) ⊎ (self.new ≡ steps.now) }
    {
        self.known = self.known.longer(steps);
    }

    /// Keeps what a check was answered, as far as there is memory for it. The steps stay.
    pub(crate) fn keep(&mut self, question: &Question, asked: &Result<Told, Refused>)
        requires { IfOk asked.now (IsTold (standing self.old.steps) question.now) }
        ensures { self.new ≡ self.old }
    {
        let Ok(told) = asked else {
            return;
        };
        let Question::Check(_, node, user) = question else {
            return;
        };
        let Told::Checked(answer) = told else {
            return;
        };
        let _kept = self.kept.keep(answer.rev, node, user, answer.value);
    }
}
