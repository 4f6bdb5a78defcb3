//! Receipts.
ghost use Rattle.std.specs.Prelude.{◌≡◌};
ghost use Rattle.published.specs.Judged.{AreJudged};

use crate::book::StepPrefix;
use std::marker::Model;
use zookie::Zookie;

/// Steps that a publication shows. All of them were judged before they were posted.
#[derive(Drop)]
pub struct ShownSteps {
    prefix: StepPrefix,
}

impl Model for ShownSteps {
    ghost use Rattle.published.specs.Known.{Known};
    ghost use Rattle.published.specs.Judged.{AreJudged};
    ghost use Rattle.published.specs.inside.Codes.{coded_known};

    ghost Value = { Known };

    ghost coded = { coded_known };

    ghost view = { λ s. s.prefix };

    ghost invariant = { λ s. AreJudged s.prefix.steps };
}

impl ShownSteps {
    pub(crate) fn of(prefix: StepPrefix) -> ShownSteps
        requires { AreJudged prefix.steps }
        ensures { result ≡ prefix }
    {
        ShownSteps { prefix }
    }

    /// The list of them.
    pub(crate) fn prefix(&self) -> &StepPrefix
        ensures same { result.now ≡ self.now }
        ensures judged { AreJudged result.now.steps }
    {
        &self.prefix
    }
}

/// What a caller is told of an accepted change: the zookie of the newest posted revision, whether all
/// that is posted is shown, and the shown steps, which exist in proofs alone.
#[derive(Drop)]
pub struct Receipt {
    zookie: Zookie,
    shown: bool,
    published: ShownSteps,
}

impl Model for Receipt {
    ghost use Rattle.published.specs.Receipts.{ReceiptFacts};
    ghost use Rattle.published.specs.inside.Codes.{coded_receipt};

    ghost Value = { ReceiptFacts };

    ghost coded = { coded_receipt };

    ghost view = { λ r. record {
      number = r.zookie.store;
      rev = r.zookie.rev;
      shown = r.shown;
      published = r.published;
    } };
}

impl Receipt {
    /// A receipt that says this.
    pub fn new(zookie: Zookie, shown: bool, published: ShownSteps) -> Receipt
        ensures { result ≡ record {
          number = zookie.store;
          rev = zookie.rev;
          shown = shown;
          published = published;
        } }
    {
        Receipt {
            zookie,
            shown,
            published,
        }
    }

    /// The zookie of the newest posted revision.
    pub fn zookie(&self) -> Zookie
        ensures { result ≡ record { store = self.now.number; rev = self.now.rev } }
    {
        self.zookie
    }

    /// Whether all that is posted is shown.
    pub fn is_shown(&self) -> bool
        ensures { result ≡ self.now.shown }
    {
        self.shown
    }

    /// The shown steps.
    pub fn published_steps(&self) -> &StepPrefix
        ensures same { result.now ≡ self.now.published }
        ensures judged { AreJudged result.now.steps }
    {
        self.published.prefix()
    }
}
