//! The laws of a desk under a keeper's lock.
ghost use Rattle.std.specs.Prelude.{IsTrue};
ghost use Rattle.logbook.specs.Pages.{Book};
ghost use Rattle.shown.specs.declared.question.Question.{Question};
ghost use Rattle.shown.specs.Standing.{standing};
ghost use Rattle.shown.specs.Asked.{IsAhead};
ghost use Rattle.published.specs.Judged.{AreJudged};
ghost use Rattle.published.specs.Known.{Begins, Known};
ghost use Rattle.published.specs.Receipts.{ReceiptFacts};
ghost use Rattle.desk.specs.Posts.{Posts};
ghost use Rattle.desk.specs.Changes.{Tells, TellsShown};
ghost use Rattle.keeper.specs.Kept.{IsKept};
ghost use Rattle.keeper.specs.Shown.{consistency_of, AsksAtMost, ShowsWhatIsStored};

use tables::Tables;

/// The law that what is shown is of the history that is stored.
pub fn what_is_shown_is_stored<T: Tables>()
    ensures { (book : Book) (desk : Posts T) → IsKept T.Tables book desk → ShowsWhatIsStored T.Tables desk }
{}

/// The law that a session which has learnt a receipt refuses no question as one of the future that asks for the receipt's
/// revision: where the receipt says that the revision is shown, or names the newest shown one.
pub fn what_was_shown_is_not_of_the_future<T: Tables>()
    ensures shown { (book : Book) (desk : Posts T) (receipt : ReceiptFacts) (known : Known) (question : Question)
        → IsKept T.Tables book desk → Begins receipt.published known → AreJudged known.steps
        → AsksAtMost (consistency_of question) receipt.rev → Tells receipt desk → IsTrue receipt.shown
        → ¬ (IsAhead (standing known.steps) question) }
    ensures newest { (book : Book) (desk : Posts T) (receipt : ReceiptFacts) (known : Known) (question : Question)
        → IsKept T.Tables book desk → Begins receipt.published known → AreJudged known.steps
        → AsksAtMost (consistency_of question) receipt.rev → TellsShown receipt desk
        → ¬ (IsAhead (standing known.steps) question) }
{}
