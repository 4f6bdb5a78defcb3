//! The laws of a desk, by events.
ghost use Rattle.std.specs.Prelude.{◌≡◌, ◌≢◌, ℕ, List, Ok, Err, Option};
ghost use mathlib.Core.List.{IsPrefix};
ghost use Rattle.names.specs.declared.call.Call.{Call};
ghost use Rattle.names.specs.declared.refusal.Refusal.TheVariants.{Memory};
ghost use Rattle.shown.specs.declared.answer.Refused.{Refused};
ghost use Rattle.shown.specs.declared.question.Question.{Question};
ghost use Rattle.shown.specs.declared.question.Told.{Told};
ghost use Rattle.shown.specs.declared.step.Step.{Step};
ghost use Rattle.shown.specs.Standing.{standing};
ghost use Rattle.shown.specs.Asked.{IsTold, RefusesQuestion};
ghost use Rattle.published.specs.Judged.{AreJudged};
ghost use Rattle.publication.specs.declared.event.Event.{Event};
ghost use Rattle.publication.specs.World.{State, start};
ghost use Rattle.publication.specs.Runs.{after_events};
ghost use Rattle.published.specs.Receipts.{ReceiptFacts};
ghost use Rattle.desk.specs.Posts.{Posts, ShowsMore};
ghost use Rattle.desk.specs.Made.{IsMade};
ghost use Rattle.desk.specs.declared.change.Change.{Change};
ghost use Rattle.desk.specs.declared.change.Made.{Made};
ghost use Rattle.calls.specs.Beginning.{Began};
ghost use Rattle.calls.specs.Rules.{DeskStep};
ghost use Rattle.refinement.specs.Events.{state_after, state_of, Lead, IsRunTo, AnswersOnEntry};

use tables::Tables;

/// The law that a desk which was opened on tables stands where the machine does after an opening was posted and published.
pub fn openings_are_events<T: Tables>()
    ensures { (tables : T) (first : Posts T) → Began T.Tables tables first → IsRunTo start (state_of first) }
{}

/// The law that a change which is made is stored, posted and published, as far as it is shown; and that showing more, as each
/// refused change, each refresh and each session that is given out may, publishes what waits, if anything. All that the desk had
/// posted was judged, as that of every desk was.
pub fn changes_are_events<T: Tables>()
    ensures made { (old new : Posts T) (change : Change) (made : Made) (receipt : ReceiptFacts)
        → AreJudged old.posted → IsMade T.Tables old change made receipt new → IsRunTo (state_of old) (state_of new) }
    ensures shown { (old new : Posts T)
        → AreJudged old.posted → ShowsMore old new → IsRunTo (state_of old) (state_of new) }
{}

/// The law that each call which a desk answers takes it where some events take the machine: a change as above, and a question
/// publishes what waits, if anything.
pub fn calls_are_events<T: Tables>()
    ensures { (old new : Posts T) (call : Call) (body : List ℕ) (told : Option (ℕ × List ℕ))
        → AreJudged old.posted → DeskStep T.Tables old call body told new → IsRunTo (state_of old) (state_of new) }
{}

/// The law that a question which is told or refused by the standing of shown steps, but for want of memory, is one that entered
/// the machine where these are published. So it is for a desk, and for a session by the steps that it knows.
pub fn questions_are_entries()
    ensures told { (posted shown : List Step) (question : Question) (answer : Told)
        → AreJudged shown → IsPrefix shown posted → IsTold (standing shown) question answer
        → AnswersOnEntry (state_after posted shown) question (Ok answer) }
    ensures refused { (posted shown : List Step) (question : Question) (refused : Refused)
        → AreJudged shown → IsPrefix shown posted → RefusesQuestion (standing shown) question refused → refused.why ≢ Memory
        → AnswersOnEntry (state_after posted shown) question (Err refused) }
{}

/// The law that runs can be put one behind the other, and that what events lead to is what the machine comes to by them: so what
/// holds after any events holds of a desk.
pub fn events_lead_on()
    ensures on { (s t u : State) → IsRunTo s t → IsRunTo t u → IsRunTo s u }
    ensures after { (events : List Event) (s t : State) → Lead events s t → t ≡ after_events s events }
{}
