//! What holds after any events.
ghost use Rattle.std.specs.Prelude.{◌≡◌, ◌≤◌, ◌↔◌, ℕ, List, true};
ghost use Rattle.rows.specs.Loads.{IsWithin};
ghost use Rattle.rows.specs.Retained.{Retained, newest};
ghost use Rattle.rows.specs.declared.loaded.Loaded.{Loaded};
ghost use Rattle.publication.specs.declared.event.Event.{Event};
ghost use Rattle.shown.specs.declared.question.Question.{Question};
ghost use Rattle.publication.specs.Keeping.{KeepsRetained};
ghost use Rattle.publication.specs.World.{Happening, is_within};
ghost use Rattle.publication.specs.Runs.{AnswersRise, PostsStored};

/// A question is answered by the standing of a beginning of the posted steps. It is no shorter than any
/// by which the seat was answered before, and than what it was told of.
pub fn answers_rise()
    ensures { (run : List Happening) (seat : ℕ) (q : Question) → AnswersRise run seat q }
{}

/// The posted steps begin with the opening, and the commits among the others are stored ones in their
/// order, none left out. The published steps are a beginning of the posted ones.
pub fn posts_stored()
    ensures { (events : List Event) → PostsStored events }
{}

/// What can be opened is what tables load: the tuples of the floor in order, the limits, that each commit's events
/// are in order, and that each revision's tuples are admitted.
pub fn opens_what_is_within()
    ensures { (loaded : Loaded) → (is_within loaded ≡ true) ↔ IsWithin loaded }
{}

/// A higher floor leaves each revision from it on as it was.
pub fn trims_keep_what_they_retain()
    ensures { (r : Retained) (floor : ℕ) → r.floor ≤ floor → floor ≤ newest r → KeepsRetained r floor }
{}
