//! What holds of histories whose tuples are found by whom they name.
ghost use Rattle.std.specs.Prelude.{ℕ};
ghost use Rattle.meaning.specs.TupleSet.{Tuples};
ghost use Rattle.rows.specs.Retained.{Retained, snap_at, without_newest};
ghost use Rattle.by_subject.specs.Complete.{Covers, IsCompleteFor};

/// Each tuple of a revision that is retained is found by its subject.
pub fn what_is_retained_is_found()
    ensures { (r : Retained) (found : Tuples) → IsCompleteFor r found → (rev : ℕ) → Covers found (snap_at r rev).tuples }
{}

/// No tuple is to be taken where the newest commit is taken off.
pub fn it_is_complete_without_the_newest_commit()
    ensures { (r : Retained) (found : Tuples) → IsCompleteFor r found → IsCompleteFor (without_newest r) found }
{}
