//! Tuples by their subjects, as far as there is memory for them.
ghost use Rattle.std.specs.Prelude.{IfSome};
ghost use Rattle.by_subject.specs.Complete.{IsCompleteFor};
ghost use Rattle.rows.specs.Loads.{retained_of};
ghost use Rattle.rows.specs.Retained.{Retained, IsRetained, with_commit, after_trim};

use by_subject::BySubject;
use rows::{Loaded, Rows};
use std::alloc::Global;
use tuple_keys::KeptCommit;

/// The tuples that a history was made of, by their subjects, if they are to be kept. Nothing where there is no memory.
pub(crate) fn subjects_of(alloc: Global, loaded: &Loaded, is_kept: bool) -> Option<BySubject>
    ensures { IfSome result (IsCompleteFor (retained_of loaded.now)) }
{
    if is_kept {
        BySubject::of(alloc, loaded).ok()
    } else {
        None
    }
}

/// The same with those that a commit puts, whether it is added then or not. Nothing where there is no memory.
pub(crate) fn subjects_with(subjects: Option<BySubject>, commit: &KeptCommit) -> Option<BySubject>
    ensures with { (r : Retained) → IfSome subjects (IsCompleteFor r)
        → IfSome result (IsCompleteFor (with_commit r commit.now)) }
    ensures without { (r : Retained) → IfSome subjects (IsCompleteFor r) → IfSome result (IsCompleteFor r) }
{
    let mut subjects = subjects?;
    subjects.take(commit).ok()?;
    Some(subjects)
}

/// The same where the floor is to rise: what no revision from that on has is forgotten.
pub(crate) fn subjects_from(
    subjects: Option<BySubject>,
    rows: &Rows,
    floor: u64,
) -> Option<BySubject>
    requires { IsRetained rows.now floor }
    ensures { IfSome subjects (IsCompleteFor rows.now) → IfSome result (IsCompleteFor (after_trim rows.now floor)) }
{
    let mut subjects = subjects?;
    subjects.forget_below(rows, floor);
    Some(subjects)
}
