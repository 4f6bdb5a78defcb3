//! What groups named a user before a commit.
ghost use Rattle.std.specs.Prelude.{◌≡◌, ◌<◌, ℕ, List, length};
ghost use Rattle.std.specs.List.{AllWithin};
ghost use Rattle.std.specs.List.Sorted.{IsNonDecreasingBy};
ghost use Rattle.direct.specs.Before.{set_at};

use idsets::IdSet;

/// What groups named a user by a tuple of their own before a commit with this revision, by numbers.
#[derive(Drop)]
pub struct EarlierGroups {
    pub rev: u64,
    pub user: u64,
    pub groups: IdSet,
}

/// The groups that name the user at a revision: what was noted first after it, or else what is kept now. What was noted
/// after the revision is gone over.
pub(crate) fn set_at<'a>(
    earlier: &'a [EarlierGroups],
    sets: &'a [IdSet],
    user: u64,
    rev: u64,
) -> &'a IdSet
    requires order { IsNonDecreasingBy (λ e. e.rev) earlier.now }
    requires within { user < length sets.now }
    ensures { result.now ≡ set_at earlier.now sets.now user rev }
{
    let later = later_than(earlier, rev);
    for e in later {
        if user == e.user {
            return &e.groups;
        }
    }
    &sets[user as usize]
}

/// What was noted after a revision. It is searched for by halves.
fn later_than(earlier: &[EarlierGroups], rev: u64) -> &[EarlierGroups]
    requires { IsNonDecreasingBy (λ e. e.rev) earlier.now }
    ensures later { AllWithin (λ e. rev < e.rev) result.now 0 (length result.now) }
    ensures same { (sets : List (List ℕ)) (user : ℕ) → set_at result.now sets user rev ≡ set_at earlier.now sets user rev }
{
    let first = earlier.partition_point(|e| e.rev <= rev);
    &earlier[first..]
}
