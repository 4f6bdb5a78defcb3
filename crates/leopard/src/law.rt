//! The laws of the index.
ghost use Rattle.leopard.specs.Law.{MeetWhereMember, MeanTheSame, AnswersAreOne};
ghost use Rattle.leopard.specs.Build.{ThereIsOneBuild};

/// The law that for a group its closure and a user's direct groups meet exactly where the user is a member of it.
pub fn closures_meet_where_members()
    ensures { MeetWhereMember }
{}

/// The law that an expression means by the index of a snapshot what it means by the snapshot.
pub fn indexes_mean_what_their_snapshots_do()
    ensures { MeanTheSame }
{}

/// The law that a question about groups has one answer: so an index answers as `groups_at` does.
pub fn answers_are_one()
    ensures { AnswersAreOne }
{}

/// The law that a snapshot has one index of each revision: so it is the same in whatever way it was built.
pub fn there_is_one_build()
    ensures { ThereIsOneBuild }
{}
