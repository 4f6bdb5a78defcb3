//! What holds of the commits that can follow.
ghost use Rattle.std.specs.Prelude.{◌≡◌, ℕ, List};
ghost use Rattle.names.specs.declared.commit.Event.{Event};
ghost use Rattle.names.specs.declared.commit.Commit.{Commit};
ghost use Rattle.meaning.specs.Config.{Configured};
ghost use Rattle.meaning.specs.Verdict.{Newest};
ghost use Rattle.meaning.specs.History.{History, snap};
ghost use Rattle.rows.specs.Retained.{Retained, newest_of, snap_at, store_from, AreAdmitted, HasRoom};
ghost use Rattle.rows.specs.Follows.{FollowsWhereWritten, IsNext};

/// Events are refused exactly where no write that is accepted gives them.
pub fn refuses_what_no_write_gives()
    ensures { (newest : Newest) (events : List Event) → FollowsWhereWritten newest events }
{}

/// Where the newest revision's tuples are admitted, a commit that can follow has room.
pub fn what_follows_has_room()
    ensures { (r : Retained) (c : Commit Configured) → AreAdmitted (newest_of r).held → IsNext r c → HasRoom r c }
{}

/// In a store that was never trimmed, each revision holds what the commits up to it give, from nothing on.
pub fn revisions_hold_what_their_commits_give()
    ensures { (number : ℕ) (h : History) (rev : ℕ) → snap_at (store_from number h) rev ≡ snap h rev }
{}
