//! The law of a desk whose tables have failed.
ghost use Rattle.std.specs.Prelude.{◌≡◌, ℕ, true, List, Option};
ghost use Rattle.names.specs.declared.call.Call.{Call};
ghost use Rattle.desk.specs.Posts.{Posts};
ghost use Rattle.calls.specs.Changes.{is_change};
ghost use Rattle.calls.specs.Rules.{DeskStep};
ghost use Rattle.calls.specs.Failing.{StaysFailed};

use tables::Tables;

/// The law that a desk whose tables have failed makes no change any more. Each call that is a change is told to open the tables
/// again, or why its body asks for none, and the tables and what is posted stay as they are.
pub fn failed_desks_make_no_change<T: Tables>()
    ensures { (old new : Posts T) (call : Call) (body : List ℕ) (told : Option (ℕ × List ℕ))
        → old.failed ≡ true → is_change call ≡ true → DeskStep T.Tables old call body told new
        → StaysFailed old call body told new }
{}
