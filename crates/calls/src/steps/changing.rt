//! The calls that change something.
ghost use Rattle.std.specs.Prelude.{◌≡◌, ℕ, List};
ghost use mathlib.Core.List.{IsPrefix};
ghost use Rattle.names.specs.Calls.{told};
ghost use Rattle.names.specs.declared.call.Call.{Call as AnyCall};
ghost use Rattle.published.specs.Judged.{AreJudged, WereJudged};
ghost use Rattle.published.specs.Known.{Begins};
ghost use Rattle.desk.specs.Posts.{shown_by};
ghost use Rattle.calls.specs.Changes.{AsksChange};
ghost use Rattle.calls.specs.steps.Change.{ChangeStep};

use crate::changes::made_reply;
use crate::steps::refusing::refuse;
use desk::{Change, Desk};
use names::Reply;
use published::{Naming, Session};
use std::alloc::Global;
use std::sync::Wait;
use tables::Tables;

/// Makes a change, and tells of it. The session then knows no less than it did, and all that is shown.
pub fn change_on<T: Tables + Drop, J: Naming, R: Wait + Drop>(
    alloc: Global,
    desk: &mut Desk<T, J, R>,
    session: &mut Session<J>,
    change: Change,
) -> Reply
    requires { session.old.book ≡ desk.old.book }
    ensures step { (call : AnyCall) (body : List ℕ) → AsksChange call body change
        → ChangeStep T.Tables desk.old call body (told result) desk.new }
    ensures book { desk.new.book ≡ desk.old.book }
    ensures later { IsPrefix desk.old.shown desk.new.shown }
    ensures kept { Begins session.old session.new }
    ensures known { Begins (shown_by desk.new) session.new }
    ensures judged { WereJudged desk.new.posted desk.new.shown }
    ensures known_judged { AreJudged session.new.steps }
{
    match desk.change(change) {
        Ok(done) => {
            session.learn(&done.receipt);
            made_reply(alloc, &done)
        }
        Err(why) => refuse(alloc, desk, session, &why),
    }
}
