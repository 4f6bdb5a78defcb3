//! The calls that ask.
ghost use Rattle.std.specs.Prelude.{ℕ, List};
ghost use mathlib.Core.List.{IsPrefix};
ghost use Rattle.names.specs.Calls.{told};
ghost use Rattle.names.specs.declared.call.Call.{Call as AnyCall};
ghost use Rattle.published.specs.Known.{Begins};
ghost use Rattle.desk.specs.Posts.{shown_by};
ghost use Rattle.calls.specs.Questions.{Asks};
ghost use Rattle.calls.specs.steps.Ask.{AskStep};

use crate::asking::ask;
use crate::questions::told_reply;
use desk::Desk;
use names::Reply;
use published::{Naming, Session};
use shown::Question;
use std::alloc::Global;
use std::sync::Wait;
use tables::Tables;

/// Asks a question, and tells of it. The session then knows no less than it did, and all that is shown.
pub(crate) fn question_on<T: Tables + Drop, J: Naming, R: Wait + Drop>(
    alloc: Global,
    desk: &mut Desk<T, J, R>,
    session: &mut Session<J>,
    question: &Question,
) -> Reply
    requires { Begins (shown_by desk.old) session.old }
    ensures step { (call : AnyCall) (body : List ℕ) → Asks call body question.now
        → AskStep desk.old call body (told result) desk.new }
    ensures later { IsPrefix desk.old.shown desk.new.shown }
    ensures kept { Begins session.old session.new }
    ensures known { Begins (shown_by desk.new) session.new }
{
    let asked = ask(desk, session, question);
    told_reply(alloc, desk.number(), &asked)
}
