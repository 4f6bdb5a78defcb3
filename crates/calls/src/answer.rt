//! Calls by bytes.
ghost use mathlib.Core.List.{IsPrefix};
ghost use Rattle.names.specs.Calls.{told};
ghost use Rattle.shown.specs.Standing.{standing};
ghost use Rattle.published.specs.Judged.{AreJudged, WereJudged};
ghost use Rattle.published.specs.Known.{Begins};
ghost use Rattle.published.specs.Rising.{Rises};
ghost use Rattle.desk.specs.Posts.{shown_by};
ghost use Rattle.calls.specs.Rules.{DeskStep};

use crate::changes::{change_of, is_change};
use crate::questions::question_of;
use crate::steps::asking::question_on;
use crate::steps::changing::change_on;
use bodies::refusals::refusal;
use desk::Desk;
use names::{Call, Reply};
use published::{Naming, Session};
use std::alloc::Global;
use std::sync::Wait;
use tables::Tables;

/// Answers a call, whose body is these bytes, on a desk that the caller holds. The session then knows no less than it did,
/// and all that is shown. A question of the future is asked once more after what waits was shown. What is shown never goes
/// back: its floor and its newest revision are no lower than before, in the same store.
pub fn answer_on<T: Tables + Drop, J: Naming, R: Wait + Drop>(
    alloc: Global,
    desk: &mut Desk<T, J, R>,
    session: &mut Session<J>,
    call: Call,
    body: &[u8],
) -> Reply
    requires { Begins (shown_by desk.old) session.old }
    ensures step { DeskStep T.Tables desk.old call body.now (told result) desk.new }
    ensures kept { Begins session.old session.new }
    ensures known { Begins (shown_by desk.new) session.new }
    ensures judged { WereJudged desk.new.posted desk.new.shown }
    ensures known_judged { AreJudged session.new.steps }
    ensures rises { Rises (standing desk.old.shown).kept (standing desk.new.shown).kept }
{
    desk.see();
    let reply = if is_change(call) {
        match change_of(alloc, call, body) {
            Ok(change) => change_on(alloc, desk, session, change),
            Err(why) => refusal(alloc, &why),
        }
    } else {
        match question_of(alloc, call, body) {
            Ok(question) => question_on(alloc, desk, session, &question),
            Err(why) => refusal(alloc, &why),
        }
    };
    desk.see();
    session.knows_judged_steps();
    reply
}
