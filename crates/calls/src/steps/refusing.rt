//! Calls that are refused.
ghost use Rattle.std.specs.Prelude.{◌≡◌};
ghost use Rattle.names.specs.Calls.{told};
ghost use Rattle.bodies.specs.Replies.{SaysRefusal};
ghost use Rattle.published.specs.Judged.{AreJudged};
ghost use Rattle.published.specs.Known.{Begins};
ghost use Rattle.desk.specs.Posts.{ShowsMore, SameTables, shown_by};

use bodies::refusals::refusal;
use desk::Desk;
use names::{Refusal, Reply};
use published::{Naming, Session};
use std::alloc::Global;
use std::sync::Wait;
use tables::Tables;

/// What a refused change is answered. The session then knows what is shown.
pub(crate) fn refuse<T: Tables + Drop, J: Naming, R: Wait + Drop>(
    alloc: Global,
    desk: &mut Desk<T, J, R>,
    session: &mut Session<J>,
    why: &Refusal,
) -> Reply
    requires { session.old.book ≡ desk.old.book }
    ensures says { SaysRefusal (told result) why.now }
    ensures more { ShowsMore desk.old desk.new }
    ensures same { SameTables desk.old desk.new }
    ensures seats { desk.new.seats ≡ desk.old.seats }
    ensures kept { Begins session.old session.new }
    ensures known { Begins (shown_by desk.new) session.new }
    ensures known_judged { AreJudged session.new.steps }
{
    desk.refresh(session);
    refusal(alloc, why)
}
