//! When a question is asked once more.
ghost use Rattle.std.specs.Prelude.{◌≡◌, ◌↔◌, true, false, IfOk, IfErr};
ghost use Rattle.names.specs.declared.refusal.Refusal.TheVariants.{Future};
ghost use Rattle.shown.specs.Standing.{standing};
ghost use Rattle.shown.specs.Asked.{IsTold, RefusesQuestion};
ghost use Rattle.published.specs.Known.{Begins};
ghost use Rattle.desk.specs.Posts.{shown_by};
ghost use Rattle.calls.specs.Showing.{ShowsFor};

use desk::Desk;
use names::Refusal;
use published::{Naming, Session};
use shown::{Question, Refused, Told};
use std::sync::Wait;
use tables::Tables;

/// Whether the question is of a revision that is not shown yet.
pub fn is_of_the_future(asked: &Result<Told, Refused>) -> bool
    ensures ok { IfOk asked.now (λ _. result ≡ false) }
    ensures err { IfErr asked.now (λ refused. (result ≡ true) ↔ (refused.why ≡ Future)) }
{
    match asked {
        Err(refused) => matches!(refused.why, Refusal::Future),
        Ok(_) => false,
    }
}

/// What the question is told. Where it is of a revision that is not shown yet, what waits is shown first, and the session then
/// knows it.
pub(crate) fn ask<T: Tables + Drop, J: Naming, R: Wait + Drop>(
    desk: &mut Desk<T, J, R>,
    session: &mut Session<J>,
    question: &Question,
) -> Result<Told, Refused>
    requires { Begins (shown_by desk.old) session.old }
    ensures ok { IfOk result (IsTold (standing desk.new.shown) question.now) }
    ensures err { IfErr result (RefusesQuestion (standing desk.new.shown) question.now) }
    ensures shows { ShowsFor question.now desk.old desk.new }
    ensures kept { Begins session.old session.new }
    ensures known { Begins (shown_by desk.new) session.new }
{
    let asked = desk.ask(question);
    if is_of_the_future(&asked) {
        desk.refresh(session);
        return desk.ask(question);
    }
    asked
}
