//! Questions by bytes, of a session alone: with no lock and no wait, by their type.
ghost use Rattle.names.specs.Calls.{told};
ghost use Rattle.keeper.specs.Kept.{KnowsMore};
ghost use Rattle.keeper.specs.Questions.{AgainTold, IsAsked};

use bodies::refusals::refusal;
use calls::{is_of_the_future, question_of, told_reply};
use names::{Call, Refusal, Reply};
use published::{Naming, Session};
use shown::Question;
use std::alloc::Global;

/// What a session makes of a call that asks: a reply, or a question of a revision that it does not know yet.
#[derive(Drop)]
pub enum Asked {
    Told(Reply),
    NotYet(Question),
}

/// Reads a question, and asks it. Where it is of a revision that the session does not know yet, it comes back, to be asked again
/// once the session knows more.
pub fn ask_from<J: Naming>(
    alloc: Global,
    session: &mut Session<J>,
    call: Call,
    body: &[u8],
) -> Asked
    ensures { IsAsked session.old call body.now result session.new }
{
    let question = match question_of(alloc, call, body) {
        Ok(question) => question,
        Err(why) => return Asked::Told(refusal(alloc, &why)),
    };
    match session.ask(&question) {
        Some((number, asked)) => {
            if is_of_the_future(&asked) {
                return Asked::NotYet(question);
            }
            Asked::Told(told_reply(alloc, number, &asked))
        }
        None => Asked::Told(refusal(alloc, &Refusal::Reopen)),
    }
}

/// Asks a question, whatever its answer is.
pub fn ask_again<J: Naming>(alloc: Global, session: &mut Session<J>, question: &Question) -> Reply
    ensures told { AgainTold session.old session.new question.now (told result) }
    ensures later { KnowsMore session.old session.new }
{
    match session.ask(question) {
        Some((number, asked)) => told_reply(alloc, number, &asked),
        None => refusal(alloc, &Refusal::Reopen),
    }
}
