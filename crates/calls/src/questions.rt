//! What the body of a call asks, and what a question is answered.
ghost use Rattle.std.specs.Prelude.{◌≡◌, IfOk, IfErr, option_map};
ghost use Rattle.names.specs.Calls.{told};
ghost use Rattle.zookie.specs.Text.{zookie_text};
ghost use Rattle.bodies.specs.Replies.{SaysRefusalAt};
ghost use Rattle.calls.specs.Questions.{Asks, AsksNothing, SaysTold};

use bodies::grouping::{groups, groups_body};
use bodies::looking::{lookup_body, objects};
use bodies::pages::watched;
use bodies::paging::{page, read_body};
use bodies::refusals::{refusal, refusal_at};
use bodies::replies::{answer, state};
use bodies::requests::{check_body, expand_body};
use bodies::trees::expanded;
use bodies::watching::watch_body;
use names::{Call, Refusal, Reply};
use shown::{Depth, Objects, Question, Refused, Told};
use std::alloc::Global;
use zookie::Zookie;

/// What the body of a call asks. `BadZookie` comes only where all else is of the form; a call that changes something asks
/// nothing, and is `Malformed`.
pub fn question_of(alloc: Global, call: Call, body: &[u8]) -> Result<Question, Refusal>
    ensures ok { IfOk result (Asks call body.now) }
    ensures err { IfErr result (AsksNothing call body.now) }
{
    match call {
        Call::Check => {
            let (consistency, node, user) = check_body(alloc, body)?;
            Ok(Question::Check(consistency, node, user))
        }
        Call::Expand => {
            let (consistency, node, nodes) = expand_body(alloc, body)?;
            Ok(Question::Expand(consistency, node, Depth { nodes }))
        }
        Call::Read => {
            let (consistency, asked) = read_body(alloc, body)?;
            Ok(Question::Read(consistency, asked))
        }
        Call::Lookup => {
            let (consistency, asked) = lookup_body(alloc, body)?;
            Ok(Question::Lookup(consistency, asked))
        }
        Call::Leopard => {
            let (consistency, expr, limit) = groups_body(alloc, body)?;
            Ok(Question::Groups(consistency, expr, limit))
        }
        Call::Watch => {
            let (cursor, namespaces, commits) = watch_body(alloc, body)?;
            Ok(Question::Watch(cursor, namespaces, commits))
        }
        Call::State => Ok(Question::State),
        _ => Err(Refusal::Malformed),
    }
}

/// What a question is answered by a store with this number. A refusal names the revision that was chosen, if one was.
pub fn told_reply(alloc: Global, store: u64, asked: &Result<Told, Refused>) -> Reply
    ensures ok { IfOk asked.now (λ answer. SaysTold store answer (told result)) }
    ensures err { IfErr asked.now (λ refused.
        SaysRefusalAt (told result) refused.why (option_map (zookie_text store) refused.at)) }
{
    match asked {
        Ok(answer) => answer_reply(alloc, store, answer),
        Err(refused) => match refused.at {
            Some(rev) => refusal_at(alloc, &refused.why, &Zookie { store, rev }),
            None => refusal(alloc, &refused.why),
        },
    }
}

fn answer_reply(alloc: Global, store: u64, asked: &Told) -> Reply
    ensures { SaysTold store asked.now (told result) }
{
    match asked {
        Told::Checked(found) => {
            let rev = found.rev;
            answer(alloc, found.value, &Zookie { store, rev })
        }
        Told::Expanded(found) => {
            let rev = found.rev;
            expanded(alloc, &found.value, &Zookie { store, rev })
        }
        Told::Found(found) => {
            let rev = found.rev;
            page(alloc, found.value.as_slice(), &Zookie { store, rev })
        }
        Told::Looked(found) => {
            let rev = found.rev;
            let Objects { namespace, ids } = &found.value;
            objects(alloc, namespace, ids.as_slice(), &Zookie { store, rev })
        }
        Told::Grouped(found) => {
            let rev = found.rev;
            groups(alloc, found.value.as_slice(), &Zookie { store, rev })
        }
        Told::Watched(page) => watched(alloc, store, page),
        Told::Numbers(numbers) => state(alloc, store, numbers),
    }
}
