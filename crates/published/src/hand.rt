//! How posted steps get to the writer.
ghost use Rattle.std.specs.Prelude.{◌≡◌, ◌↔◌, ◌<◌, ◌≤◌, ◌++◌, [], length, true, None, Some, IsTrue, IfSome, IfNone, OnErr, OnOk, fold, option_to_list};
ghost use Rattle.std.specs.VecDeque.{deque_len, deque_capacity};
ghost use Rattle.published.specs.Copies.{Chain, absorbed};
ghost use Rattle.published.specs.Known.{Begins, Known, next_of};
ghost use Rattle.published.specs.Judged.{AreJudged};
ghost use Rattle.published.specs.Invariant.{Leads};

use crate::book::{Book, Naming, StepPrefix};
use crate::made::MadeIndexes;
use crate::post::Post;
use crate::rule::{CopyPublisher, Seeing};
use core::mem::replace_with;
use names::Part;
use shown::Step;
use std::alloc::AllocError;
use std::collections::VecDeque;
use std::sync::Wait;

/// Publishes what waits, in order, as far as there is memory, and says whether nothing waits any more.
pub(crate) fn publish_all<J: Naming, R: Wait>(
    rt: &R,
    book: &Book,
    entered: &mut StepPrefix,
    backlog: &mut VecDeque<Step>,
    made: &mut Option<MadeIndexes<J>>,
    publisher: &mut CopyPublisher<J>,
    stuck: &mut Option<Post<J>>,
) -> bool
    requires book { book.now ≡ J.book }
    requires leads { Leads book.now entered.old publisher.old stuck.old }
    requires judged { AreJudged (entered.old.steps ++ backlog.old.items) }
    ensures leads { Leads book.now entered.new publisher.new stuck.new }
    ensures posted { entered.new.steps ++ backlog.new.items ≡ entered.old.steps ++ backlog.old.items }
    ensures fewer { deque_len backlog.new ≤ deque_len backlog.old }
    ensures capacity { deque_capacity backlog.new ≡ deque_capacity backlog.old }
    ensures later { Begins publisher.old.published.prefix publisher.new.published.prefix }
    ensures all { IsTrue result
        ↔ (publisher.new.published.prefix.steps ≡ entered.new.steps ++ backlog.new.items) }
{
    hand_over(book, entered, backlog, made, publisher, stuck);
    if !publisher.is_waiting() {
        return is_done(stuck, backlog);
    }
    match publish(publisher, rt) {
        Ok(()) => is_done(stuck, backlog),
        Err(_) => false,
    }
}

/// Shows all posts that wait at the publisher, or none for want of memory.
pub(crate) fn publish<J: Naming, R: Wait>(
    publisher: &mut CopyPublisher<J>,
    rt: &R,
) -> Result<(), AllocError>
    requires { (end : Known) × Chain publisher.old.published.prefix publisher.old.waiting end × AreJudged end.steps }
    ensures ok { OnOk result (
        (publisher.new.published ≡ fold absorbed publisher.old.published publisher.old.waiting)
        × (publisher.new.waiting ≡ []) × (publisher.new.told ≡ Some publisher.new.published.prefix)) }
    ensures err { OnErr result (publisher.new ≡ publisher.old) }
{
    replace_with(publisher, rt, show)
}

// The same, as a function of the publisher.
fn show<J: Naming, R: Wait>(
    publisher: CopyPublisher<J>,
    rt: &R,
) -> (CopyPublisher<J>, Result<(), AllocError>)
    requires { (end : Known) × Chain publisher.published.prefix publisher.waiting end × AreJudged end.steps }
    ensures ok { OnOk result.1 (
        (result.0.published ≡ fold absorbed publisher.published publisher.waiting)
        × (result.0.waiting ≡ []) × (result.0.told ≡ Some result.0.published.prefix)) }
    ensures err { OnErr result.1 (result.0 ≡ publisher) }
{
    publisher.publish::<Seeing, R>(rt)
}

// Hands the backlog to the writer, in order, as far as there is memory.
fn hand_over<J: Naming>(
    book: &Book,
    entered: &mut StepPrefix,
    backlog: &mut VecDeque<Step>,
    made: &mut Option<MadeIndexes<J>>,
    publisher: &mut CopyPublisher<J>,
    stuck: &mut Option<Post<J>>,
)
    requires book { book.now ≡ J.book }
    requires leads { Leads book.now entered.old publisher.old stuck.old }
    requires judged { AreJudged (entered.old.steps ++ backlog.old.items) }
    ensures leads { Leads book.now entered.new publisher.new stuck.new }
    ensures posted { entered.new.steps ++ backlog.new.items ≡ entered.old.steps ++ backlog.old.items }
    ensures fewer { deque_len backlog.new ≤ deque_len backlog.old }
    ensures capacity { deque_capacity backlog.new ≡ deque_capacity backlog.old }
    ensures same { publisher.new.published ≡ publisher.old.published }
{
    while retry(publisher, stuck) {
        let Some(post) = enter_next(book, entered, backlog, made) else {
            break;
        };
        *stuck = Some(post);
    }
}

// Hands over the post that found no memory before, if there is one, and says whether none is left.
fn retry<J: Naming>(publisher: &mut CopyPublisher<J>, stuck: &mut Option<Post<J>>) -> bool
    ensures order { publisher.new.waiting ++ option_to_list stuck.new
        ≡ publisher.old.waiting ++ option_to_list stuck.old }
    ensures same { (publisher.new.published ≡ publisher.old.published)
        × (publisher.new.told ≡ publisher.old.told) }
    ensures none { result ≡ true → stuck.new ≡ None }
{
    let Some(post) = stuck.take() else {
        return true;
    };
    match publisher.append(post) {
        Ok(()) => true,
        Err(post) => {
            *stuck = Some(post);
            false
        }
    }
}

// Enters the next step of the backlog in the book. With one that moves the index go the indexes that were made.
fn enter_next<J: Naming>(
    book: &Book,
    entered: &mut StepPrefix,
    backlog: &mut VecDeque<Step>,
    made: &mut Option<MadeIndexes<J>>,
) -> Option<Post<J>>
    requires named { book.now ≡ J.book }
    requires book { entered.old.book ≡ book.now }
    requires entered { AreJudged entered.old.steps }
    requires judged { AreJudged (entered.old.steps ++ backlog.old.items) }
    ensures some { IfSome result (λ post.
        (post.after ≡ entered.new) × (entered.new ≡ next_of entered.old post.step)) }
    ensures book { entered.new.book ≡ entered.old.book }
    ensures posted { entered.new.steps ++ backlog.new.items ≡ entered.old.steps ++ backlog.old.items }
    ensures capacity { deque_capacity backlog.new ≡ deque_capacity backlog.old }
    ensures len { deque_len backlog.new ≤ deque_len backlog.old }
    ensures fewer { IfSome result (λ _. length backlog.new.items < length backlog.old.items) }
    ensures none { IfNone result (entered.new ≡ entered.old) }
{
    let next = backlog.front()?;
    let after = entered.add_step(book, next)?;
    let step = backlog.pop_front()?;
    *entered = after.again();
    let made = match &step {
        Step::Rebase(_) | Step::Take(Part::Index, _) => made.take(),
        _ => None,
    };
    Some(Post::new(step, after, made))
}

fn is_done<J: Naming>(stuck: &Option<Post<J>>, backlog: &VecDeque<Step>) -> bool
    ensures { IsTrue result ↔ ((stuck.now ≡ None) × (backlog.now.items ≡ [])) }
{
    match stuck {
        None => backlog.is_empty(),
        Some(_) => false,
    }
}
