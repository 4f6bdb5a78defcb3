//! The publication of one store.
ghost use Rattle.std.specs.Prelude.{◌≡◌, ◌↔◌, ◌+◌, ◌≤◌, [], ◌∷◌, ◌++◌, All, IsTrue, IfOk, IfErr, OnOk, OnErr, Err, Some, vec_len};
ghost use Rattle.names.specs.declared.refusal.Refusal.TheVariants.{NoSeat};
ghost use Rattle.rows.specs.Retained.{newest};
ghost use Rattle.shown.specs.Standing.{nothing, standing, HasRoom};
ghost use Rattle.published.specs.Copies.{Stands};
ghost use Rattle.published.specs.Known.{Begins};
ghost use Rattle.published.specs.Posts.{IsLater};
ghost use Rattle.published.specs.Judged.{AreJudged, WereJudged};
ghost use Rattle.published.specs.Publishing.{ShowsMoreOf, IsSameBut, shown_by};

use crate::book::{Book, Naming, Opened, StepPrefix};
use crate::copy::ShownCopy;
use crate::hand::{publish, publish_all};
use crate::made::MadeIndexes;
use crate::post::Post;
use crate::receipt::ShownSteps;
use crate::remembered::Remembered;
use crate::rule::CopyPublisher;
use crate::session::Session;
use names::Refusal;
use shown::{Shown, Step};
use std::alloc::{AllocError, Global};
use std::collections::VecDeque;
use std::hash::RandomState;
use std::marker::Model;
use std::sync::Wait;

/// How many sessions a store gives out.
pub const MAX_SESSIONS: usize = 32;

/// The posted steps, those that are shown, and the sessions that were not given out, of the book that `J` names. Any number of
/// posted steps may wait to be shown, each in memory that was taken before it was posted.
pub struct Publication<J: Naming, R: Wait + Drop> {
    publisher: CopyPublisher<J>,
    rt: R,
    book: Book,
    entered: StepPrefix,
    backlog: VecDeque<Step>,
    made: Option<MadeIndexes<J>>,
    stuck: Option<Post<J>>,
    sessions: Vec<Session<J>>,
}

impl<J: Naming, R: Wait + Drop> Model for Publication<J, R> {
    ghost use Rattle.std.specs.Prelude.{◌++◌, ◌-◌, vec_len};
    ghost use Rattle.std.specs.VecDeque.{deque_len, deque_capacity};
    ghost use Rattle.published.specs.Publishing.{Publishing};
    ghost use Rattle.published.specs.inside.Codes.{coded_publishing};

    ghost Value = { Publishing };

    ghost coded = { coded_publishing };

    ghost use Rattle.published.specs.Invariant.{IsSound};

    ghost view = { λ p. record {
      book = p.book;
      posted = p.entered.steps ++ p.backlog.items;
      shown = p.publisher.published.prefix.steps;
      seats = vec_len p.sessions;
      room = deque_capacity p.backlog - deque_len p.backlog;
    } };

    ghost invariant = { λ p.
        IsSound J.book p.book p.entered p.backlog.items p.publisher p.stuck p.sessions.items };
}

impl<J: Naming, R: Wait + Drop> Publication<J, R> {
    /// A publication that shows the first step.
    pub fn open(
        alloc: Global,
        rt: R,
        opened: Opened,
        first: Step,
    ) -> Result<Publication<J, R>, AllocError>
        requires named { opened.book ≡ J.book }
        requires room { HasRoom nothing first }
        ensures book { IfOk result (λ p. p.book ≡ opened.book) }
        ensures posted { IfOk result (λ p. p.posted ≡ first ∷ []) }
        ensures shown { IfOk result (λ p. p.shown ≡ p.posted) }
        ensures judged { IfOk result (λ p. WereJudged p.posted p.shown) }
        ensures seats { IfOk result (λ p. p.seats ≡ MAX_SESSIONS) }
    {
        let Opened { book, prefix, keys } = opened;
        let Some(entered) = prefix.add_step(&book, &first) else {
            return Err(AllocError);
        };
        let mut publisher = two_copies(alloc, keys, &first, &entered)?;
        drop(first);
        match begin(alloc, keys, &rt, &mut publisher, &entered) {
            Ok(sessions) => Ok(Publication {
                publisher,
                rt,
                book,
                entered,
                backlog: VecDeque::new(alloc),
                made: None,
                stuck: None,
                sessions,
            }),
            Err(e) => {
                publisher.end(&rt);
                Err(e)
            }
        }
    }

    /// Makes room for one step more to wait, where there is none.
    pub fn reserve(&mut self) -> Result<(), AllocError>
        ensures room { OnOk result (1 ≤ self.new.room) }
        ensures more { self.old.room ≤ self.new.room }
        ensures full { OnErr result (self.old.room ≡ 0) }
        ensures same { IsSameBut self.old self.new }
    {
        self.backlog.reserve(1)
    }

    /// Posts a step, which waits from then on to be shown. It takes no memory.
    pub fn post(&mut self, step: Step)
        requires room { 1 ≤ self.old.room }
        requires follows { HasRoom (standing self.old.posted) step }
        requires later { IsLater step }
        ensures posted { self.new.posted ≡ self.old.posted ++ step ∷ [] }
        ensures judged { WereJudged self.new.posted self.new.shown }
        ensures room { self.new.room + 1 ≡ self.old.room }
        ensures same { (self.new.book ≡ self.old.book) × (self.new.shown ≡ self.old.shown)
            × (self.new.seats ≡ self.old.seats) }
    {
        self.backlog.push_back_reserved(step);
    }

    /// Hands in indexes, or none, for the next step that moves the index. Where it has the index made anew, each copy takes one of
    /// them, if it serves, and makes none. Those that were handed in before are let go.
    pub fn hand_in(&mut self, made: Option<MadeIndexes<J>>)
        ensures { self.new ≡ self.old }
    {
        self.made = made;
    }

    /// Shows what waits, in order, as far as there is memory, and says whether nothing waits any more.
    pub fn publish(&mut self) -> bool
        ensures more { ShowsMoreOf self.old self.new }
        ensures all { IsTrue result ↔ (self.new.shown ≡ self.new.posted) }
    {
        publish_all(
            &self.rt,
            &self.book,
            &mut self.entered,
            &mut self.backlog,
            &mut self.made,
            &mut self.publisher,
            &mut self.stuck,
        )
    }

    /// The shown steps.
    pub fn shown_steps(&self) -> ShownSteps
        ensures steps { result ≡ shown_by self.now }
        ensures judged { AreJudged self.now.shown }
    {
        ShownSteps::of(self.publisher.published().prefix().again())
    }

    /// The state that is shown, for whoever holds the publication. Sessions ask it with no lock.
    pub fn shown(&self) -> &Shown
        ensures { result.now ≡ standing self.now.shown }
    {
        self.publisher.published().shown()
    }

    /// The newest shown revision.
    pub fn newest(&self) -> u64
        ensures { result ≡ newest (standing self.now.shown).kept }
    {
        self.shown().newest()
    }

    /// A session that knows what is shown now. It is refused exactly where all were given out.
    pub fn session(&mut self) -> Result<Session<J>, Refusal>
        ensures known { IfOk result (λ session. Begins (shown_by self.new) session) }
        ensures judged { IfOk result (λ session. AreJudged session.steps) }
        ensures seats { IfOk result (λ _. self.new.seats + 1 ≡ self.old.seats) }
        ensures none { (result ≡ Err NoSeat) ↔ (self.old.seats ≡ 0) }
        ensures err { IfErr result (λ why.
            (why ≡ NoSeat) × (self.new.seats ≡ self.old.seats)) }
        ensures same { (self.new.book ≡ self.old.book) × (self.new.posted ≡ self.old.posted)
            × (self.new.shown ≡ self.old.shown) × (self.new.room ≡ self.old.room) }
    {
        let shown = self.shown_steps();
        let Some(mut session) = self.sessions.pop() else {
            return Err(Refusal::NoSeat);
        };
        session.learn_steps(shown.prefix());
        Ok(session)
    }
}

impl<J: Naming, R: Wait + Drop> Drop for Publication<J, R> {
    fn drop(self) {
        let Self {
            publisher,
            rt,
            book: _book,
            entered: _entered,
            backlog: _backlog,
            made: _made,
            stuck: _stuck,
            sessions: _sessions,
        } = self;
        publisher.end(&rt);
    }
}

// A publisher of two copies after the first step.
fn two_copies<J: Naming>(
    alloc: Global,
    keys: RandomState,
    first: &Step,
    entered: &StepPrefix,
) -> Result<CopyPublisher<J>, AllocError>
    requires room { HasRoom nothing first.now }
    requires book { entered.now.book ≡ J.book }
    requires one { entered.now.steps ≡ first.now ∷ [] }
    ensures prefix { IfOk result (λ p. p.published.prefix ≡ entered.now) }
    ensures stands { IfOk result (λ p. Stands p.published) }
    ensures waiting { IfOk result (λ p. p.waiting ≡ []) }
{
    let one = ShownCopy::after_first(alloc, keys, first, entered)?;
    let other = ShownCopy::after_first(alloc, keys, first, entered)?;
    CopyPublisher::<J>::new(alloc, one, other, MAX_SESSIONS)
}

// Publishes two copies that were made of the first step, and makes the sessions.
fn begin<J: Naming, R: Wait>(
    alloc: Global,
    keys: RandomState,
    rt: &R,
    publisher: &mut CopyPublisher<J>,
    entered: &StepPrefix,
) -> Result<Vec<Session<J>>, AllocError>
    requires first { publisher.old.published.prefix ≡ entered.now }
    requires waiting { publisher.old.waiting ≡ [] }
    requires judged { AreJudged entered.now.steps }
    ensures same { OnOk result (publisher.new.published ≡ publisher.old.published) }
    ensures waiting { OnOk result (publisher.new.waiting ≡ []) }
    ensures told { OnOk result (publisher.new.told ≡ Some publisher.new.published.prefix) }
    ensures sessions { IfOk result (λ v.
        (vec_len v ≡ 32) × All (λ s. s.book ≡ entered.now.book) v.items) }
{
    publish(publisher, rt)?;
    make_sessions(alloc, keys, publisher, entered)
}

fn make_sessions<J: Naming>(
    alloc: Global,
    keys: RandomState,
    publisher: &mut CopyPublisher<J>,
    entered: &StepPrefix,
) -> Result<Vec<Session<J>>, AllocError>
    requires told { publisher.old.told ≡ Some entered.now }
    requires judged { AreJudged entered.now.steps }
    ensures same { OnOk result (publisher.new ≡ publisher.old) }
    ensures sessions { IfOk result (λ v.
        (vec_len v ≡ 32) × All (λ s. s.book ≡ entered.now.book) v.items) }
{
    let mut sessions = Vec::with_capacity(alloc, MAX_SESSIONS)?;
    for _ in 0..MAX_SESSIONS {
        let reader = publisher.reader()?;
        let known = Remembered::new(alloc, keys, entered.again())?;
        sessions.push(Session::new(reader, known))?;
    }
    Ok(sessions)
}
