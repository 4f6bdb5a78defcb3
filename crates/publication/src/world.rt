//! Publication as a pure machine: what is stored, what is posted, what is published, and what any number
//! of sessions are answered. It is the plain one, and makes the published state anew at each publication.
ghost use Rattle.std.specs.Prelude.{◌≡◌, ◌≤◌, IfOk, OnErr};
ghost use Rattle.publication.specs.declared.event.Event.TheVariants.{Stored, Posted, Published, Entered, Notified};
ghost use Rattle.publication.specs.declared.event.Posting.TheVariants.{Opening, NextCommit, Taking, Trimming, Marking as MarkingPosted, Rebasing};
ghost use Rattle.shown.specs.Standing.{standing, nothing};
ghost use Rattle.publication.specs.WorldParts.{HaveRoom};

use crate::event::{Event, Outcome, Posting};
use crate::within::is_within;
use config::Config;
use names::limits::MAX_CATCH_UP;
use names::{Commit, Marking, Part, Refusal};
use rows::{Loaded, Rows, what_follows_has_room};
use shown::{Question, Shown, Step};
use std::alloc::{AllocError, Global};
use std::collections::VecDeque;
use std::hash::RandomState;
use std::marker::Model;
use tuple_keys::KeptCommit;

/// Contracts see it as what is stored, the posted steps, and how many of these are published.
#[derive(Drop)]
pub struct World {
    alloc: Global,
    keys: RandomState,
    posted: Vec<Step>,
    waiting: VecDeque<KeptCommit>,
    newest: Rows,
    shown: usize,
    published: Shown,
}

impl Model for World {
    ghost use Rattle.publication.specs.World.{State};
    ghost use Rattle.publication.specs.inside.WorldCodes.{coded_state};
    ghost use Rattle.publication.specs.WorldParts.{Fit};

    ghost Value = { State };

    ghost coded = { coded_state };

    ghost view = { λ w. record { stored = w.newest; posted = w.posted.items; shown = w.shown } };

    ghost invariant = { λ w. Fit w.posted.items w.waiting.items w.newest w.shown w.published };
}

impl World {
    ghost use Rattle.publication.specs.World.{start, has_begun, can_mark, can_rebase, Happens, after_event, HasOutcome};

    /// The machine before the first event. Names are hashed under this key.
    pub fn new(alloc: Global, keys: RandomState) -> World
        ensures { result ≡ start }
    {
        World {
            alloc,
            keys,
            posted: Vec::new(alloc),
            waiting: VecDeque::new(alloc),
            newest: Rows::empty(alloc),
            shown: 0,
            published: Shown::new(alloc, keys),
        }
    }

    /// What comes of an event. For want of memory nothing does.
    pub fn event(&mut self, event: Event) -> Result<Outcome, AllocError>
        ensures outcome { IfOk result (λ outcome. HasOutcome self.old event outcome) }
        ensures state { IfOk result (λ _. self.new ≡ after_event self.old event) }
        ensures err { OnErr result (self.new ≡ self.old) }
    {
        match event {
            Event::Stored(commit) => self.store(commit),
            Event::Posted(Posting::Opening(loaded)) => self.open(loaded),
            Event::Posted(Posting::NextCommit) => self.post(),
            Event::Posted(Posting::Taking(part, commits)) => self.take(part, commits),
            Event::Posted(Posting::Trimming(floor)) => self.trim(floor),
            Event::Posted(Posting::Marking(marking)) => self.mark(marking),
            Event::Posted(Posting::Rebasing(rev)) => self.rebase(rev),
            Event::Published(steps) => self.publish(steps),
            Event::Entered(seat, question) => self.answer(seat, &question),
            Event::Notified(seat, steps) => Ok(self.notify(seat, steps)),
        }
    }

    fn has_begun(&self) -> bool
        ensures { result ≡ has_begun self.now.posted }
    {
        !self.posted.is_empty()
    }

    fn store(&mut self, commit: Commit<Config>) -> Result<Outcome, AllocError>
        ensures ok { IfOk result (λ o. Happens self.old (Stored commit) o self.new) }
        ensures err { OnErr result (self.new ≡ self.old) }
    {
        if !self.has_begun() || self.newest.refuses(&commit)? {
            return Ok(Outcome::No);
        }
        self.waiting.reserve(1)?;
        self.newest.admits_its_tuples();
        what_follows_has_room();
        let kept = KeptCommit::of(self.alloc, &commit)?;
        self.newest.absorb(&kept)?;
        self.waiting.push_back_reserved(kept);
        Ok(Outcome::Done)
    }

    fn open(&mut self, loaded: Loaded) -> Result<Outcome, AllocError>
        ensures ok { IfOk result (λ o. Happens self.old (Posted (Opening loaded)) o self.new) }
        ensures err { OnErr result (self.new ≡ self.old) }
    {
        if self.has_begun() || !is_within(self.alloc, &loaded)? {
            return Ok(Outcome::No);
        }
        self.posted.reserve(1)?;
        self.newest = Rows::new(self.alloc, &loaded)?;
        self.posted.push_reserved(Step::Open(loaded));
        Ok(Outcome::Done)
    }

    fn post(&mut self) -> Result<Outcome, AllocError>
        ensures ok { IfOk result (λ o. Happens self.old (Posted NextCommit) o self.new) }
        ensures err { OnErr result (self.new ≡ self.old) }
    {
        self.posted.reserve(1)?;
        let Some(commit) = self.waiting.pop_front() else {
            return Ok(Outcome::No);
        };
        self.posted.push_reserved(Step::Commit(commit));
        Ok(Outcome::Done)
    }

    fn take(&mut self, part: Part, commits: u32) -> Result<Outcome, AllocError>
        ensures ok { IfOk result (λ o. Happens self.old (Posted (Taking part commits)) o self.new) }
        ensures err { OnErr result (self.new ≡ self.old) }
    {
        if !self.has_begun() || u64::from(commits) > MAX_CATCH_UP {
            return Ok(Outcome::No);
        }
        self.posted.push(Step::Take(part, commits))?;
        Ok(Outcome::Done)
    }

    fn trim(&mut self, floor: u64) -> Result<Outcome, AllocError>
        ensures ok { IfOk result (λ o. Happens self.old (Posted (Trimming floor)) o self.new) }
        ensures err { OnErr result (self.new ≡ self.old) }
    {
        if !self.has_begun() || !self.standing()?.can_raise(floor) {
            return Ok(Outcome::No);
        }
        self.posted.push(Step::Trim(floor))?;
        self.newest.trim(floor);
        Ok(Outcome::Done)
    }

    fn mark(&mut self, marking: Marking) -> Result<Outcome, AllocError>
        ensures ok { IfOk result (λ o. Happens self.old (Posted (MarkingPosted marking)) o self.new) }
        ensures err { OnErr result (self.new ≡ self.old) }
    {
        if !self.has_begun() || !self.can_mark(&marking)? {
            return Ok(Outcome::No);
        }
        self.posted.push(Step::Marking(marking))?;
        Ok(Outcome::Done)
    }

    fn rebase(&mut self, rev: u64) -> Result<Outcome, AllocError>
        ensures ok { IfOk result (λ o. Happens self.old (Posted (Rebasing rev)) o self.new) }
        ensures err { OnErr result (self.new ≡ self.old) }
    {
        if !self.has_begun() || !self.can_rebase(rev)? {
            return Ok(Outcome::No);
        }
        self.posted.push(Step::Rebase(rev))?;
        Ok(Outcome::Done)
    }

    fn can_mark(&self, marking: &Marking) -> Result<bool, AllocError>
        ensures { IfOk result (λ yes. yes ≡ can_mark (standing self.now.posted) marking.now) }
    {
        Ok(self.standing()?.judge_marking(marking).is_ok())
    }

    fn can_rebase(&self, rev: u64) -> Result<bool, AllocError>
        ensures { IfOk result (λ yes. yes ≡ can_rebase (standing self.now.posted) rev) }
    {
        Ok(self.standing()?.judge_base(rev).is_ok())
    }

    /// What the posted steps leave.
    fn standing(&self) -> Result<Shown, AllocError>
        ensures { IfOk result (λ s. s ≡ standing self.now.posted) }
    {
        standing_of(self.alloc, self.keys, &self.posted)
    }

    fn publish(&mut self, steps: u32) -> Result<Outcome, AllocError>
        ensures ok { IfOk result (λ o. Happens self.old (Published steps) o self.new) }
        ensures err { OnErr result (self.new ≡ self.old) }
    {
        let steps = steps as usize;
        if steps == 0 || steps > self.posted.len() - self.shown {
            return Ok(Outcome::No);
        }
        let shown = self.shown + steps;
        self.published = standing_of(self.alloc, self.keys, &self.posted[..shown])?;
        self.shown = shown;
        Ok(Outcome::Done)
    }

    fn answer(&self, seat: u64, question: &Question) -> Result<Outcome, AllocError>
        ensures { IfOk result (λ outcome. HasOutcome self.now (Entered seat question.now) outcome) }
    {
        if self.shown == 0 {
            return Ok(Outcome::No);
        }
        match self.published.answer(question) {
            Ok(told) => Ok(Outcome::Answered(self.shown as u64, Ok(told))),
            Err(refused) => match &refused.why {
                Refusal::Memory => Err(AllocError),
                _ => Ok(Outcome::Answered(self.shown as u64, Err(refused))),
            },
        }
    }

    fn notify(&self, seat: u64, steps: u64) -> Outcome
        ensures { HasOutcome self.now (Notified seat steps) result }
    {
        if !self.has_begun() || steps > self.shown as u64 {
            return Outcome::No;
        }
        Outcome::Done
    }
}

/// What the steps leave.
fn standing_of(alloc: Global, keys: RandomState, steps: &[Step]) -> Result<Shown, AllocError>
    requires { HaveRoom nothing steps.now }
    ensures { IfOk result (λ s. s ≡ standing steps.now) }
{
    let mut shown = Shown::new(alloc, keys);
    for step in steps {
        shown.apply(step)?;
    }
    Ok(shown)
}
