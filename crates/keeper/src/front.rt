//! Calls by bytes, of one worker.
ghost use Rattle.std.specs.Prelude.{◌≡◌, IfOk, IfErr};
ghost use Rattle.names.specs.Calls.{told};
ghost use Rattle.names.specs.declared.refusal.Refusal.TheVariants.{NoSeat};
ghost use Rattle.published.specs.Known.{Begins};
ghost use Rattle.keeper.specs.Kept.{IsKnownIn, KnowsMore};
ghost use Rattle.keeper.specs.Questions.{IsAsked};
ghost use Rattle.keeper.specs.Fronts.{ChangeFrom, FrontStep, IsSeated, MayTell, QuestionFrom, ToldByDesk};

use crate::builds::{ToldOfBuilds, make_indexes};
use crate::deeds::{KeeperName, Place};
use crate::lock::{ChangeAsked, Keeper};
use crate::questions::{Asked, ask_again, ask_from};
use bodies::refusals::refusal;
use calls::{change_of, is_change};
use desk::Change;
use names::{Call, Refusal, Reply};
use published::{MadeIndexes, Receipt, Session};
use std::alloc::Global;
use std::marker::Model;
use std::sync::Wait;
use std::thread::Threads;
use tables::Tables;
use zookie::Consistency;

/// A keeper, and a session of it. A question is asked of the session alone, with no lock and no wait: by the type of
/// [`ask_from`] and [`ask_again`], which no clause says. The desk is held for a change whose body was read, and for a refresh.
/// Contracts see it as what the session knows, and what it knows of the deeds under the lock.
#[derive(Drop)]
pub struct Front<'k, T: Tables + Drop, J: KeeperName<T>, R: Wait + Drop> {
    alloc: Global,
    keeper: &'k Keeper<T, J, R>,
    session: Session<J>,
    place: Place<'k, J>,
}

impl<'k, T: Tables + Drop, J: KeeperName<T>, R: Wait + Drop> Model for Front<'k, T, J, R> {
    ghost use Rattle.keeper.specs.Fronts.{FrontState};
    ghost use Rattle.keeper.specs.Coded.{coded_front};

    ghost Value = { FrontState };

    ghost coded = { coded_front };

    ghost use Rattle.keeper.specs.Kept.{IsKnownIn as IsSound};

    ghost view = { λ f. record { known = f.session; hand = f.place } };

    ghost invariant = { λ f. IsSound J.book f.session };
}

impl<'k, T: Tables + Drop, J: KeeperName<T>, R: Wait + Drop> Front<'k, T, J, R> {
    /// A front with a session of its own, which knows what is shown now. It is refused where all have been given out.
    pub fn new<W: Wait>(
        alloc: Global,
        rt: &W,
        keeper: &'k Keeper<T, J, R>,
    ) -> Result<Front<'k, T, J, R>, Refusal>
        ensures ok { IfOk result (λ front. IsKnownIn J.book front.known) }
        ensures seated { IfOk result (λ front. IsSeated T.Tables J.book J.starts front) }
        ensures err { IfErr result (λ why. why ≡ NoSeat) }
    {
        let (session, place) = keeper.session(rt)?;
        Ok(Front {
            alloc,
            keeper,
            session,
            place,
        })
    }

    /// Reads a question and asks it of the session alone. Where it is of a revision that the session does not know yet, it comes
    /// back.
    pub fn ask(&mut self, call: Call, body: &[u8]) -> Asked
        ensures told { IsAsked self.old.known call body.now result self.new.known }
        ensures deeds { self.new.hand ≡ self.old.hand }
    {
        ask_from(self.alloc, &mut self.session, call, body)
    }

    /// Lets the session know what is shown now, and shows what waits, as far as there is memory.
    pub fn refresh<W: Wait>(&mut self, rt: &W) -> Receipt
        ensures kept { KnowsMore self.old.known self.new.known }
        ensures told { Begins result.published self.new.known }
        ensures tells { ToldByDesk T.Tables J.book J.starts result self.old self.new }
    {
        self.keeper
            .hold(rt)
            .refresh(rt, &mut self.place, &mut self.session)
    }

    /// Answers a call that asks. A question of the future is asked once more after a refresh.
    pub fn answer_question<W: Wait>(&mut self, rt: &W, call: Call, body: &[u8]) -> Reply
        ensures { QuestionFrom T.Tables J.book J.starts self.old call body.now (told result) self.new }
    {
        match self.ask(call, body) {
            Asked::Told(reply) => reply,
            Asked::NotYet(question) => {
                self.refresh(rt);
                ask_again(self.alloc, &mut self.session, &question)
            }
        }
    }

    /// Answers a call that changes something. The desk is held once the body is read, and where a base is to be made, once the
    /// index for it is made, as far as there is memory for that.
    pub fn answer_change<W: Wait + Threads, B: ToldOfBuilds>(
        &mut self,
        rt: &W,
        builds: &B,
        call: Call,
        body: &[u8],
    ) -> Reply
        ensures { ChangeFrom T.Tables J.book J.starts self.old call body.now (told result) self.new }
    {
        match change_of(self.alloc, call, body) {
            Ok(change) => {
                let made = self.make_ready(rt, builds, &change);
                let asked = ChangeAsked { call, body, change };
                self.keeper
                    .hold_with(rt, made)
                    .answer(rt, self.alloc, &mut self.place, &mut self.session, asked)
            }
            Err(why) => refusal(self.alloc, &why),
        }
    }

    /// Answers a call, whose body is these bytes. No answer goes back on what an earlier one was told by. Of indexes that are made
    /// for it with no lock it tells who is to be told.
    pub fn answer<W: Wait + Threads, B: ToldOfBuilds>(
        &mut self,
        rt: &W,
        builds: &B,
        call: Call,
        body: &[u8],
    ) -> Reply
        ensures { FrontStep T.Tables J.book J.starts self.old call body.now (told result) self.new }
    {
        self.see();
        self.tell(rt, builds, call, body)
    }

    /// Gives its place back, of which it does nothing more.
    pub fn leave(self) -> Place<'k, J>
        ensures { result ≡ self.entry.hand }
    {
        let Front { place, .. } = self;
        place
    }

    // What is true of every front: a function knows it where it looks at a field.
    fn see(&self)
        ensures { IsKnownIn J.book self.now.known }
    {
        let _ = &self.session;
    }

    // Indexes of what is shown, where a base is to be made, as far as there is memory for them.
    fn make_ready<W: Threads, B: ToldOfBuilds>(
        &mut self,
        rt: &W,
        builds: &B,
        change: &Change,
    ) -> Option<MadeIndexes<J>>
        ensures known { KnowsMore self.old.known self.new.known }
        ensures deeds { self.new.hand ≡ self.old.hand }
    {
        self.session.knows_judged_steps();
        let Change::Rebuild = change else {
            return None;
        };
        match self.session.copy_snapshot(&Consistency::Latest) {
            Ok(copied) => make_indexes(rt, self.alloc, builds, &copied),
            Err(_) => None,
        }
    }

    fn tell<W: Wait + Threads, B: ToldOfBuilds>(
        &mut self,
        rt: &W,
        builds: &B,
        call: Call,
        body: &[u8],
    ) -> Reply
        ensures { MayTell T.Tables J.book J.starts self.old call body.now (told result) self.new }
    {
        if is_change(call) {
            self.answer_change(rt, builds, call, body)
        } else {
            self.answer_question(rt, call, body)
        }
    }
}
