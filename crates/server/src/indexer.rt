//! The indexer: it follows the changes of a keeper with the parts that read them.
ghost use Rattle.std.specs.Prelude.{◌≡◌, ◌⊎◌, ◌↔◌, IsTrue, IfOk, IfErr, false};
ghost use Rattle.names.specs.declared.refusal.Refusal.TheVariants.{NoSeat};
ghost use Rattle.published.specs.Known.{Begins};
ghost use Rattle.keeper.specs.Fronts.{IsSeated};
ghost use Rattle.server.specs.Turning.{TakesOneTurn};
ghost use Rattle.server.specs.Turns.{IsBehind};

use crate::pool::Follows;
use crate::turn::{TURN_COMMITS, Turn, take_turn};
use crossbeam_channel::{Receiver, TryRecvError};
use keeper::{Keeper, KeeperName, Place, ToldOfBuilds, make_indexes};
use names::{Refusal, State};
use published::{MadeIndexes, Session};
use std::alloc::Global;
use std::marker::Model;
use std::sync::Wait;
use std::thread::Threads;
use tables::Tables;
use zookie::Consistency;

/// A keeper, a session and a place of its own, what wakes it, and who is told of its builds. Contracts see it as a front: what the session knows, and what
/// it knows of the deeds under the lock.
#[derive(Drop)]
pub(crate) struct Indexer<'k, T: Tables + Drop, J: KeeperName<T>, H: Wait + Drop, B> {
    alloc: Global,
    builds: &'k B,
    keeper: &'k Keeper<T, J, H>,
    session: Session<J>,
    place: Place<'k, J>,
    woken: Receiver<()>,
}

impl<'k, T: Tables + Drop, J: KeeperName<T>, H: Wait + Drop, B> Model for Indexer<'k, T, J, H, B> {
    ghost use Rattle.std.specs.Prelude.{◌≡◌};
    ghost use Rattle.keeper.specs.Fronts.{FrontState};
    ghost use Rattle.keeper.specs.Coded.{coded_front};

    ghost Value = { FrontState };

    ghost coded = { coded_front };

    ghost view = { λ i. record { known = i.session; hand = i.place } };

    ghost invariant = { λ i. i.session.book ≡ J.book };
}

impl<'k, T: Tables + Drop, J: KeeperName<T>, H: Wait + Drop, B: ToldOfBuilds> Indexer<
    'k,
    T,
    J,
    H,
    B,
> {
    /// One that looks after its keeper whenever it is woken. It is refused where all sessions have been given out.
    pub(crate) fn new<R: Wait>(
        alloc: Global,
        rt: &R,
        builds: &'k B,
        keeper: &'k Keeper<T, J, H>,
        woken: Receiver<()>,
    ) -> Result<Indexer<'k, T, J, H, B>, Refusal>
        ensures seated { IfOk result (λ it. IsSeated T.Tables J.book J.starts it) }
        ensures err { IfErr result (λ why. why ≡ NoSeat) }
    {
        let (session, place) = keeper.session(rt)?;
        Ok(Indexer {
            alloc,
            builds,
            keeper,
            session,
            place,
            woken,
        })
    }

    /// Gives its place back.
    pub(crate) fn leave(self) -> Place<'k, J>
        ensures { result ≡ self.entry.hand }
    {
        let Indexer { place, .. } = self;
        place
    }

    // Indexes of the revision to which a turn brings the index, where it has it made anew, as far as there is memory for them.
    // They are made with no lock.
    fn make_ready<R: Threads + Wait>(&mut self, rt: &R) -> Option<MadeIndexes<J>>
        ensures known { Begins self.old.known self.new.known }
        ensures deeds { self.new.hand ≡ self.old.hand }
    {
        let zookie = self.keeper.hold(rt).remade_index(TURN_COMMITS as u32)?;
        match self.session.copy_snapshot(&Consistency::Exactly(zookie)) {
            Ok(copied) => make_indexes(rt, self.alloc, self.builds, &copied),
            Err(_) => None,
        }
    }

    // Takes a turn if a part is behind what is shown. Whether more may be left to take.
    fn takes_turn<R: Threads + Wait>(&mut self, rt: &R) -> bool
        ensures known { Begins self.old.known self.new.known }
        ensures turn { (self.new.hand ≡ self.old.hand) ⊎ TakesOneTurn T.Tables J.book J.starts self.old.hand self.new.hand }
    {
        match self.session.state() {
            Ok(state) if is_behind(&state) => {}
            _ => return false,
        }
        let made = self.make_ready(rt);
        let taken = take_turn(
            rt,
            &mut self.keeper.hold_with(rt, made),
            &mut self.place,
            &mut self.session,
        );
        may_go_on(&taken)
    }
}

impl<'k, T: Tables + Drop, J: KeeperName<T>, H: Wait + Drop, B: ToldOfBuilds> Follows
    for Indexer<'k, T, J, H, B> {
    ghost use Rattle.std.specs.Prelude.{ℕ};
    ghost use Rattle.published.specs.Known.{Begins};
    ghost use Rattle.server.specs.Turning.{TurnByTurn};

    // Its session knows all that it knew, and its place took turns, one after another.
    ghost followed = { λ s t. Begins s.known t.known
        × ((turns : ℕ) × TurnByTurn T.Tables J.book J.starts s.hand turns t.hand) };

    fn follow<R: Threads + Wait>(&mut self, rt: &R) {
        for _ in rt.forever() {
            let goes_on = if self.takes_turn(rt) {
                self.woken.try_recv(rt) != Err(TryRecvError::Disconnected)
            } else {
                self.woken.recv(rt).is_ok()
            };
            if !goes_on {
                return;
            }
        }
    }
}

// Whether a part has still to read commits.
fn is_behind(state: &State) -> bool
    ensures { IsTrue result ↔ IsBehind state.now }
{
    state.index.min(state.hot) < state.newest
}

// Whether another turn may follow: one was taken, and is shown. Where it was refused, or waits for memory to be shown, the next
// change wakes the indexer again.
fn may_go_on(taken: &Result<Turn, Refusal>) -> bool
    ensures ok { IfOk taken.now (λ turn. result ≡ turn.receipt.shown) }
    ensures err { IfErr taken.now (λ _. result ≡ false) }
{
    match taken {
        Ok(turn) => turn.receipt.is_shown(),
        Err(_) => false,
    }
}
