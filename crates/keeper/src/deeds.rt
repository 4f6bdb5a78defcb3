//! What is noted of a desk under a keeper's lock, and by whom.
ghost use Rattle.std.specs.Prelude.{◌≡◌, [], ◌∷◌};
ghost use Rattle.names.specs.Calls.{told};
ghost use Rattle.keeper.specs.declared.deeds.Deed.{Deed};
ghost use Rattle.keeper.specs.declared.deeds.Deed.TheVariants.{Answered, CaughtUp};
ghost use Rattle.keeper.specs.Deeds.{AllStandIn, IsNoted, StandsIn};

use names::{Call, Part, Reply};
use one_history::{History, HistoryName, Log, Noted, Worker};
use published::Naming;
use std::collections::LinkedList;
use std::marker::{Brand, Model};
use std::sync::Wait;

/// What was done to a desk under its lock. No value of it is made.
pub enum Deed {
    /// A call with this body, which asks for a change, and the status and the body of the reply, if there was memory for it.
    Answered(Call, LinkedList<u8>, Option<(u64, LinkedList<u8>)>),
    /// A part was to take so many commits, for no call.
    CaughtUp(Part, u64),
    /// A change was to be made, for no call.
    Changed,
    /// A session was to know what is shown.
    Refreshed,
    /// A session was asked for.
    Seated,
}

/// Names a keeper of tables of this type: its book, its history, and what its desk was opened with.
pub trait KeeperName<T>: Naming + HistoryName {
    ghost use Rattle.desk.specs.Posts.{Posts};

    ghost starts: { Posts T → Type 0 };
}

impl<T> KeeperName<T> for Brand {
    ghost starts = { λ _. Unit {0} };
}

/// Where one stands who may take the lock of the keeper that `J` names. Contracts see it as its number, the deeds that it has
/// seen, and its own. It has no bytes but those by which it finds the history.
#[derive(Drop)]
pub struct Place<'k, J: HistoryName> {
    history: &'k History<Deed, J>,
    worker: Worker<Deed, J>,
}

impl<'k, J: HistoryName> Model for Place<'k, J> {
    ghost use Rattle.one_history.specs.History.{Hand};
    ghost use Rattle.keeper.specs.declared.deeds.Deed.{Deed};

    ghost Value = { Hand Deed };

    ghost view = { λ p. p.worker };
}

impl<'k, J: HistoryName> Place<'k, J> {
    /// The history in which its deeds stand.
    pub fn history(&self) -> &'k History<Deed, J> {
        self.history
    }

    // A new place, of one that has seen all deeds so far and done none.
    pub(crate) fn new(history: &'k History<Deed, J>, log: &mut Log<Deed, J>) -> Place<'k, J>
        ensures same { log.new ≡ log.old }
        ensures seen { result.seen ≡ log.old }
        ensures mine { result.mine ≡ [] }
    {
        let worker = log.worker(history);
        Place { history, worker }
    }

    // Notes the deed that `N` names.
    pub(crate) fn note<N: Noted<Deed>, W: Wait>(&mut self, rt: &W, log: &mut Log<Deed, J>)
        requires { N.by ≡ self.old.by }
        ensures { (deed : Deed) → N.what ≡ deed ∷ [] → IsNoted self.old log.old deed self.new log.new }
    {
        log.note::<N, W>(rt, self.history, &mut self.worker);
    }

    // Notes how a call with this body was answered.
    pub(crate) fn note_answered<N: Noted<Deed>, W: Wait>(
        &mut self,
        rt: &W,
        log: &mut Log<Deed, J>,
        call: Call,
        body: &[u8],
        reply: &Reply,
    )
        requires by { N.by ≡ self.old.by }
        requires what { N.what ≡ Answered call body.now (told reply.now) ∷ [] }
        ensures { IsNoted self.old log.old (Answered call body.now (told reply.now)) self.new log.new }
    {
        self.note::<N, W>(rt, log);
    }

    // Notes that a part was to take so many commits.
    pub(crate) fn note_caught_up<N: Noted<Deed>, W: Wait>(
        &mut self,
        rt: &W,
        log: &mut Log<Deed, J>,
        part: Part,
        commits: u64,
    )
        requires by { N.by ≡ self.old.by }
        requires what { N.what ≡ CaughtUp part commits ∷ [] }
        ensures { IsNoted self.old log.old (CaughtUp part commits) self.new log.new }
    {
        self.note::<N, W>(rt, log);
    }

    // Sees all deeds so far, and does none.
    fn look<W: Wait>(&mut self, rt: &W, log: &mut Log<Deed, J>)
        ensures same { log.new ≡ log.old }
        ensures stands { StandsIn log.old self.old }
    {
        log.look(rt, self.history, &mut self.worker);
    }
}

// Each place sees all deeds so far, and is let go.
pub(crate) fn look_last<J: HistoryName, W: Wait>(
    rt: &W,
    log: &mut Log<Deed, J>,
    places: Vec<Place<'_, J>>,
)
    ensures same { log.new ≡ log.old }
    ensures stand { AllStandIn log.old places.entry.items }
{
    for place in places {
        let mut place = place;
        place.look(rt, log);
    }
}
