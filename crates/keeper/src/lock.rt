//! The lock over a desk.
ghost use Rattle.std.specs.Prelude.{◌≡◌, ◌↔◌, ◌+◌, ℕ, List, [], Err, IfOk, IfErr};
ghost use Rattle.std.specs.Sync.Mutex.{mutex_guard_value};
ghost use mathlib.Core.List.{IsPrefix};
ghost use Rattle.names.specs.Calls.{told};
ghost use Rattle.names.specs.declared.refusal.Refusal.TheVariants.{NoSeat, StoreFault};
ghost use Rattle.tables.specs.Device.{IsOpen};
ghost use Rattle.tables.specs.Opening.{CannotOpen};
ghost use Rattle.published.specs.Known.{Begins};
ghost use Rattle.desk.specs.Posts.{ComesBack, FailsToLoad, OpensWith, Posts, SameTables, ShowsMore, shown_by};
ghost use Rattle.desk.specs.Changes.{CatchUpAccepted, CatchUpJudged, IsNoChange, IsRefused, TellsShown};
ghost use Rattle.desk.specs.Made.{IsMade, MayStore, SpeaksAgainst};
ghost use Rattle.calls.specs.Changes.{AsksChange};
ghost use Rattle.calls.specs.steps.Change.{ChangeStep};
ghost use Rattle.one_history.specs.declared.entry.Entry.{Entry};
ghost use Rattle.one_history.specs.History.{Hand};
ghost use Rattle.keeper.specs.declared.deeds.Deed.{Deed};
ghost use Rattle.keeper.specs.declared.deeds.Deed.TheVariants.{Answered, CaughtUp, Changed as ChangedDeed, Refreshed, Seated};
ghost use Rattle.keeper.specs.Deeds.{AllStandIn, IsDoneTo, IsLeft};
ghost use Rattle.keeper.specs.Kept.{IsKept, IsKnownIn, IsOfBook, KnowsMore, WereKept};
ghost use Rattle.keeper.specs.Fronts.{IsSeated};

use crate::deeds::{Deed, KeeperName, Place, look_last};
use calls::change_on;
use desk::{Change, Changed, Desk, Posted};
use names::{Call, Part, Refusal, Reply};
use one_history::{History, HistoryName, Log};
use published::{MadeIndexes, Opened, Receipt, Session};
use std::alloc::{AllocError, Global};
use std::hash::RandomState;
use std::marker::{Brand, Model};
use std::sync::{Mutex, MutexGuard, Wait};
use tables::Tables;
use zookie::Zookie;

/// A call, its body, and the change that it asks for.
#[derive(Drop)]
pub struct ChangeAsked<'a> {
    pub call: Call,
    pub body: &'a [u8],
    pub change: Change,
}

/// An empty book and an empty history, which have no name yet. A keeper is opened with them.
#[derive(Drop)]
pub struct Opening {
    pub opened: Opened,
    pub history: one_history::Opening<Deed>,
}

impl Opening {
    /// A new one. Names are hashed under this key.
    pub fn new(alloc: Global, keys: RandomState) -> Result<Opening, AllocError> {
        Ok(Opening {
            opened: Opened::new(keys),
            history: one_history::Opening::new(alloc)?,
        })
    }
}

/// What a keeper gives back: the tables, and what those who could take its lock have done.
#[derive(Drop)]
pub struct Closed<T: Drop, J: HistoryName> {
    pub tables: T,
    pub history: History<Deed, J>,
    pub log: Log<Deed, J>,
}

/// A desk of the book that `J` names, which is what all that was done to it under the lock has left of the one that was opened.
/// Contracts see it as the desk.
#[derive(Drop)]
pub struct KeptDesk<T: Tables + Drop, J: KeeperName<T>, R: Wait + Drop> {
    desk: Desk<T, J, R>,
    log: Log<Deed, J>,
}

impl<T: Tables + Drop, J: KeeperName<T>, R: Wait + Drop> Model for KeptDesk<T, J, R> {
    ghost use Rattle.desk.specs.Posts.{Posts};
    ghost use Rattle.desk.specs.inside.DeskCodes.{coded_posts};
    ghost use Rattle.keeper.specs.Deeds.{IsLeft};
    ghost use Rattle.keeper.specs.Kept.{IsOfBook};

    ghost Value = { Posts T };

    ghost coded = { coded_posts T.code };

    ghost view = { λ k. k.desk };

    ghost invariant = { λ k. IsOfBook J.book k.desk × IsLeft T.Tables J.starts k.log k.desk };
}

impl<T: Tables + Drop, J: KeeperName<T>, R: Wait + Drop> KeptDesk<T, J, R> {
    // A desk that was opened, to which nothing was done yet.
    fn of_desk(desk: Desk<T, J, R>, log: Log<Deed, J>) -> KeptDesk<T, J, R>
        requires of_book { IsOfBook J.book desk }
        requires starts { J.starts desk }
        requires log { log ≡ [] }
        ensures { result ≡ desk }
    {
        KeptDesk { desk, log }
    }

    // What is true of every one.
    fn see(&self)
        ensures kept { IsKept T.Tables J.book self.now }
        ensures left { (deeds : List (Entry Deed)) × IsLeft T.Tables J.starts deeds self.now }
    {
        self.desk.see();
    }

    // Gives the tables back, and all that was done. Sessions are answered no more.
    fn close(self) -> (T, Log<Deed, J>)
        ensures { WereKept T.Tables J.book J.starts result.1 result.0 }
    {
        self.desk.see();
        let KeptDesk { desk, log } = self;
        (desk.close(), log)
    }

    /// A session that knows what is shown now, and a place for who uses it. It is refused exactly where all have been given out;
    /// that of one that is dropped is not given out again.
    pub fn session<'k, W: Wait>(
        &mut self,
        rt: &W,
        history: &'k History<Deed, J>,
    ) -> Result<(Session<J>, Place<'k, J>), Refusal>
        ensures more { ShowsMore self.old self.new }
        ensures same { SameTables self.old self.new }
        ensures known { IfOk result (λ given. Begins (shown_by self.new) given.0) }
        ensures of_book { IfOk result (λ given. IsKnownIn J.book given.0) }
        ensures seats { IfOk result (λ _. self.new.seats + 1 ≡ self.old.seats) }
        ensures none { (result ≡ Err NoSeat) ↔ (self.old.seats ≡ 0) }
        ensures err { IfErr result (λ why. (why ≡ NoSeat) × (self.new.seats ≡ self.old.seats)) }
        ensures sound { IsKept T.Tables J.book self.new }
        ensures noted { IfOk result (λ given. (start : Hand Deed) × (start.mine ≡ [])
            × IsDoneTo T.Tables J.starts start self.old Seated self.new given.1) }
    {
        let given = self.desk.session();
        let mut place = Place::new(history, &mut self.log);
        place.note::<Brand, W>(rt, &mut self.log);
        self.desk.see();
        match given {
            Ok(session) => Ok((session, place)),
            Err(why) => Err(why),
        }
    }

    /// Lets a session know what is shown now. The receipt names the newest shown revision.
    pub fn refresh<W: Wait>(
        &mut self,
        rt: &W,
        place: &mut Place<'_, J>,
        session: &mut Session<J>,
    ) -> Receipt
        requires { session.old.book ≡ J.book }
        ensures more { ShowsMore self.old self.new }
        ensures same { SameTables self.old self.new }
        ensures seats { self.new.seats ≡ self.old.seats }
        ensures tells { TellsShown result self.new }
        ensures kept { KnowsMore session.old session.new }
        ensures known { Begins (shown_by self.new) session.new }
        ensures sound { IsKept T.Tables J.book self.new }
        ensures noted { IsDoneTo T.Tables J.starts place.old self.old Refreshed self.new place.new }
    {
        let receipt = self.desk.refresh(session);
        place.note::<Brand, W>(rt, &mut self.log);
        self.desk.see();
        receipt
    }

    /// Has a part take so many commits more, or as many as there are.
    pub fn catch_up<W: Wait>(
        &mut self,
        rt: &W,
        place: &mut Place<'_, J>,
        part: Part,
        commits: u64,
    ) -> Result<Posted, Refusal>
        ensures ok { IfOk result (λ posted.
            CatchUpAccepted self.old part commits posted.value posted.receipt self.new) }
        ensures err { IfErr result (λ why.
            IsRefused T.Tables self.old IsNoChange (CatchUpJudged commits) why self.new) }
        ensures seats { self.new.seats ≡ self.old.seats }
        ensures sound { IsKept T.Tables J.book self.new }
        ensures noted { IsDoneTo T.Tables J.starts place.old self.old (CaughtUp part commits) self.new place.new }
    {
        let taken = self.desk.catch_up(part, commits);
        place.note_caught_up::<Brand, W>(rt, &mut self.log, part, commits);
        self.desk.see();
        taken
    }

    /// Makes a change, for no call.
    pub fn change<W: Wait>(
        &mut self,
        rt: &W,
        place: &mut Place<'_, J>,
        change: Change,
    ) -> Result<Changed, Refusal>
        ensures ok { IfOk result (λ done. IsMade T.Tables self.old change done.made done.receipt self.new) }
        ensures err { IfErr result (λ why.
            IsRefused T.Tables self.old (MayStore self.old change) (SpeaksAgainst self.old change) why self.new) }
        ensures later { IsPrefix self.old.shown self.new.shown }
        ensures seats { self.new.seats ≡ self.old.seats }
        ensures sound { IsKept T.Tables J.book self.new }
        ensures noted { IsDoneTo T.Tables J.starts place.old self.old ChangedDeed self.new place.new }
    {
        let done = self.desk.change(change);
        place.note::<Brand, W>(rt, &mut self.log);
        self.desk.see();
        done
    }

    /// Makes the change that the body of a call asks for, and tells of it.
    pub fn answer<W: Wait>(
        &mut self,
        rt: &W,
        alloc: Global,
        place: &mut Place<'_, J>,
        session: &mut Session<J>,
        asked: ChangeAsked<'_>,
    ) -> Reply
        requires book { session.old.book ≡ J.book }
        requires asks { AsksChange asked.call asked.body.now asked.change }
        ensures step { ChangeStep T.Tables self.old asked.entry.call asked.entry.body.now (told result) self.new }
        ensures later { IsPrefix self.old.shown self.new.shown }
        ensures kept { KnowsMore session.old session.new }
        ensures known { Begins (shown_by self.new) session.new }
        ensures sound { IsKept T.Tables J.book self.new }
        ensures noted { IsDoneTo T.Tables J.starts place.old self.old
            (Answered asked.entry.call asked.entry.body.now (told result)) self.new place.new }
    {
        let ChangeAsked { call, body, change } = asked;
        let reply = change_on(alloc, &mut self.desk, session, change);
        place.note_answered::<Brand, W>(rt, &mut self.log, call, body, &reply);
        self.desk.see();
        reply
    }

    /// Hands in indexes, or none, that were made with no lock, for the next change that moves the index.
    fn hand_in(&mut self, made: Option<MadeIndexes<J>>)
        ensures { self.new ≡ self.old }
    {
        self.desk.hand_in(made);
    }

    /// The shown revision to which so many commits more bring a group index that is kept, where that is made anew on the way.
    pub fn remade_index(&self, commits: u32) -> Option<Zookie> {
        self.desk.remade_index(commits)
    }

    /// Has each of these places see all that was done, which has left the desk so, and lets them go. One list of deeds is told of
    /// all: each place's own stand in it, and under its number no others.
    pub fn look<W: Wait>(&mut self, rt: &W, places: Vec<Place<'_, J>>)
        ensures same { self.new ≡ self.old }
        ensures told { (deeds : List (Entry Deed)) × IsLeft T.Tables J.starts deeds self.new × AllStandIn deeds places.entry.items }
    {
        look_last(rt, &mut self.log, places);
    }
}

/// One lock over a desk, and the history of what is done under it. What is known of the desk each time the lock is taken is what
/// is true of every `KeptDesk`.
#[derive(Drop)]
pub struct Keeper<T: Tables + Drop, J: KeeperName<T>, R: Wait + Drop> {
    history: History<Deed, J>,
    desk: Mutex<KeptDesk<T, J, R>>,
}

impl<T: Tables + Drop, J: KeeperName<T>, R: Wait + Drop> Keeper<T, J, R> {
    /// A keeper of what the tables hold, which is shown from then on. On a refusal the tables come back.
    pub fn open(
        alloc: Global,
        rt: R,
        opening: Opening,
        tables: T,
    ) -> Result<Keeper<T, J, R>, (Refusal, T)>
        requires book { opening.opened.book ≡ J.book }
        requires history { opening.history ≡ J.table }
        requires starts { (desk : Posts T) → OpensWith T.Tables tables desk → J.starts desk }
        ensures err { IfErr result (λ refused. CannotOpen refused.0) }
        ensures kept { IfErr result (λ refused. ComesBack T.Tables tables refused.1) }
        ensures caused { IfErr result (λ refused. refused.0 ≡ StoreFault
            → IsOpen (T.device tables) → FailsToLoad T.Tables tables refused.1) }
    {
        let Opening { opened, history } = opening;
        let (history, log) = history.named::<J>();
        match Desk::open(alloc, rt, opened, tables) {
            Ok(desk) => Ok(Keeper {
                history,
                desk: Mutex::new(KeptDesk::of_desk(desk, log)),
            }),
            Err(refused) => Err(refused),
        }
    }

    /// The desk, for as long as the guard lives. No other call takes the lock.
    pub fn hold<W: Wait>(&self, rt: &W) -> MutexGuard<'_, KeptDesk<T, J, R>>
        ensures kept { IsKept T.Tables J.book (mutex_guard_value result) }
        ensures left { (deeds : List (Entry Deed)) × IsLeft T.Tables J.starts deeds (mutex_guard_value result) }
    {
        let desk = self.desk.lock(rt);
        desk.see();
        desk
    }

    /// The desk, to which these indexes were handed in, or none.
    pub fn hold_with<W: Wait>(
        &self,
        rt: &W,
        made: Option<MadeIndexes<J>>,
    ) -> MutexGuard<'_, KeptDesk<T, J, R>>
        ensures kept { IsKept T.Tables J.book (mutex_guard_value result) }
        ensures left { (deeds : List (Entry Deed)) × IsLeft T.Tables J.starts deeds (mutex_guard_value result) }
    {
        let mut desk = self.desk.lock(rt);
        desk.hand_in(made);
        desk.see();
        desk
    }

    /// A session that knows what is shown now, and a place for who uses it. It is refused exactly where all have been given out.
    pub fn session<W: Wait>(&self, rt: &W) -> Result<(Session<J>, Place<'_, J>), Refusal>
        ensures seated { IfOk result (λ given. IsSeated T.Tables J.book J.starts (record { known = given.0; hand = given.1 })) }
        ensures of_book { IfOk result (λ given. IsKnownIn J.book given.0) }
        ensures err { IfErr result (λ why. why ≡ NoSeat) }
    {
        self.hold(rt).session(rt, &self.history)
    }

    /// Gives the tables back. Sessions are answered no more.
    pub fn close(self) -> Closed<T, J>
        ensures { WereKept T.Tables J.book J.starts result.log result.tables }
    {
        let Keeper { history, desk } = self;
        let (tables, log) = desk.into_inner().close();
        Closed {
            tables,
            history,
            log,
        }
    }
}
