//! The desk: what lies under a store's lock.
ghost use Rattle.std.specs.Prelude.{◌≡◌, ◌<◌, ◌≤◌, ◌↔◌, ◌⊎◌, ◌+◌, ◌∷◌, [], length, None, Some, true, false, Err, IsTrue, IfOk, IfErr, OnOk};
ghost use mathlib.Core.List.{IsPrefix};
ghost use Rattle.names.specs.declared.commit.Commit.TheVariants.{Config as ConfigCommit};
ghost use Rattle.names.specs.declared.refusal.Refusal.TheVariants.{Memory, NoSeat, Reopen};
ghost use Rattle.names.specs.declared.limits.TheConstants.{MAX_REV};
ghost use Rattle.meaning.specs.Verdict.{config_cause};
ghost use Rattle.rows.specs.Retained.{newest};
ghost use Rattle.rows.specs.Follows.{IsAccepted, IsNext};
ghost use Rattle.rows.specs.Judging.{ConfigRefused};
ghost use Rattle.verdict.specs.Verdict.{AcceptsWrite, RefusesWrite};
ghost use Rattle.shown.specs.declared.step.Step.TheVariants.{Commit as CommitStep, Marking as MarkingStep, Rebase, Take, Trim};
ghost use Rattle.shown.specs.Standing.{standing, base_cause, cursor_of, CanRaise, HasRoom};
ghost use Rattle.shown.specs.Marks.{marking_cause};
ghost use Rattle.shown.specs.Raising.{floor_cause, RefusesBase, RefusesFloor, RefusesMarking};
ghost use Rattle.shown.specs.Asked.{IsTold, RefusesQuestion};
ghost use Rattle.tables.specs.Device.{IsOpen};
ghost use Rattle.tables.specs.Opening.{CannotOpen};
ghost use Rattle.tables.specs.Storing.{PutsAbsent};
ghost use Rattle.published.specs.declared.publication.TheConstants.{MAX_SESSIONS};
ghost use Rattle.published.specs.Judged.{AreJudged, WereJudged};
ghost use Rattle.published.specs.Known.{Begins};
ghost use Rattle.desk.specs.TableChanges.{Adds, Raises};
ghost use Rattle.desk.specs.Posts.{Agrees, OpensWith, ComesBack, FailsToLoad, IsSettled, SameTables, ShowsMore, PostsStep, newest_posted, shown_by};
ghost use Rattle.desk.specs.Changes.{Tells, TellsShown, IsStored, WriteAccepted, ConfigAccepted, CatchUpAccepted, TrimAccepted, MarkingAccepted, RebuildAccepted, IsRefused, IsCommitOfWrite, IsRaiseTo, IsNoChange, CatchUpJudged, RebuildJudged, receipt_at};
ghost use Rattle.desk.specs.Installing.{InstallAccepted};
ghost use Rattle.desk.specs.Made.{IsMade, MayStore, SpeaksAgainst};
ghost use Rattle.desk.specs.inside.Posting.{NoCause, LeavesHistory};

use crate::change::{Change, Changed, Made};
use crate::latched_tables::{LatchedTables, load};
use crate::opening::publish_first;
use crate::storing::{commit_change, floor_change, store};
use config::Config;
use names::limits::MAX_CATCH_UP;
use names::{Commit, Marking, Part, Refusal, Write};
use published::{MadeIndexes, Naming, Opened, Publication, Receipt, Session};
use rows::{events_of, refuses_what_no_write_gives};
use shown::{Question, Refused, Shown, Step, Told};
use std::alloc::{AllocError, Global};
use std::marker::Model;
use std::sync::Wait;
use tables::{Puts, Tables, puts_of};
use tuple_keys::KeptCommit;
use zookie::Zookie;

/// What a caller is told of a part that takes commits, a floor, a marking and a base: the revision up to which the part has
/// read them, once all that is posted is shown, the floor, how many nodes are marked, or the base's revision; and the receipt,
/// which names the newest shown revision.
#[derive(Drop)]
pub struct Posted {
    pub value: u64,
    pub receipt: Receipt,
}

/// The tables, the standing of all posted steps, and what is published of them. A posted step waits as long
/// as there is no memory to publish it.
#[derive(Drop)]
pub struct Desk<T: Tables + Drop, J: Naming, R: Wait + Drop> {
    alloc: Global,
    tables: LatchedTables<T>,
    own: Shown,
    publication: Publication<J, R>,
}

impl<T: Tables + Drop, J: Naming, R: Wait + Drop> Model for Desk<T, J, R> {
    ghost use Rattle.desk.specs.Posts.{Posts};
    ghost use Rattle.desk.specs.inside.DeskCodes.{coded_posts};

    ghost Value = { Posts T };

    ghost coded = { coded_posts T.code };

    ghost use Rattle.desk.specs.Invariant.{IsSound};

    ghost view = { λ d. record {
      tables = d.tables.tables;
      book = d.publication.book;
      posted = d.publication.posted;
      shown = d.publication.shown;
      failed = d.tables.failed;
      faults = T.count d.tables.tables;
      seats = d.publication.seats;
    } };

    ghost invariant = { λ d.
        IsSound T.Tables d.tables.failed d.tables.tables d.own d.publication };
}

impl<T: Tables + Drop, J: Naming, R: Wait + Drop> Desk<T, J, R> {
    /// A desk over tables, which shows what they hold. On a refusal the tables come back.
    pub fn open(
        alloc: Global,
        rt: R,
        opened: Opened,
        tables: T,
    ) -> Result<Desk<T, J, R>, (Refusal, T)>
        requires { opened.book ≡ J.book }
        ensures posted { IfOk result (OpensWith T.Tables tables) }
        ensures shown { IfOk result (λ desk. desk.shown ≡ desk.posted) }
        ensures judged { IfOk result (λ desk. WereJudged desk.posted desk.shown) }
        ensures book { IfOk result (λ desk. desk.book ≡ opened.book) }
        ensures seats { IfOk result (λ desk. desk.seats ≡ MAX_SESSIONS) }
        ensures failed { IfOk result (λ desk. desk.failed ≡ false) }
        ensures faults { IfOk result (λ desk. desk.faults ≡ T.count tables) }
        ensures open { IfOk result (λ desk. IsOpen (T.device desk.tables)) }
        ensures settled { IfOk result (λ desk.
            T.leaves desk.tables ((standing desk.posted).kept ∷ [])) }
        ensures back { IfOk result (λ desk. ComesBack T.Tables tables desk.tables) }
        ensures err { IfErr result (λ refused. CannotOpen refused.0) }
        ensures kept { IfErr result (λ refused. ComesBack T.Tables tables refused.1) }
        ensures caused { IfErr result (λ refused. refused.0 ≡ Refusal.StoreFault
            → IsOpen (T.device tables) → FailsToLoad T.Tables tables refused.1) }
    {
        let mut tables = tables;
        let loaded = match load(&mut tables, alloc) {
            Ok(loaded) => loaded,
            Err(why) => return Err((why, tables)),
        };
        let Ok((own, publication)) = publish_first(alloc, rt, opened, Step::Open(loaded)) else {
            return Err((Refusal::Memory, tables));
        };
        Ok(Desk {
            alloc,
            tables: LatchedTables::new(tables),
            own,
            publication,
        })
    }

    /// Gives the tables back. Sessions are answered no more. A posted step that waits to be shown is stored
    /// already.
    pub fn close(self) -> T
        ensures same { result ≡ self.tables }
        ensures agrees { Agrees T.Tables self.failed result (standing self.posted).kept }
    {
        self.tables.into_tables()
    }

    /// Makes a change that nothing speaks against, by all that is posted, shown or not; or leaves what is posted as it was.
    pub fn change(&mut self, change: Change) -> Result<Changed, Refusal>
        ensures ok { IfOk result (λ done. IsMade T.Tables self.old change done.made done.receipt self.new) }
        ensures err { IfErr result (λ why.
            IsRefused T.Tables self.old (MayStore self.old change) (SpeaksAgainst self.old change) why self.new) }
        ensures told { IfOk result (λ done. done.receipt.published ≡ shown_by self.new) }
        ensures book { self.new.book ≡ self.old.book }
        ensures later { IsPrefix self.old.shown self.new.shown }
        ensures judged { WereJudged self.new.posted self.new.shown }
        ensures seats { self.new.seats ≡ self.old.seats }
    {
        let (made, receipt) = match change {
            Change::Write(write) => (Made::Commit, self.write(write)?),
            Change::Config(config) => (Made::Commit, self.configure(config)?),
            Change::Trim(floor) => {
                let posted = self.trim(floor)?;
                (Made::Floor(posted.value), posted.receipt)
            }
            Change::CatchUp(part, commits) => {
                let posted = self.catch_up(part, commits)?;
                (Made::Cursor(posted.value), posted.receipt)
            }
            Change::Mark(marking) => {
                let posted = self.mark(marking)?;
                (Made::Marked(posted.value), posted.receipt)
            }
            Change::Rebuild => {
                let posted = self.rebuild()?;
                (Made::Base(posted.value), posted.receipt)
            }
        };
        Ok(Changed { made, receipt })
    }

    /// Does operations on distinct tuples together, if the conditions hold, or none of them. It is judged on all that is
    /// posted, shown or not.
    pub fn write(&mut self, write: Write<Zookie>) -> Result<Receipt, Refusal>
        ensures ok { IfOk result (λ receipt. WriteAccepted T.Tables self.old write receipt self.new) }
        ensures err { IfErr result (λ why.
            IsRefused T.Tables self.old (IsCommitOfWrite (standing self.old.posted).kept write)
            (RefusesWrite (standing self.old.posted).kept write) why self.new) }
        ensures seats { self.new.seats ≡ self.old.seats }
    {
        self.make_ready()?;
        self.judge_write(&write)?;
        let Write { ops, .. } = write;
        let puts = puts_of(ops.as_slice());
        let events = events_of(ops)?;
        refuses_what_no_write_gives();
        self.post(Commit::Tuples(events), puts)
    }

    /// Puts a configuration in the place of the one before.
    pub fn configure(&mut self, config: Config) -> Result<Receipt, Refusal>
        ensures ok { IfOk result (λ receipt.
            ConfigAccepted T.Tables self.old config receipt self.new) }
        ensures err { IfErr result (λ why.
            IsRefused T.Tables self.old (λ change. change ≡ Adds (ConfigCommit config))
            (ConfigRefused (newest_posted self.old) config) why self.new) }
        ensures seats { self.new.seats ≡ self.old.seats }
    {
        self.make_ready()?;
        self.judge_config(&config)?;
        self.post(Commit::Config(config), Puts::Absent)
    }

    /// Has a part take so many commits more, or as many as there are. Over 65,536 are malformed. The tables
    /// are not changed.
    pub fn catch_up(&mut self, part: Part, commits: u64) -> Result<Posted, Refusal>
        ensures ok { IfOk result (λ posted.
            CatchUpAccepted self.old part commits posted.value posted.receipt self.new) }
        ensures err { IfErr result (λ why.
            IsRefused T.Tables self.old IsNoChange (CatchUpJudged commits) why self.new) }
        ensures seats { self.new.seats ≡ self.old.seats }
    {
        self.make_ready()?;
        if commits > MAX_CATCH_UP {
            return Err(Refusal::Malformed);
        }
        self.take(part, commits as u32)
    }

    /// Raises the floor to the zookie's revision, in the tables and then in what is shown. At or below the floor nothing
    /// changes.
    pub fn trim(&mut self, floor: Zookie) -> Result<Posted, Refusal>
        ensures ok { IfOk result (λ posted.
            TrimAccepted T.Tables self.old floor posted.value posted.receipt self.new) }
        ensures err { IfErr result (λ why.
            IsRefused T.Tables self.old (IsRaiseTo (standing self.old.posted) floor)
            (RefusesFloor (standing self.old.posted) floor) why self.new) }
        ensures seats { self.new.seats ≡ self.old.seats }
    {
        self.make_ready()?;
        self.judge_floor(&floor)?;
        if floor.rev <= self.floor() {
            return Ok(self.tell_floor());
        }
        self.raise(floor.rev)
    }

    /// Marks a node, or takes its mark away. It is refused where the relation of a node to be marked is not there at the newest
    /// revision, and where more than 256 nodes would be marked. The tables are not changed: marks are not stored.
    pub fn mark(&mut self, marking: Marking) -> Result<Posted, Refusal>
        ensures ok { IfOk result (λ posted.
            MarkingAccepted self.old marking posted.value posted.receipt self.new) }
        ensures err { IfErr result (λ why.
            IsRefused T.Tables self.old IsNoChange
            (RefusesMarking (standing self.old.posted) marking) why self.new) }
        ensures seats { self.new.seats ≡ self.old.seats }
    {
        self.make_ready()?;
        self.judge_marking(&marking)?;
        self.remark(marking)
    }

    /// Makes the base of the group index of the newest posted revision. It is never refused for that revision, which is not
    /// below the floor or the base before. The tables are not changed.
    pub fn rebuild(&mut self) -> Result<Posted, Refusal>
        ensures ok { IfOk result (λ posted.
            RebuildAccepted self.old posted.value posted.receipt self.new) }
        ensures err { IfErr result (λ why.
            IsRefused T.Tables self.old IsNoChange RebuildJudged why self.new) }
        ensures seats { self.new.seats ≡ self.old.seats }
    {
        self.make_ready()?;
        let rev = self.last_posted();
        self.rebase(rev)
    }

    /// Makes the base of the group index of a revision. It is refused where that is below the floor or the base before, or above the
    /// newest posted one. The indexes were made of a session's copy, so each is of the tuples and the configuration of its own
    /// revision: a copy takes one that serves it, and else makes its own. The tables are not changed.
    pub fn install(&mut self, base: u64, made: MadeIndexes<J>) -> Result<Posted, Refusal>
        ensures ok { IfOk result (λ posted.
            InstallAccepted self.old base posted.value posted.receipt self.new) }
        ensures err { IfErr result (λ why.
            IsRefused T.Tables self.old IsNoChange (RefusesBase (standing self.old.posted) base) why self.new) }
        ensures seats { self.new.seats ≡ self.old.seats }
    {
        self.make_ready()?;
        self.judge_base(base)?;
        self.hand_in(Some(made));
        self.rebase(base)
    }

    /// A session that knows what is shown now. It is refused exactly where all have been given out; the place of
    /// one that is dropped is not given out again.
    pub fn session(&mut self) -> Result<Session<J>, Refusal>
        ensures more { ShowsMore self.old self.new }
        ensures same { SameTables self.old self.new }
        ensures known { IfOk result (λ session. Begins (shown_by self.new) session) }
        ensures judged { IfOk result (λ session. AreJudged session.steps) }
        ensures seats { IfOk result (λ _. self.new.seats + 1 ≡ self.old.seats) }
        ensures none { (result ≡ Err NoSeat) ↔ (self.old.seats ≡ 0) }
        ensures err { IfErr result (λ why. (why ≡ NoSeat) × (self.new.seats ≡ self.old.seats)) }
    {
        self.publish();
        self.publication.session()
    }

    /// Lets a session know what is shown now. The receipt names the newest shown revision.
    pub fn refresh(&mut self, session: &mut Session<J>) -> Receipt
        requires { session.old.book ≡ self.old.book }
        ensures more { ShowsMore self.old self.new }
        ensures same { SameTables self.old self.new }
        ensures seats { self.new.seats ≡ self.old.seats }
        ensures tells { TellsShown result self.new }
        ensures kept { Begins session.old session.new }
        ensures known { Begins (shown_by self.new) session.new }
        ensures judged { AreJudged session.new.steps }
        ensures least { (session.new ≡ session.old) ⊎ (session.new ≡ shown_by self.new) }
    {
        let shown = self.publish();
        let receipt = self.shown_receipt(shown);
        session.learn(&receipt);
        receipt
    }

    /// Hands in indexes, or none, that were made beside the desk, for the next change that moves the index. No answer is another
    /// for them.
    pub fn hand_in(&mut self, made: Option<MadeIndexes<J>>)
        ensures { self.new ≡ self.old }
    {
        self.publication.hand_in(made);
    }

    /// The shown revision to which so many commits more bring a group index that is kept, where that is made anew on the way,
    /// since there is a configuration among them.
    pub fn remade_index(&self, commits: u32) -> Option<Zookie> {
        let rev = self.publication.shown().remade_index(commits)?;
        let store = self.number();
        Some(Zookie { store, rev })
    }

    /// Shows what waits, as far as there is memory, and says whether all that is posted is shown.
    pub fn publish(&mut self) -> bool
        ensures more { ShowsMore self.old self.new }
        ensures all { IsTrue result ↔ (self.new.shown ≡ self.new.posted) }
        ensures same { SameTables self.old self.new }
        ensures seats { self.new.seats ≡ self.old.seats }
    {
        self.publication.publish()
    }

    /// What a question is told, at a shown revision that is as fresh as is asked.
    pub fn ask(&self, question: &Question) -> Result<Told, Refused>
        ensures ok { IfOk result (IsTold (standing self.now.shown) question.now) }
        ensures err { IfErr result (RefusesQuestion (standing self.now.shown) question.now) }
        ensures beginning { IsPrefix self.now.shown self.now.posted }
        ensures judged { WereJudged self.now.posted self.now.shown }
    {
        self.publication.shown().answer(question)
    }

    /// The store's number.
    pub fn number(&self) -> u64
        ensures posted { result ≡ (standing self.now.posted).kept.number }
        ensures shown { result ≡ (standing self.now.shown).kept.number }
    {
        self.own.number()
    }

    /// The newest shown revision.
    pub fn newest(&self) -> u64
        ensures { result ≡ newest (standing self.now.shown).kept }
    {
        self.publication.newest()
    }

    /// What is true of every desk, whether it has been asked or changed yet or not: what is shown is a beginning of what is
    /// posted, all of it was judged on what was posted before it, and the tables and the posted steps are one history.
    pub fn see(&self)
        ensures beginning { IsPrefix self.now.shown self.now.posted }
        ensures judged { WereJudged self.now.posted self.now.shown }
        ensures agrees { Agrees T.Tables self.now.failed self.now.tables (standing self.now.posted).kept }
        ensures settled { IsSettled T.Tables self.now }
    {
        // A proof knows the invariant where a field is used.
        let _ = &self.publication;
    }

    /// Whether the tables failed. After that every change is refused.
    pub fn has_failed(&self) -> bool
        ensures { result ≡ self.now.failed }
    {
        self.tables.has_failed()
    }

    // Shows what waits. No change is judged where the tables have failed.
    fn make_ready(&mut self) -> Result<(), Refusal>
        ensures more { ShowsMore self.old self.new }
        ensures same { SameTables self.old self.new }
        ensures seats { self.new.seats ≡ self.old.seats }
        ensures settled { IsSettled T.Tables self.new }
        ensures ok { OnOk result (self.old.failed ≡ false) }
        ensures err { IfErr result (λ why. (why ≡ Reopen) × (self.old.failed ≡ true)) }
    {
        self.publish();
        self.see();
        if self.has_failed() {
            Err(Refusal::Reopen)
        } else {
            Ok(())
        }
    }

    // Why a write is refused, if it is.
    fn judge_write(&self, write: &Write<Zookie>) -> Result<(), Refusal>
        ensures ok { OnOk result (AcceptsWrite (standing self.now.posted).kept write.now) }
        ensures accepted { OnOk result (IsAccepted (newest_posted self.now) write.now.ops) }
        ensures err { IfErr result (RefusesWrite (standing self.now.posted).kept write.now) }
    {
        self.own.judge_write(write)
    }

    // Why a configuration is refused, if it is.
    fn judge_config(&self, config: &Config) -> Result<(), Refusal>
        ensures ok { OnOk result (config_cause (newest_posted self.now) config.now ≡ None) }
        ensures err { IfErr result (ConfigRefused (newest_posted self.now) config.now) }
    {
        self.own.judge_config(config)
    }

    // Why the floor cannot be raised to a zookie's revision, if it cannot.
    fn judge_floor(&self, floor: &Zookie) -> Result<(), Refusal>
        ensures ok { OnOk result (floor_cause (standing self.now.posted) floor.now ≡ None) }
        ensures err { IfErr result (λ why.
            floor_cause (standing self.now.posted) floor.now ≡ Some why) }
        ensures within { OnOk result (floor.now.rev ≤ MAX_REV) }
        ensures can { OnOk result ((standing self.now.posted).kept.floor < floor.now.rev
            → CanRaise (standing self.now.posted) floor.now.rev) }
    {
        self.own.judge_floor(floor)
    }

    // Why a node is not marked, if it is not.
    fn judge_marking(&self, marking: &Marking) -> Result<(), Refusal>
        ensures ok { OnOk result
            (marking_cause (newest_posted self.now).held.config (standing self.now.posted).marks marking.now ≡ None) }
        ensures err { IfErr result (RefusesMarking (standing self.now.posted) marking.now) }
    {
        self.own.judge_marking(marking)
    }

    // Why the base of the index is not made of a revision, if it is not.
    fn judge_base(&self, rev: u64) -> Result<(), Refusal>
        ensures ok { OnOk result (base_cause (standing self.now.posted) rev ≡ None) }
        ensures err { IfErr result (RefusesBase (standing self.now.posted) rev) }
    {
        self.own.judge_base(rev)
    }

    // Stores a commit, posts it, and shows it. All who keep it share it. Room is taken for its step first.
    fn post(&mut self, commit: Commit<Config>, puts: Puts) -> Result<Receipt, Refusal>
        requires open { self.old.failed ≡ false }
        requires next { IsNext (standing self.old.posted).kept commit }
        requires puts { puts ≡ Puts.Absent → PutsAbsent (standing self.old.posted).kept commit }
        ensures posts { OnOk result (PostsStep self.old (CommitStep commit) self.new) }
        ensures tells { IfOk result (λ receipt. Tells receipt self.new) }
        ensures stored { OnOk result (IsStored T.Tables self.old self.new) }
        ensures err { IfErr result (λ why.
            IsRefused T.Tables self.old (λ made. made ≡ Adds commit) NoCause why self.new) }
        ensures seats { self.new.seats ≡ self.old.seats }
    {
        let kept = keep(self.alloc, commit)?;
        self.publication.reserve()?;
        let change = commit_change(&self.own, kept, puts);
        let step = store(&mut self.tables, &mut self.own, change)?;
        self.publication.post(step);
        let shown = self.publish();
        Ok(self.receipt(self.own.newest(), shown))
    }

    // Posts that a part takes commits, and shows it.
    fn take(&mut self, part: Part, commits: u32) -> Result<Posted, Refusal>
        requires open { self.old.failed ≡ false }
        ensures posted { OnOk result (PostsStep self.old (Take part commits) self.new) }
        ensures same { (self.new.tables ≡ self.old.tables) × (self.new.failed ≡ false) }
        ensures moved { IfOk result (λ posted.
            posted.value ≡ cursor_of part (standing self.new.posted)) }
        ensures tells { IfOk result (λ posted. TellsShown posted.receipt self.new) }
        ensures err { IfErr result (λ why. (why ≡ Memory) × (self.new ≡ self.old)) }
        ensures seats { self.new.seats ≡ self.old.seats }
    {
        let receipt = self.post_unstored(Step::Take(part, commits))?;
        let value = self.cursor(part);
        Ok(Posted { value, receipt })
    }

    // Posts that a node is marked, or is so no longer, and shows it.
    fn remark(&mut self, marking: Marking) -> Result<Posted, Refusal>
        requires open { self.old.failed ≡ false }
        requires accepted { marking_cause (newest_posted self.old).held.config (standing self.old.posted).marks marking ≡ None }
        ensures posted { OnOk result (PostsStep self.old (MarkingStep marking) self.new) }
        ensures same { (self.new.tables ≡ self.old.tables) × (self.new.failed ≡ false) }
        ensures told { IfOk result (λ posted.
            posted.value ≡ length (standing self.new.posted).marks) }
        ensures tells { IfOk result (λ posted. TellsShown posted.receipt self.new) }
        ensures err { IfErr result (λ why. (why ≡ Memory) × (self.new ≡ self.old)) }
        ensures seats { self.new.seats ≡ self.old.seats }
    {
        let receipt = self.post_unstored(Step::Marking(marking))?;
        let value = self.marked();
        Ok(Posted { value, receipt })
    }

    // Posts that the base of the index is made of a revision, and shows it.
    fn rebase(&mut self, rev: u64) -> Result<Posted, Refusal>
        requires open { self.old.failed ≡ false }
        requires accepted { base_cause (standing self.old.posted) rev ≡ None }
        ensures posted { OnOk result (PostsStep self.old (Rebase rev) self.new) }
        ensures same { (self.new.tables ≡ self.old.tables) × (self.new.failed ≡ false) }
        ensures told { IfOk result (λ posted. posted.value ≡ (standing self.new.posted).base) }
        ensures tells { IfOk result (λ posted. TellsShown posted.receipt self.new) }
        ensures err { IfErr result (λ why. (why ≡ Memory) × (self.new ≡ self.old)) }
        ensures seats { self.new.seats ≡ self.old.seats }
    {
        let receipt = self.post_unstored(Step::Rebase(rev))?;
        let value = self.base();
        Ok(Posted { value, receipt })
    }

    // Posts a step of which the tables need not know, and shows it.
    fn post_unstored(&mut self, step: Step) -> Result<Receipt, Refusal>
        requires open { self.old.failed ≡ false }
        requires room { HasRoom (standing self.old.posted) step }
        requires history { LeavesHistory step }
        ensures posted { OnOk result (PostsStep self.old step self.new) }
        ensures same { (self.new.tables ≡ self.old.tables) × (self.new.failed ≡ false) }
        ensures tells { IfOk result (λ receipt. TellsShown receipt self.new) }
        ensures err { IfErr result (λ why. (why ≡ Memory) × (self.new ≡ self.old)) }
        ensures seats { self.new.seats ≡ self.old.seats }
    {
        self.publication.reserve()?;
        self.own.apply(&step)?;
        self.publication.post(step);
        let shown = self.publish();
        Ok(self.shown_receipt(shown))
    }

    // Stores a higher floor, posts it, and shows it. Room is taken for its step first.
    fn raise(&mut self, floor: u64) -> Result<Posted, Refusal>
        requires open { self.old.failed ≡ false }
        requires can { CanRaise (standing self.old.posted) floor }
        requires small { floor ≤ MAX_REV }
        ensures posts { OnOk result (PostsStep self.old (Trim floor) self.new) }
        ensures stored { OnOk result (IsStored T.Tables self.old self.new) }
        ensures value { IfOk result (λ posted.
            posted.value ≡ (standing self.new.posted).kept.floor) }
        ensures tells { IfOk result (λ posted. TellsShown posted.receipt self.new) }
        ensures err { IfErr result (λ why.
            IsRefused T.Tables self.old (λ made. made ≡ Raises floor) NoCause why self.new) }
        ensures seats { self.new.seats ≡ self.old.seats }
    {
        self.publication.reserve()?;
        let trim = floor_change(&self.own, floor);
        let step = store(&mut self.tables, &mut self.own, trim)?;
        self.publication.post(step);
        Ok(self.tell_floor())
    }

    // Shows what waits, and tells the floor.
    fn tell_floor(&mut self) -> Posted
        ensures more { ShowsMore self.old self.new }
        ensures same { SameTables self.old self.new }
        ensures value { result.value ≡ (standing self.new.posted).kept.floor }
        ensures tells { TellsShown result.receipt self.new }
        ensures seats { self.new.seats ≡ self.old.seats }
    {
        let shown = self.publish();
        let value = self.floor();
        let receipt = self.shown_receipt(shown);
        Posted { value, receipt }
    }

    // The floor.
    fn floor(&self) -> u64
        ensures { result ≡ (standing self.now.posted).kept.floor }
    {
        self.own.state().floor
    }

    // The newest posted revision, of which the base of the index can always be made.
    fn last_posted(&self) -> u64
        ensures newest { result ≡ newest (standing self.now.posted).kept }
        ensures fits { base_cause (standing self.now.posted) result ≡ None }
    {
        self.own.newest()
    }

    // How many nodes are marked.
    fn marked(&self) -> u64
        ensures { result ≡ length (standing self.now.posted).marks }
    {
        self.own.state().marked
    }

    // The revision of the index's base.
    fn base(&self) -> u64
        ensures { result ≡ (standing self.now.posted).base }
    {
        self.own.state().base
    }

    // The cursor of a part.
    fn cursor(&self, part: Part) -> u64
        ensures { result ≡ cursor_of part (standing self.now.posted) }
    {
        let state = self.own.state();
        match part {
            Part::Index => state.index,
            Part::Hot => state.hot,
        }
    }

    // The receipt of a change at this revision.
    fn receipt(&self, rev: u64, shown: bool) -> Receipt
        ensures { result ≡ receipt_at self.now rev shown }
    {
        let zookie = Zookie {
            store: self.number(),
            rev,
        };
        Receipt::new(zookie, shown, self.publication.shown_steps())
    }

    // The receipt that names the newest shown revision.
    fn shown_receipt(&self, shown: bool) -> Receipt
        ensures { result ≡ receipt_at self.now (newest (standing self.now.shown).kept) shown }
    {
        self.receipt(self.publication.newest(), shown)
    }
}

// The commit, to be kept: a configuration is moved into it.
fn keep(alloc: Global, commit: Commit<Config>) -> Result<KeptCommit, AllocError>
    ensures { IfOk result (λ kept. kept ≡ commit) }
{
    match commit {
        Commit::Tuples(events) => KeptCommit::of_events(alloc, events.as_slice()),
        Commit::Config(config) => KeptCommit::of_config(alloc, config),
    }
}
