//! A session asks the published state, with no lock and no wait.
ghost use Rattle.std.specs.Prelude.{◌≡◌, ◌⊎◌, IfOk, IfErr, IfSome, IfNone, Some, None};
ghost use Rattle.names.specs.declared.refusal.Refusal.TheVariants.{Reopen};
ghost use Rattle.left_right.specs.Sides.{view};
ghost use Rattle.shown.specs.Standing.{standing, state_of};
ghost use Rattle.shown.specs.Answers.{IsAnswer, IsRefusal};
ghost use Rattle.shown.specs.Asked.{IsTold, RefusesQuestion};
ghost use Rattle.shown.specs.Expanding.{IsTree, IsTreeRefusal};
ghost use Rattle.leopard.specs.Exprs.{query_of};
ghost use Rattle.shown.specs.Grouping.{AreGroups, IsGroupsRefusal};
ghost use Rattle.shown.specs.Looking.{AreObjects, IsLookupRefusal};
ghost use Rattle.shown.specs.Copying.{IsCopied};
ghost use Rattle.shown.specs.Paging.{IsPage, IsPageRefusal};
ghost use Rattle.shown.specs.Watching.{IsWatched};
ghost use Rattle.published.specs.Known.{Known, Begins};
ghost use Rattle.published.specs.Judged.{AreJudged};
ghost use Rattle.published.specs.Answering.{IsRefusedIn, IsWatchRefusedIn};
ghost use Rattle.published.specs.Vouching.{IsSameSnap, IsVouchRefusal};

use crate::book::{Naming, StepPrefix};
use crate::made::{Copied, is_same};
use crate::receipt::Receipt;
use crate::remembered::{Look, Remembered};
use crate::rule::{CopyReader, Seeing};
use core::mem::replace_with;
use expand::Tree;
use leopard::{Expr, Input};
use lookup::Lookup;
use names::{Items, Node, Object, Refusal, State, Tuple};
use rows::Tupleset;
use shown::{Answer, Depth, Objects, Question, Refused, Told};
use std::alloc::Global;
use std::marker::Model;
use watch::{Namespaces, Page};
use zookie::{Consistency, Zookie};

/// A reader of the published state of the book that `J` names, and the steps that it knows. Contracts see it as those steps, with the
/// name of their book. What it is asked is answered by the standing of steps that begin with all it knew, and
/// from then on it knows these. All that it knows was judged before it was posted. It outlives the publication,
/// and answers nothing from then on. It keeps up to 1,024 answers of its checks, and asks them at its next checks: what is
/// answered is the same.
#[derive(Drop)]
pub struct Session<J: Naming> {
    reader: CopyReader<J>,
    known: Remembered,
}

impl<J: Naming> Model for Session<J> {
    ghost use Rattle.std.specs.Prelude.{◌≡◌, Some};
    ghost use Rattle.left_right.specs.Sides.{view as seen_by};
    ghost use Rattle.published.specs.Known.{Known};
    ghost use Rattle.published.specs.Judged.{AreJudged};
    ghost use Rattle.published.specs.inside.Codes.{coded_known};

    ghost Value = { Known };

    ghost coded = { coded_known };

    ghost view = { λ s. s.known };

    ghost invariant = { λ s.
        ((k : Known) × (seen_by s.reader.place ≡ Some k) × (k.book ≡ s.known.book))
        × AreJudged s.known.steps };
}

impl<J: Naming> Session<J> {
    pub(crate) fn new(reader: CopyReader<J>, known: Remembered) -> Session<J>
        requires seen { (k : Known) × (view reader.place ≡ Some k) × (k.book ≡ known.book) }
        requires judged { AreJudged known.steps }
        ensures { result ≡ known }
    {
        Session { reader, known }
    }

    /// What a question is told or why it is refused, beside the number of the store, for its zookies. There is nothing where the
    /// publication is gone. What a check was answered is kept, and asked at the next checks.
    pub fn ask(&mut self, question: &Question) -> Option<(u64, Result<Told, Refused>)>
        ensures number { IfSome result (λ asked. asked.0 ≡ (standing self.new.steps).kept.number) }
        ensures ok { IfSome result (λ asked. IfOk asked.1
            (IsTold (standing self.new.steps) question.now)) }
        ensures err { IfSome result (λ asked. IfErr asked.1
            (RefusesQuestion (standing self.new.steps) question.now)) }
        ensures none { IfNone result (self.new ≡ self.old) }
        ensures judged { AreJudged self.new.steps }
        ensures later { Begins self.old self.new }
    {
        let asking = Inquiry {
            known: &self.known,
            question,
        };
        let (asked, number, steps) = replace_with(&mut self.reader, asking, look)?;
        self.known.advance(steps);
        self.known.keep(question, &asked);
        Some((number, asked))
    }

    /// Whether the user is a member of the node, at the revision that the consistency chooses.
    pub fn check(
        &mut self,
        consistency: Consistency,
        node: Node,
        user: Object,
    ) -> Result<Answer<bool>, Refused>
        ensures ok { IfOk result (IsAnswer (standing self.new.steps) consistency node user) }
        ensures err { IfErr result (IsRefusedIn self.old self.new
            (IsRefusal (standing self.new.steps) consistency node)) }
        ensures judged { AreJudged self.new.steps }
        ensures later { Begins self.old self.new }
    {
        match self.ask(&Question::Check(consistency, node, user)) {
            Some((_, Ok(Told::Checked(answer)))) => Ok(answer),
            Some((_, Ok(_))) => unreachable!(),
            Some((_, Err(refused))) => Err(refused),
            None => Err(no_publication()),
        }
    }

    /// The userset tree of the node, at the revision that the consistency chooses.
    pub fn expand(
        &mut self,
        consistency: Consistency,
        node: Node,
        depth: Depth,
    ) -> Result<Answer<Tree>, Refused>
        ensures ok { IfOk result (IsTree (standing self.new.steps) consistency node depth.nodes) }
        ensures err { IfErr result (IsRefusedIn self.old self.new
            (IsTreeRefusal (standing self.new.steps) consistency node depth.nodes)) }
        ensures judged { AreJudged self.new.steps }
        ensures later { Begins self.old self.new }
    {
        match self.ask(&Question::Expand(consistency, node, depth)) {
            Some((_, Ok(Told::Expanded(answer)))) => Ok(answer),
            Some((_, Ok(_))) => unreachable!(),
            Some((_, Err(refused))) => Err(refused),
            None => Err(no_publication()),
        }
    }

    /// The page of a tupleset, at the revision that the consistency chooses.
    pub fn read(
        &mut self,
        consistency: Consistency,
        asked: Tupleset,
    ) -> Result<Answer<Items<Tuple>>, Refused>
        ensures ok { IfOk result (IsPage (standing self.new.steps) consistency asked) }
        ensures err { IfErr result (IsRefusedIn self.old self.new
            (IsPageRefusal (standing self.new.steps) consistency)) }
        ensures judged { AreJudged self.new.steps }
        ensures later { Begins self.old self.new }
    {
        match self.ask(&Question::Read(consistency, asked)) {
            Some((_, Ok(Told::Found(answer)))) => Ok(answer),
            Some((_, Ok(_))) => unreachable!(),
            Some((_, Err(refused))) => Err(refused),
            None => Err(no_publication()),
        }
    }

    /// The configuration and the tuples of the revision that the consistency chooses, copied in one entry: what is published
    /// after the next publication waits for that.
    pub fn copy_snapshot(&mut self, consistency: &Consistency) -> Result<Copied<J>, Refused>
        ensures ok { IfOk result (λ copied.
            IsCopied (standing self.new.steps) consistency.now (record { rev = copied.rev; value = copied.snap })) }
        ensures err { IfErr result (IsRefusedIn self.old self.new
            (IsPageRefusal (standing self.new.steps) consistency.now)) }
        ensures judged { AreJudged self.new.steps }
        ensures later { Begins self.old self.new }
    {
        let asking = Copying {
            known: &self.known,
            consistency,
        };
        let Some((copied, known)) = replace_with(&mut self.reader, asking, copy) else {
            return Err(no_publication());
        };
        self.known.advance(known);
        copied
    }

    /// The snapshot of the zookie's revision, where one that was come by elsewhere is the same: an index may be made of it. What the
    /// session copies is held against that with no entry open. It is refused with `WrongBuild` where they differ, and else as a page
    /// is. Configurations are compared by their texts.
    pub fn vouch(
        &mut self,
        alloc: Global,
        zookie: &Zookie,
        given: &Input,
    ) -> Result<Copied<J>, Refused>
        ensures ok { IfOk result (λ copied. (copied.rev ≡ zookie.now.rev) × IsSameSnap copied.snap given.now) }
        ensures err { IfErr result (IsRefusedIn self.old self.new
            (IsVouchRefusal (standing self.new.steps) zookie.now given.now)) }
        ensures judged { AreJudged self.new.steps }
        ensures later { Begins self.old self.new }
    {
        let copied = self.copy_snapshot(&Consistency::Exactly(*zookie))?;
        let why = match is_same(alloc, copied.input(), given) {
            Ok(true) => return Ok(copied),
            Ok(false) => Refusal::WrongBuild,
            Err(_) => Refusal::Memory,
        };
        Err(Refused { why, at: None })
    }

    /// The objects to which the user has the relation, at the revision that the consistency chooses.
    pub fn lookup(
        &mut self,
        consistency: Consistency,
        asked: Lookup,
    ) -> Result<Answer<Objects>, Refused>
        ensures ok { IfOk result (AreObjects (standing self.new.steps) consistency asked) }
        ensures err { IfErr result (IsRefusedIn self.old self.new
            (IsLookupRefusal (standing self.new.steps) consistency asked)) }
        ensures judged { AreJudged self.new.steps }
        ensures later { Begins self.old self.new }
    {
        match self.ask(&Question::Lookup(consistency, asked)) {
            Some((_, Ok(Told::Looked(answer)))) => Ok(answer),
            Some((_, Ok(_))) => unreachable!(),
            Some((_, Err(refused))) => Err(refused),
            None => Err(no_publication()),
        }
    }

    /// The first so many groups that the expression means, at the revision that the consistency chooses.
    pub fn groups(
        &mut self,
        consistency: Consistency,
        expr: Expr,
        limit: u32,
    ) -> Result<Answer<Items<Node>>, Refused>
        ensures ok { IfOk result
            (AreGroups (standing self.new.steps) consistency (query_of expr) limit) }
        ensures err { IfErr result (IsRefusedIn self.old self.new
            (IsGroupsRefusal (standing self.new.steps) consistency (query_of expr) limit)) }
        ensures judged { AreJudged self.new.steps }
        ensures later { Begins self.old self.new }
    {
        match self.ask(&Question::Groups(consistency, expr, limit)) {
            Some((_, Ok(Told::Grouped(answer)))) => Ok(answer),
            Some((_, Ok(_))) => unreachable!(),
            Some((_, Err(refused))) => Err(refused),
            None => Err(no_publication()),
        }
    }

    /// The events on tuples of the namespaces, of so many commits above the cursor's revision, or of as many as there are.
    pub fn watch(
        &mut self,
        cursor: Zookie,
        namespaces: Namespaces,
        commits: u32,
    ) -> Result<Page, Refusal>
        ensures ok { IfOk result (IsWatched (standing self.new.steps) cursor namespaces commits) }
        ensures err { IfErr result (IsWatchRefusedIn self.old self.new cursor) }
        ensures judged { AreJudged self.new.steps }
        ensures later { Begins self.old self.new }
    {
        match self.ask(&Question::Watch(cursor, namespaces, commits)) {
            Some((_, Ok(Told::Watched(page)))) => Ok(page),
            Some((_, Ok(_))) => unreachable!(),
            Some((_, Err(refused))) => Err(refused.why),
            None => Err(Refusal::Reopen),
        }
    }

    /// Revisions, and how large the history is.
    pub fn state(&mut self) -> Result<State, Refusal>
        ensures ok { IfOk result (λ state. state ≡ state_of (standing self.new.steps)) }
        ensures err { IfErr result (λ why. (why ≡ Reopen) × (self.new ≡ self.old)) }
        ensures judged { AreJudged self.new.steps }
        ensures later { Begins self.old self.new }
    {
        match self.ask(&Question::State) {
            Some((_, Ok(Told::Numbers(numbers)))) => Ok(numbers),
            Some(_) => unreachable!(),
            None => Err(Refusal::Reopen),
        }
    }

    /// All that a session knows was judged, whether it has been asked yet or not.
    pub fn knows_judged_steps(&self)
        ensures { AreJudged self.now.steps }
    {
        self.known.knows_judged_steps();
    }

    /// From now on the session knows no less than what the receipt tells. It takes no memory.
    pub fn learn(&mut self, receipt: &Receipt)
        requires { receipt.now.published.book ≡ self.old.book }
        ensures judged { AreJudged self.new.steps }
        ensures kept { Begins self.old self.new }
        ensures told { Begins receipt.now.published self.new }
        ensures least { (self.new ≡ self.old) ⊎ (self.new ≡ receipt.now.published) }
    {
        self.learn_steps(receipt.published_steps());
    }

    /// From now on the session knows no less than these steps.
    pub(crate) fn learn_steps(&mut self, steps: &StepPrefix)
        requires book { steps.now.book ≡ self.old.book }
        requires judged { AreJudged steps.now.steps }
        ensures judged { AreJudged self.new.steps }
        ensures kept { Begins self.old self.new }
        ensures told { Begins steps.now self.new }
        ensures least { (self.new ≡ self.old) ⊎ (self.new ≡ steps.now) }
    {
        self.known.learn(steps);
    }
}

// A question, and what the session that asks it remembers.
#[derive(Drop)]
struct Inquiry<'a> {
    known: &'a Remembered,
    question: &'a Question,
}

// What is to be copied, and what the session that copies it remembers.
#[derive(Drop)]
struct Copying<'a> {
    known: &'a Remembered,
    consistency: &'a Consistency,
}

// The publication is gone.
fn no_publication() -> Refused
    ensures { result ≡ record { why = Reopen; at = None } }
{
    Refused {
        why: Refusal::Reopen,
        at: None,
    }
}

// Where the copy does not begin with what the session knows, it is not asked.
fn look<J: Naming>(
    reader: CopyReader<J>,
    asking: Inquiry<'_>,
) -> (CopyReader<J>, Option<Look<Result<Told, Refused>>>)
    requires book { (k : Known) × (view reader.place ≡ Some k) × (k.book ≡ asking.known.now.book) }
    ensures book { (k : Known) × (view result.0.place ≡ Some k) × (k.book ≡ asking.entry.known.now.book) }
    ensures later { IfSome result.1 (λ seen. Begins asking.entry.known.now seen.2) }
    ensures judged { IfSome result.1 (λ seen. AreJudged seen.2.steps) }
    ensures number { IfSome result.1 (λ seen. seen.1 ≡ (standing seen.2.steps).kept.number) }
    ensures ok { IfSome result.1 (λ seen. IfOk seen.0
        (IsTold (standing seen.2.steps) asking.entry.question.now)) }
    ensures err { IfSome result.1 (λ seen. IfErr seen.0
        (RefusesQuestion (standing seen.2.steps) asking.entry.question.now)) }
{
    match reader.enter_as::<Seeing>() {
        Ok(reading) => {
            let copy = reading.get();
            let Some(kept) = asking.known.answers_for(copy.prefix()) else {
                return (reading.leave(), None);
            };
            let answer = copy.shown().answer_knowing(kept, asking.question);
            let number = copy.shown().number();
            let prefix = copy.prefix().again();
            (reading.leave(), Some((answer, number, prefix)))
        }
        Err(reader) => (reader, None),
    }
}

// The same, where a snapshot is copied.
fn copy<J: Naming>(
    reader: CopyReader<J>,
    asking: Copying<'_>,
) -> (
    CopyReader<J>,
    Option<(Result<Copied<J>, Refused>, StepPrefix)>,
)
    requires book { (k : Known) × (view reader.place ≡ Some k) × (k.book ≡ asking.known.now.book) }
    ensures book { (k : Known) × (view result.0.place ≡ Some k) × (k.book ≡ asking.entry.known.now.book) }
    ensures later { IfSome result.1 (λ seen. Begins asking.entry.known.now seen.1) }
    ensures judged { IfSome result.1 (λ seen. AreJudged seen.1.steps) }
    ensures ok { IfSome result.1 (λ seen. IfOk seen.0 (λ copied.
        IsCopied (standing seen.1.steps) asking.entry.consistency.now (record { rev = copied.rev; value = copied.snap }))) }
    ensures err { IfSome result.1 (λ seen. IfErr seen.0
        (IsPageRefusal (standing seen.1.steps) asking.entry.consistency.now)) }
{
    match reader.enter_as::<Seeing>() {
        Ok(reading) => {
            let copy = reading.get();
            if !asking.known.begins(copy.prefix()) {
                return (reading.leave(), None);
            }
            let copied = copy.copy_snapshot(asking.consistency);
            let prefix = copy.prefix().again();
            (reading.leave(), Some((copied, prefix)))
        }
        Err(reader) => (reader, None),
    }
}
