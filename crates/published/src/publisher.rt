//! The writer of two copies.
ghost use Rattle.std.specs.Prelude.{◌≡◌, ◌↔◌, ◌<◌, ◌^◌, ℕ, length, IsTrue, [], ◌∷◌, ◌++◌, IfOk, OnOk, OnErr, MatchResult, drop, fold};
ghost use Rattle.left_right.specs.Register.{TurnsAt};
ghost use Rattle.left_right.specs.Sides.{view as seen_by};
ghost use Rattle.published.specs.Writing.{Writing, KeepsRule};

use crate::book::StepPrefix;
use crate::rule::TellsAll;
use crossbeam_utils::rule::{Outcome, Protocol};
use left_right::Absorb;
use left_right::reader::Reader;
use left_right::writer::Writer;
use std::alloc::{AllocError, Global};
use std::marker::Model;
use std::sync::Wait;

/// A writer of copies that take posts, under a rule. Whoever has it ends it by [`end`](Publisher::end). Contracts see it as the
/// published copy, the posts that wait, and what the writer's place knows.
pub struct Publisher<C: Absorb<O> + Drop, O: Drop, P: Protocol<C, Option<StepPrefix>>> {
    writer: Writer<C, O, Option<StepPrefix>, P>,
}

impl<C: Absorb<O> + Drop, O: Drop, P: Protocol<C, Option<StepPrefix>>> Model
    for Publisher<C, O, P> {
    ghost use Rattle.std.specs.Prelude.{drop};
    ghost use Rattle.left_right.specs.Sides.{view as seen_by};
    ghost use Rattle.published.specs.Writing.{Writing};
    ghost use Rattle.published.specs.inside.WritingCodes.{coded_writing};

    ghost Value = { Writing C O };

    ghost coded = { coded_writing C.code O.code };

    ghost view = { λ p. record {
      published = p.writer.desk.shown.value;
      waiting = drop p.writer.behind p.writer.log.items;
      told = seen_by p.writer.desk.place;
    } };
}

impl<C: Absorb<O> + Drop, O: Drop, P: Protocol<C, Option<StepPrefix>>> Publisher<C, O, P> {
    /// A publisher of two copies that are alike, with room for so many readers.
    pub fn new(
        alloc: Global,
        first: C,
        second: C,
        readers: usize,
    ) -> Result<Publisher<C, O, P>, AllocError>
        requires readers { (0 < readers) × (readers < 2 ^ 32) }
        requires alike { C.state first ≡ C.state second }
        requires rule { P.holds first (P.first ∷ []) }
        ensures { IfOk result (λ p.
            p ≡ record { published = first; waiting = []; told = P.first }) }
    {
        let writer = Writer::new(alloc, first, second, readers)?;
        Ok(Publisher { writer })
    }

    /// The copy that is read.
    pub fn published(&self) -> &C
        ensures { result.now ≡ self.now.published }
    {
        self.writer.published()
    }

    /// Whether some post is not published.
    pub fn is_waiting(&self) -> bool
        ensures { IsTrue result ↔ (0 < length self.now.waiting) }
    {
        self.writer.has_pending_operations()
    }

    /// Takes one post. It comes back for want of memory.
    pub fn append(&mut self, post: O) -> Result<(), O>
        ensures same { (self.new.published ≡ self.old.published) × (self.new.told ≡ self.old.told) }
        ensures waiting { MatchResult result
            (λ _. self.new.waiting ≡ self.old.waiting ++ post ∷ [])
            (λ p. (p ≡ post) × (self.new.waiting ≡ self.old.waiting)) }
    {
        self.writer.append(post)
    }

    /// Shows readers all posts that wait, and waits for those that read the other copy. For want of memory it
    /// shows none.
    pub fn publish<M: Outcome<C, Option<StepPrefix>>, R: Wait>(
        self,
        rt: &R,
    ) -> (Publisher<C, O, P>, Result<(), AllocError>)
        requires { (next : C) → C.state next ≡ fold C.applied (C.state self.published) self.waiting
            → (seat : ℕ) → TurnsAt P.holds seat self.told self.published next M.then }
        ensures state { OnOk result.1 (C.state result.0.published ≡ fold C.applied (C.state self.published) self.waiting) }
        ensures waiting { OnOk result.1 (result.0.waiting ≡ []) }
        ensures turned { OnOk result.1 (M.then self.told self.published result.0.published result.0.told) }
        ensures err { OnErr result.1 (result.0 ≡ self) }
    {
        let Publisher { writer } = self;
        let (writer, shown) = writer.publish_as::<M, R>(rt);
        (Publisher { writer }, shown)
    }

    /// A new reader, which knows what the writer's place knows.
    pub fn reader(&mut self) -> Result<Reader<C, Option<StepPrefix>, P>, AllocError>
        requires { KeepsRule P.holds P.first self.old.told }
        ensures same { self.new ≡ self.old }
        ensures told { IfOk result (λ r. seen_by r.place ≡ self.old.told) }
    {
        let mut reader = self.writer.factory().reader()?;
        reader.learn::<TellsAll>(self.writer.tell::<TellsAll>());
        Ok(reader)
    }

    /// Waits for the readers. They read nothing from then on.
    pub fn end<R: Wait>(self, rt: &R) {
        let Publisher { writer } = self;
        drop(writer.take(rt));
    }
}
