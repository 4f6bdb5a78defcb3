//! The answers that are kept.
ghost use Rattle.std.specs.Prelude.{◌≡◌, ◌≤◌, ◌↔◌, ◌⊎◌, ℕ, Bool, [], length, Contains, IfOk, OnOk, OnErr, IfSome, IfNone, IsOk};
ghost use Rattle.meaning.specs.Snap.{Snap};
ghost use Rattle.decide.specs.Answers.{IsAnswer};
ghost use Rattle.answer_cache.specs.declared.question.Question.{Question};
ghost use Rattle.answer_cache.specs.Questions.{question};
ghost use Rattle.answer_cache.specs.Kept.{answer_first, answers_with, HasOneAnswerEach, AreAnswers};

use crate::marks::Marks;
use crate::question::Question;
use lru::LruCache;
use names::{Node, Object};
use std::alloc::{AllocError, Global};
use std::hash::RandomState;
use std::marker::Model;
use std::num::NonZeroUsize;

/// The most answers that are kept.
pub const CAPACITY: usize = 1024;

/// Answers of checks, the one used last first. Each is of a revision, a node and a user.
///
/// An answer is found by the hash of its question under a key that whoever makes the cache hands in.
#[derive(Drop)]
pub struct CachedAnswers {
    answers: LruCache<Question, bool, RandomState>,
    marks: Marks,
}

impl Model for CachedAnswers {
    ghost use Rattle.std.specs.Prelude.{Bool, List};
    ghost use Rattle.answer_cache.specs.declared.question.Question.{Question};
    ghost use Rattle.answer_cache.specs.inside.Fits.{Fits};

    ghost Value = { List (Question × Bool) };

    ghost view = { λ c. c.answers.entries };

    ghost invariant = { λ c. Fits c.answers };
}

impl CachedAnswers {
    /// A cache that keeps no answer. Questions are hashed under this key. It takes little memory: room for answers
    /// is made as they come.
    pub fn new(alloc: Global, keys: RandomState) -> Result<CachedAnswers, AllocError>
        ensures { IfOk result (λ kept. kept ≡ []) }
    {
        let Some(capacity) = NonZeroUsize::new(CAPACITY) else {
            unreachable!()
        };
        // Made without a bound, as that reserves no room.
        let mut answers = LruCache::unbounded_with_hasher(alloc, keys)?;
        answers.resize(capacity);
        Ok(CachedAnswers {
            answers,
            marks: Marks::none(),
        })
    }

    /// Lets all answers go.
    pub fn clear(&mut self)
        ensures { self.new ≡ [] }
    {
        self.answers.clear();
        self.marks = Marks::none();
    }

    /// The answer that is kept of the question, which is then the one used last.
    pub fn knows_at(&mut self, revision: u64, node: &Node, user: &Object) -> Option<bool>
        ensures found { IfSome result (λ b. Contains self.old (question revision node.now user.now, b)) }
        ensures none { IfNone result
            ((b : Bool) → ¬ (Contains self.old (question revision node.now user.now, b))) }
        ensures right { (snaps : ℕ → Snap) → AreAnswers self.old snaps
            → IfSome result (IsAnswer (snaps revision) user.now node.now) }
        ensures same { (q : Question) (b : Bool) → Contains self.new (q, b) ↔ Contains self.old (q, b) }
        ensures used { IfSome result
            (λ b. self.new ≡ answer_first (question revision node.now user.now) b self.old) }
        ensures unused { IfNone result (self.new ≡ self.old) }
        ensures few { length self.new ≤ CAPACITY }
        ensures one_answer_each { HasOneAnswerEach self.new }
    {
        let question = Question::of(revision, node, user);
        self.answers.get(&question).copied()
    }

    /// The answer that is kept of the question. Which was used last stays as it is.
    pub fn peek_at(&self, revision: u64, node: &Node, user: &Object) -> Option<bool>
        ensures found { IfSome result (λ b. Contains self.now (question revision node.now user.now, b)) }
        ensures none { IfNone result
            ((b : Bool) → ¬ (Contains self.now (question revision node.now user.now, b))) }
    {
        let question = Question::of(revision, node, user);
        self.answers.peek(&question).copied()
    }

    /// Whether the question may have been kept lately. It costs a fraction of a look-up.
    pub(crate) fn may_know(&self, node: &Node, user: &Object) -> bool {
        self.marks.has(node, user)
    }

    /// Keeps this answer as the one used last, in the place of one of the same question, and else of the one
    /// that was used least lately where there is no room.
    pub fn keep(
        &mut self,
        revision: u64,
        node: &Node,
        user: &Object,
        answer: bool,
    ) -> Result<(), AllocError>
        ensures ok { OnOk result
            (self.new ≡ answers_with (question revision node.now user.now) answer self.old) }
        ensures err { OnErr result (self.new ≡ self.old) }
        ensures replaces { (b : Bool) → Contains self.old (question revision node.now user.now, b)
            → IsOk result }
        ensures kept { OnOk result (Contains self.new (question revision node.now user.now, answer)) }
        ensures no_other { (q : Question) (b : Bool) → Contains self.new (q, b)
            → ((q ≡ question revision node.now user.now) × (b ≡ answer)) ⊎ Contains self.old (q, b) }
        ensures right { (snaps : ℕ → Snap) → AreAnswers self.old snaps
            → IsAnswer (snaps revision) user.now node.now answer → AreAnswers self.new snaps }
        ensures few { length self.new ≤ CAPACITY }
        ensures one_answer_each { HasOneAnswerEach self.new }
    {
        let question = Question::of(revision, node, user);
        self.answers.put(question, answer)?;
        self.marks.mark(node, user);
        Ok(())
    }
}
