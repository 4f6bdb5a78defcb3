//! What later steps leave.
ghost use Rattle.std.specs.Prelude.{ℕ, Bool, List};
ghost use Rattle.meaning.specs.Snap.{Snap};
ghost use Rattle.answer_cache.specs.declared.question.Question.{Question};
ghost use Rattle.answer_cache.specs.Kept.{AreAnswers, AgreeOn};

/// Answers stay right where the snapshots of their revisions stay: no step changes one of an earlier
/// revision.
pub fn answers_stay()
    ensures { (kept : List (Question × Bool)) (before after : ℕ → Snap) → AgreeOn kept before after
        → AreAnswers kept before → AreAnswers kept after }
{}
