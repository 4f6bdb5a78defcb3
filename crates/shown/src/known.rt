//! What is known to a search.
ghost use Rattle.std.specs.Prelude.{IfSome};
ghost use Rattle.meaning.specs.Snap.{Snap};
ghost use Rattle.answer_cache.specs.Kept.{AreAnswersAt};

use answer_cache::{At as AnswersAt, CachedAnswers};
use decide::Oracle;
use group_index::At;
use hot::Hot;
use names::{Node, Object};

/// What is kept at the revision of a search: of marked nodes, which are asked first, of groups, and of checks that were
/// answered before, which are asked last: they alone are found by the hash of whole names.
#[derive(Drop)]
pub(crate) struct Known<'a> {
    pub(crate) hot: Option<&'a Hot>,
    pub(crate) groups: Option<At<'a>>,
    pub(crate) answers: Option<AnswersAt<'a>>,
}

impl Oracle for Known<'_> {
    ghost use Rattle.std.specs.Prelude.{IfSome};
    ghost use Rattle.meaning.specs.Reads.{IsValid};
    ghost use Rattle.answer_cache.specs.Kept.{AreAnswersAt};
    ghost use Rattle.hot.specs.Kept.{IsHot};
    ghost use Rattle.group_index.specs.Indices.{TellsOf};

    ghost tells = { λ known S. IfSome known.hot (λ hot. IsHot hot.now S) × IfSome known.groups (λ at. TellsOf at S) × IsValid S
        × IfSome known.answers (λ at. AreAnswersAt at.kept.now at.revision S) };

    fn knows(&mut self, node: &Node, user: &Object) -> Option<bool> {
        if let Some(hot) = self.hot {
            if let Some(has) = hot.has(node, user) {
                return Some(has);
            }
        }
        if let Some(at) = &self.groups {
            if let Some(has) = at.has(node, user) {
                return Some(has);
            }
        }
        match &mut self.answers {
            Some(at) => at.knows(node, user),
            None => None,
        }
    }
}

/// The answers that are kept of a revision, where any are kept.
pub(crate) fn answers_at(kept: Option<&CachedAnswers>, revision: u64) -> Option<AnswersAt<'_>>
    ensures { (S : Snap) → IfSome kept.entry (λ kept. AreAnswersAt kept.now revision S)
        → IfSome result (λ at. AreAnswersAt at.kept.now at.revision S) }
{
    match kept {
        Some(kept) => Some(AnswersAt { kept, revision }),
        None => None,
    }
}
