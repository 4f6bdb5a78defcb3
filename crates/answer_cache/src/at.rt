//! What is kept, as what a check knows beforehand.
use crate::cached::CachedAnswers;
use decide::Oracle;
use names::{Node, Object};

/// The answers that are kept of one revision, for a check at it.
///
/// A check says of its oracle after it only that it tells of the view still. So the cache is lent to be read
/// alone, and is afterwards what it was; what a check finds there on its way does not become what was used last.
#[derive(Drop)]
pub struct At<'a> {
    pub kept: &'a CachedAnswers,
    pub revision: u64,
}

impl Oracle for At<'_> {
    ghost use Rattle.answer_cache.specs.Kept.{AreAnswersAt};

    ghost tells = { λ at S. AreAnswersAt at.kept.now at.revision S };

    fn knows(&mut self, node: &Node, user: &Object) -> Option<bool> {
        if !self.kept.may_know(node, user) {
            return None;
        }
        self.kept.peek_at(self.revision, node, user)
    }
}
